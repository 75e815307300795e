//! The configuration of a card.

ghost use Rattle.std.specs.Prelude.{◌≡◌, ◌<◌, None, Ok, Err, IfSome, IfOk, IfErr};
ghost use Rattle.lapd_c.specs.{first_fault, config_in, is_unused, side_in, seed_in, sapi_in, reading_in, config_fault};

use crate::plain::statuses::{BAD_READING, BAD_RESERVED, BAD_SIDE, field_status};
use lapd_frame::{Reading, Side};
use model_line::Config;

/// How large a card is, and the limits of its lines and links: [`Config`] in C.
#[repr(C)]
#[derive(Clone, Copy)]
pub struct PlainConfig {
    /// Lines: 1 to 64.
    pub lines: u16,
    /// TEIs on each line at most: 1 to 8.
    pub terminals: u16,
    /// The window of call control links: 1 to 127.
    pub k: u16,
    /// The window of packet links, the second service: 1 to 127.
    pub k16: u16,
    /// Contents that wait on each link: the greater of `k` and `k16` to 127.
    pub queue: u16,
    /// Unit data that wait on each line: 1 to 16.
    pub unit_queue: u16,
    /// Control frames that wait on each link: 2 to 16.
    pub control: u16,
    /// Contents that wait on the whole card: 1 to 8192.
    pub slots: u16,
    /// Octets of an information field at most: 8 to 260.
    pub n201: u16,
    /// How often a command is repeated: 0 to 10.
    pub n200: u16,
    /// Which side of its lines the card is: 0 the network's, 1 the user's at a trunk's end, 2 a terminal.
    pub side: u16,
    /// Of a terminal the first reference number of each line: any; not looked at otherwise.
    pub seed: u16,
    /// The SAPI of the second service: 1 to 62; 0 is 16.
    pub sapi: u16,
    /// Which rows of the tables hold where readers of Q.921 differ: 0 the profile's, 1 annex B's.
    pub reading: u16,
    /// For fields of a later version: 0.
    pub reserved: [u16; 18],
}

/// The side of a number: 0 the network's, otherwise the user's.
pub fn side_in(side: u16) -> Side
    ensures { result ≡ side_in side }
{
    if side == 0 { Side::Network } else { Side::User }
}

/// The first reference number, of a terminal alone.
fn seed_in(side: u16, seed: u16) -> Option<u16>
    ensures { result ≡ seed_in side seed }
{
    if side == 2 { Some(seed) } else { None }
}

/// The SAPI of the second service: 16 where 0 is given.
pub fn sapi_in(sapi: u16) -> u16
    ensures { result ≡ sapi_in sapi }
{
    if sapi == 0 { 16 } else { sapi }
}

/// The reading of a number: 0 the profile, otherwise annex B.
fn reading_in(reading: u16) -> Reading
    ensures { result ≡ reading_in reading }
{
    if reading == 0 {
        Reading::Profile
    } else {
        Reading::AnnexB
    }
}

/// Whether what is for a later version is 0 in each place.
fn is_unused(reserved: &[u16]) -> bool
    ensures { result ≡ is_unused reserved.now }
{
    reserved.iter().all(|place| *place == 0)
}

impl PlainConfig {
    /// The same for the card.
    ///
    /// # Errors
    ///
    /// The status of a start where a field is out of range: that of the first; otherwise `BAD_RESERVED` where what is for a later
    /// version is not 0.
    pub fn read(&self) -> Result<Config, u32>
        ensures fault { IfSome (config_fault self.now) (λ wrong. result ≡ Err wrong) }
        ensures config { config_fault self.now ≡ None → result ≡ Ok (config_in self.now) }
        ensures in_range { IfOk result (λ c. first_fault c ≡ None) }
        ensures wrong { IfErr result (λ wrong. 10 < wrong) }
    {
        let config = Config {
            lines: self.lines,
            terminals: self.terminals,
            k: self.k,
            k16: self.k16,
            queue: self.queue,
            unit_queue: self.unit_queue,
            control: self.control,
            slots: self.slots,
            n201: self.n201,
            n200: self.n200,
            side: side_in(self.side),
            sapi: sapi_in(self.sapi),
            seed: seed_in(self.side, self.seed),
            reading: reading_in(self.reading),
        };
        match config.fault() {
            Some(field) => Err(field_status(field)),
            None if self.side > 2 => Err(BAD_SIDE),
            None if self.reading > 1 => Err(BAD_READING),
            None if !is_unused(&self.reserved) => Err(BAD_RESERVED),
            None => Ok(config),
        }
    }
}
