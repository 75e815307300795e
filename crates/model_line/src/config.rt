//! The sizes and limits of a card.

ghost use Rattle.std.specs.Prelude.{◌≡◌, ◌≤◌, Some};
ghost use Rattle.model_line.specs.Config.{first_fault, field_name, is_within};
ghost use Rattle.model_line.specs.Heard.{heard_side};
ghost use Rattle.model_line.specs.Line.{is_terminal, terms, window};
ghost use Rattle.model_line.specs.Sound.{IsInRange};
ghost use Rattle.model_link.specs.Sound as links;
ghost use Rattle.model_line.specs.Taken.{own_side};

use lapd_frame::{MOST_N201, Reading, Sender, Service, Side};
use model_link::Terms;
use std::fmt;

/// The greatest window, modulo 128, and so the most contents that a link keeps (Q.921 clause 5.9.5; profile).
const MOST_K: u16 = 127;

/// How large a card is, and the limits of its lines and links. All memory is taken at the start by these
/// sizes. The ranges are the profile's.
#[derive(Clone, Copy, PartialEq, Eq, Debug)]
pub struct Config {
    /// Lines: 1 to 64.
    pub lines: u16,
    /// TEIs on each line at most: 1 to 8.
    pub terminals: u16,
    /// The window of call control links, SAPI 0: how many I-frames may be outstanding, 1 to 127 (Q.921
    /// clause 5.9.5).
    pub k: u16,
    /// The window of packet links, the second service: 1 to 127.
    pub k16: u16,
    /// Contents that wait on each link, sent or unsent: the greater of `k` and `k16` to 127.
    pub queue: u16,
    /// Unit data that wait on each line: 1 to 16.
    pub unit_queue: u16,
    /// Control frames that wait on each link: 2 to 16. One that finds them all waiting is lost.
    pub control: u16,
    /// Contents that wait on the whole card: 1 to 8192.
    pub slots: u16,
    /// Octets of an information field at most: 8 to 260 (N201, clause 5.9.3).
    pub n201: u16,
    /// How often a command is repeated: 0 to 10 (N200, clause 5.9.2).
    pub n200: u16,
    /// Which side of its lines the card is: it hears the other one.
    pub side: Side,
    /// The SAPI of the second service, [`Service::Packet`](lapd_frame::Service::Packet): 1 to 62, as a rule 16 (Q.921
    /// clause 3.3.3).
    pub sapi: u16,
    /// Whether a card of the user's side is a terminal, whose TEIs the network assigns: the first of its reference numbers,
    /// for which a random number is best. None at a trunk's end, and at the network's side.
    pub seed: Option<u16>,
    /// Which rows of the tables hold where readers of Q.921 differ.
    pub reading: Reading,
}

/// A field of [`Config`], in their order.
#[derive(Clone, Copy, PartialEq, Eq, Debug)]
pub enum Field {
    /// [`Config::lines`].
    Lines,
    /// [`Config::terminals`].
    Terminals,
    /// [`Config::k`].
    K,
    /// [`Config::k16`].
    K16,
    /// [`Config::queue`].
    Queue,
    /// [`Config::unit_queue`].
    UnitQueue,
    /// [`Config::control`].
    Control,
    /// [`Config::slots`].
    Slots,
    /// [`Config::n201`].
    N201,
    /// [`Config::n200`].
    N200,
    /// [`Config::sapi`].
    Sapi,
}

impl Config {
    /// The usual one, for the network's side of a line on which eight TEIs can be: others say in what they differ from it,
    /// as `Config { lines: 4, ..Config::USUAL }`.
    pub const USUAL: Config = Config {
        lines: 1,
        terminals: 8,
        k: 7,
        k16: 7,
        queue: 8,
        unit_queue: 4,
        control: 4,
        slots: 64,
        n201: 260,
        n200: 3,
        side: Side::Network,
        sapi: 16,
        seed: None,
        reading: Reading::Profile,
    };

    /// The first field that is out of range, in the order of the fields; none if all are in range.
    #[tactic(auto, unfolding(crate::specs::Config::sapi_fault))]
    pub fn fault(&self) -> Option<Field>
        ensures { result ≡ first_fault self.now }
    {
        if !is_in(self.lines, 1, 64) {
            return Some(Field::Lines);
        }
        if !is_in(self.terminals, 1, 8) {
            return Some(Field::Terminals);
        }
        if !is_in(self.k, 1, MOST_K) {
            return Some(Field::K);
        }
        if !is_in(self.k16, 1, MOST_K) {
            return Some(Field::K16);
        }
        if !is_in(self.queue, self.k.max(self.k16), MOST_K) {
            return Some(Field::Queue);
        }
        if !is_in(self.unit_queue, 1, 16) {
            return Some(Field::UnitQueue);
        }
        if !is_in(self.control, 2, 16) {
            return Some(Field::Control);
        }
        if !is_in(self.slots, 1, 8192) {
            return Some(Field::Slots);
        }
        if !is_in(self.n201, 8, MOST_N201) {
            return Some(Field::N201);
        }
        if !is_in(self.n200, 0, 10) {
            return Some(Field::N200);
        }
        if !is_in(self.sapi, 1, 62) {
            return Some(Field::Sapi);
        }
        None
    }

    /// Whether it is of a terminal, a card of the user's side whose TEIs the network assigns.
    pub fn is_terminal(&self) -> bool
        ensures { result ≡ is_terminal self.now }
    {
        self.side == Side::User && self.seed.is_some()
    }

    /// Whose frames a line sends: this side's.
    #[inline(always)]
    pub fn own_side(&self) -> Sender
        ensures { result ≡ own_side self.now }
    {
        Sender {
            side: self.side,
            sapi: self.sapi,
        }
    }

    /// The parameters of the link that a service has with a TEI, 0 to 126 (Q.921 clause 5.9). The configuration has to be in
    /// range, and they are then.
    #[tactic(auto, using(crate::proofs::Ranges::ranges_of, crate::proofs::Ranges::terms_in_range))]
    pub fn terms(&self, service: Service, tei: u8) -> Terms
        requires range { IsInRange self.now }
        requires tei { tei ≤ 126 }
        ensures terms { result ≡ terms self.now service tei }
        ensures in_range { links.IsInRange result }
    {
        Terms {
            service,
            tei,
            k: self.window(service) as u8,
            n201: self.n201,
            n200: self.n200 as u8,
            queue: self.queue as u8,
            control: self.control as u8,
            reading: self.reading,
        }
    }

    // The window of a service.
    fn window(&self, service: Service) -> u16
        ensures { result ≡ window self.now service }
    {
        match service {
            Service::Call => self.k,
            Service::Packet => self.k16,
        }
    }

    /// Whose frames a line hears: the other side's.
    #[inline(always)]
    pub fn heard_side(&self) -> Sender
        ensures { result ≡ heard_side self.now }
    {
        Sender {
            side: self.side.other(),
            sapi: self.sapi,
        }
    }
}

fn is_in(value: u16, low: u16, high: u16) -> bool
    ensures { result ≡ is_within low high value }
{
    low <= value && value <= high
}

/// A field prints as its name in [`Config`].
impl fmt::Display for Field {
    ghost output = { λ field. Some (field_name field) };

    fn fmt<W: fmt::Write>(&self, f: &mut fmt::Formatter<W>) -> fmt::Result {
        f.write_str(match self {
            Field::Lines => "lines",
            Field::Terminals => "terminals",
            Field::K => "k",
            Field::K16 => "k16",
            Field::Queue => "queue",
            Field::UnitQueue => "unit_queue",
            Field::Control => "control",
            Field::Slots => "slots",
            Field::N201 => "n201",
            Field::N200 => "n200",
            Field::Sapi => "sapi",
        })
    }
}
