//! A configuration in an image, and how long an image of a card with it is at most.

ghost use Rattle.std.specs.Prelude.{◌≡◌, ◌/◌, ◌%◌, ◌<◌, ◌≤◌, [], ◌∷◌, not, length, IfOk, OnErr};
ghost use Rattle.lapd_card.specs.Image.{IsSavedConfig, IsSeed};
ghost use Rattle.lapd_image.specs.Numbers.{number};
ghost use Rattle.lapd_image.specs.Puts.{Puts};
ghost use Rattle.lapd_image.specs.Reads.{IsReadAs, HasNone};
ghost use Rattle.model_bits.specs.Bits.{bit_value, number_of};
ghost use Rattle.model_line.specs.ConfigImage as image;
ghost use Rattle.model_line.specs.ConfigImage.{config_flags, is_annex_b};
ghost use Rattle.model_line.specs.Most.{most_octets, most_clock, most_line, most_teis};
ghost use Rattle.model_line.specs.Sides.{is_network};
ghost use Rattle.model_line.specs.Sound.{IsInRange};

use lapd_frame::{Reading, Side};
use lapd_image::{BadImage, Reader, put_number, put_octets};
use lapd_line::Config;

/// How many octets an image of a card takes at most. A `timed` one has timers of its own. The configuration is in range.
pub fn image_octets(config: &Config, timed: bool) -> usize
    requires { IsInRange config.now }
    ensures { result ≡ most_octets config.now timed }
{
    let clock = if timed { clock_octets(config) } else { 0 };
    let contents = usize::from(config.slots) * (2 + usize::from(config.n201));
    22 + usize::from(config.lines) * line_octets(config) + contents + clock
}

fn clock_octets(config: &Config) -> usize
    requires { IsInRange config.now }
    ensures is { result ≡ most_clock config.now }
    ensures few { result ≤ 16920 }
{
    let links = 2 * usize::from(config.terminals);
    24 + usize::from(config.lines) * (8 * (links + 1)) + usize::from(config.lines) * (8 * links)
}

fn line_octets(config: &Config) -> usize
    requires { IsInRange config.now }
    ensures is { result ≡ most_line config.now }
    ensures few { result ≤ 1784 }
{
    let terminals = usize::from(config.terminals);
    let link = 19 + 3 * usize::from(config.control);
    let units = 1 + usize::from(config.unit_queue);
    terminals + teis_octets(config) + units + 1 + 2 * terminals * link + 8 * 79 + 2
}

fn teis_octets(config: &Config) -> usize
    requires { IsInRange config.now }
    ensures is { result ≡ most_teis config.now }
    ensures few { result ≤ 52 }
{
    if config.is_terminal() {
        7 + 5 * (usize::from(config.terminals) + 1)
    } else {
        39
    }
}

/// Writes a configuration into a room, from a place on, and answers the place after. What does not fit is left out.
pub fn save_config(config: &Config, out: &mut [u8], at: usize) -> usize
    requires within { at ≤ length out.old }
    requires range { IsInRange config.now }
    ensures { Puts (image.config config.now) at out.old result out.new }
{
    let front = [
        flags(config),
        config.lines as u8,
        config.terminals as u8,
        config.k as u8,
        config.k16 as u8,
        config.queue as u8,
        config.unit_queue as u8,
        config.control as u8,
        config.n200 as u8,
        config.sapi as u8,
    ];
    let at = put_octets(out, at, &front);
    let at = put_number(out, at, 2, u64::from(config.slots));
    let at = put_number(out, at, 2, u64::from(config.n201));
    match config.seed {
        Some(seed) => put_number(out, at, 2, u64::from(seed)),
        None => at,
    }
}

fn flags(config: &Config) -> u8
    ensures { result ≡ number_of (config_flags config.now) }
{
    u8::from(config.side == Side::User)
        + 2 * u8::from(config.seed.is_some())
        + 4 * u8::from(config.reading == Reading::AnnexB)
}

/// Reads a configuration, which is in range.
///
/// # Errors
///
/// [`BadImage`] if none is at the front.
pub fn restore_config(reader: &mut Reader<'_>) -> Result<Config, BadImage>
    ensures read { IfOk result (λ c. IsReadAs image.config IsSavedConfig c reader.old reader.new) }
    ensures none { OnErr result (HasNone image.config IsSavedConfig reader.old) }
{
    let front = reader.octets(14)?;
    let flags = front[0];
    if flags > 7 {
        return Err(BadImage);
    }
    let config = Config {
        lines: u16::from(front[1]),
        terminals: u16::from(front[2]),
        k: u16::from(front[3]),
        k16: u16::from(front[4]),
        queue: u16::from(front[5]),
        unit_queue: u16::from(front[6]),
        control: u16::from(front[7]),
        slots: number_of(front[10], front[11]),
        n201: number_of(front[12], front[13]),
        n200: u16::from(front[8]),
        side: side_of(flags),
        sapi: u16::from(front[9]),
        seed: restore_seed(flags / 2 % 2 == 1, reader)?,
        reading: reading_of(flags),
    };
    match config.fault() {
        None => Ok(config),
        Some(_) => Err(BadImage),
    }
}

fn number_of(low: u8, high: u8) -> u16
    ensures octets { number 2 result ≡ low ∷ high ∷ [] }
    ensures small { result < 65536 }
{
    u16::from(low) + 256 * u16::from(high)
}

fn side_of(flags: u8) -> Side
    ensures { bit_value (not (is_network result)) ≡ flags % 2 }
{
    if flags % 2 == 1 {
        Side::User
    } else {
        Side::Network
    }
}

fn reading_of(flags: u8) -> Reading
    requires { flags < 8 }
    ensures { bit_value (is_annex_b result) ≡ flags / 4 }
{
    if flags / 4 == 1 {
        Reading::AnnexB
    } else {
        Reading::Profile
    }
}

/// A seed, if there is one.
fn restore_seed(there: bool, reader: &mut Reader<'_>) -> Result<Option<u16>, BadImage>
    ensures read { IfOk result (λ o. IsReadAs image.seed (IsSeed there) o reader.old reader.new) }
    ensures none { OnErr result (HasNone image.seed (IsSeed there) reader.old) }
{
    if there {
        Ok(Some(reader.number(2)? as u16))
    } else {
        Ok(None)
    }
}
