//! Words that stand for numbers, for octets and for causes.

ghost use Rattle.std.specs.Prelude.{◌≡◌, ℕ, ◌*◌, ◌/◌, ◌^◌, ◌<◌, ◌≤◌, length, take, drop, IfOk, MatchResult};
ghost use Rattle.std.specs.List.{list_all};
ghost use Rattle.std.specs.Char.{is_ascii_digit};
ghost use Rattle.lapd_script.specs.{cause, number, within, octets};

use crate::kind::FaultKind;
use crate::words::is;
use model_line::Fault;
use std::str;

/// The number of decimal digits that a word is, from `low` to `high`. It may begin with zeros.
pub(crate) fn number(low: u32, high: u32, word: &[u8]) -> Result<u32, FaultKind>
    ensures number { result ≡ number low high word.now }
    ensures range { IfOk result (λ value. (low ≤ value) × (value ≤ high)) }
{
    match value(word) {
        Some(value) if low <= value && value <= high => Ok(value),
        _ => Err(FaultKind::BadNumber),
    }
}

/// The number of 16 bits that a word is.
pub(crate) fn short(word: &[u8]) -> Result<u16, FaultKind>
    ensures { result ≡ number 0 65535 word.now }
{
    Ok(number(0, 65535, word)? as u16)
}

/// The number of 8 bits that a word is.
pub(crate) fn octet(word: &[u8]) -> Result<u8, FaultKind>
    ensures { result ≡ number 0 255 word.now }
{
    Ok(number(0, 255, word)? as u8)
}

/// The number of 32 bits that a word of decimal digits is.
fn value(word: &[u8]) -> Option<u32>
    ensures { (low high : ℕ) → high < 2 ^ 32 → number low high word.now ≡ within low high result }
{
    if !are_digits(word) {
        return None;
    }
    let Ok(digits) = str::from_utf8(word) else {
        return None;
    };
    digits.parse::<u32>().ok()
}

fn are_digits(word: &[u8]) -> bool
    ensures { result ≡ list_all is_ascii_digit word.now }
{
    word.iter().all(|octet| octet.is_ascii_digit())
}

/// Puts the octets that a word of hexadecimal digits stands for into the beginning of `room`, and tells how many.
/// `-` stands for no octets, as a word without digits does. `room` has at least half as many places as the word has
/// digits. Those after half as many as it has stay as they are.
///
/// # Errors
///
/// [`FaultKind::BadOctets`] where the word is neither an even number of hexadecimal digits nor `-`.
pub fn octets(word: &[u8], room: &mut [u8]) -> Result<usize, FaultKind>
    requires { length word.now ≤ 2 * length room.old }
    ensures octets { MatchResult result (λ count. octets word.now ≡ Ok (take count room.new)) (λ kind. octets word.now ≡ Err kind) }
    ensures counted { IfOk result (λ count. count ≤ length room.new) }
    // What stands behind them stays, also where the word is refused.
    ensures rest { drop (length word.now / 2) room.new ≡ drop (length word.now / 2) room.old }
{
    if is(word, b"-") {
        return Ok(0);
    }
    let count = word.len() / 2;
    match hex::decode_to_slice(word, &mut room[..count]) {
        Ok(()) => Ok(count),
        Err(_) => Err(FaultKind::BadOctets),
    }
}

/// What a controller tells by this word.
pub(crate) fn cause(word: &[u8]) -> Result<Fault, FaultKind>
    ensures { result ≡ cause word.now }
{
    match word {
        _ if is(word, b"fcs") => Ok(Fault::Fcs),
        _ if is(word, b"abort") => Ok(Fault::Abort),
        _ if is(word, b"ragged") => Ok(Fault::Ragged),
        _ if is(word, b"short") => Ok(Fault::Short),
        _ => Err(FaultKind::BadCause),
    }
}
