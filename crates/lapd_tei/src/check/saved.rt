//! The check in an image of its card.

ghost use Rattle.std.specs.Prelude.{◌≡◌, ◌≤◌, true, length, IfNone, IfOk, IfSome, OnErr};
ghost use Rattle.lapd_image.specs.Puts.{Puts};
ghost use Rattle.lapd_image.specs.Reads.{HasNone, IsReadAs};
ghost use Rattle.model_teis.specs.network.Image.{check, period_number};
ghost use Rattle.model_teis.specs.network.Sound.{IsSoundCheck, MayBeIn};

use crate::table::Table;
use lapd_frame::Reading;
use lapd_image::{BadImage, Reader, put_octet, put_octets};
use model_teis::network::{Check, Period};

/// Writes the check that runs, if one does.
pub(crate) fn save(now: Option<Check>, out: &mut [u8], at: usize) -> usize
    requires { at ≤ length out.old }
    ensures { Puts (check now) at out.old result out.new }
{
    match now {
        None => put_octet(out, at, 0),
        Some(own) => {
            let octets = [number(own.period), own.tei, own.first, own.second];
            put_octets(out, at, &octets)
        }
    }
}

/// Reads the check that runs, of a TEI of this table, by a reading.
///
/// # Errors
///
/// [`BadImage`] if no such check is at the front, nor that none runs.
pub(crate) fn restored(
    reading: Reading,
    table: &Table,
    reader: &mut Reader<'_>,
) -> Result<Option<Check>, BadImage>
    ensures read { IfOk result (λ now. IsReadAs check (λ now. IfSome now (IsSoundCheck reading table.now)) now reader.old reader.new) }
    ensures none { OnErr result (HasNone check (λ now. IfSome now (IsSoundCheck reading table.now)) reader.old) }
{
    let number = reader.octet()?;
    if number == 0 {
        return Ok(None);
    }
    let Some(period) = numbered(number) else {
        return Err(BadImage);
    };
    let octets = reader.octets(3)?;
    let own = Check {
        tei: octets[0],
        period,
        first: octets[1],
        second: octets[2],
    };
    let few = own.first <= 1 && own.second <= 1;
    if !table.is_on(own.tei) || !few || !may_be(reading, own) {
        return Err(BadImage);
    }
    Ok(Some(own))
}

// Whether a check may be in its period, with its responses.
fn may_be(reading: Reading, own: Check) -> bool
    ensures yes { result ≡ true → MayBeIn reading own own.period }
    ensures no { MayBeIn reading own own.period → result ≡ true }
{
    match (own.period, reading) {
        (Period::First | Period::Second, _) => true,
        (Period::Settling, Reading::Profile) => false,
        (Period::Settling, Reading::AnnexB) => own.first == 0 && own.second == 0,
    }
}

// The period with this number.
fn numbered(number: u8) -> Option<Period>
    ensures one { IfSome result (λ period. number ≡ period_number period) }
    ensures none { IfNone result ((period : Period) → number ≡ period_number period → ⊥) }
{
    match number {
        1 => Some(Period::First),
        2 => Some(Period::Second),
        3 => Some(Period::Settling),
        _ => None,
    }
}

// Its number.
fn number(period: Period) -> u8
    ensures { result ≡ period_number period }
{
    match period {
        Period::First => 1,
        Period::Second => 2,
        Period::Settling => 3,
    }
}
