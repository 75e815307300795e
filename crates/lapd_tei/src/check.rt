//! The check of a TEI.

ghost use Rattle.std.specs.Prelude.{◌≡◌, ◌≤◌};
ghost use Rattle.lapd_tei.specs.{counted, responses, is_unanswered};

mod saved;

use model_teis::network::{Check, Period};
pub(crate) use saved::{restored, save};

// The check with one response more in its period: with no more, while it settles.
pub(crate) fn counted(check: Check) -> Check
    requires first { check.first ≤ 1 }
    requires second { check.second ≤ 1 }
    ensures { result ≡ counted check }
{
    match check.period {
        Period::First => Check {
            first: check.first + 1,
            ..check
        },
        Period::Second => Check {
            second: check.second + 1,
            ..check
        },
        Period::Settling => check,
    }
}

// How many responses came in its period.
pub(crate) fn responses(check: Check) -> u8
    ensures { result ≡ responses check }
{
    match check.period {
        Period::First => check.first,
        Period::Second => check.second,
        Period::Settling => 0,
    }
}

// Whether no response came in either period.
pub(crate) fn is_unanswered(check: Check) -> bool
    ensures { result ≡ is_unanswered check }
{
    check.first == 0 && check.second == 0
}
