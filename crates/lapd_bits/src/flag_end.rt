//! What an octet brings in which a flag ends (clause 2.2), at once.
//!
//! If an octet is no flag itself, the six 1s of the flag are those that came right before the octet and those with which
//! it begins. So the flag's last bit is the octet's first 0, and what stands after it depends on the octet alone.
ghost use Rattle.std.specs.Prelude.{◌-◌, ◌≤◌, ◌<◌, ◌^◌, IfSome};
ghost use Rattle.lapd_bits.specs.FlagEnd.{IsFlagEnd};

use crate::stuffer::five_ones;
use crate::waiting::FLAG;

/// The contiguous 1s in a flag.
const FLAG_ONES: u8 = 6;

/// What an octet brings in which a flag ends and nothing else does.
#[derive(Clone, Copy)]
pub(crate) struct FlagEnd {
    /// The bits before the flag's last, the first to come lowest, and how many they are.
    pub(crate) front: u8,
    pub(crate) before: u8,
    /// The bits behind it, the first to come lowest: all stay.
    pub(crate) behind: u8,
    /// The contiguous 1s after the octet.
    pub(crate) ones: u8,
    ghost at_most: { before ≤ 7 },
    ghost below: { front < 2 ^ before },
    ghost below_behind: { behind < 2 ^ (7 - before) },
    ghost few: { ones ≤ 7 },
}

/// What an octet brings after so many contiguous 1s in which a flag ends and nothing else does, and no stuffed 0 is. None is
/// no more than slower, and no clause says when it is answered.
pub(crate) fn flag_end(ones: u8, octet: u8) -> Option<FlagEnd>
    requires { ones ≤ 7 }
    ensures { IfSome result (λ flag. IsFlagEnd ones octet flag.before flag.front flag.behind flag.ones) }
{
    // A whole flag, of which the first 0 is not stuffed.
    if octet == FLAG && ones < 5 {
        return Some(FlagEnd {
            front: FLAG,
            before: 7,
            behind: 0,
            ones: 0,
        });
    }
    let before = FLAG_ONES.checked_sub(ones)?;
    let front = (1 << before) - 1;
    let upto = before + 1;
    let behind = octet >> upto;
    if octet % (1 << upto) != front || five_ones(0, u64::from(behind)) != 0 {
        return None;
    }
    Some(FlagEnd {
        front,
        before,
        behind,
        ones: octet.leading_ones() as u8,
    })
}
