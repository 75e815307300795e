//! Takes the stuffed 0s out of an octet at once (clause 2.6), by tables.
ghost use Rattle.std.specs.Prelude.{◌≤◌, ◌<◌, ◌^◌, IfSome};
ghost use Rattle.lapd_bits.specs.Unstuffer.{IsContent};

/// What octets bring, in one piece, so that one address serves for all of it. `bits` and `counts` have eight entries for
/// each octet: for 0 to 7 contiguous 1s right before it.
struct Tables {
    /// The bits that stay of the octet, the first to come lowest.
    bits: [u8; 2048],
    /// How many they are: 0 where something ends in the octet, a flag or seven 1s.
    counts: [u8; 2048],
    runs: [u8; 256],
}

/// Above all that stands in the tables.
const ABOVE: u32 = 256;

/// The table of `bits`, or of `counts`, from an octet's last bit to its first. A row has what stands for the bits so far after
/// 0 to 7 1s, `$a` to `$h`; of a row the bit in front makes two, one for a 0 and one for a 1. A 0 after five 1s was stuffed, and
/// goes. Any bit after six ends something, for which 0 stands in the end, and until then a number above all others; after seven
/// no gap is open.
macro_rules! entries {
    ($how:ident $first:literal) => {
        entries!([[$first, $first, $first, $first, $first, $first, $first, $first]] $how 8 7 6 5 4 3 2 1)
    };
    ([$([$a:expr, $b:expr, $c:expr, $d:expr, $e:expr, $f:expr, $g:expr, $h:expr])*] bits $bit:literal $($more:literal)*) => {
        entries!([$(
            [2 * $a, 2 * $a, 2 * $a, 2 * $a, 2 * $a, $a, ABOVE * ABOVE, $a]
            [2 * $b + 1, 2 * $c + 1, 2 * $d + 1, 2 * $e + 1, 2 * $f + 1, 2 * $g + 1, ABOVE * ABOVE, 2 * $h + 1]
        )*] bits $($more)*)
    };
    ([$([$a:expr, $b:expr, $c:expr, $d:expr, $e:expr, $f:expr, $g:expr, $h:expr])*] counts $bit:literal $($more:literal)*) => {
        entries!([$(
            [$a, $a, $a, $a, $a, $a - 1, ABOVE * ABOVE, $a - 1]
            [$b, $c, $d, $e, $f, $g, ABOVE * ABOVE, $h]
        )*] counts $($more)*)
    };
    ([$([$($entry:expr),*])*] $how:ident) => {
        [$($(if $entry < ABOVE { $entry as u8 } else { 0 },)*)*]
    };
}

static TABLES: Tables = Tables {
    bits: entries!(bits 0),
    counts: entries!(counts 8),
    runs: RUNS,
};

/// The 1s at an octet's end, 7 for more. Those before it don't count: eight 1s come after seven, or end something.
const RUNS: [u8; 256] = [
    0, 0, 0, 0, 0, 0, 0, 0, 0, 0, 0, 0, 0, 0, 0, 0, 0, 0, 0, 0, 0, 0, 0, 0, 0, 0, 0, 0, 0, 0, 0, 0,
    0, 0, 0, 0, 0, 0, 0, 0, 0, 0, 0, 0, 0, 0, 0, 0, 0, 0, 0, 0, 0, 0, 0, 0, 0, 0, 0, 0, 0, 0, 0, 0,
    0, 0, 0, 0, 0, 0, 0, 0, 0, 0, 0, 0, 0, 0, 0, 0, 0, 0, 0, 0, 0, 0, 0, 0, 0, 0, 0, 0, 0, 0, 0, 0,
    0, 0, 0, 0, 0, 0, 0, 0, 0, 0, 0, 0, 0, 0, 0, 0, 0, 0, 0, 0, 0, 0, 0, 0, 0, 0, 0, 0, 0, 0, 0, 0,
    1, 1, 1, 1, 1, 1, 1, 1, 1, 1, 1, 1, 1, 1, 1, 1, 1, 1, 1, 1, 1, 1, 1, 1, 1, 1, 1, 1, 1, 1, 1, 1,
    1, 1, 1, 1, 1, 1, 1, 1, 1, 1, 1, 1, 1, 1, 1, 1, 1, 1, 1, 1, 1, 1, 1, 1, 1, 1, 1, 1, 1, 1, 1, 1,
    2, 2, 2, 2, 2, 2, 2, 2, 2, 2, 2, 2, 2, 2, 2, 2, 2, 2, 2, 2, 2, 2, 2, 2, 2, 2, 2, 2, 2, 2, 2, 2,
    3, 3, 3, 3, 3, 3, 3, 3, 3, 3, 3, 3, 3, 3, 3, 3, 4, 4, 4, 4, 4, 4, 4, 4, 5, 5, 5, 5, 6, 6, 7, 7,
];

/// What an octet brings that ends nothing.
#[derive(Clone, Copy)]
pub(crate) struct Content {
    /// The bits that stay, the first to come lowest, and how many they are.
    pub(crate) bits: u8,
    pub(crate) count: u8,
    /// The contiguous 1s after the octet.
    pub(crate) ones: u8,
    ghost below: { bits < 2 ^ count },
    ghost at_most: { count ≤ 8 },
    ghost few: { ones ≤ 7 },
}

/// What an octet brings after so many contiguous 1s, where it ends nothing. None is no more than slower, and no clause says
/// when it is answered.
#[inline(always)]
pub(crate) fn at_once(ones: u8, octet: u8) -> Option<Content>
    requires { ones ≤ 7 }
    ensures { IfSome result (λ content. IsContent ones octet content.bits content.count content.ones) }
{
    let at = octet as usize * 8 + ones as usize;
    let count = TABLES.counts[at];
    if count == 0 {
        return None;
    }
    Some(Content {
        bits: TABLES.bits[at],
        count,
        ones: TABLES.runs[octet as usize],
    })
}
