//! Stuffs bits at once (clause 2.6): finds where five 1s come together, and puts a 0 after each fifth.
ghost use Rattle.std.specs.Prelude.{◌≡◌, ◌<◌, ◌≤◌, ◌+◌, ◌*◌, ◌/◌, ◌^◌, [], IsTrue};
ghost use Rattle.model_bits.specs.Bits.{low_bits};
ghost use Rattle.lapd_bits.specs.Stuffer.{Goes, last_ones, fives};

/// How many bits of a text are looked at to see its last 1s. There are never more than four, since a 0 goes after a fifth.
const LATEST: u64 = 4;

/// What bits make of themselves on a line.
#[derive(Clone, Copy)]
pub(crate) struct Stuffed {
    /// The bits, the first to go lowest, and how many they are.
    pub(crate) bits: u64,
    pub(crate) count: u64,
    /// The latest four of the text, the last of them highest.
    pub(crate) latest: u64,
    ghost below: { bits < 2 ^ count },
    ghost four: { latest < 16 },
}

impl Stuffed {
    /// What these bits, `count` of them, make of themselves after a text that ends in these four.
    #[inline(always)]
    pub(crate) fn after(latest: u64, bits: u64, count: u64) -> Stuffed
        requires four { latest < 16 }
        requires few { count ≤ 40 }
        requires below { bits < 2 ^ count }
        ensures goes { Goes [] (last_ones latest) (low_bits count bits) (low_bits result.count result.bits) (last_ones result.latest) }
        ensures at_least { count ≤ result.count }
        ensures pays { 5 * result.count + last_ones result.latest ≤ 6 * count + last_ones latest }
    {
        let mut text = latest + (bits << LATEST);
        let mut total = count;
        let mut due = five_ones(latest, bits);
        while due != 0 {
            let after = due.trailing_zeros() + 5;
            // What stands after the fifth 1 moves up by one, and the count of 1s begins anew.
            text += text >> after << after;
            due = due >> after << after << 1;
            total += 1;
        }
        Stuffed {
            bits: text >> LATEST,
            count: total,
            latest: text >> total,
        }
    }
}

/// True only if four octets, the first lowest, go as they are after the latest four bits of a text: nowhere do five 1s
/// come together. False is no more than slower.
#[inline(always)]
pub(crate) fn go_as_they_are(latest: u64, four: u32) -> bool
    requires { latest < 16 }
    ensures { IsTrue result → Goes [] (last_ones latest) (low_bits 32 four) (low_bits 32 four) (last_ones (four / 2 ^ 28)) }
{
    five_ones(latest, u64::from(four)) == 0
}

// The places where five 1s begin, in the latest four bits of a text and those after them.
#[inline(always)]
pub(crate) fn five_ones(latest: u64, bits: u64) -> u64
    requires four { latest < 16 }
    requires few { bits < 2 ^ 40 }
    ensures { result ≡ fives (latest + bits * 16) }
{
    let text = latest + (bits << LATEST);
    let twos = text & (text >> 1);
    twos & (twos >> 2) & bits
}
