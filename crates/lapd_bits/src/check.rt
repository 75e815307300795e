//! The frame check sequence (clause 2.7): a division of polynomials over two values, by a table of what it leaves of
//! one octet.
//!
//! The low-order bit of an octet goes first on a line and is the highest power, so a register holds the
//! remainder of the division turned round: its lowest bit is the highest power.
ghost use Rattle.std.specs.Prelude.{◌≡◌, ◌++◌, ◌<◌, ◌≤◌, ◌+◌, ◌*◌, ◌/◌, List, Bool, false, length, take, drop, replicate};
ghost use Rattle.model_bits.specs.Bits.{low_bits, bits};
ghost use Rattle.model_bits.specs.Check.{remainder, check};
ghost use Rattle.lapd_bits.specs.Register.{HoldsDivision};

/// The register before the first bit: the preset to ones.
const PRESET: u16 = 0xFFFF;

/// What the register holds over a frame and its check if there is no error, turned round.
pub(crate) const NO_ERROR: u16 = 0xF0B8;

/// The sums of numbers: of those at whose places an octet has a 1, for each octet.
macro_rules! sums {
    ([$($sum:expr),*]) => { [$($sum),*] };
    ([$($sum:expr),*] $bit:literal $($more:literal)*) => { sums!([$($sum,)* $($sum ^ $bit),*] $($more)*) };
}

/// What the division leaves of each octet with no octet of 0s after it, turned round; then with one octet of 0s after it,
/// and so on up to seven. Division is linear: what it leaves of an octet is the sum of what it leaves of the octet's bits.
static LEFT: [[u16; 256]; 8] = [
    sums!([0] 0x1189 0x2312 0x4624 0x8C48 0x1081 0x2102 0x4204 0x8408),
    sums!([0] 0x19D8 0x33B0 0x6760 0xCEC0 0x9591 0x2333 0x4666 0x8CCC),
    sums!([0] 0x5ADC 0xB5B8 0x6361 0xC6C2 0x8595 0x033B 0x0676 0x0CEC),
    sums!([0] 0x1CBB 0x3976 0x72EC 0xE5D8 0xC3A1 0x8F53 0x16B7 0x2D6E),
    sums!([0] 0x0B44 0x1688 0x2D10 0x5A20 0xB440 0x6091 0xC122 0x8A55),
    sums!([0] 0x042B 0x0856 0x10AC 0x2158 0x42B0 0x8560 0x02D1 0x05A2),
    sums!([0] 0x9FD5 0x37BB 0x6F76 0xDEEC 0xB5C9 0x6383 0xC706 0x861D),
    sums!([0] 0x81BF 0x0B6F 0x16DE 0x2DBC 0x5B78 0xB6F0 0x65F1 0xCBE2),
];

/// The frame check sequence of a frame's octets: the ones complement of what the division by
/// x^16 + x^12 + x^5 + 1 leaves (Q.921 clause 2.7). Its low octet goes first on the line. The check of the text
/// `123456789` is 906E.
#[tactic(auto, using(crate::proofs::Division::Holds::HoldsDivision_check))]
pub fn fcs(octets: &[u8]) -> u16
    ensures is_check { low_bits 16 result ≡ check (bits octets.now) }
{
    !divided_all(octets)
}

/// The frame check sequence of a frame's octets where they lie in two places.
pub(crate) fn fcs_of_both(head: &[u8], info: &[u8]) -> u16
    ensures is_check { low_bits 16 result ≡ check (bits (head.now ++ info.now)) }
{
    if info.is_empty() {
        return fcs(head);
    }
    !divided_more(divided_all(head), info)
}

/// The register after one octet more.
#[tactic(auto, using(crate::proofs::Division::Tables::HoldsDivision_by_octet))]
pub(crate) fn divided(register: u16, octet: u8) -> u16
    ensures { (d : List Bool) → HoldsDivision register d
        → HoldsDivision result (d ++ low_bits 8 octet) }
{
    (register >> 8) ^ left_of((register % 256) as u8 ^ octet, 0)
}

/// The register after all octets.
pub(crate) fn divided_all(octets: &[u8]) -> u16
    ensures { HoldsDivision result (bits octets.now) }
{
    divided_more(PRESET, octets)
}

// The register after octets more.
fn divided_more(register: u16, octets: &[u8]) -> u16
    ensures { (d : List Bool) → HoldsDivision register d → HoldsDivision result (d ++ bits octets.now) }
{
    let after = divided_twos(register, octets);
    if octets.len() % 2 == 0 {
        return after;
    }
    divided(after, octets[octets.len() - 1])
}

// The register after octets more, except for the last of an odd number. What is left of eights is most of a short frame.
fn divided_twos(register: u16, octets: &[u8]) -> u16
    ensures { (d : List Bool) → HoldsDivision register d
        → HoldsDivision result (d ++ bits (take (2 * (length octets.now / 2)) octets.now)) }
{
    let mut after = divided_eights(register, octets);
    for two in octets.len() / 8 * 4..octets.len() / 2 {
        after = divided_two(after, octets, 2 * two);
    }
    after
}

// The register after two octets more.
#[tactic(auto, using(crate::proofs::Division::Tables::HoldsDivision_two))]
fn divided_two(register: u16, octets: &[u8], at: usize) -> u16
    requires two { at + 2 ≤ length octets.now }
    ensures { (d : List Bool) → HoldsDivision register d
        → HoldsDivision result (d ++ bits (take 2 (drop at octets.now))) }
{
    let first = left_of((register % 256) as u8 ^ octets[at], 1);
    let second = left_of((register >> 8) as u8 ^ octets[at + 1], 0);
    first ^ second
}

// The register after octets more, except for those at the end that are fewer than eight. Eight at a time, since a step waits
// for the one before it.
fn divided_eights(register: u16, octets: &[u8]) -> u16
    ensures { (d : List Bool) → HoldsDivision register d
        → HoldsDivision result (d ++ bits (take (8 * (length octets.now / 8)) octets.now)) }
{
    let mut after = register;
    for eight in 0..octets.len() / 8 {
        after = divided_eight(after, octets, 8 * eight);
    }
    after
}

// The register after eight octets more: no part of it stays, since it has as many bits as the first two.
#[tactic(auto, using(crate::proofs::Division::Tables::HoldsDivision_eight))]
fn divided_eight(register: u16, octets: &[u8], at: usize) -> u16
    requires eight { at + 8 ≤ length octets.now }
    ensures { (d : List Bool) → HoldsDivision register d
        → HoldsDivision result (d ++ bits (take 8 (drop at octets.now))) }
{
    // What waits for the register comes last, so that a processor can go on with the others before it is there.
    let others = left_of_six(octets, at + 2);
    let first = left_of((register % 256) as u8 ^ octets[at], 7);
    let second = left_of((register >> 8) as u8 ^ octets[at + 1], 6);
    first ^ (second ^ others)
}

// What is left of six octets.
fn left_of_six(octets: &[u8], at: usize) -> u16
    requires six { at + 6 ≤ length octets.now }
    ensures { low_bits 16 result ≡ remainder (bits (take 6 (drop at octets.now)) ++ replicate 16 false) }
{
    let first = left_of(octets[at], 5);
    let second = left_of(octets[at + 1], 4);
    let third = left_of(octets[at + 2], 3);
    let fourth = left_of(octets[at + 3], 2);
    let fifth = left_of(octets[at + 4], 1);
    let last = left_of(octets[at + 5], 0);
    first ^ (second ^ (third ^ (fourth ^ (fifth ^ last))))
}

// What is left of an octet with so many octets of 0s after it.
#[tactic(auto, using(crate::proofs::Division::Tables::left_at))]
fn left_of(octet: u8, zeros: usize) -> u16
    requires { zeros < 8 }
    ensures { low_bits 16 result ≡ remainder (low_bits 8 octet ++ replicate (8 * zeros + 16) false) }
{
    LEFT[zeros][usize::from(octet)]
}
