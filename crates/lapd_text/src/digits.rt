//! Numbers and octets in digits.

ghost use Rattle.std.specs.Prelude.{◌≡◌, ◌≤◌, ◌+◌, ◌*◌, ◌∷◌, ◌++◌, [], length, take, drop, decimal};
ghost use Rattle.hex.specs.Hex.{encode_upper};

use arrayvec::ArrayVec;

/// The digits of a number of 64 bits.
pub type Digits = ArrayVec<u8, 20>;

/// The decimal digits of a number.
// `write!` would give them too, but does not tell that it succeeds where there is room.
pub fn decimal(number: u64) -> Digits
    ensures { result.items ≡ decimal number }
{
    if number < 10 {
        let mut digits = ArrayVec::new();
        digits.push(b'0' + number as u8);
        return digits;
    }
    let mut digits = decimal(number / 10);
    digits.push(b'0' + (number % 10) as u8);
    digits
}

/// The two upper-case digits of an octet, the high four bits first.
pub fn octet_digits(octet: u8) -> [u8; 2]
    ensures { result ≡ encode_upper (octet ∷ []) }
{
    let mut digits = [0; 2];
    let _ = hex::encode_to_slice([octet], &mut digits);
    [
        digits[0].to_ascii_uppercase(),
        digits[1].to_ascii_uppercase(),
    ]
}

/// Writes the digits of octets at a place.
pub(crate) fn put_digits(out: &mut [u8], at: usize, octets: &[u8])
    requires { at + 2 * length octets.now ≤ length out.old }
    ensures { out.new ≡ take at out.old ++ encode_upper octets.now ++ drop (at + 2 * length octets.now) out.old }
{
    for i in 0..octets.len() {
        put(out, at + 2 * i, &octet_digits(octets[i]));
    }
}

/// Writes octets at a place.
pub(crate) fn put(out: &mut [u8], at: usize, octets: &[u8])
    requires { at + length octets.now ≤ length out.old }
    ensures { out.new ≡ take at out.old ++ octets.now ++ drop (at + length octets.now) out.old }
{
    out[at..at + octets.len()].copy_from_slice(octets);
}
