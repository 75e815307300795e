//! Octets of an image, written into a room.
//!
//! Each call writes from a place of the room on, and answers the place after. What does not fit is left out: so a caller that has
//! given room enough asks nothing in between.

ghost use Rattle.std.specs.Prelude.{◌≤◌, [], ◌∷◌, length};
ghost use Rattle.lapd_image.specs.Numbers.{number, contents};
ghost use Rattle.lapd_image.specs.Puts.{Puts};

/// One octet.
pub fn put_octet(out: &mut [u8], at: usize, octet: u8) -> usize
    requires { at ≤ length out.old }
    ensures { Puts (octet ∷ []) at out.old result out.new }
{
    if at < out.len() {
        out[at] = octet;
        at + 1
    } else {
        at
    }
}

/// These octets.
pub fn put_octets(out: &mut [u8], at: usize, octets: &[u8]) -> usize
    requires { at ≤ length out.old }
    ensures { Puts octets.now at out.old result out.new }
{
    let count = octets.len().min(out.len() - at);
    out[at..at + count].copy_from_slice(&octets[..count]);
    at + count
}

/// A number in so many octets, the low one first.
pub fn put_number(out: &mut [u8], at: usize, octets: usize, n: u64) -> usize
    requires { at ≤ length out.old }
    ensures { Puts (number octets n) at out.old result out.new }
{
    let mut place = at;
    let mut high = n;
    for _ in 0..octets {
        place = put_octet(out, place, (high % 256) as u8);
        high /= 256;
    }
    place
}

/// Contents: in two octets how many octets they have, and then these.
pub fn put_contents(out: &mut [u8], at: usize, octets: &[u8]) -> usize
    requires { at ≤ length out.old }
    ensures { Puts (contents octets.now) at out.old result out.new }
{
    let at = put_number(out, at, 2, octets.len() as u64);
    put_octets(out, at, octets)
}
