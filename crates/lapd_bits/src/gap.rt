//! What a deframer keeps of the bits since the latest flag, and what the next flag makes of it.
ghost use Rattle.std.specs.Prelude.{◌≡◌, ℕ, ◌<◌, ◌≤◌, ◌+◌, ◌^◌, Bool, List, [], ◌∷◌, ◌++◌, length, min, max, vec_len, IsFalse, Some, take};
ghost use Rattle.model_bits.specs.Bits.{low_bits, bits};
ghost use Rattle.lapd_bits.specs.Register.{HoldsDivision};
ghost use Rattle.model_bits.specs.Stream.{is_short};

use crate::check::{NO_ERROR, divided, divided_all};
use crate::ended::Ended;
use model_bits::Cause;

/// A closing flag without its last bit, as it lies in the octet that was being put together: a 0 and six 1s.
const FLAG_BEGUN: u8 = 0b111_1110;

/// How many bits of a flag come before its last one.
const FLAG_BEGUN_BITS: u8 = 7;

/// How many octets of an overlong frame are held (profile): its address and control fields.
const OVERLONG_KEPT: usize = 4;

/// What has come since the latest flag: the bits of an open gap, of which the whole octets lie in the
/// deframer's room. The bits of the flag that will close it are among them until that flag's last bit.
#[derive(Clone, Copy, Debug)]
pub(crate) struct Gap {
    /// The bits since the flag, stuffed 0s among them; 8 stands for 8 and more.
    pub(crate) since: u8,
    /// The octets that lie in the room: all that have come, or as many as it takes.
    count: usize,
    /// Once more octets have come than there is room for, the frame check's register over all of them.
    beyond: Option<u16>,
    /// The octet that is being put together, and how many bits of it have come.
    partial: u8,
    filled: u8,
    ghost since_counted: { since ≤ 8 },
    ghost no_octet: { filled < 8 },
    ghost filled_since: { filled ≤ since },
    ghost partial_filled: { partial < 2 ^ filled },
}

impl Gap {
    ghost use Rattle.lapd_bits.specs.Deframer.{AssemblesIn, KeepsIn};
    ghost use Rattle.model_bits.specs.OpenGap.{kept_count};
    ghost use Rattle.lapd_bits.specs.Ended.{FitsIn, event_in, closing_event};

    /// The gap that a flag opens, with so many bits behind it in its octet, the first to come lowest.
    #[tactic(auto, using(crate::proofs::Assembly::Assembles_begun))]
    pub(crate) fn begun(bits: u8, since: u8) -> Gap
        requires few { since ≤ 7 }
        requires below { bits < 2 ^ since }
        ensures count { result.count ≡ 0 }
        ensures since { result.since ≡ since }
        ensures stands { (octets : List ℕ) → AssemblesIn octets result (low_bits since bits) }
    {
        Gap {
            since,
            count: 0,
            beyond: None,
            partial: bits,
            filled: since,
        }
    }

    /// How many octets are held, four once there are too many for the room.
    pub(crate) fn held(&self) -> usize
        ensures held { (octets whole : List ℕ) → KeepsIn octets self.now whole
            → result ≡ kept_count (length octets) (length whole) }
        ensures few { result ≤ max OVERLONG_KEPT self.now.count }
    {
        match self.beyond {
            Some(_) => OVERLONG_KEPT,
            None => self.count,
        }
    }

    /// Takes bits that the line brings, the first to come lowest. `since` counts them already.
    pub(crate) fn join(&mut self, octets: &mut Vec<u8>, bits: u8, count: u8)
        requires fits { self.old.count ≤ vec_len octets.old }
        requires at_most { count ≤ 8 }
        requires below { bits < 2 ^ count }
        requires counted { min 8 (self.old.filled + count) ≤ self.old.since }
        ensures room { vec_len octets.new ≡ vec_len octets.old }
        ensures fits { self.new.count ≤ vec_len octets.new }
        ensures since { self.new.since ≡ self.old.since }
        ensures untouched { self.old.filled + count < 8 → octets.new.items ≡ octets.old.items }
        ensures stands { (text : List Bool) → AssemblesIn octets.old.items self.old text
            → AssemblesIn octets.new.items self.new (text ++ low_bits count bits) }
    {
        let joined = above(self.partial, self.filled, bits, count);
        let filled = self.filled + count;
        if filled < 8 {
            self.filled = filled;
            self.partial = joined as u8;
        } else {
            self.filled = filled - 8;
            self.partial = (joined / 256) as u8;
            self.keep(octets, (joined % 256) as u8);
        }
    }

    /// Keeps a whole octet as far as there is room.
    fn keep(&mut self, octets: &mut Vec<u8>, octet: u8)
        requires fits { self.old.count ≤ vec_len octets.old }
        ensures room { vec_len octets.new ≡ vec_len octets.old }
        ensures fits { self.new.count ≤ vec_len octets.new }
        ensures since { self.new.since ≡ self.old.since }
        ensures partial { self.new.partial ≡ self.old.partial }
        ensures filled { self.new.filled ≡ self.old.filled }
        ensures kept { (whole : List ℕ) → KeepsIn octets.old.items self.old whole
            → KeepsIn octets.new.items self.new (whole ++ octet ∷ []) }
    {
        if self.count < octets.len() {
            octets[self.count] = octet;
            self.count += 1;
        } else {
            self.pass_over(octets, octet);
        }
    }

    /// Takes an octet that there is no room for.
    #[inline(never)]
    #[cold]
    #[tactic(auto, using(crate::proofs::Assembly::Keeps_beyond))]
    fn pass_over(&mut self, octets: &Vec<u8>, octet: u8)
        requires full { self.old.count ≡ vec_len octets.now }
        ensures count { self.new.count ≡ self.old.count }
        ensures since { self.new.since ≡ self.old.since }
        ensures partial { self.new.partial ≡ self.old.partial }
        ensures filled { self.new.filled ≡ self.old.filled }
        ensures kept { (whole : List ℕ) → KeepsIn octets.now.items self.old whole
            → KeepsIn octets.now.items self.new (whole ++ octet ∷ []) }
    {
        let register = self.register(octets);
        self.beyond = Some(divided(register, octet));
    }

    /// The frame check's register over all octets that have come.
    fn register(&self, octets: &Vec<u8>) -> u16
        requires fits { self.now.count ≤ vec_len octets.now }
        ensures { (whole : List ℕ) → KeepsIn octets.now.items self.now whole → HoldsDivision result (bits whole) }
    {
        match self.beyond {
            Some(register) => register,
            None => divided_all(&octets[..self.count]),
        }
    }

    /// What a flag ends that closes this gap, its first seven bits among the gap's.
    #[tactic(auto, using(crate::proofs::Assembly::told_rules))]
    pub(crate) fn closed(&self, octets: &Vec<u8>) -> Ended
        requires room { 6 ≤ vec_len octets.now × vec_len octets.now ≤ 1030 }
        requires fits { self.now.count ≤ vec_len octets.now }
        ensures fits { FitsIn (vec_len octets.now) result }
        ensures told { (whole : List ℕ) → KeepsIn octets.now.items self.now whole
            → event_in octets.now.items result ≡ Some (closing_event (length octets.now.items) whole
            (low_bits self.now.filled self.now.partial)) }
    {
        if self.filled != FLAG_BEGUN_BITS || self.partial != FLAG_BEGUN {
            return Ended::Dropped(Cause::Ragged);
        }
        if self.is_short(octets) {
            return Ended::Dropped(Cause::Short);
        }
        if self.register(octets) != NO_ERROR {
            return Ended::Dropped(Cause::Fcs);
        }
        if self.beyond.is_some() {
            return Ended::Overlong;
        }
        Ended::Frame((self.count - 2) as u16)
    }

    fn is_short(&self, octets: &Vec<u8>) -> bool
        requires fits { self.now.count ≤ vec_len octets.now }
        ensures short { result ≡ is_short (take self.now.count octets.now.items) }
        ensures five { IsFalse result → 5 ≤ self.now.count }
    {
        self.count < 5 || self.count == 5 && octets[2] % 4 != 3
    }
}

/// The number with `more` above its `place` low bits.
// A u16 would do, but then what is shifted is cut to 16 bits: an instruction more at each octet.
pub(crate) fn above(number: u8, place: u8, more: u8, count: u8) -> u32
    requires place { place < 8 }
    requires below { number < 2 ^ place }
    requires more { more < 2 ^ count }
    requires count { count ≤ 8 }
    ensures bits { low_bits (place + count) result ≡ low_bits place number ++ low_bits count more }
    ensures below { result < 2 ^ (place + count) }
{
    number as u32 + ((more as u32) << place)
}
