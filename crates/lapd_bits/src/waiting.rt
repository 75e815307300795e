//! The bits that wait to go out on a line.
ghost use Rattle.std.specs.Prelude.{◌≡◌, ◌≤◌, ◌<◌, ◌+◌, ◌^◌, ◌++◌};
ghost use Rattle.model_bits.specs.Bits.{low_bits, flag};

/// A flag, its first bit lowest.
pub(crate) const FLAG: u8 = 0b0111_1110;

/// How many bits a flag has.
const FLAG_BITS: u64 = 8;

/// Bits that wait to go out.
#[derive(Clone, Copy, Debug)]
pub(crate) struct Waiting {
    /// The first to go is the lowest.
    pub(crate) bits: u64,
    /// How many they are.
    pub(crate) count: u64,
    ghost below: { bits < 2 ^ count },
    ghost at_most: { count < 64 },
}

impl Waiting {
    ghost use Rattle.lapd_bits.specs.FramerText.{waits};

    /// Has more bits wait, after the others.
    pub(crate) fn push(&mut self, bits: u64, count: u64)
        requires room { self.old.count + count < 64 }
        requires below { bits < 2 ^ count }
        ensures bits { waits self.new ≡ waits self.old ++ low_bits count bits }
        ensures count { self.new.count ≡ self.old.count + count }
    {
        let bits = self.bits + (bits << self.count);
        *self = Waiting {
            bits,
            count: self.count + count,
        };
    }

    /// Has a flag wait, after the others.
    pub(crate) fn push_flag(&mut self)
        requires room { self.old.count < 56 }
        ensures bits { waits self.new ≡ waits self.old ++ flag }
        ensures count { self.new.count ≡ self.old.count + 8 }
    {
        self.push(u64::from(FLAG), FLAG_BITS);
    }

    /// The first eight of them as an octet.
    #[tactic(auto, using(crate::proofs::Joining::split_octet, crate::proofs::Joining::left_below))]
    pub(crate) fn octet(&mut self) -> u8
        requires eight { 8 ≤ self.old.count }
        ensures bits { waits self.old ≡ low_bits 8 result ++ waits self.new }
        ensures count { self.new.count + 8 ≡ self.old.count }
    {
        let octet = (self.bits % 256) as u8;
        *self = Waiting {
            bits: self.bits / 256,
            count: self.count - 8,
        };
        octet
    }
}
