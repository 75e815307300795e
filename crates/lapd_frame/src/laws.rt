//! What holds of the grammar itself.

ghost use Rattle.std.specs.Prelude.{◌≡◌, ℕ, List, ◌↔◌};
ghost use Rattle.model_bits.specs.StuffingLaws.{AreOctets};
ghost use Rattle.lapd_frame.specs.{Side, ReadFault, IsFault, Parts, Spells, reading};
ghost use Rattle.lapd_frame.specs.declared.senders.Sender.{Sender};
ghost use Rattle.lapd_frame.specs.Senders as named;

/// Octets that spell a frame for a side spell no other, and `reading`, by which `read` and
/// `read_long` are stated, is the grammar read backwards: what was written is read again. This is a
/// law about the definitions in `specs/`; the call does nothing.
pub fn one_spelling()
    ensures one { (side : Side) (frame other : Parts) (octets : List ℕ) →
        Spells side frame octets → Spells side other octets → frame ≡ other }
    ensures read_again { (side : Side) (frame : Parts) (octets : List ℕ) →
        Spells side frame octets → reading side octets ≡ Ok frame }
    ensures spelled { (side : Side) (frame : Parts) (octets : List ℕ) →
        AreOctets octets → reading side octets ≡ Ok frame → Spells side frame octets }
    ensures fault { (side : Side) (fault : ReadFault) (octets : List ℕ) →
        AreOctets octets → ((reading side octets ≡ Err fault) ↔ IsFault side octets fault) }
{}

/// The same holds of a sender, whatever SAPI the second service has on its line (profile): octets that spell a frame of
/// it spell no other, and it reads again what it writes. If that SAPI is 16, it reads what the grammar has for its
/// side. This is a law about the definitions in `specs/Senders.antt`; the call does nothing.
pub fn senders_agree()
    ensures one { (sender : Sender) (frame other : Parts) (octets : List ℕ) →
        named.Spells sender frame octets → named.Spells sender other octets → frame ≡ other }
    ensures read_again { (sender : Sender) (frame : Parts) (octets : List ℕ) →
        named.Spells sender frame octets → named.reading sender octets ≡ Ok frame }
    ensures spelled { (sender : Sender) (frame : Parts) (octets : List ℕ) →
        AreOctets octets → named.reading sender octets ≡ Ok frame → named.Spells sender frame octets }
    ensures usual { (side : Side) (octets : List ℕ) →
        named.reading (record { side = side; sapi = 16 }) octets ≡ reading side octets }
{}
