//! Which checks are due in an image of their card.

ghost use Rattle.std.specs.Prelude.{◌≡◌, ◌≤◌, true, length, IfOk, OnErr};
ghost use Rattle.lapd_image.specs.Puts.{Puts};
ghost use Rattle.lapd_image.specs.Reads.{HasNone, IsReadAs};
ghost use Rattle.model_teis.specs.network.Image.{IsDueOf, due};
ghost use Rattle.model_teis.specs.network.Sound.{AreSoundChecks, MayBeDue};
ghost use Rattle.model_bits.specs.Bits.{low_bits, number_of};

use super::Due;
use crate::table::Table;
use arrayvec::ArrayVec;
use lapd_frame::Reading;
use lapd_image::{BadImage, Reader, put_octet};
use model_teis::network::Check;

impl Due {
    /// Writes which checks are due, in one octet.
    pub fn save(&self, out: &mut [u8], at: usize) -> usize
        requires { at ≤ length out.old }
        ensures { Puts (due self.now) at out.old result out.new }
    {
        put_octet(out, at, self.octet())
    }

    /// Reads which checks are due beside this one, of the TEIs of this table, by a reading.
    ///
    /// # Errors
    ///
    /// [`BadImage`] if no checks that may be due so are at the front.
    pub fn restored(
        reading: Reading,
        table: &Table,
        check: Option<Check>,
        reader: &mut Reader<'_>,
    ) -> Result<Due, BadImage>
        ensures read { IfOk result (λ to_check. IsReadAs due (IsDueOf reading table.now check) to_check reader.old reader.new) }
        ensures none { OnErr result (HasNone due (IsDueOf reading table.now check) reader.old) }
    {
        let octet = reader.octet()?;
        let all = Due::of_octet(table.len(), octet);
        if all.octet() != octet || !all.may_be(reading, table, check) {
            return Err(BadImage);
        }
        Ok(all)
    }

    // So many bits of an octet, the lowest first.
    fn of_octet(places: usize, octet: u8) -> Due
        requires { places ≤ 8 }
        ensures { result ≡ low_bits places octet }
    {
        let mut bits = ArrayVec::new();
        let mut left = octet;
        for _ in 0..places {
            bits.push(left % 2 == 1);
            left /= 2;
        }
        Due { places: bits }
    }

    // Whether these may be due.
    fn may_be(&self, reading: Reading, table: &Table, check: Option<Check>) -> bool
        requires { length self.now ≡ length table.now }
        ensures yes { result ≡ true → IsDueOf reading table.now check self.now }
        ensures no { IsDueOf reading table.now check self.now → result ≡ true }
    {
        match reading {
            Reading::Profile => !self.is_any(),
            Reading::AnnexB => self.are_beside(table, check),
        }
    }

    // Whether each that is due is of another TEI on the line than the one under check.
    fn are_beside(&self, table: &Table, check: Option<Check>) -> bool
        requires { length self.now ≡ length table.now }
        ensures yes { result ≡ true → AreSoundChecks table.now check self.now }
        ensures no { AreSoundChecks table.now check self.now → result ≡ true }
    {
        for place in 0..self.places.len() {
            if self.places[place] && !may_be_due(table.tei_at(place), check) {
                return false;
            }
        }
        true
    }

    // The octet: a bit for each place, the lowest first.
    fn octet(&self) -> u8
        ensures { result ≡ number_of self.now }
    {
        octet_of(self.places.as_slice())
    }
}

// At most eight bits as an octet, the lowest first.
#[tactic(auto, using(crate::proofs::DueBits::number_next, crate::proofs::DueBits::number_few))]
fn octet_of(bits: &[bool]) -> u8
    requires { length bits.now ≤ 8 }
    ensures { result ≡ number_of bits.now }
{
    let mut octet = 0;
    for place in 0..bits.len() {
        if bits[place] {
            octet += 1 << place;
        }
    }
    octet
}

// Whether a check of the TEI may be due beside the one that runs.
fn may_be_due(tei: Option<u8>, check: Option<Check>) -> bool
    ensures yes { result ≡ true → MayBeDue tei check }
    ensures no { MayBeDue tei check → result ≡ true }
{
    match (tei, check) {
        (Some(tei), Some(own)) => own.tei != tei,
        _ => false,
    }
}
