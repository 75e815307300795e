//! What is remembered in an image of its card.

ghost use Rattle.std.specs.Prelude.{◌≡◌, ◌<◌, ◌≤◌, [], ◌∷◌, ◌++◌, length, All, IfOk, OnErr};
ghost use Rattle.std.specs.List.{list_any};
ghost use Rattle.lapd_frame.specs.Readings.{by_reading};
ghost use Rattle.lapd_image.specs.Numbers.{list_of};
ghost use Rattle.lapd_image.specs.Puts.{Puts};
ghost use Rattle.lapd_image.specs.Reads.{HasNone, IsReadAs};
ghost use Rattle.model_teis.specs.network.Image.{HasRi, IsMemory, IsMemoryOf, remembered, shares};

use super::Memory;
use crate::table::Table;
use lapd_frame::Reading;
use lapd_image::{BadImage, Reader, put_number, put_octet};
use model_teis::network::Remembered;

impl Memory {
    /// Writes the list of what is remembered.
    pub fn save(&self, out: &mut [u8], at: usize) -> usize
        requires { at ≤ length out.old }
        ensures puts { Puts (list_of remembered self.now) at out.old result out.new }
        ensures saved { All HasRi self.now }
    {
        let mut end = put_octet(out, at, self.len() as u8);
        for one in self.latest.as_slice() {
            end = save_one(*one, out, end);
        }
        end
    }

    /// Reads what was remembered by a reading, of TEIs of this table.
    ///
    /// # Errors
    ///
    /// [`BadImage`] if nothing that may be remembered so is at the front.
    pub fn restored(
        reading: Reading,
        table: &Table,
        reader: &mut Reader<'_>,
    ) -> Result<Memory, BadImage>
        ensures read { IfOk result (λ all. IsReadAs (list_of remembered) (IsMemoryOf reading table.now) all reader.old reader.new) }
        ensures none { OnErr result (HasNone (list_of remembered) (IsMemoryOf reading table.now) reader.old) }
    {
        let count = reader.octet()?;
        if count > most(reading) {
            return Err(BadImage);
        }
        let mut memory = Memory::new();
        for _ in 0..count {
            let one = memory.next_restored(table, reader)?;
            memory.latest.push(one);
        }
        Ok(memory)
    }

    // Reads an assignment after those that are remembered.
    fn next_restored(&self, table: &Table, reader: &mut Reader<'_>) -> Result<Remembered, BadImage>
        requires memory { IsMemory table.now self.now }
        requires few { length self.now < 4 }
        ensures read { IfOk result (λ one. IsReadAs remembered (λ one. IsMemory table.now (self.now ++ one ∷ [])) one reader.old reader.new) }
        ensures none { OnErr result (HasNone remembered (λ one. IsMemory table.now (self.now ++ one ∷ [])) reader.old) }
    {
        let one = one_restored(reader)?;
        if !table.is_on(one.tei) || self.shares(one) {
            return Err(BadImage);
        }
        Ok(one)
    }

    // Whether another has the Ri or the TEI of an assignment.
    fn shares(&self, one: Remembered) -> bool
        ensures { result ≡ list_any (shares one) self.now }
    {
        self.latest
            .as_slice()
            .iter()
            .any(|other| other.ri == one.ri || other.tei == one.tei)
    }
}

// How many may be remembered by a reading.
fn most(reading: Reading) -> u8
    ensures { result ≡ by_reading reading 4 0 }
{
    match reading {
        Reading::Profile => 4,
        Reading::AnnexB => 0,
    }
}

// One assignment.
fn save_one(one: Remembered, out: &mut [u8], at: usize) -> usize
    requires { at ≤ length out.old }
    ensures puts { Puts (remembered one) at out.old result out.new }
    ensures saved { HasRi one }
{
    let end = put_number(out, at, 2, u64::from(one.ri));
    put_octet(out, end, one.tei)
}

// Reads one.
fn one_restored(reader: &mut Reader<'_>) -> Result<Remembered, BadImage>
    ensures read { IfOk result (λ one. IsReadAs remembered HasRi one reader.old reader.new) }
    ensures none { OnErr result (HasNone remembered HasRi reader.old) }
{
    let ri = reader.number(2)? as u16;
    let tei = reader.octet()?;
    Ok(Remembered { ri, tei })
}
