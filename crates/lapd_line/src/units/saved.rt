//! Unit data that waits in an image of its card.

ghost use Rattle.std.specs.Prelude.{◌≡◌, ◌+◌, ◌*◌, ◌/◌, ◌<◌, ◌≤◌, All, List, [], length, slice_get, OnOk, OnErr, Some};
ghost use Rattle.lapd_image.specs.Numbers.{contents, list_of};
ghost use Rattle.lapd_image.specs.Puts.{Puts};
ghost use Rattle.lapd_line.specs.ImageParts.{HasNoUnit, HasNoUnits, RestoresUnit, RestoresUnits, UnitComes, UnitsStand};
ghost use Rattle.lapd_line.specs.{Owned, SameLimits, used_slots};
ghost use Rattle.model_bits.specs.StuffingLaws.{AreOctets};
ghost use Rattle.model_line.specs.Image as image;
ghost use Rattle.model_line.specs.Image.{service_bit};
ghost use Rattle.model_line.specs.Line.{UnitData};

use super::{QueuedUnit, Units};
use lapd_frame::Service;
use lapd_image::{BadImage, Reader, put_contents, put_octet};
use lapd_store::Shelf;

/// For which terminals unit data is, in one octet.
fn receivers(service: Service, tei: u8) -> u8
    requires { tei ≤ 127 }
    ensures { result ≡ 2 * tei + service_bit service }
{
    match service {
        Service::Call => 2 * tei,
        Service::Packet => 2 * tei + 1,
    }
}

/// The service of terminals that are named so.
fn service_of(receivers: u8) -> Service
    ensures { 2 * (receivers / 2) + service_bit result ≡ receivers }
{
    if receivers % 2 == 1 {
        Service::Packet
    } else {
        Service::Call
    }
}

/// Writes unit data into a room, from a place on, and answers the place after. What does not fit is left out.
fn put_unit(out: &mut [u8], at: usize, service: Service, tei: u8, contents: &[u8]) -> usize
    requires within { at ≤ length out.old }
    requires tei { tei ≤ 127 }
    ensures puts { Puts (image.unit (record { service = service; tei = tei; contents = contents.now })) at out.old result out.new }
    ensures saved { AreOctets contents.now }
{
    let at = put_octet(out, at, receivers(service, tei));
    put_contents(out, at, contents)
}

impl Units {
    /// Writes them into a room, from a place on, and answers the place after. What does not fit is left out.
    pub(crate) fn save<S: Shelf>(&self, shelf: &S, out: &mut [u8], at: usize) -> usize
        requires within { at ≤ length out.old }
        requires few { length self.now.waiting ≤ 255 }
        requires teis { All (λ unit. unit.tei ≤ 127) self.now.waiting }
        requires stands { (others : List Owned) × (units : List UnitData) × UnitsStand self.now.waiting (S.store shelf.now) others units }
        ensures puts { (others : List Owned) (units : List UnitData) → UnitsStand self.now.waiting (S.store shelf.now) others units
            → Puts (list_of image.unit units) at out.old result out.new }
        ensures saved { (others : List Owned) (units : List UnitData) → UnitsStand self.now.waiting (S.store shelf.now) others units
            → All (λ unit. AreOctets unit.contents) units }
    {
        let mut end = put_octet(out, at, self.len() as u8);
        for index in 0..self.len() {
            end = self.save_one(index, shelf, out, end);
        }
        end
    }

    /// One of them.
    fn save_one<S: Shelf>(&self, index: usize, shelf: &S, out: &mut [u8], at: usize) -> usize
        requires there { index < length self.now.waiting }
        requires within { at ≤ length out.old }
        requires teis { All (λ unit. unit.tei ≤ 127) self.now.waiting }
        requires stands { (others : List Owned) × (units : List UnitData) × UnitsStand self.now.waiting (S.store shelf.now) others units }
        ensures puts { (others : List Owned) (units : List UnitData) (unit : UnitData) → UnitsStand self.now.waiting (S.store shelf.now) others units
            → slice_get units index ≡ Some unit → Puts (image.unit unit) at out.old result out.new }
        ensures saved { (others : List Owned) (units : List UnitData) (unit : UnitData) → UnitsStand self.now.waiting (S.store shelf.now) others units
            → slice_get units index ≡ Some unit → AreOctets unit.contents }
    {
        match self.at(index) {
            Some(unit) => put_unit(out, at, unit.service, unit.tei, shelf.get(&unit.slot)),
            None => at,
        }
    }

    /// Reads what was saved of unit data, where none waits. All users of the shelf together may hold `slots` contents.
    ///
    /// # Errors
    ///
    /// [`BadImage`] if none that may be saved is at the front, or its contents are too many.
    pub(crate) fn restore<S: Shelf>(
        &mut self,
        n201: u16,
        reader: &mut Reader<'_>,
        shelf: &mut S,
        slots: u32,
    ) -> Result<(), BadImage>
        requires empty { self.old.waiting ≡ [] }
        requires wide { n201 ≤ (S.store shelf.old).width }
        requires slots { slots ≤ (S.store shelf.old).slots }
        requires used { used_slots (S.store shelf.old) ≤ slots }
        ensures read { OnOk result (RestoresUnits n201 self.old.capacity reader.old reader.new (S.store shelf.old) self.new.waiting (S.store shelf.new)) }
        ensures none { OnErr result (HasNoUnits n201 self.old.capacity slots reader.old (S.store shelf.old)) }
        ensures capacity { self.new.capacity ≡ self.old.capacity }
        ensures limits { SameLimits (S.store shelf.old) (S.store shelf.new) }
        ensures used { used_slots (S.store shelf.new) ≤ slots }
    {
        let count = usize::from(reader.octet()?);
        if count > self.capacity() {
            return Err(BadImage);
        }
        for _ in 0..count {
            self.restore_one(n201, reader, shelf, slots)?;
        }
        Ok(())
    }

    /// Reads the newest.
    fn restore_one<S: Shelf>(
        &mut self,
        n201: u16,
        reader: &mut Reader<'_>,
        shelf: &mut S,
        slots: u32,
    ) -> Result<(), BadImage>
        requires room { length self.old.waiting < self.old.capacity }
        requires wide { n201 ≤ (S.store shelf.old).width }
        requires slots { slots ≤ (S.store shelf.old).slots }
        requires used { used_slots (S.store shelf.old) ≤ slots }
        ensures read { OnOk result (RestoresUnit n201 reader.old reader.new self.old.waiting (S.store shelf.old) self.new.waiting (S.store shelf.new)) }
        ensures none { OnErr result (HasNoUnit n201 slots reader.old (S.store shelf.old)) }
        ensures capacity { self.new.capacity ≡ self.old.capacity }
        ensures limits { SameLimits (S.store shelf.old) (S.store shelf.new) }
        ensures used { used_slots (S.store shelf.new) ≤ slots }
    {
        let receivers = reader.octet()?;
        let contents = reader.contents()?;
        if contents.len() > usize::from(n201) {
            return Err(BadImage);
        }
        self.keep(service_of(receivers), receivers / 2, contents, shelf, slots)
    }

    /// Keeps the newest, if there is room for its contents.
    fn keep<S: Shelf>(
        &mut self,
        service: Service,
        tei: u8,
        contents: &[u8],
        shelf: &mut S,
        slots: u32,
    ) -> Result<(), BadImage>
        requires room { length self.old.waiting < self.old.capacity }
        requires size { length contents.now ≤ (S.store shelf.old).width }
        requires slots { slots ≤ (S.store shelf.old).slots }
        requires used { used_slots (S.store shelf.old) ≤ slots }
        ensures comes { OnOk result (UnitComes (record { service = service; tei = tei; contents = contents.now }) self.old.waiting (S.store shelf.old) self.new.waiting (S.store shelf.new)) }
        ensures full { OnErr result (slots ≤ used_slots (S.store shelf.old)) }
        ensures capacity { self.new.capacity ≡ self.old.capacity }
        ensures limits { SameLimits (S.store shelf.old) (S.store shelf.new) }
        ensures used { used_slots (S.store shelf.new) ≤ slots }
    {
        if shelf.used() >= slots {
            return Err(BadImage);
        }
        // There is a free slot: fewer than `slots` are used.
        let Some(slot) = shelf.put(contents) else {
            return Err(BadImage);
        };
        self.push(QueuedUnit { service, tei, slot });
        Ok(())
    }
}
