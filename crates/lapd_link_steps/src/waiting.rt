//! The control frames that wait, in an image of a card.

ghost use Rattle.std.specs.Prelude.{◌≡◌, ◌<◌, ◌≤◌, ◌*◌, [], ◌∷◌, ◌++◌, length, drop, get_or, flat_map, All, IfOk, OnOk, OnErr};
ghost use Rattle.circular_buffer.specs.Buffer.{buffer};
ghost use Rattle.lapd_image.specs.Numbers.{list_of};
ghost use Rattle.lapd_image.specs.Puts.{Puts};
ghost use Rattle.lapd_image.specs.Reads.{HasNone, IsReadAs};
ghost use Rattle.lapd_frame.specs.Grammar.{row};
ghost use Rattle.lapd_link_steps.specs.{ControlFrame};
ghost use Rattle.model_bits.specs.Bits.{bit_value};
ghost use Rattle.lapd_link_steps.specs.Image.{AreWaiting, MayWait};
ghost use Rattle.model_link.specs.Image as image;

use crate::entity::Entity;
use lapd_frame::{Address, Control, Frame, Side, read, write};
use lapd_image::{BadImage, Reader, put_octet, put_octets};
use model_link::ControlFrame;

impl Entity {
    /// Writes the control frames that wait, which an image has after the contents.
    pub fn save_waiting(&self, out: &mut [u8], at: usize) -> usize
        requires within { at ≤ length out.old }
        requires few { length self.now.waiting.items ≤ 255 }
        requires frames { All MayWait self.now.waiting.items }
        ensures { Puts (list_of image.control_frame self.now.waiting.items) at out.old result out.new }
    {
        let at = put_octet(out, at, self.waiting.len() as u8);
        self.save_frames(out, at)
    }

    // The frames one after the other.
    fn save_frames(&self, out: &mut [u8], at: usize) -> usize
        requires within { at ≤ length out.old }
        requires frames { All MayWait self.now.waiting.items }
        ensures { Puts (flat_map image.control_frame self.now.waiting.items) at out.old result out.new }
    {
        let mut end = at;
        for place in 0..self.waiting.len() {
            end = self.save_frame(place, out, end);
        }
        end
    }

    // The frame at a place of the ring.
    fn save_frame(&self, place: usize, out: &mut [u8], at: usize) -> usize
        requires within { at ≤ length out.old }
        requires place { place < length self.now.waiting.items }
        requires frames { All MayWait self.now.waiting.items }
        ensures { (other : ControlFrame) → Puts (image.control_frame (get_or self.now.waiting.items place other)) at out.old result out.new }
    {
        match self.waiting.get(place) {
            Some(frame) => put_frame(out, at, *frame),
            None => at,
        }
    }

    /// Reads control frames, to wait. None may wait before.
    ///
    /// # Errors
    ///
    /// [`BadImage`] if no list of such frames is at the front, or there is no room for so many. Then any may wait.
    pub fn restore_waiting(&mut self, reader: &mut Reader<'_>) -> Result<(), BadImage>
        requires { self.old.waiting.items ≡ [] }
        ensures read { OnOk result (IsReadAs (list_of image.control_frame) (AreWaiting self.old.waiting.capacity) self.new.waiting.items reader.old reader.new) }
        ensures none { OnErr result (HasNone (list_of image.control_frame) (AreWaiting self.old.waiting.capacity) reader.old) }
        ensures ring { self.new.waiting.capacity ≡ self.old.waiting.capacity }
        ensures kept { self.new ≡ record self.old { waiting = self.new.waiting } }
    {
        let count = usize::from(reader.octet()?);
        if count > self.waiting.capacity() {
            return Err(BadImage);
        }
        for _ in 0..count {
            let frame = control_frame(reader)?;
            self.await_sending(frame);
        }
        Ok(())
    }

    // One frame more waits. There has to be room.
    fn await_sending(&mut self, frame: ControlFrame)
        requires { length self.old.waiting.items < self.old.waiting.capacity }
        ensures { self.new ≡ record self.old { waiting = buffer (self.old.waiting.items ++ frame ∷ []) self.old.waiting.capacity } }
    {
        self.waiting.push_back(frame);
    }
}

// A control frame, by the octets after the address of the whole frame that it is. The address is any.
fn put_frame(out: &mut [u8], at: usize, frame: ControlFrame) -> usize
    requires within { at ≤ length out.old }
    requires frame { MayWait frame }
    ensures { Puts (image.control_frame frame) at out.old result out.new }
{
    let mut octets = [0; 4];
    let whole = Frame {
        address: Address {
            sapi: 0,
            command: frame.command,
            tei: 0,
        },
        control: frame.control,
        info: &[],
    };
    let end = write(Side::Network, &whole, &mut octets);
    let at = put_octet(out, at, u8::from(frame.command));
    put_octets(out, at, &octets[2..end])
}

// A control frame is read.
fn control_frame(reader: &mut Reader<'_>) -> Result<ControlFrame, BadImage>
    ensures read { IfOk result (λ frame. IsReadAs image.control_frame MayWait frame reader.old reader.new) }
    ensures none { OnErr result (HasNone image.control_frame MayWait reader.old) }
{
    let command = reader.octet()?;
    let first = reader.octet()?;
    if command > 1 {
        return Err(BadImage);
    }
    if first % 4 == 3 {
        return whole_frame(command == 1, &[2 * command, 1, first]);
    }
    let second = reader.octet()?;
    whole_frame(command == 1, &[2 * command, 1, first, second])
}

// The control frame that waits as this whole frame, of any address.
fn whole_frame(command: bool, octets: &[u8]) -> Result<ControlFrame, BadImage>
    requires { octets.now ≡ 2 * bit_value command ∷ 1 ∷ drop 2 octets.now }
    ensures may { IfOk result (λ frame. MayWait frame) }
    ensures command { IfOk result (λ frame. frame.command ≡ command) }
    ensures field { IfOk result (λ frame. (row frame.control).field ≡ drop 2 octets.now) }
    ensures none { OnErr result ((frame : ControlFrame) → MayWait frame → frame.command ≡ command → (row frame.control).field ≡ drop 2 octets.now → ⊥) }
{
    let frame = match read(Side::Network, octets) {
        Ok(frame) => frame,
        Err(_) => return Err(BadImage),
    };
    if matches!(frame.control, Control::Information { .. }) || !frame.info.is_empty() {
        return Err(BadImage);
    }
    Ok(ControlFrame {
        command,
        control: frame.control,
    })
}
