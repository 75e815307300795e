//! A clock in C that is saved into an image, and one that is restored from it.

ghost use Rattle.std.specs.Prelude.{◌≡◌, ◌≤◌, IfOk, IfErr};
ghost use Rattle.lapd_clock.specs.Image.{IsNoImage, IsRead};
ghost use Rattle.lapd_c.specs.ClockImages.{IsClockRestore, IsClockSave};
ghost use Rattle.lapd_c.specs.Clocks.{IsHandle};
ghost use Rattle.lapd_c.specs.Saves.{IsFault};
ghost use Rattle.lapd_c.specs.Statuses as status;

use crate::clock::ClockHandle;
use crate::lend::or_answer;
use crate::plain::{BAD_IMAGE, NO_CLOCK, NO_MEMORY, OK, SECOND_START, WRONG_LENGTH};
use lapd_clock::{Clock, ImageFault};
use std::alloc::Global;

/// Writes the image of a clock, and how many octets it has.
#[unsafe(no_mangle)]
pub extern "C" fn lapd_clock_save(
    handle: &mut ClockHandle,
    image: &mut [u8],
    length: &mut usize,
) -> u32
    requires { IsHandle handle.old }
    ensures { IsClockSave handle.old handle.new result (image.old, length.old) (image.new, length.new) }
{
    let clock = or_answer!(handle.clock(), NO_CLOCK);
    if image.len() < clock.image_octets() {
        return WRONG_LENGTH;
    }
    *length = clock.save(image);
    OK
}

/// Starts the clock of an image.
#[unsafe(no_mangle)]
pub extern "C" fn lapd_clock_restore(alloc: Global, handle: &mut ClockHandle, image: &[u8]) -> u32
    requires { IsHandle handle.old }
    ensures { IsClockRestore image.now handle.old handle.new result }
{
    if handle.is_started() {
        return SECOND_START;
    }
    let clock = or_answer!(restored(alloc, image));
    handle.put(clock);
    OK
}

// The clock of an image, or the status of a restore that has none.
fn restored(alloc: Global, image: &[u8]) -> Result<Box<Clock>, u32>
    ensures read { IfOk result (λ clock. IsRead image.now clock.value) }
    ensures lines { IfOk result (λ clock. clock.value.lines ≤ 64) }
    ensures fault { IfErr result (λ fault. fault ≡ status.bad_image → IsNoImage image.now) }
    ensures faults { IfErr result IsFault }
{
    match Clock::restore(alloc, image) {
        Ok(clock) => Box::new(alloc, clock).or(Err(NO_MEMORY)),
        Err(ImageFault::BadImage) => Err(BAD_IMAGE),
        Err(ImageFault::OutOfMemory) => Err(NO_MEMORY),
    }
}
