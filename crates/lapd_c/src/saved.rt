//! A card that is saved into an image, and one that is restored from it.

ghost use Rattle.std.specs.Prelude.{◌≡◌};
ghost use Rattle.lapd_c.specs.{IsHandle};
ghost use Rattle.lapd_c.specs.Saves.{image_octets, IsCardRestore, IsCardSave};

use crate::card::CardHandle;
use crate::kept::KeptCard;
use crate::lend::{lend, or_answer};
use crate::plain::{OK, PlainConfig, SECOND_START, WRONG_LENGTH};
use std::alloc::Global;

/// How many octets an image of a card of this configuration takes at most, of whichever kind; 0 if a field is out of range.
#[unsafe(no_mangle)]
pub extern "C" fn lapd_image_octets(config: &PlainConfig) -> u32
    ensures { result ≡ image_octets config.now }
{
    match config.read() {
        Ok(config) => lapd_card::image_octets(&config, true) as u32,
        Err(_) => 0,
    }
}

/// Writes the image of a card, and how many octets it has.
#[unsafe(no_mangle)]
pub extern "C" fn lapd_card_save(
    handle: &mut CardHandle,
    image: &mut [u8],
    length: &mut usize,
) -> u32
    requires { IsHandle handle.old }
    ensures { IsCardSave handle.old handle.new result (image.old, length.old) (image.new, length.new) }
{
    lend!(kept of handle);
    if image.len() < kept.image_octets() {
        return WRONG_LENGTH;
    }
    *length = kept.save(image);
    OK
}

/// Starts the card of an image.
#[unsafe(no_mangle)]
pub extern "C" fn lapd_card_restore(alloc: Global, handle: &mut CardHandle, image: &[u8]) -> u32
    requires { IsHandle handle.old }
    ensures { IsCardRestore image.now handle.old handle.new result }
{
    if handle.is_started() {
        return SECOND_START;
    }
    let kept = or_answer!(KeptCard::restore(alloc, image));
    handle.put(kept);
    OK
}
