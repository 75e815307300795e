//! A card and its timers in an image.

ghost use Rattle.std.specs.Prelude.{◌≡◌, ◌<◌, ◌≤◌, Option, is_some, length, flat_map, take, IfOk, IfErr};
ghost use Rattle.lapd_card.specs.Image.{IsSavedConfig};
ghost use Rattle.lapd_card.specs.Kinds.{line_count};
ghost use Rattle.lapd_image.specs.Puts.{Puts};
ghost use Rattle.lapd_image.specs.Numbers.{number};
ghost use Rattle.lapd_timed.specs.Stands.{AreOfLines};
ghost use Rattle.lapd_timed.specs.Image.{card_part, head_of, is_octets, lines_in, IsRestoredFrom, IsSavedCard, StandsFor};
ghost use Rattle.lapd_timed.specs.declared.saved.ImageFault.TheVariants as faults;
ghost use Rattle.model_line.specs.ConfigImage.{config as image_of_config};
ghost use Rattle.model_image.specs.Images.{image_of, Saved};
ghost use Rattle.model_image.specs.Sound.{IsSaved};
ghost use Rattle.model_line.specs.Sound.{IsInRange};

mod reading;

use crate::card_timers::CardTimers;
use lapd_card::{AnyCard, Config, RestoreFault, save_config};
use lapd_image::{BadImage, Reader, put_number, put_octets};
use lapd_store::StartFault;
use reading::{restore_card, restore_head, restore_timers, restore_waits};
use std::alloc::{AllocError, Global};
use thiserror::Error;

/// The version of the images that are written and read here.
const VERSION: u8 = 1;

/// As many lines as a card may have.
pub const MOST_LINES: usize = 64;

/// A card that was restored from its image.
#[derive(Debug, Drop)]
pub struct Restored {
    /// The card, of either kind. The ports of one of octets begin anew.
    pub card: AnyCard,
    /// Which links of each line wait for room: bit 1 that of number 0, and so on. There are none after the card's last line.
    pub waits: [u16; MOST_LINES],
    /// Its timers, if it keeps its own.
    pub timers: Option<CardTimers>,
}

/// Why no card was restored.
#[derive(Clone, Copy, PartialEq, Eq, Debug, Error)]
pub enum ImageFault {
    /// The octets are no image: of another version, cut or damaged so that their form shows it, or of no state that a card can
    /// hold.
    #[error("not an image")]
    BadImage,
    /// Memory was refused.
    #[error("out of memory")]
    OutOfMemory,
}

impl From<BadImage> for ImageFault {
    ghost use Rattle.lapd_timed.specs.declared.saved.ImageFault.TheVariants as faults;

    ghost from_gives = { λ _ fault. fault ≡ faults.BadImage };

    fn from(_fault: BadImage) -> ImageFault {
        ImageFault::BadImage
    }
}

impl From<AllocError> for ImageFault {
    ghost use Rattle.lapd_timed.specs.declared.saved.ImageFault.TheVariants as faults;

    ghost from_gives = { λ _ fault. fault ≡ faults.OutOfMemory };

    fn from(_error: AllocError) -> ImageFault {
        ImageFault::OutOfMemory
    }
}

impl From<StartFault> for ImageFault {
    ghost use Rattle.lapd_timed.specs.declared.saved.ImageFault.TheVariants as faults;

    ghost from_gives = { λ _ fault. fault ≡ faults.OutOfMemory };

    fn from(_fault: StartFault) -> ImageFault {
        ImageFault::OutOfMemory
    }
}

impl From<RestoreFault> for ImageFault {
    ghost use Rattle.lapd_card.specs.declared.saved.RestoreFault.TheVariants as cards;
    ghost use Rattle.lapd_timed.specs.declared.saved.ImageFault.TheVariants as faults;

    ghost from_gives = { λ given fault. fault ≡ faults.BadImage → given ≡ cards.BadImage };

    fn from(fault: RestoreFault) -> ImageFault {
        match fault {
            RestoreFault::BadImage => ImageFault::BadImage,
            // A shelf that is made for a card is never too small for it.
            RestoreFault::ShelfTooSmall | RestoreFault::OutOfMemory => ImageFault::OutOfMemory,
        }
    }
}

/// Writes what an image has before the timers.
// (Apart, as `restore_card`.)
#[inline(never)]
pub(crate) fn save_card(
    card: &AnyCard,
    waits: &[u16; MOST_LINES],
    timed: bool,
    out: &mut [u8],
) -> usize
    ensures within { result ≤ length out.new }
    ensures puts { (s : Saved) (timers : Option CardTimers) → StandsFor card.now waits.now timers s → is_some timers ≡ timed → Puts (card_part s) 0 out.old result out.new }
    ensures saved { (s : Saved) (timers : Option CardTimers) → StandsFor card.now waits.now timers s → IsSavedCard (lines_in s) }
{
    let frames = card.frames();
    let at = save_head(is_of_octets(card), timed, out);
    let at = save_its_config(*frames.config(), out, at);
    let at = frames.save(out, at);
    save_waits(frames.lines(), waits, out, at)
}

/// Writes the configuration, a copy: of a value it is known that a seed has 16 bits.
fn save_its_config(config: Config, out: &mut [u8], at: usize) -> usize
    requires within { at ≤ length out.old }
    requires range { IsInRange config }
    ensures puts { Puts (image_of_config config) at out.old result out.new }
    ensures saved { IsSavedConfig config }
{
    save_config(&config, out, at)
}

/// Whether it is a card of octets.
fn is_of_octets(card: &AnyCard) -> bool
    ensures { result ≡ is_octets card.now }
{
    matches!(card, AnyCard::Octets(_))
}

/// Writes what the octets are, of which version, and of which kind the card is.
fn save_head(of_octets: bool, timed: bool, out: &mut [u8]) -> usize
    ensures { Puts (head_of of_octets timed) 0 out.old result out.new }
{
    let kind = u8::from(of_octets) + 2 * u8::from(timed);
    put_octets(out, 0, &[b'L', b'A', b'P', b'D', VERSION, kind])
}

/// Writes which links of each line wait.
fn save_waits(lines: usize, waits: &[u16; MOST_LINES], out: &mut [u8], at: usize) -> usize
    requires lines { lines ≤ 64 }
    requires within { at ≤ length out.old }
    ensures { Puts (flat_map (number 2) (take lines waits.now)) at out.old result out.new }
{
    let mut end = at;
    for line in 0..lines {
        end = put_number(out, end, 2, u64::from(waits[line]));
    }
    end
}

/// Starts a card as its image says, with its own timers if it kept them. It takes memory as a start.
///
/// # Errors
///
/// [`ImageFault::BadImage`] if these octets are the image of no card that may be saved; and [`ImageFault::OutOfMemory`] if
/// memory is refused.
pub fn restore(alloc: Global, octets: &[u8]) -> Result<Restored, ImageFault>
    ensures read { IfOk result (λ restored. IsRestoredFrom octets.now restored.card restored.waits restored.timers) }
    ensures lines { IfOk result (λ restored. AreOfLines (line_count restored.card) restored.timers) }
    ensures none { IfErr result (λ fault. fault ≡ faults.BadImage → (s : Saved) → IsSaved s → image_of s ≡ octets.now → ⊥) }
{
    let mut reader = Reader::new(octets);
    let (kind, timed) = restore_head(&mut reader)?;
    let card = restore_card(alloc, kind, &mut reader)?;
    let waits = restore_waits(card.frames(), &mut reader)?;
    let timers = restore_timers(alloc, timed, card.frames(), &mut reader)?;
    if !reader.is_done() {
        return Err(ImageFault::BadImage);
    }
    Ok(Restored {
        card,
        waits,
        timers,
    })
}
