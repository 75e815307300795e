//! A card in an image: its lines, and the counters of its lines.
//!
//! `configs` has its configuration, and how long an image is at most.

ghost use Rattle.std.specs.Prelude.{◌≡◌, ◌≤◌, All, true, false, length, flat_map, IfOk, IfErr, OnOk, OnErr};
ghost use Rattle.lapd_card.specs.{counters_in};
ghost use Rattle.lapd_card.specs.Image.{image, image_of_lines, AreWhole, AreCounted, AreRead, IsSavedOf, Lines, Restores, StandsFor, StayLines, WaitOn};
ghost use Rattle.lapd_card.specs.Lines.{AreFresh};
ghost use Rattle.lapd_card.specs.Start.{is_too_small};
ghost use Rattle.lapd_card.specs.declared.saved.RestoreFault.TheVariants as faults;
ghost use Rattle.lapd_count.specs.Image.{counters, IsCounted};
ghost use Rattle.lapd_image.specs.Puts.{Puts};
ghost use Rattle.lapd_image.specs.Reads.{IsReadAs, HasNone};
ghost use Rattle.model_card.specs.Card as machine;
ghost use Rattle.model_line.specs.Image.{IsWhole};
ghost use Rattle.model_line.specs.Sound.{IsInRange};

mod configs;

use crate::frame_card::FrameCard;
use crate::start::{is_too_small, lines};
pub use configs::{image_octets, restore_config, save_config};
use lapd_image::{BadImage, Reader};
use lapd_line::{Config, FrameLine, Marks, StartFault};
use lapd_store::Shelf;
use std::alloc::Global;
use thiserror::Error;

/// Why no card was restored. The shelf was dropped.
#[derive(Clone, Copy, PartialEq, Eq, Debug, Error)]
pub enum RestoreFault {
    /// The octets are no image of a card with this configuration.
    #[error("not an image")]
    BadImage,
    /// The shelf has fewer slots than the configuration says, or narrower ones than N201, or a slot of it is in use.
    #[error("the shelf is too small")]
    ShelfTooSmall,
    /// Memory was refused.
    #[error("out of memory")]
    OutOfMemory,
}

impl From<BadImage> for RestoreFault {
    ghost use Rattle.lapd_card.specs.declared.saved.RestoreFault.TheVariants as faults;

    ghost from_gives = { λ _ fault. fault ≡ faults.BadImage };

    fn from(_fault: BadImage) -> RestoreFault {
        RestoreFault::BadImage
    }
}

impl From<StartFault> for RestoreFault {
    ghost use Rattle.lapd_card.specs.declared.saved.RestoreFault.TheVariants as faults;

    ghost from_gives = { λ _ fault. fault ≡ faults.OutOfMemory };

    fn from(_fault: StartFault) -> RestoreFault {
        RestoreFault::OutOfMemory
    }
}

impl<S: Shelf> FrameCard<S> {
    ghost use Rattle.lapd_card.specs.FrameStands.{FrameStands};

    /// Writes its lines, and the counters of all lines, into a room, from a place on, and answers the place after. What does not
    /// fit is left out.
    pub fn save(&self, out: &mut [u8], at: usize) -> usize
        requires { at ≤ length out.old }
        ensures within { result ≤ length out.new }
        ensures puts { (l : Lines) → StandsFor S.store self.now l → Puts (image l) at out.old result out.new }
        // And these may be saved, so that a restore takes them.
        ensures saved { (l : Lines) → StandsFor S.store self.now l → IsSavedOf self.now.config l }
    {
        let at = self.save_lines(out, at);
        self.save_counters(out, at)
    }

    fn save_lines(&self, out: &mut [u8], at: usize) -> usize
        requires { at ≤ length out.old }
        ensures within { result ≤ length out.new }
        ensures puts { (m : machine.Card) → FrameStands S.store self.now m → Puts (image_of_lines m.config m.lines) at out.old result out.new }
        ensures saved { (m : machine.Card) → FrameStands S.store self.now m → All (IsWhole m.config) m.lines }
    {
        let mut end = at;
        for line in &self.lines {
            end = line.save(&self.shelf, out, end);
        }
        end
    }

    fn save_counters(&self, out: &mut [u8], at: usize) -> usize
        requires { at ≤ length out.old }
        ensures puts { Puts (flat_map counters (counters_in self.now.lines)) at out.old result out.new }
        ensures saved { All IsCounted (counters_in self.now.lines) }
    {
        let mut end = at;
        for line in &self.lines {
            end = line.save_counters(out, end);
        }
        end
    }

    /// Starts a card with this configuration, which is in range, over a shelf on which nothing lies, and reads its lines and
    /// their counters.
    ///
    /// # Errors
    ///
    /// [`RestoreFault::ShelfTooSmall`] as [`FrameCard::start`]; [`RestoreFault::BadImage`] if no lines that may be saved of
    /// such a card are at the front; [`RestoreFault::OutOfMemory`] if memory is refused.
    pub fn restore(
        alloc: Global,
        config: Config,
        mut shelf: S,
        reader: &mut Reader<'_>,
    ) -> Result<FrameCard<S>, RestoreFault>
        requires { IsInRange config }
        ensures read { IfOk result (λ card. Restores S.store config reader.old reader.new card) }
        ensures config { IfOk result (λ card. card.config ≡ config) }
        ensures shelf { IfErr result (λ fault. fault ≡ faults.ShelfTooSmall → is_too_small config (S.store shelf) ≡ true) }
        ensures room { IfOk result (λ card. is_too_small config (S.store shelf) ≡ false) }
        ensures none { IfErr result (λ fault. fault ≡ faults.BadImage → HasNone image (IsSavedOf config) reader.old) }
    {
        if is_too_small(&config, &shelf) {
            return Err(RestoreFault::ShelfTooSmall);
        }
        let mut lines = lines(alloc, &config)?;
        restore_lines(&config, &mut lines, &mut shelf, reader)?;
        restore_counters(&mut lines, reader)?;
        let waiting = waiting(&lines);
        Ok(FrameCard {
            config,
            lines,
            shelf,
            waiting,
        })
    }
}

/// Reads each line, which is as one that begins.
fn restore_lines<S: Shelf>(
    config: &Config,
    lines: &mut Vec<FrameLine>,
    shelf: &mut S,
    reader: &mut Reader<'_>,
) -> Result<(), BadImage>
    requires range { IsInRange config.now }
    requires fresh { AreFresh config.now lines.old.items }
    requires room { is_too_small config.now (S.store shelf.old) ≡ false }
    ensures read { OnOk result (AreRead config.now reader.old reader.new lines.new.items (S.store shelf.new)) }
    ensures none { OnErr result (HasNone (image_of_lines config.now) (AreWhole config.now) reader.old) }
{
    for number in 0..lines.len() {
        lines[number].restore(reader, shelf, u32::from(config.slots))?;
    }
    Ok(())
}

/// Reads the counters of each line.
fn restore_counters(lines: &mut Vec<FrameLine>, reader: &mut Reader<'_>) -> Result<(), BadImage>
    ensures read { OnOk result (IsReadAs (flat_map counters) (AreCounted (length lines.old.items)) (counters_in lines.new.items) reader.old reader.new) }
    ensures none { OnErr result (HasNone (flat_map counters) (AreCounted (length lines.old.items)) reader.old) }
    ensures stay { OnOk result (StayLines lines.old.items lines.new.items) }
{
    for number in 0..lines.len() {
        lines[number].restore_counters(reader)?;
    }
    Ok(())
}

/// The lines on which a frame waits.
fn waiting(lines: &Vec<FrameLine>) -> Marks
    requires { length lines.now.items ≤ 64 }
    ensures { WaitOn lines.now.items result }
{
    let mut waiting = Marks::none();
    for number in 0..lines.len() {
        waiting.set(number, lines[number].has_next());
    }
    waiting
}
