//! An image is read part by part: of which kind the card is; the card; which links wait; and the timers, if it keeps its own.

ghost use Rattle.std.specs.List.{AllZip};
ghost use Rattle.std.specs.Prelude.{◌≡◌, ◌↔◌, ℕ, ◌<◌, Bool, true, List, ◌++◌, flat_map, IfErr, IfOk, IsSome, OnErr};
ghost use Rattle.lapd_timed.specs.Stands.{AreOfLines};
ghost use Rattle.lapd_card.specs.FrameCard.{line_count as frame_line_count};
ghost use Rattle.lapd_card.specs.FrameStands.{FrameStands};
ghost use Rattle.lapd_image.specs.Reads.{HasNone};
ghost use Rattle.lapd_timed.specs.Image.{card_octets, head_of, is_bit_set, is_kind_of_octets, AreTimersRead, AreWaitsRead, HaveNoTimers, IsCardRead, IsSavedCard};
ghost use Rattle.lapd_timed.specs.declared.saved.ImageFault.TheVariants as faults;
ghost use Rattle.model_card.specs.Card.{Card, line_at};
ghost use Rattle.model_image.specs.Images.{marks};
ghost use Rattle.model_image.specs.Sound.{AreMarks};
ghost use Rattle.model_line.specs.Line.{place_at, tei_at};

use super::{ImageFault, MOST_LINES, VERSION};
use crate::card_timers::CardTimers;
use lapd_card::{AnyCard, CardKind, FrameCard, restore_config};
use lapd_image::{BadImage, Reader};
use lapd_store::{RawShelf, Shelf};
use std::alloc::Global;

/// Reads what the octets are, of which version, and of which kind the card is: of octets or frames, and whether it keeps its own
/// timers.
pub(super) fn restore_head(reader: &mut Reader<'_>) -> Result<(CardKind, bool), BadImage>
    ensures read { IfOk result (λ head. reader.old ≡ head_of (is_kind_of_octets head.0) head.1 ++ reader.new) }
    ensures none { OnErr result ((of_octets timed : Bool) (rest : List ℕ) → reader.old ≡ head_of of_octets timed ++ rest → ⊥) }
{
    let front = reader.octets(5)?;
    if front != [b'L', b'A', b'P', b'D', VERSION].as_slice() {
        return Err(BadImage);
    }
    let kind = reader.octet()?;
    if kind > 3 {
        return Err(BadImage);
    }
    let card = if kind % 2 == 1 {
        CardKind::Octets
    } else {
        CardKind::Frames
    };
    Ok((card, kind / 2 == 1))
}

/// Reads a configuration, and then the card of this kind that has it. It takes memory as a start.
// (Apart, it stands once in what a program and the library in C have in common.)
#[inline(never)]
pub(super) fn restore_card(
    alloc: Global,
    kind: CardKind,
    reader: &mut Reader<'_>,
) -> Result<AnyCard, ImageFault>
    ensures read { IfOk result (λ card. IsCardRead kind card reader.old reader.new) }
    ensures none { IfErr result (λ fault. fault ≡ faults.BadImage → HasNone card_octets IsSavedCard reader.old) }
{
    let config = restore_config(reader)?;
    let shelf = RawShelf::start(alloc, u32::from(config.slots), config.n201)?;
    Ok(AnyCard::restore(alloc, kind, config, shelf, reader)?)
}

/// Reads which links of each line wait: none whose TEI is not there.
pub(super) fn restore_waits<S: Shelf>(
    card: &FrameCard<S>,
    reader: &mut Reader<'_>,
) -> Result<[u16; MOST_LINES], BadImage>
    ensures read { IfOk result (λ waits. (m : Card) → FrameStands S.store card.now m → AreWaitsRead m waits reader.old reader.new) }
    ensures none { OnErr result ((m : Card) → FrameStands S.store card.now m → HasNone (flat_map marks) (AllZip (AreMarks m.config) m.lines) reader.old) }
{
    let mut waits = [0; MOST_LINES];
    for line in 0..usize::from(card.config().lines) {
        let links = reader.number(2)? as u16;
        if !are_marks(card, line, links) {
            return Err(BadImage);
        }
        waits[line] = links;
    }
    Ok(waits)
}

/// Reads the timers of a card, if it keeps its own.
pub(super) fn restore_timers<S: Shelf>(
    alloc: Global,
    timed: bool,
    card: &FrameCard<S>,
    reader: &mut Reader<'_>,
) -> Result<Option<CardTimers>, ImageFault>
    requires { (m : Card) × FrameStands S.store card.now m }
    ensures read { IfOk result (λ timers. (m : Card) → FrameStands S.store card.now m → AreTimersRead m timed timers reader.old reader.new) }
    ensures lines { IfOk result (λ timers. AreOfLines (frame_line_count card.now) timers) }
    ensures none { IfErr result (λ fault. fault ≡ faults.BadImage → (m : Card) → FrameStands S.store card.now m → HaveNoTimers m timed reader.old) }
{
    if timed {
        Ok(Some(CardTimers::restore(alloc, card, reader)?))
    } else {
        Ok(None)
    }
}

/// Whether links of a line may wait: those that are marked, bit by bit, are of TEIs on the line.
fn are_marks<S: Shelf>(card: &FrameCard<S>, line: usize, links: u16) -> bool
    requires { line < frame_line_count card.now }
    ensures { (m : Card) → FrameStands S.store card.now m
        → result ≡ true ↔ ((number : ℕ) → number < 16 → is_bit_set links number ≡ true → IsSome (tei_at (place_at number) (line_at line m))) }
{
    for number in 0..16 {
        if (links >> number) % 2 == 1 && card.tei_at(line, number / 2).is_none() {
            return false;
        }
    }
    true
}
