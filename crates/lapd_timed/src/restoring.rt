//! The moments of a card's timers are read from an image: which of them run follows from the card.

ghost use Rattle.std.specs.Prelude.{◌≡◌, ℕ, ◌+◌, ◌*◌, ◌^◌, ◌<◌, ◌≤◌, get_or, length, IfErr, IfNone, IfOk, IfSome, OnOk, OnErr};
ghost use Rattle.lapd_card.specs.FrameCard.{line_count};
ghost use Rattle.lapd_card.specs.FrameStands.{FrameStands};
ghost use Rattle.lapd_clock.specs.Given.{lengths_of};
ghost use Rattle.lapd_clock.specs.Timer.{AreInRange};
ghost use Rattle.lapd_image.specs.Numbers.{number};
ghost use Rattle.lapd_image.specs.Reads.{HasNone, IsReadAs};
ghost use Rattle.lapd_timed.specs.MomentsRead.{kind_of, own_kind_of, line_part, lines_part, link_part, links_part, own_part, AreLinesRead, AreLinksRead, ArePlacesOf, FallsUntil, IsLineRead, IsLinkRead, IsOwnRead, OwnRest, Passes, RestsAt, RestsHere};
ghost use Rattle.lapd_clock.specs.Firsts.{never};
ghost use Rattle.lapd_clock.specs.OwnPlaces.{AreUntil};
ghost use Rattle.lapd_timed.specs.Image.{these_lengths, AreReadFrom, HasNoTimers};
ghost use Rattle.lapd_timed.specs.Marked.{slot_in};
ghost use Rattle.lapd_timed.specs.declared.saved.ImageFault.TheVariants as faults;
ghost use Rattle.model_card.specs.Card.{Card, line_at};
ghost use Rattle.model_image.specs.Clocks as clocks;
ghost use Rattle.model_timed.specs.Changes.{standing};

use crate::card_timers::{CardTimers, LAST_MOMENT};
use crate::changes::Changes;
use crate::noting::states_of;
use crate::places::slot;
use crate::saved::ImageFault;
use lapd_card::FrameCard;
use lapd_clock::{Lengths, Moments};
use lapd_frame::Timer;
use lapd_image::{BadImage, Reader};
use lapd_store::Shelf;
use std::alloc::Global;

/// The greatest length of a timer, in milliseconds: an hour (profile).
const LONGEST: u64 = 3_600_000;

impl CardTimers {
    /// Starts the timers of a card as they were saved beside it: which run follows from the card, and so does what is noted
    /// of the states of links.
    ///
    /// # Errors
    ///
    /// [`ImageFault::BadImage`] if no timers that may be saved beside it are at the front; [`ImageFault::OutOfMemory`] if
    /// memory is refused.
    pub(crate) fn restore<S: Shelf>(
        alloc: Global,
        card: &FrameCard<S>,
        reader: &mut Reader<'_>,
    ) -> Result<CardTimers, ImageFault>
        requires { (m : Card) × FrameStands S.store card.now m }
        ensures read { IfOk result (λ timers. (m : Card) → FrameStands S.store card.now m → AreReadFrom m timers reader.old reader.new) }
        ensures lines { IfOk result (λ timers. timers.lines ≡ line_count card.now) }
        ensures none { IfErr result (λ fault. fault ≡ faults.BadImage → (m : Card) → FrameStands S.store card.now m → HasNoTimers m reader.old) }
    {
        let lines = card.lines();
        let terminals = usize::from(card.config().terminals);
        let lengths = restore_lengths(reader)?;
        let moment = restore_moment(reader)?;
        let mut moments = Moments::idle(alloc, lines, terminals)?;
        restore_lines(&mut moments, terminals, card, moment + LONGEST, reader)?;
        let mut changes = Changes::start(alloc, lines, 2 * terminals)?;
        note_states(&mut changes, card, moment);
        changes.restore(moment, reader)?;
        Ok(CardTimers {
            lines,
            terminals,
            lengths,
            moment,
            moments,
            changes,
        })
    }
}

/// Reads how long timers run that are started.
fn restore_lengths(reader: &mut Reader<'_>) -> Result<Lengths, BadImage>
    ensures read { IfOk result (λ lengths. IsReadAs clocks.lengths AreInRange (lengths_of lengths) reader.old reader.new) }
    ensures none { OnErr result (HasNone clocks.lengths AreInRange reader.old) }
{
    let t200 = reader.number(4)?;
    let t203 = reader.number(4)?;
    let t201 = reader.number(4)?;
    let t202 = reader.number(4)?;
    let Some(lengths) = lengths_made(t200, t203, t201, t202) else {
        return Err(BadImage);
    };
    Ok(lengths)
}

/// These lengths, if timers may run so long.
fn lengths_made(t200: u64, t203: u64, t201: u64, t202: u64) -> Option<Lengths>
    requires few { t200 < 4294967296 × t203 < 4294967296 × t201 < 4294967296 × t202 < 4294967296 }
    ensures made { IfSome result (λ lengths. lengths_of lengths ≡ these_lengths t200 t203 t201 t202) }
    ensures none { IfNone result (AreInRange (these_lengths t200 t203 t201 t202) → ⊥) }
{
    match Lengths::new(t200 as u32, t203 as u32, t201 as u32) {
        Ok(lengths) => with_t202(lengths, t202 as u32),
        Err(_) => None,
    }
}

/// The same lengths with this one of T202, if it may run so long.
fn with_t202(lengths: Lengths, t202: u32) -> Option<Lengths>
    ensures made { IfSome result (λ made. lengths_of made ≡ record (lengths_of lengths) { t202 = t202 }) }
    ensures none { IfNone result (AreInRange (record (lengths_of lengths) { t202 = t202 }) → ⊥) }
{
    match lengths.with_t202(t202) {
        Ok(made) => Some(made),
        Err(_) => None,
    }
}

/// Reads the moment, which is before `2^63`.
fn restore_moment(reader: &mut Reader<'_>) -> Result<u64, BadImage>
    ensures read { IfOk result (λ moment. IsReadAs (number 8) (λ n. n < 2 ^ 63) moment reader.old reader.new) }
    ensures none { OnErr result (HasNone (number 8) (λ n. n < 2 ^ 63) reader.old) }
{
    let moment = reader.number(8)?;
    if moment > LAST_MOMENT {
        return Err(BadImage);
    }
    Ok(moment)
}

/// Notes the states of all links of a card.
fn note_states<S: Shelf>(changes: &mut Changes, card: &FrameCard<S>, now: u64)
    requires links { changes.old.links ≤ 16 }
    requires few { line_count card.now ≤ 64 }
    requires size { length changes.old.states ≡ line_count card.now * changes.old.links }
    ensures links { changes.new.links ≡ changes.old.links }
    ensures size { length changes.new.states ≡ length changes.old.states }
    ensures moments { length changes.new.moments ≡ length changes.old.moments }
    ensures noted { (m : Card) → FrameStands S.store card.now m → (line number : ℕ) → line < line_count card.now → number < changes.old.links
        → get_or changes.new.states (slot_in changes.new line number) 0 ≡ standing number (line_at line m) }
{
    for line in 0..card.lines() {
        let states = states_of(card, line);
        changes.note_all(line, &states, now);
    }
}

/// Reads the moments of all timers that the lines of a card run, and starts each at its place. So far none runs. None may
/// fall due after the latest moment that is told.
pub(crate) fn restore_lines<S: Shelf>(
    moments: &mut Moments,
    terminals: usize,
    card: &FrameCard<S>,
    latest: u64,
    reader: &mut Reader<'_>,
) -> Result<(), BadImage>
    requires some_time { latest < never }
    requires terminals { terminals ≤ 8 }
    requires few { line_count card.now ≤ 64 }
    requires size { length moments.old ≡ line_count card.now * (4 * terminals + 2) }
    ensures size { OnOk result (length moments.new ≡ length moments.old) }
    ensures until { OnOk result (AreUntil latest moments.old → AreUntil latest moments.new) }
    ensures read { OnOk result ((m : Card) → FrameStands S.store card.now m → AreLinesRead m terminals 0 reader.old reader.old moments.old
        → AreLinesRead m terminals m.config.lines reader.old reader.new moments.new) }
    ensures passes { OnOk result ((m : Card) → FrameStands S.store card.now m → m.config.terminals ≡ terminals
        → Passes (lines_part m m.config.lines) (FallsUntil latest) reader.old reader.new) }
    ensures none { OnErr result ((m : Card) → FrameStands S.store card.now m → m.config.terminals ≡ terminals
        → HasNone (lines_part m m.config.lines) (FallsUntil latest) reader.old) }
{
    for line in 0..card.lines() {
        restore_line(moments, terminals, card, line, latest, reader)?;
    }
    Ok(())
}

/// Reads those of a line: of its links, by their numbers, and then of its own timers.
fn restore_line<S: Shelf>(
    moments: &mut Moments,
    terminals: usize,
    card: &FrameCard<S>,
    line: usize,
    latest: u64,
    reader: &mut Reader<'_>,
) -> Result<(), BadImage>
    requires some_time { latest < never }
    requires terminals { terminals ≤ 8 }
    requires few { line_count card.now ≤ 64 }
    requires line { line < line_count card.now }
    requires size { length moments.old ≡ line_count card.now * (4 * terminals + 2) }
    ensures size { OnOk result (length moments.new ≡ length moments.old) }
    ensures until { OnOk result (AreUntil latest moments.old → AreUntil latest moments.new) }
    ensures read { OnOk result ((m : Card) → FrameStands S.store card.now m → ArePlacesOf m terminals moments.old → RestsHere terminals line moments.old
        → IsLineRead m terminals line reader.old reader.new moments.old moments.new) }
    ensures passes { OnOk result ((m : Card) → FrameStands S.store card.now m → m.config.terminals ≡ terminals
        → Passes (line_part m line) (FallsUntil latest) reader.old reader.new) }
    ensures none { OnErr result ((m : Card) → FrameStands S.store card.now m → m.config.terminals ≡ terminals
        → HasNone (line_part m line) (FallsUntil latest) reader.old) }
{
    restore_links(moments, terminals, card, line, latest, reader)?;
    restore_own(moments, terminals, card, line, latest, reader)
}

/// Reads those of the links of a line.
fn restore_links<S: Shelf>(
    moments: &mut Moments,
    terminals: usize,
    card: &FrameCard<S>,
    line: usize,
    latest: u64,
    reader: &mut Reader<'_>,
) -> Result<(), BadImage>
    requires some_time { latest < never }
    requires terminals { terminals ≤ 8 }
    requires few { line_count card.now ≤ 64 }
    requires line { line < line_count card.now }
    requires size { length moments.old ≡ line_count card.now * (4 * terminals + 2) }
    ensures size { OnOk result (length moments.new ≡ length moments.old) }
    ensures until { OnOk result (AreUntil latest moments.old → AreUntil latest moments.new) }
    ensures read { OnOk result ((m : Card) → FrameStands S.store card.now m → ArePlacesOf m terminals moments.old → RestsHere terminals line moments.old
        → AreLinksRead m terminals line (2 * terminals) reader.old reader.new moments.old moments.new) }
    ensures passes { OnOk result ((m : Card) → FrameStands S.store card.now m → m.config.terminals ≡ terminals
        → Passes (links_part m line (2 * terminals)) (FallsUntil latest) reader.old reader.new) }
    ensures none { OnErr result ((m : Card) → FrameStands S.store card.now m → m.config.terminals ≡ terminals
        → HasNone (links_part m line (2 * terminals)) (FallsUntil latest) reader.old) }
{
    for number in 0..2 * terminals {
        restore_link(moments, terminals, card, line, number, latest, reader)?;
    }
    Ok(())
}

/// Reads that of the timer that a link runs, if it runs one.
fn restore_link<S: Shelf>(
    moments: &mut Moments,
    terminals: usize,
    card: &FrameCard<S>,
    line: usize,
    number: usize,
    latest: u64,
    reader: &mut Reader<'_>,
) -> Result<(), BadImage>
    requires some_time { latest < never }
    requires terminals { terminals ≤ 8 }
    requires few { line_count card.now ≤ 64 }
    requires line { line < line_count card.now }
    requires number { number < 2 * terminals }
    requires size { length moments.old ≡ line_count card.now * (4 * terminals + 2) }
    ensures size { OnOk result (length moments.new ≡ length moments.old) }
    ensures until { OnOk result (AreUntil latest moments.old → AreUntil latest moments.new) }
    ensures read { OnOk result ((m : Card) → FrameStands S.store card.now m → ArePlacesOf m terminals moments.old → RestsAt terminals line number moments.old
        → IsLinkRead m terminals line number reader.old reader.new moments.old moments.new) }
    ensures passes { OnOk result ((m : Card) → FrameStands S.store card.now m → m.config.terminals ≡ terminals
        → Passes (link_part m line number) (FallsUntil latest) reader.old reader.new) }
    ensures none { OnErr result ((m : Card) → FrameStands S.store card.now m → m.config.terminals ≡ terminals
        → HasNone (link_part m line number) (FallsUntil latest) reader.old) }
{
    match card.timer(line, number) {
        None => Ok(()),
        Some(timer) => {
            let place = slot(terminals, line, number, kind_of(timer));
            moments.restore(place, timer, latest, reader)
        }
    }
}

/// Reads that of a line's own timer, if it runs one.
fn restore_own<S: Shelf>(
    moments: &mut Moments,
    terminals: usize,
    card: &FrameCard<S>,
    line: usize,
    latest: u64,
    reader: &mut Reader<'_>,
) -> Result<(), BadImage>
    requires some_time { latest < never }
    requires terminals { terminals ≤ 8 }
    requires few { line_count card.now ≤ 64 }
    requires line { line < line_count card.now }
    requires size { length moments.old ≡ line_count card.now * (4 * terminals + 2) }
    ensures size { OnOk result (length moments.new ≡ length moments.old) }
    ensures until { OnOk result (AreUntil latest moments.old → AreUntil latest moments.new) }
    ensures read { OnOk result ((m : Card) → FrameStands S.store card.now m → ArePlacesOf m terminals moments.old → OwnRest terminals line moments.old
        → IsOwnRead m terminals line reader.old reader.new moments.old moments.new) }
    ensures passes { OnOk result ((m : Card) → FrameStands S.store card.now m → Passes (own_part m line) (FallsUntil latest) reader.old reader.new) }
    ensures none { OnErr result ((m : Card) → FrameStands S.store card.now m → HasNone (own_part m line) (FallsUntil latest) reader.old) }
{
    match card.own_timer(line) {
        None => Ok(()),
        Some(timer) => {
            let place = slot(terminals, line, 0, own_kind_of(timer));
            moments.restore(place, timer, latest, reader)
        }
    }
}

/// Which of the places of a line is that of its own timer.
fn own_kind_of(timer: Timer) -> usize
    ensures is { result ≡ own_kind_of timer }
    ensures few { result ≤ 1 }
{
    match timer {
        Timer::T202 => 1,
        _ => 0,
    }
}

/// Which of the places of a link is that of a timer.
fn kind_of(timer: Timer) -> usize
    ensures is { result ≡ kind_of timer }
    ensures few { result ≤ 3 }
{
    match timer {
        Timer::T203(_, _) => 3,
        _ => 2,
    }
}
