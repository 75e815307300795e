//! The states of links are noted.

ghost use Rattle.std.specs.Prelude.{◌≡◌, ℕ, ◌*◌, ◌<◌, true, get_or, is_some, option_map};
ghost use Rattle.lapd_card.specs.FrameCard.{line_count};
ghost use Rattle.lapd_card.specs.FrameStands.{FrameStands};
ghost use Rattle.model_card.specs.Card.{Card, line_at};
ghost use Rattle.model_line.specs.Line.{tei_at};
ghost use Rattle.model_timed.specs.Changes.{Marks, noted, standing};
ghost use Rattle.lapd_timed.specs.Marked.{has_state, moment_in, IsSameBut, IsOfTei, IsAny, IsTouched};
ghost use Rattle.lapd_timed.specs.Places.{link_on};
ghost use Rattle.lapd_timed.specs.Stands.{held};

use crate::card_timers::CardTimers;
use crate::changes::MOST_LINKS;
use lapd_card::FrameCard;
use lapd_frame::{GROUP, Service};
use lapd_store::Shelf;

impl CardTimers {
    ghost use Rattle.lapd_timed.specs.Stands.{ChangesStand};

    /// Notes the states of the links that an event may have changed: those of a TEI. If it is the group's, a TEI may have come to
    /// the line or left it; then all links of the line are noted, and otherwise none has changed.
    #[inline(always)]
    pub fn note<S: Shelf>(&mut self, card: &FrameCard<S>, line: usize, tei: u8)
        requires line { line < self.old.lines }
        requires card { line < line_count card.now }
        ensures held { held self.new ≡ held self.old }
        ensures noted { (old new : Card) (marks : Marks) → FrameStands S.store card.now new
            → IsSameBut self.old.lines (2 * self.old.terminals) line (IsTouched line tei old new) old new → ChangesStand self.old old marks
            → ChangesStand self.new new (noted self.old.moment new marks) }
    {
        if tei != GROUP {
            self.note_tei(card, line, tei);
        } else if !self.has_same_places(card, line) {
            self.note_line(card, line);
        }
    }

    /// Whether each place of a line that had a TEI when the states of its links were noted last has one, and no other has.
    #[inline(always)]
    fn has_same_places<S: Shelf>(&self, card: &FrameCard<S>, line: usize) -> bool
        requires line { line < self.now.lines }
        requires card { line < line_count card.now }
        ensures { result ≡ true → (m : Card) → FrameStands S.store card.now m → (place : ℕ) → place < self.now.terminals
            → is_some (tei_at place (line_at line m)) ≡ has_state self.now.changes line (2 * place) }
    {
        for place in 0..self.terminals {
            if card.tei_at(line, place).is_some() != self.changes.has_state(line, 2 * place) {
                return false;
            }
        }
        true
    }

    /// Notes the states of the two links of a TEI of a line, where the TEI is on it: after an event that concerns no others.
    #[inline(always)]
    fn note_tei<S: Shelf>(&mut self, card: &FrameCard<S>, line: usize, tei: u8)
        requires line { line < self.old.lines }
        requires card { line < line_count card.now }
        ensures held { held self.new ≡ held self.old }
        ensures noted { (old new : Card) (marks : Marks) → FrameStands S.store card.now new
            → IsSameBut self.old.lines (2 * self.old.terminals) line (IsOfTei line tei new) old new → ChangesStand self.old old marks
            → ChangesStand self.new new (noted self.old.moment new marks) }
    {
        let Some(place) = card.place(line, tei) else {
            return;
        };
        if place < self.terminals {
            let call = card.state(line, Service::Call, tei).unwrap_or(0);
            self.changes.note(line, 2 * place, call, self.moment);
            let packet = card.state(line, Service::Packet, tei).unwrap_or(0);
            self.changes.note(line, 2 * place + 1, packet, self.moment);
        }
    }

    /// Notes the states of all links of a line: after an event by which a TEI may have come to the line, or left it.
    #[inline(never)]
    fn note_line<S: Shelf>(&mut self, card: &FrameCard<S>, line: usize)
        requires line { line < self.old.lines }
        requires card { line < line_count card.now }
        ensures held { held self.new ≡ held self.old }
        ensures noted { (old new : Card) (marks : Marks) → FrameStands S.store card.now new
            → IsSameBut self.old.lines (2 * self.old.terminals) line IsAny old new → ChangesStand self.old old marks
            → ChangesStand self.new new (noted self.old.moment new marks) }
    {
        let states = states_of(card, line);
        self.changes.note_all(line, &states, self.moment);
    }

    /// The moment, in milliseconds, at which the state of a link changed last. That its TEI comes to the line counts as a change.
    /// None is answered where the TEI is not on the line.
    pub fn changed_at<S: Shelf>(
        &self,
        card: &FrameCard<S>,
        line: usize,
        service: Service,
        tei: u8,
    ) -> Option<u64>
        requires line { line < self.now.lines }
        requires card { line < line_count card.now }
        ensures { (m : Card) (marks : Marks) → FrameStands S.store card.now m → ChangesStand self.now m marks
            → result ≡ option_map (moment_in marks line) (link_on service tei (line_at line m)) }
    {
        let number = self.link(card, line, service, tei)?;
        Some(self.changes.at(line, number))
    }

    /// The same, for an owner that has the card besides its timers.
    pub fn changed_within<S: Shelf>(
        &self,
        card: &FrameCard<S>,
        line: usize,
        service: Service,
        tei: u8,
    ) -> Option<u64>
        requires { line < line_count card.now }
        ensures { (m : Card) (marks : Marks) → FrameStands S.store card.now m → ChangesStand self.now m marks
            → result ≡ option_map (moment_in marks line) (link_on service tei (line_at line m)) }
    {
        if line < self.lines {
            self.changed_at(card, line, service, tei)
        } else {
            None
        }
    }
}

/// The states of the links of a line, by their numbers: of no more than eight terminals.
pub(crate) fn states_of<S: Shelf>(card: &FrameCard<S>, line: usize) -> [u8; MOST_LINKS]
    requires { line < line_count card.now }
    ensures { (m : Card) → FrameStands S.store card.now m → (number : ℕ) → number < 16 → get_or result number 0 ≡ standing number (line_at line m) }
{
    let mut states = [0; MOST_LINKS];
    for place in 0..MOST_LINKS / 2 {
        let (call, packet) = card.states_at(line, place).unwrap_or((0, 0));
        states[2 * place] = call;
        states[2 * place + 1] = packet;
    }
    states
}
