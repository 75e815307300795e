//! The places of a card's timers.

ghost use Rattle.std.specs.Prelude.{◌≡◌, ◌+◌, ◌*◌, ◌<◌, ◌≤◌, length, IfSome};
ghost use Rattle.lapd_card.specs.FrameCard.{line_count};
ghost use Rattle.lapd_card.specs.FrameStands.{FrameStands};
ghost use Rattle.model_card.specs.Card.{Card, line_at};
ghost use Rattle.model_line.specs.Line.{link_number as line_number};
ghost use Rattle.lapd_timed.specs.Places.{own_place, link_on, IsOwnOrFound};

use crate::card_timers::CardTimers;
use lapd_card::FrameCard;
use lapd_frame::{Service, Timer};
use lapd_store::Shelf;

impl CardTimers {
    /// The place at which a timer of a line runs, if it runs. That of a TEI which has just left the line is looked for.
    #[inline(always)]
    pub(crate) fn running_place<S: Shelf>(
        &self,
        card: &FrameCard<S>,
        line: usize,
        timer: Timer,
    ) -> Option<usize>
        requires line { line < self.now.lines }
        requires card { line < line_count card.now }
        ensures is { (m : Card) → FrameStands S.store card.now m → m.config.terminals ≡ self.now.terminals
            → IsOwnOrFound result (own_place self.now.terminals line timer (line_at line m)) line timer self.now.moments }
        ensures there { IfSome result (λ place. place < length self.now.moments) }
    {
        match self.place(card, line, timer) {
            Some(place) => Some(place),
            None => self.moments.find(line, timer),
        }
    }

    /// The place of a timer of a line; none if it is one of a TEI that is not on the line.
    #[inline(always)]
    pub(crate) fn place<S: Shelf>(
        &self,
        card: &FrameCard<S>,
        line: usize,
        timer: Timer,
    ) -> Option<usize>
        requires line { line < self.now.lines }
        requires card { line < line_count card.now }
        ensures is { (m : Card) → FrameStands S.store card.now m → m.config.terminals ≡ self.now.terminals
            → result ≡ own_place self.now.terminals line timer (line_at line m) }
        ensures there { IfSome result (λ place. place < length self.now.moments) }
    {
        match timer {
            Timer::T200(service, tei) => {
                let number = self.link(card, line, service, tei)?;
                Some(slot(self.terminals, line, number, 2))
            }
            Timer::T203(service, tei) => {
                let number = self.link(card, line, service, tei)?;
                Some(slot(self.terminals, line, number, 3))
            }
            Timer::T201 => Some(slot(self.terminals, line, 0, 0)),
            Timer::T202 => Some(slot(self.terminals, line, 0, 1)),
        }
    }

    /// The number of the link of a service with a TEI of a line; none where the TEI is not on the line.
    #[inline(always)]
    pub(crate) fn link<S: Shelf>(
        &self,
        card: &FrameCard<S>,
        line: usize,
        service: Service,
        tei: u8,
    ) -> Option<usize>
        requires card { line < line_count card.now }
        ensures is { (m : Card) → FrameStands S.store card.now m → m.config.terminals ≡ self.now.terminals
            → result ≡ link_on service tei (line_at line m) }
        ensures few { IfSome result (λ number. number < 2 * self.now.terminals) }
    {
        let place = card.place(line, tei)?;
        if place < self.terminals {
            Some(link_number(place, service))
        } else {
            None
        }
    }
}

/// The place of a timer of a line, by the number of its link and of its kind; before those of all links are those of T201
/// and T202.
pub(crate) fn slot(terminals: usize, line: usize, number: usize, kind: usize) -> usize
    requires terminals { terminals ≤ 8 }
    requires line { line < 64 }
    requires number { number < 16 }
    requires kind { kind ≤ 3 }
    ensures { result ≡ line * (4 * terminals + 2) + (2 * number + kind) }
{
    line * (4 * terminals + 2) + (2 * number + kind)
}

/// The number of the link of a service at a place of a line.
fn link_number(place: usize, service: Service) -> usize
    requires { place < 8 }
    ensures { result ≡ line_number place service }
{
    match service {
        Service::Call => 2 * place,
        Service::Packet => 2 * place + 1,
    }
}
