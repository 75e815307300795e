//! A card of either kind, and what both do alike.

ghost use Rattle.std.specs.Prelude.{◌≡◌, ◌≤◌, ◌<◌, None, OnErr};
ghost use Rattle.lapd_card.specs.{answer_of_request, listed, request_of, starts, told_beside, IsClear};
ghost use Rattle.model_card.specs.Event.{at};
ghost use Rattle.model_line.specs.Event as line_event;
ghost use Rattle.model_line.specs.Event.{told};
ghost use Rattle.lapd_card.specs.Called.{AnyCalled};
ghost use Rattle.lapd_card.specs.Kinds.{Machine, card_in, stored, frames_of, line_count, FrameCardStands, AnyStands};

use crate::card::Card;
use crate::frame_card::FrameCard;
use lapd_frame::{Refusal, Timer};
use lapd_line::{BareReport, Request};
use lapd_store::RawShelf;

/// A card that takes and gives octets, or one that takes and gives whole frames, over a shelf of raw memory.
#[derive(Debug, Drop)]
pub enum AnyCard {
    /// One for lines whose octets come and go, with a port at each.
    Octets(Card<RawShelf>),
    /// One for lines whose controllers do flags, stuffed 0s and checks.
    Frames(FrameCard<RawShelf>),
}

impl AnyCard {
    /// How many lines the card has.
    pub fn lines(&self) -> usize
        ensures count { result ≡ line_count self.now }
        ensures machine { (m : Machine) → AnyStands self.now m → result ≡ (card_in m).config.lines }
        ensures few { (m : Machine) → AnyStands self.now m → result ≤ 64 }
    {
        match self {
            AnyCard::Octets(card) => card.lines(),
            AnyCard::Frames(card) => card.lines(),
        }
    }

    /// The card of frames: itself, or the one inside. It answers what both kinds answer alike.
    pub fn frames(&self) -> &FrameCard<RawShelf>
        ensures card { result.now ≡ frames_of self.now }
        ensures stands { (m : Machine) → AnyStands self.now m → FrameCardStands result.now (card_in m) }
    {
        match self {
            AnyCard::Octets(card) => &card.frames,
            AnyCard::Frames(card) => card,
        }
    }

    /// A timer of a line expired.
    pub fn expire(&mut self, line: usize, timer: Timer, report: &mut BareReport)
        requires within { line < line_count self.old }
        requires clear { IsClear report.old }
        ensures called { AnyCalled (at line (line_event.expiry timer)) (told (told_beside None report.new)) self.old self.new }
        // It starts one timer at most, so applying the orders of what falls due comes to an end.
        ensures starts { starts (listed report.new.orders) ≤ 1 }
    {
        match self {
            AnyCard::Octets(card) => card.frames.expire(line, timer, report),
            AnyCard::Frames(card) => card.expire(line, timer, report),
        }
    }

    /// Serves a request at a line.
    pub fn request(
        &mut self,
        line: usize,
        request: Request<'_>,
        report: &mut BareReport,
    ) -> Result<(), Refusal>
        requires within { line < line_count self.old }
        requires clear { IsClear report.old }
        ensures called { AnyCalled (at line (line_event.request (request_of request.entry))) (answer_of_request result report.new) self.old self.new }
        ensures untold { OnErr result (report.new ≡ report.old) }
    {
        match self {
            AnyCard::Octets(card) => card.frames.request(line, request, report),
            AnyCard::Frames(card) => card.request(line, request, report),
        }
    }

    /// How many octets the card stores now.
    pub fn stored(&self) -> u32
        ensures { (m : Machine) → AnyStands self.now m → result ≡ stored m }
    {
        match self {
            AnyCard::Octets(card) => card.stored(),
            AnyCard::Frames(card) => card.stored(),
        }
    }
}
