//! The card of octets: a card, and a port for each of its lines.

ghost use Rattle.std.specs.Prelude.{◌≡◌, ◌≤◌, ◌<◌, Some, None, IsSome, IfOk, IfErr, IfNone, IfSome, OnErr, slice_get, length};
ghost use Rattle.std.specs.Option.{option_copied};
ghost use Rattle.lapd_card.specs.{report_told, told_beside, pulled_of, RisesByExpiry, RisesByRequest, may_send, refusal, request_of, starts, ended_at, frame_begun_at, head_begun_at, head_heard_at, heard_of};
ghost use Rattle.model_card.specs.Card as frames;
ghost use Rattle.model_card.specs.ports.Card as machine;
ghost use Rattle.model_card.specs.ports.Card.{after, answer, meant};
ghost use Rattle.model_card.specs.ports.Event.{at};
ghost use Rattle.model_card.specs.ports.Port as port;
ghost use Rattle.model_card.specs.ports.Port.{told};

use crate::frame_card::FrameCard;
use lapd_bits::Ended;
use lapd_frame::{Refusal, Service, Timer};
use lapd_line::{BareReport, LinkCounts, Port, Pulled, Report, Request};
use lapd_store::Shelf;
use model_bits::{Head, Heard};
use std::marker::Model;

/// A line card of octets: a card of frames, with a port at each line. A port hears frames in the octets that come, and puts
/// those that go on the line. What is not of octets it passes on to the card of frames.
///
/// All memory is taken by [`Card::start`], or as it is restored; no other call takes any. Lines are counted from 0, and each call
/// but `state` needs one that the card has.
#[derive(Debug, Drop)]
pub struct Card<S: Shelf> {
    pub(crate) frames: FrameCard<S>,
    pub(crate) ports: Vec<Port>,
}

impl<S: Shelf> Model for Card<S> {
    ghost use Rattle.lapd_card.specs.Card.{Held, held_code};

    ghost Value = { Held S };

    ghost coded = { held_code S.code };

    ghost use Rattle.lapd_card.specs.Stands.{HasPast};

    ghost view = { λ a. record { frames = a.frames; ports = a.ports.items } };

    ghost invariant = { λ a. HasPast S.store (record { frames = a.frames; ports = a.ports.items }) };
}

impl<S: Shelf> Card<S> {
    ghost use Rattle.std.specs.Borrow.{sem};
    ghost use Rattle.std.specs.Io.BufRead.{Rests};
    ghost use Rattle.lapd_card.specs.{IsPriced, told_at, told_if_at};
    ghost use Rattle.lapd_card.specs.contracts.card.Card.{the_row};
    ghost use Rattle.lapd_card.specs.Called.{OctetCalled};
    ghost use Rattle.lapd_card.specs.Card.{line_count};
    ghost use Rattle.lapd_card.specs.Given.{IsWhole};
    ghost use Rattle.lapd_card.specs.Reply.{answer_of_result};
    ghost use Rattle.lapd_card.specs.Stands.{OctetCardStands, Leads};

    /// The card of frames inside: what is asked of neither kind of card alone, as [`FrameCard::room`] and
    /// [`FrameCard::counters`]. A frame is counted as it is heard when its closing flag comes, and one that is sent when a
    /// pull begins it.
    pub fn frames(&self) -> &FrameCard<S>
        ensures { result.now ≡ self.now.frames }
    {
        &self.frames
    }

    /// How many lines the card has: 1 to 64.
    pub fn lines(&self) -> usize
        ensures { result ≡ line_count self.now }
    {
        self.frames.lines()
    }

    /// Takes an octet that came from a line, low bit first, and tells what it led to. Contents that it delivers are
    /// lent until the card's next event.
    pub fn octet(&mut self, line: usize, octet: u8) -> Report<'_>
        requires { line < line_count self.old }
        ensures told { (m : machine.OctetCard) → OctetCardStands S.store self.old m
            → told (report_told result) ≡ answer (at line (port.octet octet)) m }
        // What may be sent rises by two at most for the frame that it ends, or by so many as a terminal may have TEIs, if
        // these are more; and by k more if that is an REJ with a valid N(R). Else it rises by nothing.
        ensures frames { (m : machine.OctetCard) → OctetCardStands S.store self.old m → IsPriced (at line (port.octet octet)) m }
        // Where it names a cause, why the octet or its frame was dropped, what may be sent stays as it is.
        ensures dropped { (m : machine.OctetCard) → OctetCardStands S.store self.old m → IsSome result.cause
            → may_send (after (at line (port.octet octet)) m).card ≡ may_send m.card }
        ensures* after { sem 𝓛 (Rests (the_row S.row S.Shelf) self.entry (λ v. Leads S.store (at line (port.octet octet)) self.old v)) }
    {
        let bare = self.hear(line, octet);
        self.report(line, &bare)
    }

    /// Takes an octet as [`Card::octet`] does, and answers without references; none where it ended nothing, as mostly. To make a
    /// report for each octet would take a tenth of its time. [`Card::contents`] lends contents that it delivered.
    #[inline(always)]
    pub fn hear(&mut self, line: usize, octet: u8) -> Option<BareReport>
        requires { line < line_count self.old }
        ensures called { OctetCalled S.store (at line (port.octet octet)) (told (told_if_at self.new.ports line result)) self.old self.new }
        ensures frames { (m : machine.OctetCard) → OctetCardStands S.store self.old m → IsPriced (at line (port.octet octet)) m }
        ensures silent { IfNone result ((m : machine.OctetCard) → OctetCardStands S.store self.old m → meant (at line (port.octet octet)) m ≡ None) }
    {
        match self.ports[line].octet(octet) {
            Ended::Nothing => None,
            Ended::Dropped(cause) => {
                let mut bare = BareReport::nothing();
                self.frames.dropped(line, cause, &mut bare);
                Some(bare)
            }
            Ended::Frame(_) | Ended::Overlong => {
                let mut bare = BareReport::nothing();
                self.frames.heard(line, &self.ports[line], &mut bare);
                Some(bare)
            }
        }
    }

    /// The contents that the latest octet of a line delivered, which led to this report. They are lent until the card's next
    /// event.
    // They borrow from the card, so that no event can come while they are lent. Whatever the event changed was changed in a
    // step before this one: no loan is proved beside a later write.
    pub fn contents(&self, line: usize, report: &BareReport) -> Option<&[u8]>
        requires { line < line_count self.now }
        ensures { told_beside (option_copied result) report.now ≡ told_at self.now.ports line report.now }
    {
        let port = &self.ports[line];
        if !report.has_contents() {
            return None;
        }
        report.contents(port.latest_frame())
    }

    /// A timer of a line expired. One that does not run has no effect, and nothing is reported.
    pub fn expire(&mut self, line: usize, timer: Timer) -> Report<'static>
        requires { line < line_count self.old }
        ensures called { OctetCalled S.store (at line (port.expiry timer)) (told (report_told result)) self.old self.new }
        // It starts one timer at most, so applying the orders of what falls due comes to an end.
        ensures starts { starts (report_told result).orders ≤ 1 }
        // What may be sent rises by k + 1 where the timer was running, else by nothing.
        ensures frames { (m : machine.OctetCard) → OctetCardStands S.store self.old m → RisesByExpiry line timer m.card }
    {
        let mut bare = BareReport::nothing();
        self.frames.expire(line, timer, &mut bare);
        Report::of(&bare, None)
    }

    /// Serves a request of layer 3 or management at a line. One that is refused changes nothing, on this line or any other.
    ///
    /// # Errors
    ///
    /// The first row that holds of those that apply to the request ([`Refusal`] has them in order). `PoolFull` holds
    /// exactly if the card holds as many contents as its configuration has slots.
    pub fn request(&mut self, line: usize, request: Request<'_>) -> Result<Report<'static>, Refusal>
        requires { line < line_count self.old }
        ensures called { OctetCalled S.store (at line (port.request (request_of request.entry))) (answer_of_result result) self.old self.new }
        ensures refused { IfErr result (λ why. (m : machine.OctetCard) → OctetCardStands S.store self.old m
            → refusal m.card.config (frames.is_full m.card) (request_of request.entry) (frames.line_at line m.card) ≡ Some why) }
        ensures unchanged { OnErr result (self.new ≡ self.old) }
        ensures accepted { IfOk result (λ report. (m : machine.OctetCard) → OctetCardStands S.store self.old m
            → refusal m.card.config (frames.is_full m.card) (request_of request.entry) (frames.line_at line m.card) ≡ None) }
        // What may be sent rises by one where it is accepted, else by nothing.
        ensures frames { (m : machine.OctetCard) → OctetCardStands S.store self.old m → RisesByRequest line (request_of request.entry) m.card }
    {
        let mut bare = BareReport::nothing();
        self.frames.request(line, request, &mut bare)?;
        Ok(Report::of(&bare, None))
    }

    /// Gives the next octet of a line, low bit first. If fewer than eight bits are left to send, the frame that is next is
    /// taken, or an idle flag if none waits.
    #[inline(always)]
    pub fn pull(&mut self, line: usize) -> Pulled
        requires { line < line_count self.old }
        ensures called { OctetCalled S.store (at line port.pull) (pulled_of result) self.old self.new }
        // Where it begins a frame, what may be sent falls by one or two; else it stays.
        ensures frames { (m : machine.OctetCard) → OctetCardStands S.store self.old m → IsPriced (at line port.pull) m }
    {
        if !self.ports[line].is_due() {
            return self.ports[line].give(None);
        }
        if !self.frames.has_next(line) {
            return self.ports[line].give(None);
        }
        self.pull_next(line)
    }

    /// Gives the next octet where fewer than eight bits are left to send. It stands apart, so that a caller has little to do
    /// for the pulls that take no frame, which are most.
    #[inline(never)]
    fn pull_next(&mut self, line: usize) -> Pulled
        requires within { line < line_count self.old }
        requires few { IfSome (slice_get self.old.ports line) (λ port. length port.framer.left < 8) }
        ensures { OctetCalled S.store (at line port.pull) (pulled_of result) self.old self.new }
    {
        let orders = self.frames.load_next(line, &mut self.ports[line]);
        self.ports[line].give(orders)
    }

    /// The state of the link of a service with this TEI, by its number in Q.921: 4 to 8. None where the card has no such
    /// line, or the TEI is not on it.
    pub fn state(&self, line: usize, service: Service, tei: u8) -> Option<u8>
        ensures { (m : machine.OctetCard) → OctetCardStands S.store self.now m → result ≡ frames.state line service tei m.card }
    {
        self.frames.state(line, service, tei)
    }

    /// What was counted of the link of a service with this TEI. None where the card has no such line, or the TEI is not on it.
    pub fn link_counts(&self, line: usize, service: Service, tei: u8) -> Option<LinkCounts>
        ensures { (m : machine.OctetCard) → OctetCardStands S.store self.now m → result ≡ frames.counts line service tei m.card }
    {
        self.frames.link_counts(line, service, tei)
    }

    /// How the frame that a pull of the line began last begins, and how long it is; none if none was begun yet. After a
    /// pull that has begun a frame it is that frame, until a pull begins another.
    pub fn begun(&self, line: usize) -> Option<Head>
        requires { line < line_count self.now }
        ensures { (m : machine.OctetCard) → OctetCardStands S.store self.now m → result ≡ head_begun_at line m }
    {
        self.ports[line].begun()
    }

    /// How the frame begins that was heard last at a line, and how long it is, also if it was dropped afterwards; none if none
    /// was heard yet. Of a frame that is too long to be kept, the length is N201 and five octets, whatever it was.
    pub fn latest_heard(&self, line: usize) -> Option<Head>
        requires { line < line_count self.now }
        ensures { (m : machine.OctetCard) → OctetCardStands S.store self.now m → result ≡ head_heard_at line m }
    {
        self.ports[line].heard()
    }

    /// What the latest octet of a line has ended; nothing if none has come. A frame is lent until the card's next event.
    pub fn ended(&self, line: usize) -> Heard<'_>
        requires { line < line_count self.now }
        ensures { (m : machine.OctetCard) → OctetCardStands S.store self.now m → heard_of result ≡ ended_at line m }
    {
        self.ports[line].latest()
    }

    /// Writes the frame that a pull of the line began last, without its check, in front of `out`, and answers how many octets it
    /// has: 0 if none was begun yet. None if `out` has too little room; then nothing is written.
    pub fn write_begun(&self, line: usize, out: &mut [u8]) -> Option<usize>
        requires { line < line_count self.now }
        ensures none { IfNone result (out.new ≡ out.old) }
        ensures empty { result ≡ Some 0 → out.new ≡ out.old }
        ensures whole { (m : machine.OctetCard) → OctetCardStands S.store self.now m → IsWhole (frame_begun_at line m) result out.old out.new }
    {
        self.ports[line].write_begun(out)
    }

    fn report(&self, line: usize, bare: &Option<BareReport>) -> Report<'_>
        requires { line < line_count self.now }
        ensures { report_told result ≡ told_if_at self.now.ports line bare.now }
    {
        match bare {
            Some(bare) => Report::of(bare, self.contents(line, bare)),
            None => Report::nothing(),
        }
    }
}
