//! The card: one call an event.

ghost use Rattle.std.specs.Prelude.{◌≡◌, ◌≤◌, ◌<◌, [], true, length, Some, None, IsSome, IfOk, IfErr, IfSome, OnErr, get_or};
ghost use Rattle.std.specs.Option.{option_copied};
ghost use Rattle.lapd_card.specs.{none_counted, IsQuiet, answer_of_request, delivered_in, listed, told_beside, told_in, octets_of, gave_in, IsClear, latest_in, RisesByHeard, RisesByExpiry, RisesByRequest, FallsByNext, room, RefusesBy, IsFirstWaiting, has_next, next_waiting, came, cause_of, request_of, starts, limit, IsLoaded, orders_taken};
ghost use Rattle.model_bits.specs.Stream as stream;
ghost use Rattle.model_card.specs.Card as machine;
ghost use Rattle.model_card.specs.Event.{at};
ghost use Rattle.model_card.specs.Machine.{answer};
ghost use Rattle.model_card.specs.Stored.{stored};
ghost use Rattle.model_card.specs.Stored as frame_limits;
ghost use Rattle.model_line.specs.Event as line_event;
ghost use Rattle.model_line.specs.Event.{told, hears, expiry, next};
ghost use Rattle.model_line.specs.Line.{place_in};

use crate::stored::frame_limit;
use lapd_count::Counters;
use lapd_frame::{Order, Refusal, Service, ShortList, Timer};
use lapd_line::{BareReport, Config, FrameLine, LinkCounts, Marks, NextFrame, Port, Request, Room};
use lapd_store::Shelf;
use model_bits::Cause;
use model_line::Fault;
use std::marker::Model;
use thiserror::Error;

/// There is no room for every frame that may be next. Nothing has changed, and what waits, if anything does, waits.
#[derive(Clone, Copy, PartialEq, Eq, Debug, Error)]
#[error("a frame has up to {room} octets")]
pub struct RoomTooSmall {
    /// The room that suffices always: N201 octets and four.
    pub room: usize,
}

/// A line card over a shelf for the contents that wait: it takes and gives whole frames, from the address to the information.
///
/// Flags, stuffed 0s and checks are a controller's, or those of the ports of a [`Card`](crate::Card). All memory is taken by
/// [`FrameCard::start`] or [`FrameCard::restore`]; no other call takes any. Lines are counted from 0, and each call but `state`
/// needs one that the card has.
#[derive(Debug, Drop)]
pub struct FrameCard<S: Shelf> {
    pub(crate) config: Config,
    pub(crate) lines: Vec<FrameLine>,
    pub(crate) shelf: S,
    /// The lines on which a frame waits, by their numbers.
    pub(crate) waiting: Marks,
}

impl<S: Shelf> Model for FrameCard<S> {
    ghost use Rattle.lapd_card.specs.FrameCard.{Held, held_code};

    ghost Value = { Held S };

    ghost coded = { held_code S.code };

    ghost use Rattle.lapd_card.specs.FrameStands.{HasPast};

    ghost view = { λ a. record { config = a.config; lines = a.lines.items; shelf = a.shelf; waiting = a.waiting } };

    ghost invariant = { λ a. HasPast S.store (record { config = a.config; lines = a.lines.items; shelf = a.shelf; waiting = a.waiting }) };
}

impl<S: Shelf> FrameCard<S> {
    ghost use Rattle.lapd_card.specs.Counted.{counters_in};
    ghost use Rattle.lapd_card.specs.FrameCard.{line_count, room_for_frames};
    ghost use Rattle.lapd_card.specs.Called.{Called};
    ghost use Rattle.lapd_card.specs.FrameStands.{FrameStands, Leads};
    ghost use Rattle.lapd_card.specs.Given.{GivenIn, NoRoom};
    ghost use Rattle.lapd_card.specs.Waiting.{IsLineOf};

    /// How many lines the card has: 1 to 64.
    pub fn lines(&self) -> usize
        ensures { result ≡ line_count self.now }
    {
        usize::from(self.config.lines)
    }

    /// The room that every frame of the card fits into: N201 octets and four.
    pub fn frame_room(&self) -> usize
        ensures { result ≡ room_for_frames self.now }
    {
        usize::from(self.config.n201) + 4
    }

    /// Takes a frame that came from a line, from its address to its information, without its check. It tells in the report,
    /// in which nothing is told yet, what that led to. One that is too short, or longer than N201 has room for, is answered as
    /// these octets between flags would be (Q.921 clause 2.9). [`FrameCard::contents`] lends contents that it delivers. If
    /// the answer is true, it tells nothing but orders for timers.
    #[inline(always)]
    pub fn frame(&mut self, line: usize, octets: &[u8], report: &mut BareReport) -> bool
        requires within { line < line_count self.old }
        requires clear { IsClear report.old }
        ensures called { Called S.store (at line (hears (came self.old.config.n201 octets.now)))
            (told (told_in (octets_of (Some (came self.old.config.n201 octets.now))) report.new)) self.old self.new }
        ensures quiet { result ≡ true → IsQuiet report.new }
        // What may be sent rises by two at most for the frame, or by so many as a terminal may have TEIs, if these are
        // more; and by k more if that is an REJ with a valid N(R).
        ensures frames { (m : machine.Card) → FrameStands S.store self.old m → RisesByHeard line (came self.old.config.n201 octets.now) m }
    {
        let frame_line = &mut self.lines[line];
        let is_quiet = frame_line.frame(octets, report, &mut self.shelf);
        self.waiting.set(line, frame_line.has_next());
        is_quiet
    }

    /// The contents that a frame of these octets delivered at a line, which led to this report. They are lent from the octets
    /// themselves.
    #[inline(always)]
    pub fn contents<'a>(
        &self,
        line: usize,
        octets: &'a [u8],
        report: &BareReport,
    ) -> Option<&'a [u8]>
        requires { line < line_count self.now }
        ensures { option_copied result ≡ delivered_in (octets_of (Some (came self.now.config.n201 octets.now))) report.now }
    {
        self.lines[line].contents(octets, report)
    }

    /// The controller of a line told a fault in place of a frame. It is reported with its cause and counted, and has
    /// no other effect (Q.921 clauses 2.7, 2.9 and 2.10).
    pub fn failed(&mut self, line: usize, fault: Fault, report: &mut BareReport)
        requires within { line < line_count self.old }
        requires clear { IsClear report.old }
        ensures called { Called S.store (at line (hears (stream.dropped (cause_of fault)))) (told (told_beside None report.new)) self.old self.new }
    {
        let frame_line = &mut self.lines[line];
        frame_line.failed(fault, report);
        self.waiting.set(line, frame_line.has_next());
    }

    /// Takes what the port of a line has heard, and tells in the report what it led to.
    // It stands apart, so that an octet that ends nothing has no part of it in its way.
    #[inline(never)]
    pub(crate) fn heard(&mut self, line: usize, port: &Port, report: &mut BareReport)
        requires within { line < line_count self.old }
        requires clear { IsClear report.old }
        requires something { IsSome (latest_in port.now) }
        ensures { IfSome (latest_in port.now) (λ e. Called S.store (at line (hears e)) (told (told_in (octets_of (latest_in port.now)) report.new)) self.old self.new) }
    {
        let frame_line = &mut self.lines[line];
        frame_line.heard(port.latest(), report, &mut self.shelf);
        self.waiting.set(line, frame_line.has_next());
    }

    /// The port of a line has dropped something, which is told in the report with its cause.
    // It stands apart as that does.
    #[inline(never)]
    pub(crate) fn dropped(&mut self, line: usize, cause: Cause, report: &mut BareReport)
        requires within { line < line_count self.old }
        requires clear { IsClear report.old }
        ensures { Called S.store (at line (hears (stream.dropped cause))) (told (told_in [] report.new)) self.old self.new }
    {
        let frame_line = &mut self.lines[line];
        frame_line.dropped(cause, report);
        self.waiting.set(line, frame_line.has_next());
    }

    /// Writes the next frame to be sent on a line in front of `out`, from its address to its information, without its
    /// check. It is a message of TEI management, otherwise unit data, otherwise a frame of a link, each link in its turn
    /// (profile); none if none waits. The frame is the controller's then, and the octets after it stay as they were.
    ///
    /// # Errors
    ///
    /// [`RoomTooSmall`] if `out` has fewer octets than [`FrameCard::frame_room`], whatever waits. Nothing has
    /// changed then.
    pub fn next_frame(
        &mut self,
        line: usize,
        out: &mut [u8],
    ) -> Result<Option<NextFrame>, RoomTooSmall>
        requires { line < line_count self.old }
        ensures called { IfOk result (λ given. Called S.store (at line next) (gave_in out.new given) self.old self.new) }
        ensures given { IfOk result (λ given. GivenIn (room_for_frames self.old) given out.old out.new) }
        ensures refused { IfErr result (λ fault. NoRoom (room_for_frames self.old) fault self.old self.new out.old out.new) }
        // Where it gives a frame, what may be sent falls by one or two; else it stays.
        ensures frames { (m : machine.Card) → FrameStands S.store self.old m → FallsByNext line m }
    {
        let room = self.frame_room();
        if out.len() < room {
            return Err(RoomTooSmall { room });
        }
        let frame_line = &mut self.lines[line];
        let given = frame_line.next_frame(out, &mut self.shelf);
        self.waiting.set(line, frame_line.has_next());
        Ok(given)
    }

    /// Loads the next frame of a line into its port, and answers its orders for timers; none if no frame waits.
    #[inline(always)]
    pub(crate) fn load_next(&mut self, line: usize, port: &mut Port) -> Option<ShortList<Order>>
        requires within { line < line_count self.old }
        requires few { length port.old.framer.left < 8 }
        requires room { port.old.framer.room ≡ self.old.config.n201 }
        ensures loaded { (m : machine.Card) → FrameStands S.store self.old m
            → IsLoaded (answer (at line next) m) (orders_taken result) port.old port.new }
        ensures after { Leads S.store (at line next) self.old self.new }
    {
        let frame_line = &mut self.lines[line];
        let orders = frame_line.load_next(port, &mut self.shelf);
        self.waiting.set(line, frame_line.has_next());
        orders
    }

    /// Whether a frame waits on a line: whether a call for its next frame gives one. It looks at the card's marks alone.
    #[inline(always)]
    pub fn has_next(&self, line: usize) -> bool
        requires { line < line_count self.now }
        ensures { (m : machine.Card) → FrameStands S.store self.now m → result ≡ has_next line m }
    {
        self.waiting.has(line)
    }

    /// The first line on which a frame waits, of those from one on; none if none waits on any of these. It looks at no
    /// line, so that many quiet lines cost no more than one.
    #[inline(always)]
    pub fn next_waiting(&self, from: usize) -> Option<usize>
        ensures next { (m : machine.Card) → FrameStands S.store self.now m → result ≡ next_waiting from m }
        // By the machine's own answers: a call for the next frame of that line gives one, and of those before it none.
        ensures first { (m : machine.Card) → FrameStands S.store self.now m → IsFirstWaiting from m result }
        ensures line { IfSome result (λ line. IsLineOf (line_count self.now) line) }
    {
        self.waiting.first(from, self.lines())
    }

    /// A timer of a line expired. One that does not run has no effect, and nothing is reported.
    pub fn expire(&mut self, line: usize, timer: Timer, report: &mut BareReport)
        requires within { line < line_count self.old }
        requires clear { IsClear report.old }
        ensures called { Called S.store (at line (expiry timer)) (told (told_beside None report.new)) self.old self.new }
        // It starts one timer at most, so applying the orders of what falls due comes to an end.
        ensures starts { starts (listed report.new.orders) ≤ 1 }
        // What may be sent rises by k + 1 where the timer was running, else by nothing.
        ensures frames { (m : machine.Card) → FrameStands S.store self.old m → RisesByExpiry line timer m }
    {
        let frame_line = &mut self.lines[line];
        frame_line.expire(timer, report, &mut self.shelf);
        self.waiting.set(line, frame_line.has_next());
    }

    /// Serves a request of layer 3 or management at a line. One that is refused changes nothing, on this line or any other.
    ///
    /// # Errors
    ///
    /// The first row that holds of those that apply to the request ([`Refusal`] has them in order). `PoolFull` holds
    /// exactly if the card holds as many contents as its configuration has slots.
    #[inline(always)]
    pub fn request(
        &mut self,
        line: usize,
        request: Request<'_>,
        report: &mut BareReport,
    ) -> Result<(), Refusal>
        requires within { line < line_count self.old }
        requires clear { IsClear report.old }
        ensures called { Called S.store (at line (line_event.request (request_of request.entry))) (answer_of_request result report.new) self.old self.new }
        ensures untold { OnErr result (report.new ≡ report.old) }
        // What may be sent rises by one where it is accepted, else by nothing.
        ensures frames { (m : machine.Card) → FrameStands S.store self.old m → RisesByRequest line (request_of request.entry) m }
    {
        let frame_line = &mut self.lines[line];
        match frame_line.request(
            request,
            report,
            &mut self.shelf,
            u32::from(self.config.slots),
        ) {
            Ok(()) => {
                self.waiting.set(line, frame_line.has_next());
                Ok(())
            }
            Err(why) => Err(why),
        }
    }

    /// The state of the link of a service with this TEI, by its number in Q.921: 4 to 8. None where the card has no such
    /// line, or the TEI is not on it.
    pub fn state(&self, line: usize, service: Service, tei: u8) -> Option<u8>
        ensures { (m : machine.Card) → FrameStands S.store self.now m → result ≡ machine.state line service tei m }
    {
        if line < self.lines() {
            self.lines[line].state(service, tei)
        } else {
            None
        }
    }

    /// What was counted of the link of a service with this TEI. None where the card has no such line, or the TEI is not on it.
    pub fn link_counts(&self, line: usize, service: Service, tei: u8) -> Option<LinkCounts>
        ensures { (m : machine.Card) → FrameStands S.store self.now m → result ≡ machine.counts line service tei m }
    {
        if line < self.lines() {
            self.lines[line].link_counts(service, tei)
        } else {
            None
        }
    }

    /// The place of a TEI on a line, in the table of the line's TEIs: fewer than its terminals. None where the TEI is not on the
    /// line.
    #[inline(always)]
    pub fn place(&self, line: usize, tei: u8) -> Option<usize>
        requires { line < line_count self.now }
        ensures is { (m : machine.Card) → FrameStands S.store self.now m → result ≡ place_in (machine.line_at line m) tei }
        ensures few { IfSome result (λ place. place < self.now.config.terminals) }
    {
        self.lines[line].place(tei)
    }

    /// How much room the link of a service with this TEI has for contents, and its V(A). Room is the places of its queue
    /// that are left, and the slots that are free for all. Whoever was refused for want of room asks again once there is
    /// some. Each contents that is acknowledged gives its place and its slot back, and moves V(A) on by one.
    ///
    /// # Errors
    ///
    /// There is no such link: `BadTei` if the TEI is over 126, `NoLink` if it is not on the line.
    pub fn room(&self, line: usize, service: Service, tei: u8) -> Result<Room, Refusal>
        requires { line < line_count self.now }
        ensures told { (m : machine.Card) → FrameStands S.store self.now m → result ≡ room line service tei m }
        // In state 7 or 8 a request to send contents that are not too long is refused for a full queue exactly where no place
        // is left, and else for a full pool exactly where no slot is.
        ensures refuses { (m : machine.Card) → FrameStands S.store self.now m
            → IfOk result (λ room. RefusesBy room line service tei m) }
    {
        self.lines[line].room(service, tei, &self.shelf, u32::from(self.config.slots))
    }

    /// What was counted of a line since the card's start: frames each way, drops by their causes, what was told, and what was
    /// lost. A request that is refused is not counted. All memory for it was taken at the start, and none of it is among the
    /// octets that [`FrameCard::stored`] tells.
    pub fn counters(&self, line: usize) -> &Counters
        requires { line < line_count self.now }
        ensures { result.now ≡ get_or (counters_in self.now.lines) line none_counted }
    {
        self.lines[line].counters()
    }

    /// How many octets the card stores now: of control frames and messages that wait, of assignments that are
    /// remembered, and of contents in slots. It keeps nothing of the frames that come and go. They are never more than
    /// [`FrameCard::frame_limit`] says.
    pub fn stored(&self) -> u32
        ensures octets { (m : machine.Card) → FrameStands S.store self.now m → result ≡ stored m }
        ensures few { result ≤ frame_limits.limit self.now.config }
    {
        let mut held = 0;
        for line in &self.lines {
            held += u64::from(line.held());
        }
        (held + self.shelf.octets()) as u32
    }

    /// How many octets a card of octets with its configuration stores at most: [`crate::limit`].
    pub fn limit(&self) -> u32
        ensures { (m : machine.Card) → FrameStands S.store self.now m → result ≡ limit m.config }
    {
        crate::stored::limit(&self.config)
    }

    /// How many octets the card stores at most, whatever happens: [`frame_limit`] of its configuration.
    pub fn frame_limit(&self) -> u32
        ensures { result ≡ frame_limits.limit self.now.config }
    {
        frame_limit(&self.config)
    }
}
