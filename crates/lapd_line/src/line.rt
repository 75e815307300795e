//! A line of octets: a line, and its port.

ghost use Rattle.std.specs.Prelude.{◌≡◌, ◌≤◌, ◌+◌, List, Some, None, IsSome, IfOk, IfErr, OnErr, nat_le};
ghost use Rattle.lapd_line.specs.{none_counted, Owned, Holds, Store, used_slots, may_send, state_of, refusal, request_of, IsInRange, held_in, starts, OctetLine, fresh_octet_line, after, held_at, OctetsStand, OctetsLead, octets_config, latest_frame, report_told, told_in, pulled_of};
ghost use Rattle.model_card.specs.ports.Line.{answer};
ghost use Rattle.model_card.specs.ports.Port as port;
ghost use Rattle.model_card.specs.ports.Port.{told};

use crate::fault::StartFault;
use crate::frame_line::FrameLine;
use crate::port::Port;
use crate::pulled::Pulled;
use crate::reports::Report;
use lapd_frame::{Refusal, Service, Timer};
use lapd_link::BareReport;
use lapd_store::Shelf;
use model_line::{Config, Request};
use std::alloc::Global;

/// A line of octets: a line, and the port through which it hears frames and gives them. What is not here is asked of its
/// parts.
#[derive(Debug, Drop)]
pub struct Line {
    /// The line of frames.
    pub frames: FrameLine,
    /// Its port.
    pub port: Port,
}

impl Line {
    ghost use Rattle.std.specs.Borrow.{sem};
    ghost use Rattle.std.specs.Io.BufRead.{Rests};
    ghost use Rattle.lapd_line.specs.contracts.line.Line.{the_row};

    /// A line of a card with these sizes and limits, all in range. No TEI is on it, and no octet has come.
    ///
    /// # Errors
    ///
    /// `OutOfMemory` if there is no memory for all the room that it needs.
    pub fn start(alloc: Global, config: &Config) -> Result<Line, StartFault>
        requires { IsInRange config.now }
        ensures config { IfOk result (λ line. octets_config line ≡ config.now) }
        // On a shelf that is wide enough it stands for an empty past, whatever the others own.
        ensures fresh { IfOk result (λ line. (store : Store) (others : List Owned) → config.now.n201 ≤ store.width
            → Holds store others → OctetsStand line store others (fresh_octet_line config.now)) }
        ensures counters { IfOk result (λ line. line.frames.counters ≡ none_counted) }
    {
        let frames = FrameLine::start(alloc, config)?;
        let port = Port::start(alloc, config.n201)?;
        Ok(Line { frames, port })
    }

    /// Takes an octet that came from the line, low bit first, and tells what it led to. Contents that it delivers are
    /// lent until the next octet.
    pub fn octet<S: Shelf>(&mut self, octet: u8, shelf: &mut S) -> Report<'_>
        requires { (others : List Owned) × (l : OctetLine) × OctetsStand self.old (S.store shelf.old) others l }
        ensures told { (others : List Owned) (l : OctetLine) → OctetsStand self.old (S.store shelf.old) others l
            → told (report_told result) ≡ answer (octets_config self.old) (port.octet octet) l }
        // Where it names a cause, why the octet or its frame was dropped, what may be sent stays as it is.
        ensures dropped { (others : List Owned) (l : OctetLine) → OctetsStand self.old (S.store shelf.old) others l → IsSome result.cause
            → may_send (octets_config self.old) (after (octets_config self.old) (port.octet octet) l).line ≡ may_send (octets_config self.old) l.line }
        ensures* after { sem 𝓛 (Rests the_row self.entry
            (λ v. OctetsLead (port.octet octet) self.old (S.store shelf.old) v (S.store shelf.new))) }
    {
        let bare = self.hear(octet, shelf);
        Report::of(&bare, bare.contents(self.port.latest_frame()))
    }

    /// Takes an octet, and tells without references what it led to.
    fn hear<S: Shelf>(&mut self, octet: u8, shelf: &mut S) -> BareReport
        requires { (others : List Owned) × (l : OctetLine) × OctetsStand self.old (S.store shelf.old) others l }
        ensures told { (others : List Owned) (l : OctetLine) → OctetsStand self.old (S.store shelf.old) others l
            → told (told_in (latest_frame self.new.port) result) ≡ answer (octets_config self.old) (port.octet octet) l }
        ensures after { OctetsLead (port.octet octet) self.old (S.store shelf.old) self.new (S.store shelf.new) }
    {
        let mut bare = BareReport::nothing();
        self.port.octet(octet);
        self.frames.heard(self.port.latest(), &mut bare, shelf);
        bare
    }

    /// A timer expires, as [`FrameLine::expire`] has it.
    pub fn expire<S: Shelf>(&mut self, timer: Timer, shelf: &mut S) -> Report<'static>
        requires { (others : List Owned) × (l : OctetLine) × OctetsStand self.old (S.store shelf.old) others l }
        ensures told { (others : List Owned) (l : OctetLine) → OctetsStand self.old (S.store shelf.old) others l
            → told (report_told result) ≡ answer (octets_config self.old) (port.expiry timer) l }
        ensures starts { starts (report_told result).orders ≤ 1 }
        ensures after { OctetsLead (port.expiry timer) self.old (S.store shelf.old) self.new (S.store shelf.new) }
    {
        let mut bare = BareReport::nothing();
        self.frames.expire(timer, &mut bare, shelf);
        Report::of(&bare, None)
    }

    /// Serves a request, or refuses it and changes nothing, as [`FrameLine::request`] has it.
    ///
    /// # Errors
    ///
    /// As [`FrameLine::request`].
    pub fn request<S: Shelf>(
        &mut self,
        request: Request<'_>,
        shelf: &mut S,
        slots: u32,
    ) -> Result<Report<'static>, Refusal>
        requires stands { (others : List Owned) × (l : OctetLine) × OctetsStand self.old (S.store shelf.old) others l }
        requires slots { slots ≤ (S.store shelf.old).slots }
        ensures refused { IfErr result (λ why. (others : List Owned) (l : OctetLine) → OctetsStand self.old (S.store shelf.old) others l
            → refusal (octets_config self.old) (nat_le slots (used_slots (S.store shelf.old))) (request_of request.entry) l.line ≡ Some why) }
        ensures unchanged { OnErr result (self.new ≡ self.old) }
        ensures kept { OnErr result (shelf.new ≡ shelf.old) }
        ensures accepted { IfOk result (λ report. (others : List Owned) (l : OctetLine) → OctetsStand self.old (S.store shelf.old) others l
            → refusal (octets_config self.old) (nat_le slots (used_slots (S.store shelf.old))) (request_of request.entry) l.line ≡ None) }
        ensures told { IfOk result (λ report. (others : List Owned) (l : OctetLine) → OctetsStand self.old (S.store shelf.old) others l
            → told (report_told report) ≡ answer (octets_config self.old) (port.request (request_of request.entry)) l) }
        ensures after { IfOk result (λ report.
            OctetsLead (port.request (request_of request.entry)) self.old (S.store shelf.old) self.new (S.store shelf.new)) }
    {
        let mut bare = BareReport::nothing();
        self.frames.request(request, &mut bare, shelf, slots)?;
        Ok(Report::of(&bare, None))
    }

    /// Gives the next octet of the line, low bit first. If fewer than eight bits are left to send, the frame that is
    /// next is taken: a message of TEI management, otherwise unit data, otherwise one of a link, each link in its turn;
    /// or an idle flag if none waits (profile).
    pub fn pull<S: Shelf>(&mut self, shelf: &mut S) -> Pulled
        requires { (others : List Owned) × (l : OctetLine) × OctetsStand self.old (S.store shelf.old) others l }
        ensures told { (others : List Owned) (l : OctetLine) → OctetsStand self.old (S.store shelf.old) others l
            → pulled_of result ≡ answer (octets_config self.old) port.pull l }
        ensures after { OctetsLead port.pull self.old (S.store shelf.old) self.new (S.store shelf.new) }
    {
        if !self.port.is_due() {
            return self.port.give(None);
        }
        let taken = self.frames.load_next(&mut self.port, shelf);
        self.port.give(taken)
    }

    /// The state of the link of a service with this TEI, by its number in Q.921 (annex B): 4 to 8. None where the TEI is
    /// not on the line.
    pub fn state(&self, service: Service, tei: u8) -> Option<u8>
        ensures { (store : Store) (others : List Owned) (l : OctetLine) → OctetsStand self.now store others l
            → result ≡ state_of service tei l.line }
    {
        self.frames.state(service, tei)
    }

    /// How many octets the line stores beside those in slots of the shelf: those of [`FrameLine::held`] and of [`Port::held`].
    pub fn held(&self) -> u32
        requires { (store : Store) × (others : List Owned) × (l : OctetLine) × OctetsStand self.now store others l }
        ensures { (store : Store) (others : List Owned) (l : OctetLine) → OctetsStand self.now store others l
            → result ≡ held_in (octets_config self.now) l.line + held_at (octets_config self.now).n201 l.port }
    {
        self.frames.held() + self.port.held()
    }
}
