//! Frames, timers, and the end of the TEI.

ghost use Rattle.std.specs.Prelude.{◌≡◌, ℕ, ◌≤◌, true, List, [], None};
ghost use Rattle.lapd_link.specs.{SameLimits, Owned, Keeps, listed, Course, after, told, received_step, starts, RisesByEvent, Agrees, Does, HasRoom, IsClear, info_of, received_of, Stays, Reaches, terms_of, told_with, told_of};
ghost use Rattle.model_link.specs.Link as machine;
ghost use Rattle.model_link.specs.Events as event;

use crate::link::Link;
use crate::orders::put_orders;
use crate::outcome::Outcome;
use crate::received::Received;
use lapd_frame::ErrorCode;
use lapd_link_steps::{BareReport, Entity};
use lapd_store::Shelf;
use model_link::{LinkTimer, Terms};

impl Link {
    ghost use Rattle.lapd_link.specs.Stands.{LinkStands};

    /// Something came from the terminal with the link's address. What is delivered is lent from the frame.
    pub fn frame<'a, S: Shelf>(&mut self, received: Received<'a>, shelf: &mut S) -> Outcome<'a>
        requires { (others : List Owned) × (m : machine.Link) × LinkStands self.old (S.store shelf.old) others m }
        ensures stands { (others : List Owned) (m : machine.Link) → LinkStands self.old (S.store shelf.old) others m →
            LinkStands self.new (S.store shelf.new) others (after (terms_of self.old) (event.received (received_of received.entry)) m) }
        ensures told { (others : List Owned) (m : machine.Link) → LinkStands self.old (S.store shelf.old) others m →
            told_of result ≡ told (terms_of self.old) (event.received (received_of received.entry)) m }
        ensures frames { (others : List Owned) (m : machine.Link) → LinkStands self.old (S.store shelf.old) others m →
            RisesByEvent (terms_of self.old) (event.received (received_of received.entry)) m }
        // What the state does not serve changes nothing.
        ensures unserved { (others : List Owned) (m : machine.Link) → LinkStands self.old (S.store shelf.old) others m → result.unserved ≡ true →
            after (terms_of self.old) (event.received (received_of received.entry)) m ≡ m }
        ensures terms { terms_of self.new ≡ terms_of self.old }
        ensures limits { SameLimits (S.store shelf.old) (S.store shelf.new) }
    {
        let mut report = BareReport::nothing();
        self.receive(received, &mut report, shelf);
        match received {
            Received::Frame(frame) => Outcome::of(&report, frame.info),
            _ => Outcome::of(&report, &[]),
        }
    }

    /// The same without lending anything: the report, in which nothing is told yet, then says whether the frame's information is
    /// delivered.
    // As `settle` is.
    #[inline(always)]
    pub fn receive<S: Shelf>(
        &mut self,
        received: Received<'_>,
        report: &mut BareReport,
        shelf: &mut S,
    )
        requires stands { (others : List Owned) × (m : machine.Link) × LinkStands self.old (S.store shelf.old) others m }
        requires clear { IsClear report.old }
        ensures stands { (others : List Owned) (m : machine.Link) → LinkStands self.old (S.store shelf.old) others m →
            LinkStands self.new (S.store shelf.new) others (after (terms_of self.old) (event.received (received_of received.entry)) m) }
        ensures told { (others : List Owned) (m : machine.Link) → LinkStands self.old (S.store shelf.old) others m →
            told_with (info_of received.entry) report.new ≡ told (terms_of self.old) (event.received (received_of received.entry)) m }
        ensures cause { (others : List Owned) (m : machine.Link) → LinkStands self.old (S.store shelf.old) others m → report.new.cause ≡ None }
        ensures frames { (others : List Owned) (m : machine.Link) → LinkStands self.old (S.store shelf.old) others m →
            RisesByEvent (terms_of self.old) (event.received (received_of received.entry)) m }
        // What the state does not serve changes nothing.
        ensures unserved { (others : List Owned) (m : machine.Link) → LinkStands self.old (S.store shelf.old) others m → report.new.unserved ≡ true →
            after (terms_of self.old) (event.received (received_of received.entry)) m ≡ m }
        ensures terms { terms_of self.new ≡ terms_of self.old }
        ensures limits { SameLimits (S.store shelf.old) (S.store shelf.new) }
    {
        let before = self.entity.running();
        hear(&mut self.entity, &self.terms, report, received);
        self.settle(before, report, shelf);
    }

    /// A timer expires. One that does not run changes nothing. In the report nothing is told yet.
    pub fn expire<S: Shelf>(&mut self, timer: LinkTimer, report: &mut BareReport, shelf: &mut S)
        requires clear { IsClear report.old }
        requires stands { (others : List Owned) × (m : machine.Link) × LinkStands self.old (S.store shelf.old) others m }
        ensures stands { (others : List Owned) (m : machine.Link) → LinkStands self.old (S.store shelf.old) others m →
            LinkStands self.new (S.store shelf.new) others (after (terms_of self.old) (event.expired timer) m) }
        ensures told { (others : List Owned) (m : machine.Link) → LinkStands self.old (S.store shelf.old) others m →
            told_with [] report.new ≡ told (terms_of self.old) (event.expired timer) m }
        ensures cause { (others : List Owned) (m : machine.Link) → LinkStands self.old (S.store shelf.old) others m → report.new.cause ≡ None }
        ensures frames { (others : List Owned) (m : machine.Link) → LinkStands self.old (S.store shelf.old) others m →
            RisesByEvent (terms_of self.old) (event.expired timer) m }
        // At most one timer is started.
        ensures starts { starts (listed report.new.orders) ≤ 1 }
        ensures terms { terms_of self.new ≡ terms_of self.old }
        ensures limits { SameLimits (S.store shelf.old) (S.store shelf.new) }
    {
        let before = self.entity.running();
        self.entity.expire(&self.terms, report, timer);
        self.settle(before, report, shelf);
    }

    /// The link's TEI leaves the line: its contents are released, and it is as one that begins. In the report nothing is told
    /// yet.
    pub fn clear<S: Shelf>(&mut self, report: &mut BareReport, shelf: &mut S)
        requires clear { IsClear report.old }
        requires stands { (others : List Owned) × (m : machine.Link) × LinkStands self.old (S.store shelf.old) others m }
        ensures stands { (others : List Owned) (m : machine.Link) → LinkStands self.old (S.store shelf.old) others m →
            LinkStands self.new (S.store shelf.new) others (after (terms_of self.old) event.cleared m) }
        ensures told { (others : List Owned) (m : machine.Link) → LinkStands self.old (S.store shelf.old) others m →
            told_with [] report.new ≡ told (terms_of self.old) event.cleared m }
        ensures cause { (others : List Owned) (m : machine.Link) → LinkStands self.old (S.store shelf.old) others m → report.new.cause ≡ None }
        // It may send no more than before.
        ensures frames { (others : List Owned) (m : machine.Link) → LinkStands self.old (S.store shelf.old) others m →
            RisesByEvent (terms_of self.old) event.cleared m }
        ensures terms { terms_of self.new ≡ terms_of self.old }
        ensures limits { SameLimits (S.store shelf.old) (S.store shelf.new) }
    {
        let before = self.entity.running();
        self.entity.clear(&self.terms, report);
        self.settle(before, report, shelf);
    }

    // Ends an event: what it gave up is counted, what it released goes from the shelf, and the report gets its orders.
    #[inline(always)]
    pub(crate) fn settle<S: Shelf>(
        &mut self,
        before: Option<LinkTimer>,
        report: &mut BareReport,
        shelf: &mut S,
    )
        requires { (messages : List (List ℕ)) × (others : List Owned) × Keeps (S.store shelf.old) self.old.queue.slots messages others }
        ensures reaches { (info : List ℕ) (messages : List (List ℕ)) (others : List Owned) (m : machine.Link) (c : Course) →
            Keeps (S.store shelf.old) self.old.queue.slots messages others → before ≡ m.running →
            Agrees (terms_of self.old) info messages c self.old.entity report.old → Reaches info m c self.new (S.store shelf.new) others report.new }
        ensures starts { starts (listed report.new.orders) ≤ 1 }
        ensures stays { Stays self.old self.new }
        ensures limits { SameLimits (S.store shelf.old) (S.store shelf.new) }
    {
        let started = report.started;
        report.count_given_up(self.terms.service, self.queue.len());
        self.queue
            .release_oldest(usize::from(report.released), shelf);
        let after = self.entity.running();
        put_orders(&mut report.orders, &self.terms, before, started, after);
    }
}

// What came goes to its rows.
#[inline(always)]
fn hear(entity: &mut Entity, terms: &Terms, report: &mut BareReport, received: Received<'_>)
    requires { HasRoom 2 2 report.old }
    ensures { Does terms.now (info_of received.entry) (received_step terms.now (received_of received.entry)) entity.old report.old entity.new report.new }
{
    match received {
        Received::Frame(frame) => entity.frame(
            terms,
            report,
            frame.address.command,
            frame.control,
            frame.info.len(),
        ),
        Received::Undefined => entity.malformed(terms, report, ErrorCode::L),
        Received::WrongSize => entity.malformed(terms, report, ErrorCode::N),
        Received::Overlong => entity.malformed(terms, report, ErrorCode::O),
    }
}
