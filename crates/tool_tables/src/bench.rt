//! A link with its shelf, TEI management beside it, and what happens to them.

ghost use Rattle.tool_tables.specs.Works.{Works};
ghost use Rattle.std.specs.Prelude.{IfSome};

use crate::page::Page;
use crate::words;
use lapd_frame::{ReadFault, Reading, Refusal, Service, Side, read};
use lapd_link::{BareReport, Link, LinkRequest, LinkTimer, Received};
use lapd_store::SlabShelf;
use lapd_tei::{TeiOutcome, Teis};
use model_link::Terms;
use std::alloc::Global;

/// A state, by the events that lead there from the beginning.
#[derive(Clone, Copy)]
pub struct Case {
    /// Events after each of which what waits is sent.
    pub events: &'static [Event],
    /// Events after them, each of which leaves a frame waiting.
    pub held: &'static [Event],
}

/// What happens.
#[derive(Clone, Copy)]
pub enum Event {
    /// These octets of a command come from the user's side, with this P.
    Command(bool, &'static [u8]),
    /// Other octets come from there,
    Heard(&'static [u8]),
    /// or an I-frame over N201.
    Overlong,
    /// A timer expires.
    Expire(LinkTimer),
    /// Layer 3 asks for something.
    Ask(LinkRequest<'static>),
    /// The TEI leaves the line.
    Clear,
    /// It happens to TEI management.
    Manage(Managed),
}

/// What happens to TEI management.
#[derive(Clone, Copy)]
pub enum Managed {
    /// A message of a terminal.
    Message(&'static [u8]),
    /// T201 expires.
    Expire,
    /// Layer management asks for these, of a TEI.
    Assign(u8),
    Remove(u8),
    Check(u8),
    Disown(u8),
    /// The line is down.
    Down,
}

/// As many contents and control frames as a link keeps, and slots as its shelf has.
const ROOM: u32 = 2;

/// A link of TEI 64 for call control, with a shelf of its own, and TEI management.
#[derive(Drop)]
pub struct Bench {
    /// The link, opened.
    pub link: Link,
    /// The slots in which its contents lie.
    pub shelf: SlabShelf,
    /// TEI management of a line with room for two TEIs.
    pub teis: Teis,
}

impl Bench {
    /// A link that was opened, with a window and a queue of two contents of at most 8 octets, over as many slots, where two
    /// control frames may wait. It reads the tables so.
    pub fn start(alloc: Global, reading: Reading) -> Option<Bench>
        ensures { IfSome result Works }
    {
        let Ok(mut link) = Link::start(alloc, ROOM as u8, ROOM as u8) else {
            return None;
        };
        let Ok(shelf) = SlabShelf::start(alloc, ROOM, 8) else {
            return None;
        };
        let Ok(teis) = Teis::start_as(alloc, 2, reading) else {
            return None;
        };
        link.with_terms(Terms {
            service: Service::Call,
            tei: 64,
            k: ROOM as u8,
            n201: 8,
            n200: 3,
            queue: ROOM as u8,
            control: ROOM as u8,
            reading,
        });
        Some(Bench { link, shelf, teis })
    }

    /// Leads to a state, and plays one event there.
    pub fn play(&mut self, page: &mut Page, case: Case, event: Event)
        requires { Works self.old }
        ensures { Works self.new }
    {
        self.lead(page, case.events, 4);
        self.lead(page, case.held, 0);
        page.begin_cell();
        let before = self.link.state();
        self.give(page, event);
        page.set_aside();
        self.skip(case.held.len());
        self.send(page, polled(event));
        let after = self.link.state();
        if before != after {
            words::state(page, after);
        }
    }

    /// Plays events, and after each sends so much of what waits.
    fn lead(&mut self, page: &mut Page, events: &[Event], sent: usize)
        requires { Works self.old }
        ensures { Works self.new }
    {
        for event in events {
            self.give(page, *event);
            self.skip(sent);
        }
    }

    fn skip(&mut self, frames: usize)
        requires { Works self.old }
        ensures { Works self.new }
    {
        for _ in 0..frames {
            let _ = self.link.offer();
            let _ = self.teis.offer(Side::Network);
        }
    }

    /// Sends what waits: no event of the tables lets more than two messages go, or more than three frames.
    fn send(&mut self, page: &mut Page, polled: Option<bool>)
        requires { Works self.old }
        ensures { Works self.new }
    {
        for _ in 0..2 {
            if let Some(message) = self.teis.offer(Side::Network) {
                words::message(page, message);
            }
        }
        for _ in 0..4 {
            match self.link.offer() {
                Some(offer) => words::offer(page, &offer, polled),
                None => page.tell(),
            }
        }
    }

    fn give(&mut self, page: &mut Page, event: Event)
        requires { Works self.old }
        ensures { Works self.new }
    {
        match event {
            Event::Command(_, octets) | Event::Heard(octets) => {
                self.receive(page, reading(octets));
            }
            Event::Overlong => self.receive(page, Received::Overlong),
            Event::Expire(timer) => self.expire(page, timer),
            Event::Ask(request) => self.ask(page, request),
            Event::Clear => self.clear(page),
            Event::Manage(managed) => words::outcome(page, manage(&mut self.teis, managed)),
        }
    }

    fn receive(&mut self, page: &mut Page, received: Received<'_>)
        requires { Works self.old }
        ensures { Works self.new }
    {
        let mut report = BareReport::nothing();
        self.link.receive(received, &mut report, &mut self.shelf);
        words::report(page, &report);
    }

    fn expire(&mut self, page: &mut Page, timer: LinkTimer)
        requires { Works self.old }
        ensures { Works self.new }
    {
        let mut report = BareReport::nothing();
        self.link.expire(timer, &mut report, &mut self.shelf);
        words::report(page, &report);
    }

    fn ask(&mut self, page: &mut Page, request: LinkRequest<'_>)
        requires { Works self.old }
        ensures { Works self.new }
    {
        let mut report = BareReport::nothing();
        let asked = self
            .link
            .request(request, &mut report, &mut self.shelf, ROOM);
        match asked {
            Ok(()) => words::report(page, &report),
            Err(refusal) => words::refusal(page, refusal),
        }
    }

    fn clear(&mut self, page: &mut Page)
        requires { Works self.old }
        ensures { Works self.new }
    {
        let mut report = BareReport::nothing();
        self.link.clear(&mut report, &mut self.shelf);
        words::report(page, &report);
    }
}

/// P of a command that comes.
fn polled(event: Event) -> Option<bool> {
    match event {
        Event::Command(p, _) => Some(p),
        _ => None,
    }
}

/// What octets are to the link of their address.
fn reading(octets: &'static [u8]) -> Received<'static> {
    match read(Side::User, octets) {
        Ok(frame) => Received::Frame(frame),
        Err(ReadFault::Undefined(_)) => Received::Undefined,
        Err(_) => Received::WrongSize,
    }
}

fn manage(teis: &mut Teis, managed: Managed) -> Result<TeiOutcome, Refusal> {
    match managed {
        Managed::Message(octets) => Ok(teis.message(octets)),
        Managed::Expire => Ok(teis.expire_t201()),
        Managed::Assign(tei) => teis.assign(tei % 127),
        Managed::Remove(tei) => teis.remove(tei % 127),
        Managed::Check(tei) => teis.check(tei % 127),
        Managed::Disown(tei) => teis.disown(tei % 128),
        Managed::Down => Ok(teis.give_up()),
    }
}
