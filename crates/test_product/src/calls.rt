//! The calls that run lists of events, with a sink that takes them all, and two with one that has no room for all.

ghost use Rattle.std.specs.Prelude.{◌≡◌, ⊤, IfOk, OnOk, OnErr};
ghost use Rattle.lapd_card.specs.Card as octets;
ghost use Rattle.lapd_card.specs.FrameCard as frames;
ghost use Rattle.lapd_card.specs.Kinds.{kind_of, line_count};
ghost use Rattle.lapd_card.specs.Sink.{one_failure_more};
ghost use Rattle.model_card.specs.declared.kinds.CardKind.TheVariants.{Frames, Octets};

use crate::kept::keep_replies;
use lapd_card::{AnyCard, Card, Config, Event, FrameCard, Kept, Request, SinkFailed, SinkFault};
use lapd_clock::Lengths;
use lapd_frame::Service;
use lapd_store::{RawShelf, SlabShelf};
use lapd_timed::{CardTimers, TimedCard};
use laws_promises::{
    FrameEvent, FrameReply, FrameSink, TimedEvent, TimedReply, TimedSink, drive, drive_frames,
    drive_timed,
};
use std::alloc::Global;
use std::test::Fail;

fn octet_card(alloc: Global) -> Result<Card<SlabShelf>, Fail>
    ensures { IfOk result (λ card. octets.line_count card ≡ 1) }
{
    Ok(Card::start(alloc, Config::USUAL, SlabShelf::start(alloc, 64, 260)?)?)
}

fn frame_card(alloc: Global) -> Result<FrameCard<SlabShelf>, Fail>
    ensures { IfOk result (λ card. frames.line_count card ≡ 1) }
{
    Ok(FrameCard::start(alloc, Config::USUAL, SlabShelf::start(alloc, 64, 260)?)?)
}

fn timed_frame_card(alloc: Global) -> Result<TimedCard, Fail>
    ensures kind { IfOk result (λ card. kind_of card.card ≡ Frames) }
    ensures lines { IfOk result (λ card. line_count card.card ≡ 1) }
{
    let card = FrameCard::start(alloc, Config::USUAL, RawShelf::start(alloc, 64, 260)?)?;
    let timers = CardTimers::start(alloc, 1, 8, Lengths::standard())?;
    Ok(TimedCard::new(AnyCard::Frames(card), timers))
}

fn timed_octet_card(alloc: Global) -> Result<TimedCard, Fail>
    ensures kind { IfOk result (λ card. kind_of card.card ≡ Octets) }
    ensures lines { IfOk result (λ card. line_count card.card ≡ 1) }
{
    let card = Card::start(alloc, Config::USUAL, RawShelf::start(alloc, 64, 260)?)?;
    let timers = CardTimers::start(alloc, 1, 8, Lengths::standard())?;
    Ok(TimedCard::new(AnyCard::Octets(card), timers))
}

/// A sink with room for so many replies, which counts those that begin a frame.
#[derive(Drop)]
struct Counting {
    room: usize,
    frames: usize,
    failures: u64,
}

impl Counting {
    fn start(room: usize) -> Counting {
        Counting {
            room,
            frames: 0,
            failures: 0,
        }
    }

    /// Takes a reply.
    fn count(&mut self, is_frame: bool) -> Result<(), SinkFailed>
        ensures taken { OnOk result (self.new.failures ≡ self.old.failures) }
        ensures missed { OnErr result (self.new.failures ≡ one_failure_more self.old.failures) }
    {
        if self.room == 0 {
            self.failures = self.failures.saturating_add(1);
            return Err(SinkFailed);
        }
        self.room -= 1;
        self.frames = self.frames.saturating_add(usize::from(is_frame));
        Ok(())
    }
}

impl FrameSink for Counting {
    ghost takes = { λ old line answer new. ⊤ };

    ghost misses = { λ old line answer new. ⊤ };

    ghost failures = { λ s. s.failures };

    fn take(&mut self, _line: usize, reply: &FrameReply<'_>) -> Result<(), SinkFailed> {
        self.count(matches!(reply, FrameReply::Next(Some(_))))
    }
}

impl TimedSink for Counting {
    ghost takes = { λ old moment answer new. ⊤ };

    ghost misses = { λ old moment answer new. ⊤ };

    ghost failures = { λ s. s.failures };

    fn take(&mut self, _moment: u64, reply: &TimedReply<'_>) -> Result<(), SinkFailed> {
        self.count(match reply {
            TimedReply::At(_, FrameReply::Next(next)) => next.is_some(),
            TimedReply::Pulled(_, pulled) => pulled.begun,
            _ => false,
        })
    }
}

/// A terminal's unit data, of one octet.
const UNIT: [Event<'static>; 10] = [
    Event::Request(0, Request::Assign(64)),
    Event::Octet(0, 0x7E),
    Event::Octet(0, 0x00),
    Event::Octet(0, 0x81),
    Event::Octet(0, 0x03),
    Event::Octet(0, 0xCB),
    Event::Octet(0, 0x59),
    Event::Octet(0, 0xF8),
    Event::Octet(0, 0xFC),
    Event::Octet(0, 0xFC),
];

/// Whether contents were kept with the latest reply, and are these.
fn has_kept(sink: &Kept, contents: &[u8]) -> bool {
    let latest = sink.replies.last().and_then(|kept| kept.contents.as_ref());
    latest.is_some_and(|kept| kept.as_slice() == contents)
}

#[test]
fn at_a_card_of_octets(rt: HostRuntime) -> Result<(), Fail> {
    let mut card = octet_card(rt.alloc())?;
    let mut sink = Kept::start(rt.alloc(), 10)?;
    assert!(rt; drive(&mut card, &UNIT, &mut sink) == Ok(10));
    assert!(rt; has_kept(&sink, &[0xCB]));
    assert!(rt; keep_replies(&mut card, &UNIT, &mut sink) == Err(SinkFault { at: 0 }));
    assert!(rt; sink.replies.len() == 10 && sink.failures == 1);
    Ok(())
}

/// A link is established, and its UA taken.
const ESTABLISHED: [FrameEvent<'static>; 3] = [
    FrameEvent::Request(0, Request::Assign(64)),
    FrameEvent::Frame(0, &[0x00, 0x81, 0x7F]),
    FrameEvent::Next(0),
];

#[test]
fn at_a_card_of_frames(rt: HostRuntime) -> Result<(), Fail> {
    let mut card = frame_card(rt.alloc())?;
    let mut sink = Counting::start(3);
    assert!(rt; drive_frames(&mut card, &ESTABLISHED, &mut sink) == Ok(3));
    assert!(rt; sink.frames == 1 && sink.failures == 0);
    Ok(())
}

/// A link is asked for at 5, and its SABME goes. None answers, so that T200 falls due a second later, and it goes again.
const IN_TIME: [TimedEvent<'static>; 7] = [
    TimedEvent::Time(5),
    TimedEvent::Request(0, Request::Assign(64)),
    TimedEvent::Request(0, Request::Establish(Service::Call, 64)),
    TimedEvent::Next(0),
    TimedEvent::Time(1005),
    TimedEvent::FallDue,
    TimedEvent::Next(0),
];

#[test]
fn at_a_card_of_frames_with_timers(rt: HostRuntime) -> Result<(), Fail> {
    let mut card = timed_frame_card(rt.alloc())?;
    let mut sink = Counting::start(7);
    assert!(rt; drive_timed(&mut card, &IN_TIME, &mut sink) == Ok(7));
    assert!(rt; sink.frames == 2 && sink.failures == 0);
    Ok(())
}

/// The same of octets: a flag comes, and the pulls give one and begin the SABME.
const OCTETS_IN_TIME: [TimedEvent<'static>; 8] = [
    TimedEvent::Time(5),
    TimedEvent::Request(0, Request::Assign(64)),
    TimedEvent::Request(0, Request::Establish(Service::Call, 64)),
    TimedEvent::Octet(0, 0x7E),
    TimedEvent::Pull(0),
    TimedEvent::Pull(0),
    TimedEvent::Time(1005),
    TimedEvent::FallDue,
];

#[test]
fn at_a_card_of_octets_with_timers(rt: HostRuntime) -> Result<(), Fail> {
    let mut card = timed_octet_card(rt.alloc())?;
    let mut sink = Counting::start(7);
    assert!(rt; drive_timed(&mut card, &OCTETS_IN_TIME, &mut sink) == Err(SinkFault { at: 7 }));
    assert!(rt; sink.frames == 1 && sink.failures == 1);
    Ok(())
}
