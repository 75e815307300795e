//! The call of a card that keeps its own timers and runs a list of events, with all that is promised of it.

ghost use Rattle.std.specs.Prelude.{◌≡◌, ◌<◌, All};
ghost use Rattle.lapd_card.specs.{report_told, told_if_at};
ghost use Rattle.lapd_card.specs.Kinds.{config_of, kind_of, line_count};
ghost use Rattle.lapd_timed.specs.Kinds.{ports_of};
ghost use Rattle.model_bits.specs.Stream as stream;
ghost use Rattle.model_card.specs.Event.{at};
ghost use Rattle.model_card.specs.declared.kinds.CardKind.TheVariants.{Frames, Octets};
ghost use Rattle.model_card.specs.ports.Event as octet_event;
ghost use Rattle.model_card.specs.ports.Port as port;
ghost use Rattle.model_line.specs.Came.{came, cause_of};
ghost use Rattle.model_line.specs.Event.{hears};
ghost use Rattle.model_line.specs.Event as line_event;
ghost use Rattle.model_line.specs.Request.{request_of};
ghost use Rattle.model_timed.specs.Timed.{happens, time, falls_due};
ghost use Rattle.laws_promises.specs.TimedDrive.{frame_step, octet_step, of_frames, of_octets, MayHappen, HasRun, TimedKeepLaws};
ghost use Rattle.laws_promises.specs.TimedRun.{Serves};

use crate::frame_replies::{FrameReply, SentFrame};
use crate::timed_events::TimedEvent;
use crate::timed_replies::TimedReply;
use crate::timed_sink::TimedSink;
use lapd_card::{AnyCard, BareReport, Fault, Report, Request, SinkFailed, SinkFault};
use lapd_frame::MOST_N201;
use lapd_timed::TimedCard;

/// The octets of the longest frame without its check: four, and the greatest N201 of a configuration.
const LONGEST: usize = MOST_N201 as usize + 4;

/// Runs a list of events at a card of either kind that keeps its own timers, and hands each reply to the sink, in order, with
/// its moment. Answers how many events there were. Each event is one that a card of this kind takes, as `specs/TimedDrive` has
/// it.
///
/// A run is told of each timed machine for which the card stands. A card that keeps no timers stands for none: of it the contract
/// says no more than that it keeps its kind and its configuration, what the answer is, and whether the sink has failed.
///
/// - `run`: the card stays of its kind, and keeps its configuration. If the sink takes every reply, the card is where the timed
///   machine is after all events. The sink was handed the machine's reply to each, once and in order, and the counters have
///   counted the events of the card that they mean. If the sink missed a reply, all this is so up to that event. A moment that
///   is refused is answered, and changes nothing.
/// - `laws`: the events that they mean, with an expiry of each timer that fell due, lead the card without its timers there. So
///   of these all laws of [`crate::drive_frames`] hold, or of octets those of [`crate::drive`], and all promises. Each timer
///   falls due as long after its last start as it runs, and those run that their lines run. What is noted of a link is its
///   state, and the moment of the last step by which this became another.
///
/// # Errors
///
/// [`SinkFault`] if the sink failed on a reply: the card stands after that event, and later events have not happened.
pub fn drive_timed<K: TimedSink>(
    card: &mut TimedCard,
    events: &[TimedEvent<'_>],
    sink: &mut K,
) -> Result<usize, SinkFault>
    requires { All (MayHappen (kind_of card.old.card) (line_count card.old.card)) events.now }
    ensures run { HasRun K.takes K.misses K.failures card.old card.new events.now sink.old sink.new result }
    ensures laws { TimedKeepLaws card.old events.now }
{
    for (at, event) in events.iter().enumerate() {
        if serve(card, *event, sink).is_err() {
            return Err(SinkFault { at });
        }
    }
    Ok(events.len())
}

/// Serves one event, and hands its reply to the sink.
fn serve<K: TimedSink>(
    card: &mut TimedCard,
    event: TimedEvent<'_>,
    sink: &mut K,
) -> Result<(), SinkFailed>
    requires { MayHappen (kind_of card.old.card) (line_count card.old.card) event }
    ensures frames { Serves of_frames K.takes K.misses K.failures (frame_step (config_of card.old.card).n201 event.entry) card.old card.new sink.old sink.new result }
    ensures octets { Serves of_octets K.takes K.misses K.failures (octet_step event.entry) card.old card.new sink.old sink.new result }
{
    match event {
        TimedEvent::Time(moment) => go_to(card, moment, sink),
        TimedEvent::FallDue => fall_due(card, sink),
        TimedEvent::Frame(line, octets) => hear(card, line, octets, sink),
        TimedEvent::Failed(line, fault) => fail(card, line, fault, sink),
        TimedEvent::Next(line) => hand_on(card, line, sink),
        TimedEvent::Octet(line, octet) => hear_octet(card, line, octet, sink),
        TimedEvent::Pull(line) => pull(card, line, sink),
        TimedEvent::Request(line, request) => grant(card, line, request, sink),
    }
}

fn go_to<K: TimedSink>(card: &mut TimedCard, moment: u64, sink: &mut K) -> Result<(), SinkFailed>
    ensures frames { Serves of_frames K.takes K.misses K.failures (time moment) card.old card.new sink.old sink.new result }
    ensures octets { Serves of_octets K.takes K.misses K.failures (time moment) card.old card.new sink.old sink.new result }
{
    match card.go_to(moment) {
        Ok(()) => sink.take(card.now(), &TimedReply::Went),
        Err(_) => sink.take(card.now(), &TimedReply::WrongTime),
    }
}

fn fall_due<K: TimedSink>(card: &mut TimedCard, sink: &mut K) -> Result<(), SinkFailed>
    ensures frames { Serves of_frames K.takes K.misses K.failures falls_due card.old card.new sink.old sink.new result }
    ensures octets { Serves of_octets K.takes K.misses K.failures falls_due card.old card.new sink.old sink.new result }
{
    let mut report = BareReport::nothing();
    match card.fall_due(&mut report) {
        Some((line, timer)) => sink.take(
            card.now(),
            &TimedReply::FellDue(line, timer, Report::of(&report, None)),
        ),
        None => sink.take(card.now(), &TimedReply::NoneDue),
    }
}

fn hear<K: TimedSink>(
    card: &mut TimedCard,
    line: usize,
    octets: &[u8],
    sink: &mut K,
) -> Result<(), SinkFailed>
    requires kind { kind_of card.old.card ≡ Frames }
    requires within { line < line_count card.old.card }
    ensures { Serves of_frames K.takes K.misses K.failures (happens (at line (hears (came (config_of card.old.card).n201 octets.now)))) card.old card.new sink.old sink.new result }
{
    let mut report = BareReport::nothing();
    card.frame(line, octets, &mut report);
    let contents = card.card().frames().contents(line, octets, &report);
    sink.take(
        card.now(),
        &TimedReply::At(line, FrameReply::Report(Report::of(&report, contents))),
    )
}

fn fail<K: TimedSink>(
    card: &mut TimedCard,
    line: usize,
    fault: Fault,
    sink: &mut K,
) -> Result<(), SinkFailed>
    requires kind { kind_of card.old.card ≡ Frames }
    requires within { line < line_count card.old.card }
    ensures { Serves of_frames K.takes K.misses K.failures (happens (at line (hears (stream.dropped (cause_of fault))))) card.old card.new sink.old sink.new result }
{
    let mut report = BareReport::nothing();
    card.failed(line, fault, &mut report);
    sink.take(
        card.now(),
        &TimedReply::At(line, FrameReply::Report(Report::of(&report, None))),
    )
}

fn hand_on<K: TimedSink>(card: &mut TimedCard, line: usize, sink: &mut K) -> Result<(), SinkFailed>
    requires kind { kind_of card.old.card ≡ Frames }
    requires within { line < line_count card.old.card }
    ensures { Serves of_frames K.takes K.misses K.failures (happens (at line line_event.next)) card.old card.new sink.old sink.new result }
{
    let mut octets = [0; LONGEST];
    match card.next_frame(line, &mut octets) {
        Ok(Some(next)) => sink.take(
            card.now(),
            &TimedReply::At(
                line,
                FrameReply::Next(Some(SentFrame {
                    octets: &octets,
                    next,
                })),
            ),
        ),
        Ok(None) => sink.take(card.now(), &TimedReply::At(line, FrameReply::Next(None))),
        // No card has a longer frame.
        Err(_) => sink.take(card.now(), &TimedReply::At(line, FrameReply::Next(None))),
    }
}

fn hear_octet<K: TimedSink>(
    card: &mut TimedCard,
    line: usize,
    octet: u8,
    sink: &mut K,
) -> Result<(), SinkFailed>
    requires kind { kind_of card.old.card ≡ Octets }
    requires within { line < line_count card.old.card }
    ensures { Serves of_octets K.takes K.misses K.failures (happens (octet_event.at line (port.octet octet))) card.old card.new sink.old sink.new result }
{
    let heard = card.hear(line, octet);
    let report = told(card.card(), line, &heard);
    sink.take(
        card.now(),
        &TimedReply::At(line, FrameReply::Report(report)),
    )
}

/// What an octet led to, with the contents that it delivered.
fn told<'a>(card: &'a AnyCard, line: usize, heard: &Option<BareReport>) -> Report<'a>
    requires kind { kind_of card.now ≡ Octets }
    requires within { line < line_count card.now }
    ensures { report_told result ≡ told_if_at (ports_of card.now) line heard.now }
{
    let AnyCard::Octets(card) = card else {
        unreachable!();
    };
    match heard {
        Some(bare) => Report::of(bare, card.contents(line, bare)),
        None => Report::nothing(),
    }
}

fn pull<K: TimedSink>(card: &mut TimedCard, line: usize, sink: &mut K) -> Result<(), SinkFailed>
    requires kind { kind_of card.old.card ≡ Octets }
    requires within { line < line_count card.old.card }
    ensures { Serves of_octets K.takes K.misses K.failures (happens (octet_event.at line port.pull)) card.old card.new sink.old sink.new result }
{
    let pulled = card.pull(line);
    sink.take(card.now(), &TimedReply::Pulled(line, pulled))
}

fn grant<K: TimedSink>(
    card: &mut TimedCard,
    line: usize,
    request: Request<'_>,
    sink: &mut K,
) -> Result<(), SinkFailed>
    requires { line < line_count card.old.card }
    ensures frames { Serves of_frames K.takes K.misses K.failures (happens (at line (line_event.request (request_of request.entry)))) card.old card.new sink.old sink.new result }
    ensures octets { Serves of_octets K.takes K.misses K.failures (happens (octet_event.at line (port.request (request_of request.entry)))) card.old card.new sink.old sink.new result }
{
    let mut report = BareReport::nothing();
    match card.request(line, request, &mut report) {
        Ok(()) => sink.take(
            card.now(),
            &TimedReply::At(line, FrameReply::Report(Report::of(&report, None))),
        ),
        Err(refusal) => sink.take(
            card.now(),
            &TimedReply::At(line, FrameReply::Refused(refusal)),
        ),
    }
}
