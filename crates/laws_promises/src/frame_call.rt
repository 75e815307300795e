//! The call of a card that runs a list of events, with all that is promised of it.

ghost use Rattle.std.specs.Prelude.{◌<◌, All};
ghost use Rattle.model_line.specs.Event as line_event;
ghost use Rattle.model_line.specs.Request.{request_of};
ghost use Rattle.model_card.specs.Event.{at};
ghost use Rattle.model_card.specs.Machine.{answer};
ghost use Rattle.lapd_card.specs.FrameCard.{line_count};
ghost use Rattle.lapd_card.specs.FrameStands.{FrameStands, Leads};
ghost use Rattle.lapd_card.specs.Sink.{Hands};
ghost use Rattle.laws_promises.specs.FrameDrive.{event_of, line_of, events_of, HasRun, FramesKeepLaws};

use crate::frame_events::FrameEvent;
use crate::frame_replies::{FrameReply, SentFrame};
use crate::frame_sink::FrameSink;
use lapd_card::{BareReport, FrameCard, Report, Request, SinkFailed, SinkFault};
use lapd_frame::MOST_N201;
use lapd_store::Shelf;

/// The octets of the longest frame without its check: four, and the greatest N201 of a configuration.
const LONGEST: usize = MOST_N201 as usize + 4;

/// Runs a list of events, and hands each reply to the sink, in order. Answers how many events there were.
///
/// Its clauses are those of [`lapd_card::Card::drive`] with the same names, of a frame that came or a fault in place of an
/// octet, and of a call for the next frame in place of a pull.
///
/// - `run`: the card keeps its configuration. If the sink takes every reply, the card is where the machine is after
///   all events. The sink was handed the machine's reply to each, once and in order, and the counters of each line have counted
///   what the run shows at it. If the sink missed a reply, all this is so up to that event.
/// - `laws`: the laws of every run say of frames what those say of what octets mean. In `rejects_are_long` each REJ with a valid
///   N(R) is one of the frames heard that have four octets or more. The frames that it gives, with those still to be sent, are
///   linear in the octets of the frames that came (`linear`). And it keeps all promises (`promises`).
///
/// # Errors
///
/// [`SinkFault`] if the sink failed on a reply: the card stands after that event, and later events have not happened.
pub fn drive_frames<S: Shelf, K: FrameSink>(
    card: &mut FrameCard<S>,
    events: &[FrameEvent<'_>],
    sink: &mut K,
) -> Result<usize, SinkFault>
    requires { All (λ event. line_of event < line_count card.old) events.now }
    ensures run { HasRun S.store K.takes K.misses K.failures card.old card.new (events_of card.old.config.n201 events.now) sink.old sink.new result }
    ensures laws { FramesKeepLaws S.store card.old (events_of card.old.config.n201 events.now) }
{
    for (at, event) in events.iter().enumerate() {
        if answer(card, *event, sink).is_err() {
            return Err(SinkFault { at });
        }
    }
    Ok(events.len())
}

/// Serves one event, and hands its reply to the sink.
fn answer<S: Shelf, K: FrameSink>(
    card: &mut FrameCard<S>,
    event: FrameEvent<'_>,
    sink: &mut K,
) -> Result<(), SinkFailed>
    requires { line_of event < line_count card.old }
    ensures leads { Leads S.store (event_of card.old.config.n201 event.entry) card.old card.new }
    ensures hands { Hands K.takes K.misses K.failures (FrameStands S.store card.old) (event_of card.old.config.n201 event.entry).line
        (answer (event_of card.old.config.n201 event.entry)) sink.old sink.new result }
{
    let mut report = BareReport::nothing();
    match event {
        FrameEvent::Frame(line, octets) => {
            card.frame(line, octets, &mut report);
            let contents = card.contents(line, octets, &report);
            sink.take(line, &FrameReply::Report(Report::of(&report, contents)))
        }
        FrameEvent::Failed(line, fault) => {
            card.failed(line, fault, &mut report);
            sink.take(line, &FrameReply::Report(Report::of(&report, None)))
        }
        FrameEvent::Next(line) => hand_on(card, line, sink),
        FrameEvent::Expire(line, timer) => {
            card.expire(line, timer, &mut report);
            sink.take(line, &FrameReply::Report(Report::of(&report, None)))
        }
        FrameEvent::Request(line, request) => grant(card, line, request, sink),
    }
}

fn hand_on<S: Shelf, K: FrameSink>(
    card: &mut FrameCard<S>,
    line: usize,
    sink: &mut K,
) -> Result<(), SinkFailed>
    requires { line < line_count card.old }
    ensures leads { Leads S.store (at line line_event.next) card.old card.new }
    ensures hands { Hands K.takes K.misses K.failures (FrameStands S.store card.old) line
        (answer (at line line_event.next)) sink.old sink.new result }
{
    let mut octets = [0; LONGEST];
    match card.next_frame(line, &mut octets) {
        Ok(Some(next)) => sink.take(
            line,
            &FrameReply::Next(Some(SentFrame {
                octets: &octets,
                next,
            })),
        ),
        Ok(None) => sink.take(line, &FrameReply::Next(None)),
        // No card has a longer frame.
        Err(_) => sink.take(line, &FrameReply::Next(None)),
    }
}

fn grant<S: Shelf, K: FrameSink>(
    card: &mut FrameCard<S>,
    line: usize,
    request: Request<'_>,
    sink: &mut K,
) -> Result<(), SinkFailed>
    requires { line < line_count card.old }
    ensures leads { Leads S.store (at line (line_event.request (request_of request.entry))) card.old card.new }
    ensures hands { Hands K.takes K.misses K.failures (FrameStands S.store card.old) line
        (answer (at line (line_event.request (request_of request.entry)))) sink.old sink.new result }
{
    let mut report = BareReport::nothing();
    match card.request(line, request, &mut report) {
        Ok(()) => sink.take(line, &FrameReply::Report(Report::of(&report, None))),
        Err(refusal) => sink.take(line, &FrameReply::Refused(refusal)),
    }
}
