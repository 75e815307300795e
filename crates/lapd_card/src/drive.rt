//! A whole list of events at a card of octets, with the replies handed to a sink.

ghost use Rattle.std.specs.Prelude.{◌≡◌, ◌<◌, All};
ghost use Rattle.model_line.specs.Request.{request_of};
ghost use Rattle.model_card.specs.ports.Card.{answer};
ghost use Rattle.model_card.specs.ports.Event.{at, event_of};
ghost use Rattle.model_card.specs.ports.Port as port;
ghost use Rattle.lapd_card.specs.Card.{line_count};
ghost use Rattle.lapd_card.specs.Drive.{line_of, events_of, HasRun, KeepsLaws};
ghost use Rattle.lapd_card.specs.Sink.{Hands};
ghost use Rattle.lapd_card.specs.Stands.{OctetCardStands, Leads};

use crate::card::Card;
use crate::replies::Reply;
use crate::sink::{Sink, SinkFailed, SinkFault};
use lapd_line::Request;
use lapd_store::Shelf;
use model_card::ports::Event;

impl<S: Shelf> Card<S> {
    /// Runs a list of events, and hands each reply to the sink, in order. Answers how many events there were. A sink that
    /// keeps them is [`crate::Kept`]: each reply that it takes is appended once, and one that it misses not at all.
    ///
    /// Its clauses hold for every card and every list of events. Those of `run` stand in the record `Runs`, as `HasRun` has
    /// it of a card of octets, and those of `laws` in `KeepsLaws`:
    ///
    /// - `ok`, `ran`, `taken`: every event has happened, the card is where the machine is after them, and the sink has
    ///   taken the machine's reply to each, once and in order.
    /// - `at`, `stopped`, `taken_before`: after a fault, the events up to the one whose reply the sink did not take have
    ///   happened, and no later one. The sink has taken the replies before it.
    /// - `counters`, `counters_before`, `counters_add_up`: the counters of each line have counted what those events show
    ///   at it that have happened, and nothing of other lines. So each counter is what it was before and so many more as
    ///   the moments at its line show under its name, or its greatest value if that is less.
    /// - `failed`, `not_failed`: after a fault the sink has counted one failure more (a count that stays at its greatest
    ///   value), and otherwise none.
    /// - `config`: the configuration stays as it is.
    /// - `moments`: the replies of a run are the answers in its moments, which the other clauses count and compare.
    /// - `refused`: a request is refused exactly if a row of the table of refusals holds, for the reason of the first
    ///   such row. Then nothing changes.
    /// - `by_event`: how much what the events mean raises the number of frames still to be sent. A frame heard raises it
    ///   by two at most, and by k more for an REJ. At a terminal the two are so many as it may have TEIs, if these are
    ///   more. An expiry of a running timer raises it by k + 1 at most, and an accepted request by one. A frame that a pull
    ///   begins lowers it. By `codec` an octet or a pull that means nothing leaves it.
    /// - `drops`, `without_effect`: an octet whose answer names a cause, why it or its frame was dropped, leaves the number
    ///   of frames still to be sent as it is. It leaves all else of the card, too, except the octets received, and the
    ///   answer says nothing else.
    ///
    /// The rest holds after every front of the list, so after each event, and also if the sink failed on the way:
    ///
    /// - `within_limit`: the octets stored are at most [`crate::limit`] of the configuration.
    /// - `amortised`: the frames that pulls begin, with those still to be sent, have a limit, whatever the number of
    ///   pulls. They are at most those that could be sent before, two for each frame heard, one for each accepted request,
    ///   k + 1 for each expiry of a running timer and k for each REJ with a valid N(R). k is the greater window. For each
    ///   frame heard a terminal counts so many as it may have TEIs, if these are more than two.
    /// - `amortised_from_zero`: from a card that has just begun, the same without what could be sent before.
    /// - `six_octets_a_frame`, `seven_octets_a_reject`: from a card that has just begun, each frame heard has taken six of
    ///   the octets received, and each of those REJ seven.
    /// - `linear`: so from a card that has just begun the frames sent are linear in octets, accepted requests and
    ///   expiries.
    /// - `isolated`: from a card that has just begun, each line answers what it would answer on a card of its own, to the
    ///   events at it that did not find the pool full. Only answers of a full pool are excepted.
    /// - `never_full`: from a card that has just begun, no request finds the pool full if there is a slot for each place of
    ///   each queue.
    /// - `numbered`: what each link delivers since its establishment is numbered 0, 1, 2, .. modulo 128, each delivery told
    ///   in the answer to its own frame (Q.921 clause 5.6.2). Before an establishment the numbers go on with the link's
    ///   V(R).
    /// - `from_zero`: on a card that has just begun they begin with 0, too.
    /// - `codec`: at the card of frames inside, the run is that of the frames heard, expiries, requests and calls for the next
    ///   frame that the events mean, moment by moment. Of these speaks what is said of frames.
    /// - `textual`: the octets pulled of a line, after those given before, are a prefix of one text of flags and whole frames
    ///   (Q.921 clause 2). Its frames are those that the card of frames gave there, in order. What that heard there is exactly
    ///   what stands in the octets received.
    ///
    /// What else is promised of the same list, such as that nothing accepted is lost silently, are the fields of the record
    /// `Promises` of the crate `laws_promises`. Its function `drive` is this call, with these clauses and that record.
    ///
    /// # Errors
    ///
    /// [`SinkFault`] if the sink failed on a reply: the card stands after that event, and later events
    /// have not happened.
    pub fn drive<K: Sink>(&mut self, events: &[Event<'_>], sink: &mut K) -> Result<usize, SinkFault>
        requires { All (λ event. line_of event < line_count self.old) events.now }
        ensures config { self.new.frames.config ≡ self.old.frames.config }
        ensures run { HasRun S.store K.takes K.misses K.failures self.old self.new (events_of events.now) sink.old sink.new result }
        ensures laws { KeepsLaws S.store self.old (events_of events.now) }
    {
        for (at, event) in events.iter().enumerate() {
            if self.answer(*event, sink).is_err() {
                return Err(SinkFault { at });
            }
        }
        Ok(events.len())
    }

    /// Serves one event, and hands its reply to the sink.
    fn answer<K: Sink>(&mut self, event: Event<'_>, sink: &mut K) -> Result<(), SinkFailed>
        requires { line_of event < line_count self.old }
        ensures leads { Leads S.store (event_of event.entry) self.old self.new }
        ensures hands { Hands K.takes K.misses K.failures (OctetCardStands S.store self.old) (line_of event.entry)
            (answer (event_of event.entry)) sink.old sink.new result }
    {
        match event {
            Event::Octet(line, octet) => sink.take(line, &Reply::Report(self.octet(line, octet))),
            Event::Expire(line, timer) => sink.take(line, &Reply::Report(self.expire(line, timer))),
            Event::Request(line, request) => self.grant(line, request, sink),
            Event::Pull(line) => sink.take(line, &Reply::Pulled(self.pull(line))),
        }
    }

    fn grant<K: Sink>(
        &mut self,
        line: usize,
        request: Request<'_>,
        sink: &mut K,
    ) -> Result<(), SinkFailed>
        requires { line < line_count self.old }
        ensures leads { Leads S.store (at line (port.request (request_of request.entry))) self.old self.new }
        ensures hands { Hands K.takes K.misses K.failures (OctetCardStands S.store self.old) line
            (answer (at line (port.request (request_of request.entry)))) sink.old sink.new result }
    {
        match self.request(line, request) {
            Ok(report) => sink.take(line, &Reply::Report(report)),
            Err(refusal) => sink.take(line, &Reply::Refused(refusal)),
        }
    }
}
