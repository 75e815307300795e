//! What takes the answers of a whole list of events at a card that keeps its own timers.

ghost use Rattle.std.specs.Prelude.{◌≡◌, ℕ, OnOk, OnErr};
ghost use Rattle.laws_promises.specs.TimedReply.{Answer, answer_of};
ghost use Rattle.lapd_card.specs.Sink.{one_failure_more};

use crate::timed_replies::TimedReply;
use lapd_card::SinkFailed;

/// Takes the answers to a list of events at a [`TimedCard`](lapd_timed::TimedCard), in order, as [`lapd_card::Sink`] takes
/// those of a card of octets: each with its moment, which for a new time is the new one.
pub trait TimedSink {
    /// What a sink is before and after it takes a reply, that of an event at a moment.
    ghost takes: { Self → ℕ → Answer → Self → Type 0 };

    /// The same of a reply that it does not take.
    ghost misses: { Self → ℕ → Answer → Self → Type 0 };

    /// How many replies were not taken: a number of 64 bits that stays at its greatest value.
    ghost failures: { Self → ℕ };

    /// Takes the reply to an event at a moment, in milliseconds.
    fn take(&mut self, moment: u64, reply: &TimedReply<'_>) -> Result<(), SinkFailed>
        ensures taken { OnOk result (takes self.old moment (answer_of reply.now) self.new) }
        ensures none_failed { OnOk result (failures self.new ≡ failures self.old) }
        ensures missed { OnErr result (misses self.old moment (answer_of reply.now) self.new) }
        ensures failed { OnErr result (failures self.new ≡ one_failure_more (failures self.old)) };
}
