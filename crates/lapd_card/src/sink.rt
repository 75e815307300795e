//! What takes the answers of a whole list of events at a card of octets.

ghost use Rattle.std.specs.Prelude.{◌≡◌, ℕ, OnOk, OnErr};
ghost use Rattle.model_card.specs.ports.Port.{Answer};
ghost use Rattle.lapd_card.specs.Reply.{answer_of};
ghost use Rattle.lapd_card.specs.Sink.{one_failure_more};

use crate::replies::Reply;
use thiserror::Error;

/// A sink did not take a reply.
#[derive(Clone, Copy, PartialEq, Eq, Debug, Error)]
#[error("the sink failed")]
pub struct SinkFailed;

/// Takes the answers to a list of events at a card of octets, in order.
///
/// A sink says by a relation what it is to take one reply: how the sink is afterwards, beside how it was before. So it
/// may keep the replies, write them as text, or count them, and [`crate::Card::drive`] says that it has taken one reply
/// after the other.
pub trait Sink {
    /// What a sink is before and after it takes a reply, that of an event at a line.
    ghost takes: { Self → ℕ → Answer → Self → Type 0 };

    /// The same of a reply that it does not take. A sink that keeps whole replies is as before, except for the count; one
    /// that writes them may have written the beginning of one.
    ghost misses: { Self → ℕ → Answer → Self → Type 0 };

    /// How many replies were not taken: a number of 64 bits that stays at its greatest value.
    ghost failures: { Self → ℕ };

    /// Takes the reply to an event at a line.
    fn take(&mut self, line: usize, reply: &Reply<'_>) -> Result<(), SinkFailed>
        ensures taken { OnOk result (takes self.old line (answer_of reply.now) self.new) }
        ensures none_failed { OnOk result (failures self.new ≡ failures self.old) }
        ensures missed { OnErr result (misses self.old line (answer_of reply.now) self.new) }
        ensures failed { OnErr result (failures self.new ≡ one_failure_more (failures self.old)) };
}

/// A sink failed while it was handed the replies to a list of events.
#[derive(Clone, Copy, PartialEq, Eq, Debug, Error)]
#[error("the sink failed on the reply to event {at}")]
pub struct SinkFault {
    /// The event whose reply was not taken, counted from 0. The card stands after it, and later events have
    /// not happened.
    pub at: usize,
}
