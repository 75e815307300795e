//! The call of a card of octets that runs a list of events, with all that is promised of it.

ghost use Rattle.std.specs.Prelude.{◌≡◌, ◌<◌, All};
ghost use Rattle.model_card.specs.ports.Card.{OctetCard};
ghost use Rattle.model_card.specs.ports.Run.{meant_all};
ghost use Rattle.lapd_card.specs.Card.{line_count};
ghost use Rattle.lapd_card.specs.Drive.{line_of, events_of, HasRun, KeepsLaws};
ghost use Rattle.lapd_card.specs.Stands.{OctetCardStands};
ghost use Rattle.laws_promises.specs.Promises.{Promises};
ghost use Rattle.laws_promises.specs.PromisesOfOctets.{PromisesOfOctets};

use lapd_card::{Card, Event, Sink, SinkFault};
use lapd_store::Shelf;

/// Runs a list of events, as [`Card::drive`] does, whose clauses these are, and keeps all promises. `promises` are
/// those of what the events mean to the card of frames inside, and `promises_of_octets` those of its octets.
///
/// # Errors
///
/// [`SinkFault`] as of [`Card::drive`].
pub fn drive<S: Shelf, K: Sink>(
    card: &mut Card<S>,
    events: &[Event<'_>],
    sink: &mut K,
) -> Result<usize, SinkFault>
    requires { All (λ event. line_of event < line_count card.old) events.now }
    ensures config { card.new.frames.config ≡ card.old.frames.config }
    ensures run { HasRun S.store K.takes K.misses K.failures card.old card.new (events_of events.now) sink.old sink.new result }
    ensures laws { KeepsLaws S.store card.old (events_of events.now) }
    ensures promises { (m : OctetCard) → OctetCardStands S.store card.old m → Promises m.card (meant_all m (events_of events.now)) }
    ensures promises_of_octets { (m : OctetCard) → OctetCardStands S.store card.old m → PromisesOfOctets m (events_of events.now) }
{
    card.drive(events, sink)
}
