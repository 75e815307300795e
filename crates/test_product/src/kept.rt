//! What a sink has kept after a list of events.

ghost use Rattle.std.specs.Prelude.{◌≡◌, ◌<◌, ◌++◌, map, take, All, IfErr, OnOk};
ghost use Rattle.model_card.specs.ports.Card as machine;
ghost use Rattle.model_card.specs.ports.Laws.{reply_of};
ghost use Rattle.model_card.specs.ports.Run.{moments};
ghost use Rattle.lapd_card.specs.Card.{line_count};
ghost use Rattle.lapd_card.specs.Drive.{line_of, events_of};
ghost use Rattle.lapd_card.specs.Kept.{replies_in};
ghost use Rattle.lapd_card.specs.Stands.{OctetCardStands};

use lapd_card::{Card, Event, Kept, SinkFault};
use lapd_store::Shelf;

/// Runs a list of events with a sink that keeps replies. After `Ok` it has kept every answer of the run, whole and in
/// order, beside what it had before. After a fault it has kept exactly the answers before the one that it missed.
///
/// # Errors
///
/// [`SinkFault`] as of [`Card::drive`].
pub fn keep_replies<S: Shelf>(
    card: &mut Card<S>,
    events: &[Event<'_>],
    sink: &mut Kept,
) -> Result<usize, SinkFault>
    requires { All (λ event. line_of event < line_count card.old) events.now }
    ensures all { OnOk result ((m : machine.OctetCard) → OctetCardStands S.store card.old m
        → replies_in sink.new ≡ replies_in sink.old ++ map reply_of (moments m (events_of events.now))) }
    ensures before { IfErr result (λ fault. (m : machine.OctetCard) → OctetCardStands S.store card.old m
        → replies_in sink.new ≡ replies_in sink.old ++ map reply_of (moments m (take fault.at (events_of events.now)))) }
{
    card.drive(events, sink)
}
