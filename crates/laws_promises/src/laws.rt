//! The promises as laws of the machine. Each law is the contract of a call that does nothing.

ghost use Rattle.std.specs.Prelude.{List};
ghost use Rattle.model_card.specs.Card.{Card};
ghost use Rattle.model_card.specs.Event.{Event};
ghost use Rattle.model_card.specs.Reached.{IsReached};
ghost use Rattle.model_card.specs.Run.{AreAtLines};
ghost use Rattle.model_card.specs.ports.Card.{OctetCard};
ghost use Rattle.model_card.specs.ports.Event as octets;
ghost use Rattle.model_card.specs.ports.Reached as octets_reached;
ghost use Rattle.model_card.specs.ports.Run as octets_run;
ghost use Rattle.laws_promises.specs.EventsMean.{EventsMeanThis};
ghost use Rattle.laws_promises.specs.Promises.{Promises};
ghost use Rattle.laws_promises.specs.PromisesOfOctets.{PromisesOfOctets};
ghost use Rattle.laws_promises.specs.RepliesMean.{RepliesMeanThis};
ghost use Rattle.laws_promises.specs.RequestsMean.{RequestsMeanThis};
ghost use Rattle.laws_promises.specs.RunsMean.{RunsMeanThis};
ghost use Rattle.laws_promises.specs.StartsMean.{StartsMeanThis};

/// Every machine of a card that is reached keeps all promises, of every list of events at its lines.
pub fn promises_are_kept()
    ensures { (m : Card) (events : List Event) → IsReached m → AreAtLines m events → Promises m events }
{}

/// Every card of octets that is reached keeps all promises of its octets, of every list of events at its lines.
pub fn promises_of_octets_are_kept()
    ensures { (m : OctetCard) (events : List octets.Event) → octets_reached.IsReached m → octets_run.AreAtLines m events → PromisesOfOctets m events }
{}

/// Calls of Rattle mean what they say. A request asks the machine for what its name says, of the same link or TEI and with
/// the same contents (`requests`). An event of a list is that event of its line; a fault is heard as what is dropped for
/// its cause (`events`). A reply has the notes, contents, cause, orders and number of lost frames of the answer, or the
/// octet or the frame (`replies`). A run hands its sink the reply to each event, with its line, or with its moment if the
/// card keeps its own timers. Each event may happen at each line of a card that takes it. A wrong moment leads such a card
/// nowhere, and each other step where the timed machine goes (`runs`). The usual configuration has these values, and a shelf
/// begins with as many slots as were asked for, all free. A card is told why it may not start, or may (`starts`).
#[tactic(auto, using(crate::proofs::CallsMean::requests_mean_this, crate::proofs::CallsMean::events_mean_this, crate::proofs::CallsMean::replies_mean_this, crate::proofs::CallsMean::runs_mean_this, crate::proofs::StartsMean::starts_mean_this))]
pub fn calls_mean_this()
    ensures requests { RequestsMeanThis }
    ensures events { EventsMeanThis }
    ensures replies { RepliesMeanThis }
    ensures runs { RunsMeanThis }
    ensures starts { StartsMeanThis }
{}
