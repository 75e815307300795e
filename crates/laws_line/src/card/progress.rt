//! What calls for the next frame of a line come to. The law is the contract of a call that does nothing.

ghost use Rattle.std.specs.Prelude.{List};
ghost use Rattle.model_card.specs.Card.{Card};
ghost use Rattle.model_card.specs.Event.{Event};
ghost use Rattle.model_card.specs.Run.{AreAtLines};
ghost use Rattle.model_card.specs.Sound.{IsSound};
ghost use Rattle.laws_line.specs.card.PromisesOfTakes.{Wherever, WaitingIsTaken, CallsComeToAnEnd};

/// Calls for the next frame of a line serve it, wherever in a list of events they come, and whatever happens at the
/// other lines of its card meanwhile. The control frames that wait on a link are given in order, each by one of them
/// (`taken`). They come to an end within as many calls as the configuration says (`ended`). `answers_are_given` of
/// `laws_trace` and `calls_come_to_an_end` of `Promises` stand on it.
pub fn takes_serve_wherever()
    ensures taken { (m : Card) (events : List Event) → IsSound m → AreAtLines m events → Wherever WaitingIsTaken m events }
    ensures ended { (m : Card) (events : List Event) → IsSound m → AreAtLines m events → Wherever CallsComeToAnEnd m events }
{}
