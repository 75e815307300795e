//! What a line does at one event. Each law is the contract of a call that does nothing.

ghost use Rattle.laws_line.specs.Laws.{OneEvent};

/// One part of a line has one event, and all else of it is as it was, as the law of this name of `laws_line::card` has
/// it.
pub fn one_event()
    ensures { OneEvent }
{}
