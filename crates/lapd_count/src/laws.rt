//! What holds of counters. Each law is the contract of a call that does nothing.

ghost use Rattle.lapd_count.specs.Laws.{CountersAreNumbers, PlacesAreNames, ControlsHaveKinds};

/// A counter is a number: whatever is counted, each counter is afterwards what it was before, and so many more as were
/// counted under its name; or its greatest value, where that is less.
pub fn counters_are_numbers()
    ensures { CountersAreNumbers }
{}

/// No two counters stand at one place.
pub fn places_are_names()
    ensures { PlacesAreNames }
{}

/// The kinds are those of the grammar: the first octet of each control field that it has is of the kind of that name.
pub fn controls_have_kinds()
    ensures { ControlsHaveKinds }
{}
