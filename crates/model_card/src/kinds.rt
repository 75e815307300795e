//! The kinds of cards.

/// What goes between a card and its lines.
#[derive(Clone, Copy)]
pub enum CardKind {
    /// Octets, one after the other.
    Octets,
    /// Whole frames, as a controller does the rest.
    Frames,
}
