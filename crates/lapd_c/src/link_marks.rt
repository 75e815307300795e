//! Which links of a line are marked.

ghost use Rattle.std.specs.Prelude.{◌≡◌, ◌≤◌, ◌<◌, ℕ, true, false, IfSome};
ghost use Rattle.std.specs.Option.{unwrap_or};

use crate::plain::LINK_PLACES;
use lapd_line::Marks;

/// Which links of a line are marked, by their places.
#[derive(Clone, Copy)]
pub(crate) struct LinkMarks {
    /// The marks of 64 places each.
    words: [Marks; 4],
}

impl LinkMarks {
    ghost use Rattle.lapd_c.specs.LinkMarks.{is_marked, AreMarked, SetsLink};

    /// No link is marked.
    pub(crate) fn none() -> LinkMarks
        ensures { AreMarked result (λ place. false) }
    {
        LinkMarks {
            words: [Marks::none(); 4],
        }
    }

    /// Marks the link of a place, or takes its mark away.
    pub(crate) fn set(&mut self, place: u8, marked: bool)
        ensures { SetsLink place marked self.old self.new }
    {
        self.words[usize::from(place / 64)].set(usize::from(place % 64), marked);
    }

    /// Whether the link of a place is marked.
    pub(crate) fn has(&self, place: u8) -> bool
        ensures { result ≡ is_marked self.now place }
    {
        self.words[usize::from(place / 64)].has(usize::from(place % 64))
    }

    /// The first place of a marked link, of those from one on.
    pub(crate) fn next(&self, from: u8) -> Option<u8>
        ensures marked { IfSome result (λ place. (from ≤ place) × (place < 254) × (is_marked self.now place ≡ true)) }
        ensures others { (place : ℕ) → from ≤ place → place < unwrap_or result 254 → is_marked self.now place ≡ false }
    {
        let first = usize::from(from / 64);
        for word in first..4 {
            let start = if word == first { from % 64 } else { 0 };
            if let Some(number) = self.words[word].first(usize::from(start), 64) {
                let place = (64 * word + number) as u8;
                return (place < LINK_PLACES).then_some(place);
            }
        }
        None
    }

    /// Whether any link is marked.
    pub(crate) fn any(&self) -> bool
        ensures { result ≡ false → AreMarked self.now (λ place. false) }
    {
        self.next(0).is_some()
    }
}
