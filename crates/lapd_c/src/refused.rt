//! Which links of a card were refused contents because their queues were full, and wait to be told of room.

ghost use Rattle.std.specs.Prelude.{◌≡◌, ◌≤◌, ◌<◌, ℕ, false, length, set, IfOk, IfSome, IfNone};

use crate::link_marks::LinkMarks;
use lapd_line::Marks;
use std::alloc::{AllocError, Global};
use std::marker::Model;

/// A mark for each link of each line. It knows of which lines there are any, so that a card that has none, as mostly, costs
/// a call one look.
#[derive(Drop)]
pub(crate) struct Refused {
    /// The lines of which links are marked.
    lines: Marks,
    /// The links, line by line.
    links: Vec<LinkMarks>,
}

impl Model for Refused {
    ghost use Rattle.std.specs.Prelude.{List};
    ghost use Rattle.lapd_c.specs.declared.link_marks.LinkMarks.{LinkMarks};
    ghost use Rattle.lapd_c.specs.RefusedLines.{AreOfLines};

    ghost Value = { List LinkMarks };

    ghost view = { λ r. r.links.items };

    ghost invariant = { λ r. AreOfLines r.lines r.links.items };
}

impl Refused {
    ghost use Rattle.lapd_c.specs.LinkMarks.{marks_of, AreMarked, AreUnmarked};

    /// No link of so many lines is marked.
    pub(crate) fn start(alloc: Global, lines: usize) -> Result<Refused, AllocError>
        requires { lines ≤ 64 }
        ensures { IfOk result (λ refused. AreUnmarked lines refused) }
    {
        Ok(Refused {
            lines: Marks::none(),
            links: vec![in alloc; LinkMarks::none(); lines]?,
        })
    }

    /// Whether any link of any line is marked.
    #[inline(always)]
    pub(crate) fn any(&self) -> bool
        ensures { result ≡ false → (line : ℕ) → AreMarked (marks_of self.now line) (λ place. false) }
    {
        self.lines.any()
    }

    /// The links of a line, if the card has that line.
    pub(crate) fn of(&self, line: usize) -> Option<LinkMarks>
        ensures there { IfSome result (λ links. (line < length self.now) × (links ≡ marks_of self.now line)) }
        ensures behind { IfNone result (length self.now ≤ line) }
    {
        self.links.get(line).copied()
    }

    /// Puts those of a line in place of what is there, if the card has that line.
    pub(crate) fn put(&mut self, line: usize, links: LinkMarks)
        ensures { self.new ≡ set self.old line links }
    {
        if line < self.links.len() {
            self.links[line] = links;
            self.lines.set(line, links.any());
        }
    }
}
