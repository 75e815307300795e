//! What an event led to.

use lapd_frame::{Note, Order, ShortList};
use model_teis::Change;

/// What an event led to.
#[derive(Clone, Copy)]
pub struct TeiOutcome {
    /// The notes of TEI management, which come before those of links that are cleared: at most one.
    pub notes: ShortList<Note>,
    /// The TEI that came to the line or left it.
    pub change: Option<Change>,
    /// What is ordered of T201, or at a terminal of T202: at most one order.
    pub orders: ShortList<Order>,
    /// How many messages were lost, as they found no room to wait: at most one.
    pub lost: u8,
    /// Whether a message is one that is not served. Then nothing else has happened.
    pub unserved: bool,
}

impl TeiOutcome {
    ghost use Rattle.std.specs.Prelude.{◌≡◌, true, Some, [], ◌∷◌, option_to_list};
    ghost use Rattle.lapd_tei.specs.{told_of, IsShort, nothing};
    ghost use Rattle.model_teis.specs.declared.changes.Change.TheVariants.{Gained};

    /// Nothing happened.
    pub fn nothing() -> TeiOutcome
        ensures told { told_of result ≡ nothing }
        ensures short { IsShort result }
    {
        TeiOutcome {
            notes: ShortList::none(),
            change: None,
            orders: ShortList::none(),
            lost: 0,
            unserved: false,
        }
    }

    // A message that is not served.
    pub(crate) fn unserved() -> TeiOutcome
        ensures told { told_of result ≡ record nothing { unserved = true } }
        ensures short { IsShort result }
    {
        TeiOutcome {
            unserved: true,
            ..TeiOutcome::nothing()
        }
    }

    // Management is told, and nothing else happened.
    pub(crate) fn noted(note: Note) -> TeiOutcome
        ensures { told_of result ≡ record nothing { notes = note ∷ [] } }
    {
        TeiOutcome {
            notes: ShortList::one(note),
            ..TeiOutcome::nothing()
        }
    }

    // A timer is started or stopped, or none, and nothing is told.
    pub(crate) fn ordered(order: Option<Order>) -> TeiOutcome
        ensures { told_of result ≡ record nothing { orders = option_to_list order } }
    {
        TeiOutcome {
            orders: match order {
                Some(order) => ShortList::one(order),
                None => ShortList::none(),
            },
            ..TeiOutcome::nothing()
        }
    }

    // A TEI came to the line, and nothing is told.
    pub(crate) fn gained(tei: u8, place: usize) -> TeiOutcome
        ensures { told_of result ≡ record nothing { change = Some (Gained tei place) } }
    {
        TeiOutcome {
            change: Some(Change::Gained { tei, place }),
            ..TeiOutcome::nothing()
        }
    }
}
