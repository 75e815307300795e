//! What an event is answered with.

ghost use Rattle.std.specs.Prelude.{◌≡◌};

use lapd_frame::{Note, Order, ShortList};
use lapd_link_steps::BareReport;

/// What an event told, with the contents that it delivered, lent from the frame.
#[derive(Clone, Copy)]
pub struct Outcome<'a> {
    /// What layer 3 and layer management are told, in order: at most two notes.
    pub notes: ShortList<Note>,
    /// The contents of an I-frame that are delivered.
    pub delivered: Option<&'a [u8]>,
    /// The contents of a UI frame.
    pub unit: Option<&'a [u8]>,
    /// What is to be done with T200 and then T203, at most one order each.
    pub orders: ShortList<Order>,
    /// How many control frames found no place to wait: they are lost, as if on the line. At most two.
    pub lost: u8,
    /// How many contents that layer 3 was granted are given up, sent or not, if the link is of call control,
    pub given_up: u8,
    /// and if it is of the second service.
    pub given_up_16: u8,
    /// Whether the state does not serve the frame.
    pub unserved: bool,
}

impl<'a> Outcome<'a> {
    ghost use Rattle.lapd_link.specs.Outcome.{told_with, told_of};

    /// What a report says, with the frame's information lent if it is delivered.
    pub(crate) fn of(report: &BareReport, information: &'a [u8]) -> Outcome<'a>
        ensures { told_of result ≡ told_with information.now report.now }
    {
        Outcome {
            notes: report.notes,
            delivered: report.delivered.then_some(information),
            unit: report.unit.then_some(information),
            orders: report.orders,
            lost: report.lost,
            given_up: report.given_up,
            given_up_16: report.given_up_16,
            unserved: report.unserved,
        }
    }
}
