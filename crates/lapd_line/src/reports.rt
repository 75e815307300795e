//! What events of a line are answered with.

ghost use Rattle.std.specs.Prelude.{◌≡◌, ℕ, List};
ghost use Rattle.std.specs.Option.{option_copied};
ghost use Rattle.lapd_line.specs.{dropped, IsClear, told_in, told_beside, nothing, report_told, without_contents};

use lapd_frame::{Note, Order, ShortList};
use lapd_link::BareReport;
use model_bits::Cause;

/// What an octet, an expiry or an accepted request led to.
#[derive(Clone, Copy, PartialEq, Eq, Debug)]
pub struct Report<'a> {
    pub(crate) notes: ShortList<Note>,
    orders: ShortList<Order>,
    /// The contents that a frame delivered: of the I-frame or the UI frame that a note tells of. They are lent until
    /// the line's next octet.
    pub delivered: Option<&'a [u8]>,
    /// Why something was dropped.
    pub cause: Option<Cause>,
    /// How many control frames and messages of TEI management found no room to wait: they are lost, as if on the line.
    pub lost: u8,
    /// How many contents that were granted on the link of call control are given up: the latest of them, sent or not.
    pub given_up: u8,
    /// The same of the second service.
    pub given_up_16: u8,
}

impl Report<'_> {
    /// Of something that led to nothing.
    pub fn nothing() -> Report<'static>
        ensures { report_told result ≡ nothing }
    {
        Report {
            notes: ShortList::none(),
            orders: ShortList::none(),
            delivered: None,
            cause: None,
            lost: 0,
            given_up: 0,
            given_up_16: 0,
        }
    }

    /// What layer 3 and management are told, in order: at most four notes. The machine of a line never tells more
    /// (`answers_are_short` of `laws_line`), so none is left out.
    pub fn notes(&self) -> &[Note]
        ensures { result.now ≡ (report_told self.now).notes }
    {
        self.notes.as_slice()
    }

    /// The same without the contents that it lends, to be kept.
    pub fn without_contents(&self) -> Report<'static>
        ensures { report_told result ≡ without_contents (report_told self.now) }
    {
        Report {
            notes: self.notes,
            orders: self.orders,
            delivered: None,
            cause: self.cause,
            lost: self.lost,
            given_up: self.given_up,
            given_up_16: self.given_up_16,
        }
    }

    /// What is to be done with timers, in order: at most four orders, which is all that there can be.
    pub fn orders(&self) -> &[Order]
        ensures { result.now ≡ (report_told self.now).orders }
    {
        self.orders.as_slice()
    }
}

impl<'a> Report<'a> {
    /// What a report without references says, with these contents beside it.
    pub fn of(bare: &BareReport, delivered: Option<&'a [u8]>) -> Report<'a>
        ensures { report_told result ≡ told_beside (option_copied delivered.entry) bare.now }
    {
        Report {
            notes: bare.notes,
            orders: bare.orders,
            delivered,
            cause: bare.cause(),
            lost: bare.lost,
            given_up: bare.given_up,
            given_up_16: bare.given_up_16,
        }
    }
}

/// Tells that something is dropped without effect.
pub(crate) fn tell_drop(report: &mut BareReport, cause: Cause)
    requires { IsClear report.old }
    ensures { (octets : List ℕ) → told_in octets report.new ≡ dropped cause }
{
    report.cause = Some(cause);
}
