//! What an event is answered with.

ghost use Rattle.std.specs.Prelude.{◌≡◌, ◌≤◌, ◌||◌, min, true};
ghost use Rattle.std.specs.Option.{option_copied};
ghost use Rattle.lapd_frame.specs.ShortLists.{listed};

use lapd_frame::{Note, Order, Service, ShortList};
use model_bits::Cause;
use model_link::LinkTimer;

// All contents of a queue, as a number of those that are to be released.
pub(crate) const ALL: u8 = 127;

/// What an event led to, without references. A call is handed one in which nothing is told yet ([`BareReport::nothing`]), and
/// each level below it writes its own part. Rows of the tables write all except `orders`, `start`, `cause` and the two numbers
/// that are given up. The end of a link's event writes `orders` and these, and the line what is told by no link.
#[derive(Clone, Copy)]
pub struct BareReport {
    /// What layer 3 and layer management are told, in order.
    pub notes: ShortList<Note>,
    /// What is to be done with timers, in order.
    pub orders: ShortList<Order>,
    /// Whether the information of the frame is delivered, as that of an I-frame.
    pub delivered: bool,
    /// Whether it is told as unit data.
    pub unit: bool,
    /// The place in the frame at which the information begins.
    pub start: usize,
    /// Why something was dropped that no link was asked for.
    pub cause: Option<Cause>,
    /// The timer that the event started last, if it was not stopped since.
    pub started: Option<LinkTimer>,
    /// How many control frames and messages of TEI management found no place to wait.
    pub lost: u8,
    /// How many contents that layer 3 was granted are given up: of the link of call control,
    pub given_up: u8,
    /// and of that of the second service.
    pub given_up_16: u8,
    /// Whether the link's state, or TEI management, does not serve the frame.
    pub unserved: bool,
    /// How many of the oldest contents of the queue are to be released, 0 to 127; 127 is all of them.
    pub released: u8,
    /// The place of the queue, as the event began, from which on contents are given up; 127 if none are.
    pub given_up_from: u8,
    ghost in_range: { released ≤ 127 },
}

impl BareReport {
    ghost use Rattle.lapd_link_steps.specs.{IsQuiet, IsClear, cause_in, counting, delivered_in, has_contents};

    /// Nothing is told yet.
    #[inline(always)]
    pub fn nothing() -> BareReport
        ensures { IsClear result }
    {
        BareReport {
            notes: ShortList::none(),
            orders: ShortList::none(),
            delivered: false,
            unit: false,
            start: 0,
            cause: None,
            started: None,
            lost: 0,
            given_up: 0,
            given_up_16: 0,
            unserved: false,
            released: 0,
            given_up_from: ALL,
        }
    }

    /// What layer 3 and management are told, in order.
    pub fn notes(&self) -> &[Note]
        ensures { result.now ≡ listed self.now.notes }
    {
        self.notes.as_slice()
    }

    /// What is to be done with timers, in order.
    pub fn orders(&self) -> &[Order]
        ensures { result.now ≡ listed self.now.orders }
    {
        self.orders.as_slice()
    }

    /// Why something was dropped.
    pub fn cause(&self) -> Option<Cause>
        ensures { result ≡ cause_in self.now }
    {
        if self.unserved {
            Some(Cause::Unserved)
        } else {
            self.cause
        }
    }

    /// Whether contents were delivered, of an I-frame or a UI frame.
    pub fn has_contents(&self) -> bool
        ensures { result ≡ has_contents self.now }
    {
        self.delivered || self.unit
    }

    /// The contents that were delivered, which lie in the octets of the frame that brought them.
    #[tactic(auto, using(crate::proofs::Contents::some_delivered, crate::proofs::Contents::none_delivered))]
    #[inline(always)]
    pub fn contents<'a>(&self, octets: &'a [u8]) -> Option<&'a [u8]>
        ensures { option_copied result ≡ delivered_in octets.now self.now }
    {
        if self.has_contents() {
            Some(octets.get(self.start..).unwrap_or(&[]))
        } else {
            None
        }
    }

    /// Counts what the event of a link gave up, of so many contents that were queued as it began: at most 127.
    #[tactic(auto, using(crate::proofs::Counts::all_of_call, crate::proofs::Counts::none_of_call, crate::proofs::Counts::all_of_packet, crate::proofs::Counts::none_of_packet))]
    #[inline(always)]
    pub fn count_given_up(&mut self, service: Service, queued: usize)
        ensures { self.new ≡ counting service (min queued 127) self.old }
    {
        let most = queued.min(usize::from(ALL));
        let given_up = most.saturating_sub(usize::from(self.given_up_from)) as u8;
        match service {
            Service::Call => {
                self.given_up = given_up;
                self.given_up_16 = 0;
            }
            Service::Packet => {
                self.given_up = 0;
                self.given_up_16 = given_up;
            }
        }
    }

    /// Whether nothing is told but orders for timers, as mostly.
    #[inline(always)]
    pub fn is_quiet(&self) -> bool
        ensures { result ≡ true → IsQuiet self.now }
    {
        // One test serves for all flags.
        let is_counted = (self.lost > 0) | (self.given_up > 0) | (self.given_up_16 > 0);
        let is_flagged = self.unserved | self.delivered | self.unit | is_counted;
        matches!(self.notes, ShortList::None) && !is_flagged && self.cause.is_none()
    }
}
