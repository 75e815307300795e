//! What is counted of a link.

ghost use Rattle.std.specs.Prelude.{◌≡◌};
ghost use Rattle.model_link.specs.Counts.{none_counted, one_more, with_information_sent, with_control_sent, with_reject_received, with_expiry, with_establishment};

use crate::timers::LinkTimer;
use lapd_frame::Control;

/// What was counted of a link since it began (profile). It begins when its TEI comes to the line, and anew when layer 1 goes
/// away. Each number stays at 65535 once it is there.
#[derive(Clone, Copy, PartialEq, Eq, Debug)]
pub struct LinkCounts {
    /// I-frames that were sent again, whose number was sent before (Q.921 clauses 5.6.4 and 5.6.7).
    pub sent_again: u16,
    /// How often T200 expired (clause 5.9.1).
    pub t200_expired: u16,
    /// REJ frames that were sent (clause 5.8.1).
    pub rejects_sent: u16,
    /// REJ frames that were received in states 7 and 8 (clause 5.6.4).
    pub rejects_received: u16,
    /// How often the link was established, from either side (clauses 5.5.1 and 5.7).
    pub established: u16,
}

impl LinkCounts {
    /// Nothing was counted yet.
    pub fn none() -> LinkCounts
        ensures { result ≡ none_counted }
    {
        LinkCounts {
            sent_again: 0,
            t200_expired: 0,
            rejects_sent: 0,
            rejects_received: 0,
            established: 0,
        }
    }

    /// An I-frame is sent, while so many of those that are to be sent were sent before.
    #[inline(always)]
    pub fn information_sent(&mut self, again: u8)
        ensures { self.new ≡ with_information_sent again self.old }
    {
        if again > 0 {
            self.sent_again = one_more(self.sent_again);
        }
    }

    /// A control frame is sent.
    #[inline(always)]
    pub fn control_sent(&mut self, control: Control)
        ensures { self.new ≡ with_control_sent control self.old }
    {
        if let Control::Reject { .. } = control {
            self.rejects_sent = one_more(self.rejects_sent);
        }
    }

    /// REJ is received in state 7 or 8.
    pub fn reject_received(&mut self)
        ensures { self.new ≡ with_reject_received self.old }
    {
        self.rejects_received = one_more(self.rejects_received);
    }

    /// A timer expires.
    pub fn expired(&mut self, timer: LinkTimer)
        ensures { self.new ≡ with_expiry timer self.old }
    {
        if let LinkTimer::T200 = timer {
            self.t200_expired = one_more(self.t200_expired);
        }
    }

    /// The link is established.
    pub fn establishment(&mut self)
        ensures { self.new ≡ with_establishment self.old }
    {
        self.established = one_more(self.established);
    }
}

/// One more, but no more than there can be.
fn one_more(n: u16) -> u16
    ensures { result ≡ one_more n }
{
    n.saturating_add(1)
}
