//! What was counted of a line, and of a link.

ghost use Rattle.std.specs.Prelude.{◌≡◌};
ghost use Rattle.lapd_c.specs.Counters.{plain_counters, plain_link_counters};

use lapd_count::Counters;
use model_link::LinkCounts;

/// The counters of a line: [`Counters`] in C.
#[repr(C)]
#[derive(Clone, Copy)]
pub struct PlainCounters {
    /// Each at its place, which `include/lapd.h` has by name.
    pub values: [u64; 79],
    /// For what a later version counts: 0.
    pub reserved: [u64; 17],
}

impl PlainCounters {
    /// The same for C.
    pub fn of(counters: &Counters) -> PlainCounters
        ensures { result ≡ plain_counters counters.now }
    {
        let values = counters.values();
        PlainCounters {
            values,
            reserved: [0; 17],
        }
    }
}

/// The counters of a link: [`LinkCounts`] in C.
#[repr(C)]
#[derive(Clone, Copy)]
pub struct PlainLinkCounters {
    /// I-frames that were sent again.
    pub sent_again: u16,
    /// How often T200 expired.
    pub t200_expired: u16,
    /// REJ frames that were sent.
    pub rejects_sent: u16,
    /// REJ frames that were received in states 7 and 8.
    pub rejects_received: u16,
    /// How often the link was established.
    pub established: u16,
    /// For what a later version counts: 0.
    pub reserved: [u16; 11],
}

impl PlainLinkCounters {
    /// The same for C.
    pub fn of(counts: LinkCounts) -> PlainLinkCounters
        ensures { result ≡ plain_link_counters counts }
    {
        PlainLinkCounters {
            sent_again: counts.sent_again,
            t200_expired: counts.t200_expired,
            rejects_sent: counts.rejects_sent,
            rejects_received: counts.rejects_received,
            established: counts.established,
            reserved: [0; 11],
        }
    }
}
