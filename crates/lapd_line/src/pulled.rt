//! What a pull is answered with.

ghost use Rattle.std.specs.Prelude.{◌≡◌};

use lapd_frame::{Order, ShortList};

/// What a pull gives.
#[derive(Clone, Copy, PartialEq, Eq, Debug)]
pub struct Pulled {
    /// The next octet of the line, low bit first.
    pub octet: u8,
    /// Whether this pull took a frame that waited.
    pub begun: bool,
    pub(crate) orders: ShortList<Order>,
}

impl Pulled {
    ghost use Rattle.lapd_frame.specs.ShortLists.{listed};

    /// What is to be done with timers of the link whose frame was taken, in order: at most two orders
    /// (`answers_are_short` of `laws_line`).
    pub fn orders(&self) -> &[Order]
        ensures { result.now ≡ listed self.now.orders }
    {
        self.orders.as_slice()
    }
}
