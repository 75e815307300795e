//! A whole frame.

ghost use Rattle.std.specs.Prelude.{◌≡◌, ◌++◌, length, take};
ghost use Rattle.lapd_frame.specs.{Side, address_field, row, parts_of, spelling, IsFrame, start_of};

use crate::addresses::{Address, Side};
use crate::controls::Control;

/// The greatest number of octets that an information field may be allowed (N201, Q.921 clause 5.9.3).
pub const MOST_N201: u16 = 260;

/// A frame between its flags, without the frame check (Q.921 clause 2). Its information is lent.
#[derive(Clone, Copy, PartialEq, Eq, Debug)]
pub struct Frame<'a> {
    /// Whom the frame is from or to, and whether it is a command (clauses 2.3 and 3.3).
    pub address: Address,
    /// Its kind (clauses 2.4 and 3.4).
    pub control: Control,
    /// The information field (clause 2.5), without a limit of its length here. I, UI and XID have
    /// any number of octets, none included; FRMR has five, and the other frames have none.
    pub info: &'a [u8],
}

impl Frame<'_> {
    /// How many octets [`write`](crate::write) makes of the frame, for either side: 3 or 4, and the information.
    pub fn len(&self) -> usize
        requires { IsFrame (parts_of self.now) }
        ensures { (side : Side) → result ≡ length (spelling side (parts_of self.now)) }
    {
        self.control.start() + self.info.len()
    }

    // The octets before the information, and 0 up to four.
    pub(crate) fn head(&self, side: Side) -> [u8; 4]
        requires { IsFrame (parts_of self.now) }
        ensures { take (start_of self.now.control) result ≡ address_field side self.now.address ++ (row self.now.control).field }
    {
        let [first, second] = self.address.octets(side);
        let [third, fourth] = self.control.field();
        [first, second, third, fourth]
    }
}
