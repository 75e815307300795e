//! Frames that wait to be sent.

use lapd_frame::Control;

/// A frame of a link without information, as it waits to be sent. Its address follows from the
/// link's service and TEI.
#[derive(Clone, Copy, PartialEq, Eq, Debug)]
pub struct ControlFrame {
    /// Whether it is a command; otherwise it is a response (Q.921 clause 3.3.2).
    pub command: bool,
    /// Its control field, with the numbers that held when the frame was made.
    pub control: Control,
}
