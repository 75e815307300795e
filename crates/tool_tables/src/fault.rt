//! Why the page was not printed.

use std::io;

/// What the program ends with if it does not end well.
#[derive(Clone, Copy, Debug)]
pub enum Fault {
    /// There is no memory for a link, for TEI management or for the page.
    OutOfMemory,
    /// The page could not be written.
    Output,
}

impl From<io::Error> for Fault {
    fn from(_: io::Error) -> Fault {
        Fault::Output
    }
}
