//! The simulator for a page in a browser. One export plays a script that lies in the page's memory, as `lapdsim run` does.
//! It answers its transcript, its fault and its exit status. `tools/page` makes the page.
//!
//! - `play`: the export.
//!
//! # Only tested
//!
//! `tests/page`: that the export plays every stored script as `lapdsim run` does, in a JavaScript engine; in a browser each
//! that a text field can hold. That it succeeds if there is memory.
//!
//! # Open
//!
//! What happens to a caller whose rooms lie over one another.
#![tactic(auto)]

mod play;
