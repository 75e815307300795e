//! How the rows of the tables are read.

/// Which rows hold where readers of Q.921 differ. Nobody here has the printed text; `docs/MACHINE.md` has both rows of each.
#[derive(Clone, Copy, PartialEq, Eq, Debug)]
pub enum Reading {
    /// This project's own choice of each row (profile).
    Profile,
    /// The rows as other implementations have them, after the diagrams of annex B.
    AnnexB,
}
