//! What holds of the texts themselves.

ghost use Rattle.lapd_text.specs.Named.{FramesAreNamed};

/// A line says its frame, all of it and nothing else: SAPI, TEI, whether it is a command, its kind, its numbers, P or F, and its
/// information. Kinds are `i`, `rr`, `rnr`, `rej`, `sabme`, `disc`, `ui`, `ua`, `dm`, `frmr` and `xid` (Q.921 table 5). A
/// message of TEI management is named, too, with Ri and Ai (table 8). What is no frame has a line that says why.
#[tactic(auto, using(crate::proofs::Named::frames_are_named))]
pub fn frames_are_named()
    ensures { FramesAreNamed }
{}
