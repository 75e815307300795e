//! Laws of what is heard in a stream: what a flag brings, and what seven 1s bring, said by the flag before.

ghost use Rattle.model_bits.specs.FlagLaws.{GapBetweenFlags, FlagsThatShare, FirstAbortAfterFlag};

/// A law: let a flag end at two places of a stream and at none between. Then the second brings what the gap between them
/// makes of itself, whatever came before. It brings nothing if the two share their 0 (Q.921 clauses 2.2 and 2.9).
#[tactic(auto, using(crate::proofs::FlagPlaces::gap_between_flags))]
pub fn flag_after_flag()
    ensures gap { GapBetweenFlags }
    ensures shared { FlagsThatShare }
{}

/// A law: the first seven contiguous 1s after a flag, with no flag between, bring an abort, or nothing where they come
/// right after the flag (clause 2.10).
pub fn abort_after_flag()
    ensures { FirstAbortAfterFlag }
{}
