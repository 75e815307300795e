//! A law of the frame check sequence.

ghost use Rattle.model_bits.specs.CheckLaws.{OnlyCheck};

/// The law that a frame has one check: no other 16 bits after the frame's bits are taken for good.
#[tactic(auto, using(crate::proofs::Division::Unique::only_check_lem))]
pub fn only_check()
    ensures only { OnlyCheck }
{}
