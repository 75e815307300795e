//! A law over what is sent and what is heard.
ghost use Rattle.model_bits.specs.RoundTrip.{FramesRoundTrip};

/// A law: what goes out on a line is heard at its other end. Let a line carry some frames, and any idle flags before,
/// between and after them. Let a receiver for `n201` octets of information take each of them for a whole frame: it has
/// 4 to `n201 + 4` octets without its check, or three, of which the last ends in the bits 11. Then the octets of the
/// line are heard as exactly these frames in order (Q.921 clauses 2.2, 2.6, 2.7 and 2.9).
#[tactic(auto, using(crate::proofs::RoundTripFrame::frames_round_trip_lem))]
pub fn frames_round_trip()
    ensures { FramesRoundTrip }
{}
