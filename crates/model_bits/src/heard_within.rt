//! A law of what is heard in a stream: what it takes of the stream.

ghost use Rattle.model_bits.specs.StreamLaws.{HeardWithinStream};

/// A law (`within`): all frames that are heard in octets, each with its check and one flag, are no longer than the
/// octets. A frame that is longer than the receiver's room counts as one octet more than that room, and a flag. Flags
/// that share a zero are no exception, since a gap of fewer than eight bits is none. The second (`whole`): each frame
/// that is heard has three octets at least, without its check (Q.921 clauses 2.2, 2.7 and 2.9).
#[tactic(auto, using(crate::proofs::StreamLengths::heard_within_stream))]
pub fn heard_within_stream()
    ensures { HeardWithinStream }
{}
