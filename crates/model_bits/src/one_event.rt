//! A law of what is heard in a stream: why one answer for each octet is enough.

ghost use Rattle.model_bits.specs.StreamLaws.{OneEventAnOctet};

/// A law: one octet ends at most one gap that is an event. From the end of a flag or an abort on, whatever is
/// told next takes eight bits more at least, of which the same octet has seven at most (Q.921 clauses 2.2 and 2.10).
#[tactic(auto, using(crate::proofs::OneEvent::one_event_an_octet))]
pub fn one_event_an_octet()
    ensures { OneEventAnOctet }
{}
