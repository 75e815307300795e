//! Laws of bit stuffing: what a receiver can tell of a text, and that it can tell it in one way.

ghost use Rattle.model_bits.specs.StuffingLaws.{StuffedBitsComeBack, OneTextEach, StuffedTexts, OctetsAreThoseSent, NoneWhereNoneSent};

/// A law: no two lists of bits have the same stuffed text, and a receiver gets back what was stuffed
/// (Q.921 clause 2.6).
pub fn one_stuffed_text()
    ensures come_back { StuffedBitsComeBack }
    ensures one_text_each { OneTextEach }
{}

/// A law: a text between two flags is what a sender makes of some bits exactly where it holds no six
/// contiguous 1s and does not end in five (Q.921 clause 2.6).
pub fn stuffed_texts()
    ensures { StuffedTexts }
{}

/// A law: the octets that are found for a text between two flags are those of which a sender makes that text. None
/// are found exactly if there are none (Q.921 clauses 2.6 and 2.9).
#[tactic(auto, using(crate::proofs::StuffingOctets::octets_of_texts))]
pub fn octets_of_a_text()
    ensures octets { OctetsAreThoseSent }
    ensures none { NoneWhereNoneSent }
{}
