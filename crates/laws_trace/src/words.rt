//! What the words mean that laws share with the machine. The law is the contract of a call that does nothing.

ghost use Rattle.laws_trace.specs.Words.{WordsMeanThis, WordsOfOctetsMeanThis};

/// Words that the laws share with the machine mean what they say. The orders that laws find in an answer are all that
/// stand in it, and so is the cause. A terminal is a user's side with a seed. As frames are read, call control has SAPI
/// 0, and the second service 16. A counter counts up to 2^64 - 1. Of two that differ by the reading the first is the
/// profile's, and the second that of annex B. `Card::state` tells none for a line that the card has not. And the laws
/// speak of each list of events at lines that it has, of frames or of octets (Q.921 clause 3.3.3, and profile).
///
/// So do the words by which a run of octets is a run of frames (`octets`). What comes at a line, and what pulls give, are
/// the octets of its events and answers, each as it is. An expiry and a request mean themselves, and an answer is what
/// the card of frames says to what is meant.
pub fn words_mean_this()
    ensures words { WordsMeanThis }
    ensures octets { WordsOfOctetsMeanThis }
{}
