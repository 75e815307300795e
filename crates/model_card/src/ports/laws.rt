//! What holds of whole runs of octets. Each law is the contract of a call that does nothing; it holds for every list of
//! events, and so for every front of a list.

ghost use Rattle.model_card.specs.ports.Laws.{CardsStaySound, DropsAreWithoutEffect, FramesLinear, LinesIsolated, OctetsAreACodec, RunIsMoments, StoredWithinLimit};
ghost use Rattle.model_card.specs.ports.AtOnce.{FramesGoAtOnce};
ghost use Rattle.model_card.specs.ports.GoingOut.{GivenFramesAreHeard};
ghost use Rattle.model_card.specs.ports.HeardOctets.{HeardFramesAreOctets};
ghost use Rattle.model_card.specs.ports.LatestHeard.{LatestHeardIsTold};
ghost use Rattle.model_card.specs.ports.Pulls.{PullsAreTakes};
ghost use Rattle.model_card.specs.ports.WholeLaws.{FramesAreHeard};

/// The law of the codec. A run of octets is, at the card of frames inside, the run of the frame events that it means, moment
/// by moment, with the answers of which its own are made. What is heard is exactly what stands in the octets received. What
/// is given is exactly what stands in the octets pulled, as flags and whole frames with bits stuffed (Q.921 clause 2).
#[tactic(auto, using(crate::proofs::OfPorts::Codec::octets_are_a_codec))]
pub fn octets_are_a_codec()
    ensures { OctetsAreACodec }
{}

/// A run as one fold is its moments, one after the other.
#[tactic(auto, using(crate::proofs::OfPorts::Fold::run_is_moments))]
pub fn run_is_moments()
    ensures { RunIsMoments }
{}

/// A card of octets is sound as it begins, and each event keeps it so.
#[tactic(auto, using(crate::proofs::OfPorts::Sound::cards_stay_sound))]
pub fn cards_stay_sound()
    ensures { CardsStaySound }
{}

/// A sound card never stores more octets than its limit, which its configuration alone tells.
#[tactic(auto, using(crate::proofs::OfPorts::Stored::stored_within_limit))]
pub fn stored_within_limit()
    ensures { StoredWithinLimit }
{}

/// In every moment of a run, if the answer to an octet names a cause, whichever, the cause is all that it says. The card of
/// frames is as it was, and what may be sent stays as it is.
#[tactic(auto, using(crate::proofs::OfPorts::Drops::drops_are_without_effect))]
pub fn drops_are_without_effect()
    ensures { DropsAreWithoutEffect }
{}

/// From a fresh card on, each frame heard has taken six of the octets received, and each of those REJ seven. So the frames
/// sent are linear in the octets received, the accepted requests and the expiries of running timers.
#[tactic(auto, using(crate::proofs::OfPorts::Linear::frames_linear))]
pub fn frames_linear()
    ensures { FramesLinear }
{}

/// From a fresh card on, each line answers as on a card of its own, except of a full pool. Let that be a fresh card of
/// the same configuration, on which only the events at that line happened, without the requests that found the pool
/// full. Its answers are the same, octets pulled among them.
#[tactic(auto, using(crate::proofs::OfPorts::Isolated::lines_isolated))]
pub fn lines_isolated()
    ensures { LinesIsolated }
{}

/// What a card hears at a line is exactly what stands in the octets that came there, from its start on (`card`). A frame is
/// heard there that stands with its check, stuffed, between two flags, and no other. It is heard with the octet in which its
/// second flag ends, so once, and an octet brings one event at most (`there`, `all`). Let a frame stand between flags in the
/// octets of an idle line. They are heard as this frame and nothing else, or, by its length, as one that is too short or
/// overlong. Octets in which a fault stands are heard as what is dropped for its cause, and nothing else. So a card of
/// frames takes what a controller tells for what stood on its line. Whatever came before, what else stands between two
/// flags is dropped, and told as too short, as without its check, or as ragged; and what seven contiguous 1s give up, as an
/// abort.
#[tactic(auto, using(crate::proofs::OfPorts::FramesHeard::frames_are_heard))]
pub fn frames_are_heard()
    ensures { FramesAreHeard }
{}

/// What is heard are octets. Whatever a card of octets has received, and whatever comes, each frame that its card of frames
/// hears consists of octets, each 0 to 255. They are those of which a sender makes the text between two flags, less the check
/// (Q.921 clauses 2.6 to 2.9). So `HasOctets` holds of all that is heard in `meant_all`, as `frames_are_octets` of
/// `laws_trace` asks. There only the contents that layer 3 gives are left to be octets.
#[tactic(auto, using(crate::proofs::OfPorts::HeardOctets::heard_frames_are_octets))]
pub fn heard_frames_are_octets()
    ensures { HeardFramesAreOctets }
{}

/// What is told of the latest frame is of the frame heard last, from a fresh card on, for each line. `Card::latest_heard` tells
/// how the frame begins that the line heard last, apart from what is dropped, and nothing if it heard none. Of a frame that is
/// too long it tells the first four octets, and the least length that is too long.
#[tactic(auto, using(crate::proofs::OfPorts::LatestHeard::latest_heard_is_told))]
pub fn latest_heard_is_told()
    ensures { LatestHeardIsTold }
{}

/// What goes out is heard, from a fresh card on, for each line. What a receiver hears in the octets that its pulls gave are the
/// frames that the card of frames gave there, in order, whole, each once. The last may be in transit, unless the latest call
/// for the next frame gave none. Of each of their numbers eight bits go out, so octets as they are (Q.921 clauses 2.2 to 2.7
/// and 2.9).
#[tactic(auto, using(crate::proofs::OfPorts::GoingOut::given_frames_are_heard))]
pub fn given_frames_are_heard()
    ensures { GivenFramesAreHeard }
{}

/// If a line is only pulled, its card of frames is only called for the next frame there, once a pull at most. It is
/// called more often than n times once the pulls give more than the bits that are left and those of n of the longest
/// frames (`enough`). That holds, too, if octets, expiries and requests of the line come between its pulls
/// (`meanwhile`). At most one of these frames is left, whatever happened to the card.
#[tactic(auto, using(crate::proofs::OfPorts::Pulls::pulls_are_takes))]
pub fn pulls_are_takes()
    ensures { PullsAreTakes }
{}

/// Frames go at once, from a fresh card on, for each line. A pull calls for the next frame exactly if fewer than eight bits
/// are left of what was put on the line before. The frame that the call gives stands right after these bits, with its
/// check and a flag. If it gives none, one flag stands there. So the octets pulled are a prefix of one opening flag and
/// what the calls gave, with nothing between (Q.921 clauses 2.2 to 2.7, and profile).
#[tactic(auto, using(crate::proofs::OfPorts::AtOnce::frames_go_at_once))]
pub fn frames_go_at_once()
    ensures { FramesGoAtOnce }
{}
