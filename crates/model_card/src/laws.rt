//! What holds of whole runs of the machine. Each law is the contract of a call that does nothing; it holds for every
//! list of events, and so for every front of a list.

ghost use Rattle.model_card.specs.Laws.{CardsStaySound, DeliveriesNumbered, DropsChangeNothing, DropsCostNothing, FramesAmortised, FramesAmortisedFromZero, FramesByEvent, LinesIsolated, PoolNeverFull, RefusedByTheTable, RejectsAreLong, RunIsMoments, StoredWithinLimit};

/// A run as one fold is its moments, one after the other.
#[tactic(auto, using(crate::proofs::Fold::run_is_moments))]
pub fn run_is_moments()
    ensures { RunIsMoments }
{}

/// A card is sound as it begins, and each event keeps it so: each line is, and no more slots are in use than there are.
#[tactic(auto, using(crate::proofs::CardSound::cards_stay_sound))]
pub fn cards_stay_sound()
    ensures { CardsStaySound }
{}

/// A sound card never stores more octets than its limit, which its configuration alone tells.
#[tactic(auto, using(crate::proofs::Stored::stored_within_limit))]
pub fn stored_within_limit()
    ensures { StoredWithinLimit }
{}

/// Frames are linear in what happens, from any sound card on, however often the next frame is called for. Count the
/// frames sent, and those that may still be sent. They are at most those that could be sent before, two for each frame
/// heard, one for each accepted request, k + 1 for each expiry of a running timer, and k for each REJ with a valid
/// N(R). Here k is the greater of both windows. A terminal that may have more than two TEIs counts their number for each
/// frame heard. So no peer can make a card a source of frames.
#[tactic(auto, using(crate::proofs::Amortised::frames_amortised))]
pub fn frames_amortised()
    ensures { FramesAmortised }
{}

/// The same bound for single events, and so in every moment of a run. What may be sent rises by at most two for a frame
/// that is heard, or by the number of TEIs that a terminal may have, if that is more. It rises by k more if the frame is
/// an REJ with a valid N(R). It rises by k + 1 for an expiry of a running
/// timer, and by one for an accepted request. What is dropped before it is a frame (abort, ragged, short, frame check)
/// lets it rise by nothing, and so do a refusal and an expiry of a timer that does not run. A frame that is dropped
/// later is one that was heard: see [`drops_cost_nothing`]. A call that gives a frame lowers it by one or two, and any
/// other leaves it as it is.
#[tactic(auto, using(crate::proofs::ByEvent::frames_by_event))]
pub fn frames_by_event()
    ensures { FramesByEvent }
{}

/// In every moment of a run, if the answer names a cause, whichever, what may be sent stays as it is. So a frame that is
/// dropped raises it by nothing, for its address and for want of service too.
pub fn drops_cost_nothing()
    ensures { DropsCostNothing }
{}

/// In every moment of a run, from any card on, if the answer names a cause, whichever, the cause is all that it says. The
/// card is afterwards what it was. So what is dropped is never answered: no frame waits for it, no note and no order is
/// told, and no link, TEI, timer or slot has changed.
pub fn drops_change_nothing()
    ensures { DropsChangeNothing }
{}

/// A request is refused exactly if a row of the table of refusals holds, for the reason of the first that does. So
/// it is refused for want of room exactly if its place is full. Then nothing changes.
#[tactic(auto, using(crate::proofs::Refusals::refused_by_the_table))]
pub fn refused_by_the_table()
    ensures { RefusedByTheTable }
{}

/// From any sound card on, what each link delivers since its establishment is numbered without gap. Delivery i is the
/// contents of the first eligible I-frame after that of delivery i - 1 whose N(S) is i modulo 128, and is told in the
/// answer to this frame. After the last delivery no eligible frame had the next number. V(R) counts them (Q.921
/// clauses 3.5.2.4 to 3.5.2.6 and 5.6.2). An I-frame is eligible if it has at most N201 octets and meets state 7 or 8
/// with own busy off. An establishment is an event in which the tables set the link's numbers to zero, or the link is
/// cleared. On a card that began fresh the first number is 0.
#[tactic(auto, using(crate::proofs::Numbering::deliveries_numbered))]
pub fn deliveries_numbered()
    ensures { DeliveriesNumbered }
{}

/// From a fresh card on, each line answers as on a card of its own, except of a full pool. Let that be a fresh card of
/// the same configuration, on which only the events at that line happened, without the requests that found the pool
/// full. Its answers are the same, frames given among them.
#[tactic(auto, using(crate::proofs::Isolated::lines_isolated))]
pub fn lines_isolated()
    ensures { LinesIsolated }
{}

/// The same from a fresh card on: at most two for each frame heard, one for each accepted request, k + 1 for each
/// expiry of a running timer, and k for each REJ with a valid N(R). A terminal that may have more than two TEIs counts
/// their number for each frame heard.
#[tactic(auto, using(crate::proofs::Amortised::frames_amortised_from_zero))]
pub fn frames_amortised_from_zero()
    ensures { FramesAmortisedFromZero }
{}

/// Each REJ with a valid N(R) is one of the frames heard that have four octets or more (Q.921 clause 3.4).
#[tactic(auto, using(crate::proofs::Amortised::rejects_are_long))]
pub fn rejects_are_long()
    ensures { RejectsAreLong }
{}

/// From a fresh card on, no request finds the pool full if there are as many slots as all queues together have
/// places: `lines * (2 * terminals * queue + unit_queue)` (profile). So on such a card no line affects another.
#[tactic(auto, using(crate::proofs::NeverFull::pool_never_full))]
pub fn pool_never_full()
    ensures { PoolNeverFull }
{}
