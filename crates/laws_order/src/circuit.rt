//! Laws of two cards of octets on one circuit. A line of a card of the network's side faces a line of one of the
//! user's. Each hears the octets that the other's pulls give, one by one. There is nothing to call: each law is the
//! contract of a function that does nothing.
//!
//! `specs/circuit` has:
//!
//! - `Circuit`: the circuit, and what can happen at its ends;
//! - `Through`: a call between two cards that have just begun. `Beats`: how many octets it takes;
//! - `Damaged`: two cards between which octets are changed, lost or added, and at which anything happens.
//!   `WorkedDamaged` has a run that meets its premise, and one that breaks what it says without. `Resting`: once all
//!   has gone in a call, `Damaged` holds from there on;
//! - `Mixed`, `MixedCall`: a card of frames that faces one of octets;
//! - `Worked`, `WorkedCall`, `WorkedMixed`: worked values that compute.
//!
//! What a card of octets does at an event is the machine of `model_card::ports`. That a run of octets is, at the cards
//! inside, a run of frames as `laws_wire` or `laws_order` has them, is shown in `proofs/OfCircuit/Projected` and
//! `Damaged`. That frames come in so many beats is shown in `Comes` there.
//!
//! # Open
//!
//! That all is told in the end if octets are damaged or timers expire; calls that begin elsewhere than from nothing;
//! how long a call takes between a card of frames and one of octets.

ghost use Rattle.laws_order.specs.circuit.Beats.{AllIsToldInBeats};
ghost use Rattle.laws_order.specs.circuit.Damaged.{DeliveredThoughDamaged};
ghost use Rattle.laws_order.specs.circuit.Mixed.{DeliveredBetweenKinds};
ghost use Rattle.laws_order.specs.circuit.MixedCall.{CallsAreOfFrames, CallsComeThroughBetweenKinds};
ghost use Rattle.laws_order.specs.circuit.Resting.{CallsComeToRest};
ghost use Rattle.laws_order.specs.circuit.Through.{CallsComeThroughInOctets};

/// A call comes through, octet by octet. Two cards of octets have just begun, one of each side, with configurations in
/// range, the same N201 and the same SAPI of the second service. A line of one faces a line of the other, and each has
/// the same TEI assigned, 0 to 126. Layer 3 of one asks for the establishment of a link, of either service. Then, in any
/// order:
///
/// - layer 3 of either end asks to establish the link, too, or to send octets as data on it, as it is granted or
///   refused;
/// - an end's next octet is pulled and is in transit, or the first octet in transit to an end is heard.
///
/// So SABMEs may cross, both directions run at once, and at whatever rates. Nothing is lost or damaged, and no timer
/// expires. Then layer 3 of each is told one establishment, by a confirm if it was granted to ask for it and otherwise
/// by an indication. After that it is told the data that the other was granted to send, in order, and nothing else. At
/// any time it was told a prefix of that. It was told all of it when all has gone: no frame waits at either end, what
/// was put on each line last is an idle flag, and each octet was heard.
pub fn a_call_comes_through_in_octets()
    ensures { CallsComeThroughInOctets }
{}

/// So many octets are enough. In such a call, once nothing more is asked for, let the lines of both ends run at the
/// same rate. In a beat each end's next octet is pulled, and then the first octet in transit to each end is heard. The
/// longest frame has L octets, with its check, a 0 stuffed after every fifth bit, a flag, and octets cut at both ends.
/// As the last request is made, at most D octets are in transit to either end. Layer 3 of each was told all after 2 (2
/// L + D) beats, or 4 (2 L + D) if both ends call. Each request for data that was granted in the whole call adds 2 (2 L
/// + D).
pub fn all_is_told_in_beats()
    ensures { AllIsToldInBeats }
{}

/// What is delivered is in order, though octets are damaged. A line of a card of octets of one side faces a line of one
/// of the other. The links of a service and TEI are in step there, as [`crate::delivered_in_order`] has them, to an
/// observer of the cards of frames inside. What happened to these is what their octets meant. Then anything happens at
/// both: requests of any kind, expiries, pulls, octets of any value that come, and any events at the other lines. What
/// comes need not be what the other's pulls gave: octets are changed, lost or added anywhere, and other terminals may
/// be heard.
///
/// Of all that comes one thing alone is assumed. A frame of the link that stands whole in the octets that came, its
/// check right, was pulled whole. It is one of those that the other's pulls began, after all that came before it. (The
/// check is for that, Q.921 clause 2.7. If errors make a frame of which it shows nothing, that frame is told,
/// `specs/WorkedDamaged`.)
///
/// Then each card of frames hears exactly what stands in the octets that come at its end. This holds as long as the
/// establishment is neither ended nor renewed at an end, as said there. The contents it is told of are a prefix of
/// those that the other's link kept for it at first, and of those that the other's layer 3 was granted to send since:
/// in order, each once, and nothing else.
pub fn delivered_though_damaged()
    ensures { DeliveredThoughDamaged }
{}

/// What is delivered is in order, too, if a card of frames faces a card of octets. The controller of the first takes
/// the frames that the other's pulls begin, and gives what the card gives. What happens at the card of frames is as in
/// [`crate::delivered_in_order`], and at the card of octets as in [`delivered_though_damaged`]. A frame of the link
/// that stands whole in the octets that came was given there, after all that came before it, and no more is assumed of
/// them. Then the card of octets hears exactly what stands in them, and what is told at each is in order. So the order
/// holds of two cards of either kind.
pub fn delivered_between_kinds()
    ensures { DeliveredBetweenKinds }
{}

/// A call between a card of frames and one of octets is a call between two cards of frames (`frames`), and comes
/// through (`through`). The line between them and the first's controller are without fault. If anything stands in the
/// octets received with one more, and not without it, it is the first frame that the other gave, whole. What the pulls
/// begin is taken in order. Anything is asked for in a call, as [`a_call_comes_through_in_octets`] has it. Octets are
/// pulled and come, and frames are sent and received, in any order.
///
/// From any state of the two there is a run of two cards of frames in the same call that leads to the same. So what is
/// granted, told and in transit is the same. If the two have just begun, and layer 3 of either asks for the
/// establishment first, the call comes through as `a_call_comes_through` of `laws_wire` says.
pub fn calls_are_of_frames()
    ensures frames { CallsAreOfFrames }
    ensures through { CallsComeThroughBetweenKinds }
{}

/// A call comes to rest. Let all have gone in a call, as [`a_call_comes_through_in_octets`] has it, whether one end
/// called or both. Then the two links are in step, no frame of them is in transit or waits, and what came at each end
/// is what its port has received. So what [`delivered_though_damaged`] says holds of all that happens from there on.
pub fn a_call_comes_to_rest()
    ensures { CallsComeToRest }
{}
