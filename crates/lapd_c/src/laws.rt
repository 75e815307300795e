//! What holds of the machine's answers, so that a report has room for each; and of calls, one after the other.

ghost use Rattle.lapd_c.specs.AsBefore.{AsBefore};
ghost use Rattle.lapd_c.specs.Laws.{ContentsFit};
ghost use Rattle.lapd_c.specs.CallsServed.{CallsAreServed};
ghost use Rattle.lapd_c.specs.Blocks.{BlocksAreCalls};
ghost use Rattle.lapd_c.specs.CarriedOut.{OrdersAreCarriedOut};
ghost use Rattle.lapd_c.specs.Numbers.{NumbersAreGiven};
ghost use Rattle.lapd_c.specs.QuestionsAnswered.{QuestionsAreAnswered};
ghost use Rattle.lapd_c.specs.SavesServed.{SavesAreServed};
ghost use Rattle.lapd_c.specs.Waits.{LinksReopen};

/// The contents that an answer delivers have at most N201 octets, whatever happens to whichever card: an I-frame with
/// more is an error (O), a UI frame with more is not served. N201 is at most 260, and so many octets a report holds.
pub fn contents_fit()
    ensures { ContentsFit }
{}

/// A card that a start without lengths of timers began answers an expiry as if no card kept its own timers, whatever call comes
/// between: all that `Called` says of an expiry holds of it, and of whose timers they are nothing is asked.
pub fn as_before()
    ensures { AsBefore }
{}

/// A link on which contents were refused, as its queue was full, waits from then on. It waits on, whatever calls come,
/// until it is told or its TEI leaves the line. After each call of its line the report tells of one that waits and has a
/// place, if there is any, and of no other link.
#[tactic(auto, using(crate::proofs::Waits::links_reopen_by))]
pub fn links_reopen()
    ensures { LinksReopen }
{}

/// A block of octets is so many calls, one after the other. Step 2i takes octet i, as `lapd_octet` does, and step 2i + 1 gives
/// one, as `lapd_pull` does, which is written at place i. A block goes on only after steps that have nothing to tell.
#[tactic(auto, using(crate::proofs::Blocks::blocks_are_calls_by))]
pub fn blocks_are_calls()
    ensures { BlocksAreCalls }
{}

/// Orders are carried out. For a line that a clock has, up to the latest moment, the clock carries out an order, and those of a
/// report one after the other, and it says if one finds no place. What a card tells as an order is read as that order.
#[tactic(auto, using(crate::proofs::CarriedOut::orders_are_carried_out_by))]
pub fn orders_are_carried_out()
    ensures { OrdersAreCarriedOut }
{}

/// Numbers mean what `include/lapd.h` says: those of notes, errors, causes, faults, timers, orders, requests, refusals and
/// fields; and lengths, rooms and heads are those of the card. A card has the configuration that its start was given, field
/// by field. The side is 0 for the network's, 1 for a trunk's end and 2 for a terminal, which alone has a first reference
/// number. A SAPI of 0 stands for 16.
#[tactic(auto, using(crate::proofs::Numbers::numbers_are_given_by))]
pub fn numbers_are_given()
    ensures { NumbersAreGiven }
{}

/// A call is the event that `include/lapd.h` says, of the line that is given and of the cards that it is for: an octet, a pull, a
/// frame, a fault, a call for the next frame, the expiry of each timer, and each request. At a card of octets a request and
/// an expiry are those events of its machine, of which the laws of octets speak, and at a card of frames each event is
/// itself.
///
/// A call that is an event is served: the card stands for the machine after it, and the report tells the machine's answer,
/// place by place; without orders if the card keeps its own timers, whose clock then has carried them out. What is noted of its
/// links is as after the event. If arguments are wrong, or the machine refuses the event, the status says so, and nothing
/// changes. A card begins as the fresh machine of its configuration. Whatever its status, a call leaves a handle for the next
/// one, and a start that is not OK changes nothing.
#[tactic(auto, using(crate::proofs::CallsServed::calls_are_served_by))]
pub fn calls_are_served()
    ensures { CallsAreServed }
{}

/// Questions are answered as `include/lapd.h` says: a link's state, when that changed last, and its room, the frames that have
/// begun and that were heard, the first line on which a frame waits, counters, what is stored and may be, lines, and octets in
/// words. A question changes nothing. If one has no answer, its status says why, and nothing is written. Links are told one
/// after the other: each that is on the line from a place on, by TEI, call control before packet, with its state; and that
/// there is no more, only if no TEI that a terminal can have has one.
#[tactic(auto, using(crate::proofs::QuestionsAnswered::questions_are_answered_by))]
pub fn questions_are_answered()
    ensures { QuestionsAreAnswered }
{}

/// A card and a clock in C are saved and restored as `include/lapd.h` says. A save changes nothing but the octets of its
/// image, and so much room as `lapd_image_octets` tells is enough for it. A restore begins one if none is there, or finds
/// no memory, or no image; if it is not OK, nothing changes. It takes the image of each card that is there. The restored
/// card then goes on as the saved one would, as one whose ports begin anew, and a clock is as it was. Each card and each
/// clock in C may be saved: from its start or its restore on, after each call.
#[tactic(auto, using(crate::proofs::SavesServed::saves_are_served_by))]
pub fn saves_are_served()
    ensures { SavesAreServed }
{}
