//! What a card is that keeps its own timers, and which of them falls due first. The law is the contract of a call that
//! does nothing.

ghost use Rattle.laws_time.specs.BesideACard.{ClocksKeepUp};
ghost use Rattle.laws_time.specs.CallersClocks.{CallersClocksAreClocks};
ghost use Rattle.laws_time.specs.Cards.{TimedCardsAreCards};
ghost use Rattle.laws_time.specs.DueFirst.{TheFirstFallsDue};
ghost use Rattle.model_card.specs.Card as frame_cards;
ghost use Rattle.model_card.specs.ports.Card as octet_cards;
ghost use Rattle.model_timed.specs.Frames.{frames};
ghost use Rattle.model_timed.specs.Octets.{octets};

/// A card that keeps its own timers is a card like any other, of frames or of octets (`of_frames`, `of_octets`). After any
/// steps it is where the events lead that happened, and for each timer that fell due the event that it expires. So all
/// that is proved of every list of events holds of it.
///
/// Laws that ask for prompt steps speak of all steps in which time does not go back, nor over the moment of a timer
/// that runs and so many milliseconds more. Any event may happen at a line that the card has, except an expiry. New
/// lengths hold for timers that are started from then on, and those that run keep their moments. The usual lengths are
/// those of Q.921 (clauses 5.9.1 and 5.9.6 to 5.9.8). Each length is a millisecond at least, and an hour at most; of those
/// that are not, the first is named (`ranges`).
///
/// After any steps of a card of either kind no timer that runs goes before the one that is due (`first_of_frames`,
/// `first_of_octets`). The earlier moment goes first. At one moment it is the lower line. On one line T200 goes before
/// T203, and T203 before T201 or T202. Of one kind the lower TEI goes first, and at one TEI call control (profile).
///
/// A clock that a caller keeps beside a card is as the clock of such a card (`callers`). Let it begin with the lines and
/// terminals of the card, and carry out all orders, and let the steps be prompt to some number of milliseconds. Whenever a
/// timer is started, fewer timers of its line run there than four a terminal and one. So each order finds a place, the same
/// timers run, and the same falls due (`beside_frames`, `beside_octets`).
pub fn timed_cards_are_cards()
    ensures cards { TimedCardsAreCards }
    ensures first_of_frames { TheFirstFallsDue frames }
    ensures first_of_octets { TheFirstFallsDue octets }
    ensures callers { CallersClocksAreClocks }
    ensures beside_frames { ClocksKeepUp frames frame_cards.fresh }
    ensures beside_octets { ClocksKeepUp octets octet_cards.fresh }
{}
