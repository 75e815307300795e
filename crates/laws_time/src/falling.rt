//! That what is due falls due only so often at one moment. The law is the contract of a call that does nothing.

ghost use Rattle.laws_time.specs.FallingDue.{FallingDueEnds};
ghost use Rattle.model_timed.specs.Frames.{frames};
ghost use Rattle.model_timed.specs.Octets.{octets};

/// Falling due ends. A card of either kind keeps its own timers, and each timer runs for a millisecond at least. What is
/// due falls due again and again, and nothing else happens. Then each expiry leaves fewer timers due than there were
/// (`fewer`). So no more timers expire than were due (`bounded`), and then none is due (`none_due`), though time stands
/// still. It holds at any clock, so after new lengths, too. And from the start of a card on, each timer that runs then
/// falls due later than this moment (`later`).
///
/// So a caller's loop that lets timers fall due at one moment until none is due ends (`lapd_fall_due` of `lapd.h`). If
/// T200 ran for no time, an expiry could leave as many timers due as there were (`specs/WorkedFallingDue`).
pub fn falling_due_ends()
    ensures frames { FallingDueEnds frames }
    ensures octets { FallingDueEnds octets }
{}
