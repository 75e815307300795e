//! What is counted of a link. The law is the contract of a call that does nothing.

ghost use Rattle.std.specs.Prelude.{◌≡◌, List};
ghost use Rattle.model_link.specs.declared.terms.Terms.{Terms};
ghost use Rattle.model_link.specs.Events.{Event};
ghost use Rattle.model_link.specs.Link.{fresh};
ghost use Rattle.model_link.specs.Machine.{after_all};
ghost use Rattle.model_link.specs.Sound.{IsInRange};
ghost use Rattle.laws_link.specs.Counting.{at_most, nothing_yet, tally};

/// The counts of a link are what they say, for every list of events from a link that begins. They tell what happened since it
/// last began:
///
/// - how many I-frames were sent whose number was sent before in the same establishment;
/// - how often T200 expired;
/// - how many REJ frames were sent, and how many were received in states 7 and 8;
/// - how often the link was established, by SABME or by UA. UA that leads to a release that is owed counts as none.
///
/// Each number stays at 65535 once it is there.
pub fn counts_are_true()
    ensures counted { (t : Terms) (es : List Event) → IsInRange t → (after_all t es fresh).counts ≡ at_most (tally t es fresh nothing_yet) }
{}
