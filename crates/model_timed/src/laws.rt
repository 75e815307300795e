//! What holds of cards that keep their own timers. Each law is the contract of a call that does nothing.

ghost use Rattle.model_timed.specs.Changes.{ChangesAreTold, itself, inside};
ghost use Rattle.model_timed.specs.Frames.{frames, fresh};
ghost use Rattle.model_timed.specs.LengthsChange.{TimersKeepLengths};
ghost use Rattle.model_timed.specs.Octets.{octets, fresh as octets_fresh};
ghost use Rattle.model_timed.specs.RunTheSame.{OctetTimersRunOn, OctetTimersRunTheSame, TimersRunOn, TimersRunTheSame};
ghost use Rattle.model_timed.specs.TimersAreTrue.{TimersAreTrue};

/// Timers are true. After any steps of a card of either kind its clock is at the moment to which time went on last. Let
/// the steps be prompt to so many milliseconds. Then the timer that is due first was started, and neither stopped nor
/// expired since. Its own length, T200, T203, T201 or T202, has passed since then, and at most so many milliseconds more. So
/// if the steps are prompt to the millisecond, each expiry comes exactly its length after the last start. And none is
/// passed over. The next moment that the clock tells is the first at which a timer that runs falls due.
///
/// Lengths may be changed at any time. Then the same holds with the length that was set when the timer was started: a timer
/// that runs keeps it.
#[tactic(auto, using(crate::proofs::True::timers_are_true, crate::proofs::Changing::timers_keep_lengths))]
pub fn timers_are_true()
    ensures frames { TimersAreTrue frames }
    ensures octets { TimersAreTrue octets }
    ensures frames_kept { TimersKeepLengths frames }
    ensures octets_kept { TimersKeepLengths octets }
{}

/// The timers that run at the clock of a card are those that its lines run, after any steps that may happen. So each expiry is
/// one of a timer that its line waits for.
#[tactic(auto, using(crate::proofs::RunTheSame::timers_run_the_same, crate::proofs::RunTheSame::octet_timers_run_the_same))]
pub fn timers_run_the_same()
    ensures frames { TimersRunTheSame }
    ensures octets { OctetTimersRunTheSame }
{}

/// So it stays from any state in which it is so, as that of a restored card.
#[tactic(auto, using(crate::proofs::RunTheSame::timers_run_on, crate::proofs::RunTheSame::octet_timers_run_on))]
pub fn timers_run_on()
    ensures frames { TimersRunOn }
    ensures octets { OctetTimersRunOn }
{}

/// What a card notes of a link is its state, and the moment of the last step by which this became another; 0 if there was none
/// since its start. So it is after any steps, prompt or not, and whatever lengths are set between them.
#[tactic(auto, using(crate::proofs::Marking::changes_are_told, crate::proofs::Marking::octet_changes_are_told))]
pub fn changes_are_told()
    ensures frames { ChangesAreTold frames itself fresh }
    ensures octets { ChangesAreTold octets inside octets_fresh }
{}
