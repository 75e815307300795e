//! The machine of a simulation, as definitions. A script is played on the machine of a card that keeps its own timers, as
//! `model_timed` has it. At each line a terminal sends the frames it is told, and a listener finds frames in what the line
//! takes.
//!
//! `specs/machine` has what stands on the setup (`Setup`), and what each line of a script makes of it and says (`Steps`).
//! `Script` has the transcript of a whole text, and its first fault. `Events` has the events at the card that a script
//! brings, and `Replies` its text by the answers to them. The others say what a wait comes to (`Waits`), what a script's card
//! stores (`Within`), about which cards `limits` can be asked (`Asked`), and how what terminals send is heard (`Heard`).
//!
//! Here is what holds of whole scripts. Each law is the contract of a call that does nothing; it holds for every text.

ghost use Rattle.lapd_sim.specs.{LimitsAreOfCards, RunsOnBoards, ScriptsAreRuns, FramesAreHeard, TranscriptsAreReplies, WaitsLeaveNothingDue, ScriptsStayWithin};

/// A script is a run of the card. If it has come to a card, that is the card of the card line, fresh, after the events of the
/// script's lines up to the first faulty one. These are an octet for each that comes from a line, and a pull for each that a
/// line takes, or what is heard and a call for the next frame. A request is one, too, and for a wait the expiries that fall
/// due, one after the other.
///
/// The configuration is in range (`in_range`). Each event is at a line of the card (`at_lines`), and is an event of a
/// card of its kind (`of_kind`): of octets, or of frames. So by [`runs_on_boards`] the script is a run of that card, and
/// by [`transcripts_are_replies`] its moments are those of the script's lines.
///
/// The laws of runs of a card that has just begun ask for nothing else of a configuration and of events, except what each
/// names as its own premise. Such a premise is that there are slots enough, that what comes and what is granted are
/// octets, or that the next frame of a line is called for often enough. So each of them holds of each script.
/// [`scripts_stay_within`] says so of what is stored.
pub fn scripts_are_runs()
    ensures { ScriptsAreRuns }
{}

/// What a script is played on is a card of octets or one of frames. Runs on it are runs of that card: they lead to the
/// same card (`octets`, `frames`), and have the same moments, with the same answers (`octet_moments`, `frame_moments`).
#[tactic(auto, using(crate::proofs::OfMachine::OnBoards::runs_on_boards))]
pub fn runs_on_boards()
    ensures { RunsOnBoards }
{}

/// A transcript is what the replies of that run say. The moments of the run, each a card, an event and its answer, are
/// those of the lines, one after the other. The transcript is for each line what the answers to its events say. For a
/// pull these are the octets that they give, and the frames that end in them. A line `stored` tells what the card holds.
pub fn transcripts_are_replies()
    ensures { TranscriptsAreReplies }
{}

/// A wait leaves nothing that is due. After it the moment, in milliseconds, is its end, and the clock has no timer to
/// give at that moment (`none_due`). It is looked for one often enough, though each expiry may start a timer anew. If
/// the clock has its timers in order, every timer that still runs falls due later than the end (`all_later`). On the
/// setup of every script, after each line, every timer that runs falls due later than the moment (`of_scripts`).
pub fn waits_leave_nothing_due()
    ensures { WaitsLeaveNothingDue }
{}

/// A script's card never stores more octets than its bound. That is what the program's word `limits` tells of its numbers,
/// unless the card is a terminal: other messages wait there, and no assignments are kept. It is the limit that a line
/// `stored` tells. It holds after each event, and so after each line.
pub fn scripts_stay_within()
    ensures { ScriptsStayWithin }
{}

/// The program's word `limits` can be asked about each configuration that a card can be started with, and about no
/// others. Its numbers, in decimal digits, ask for the bound of a card of these numbers that is no terminal (`each`), and
/// words that ask for a bound have the numbers of such a configuration (`only`).
pub fn limits_are_of_cards()
    ensures { LimitsAreOfCards }
{}

/// What the terminal of a line puts there is heard. If nothing else comes to the line, all its octets since it began are
/// heard as exactly the frames of the `in` lines, in order, each of them once its `in` is over (`sent`). The frames that
/// are told of pulls are those that are heard in all that the line took. None is told twice and none left out, however
/// many octets each pull took (`found_all`, `found_on`).
pub fn frames_are_heard()
    ensures { FramesAreHeard }
{}
