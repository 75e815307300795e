//! What an event leaves of a link. Each law is the contract of a call that does nothing.

ghost use Rattle.std.specs.Prelude.{◌≡◌};
ghost use Rattle.model_link.specs.declared.terms.Terms.{Terms};
ghost use Rattle.model_link.specs.Link.{Link};
ghost use Rattle.model_link.specs.Events.{Event};
ghost use Rattle.model_link.specs.Machine.{after, told};
ghost use Rattle.model_link.specs.Deliveries.{restarts};
ghost use Rattle.laws_link.specs.States.{as_heard, state_after, numbers_begin};
ghost use Rattle.laws_link.specs.Waiting.{waiting_left, lost_by};
ghost use Rattle.laws_link.specs.Flags.{peer_busy_left, own_busy_left, rejecting_left, pending_left, asked_left, owed_left, repeats_left};
ghost use Rattle.laws_link.specs.Telling.{told_by};

/// States follow a table. The state that an event leaves a link in is the one to which the table of moves leads, from its
/// state, by what is heard, asked or expired; no other event moves it. And its numbers begin anew by SABME that leads to
/// state 7, by UA with F=1 in state 5, and where the TEI leaves, and by nothing else (Q.921 clauses 5.3.4, 5.5.1 to 5.5.5,
/// 5.6.7, 5.7, 5.8 and 5.10.3).
pub fn states_follow()
    ensures state { (t : Terms) (e : Event) (l : Link) → (after t e l).state ≡ state_after t (as_heard t e) l }
    ensures numbers { (t : Terms) (e : Event) (l : Link) → restarts t e l ≡ numbers_begin (as_heard t e) l.state (after t e l).state }
{}

/// What waits stays, and each frame that comes to wait has its cause. Control frames that wait stay in their order
/// until an offer gives them, or the TEI leaves the line. After them an event puts the answer that a frame asks for, or
/// the report of own busy. Then it puts the command whose answer the state that it leads to awaits. What finds no room
/// is told as lost. So RNR answers a poll under own busy, REJ the first I-frame out of sequence, RR any other (Q.921
/// clauses 5.5.1 to 5.5.5, 5.6.2 to 5.6.7 and 5.8.1).
pub fn frames_follow()
    ensures waiting { (t : Terms) (e : Event) (l : Link) → (after t e l).waiting ≡ waiting_left t (as_heard t e) l (after t e l).state }
    ensures lost { (t : Terms) (e : Event) (l : Link) → (told t e l).lost ≡ lost_by t (as_heard t e) l (after t e l).state }
{}

/// Flags follow what is heard and asked:
///
/// - The terminal is taken for busy by RNR and for free by RR and REJ.
/// - Own busy is what layer 3 asked for last.
/// - What REJ asked for is awaited until the next I-frame in sequence.
/// - An acknowledgement is owed for each I-frame that is taken, until a frame with N(R) is put, or goes, or the link
///   leaves states 7 and 8.
///
/// All go off when an establishment begins. What layer 3 asked for in state 5 is, by annex B, what it asked for last: the
/// establishment, or the release, which is owed until the link leaves the state. RC counts the expiries of T200 for the
/// command that awaits its answer. By annex B it counts the one that leaves state 7, too (Q.921 clauses 5.5.1.3, 5.5.3.3, 5.6.2 to 5.6.7, 5.7 and 5.8.1).
pub fn flags_follow()
    ensures peer_busy { (t : Terms) (e : Event) (l : Link) → (after t e l).peer_busy ≡ peer_busy_left (as_heard t e) l (after t e l).state }
    ensures own_busy { (t : Terms) (e : Event) (l : Link) → (after t e l).own_busy ≡ own_busy_left (as_heard t e) l (after t e l).state }
    ensures rejecting { (t : Terms) (e : Event) (l : Link) → (after t e l).rejecting ≡ rejecting_left (as_heard t e) l (after t e l).state }
    ensures pending { (t : Terms) (e : Event) (l : Link) → (after t e l).pending ≡ pending_left (as_heard t e) l (after t e l).state }
    ensures asked { (t : Terms) (e : Event) (l : Link) → (after t e l).asked ≡ asked_left t (as_heard t e) l (after t e l).state }
    ensures owed { (t : Terms) (e : Event) (l : Link) → (after t e l).owed ≡ owed_left t (as_heard t e) l (after t e l).state }
    ensures repeats { (t : Terms) (e : Event) (l : Link) → (after t e l).repeats ≡ repeats_left t (as_heard t e) l (after t e l).state }
{}

/// Layer 3 and layer management are told exactly what the table of notes has, in its order. Of a frame they are told,
/// by the state that it meets, which of the errors A to F and J to O it is, the establishments and releases, data of
/// each I-frame that is taken, and unit data of each UI. They are told of the last expiry of T200, of the release of a
/// link that is down, and of the end of the TEI (Q.921 clauses 5.2.3, 5.3.4, 5.5.1 to 5.5.4, 5.6.2, 5.6.7, 5.7 and 5.8,
/// appendix II).
pub fn notes_follow()
    ensures notes { (t : Terms) (e : Event) (l : Link) → (told t e l).notes ≡ told_by t (as_heard t e) l (after t e l).state }
{}
