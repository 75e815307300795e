//! The laws of one link, and of two that face each other. Each is the contract of a call that does nothing.

ghost use Rattle.std.specs.Prelude.{◌≡◌, ℕ, ◌+◌, List};
ghost use Rattle.model_link.specs.declared.terms.Terms.{Terms};
ghost use Rattle.model_link.specs.Link.{Link, fresh};
ghost use Rattle.model_link.specs.Events.{Event};
ghost use Rattle.model_link.specs.Machine.{after, after_all};
ghost use Rattle.model_link.specs.Timed.{IsTimed};
ghost use Rattle.laws_link.specs.two.Ahead.{StayAhead};
ghost use Rattle.laws_link.specs.two.CutOff.{IsCutOff, CanRecoverFrom, HasMissing, with_t200_expired};
ghost use Rattle.laws_link.specs.two.Heeds.{Heeds};
ghost use Rattle.model_link.specs.TwoEnds.{Ends, StepAt, doing_all, Begins, StayUp, Agree};
ghost use Rattle.laws_link.specs.two.Rounds.{rounds, IsReady, IsTaken, HasUnsent, HasArrived};

/// A busy terminal is asked again. In states 7 and 8 a link that takes its terminal for busy runs T200, whatever
/// happened to it since its TEI came to the line. So when T200 expires it asks, and the answer tells whether the
/// terminal is still busy (Q.921 clauses 5.6.5 and 5.6.7). In state 8 T200 runs always, and an establishment begins
/// with a terminal that is not taken for busy.
pub fn busy_is_heeded()
    ensures begins { Heeds fresh }
    ensures each { (t : Terms) (e : Event) (l : Link) → Heeds l → Heeds (after t e l) }
    ensures always { (t : Terms) (es : List Event) → Heeds (after_all t es fresh) }
{}

/// What layer 3 hands over arrives, if nothing is lost. Two links face each other in state 7, neither side is busy, and
/// nothing waits or is in transit. What either has sent the other has delivered, and owes an acknowledgement for what
/// is outstanding. What is to come fits the other's N201. In a round the near end sends its next frame, if it has one,
/// and the far end receives it; then the far end sends its next, and the near end receives it.
///
/// Let neither have more than u contents unsent. Then u + 1 rounds suffice. All contents that layer 3 gave on either
/// side are delivered at the other, in order, and acknowledged. Both links are in state 7, and neither has anything
/// more to say (Q.921 clause 5.6). The ends may have different terms, and any windows.
pub fn contents_arrive()
    ensures near { (u : ℕ) (e : Ends) → IsReady e.near → IsReady e.far → IsTaken e.near e.far → IsTaken e.far e.near →
        HasUnsent u e.near → HasUnsent u e.far →
        HasArrived e.near.link.contents (rounds (u + 1) e).near (rounds (u + 1) e).far }
    ensures far { (u : ℕ) (e : Ends) → IsReady e.near → IsReady e.far → IsTaken e.near e.far → IsTaken e.far e.near →
        HasUnsent u e.near → HasUnsent u e.far →
        HasArrived e.far.link.contents (rounds (u + 1) e).far (rounds (u + 1) e).near }
{}

/// Losses are recovered. Two links face each other in states 7 and 8, and all frames in transit were lost, whatever the
/// two were doing. Their V(S) may be beyond what was received. Either may have sent REJ, take the other for busy, or
/// wait for the answer to an enquiry. At neither a control frame waits to be sent: if one does, this law says nothing.
/// Neither is busy itself, and each can repeat an enquiry. What the other has received lies between V(A) and V(S).
///
/// T200 expires if it runs, and nothing more is lost. Let neither have more than u contents that were not received.
/// Then u + 3 rounds suffice. All contents that layer 3 gave on either side are delivered at the other, in order, and
/// acknowledged. Both links are in state 7, and neither has anything more to say (Q.921 clauses 5.6.7 and 5.8.1).
///
/// The same holds of any two links that came from an establishment by whatever was done to them, as long as both stayed
/// in states 7 and 8 (`reached_near`, `reached_far`). If the two have the same N201, only what `CanRecoverFrom` says
/// has to be asked of them.
pub fn losses_are_recovered()
    ensures near { (u : ℕ) (e : Ends) → IsCutOff e.near e.far → IsCutOff e.far e.near → HasMissing u e.near e.far → HasMissing u e.far e.near →
        HasArrived e.near.link.contents (rounds (u + 3) (with_t200_expired e)).near (rounds (u + 3) (with_t200_expired e)).far }
    ensures far { (u : ℕ) (e : Ends) → IsCutOff e.near e.far → IsCutOff e.far e.near → HasMissing u e.near e.far → HasMissing u e.far e.near →
        HasArrived e.far.link.contents (rounds (u + 3) (with_t200_expired e)).far (rounds (u + 3) (with_t200_expired e)).near }
    ensures reached_near { (ds : List StepAt) (u : ℕ) (e : Ends) → Begins e.near → Begins e.far → IsTimed e.near.link → IsTimed e.far.link →
        e.near.terms.n201 ≡ e.far.terms.n201 → StayUp ds e →
        CanRecoverFrom (doing_all ds e).near (doing_all ds e).far → CanRecoverFrom (doing_all ds e).far (doing_all ds e).near →
        HasMissing u (doing_all ds e).near (doing_all ds e).far → HasMissing u (doing_all ds e).far (doing_all ds e).near →
        HasArrived (doing_all ds e).near.link.contents (rounds (u + 3) (with_t200_expired (doing_all ds e))).near (rounds (u + 3) (with_t200_expired (doing_all ds e))).far }
    ensures reached_far { (ds : List StepAt) (u : ℕ) (e : Ends) → Begins e.near → Begins e.far → IsTimed e.near.link → IsTimed e.far.link →
        e.near.terms.n201 ≡ e.far.terms.n201 → StayUp ds e →
        CanRecoverFrom (doing_all ds e).near (doing_all ds e).far → CanRecoverFrom (doing_all ds e).far (doing_all ds e).near →
        HasMissing u (doing_all ds e).near (doing_all ds e).far → HasMissing u (doing_all ds e).far (doing_all ds e).near →
        HasArrived (doing_all ds e).far.link.contents (rounds (u + 3) (with_t200_expired (doing_all ds e))).far (rounds (u + 3) (with_t200_expired (doing_all ds e))).near }
{}

/// Two links stay up while V(S) of neither is too low. They have the same N201, and begin with an establishment. Layer
/// 3 asks for anything except a release. Frames are lost, as long as the others keep their order. Timers expire as long
/// as an enquiry can still be repeated. Before each step neither's V(S) is below the other's V(R). Then both stay in
/// states 7 and 8, and so have delivered exactly the first contents that the other accepted.
///
/// So three things alone lead two links out of states 7 and 8: a release, repeats that are used up, and a V(S) that
/// went back too far. The last takes a T200 that is too short (`specs/WorkedUntimely`). A T200 that is long enough rules
/// it out (`what_is_lost_arrives` of `laws_wire`).
pub fn stay_up_while_ahead()
    ensures up { (ds : List StepAt) (e : Ends) → Begins e.near → Begins e.far → e.near.terms.n201 ≡ e.far.terms.n201 → StayAhead ds e →
        StayUp ds e }
    ensures near { (ds : List StepAt) (e : Ends) → Begins e.near → Begins e.far → e.near.terms.n201 ≡ e.far.terms.n201 → StayAhead ds e →
        Agree (doing_all ds e).near (doing_all ds e).far }
    ensures far { (ds : List StepAt) (e : Ends) → Begins e.near → Begins e.far → e.near.terms.n201 ≡ e.far.terms.n201 → StayAhead ds e →
        Agree (doing_all ds e).far (doing_all ds e).near }
{}
