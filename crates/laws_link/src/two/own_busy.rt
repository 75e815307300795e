//! An end that is busy itself, beside one that is not.

ghost use Rattle.std.specs.Prelude.{◌≡◌, ◌⊎◌, ℕ, ◌+◌, true, Some, List};
ghost use Rattle.model_link.specs.declared.timers.LinkTimer.TheVariants.{T200};
ghost use Rattle.model_link.specs.Timed.{IsTimed};
ghost use Rattle.model_link.specs.TwoEnds.{Ends, StepAt, doing_all, Begins, StayUp};
ghost use Rattle.laws_link.specs.two.CutOff.{IsCutOff, IsCutOffWith, CanRecoverFrom, CanRecoverFromWith, HasMissing, with_t200_expired};
ghost use Rattle.laws_link.specs.two.OwnBusy.{IsBusyItself, IsUpAndIdle, IsDropped, GetsThrough, with_near_busy, with_far_busy};
ghost use Rattle.laws_link.specs.two.BusyOver.{with_near_told, with_near_untold, with_far_told, with_far_untold, HasDroppedNothing, BothHaveArrived};
ghost use Rattle.laws_link.specs.two.Rounds.{rounds, IsReady, IsTaken, HasUnsent};

/// An end that is busy itself is heard, if nothing is lost. Two links face each other in state 7, one of them with own
/// busy on and the other with own busy off. Nothing waits or is in transit, and the busy end does not take the other
/// for busy (`IsBusyItself.peer_busy`). What the busy end has sent the other has delivered, and owes an acknowledgement
/// for what is outstanding; what is to come fits. The other may take the busy end for busy, or not yet. It may have
/// sent contents that the busy end dropped: its V(A) is not above the busy end's V(R), and its V(S) is not below it
/// (`IsDropped.low`, `IsDropped.high`).
///
/// Let the busy end have at most u contents unsent. Then u + 1 rounds suffice, whichever of the two is first in a
/// round. All its contents are delivered at the other, in order, and acknowledged. It is busy still, has delivered
/// nothing meanwhile, and has nothing more to say. The other is in state 7 and keeps all contents that the busy end did
/// not take (Q.921 clauses 5.6.5 and 5.6.6).
///
/// Let own busy begin at one of two ends that are as [`crate::contents_arrive`] has them. Then the same holds after u +
/// 2 rounds, the first of which may go to the RNR that tells of it. The other takes the busy end for busy then
/// (`begun_near`, `begun_far`), and so asks again ([`crate::busy_is_heeded`]).
pub fn busy_ends_are_heard()
    ensures near { (u : ℕ) (e : Ends) → IsBusyItself e.near → IsUpAndIdle e.far → IsTaken e.near e.far → IsDropped e.near e.far → HasUnsent u e.near →
        GetsThrough e.near e.far (rounds (u + 1) e).near (rounds (u + 1) e).far }
    ensures far { (u : ℕ) (e : Ends) → IsBusyItself e.far → IsUpAndIdle e.near → IsTaken e.far e.near → IsDropped e.far e.near → HasUnsent u e.far →
        GetsThrough e.far e.near (rounds (u + 1) e).far (rounds (u + 1) e).near }
    ensures begun_near { (u : ℕ) (e : Ends) → IsReady e.near → IsReady e.far → IsTaken e.near e.far → IsTaken e.far e.near → HasUnsent u e.near →
        GetsThrough e.near e.far (rounds (u + 2) (with_near_busy e)).near (rounds (u + 2) (with_near_busy e)).far × ((rounds (u + 2) (with_near_busy e)).far.link.peer_busy ≡ true) }
    ensures begun_far { (u : ℕ) (e : Ends) → IsReady e.near → IsReady e.far → IsTaken e.near e.far → IsTaken e.far e.near → HasUnsent u e.far →
        GetsThrough e.far e.near (rounds (u + 2) (with_far_busy e)).far (rounds (u + 2) (with_far_busy e)).near × ((rounds (u + 2) (with_far_busy e)).near.link.peer_busy ≡ true) }
{}

/// An end that is busy itself recovers its losses. Two links face each other in states 7 and 8, one of them with own
/// busy on and the other with own busy off. All frames in transit were lost, whatever the two were doing. The RNR that
/// told of own busy may be among them, so that the other need not know of it. Each can repeat an enquiry, and what the
/// other has received lies between V(A) and V(S).
///
/// T200 expires if it runs, and nothing more is lost. Let at most u contents of the busy end not be received. Then u +
/// 3 rounds suffice. All of them are delivered at the other, in order, and acknowledged. The busy end is in state 7,
/// busy still, and has nothing more to say. The other is in state 7 and keeps all contents that the busy end did not
/// take. If T200 ran at either end, the other takes the busy end for busy then (`near_known`, `far_known`), and so asks
/// again ([`crate::busy_is_heeded`]).
///
/// The same holds of any two links that came from an establishment by whatever was done to them, as long as both stayed
/// in states 7 and 8 (`reached_near`, `reached_far`). If the two have the same N201, only what `CanRecoverFromWith`
/// says has to be asked of them (Q.921 clauses 5.6.5, 5.6.6 and 5.6.7).
pub fn busy_ends_recover()
    ensures near { (u : ℕ) (e : Ends) → IsCutOffWith true e.near e.far → IsCutOff e.far e.near → HasMissing u e.near e.far →
        GetsThrough e.near e.far (rounds (u + 3) (with_t200_expired e)).near (rounds (u + 3) (with_t200_expired e)).far }
    ensures far { (u : ℕ) (e : Ends) → IsCutOffWith true e.far e.near → IsCutOff e.near e.far → HasMissing u e.far e.near →
        GetsThrough e.far e.near (rounds (u + 3) (with_t200_expired e)).far (rounds (u + 3) (with_t200_expired e)).near }
    ensures near_known { (u : ℕ) (e : Ends) → IsCutOffWith true e.near e.far → IsCutOff e.far e.near → HasMissing u e.near e.far →
        (e.near.link.running ≡ Some T200) ⊎ (e.far.link.running ≡ Some T200) → (rounds (u + 3) (with_t200_expired e)).far.link.peer_busy ≡ true }
    ensures far_known { (u : ℕ) (e : Ends) → IsCutOffWith true e.far e.near → IsCutOff e.near e.far → HasMissing u e.far e.near →
        (e.far.link.running ≡ Some T200) ⊎ (e.near.link.running ≡ Some T200) → (rounds (u + 3) (with_t200_expired e)).near.link.peer_busy ≡ true }
    ensures reached_near { (ds : List StepAt) (u : ℕ) (e : Ends) → Begins e.near → Begins e.far → IsTimed e.near.link → IsTimed e.far.link →
        e.near.terms.n201 ≡ e.far.terms.n201 → StayUp ds e →
        CanRecoverFromWith true (doing_all ds e).near (doing_all ds e).far → CanRecoverFrom (doing_all ds e).far (doing_all ds e).near →
        HasMissing u (doing_all ds e).near (doing_all ds e).far →
        GetsThrough (doing_all ds e).near (doing_all ds e).far (rounds (u + 3) (with_t200_expired (doing_all ds e))).near (rounds (u + 3) (with_t200_expired (doing_all ds e))).far }
    ensures reached_far { (ds : List StepAt) (u : ℕ) (e : Ends) → Begins e.near → Begins e.far → IsTimed e.near.link → IsTimed e.far.link →
        e.near.terms.n201 ≡ e.far.terms.n201 → StayUp ds e →
        CanRecoverFromWith true (doing_all ds e).far (doing_all ds e).near → CanRecoverFrom (doing_all ds e).near (doing_all ds e).far →
        HasMissing u (doing_all ds e).far (doing_all ds e).near →
        GetsThrough (doing_all ds e).far (doing_all ds e).near (rounds (u + 3) (with_t200_expired (doing_all ds e))).far (rounds (u + 3) (with_t200_expired (doing_all ds e))).near }
{}

/// What was kept while an end was busy itself arrives once own busy is over. Layer 3 asks for it at that end, whose
/// next frame is RR (Q.921 clause 5.6.6).
///
/// - In state 7 the busy end has dropped nothing. The other has delivered what it sent, and owes an acknowledgement for
///   what is outstanding. Once RR has come, and nothing is lost, u + 1 rounds suffice, if neither has more than u
///   contents unsent. All contents that layer 3 gave on either side are delivered at the other, in order, and
///   acknowledged, and neither has anything more to say (`near`, `far`).
/// - In states 7 and 8 all frames in transit were lost, or dropped by the busy end, and each can repeat an enquiry. RR
///   has come (`near_told`, `far_told`), or is lost, too (`near_untold`, `far_untold`), and T200 expires if it runs.
///   Then u + 3 rounds suffice, if neither has more than u contents that the other has not received (clauses 5.6.5 and
///   5.6.7).
///
/// The same holds of any two links that came from an establishment by whatever was done to them, as long as both stayed
/// in states 7 and 8 (`reached_near`, `reached_far`).
pub fn kept_contents_arrive()
    ensures near { (u : ℕ) (e : Ends) → IsBusyItself e.near → IsUpAndIdle e.far → IsTaken e.near e.far → HasDroppedNothing e.near e.far →
        HasUnsent u e.near → HasUnsent u e.far → BothHaveArrived e (rounds (u + 1) (with_near_told e)) }
    ensures far { (u : ℕ) (e : Ends) → IsBusyItself e.far → IsUpAndIdle e.near → IsTaken e.far e.near → HasDroppedNothing e.far e.near →
        HasUnsent u e.far → HasUnsent u e.near → BothHaveArrived e (rounds (u + 1) (with_far_told e)) }
    ensures near_told { (u : ℕ) (e : Ends) → IsCutOffWith true e.near e.far → IsCutOff e.far e.near → HasMissing u e.near e.far → HasMissing u e.far e.near →
        BothHaveArrived e (rounds (u + 3) (with_t200_expired (with_near_told e))) }
    ensures far_told { (u : ℕ) (e : Ends) → IsCutOffWith true e.far e.near → IsCutOff e.near e.far → HasMissing u e.far e.near → HasMissing u e.near e.far →
        BothHaveArrived e (rounds (u + 3) (with_t200_expired (with_far_told e))) }
    ensures near_untold { (u : ℕ) (e : Ends) → IsCutOffWith true e.near e.far → IsCutOff e.far e.near → HasMissing u e.near e.far → HasMissing u e.far e.near →
        BothHaveArrived e (rounds (u + 3) (with_t200_expired (with_near_untold e))) }
    ensures far_untold { (u : ℕ) (e : Ends) → IsCutOffWith true e.far e.near → IsCutOff e.near e.far → HasMissing u e.far e.near → HasMissing u e.near e.far →
        BothHaveArrived e (rounds (u + 3) (with_t200_expired (with_far_untold e))) }
    ensures reached_near { (ds : List StepAt) (u : ℕ) (e : Ends) → Begins e.near → Begins e.far → IsTimed e.near.link → IsTimed e.far.link →
        e.near.terms.n201 ≡ e.far.terms.n201 → StayUp ds e →
        CanRecoverFromWith true (doing_all ds e).near (doing_all ds e).far → CanRecoverFrom (doing_all ds e).far (doing_all ds e).near →
        HasMissing u (doing_all ds e).near (doing_all ds e).far → HasMissing u (doing_all ds e).far (doing_all ds e).near →
        BothHaveArrived (doing_all ds e) (rounds (u + 3) (with_t200_expired (with_near_told (doing_all ds e)))) }
    ensures reached_far { (ds : List StepAt) (u : ℕ) (e : Ends) → Begins e.near → Begins e.far → IsTimed e.near.link → IsTimed e.far.link →
        e.near.terms.n201 ≡ e.far.terms.n201 → StayUp ds e →
        CanRecoverFromWith true (doing_all ds e).far (doing_all ds e).near → CanRecoverFrom (doing_all ds e).near (doing_all ds e).far →
        HasMissing u (doing_all ds e).far (doing_all ds e).near → HasMissing u (doing_all ds e).near (doing_all ds e).far →
        BothHaveArrived (doing_all ds e) (rounds (u + 3) (with_t200_expired (with_far_told (doing_all ds e)))) }
{}
