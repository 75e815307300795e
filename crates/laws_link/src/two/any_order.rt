//! Two links whose turns come in any order.

ghost use Rattle.std.specs.Prelude.{◌+◌, ◌≤◌, List, length};
ghost use Rattle.model_link.specs.TwoEnds.{Ends, StepAt, doing_all};
ghost use Rattle.laws_link.specs.two.AnyOrder.{AreTurns, IsStill, weight};
ghost use Rattle.laws_link.specs.two.Rounds.{IsReady, IsTaken, HasArrived};

/// What layer 3 hands over arrives in whatever order the turns come. Two links face each other as
/// [`crate::contents_arrive`] has them. Nothing is lost, and nothing is in transit as the turns begin. A turn is that
/// an end which has something to send sends its next frame, or that one receives the first frame in transit to it. Both
/// ways may be busy at once, and an end may send several frames while one is in transit to it. Nothing else happens
/// between the turns: layer 3 asks for nothing more, and no timer expires.
///
/// Whatever turns come, in whatever order, there are at most as many as the weight of the two ends. That is 4 for each
/// content unsent, 3 for each I-frame in transit, 2 for an acknowledgement that is owed, and 1 for each other frame in
/// transit. When no turn is left, all contents that layer 3 gave on either side are delivered at the other, in order,
/// and acknowledged, and both links are in state 7 (Q.921 clauses 5.6.1 to 5.6.3).
pub fn arrives_in_any_order()
    ensures bounded { (ds : List StepAt) (e : Ends) → IsReady e.near → IsReady e.far → IsTaken e.near e.far → IsTaken e.far e.near → AreTurns ds e →
        length ds + weight (doing_all ds e) ≤ weight e }
    ensures near { (ds : List StepAt) (e : Ends) → IsReady e.near → IsReady e.far → IsTaken e.near e.far → IsTaken e.far e.near → AreTurns ds e →
        IsStill (doing_all ds e) → HasArrived e.near.link.contents (doing_all ds e).near (doing_all ds e).far }
    ensures far { (ds : List StepAt) (e : Ends) → IsReady e.near → IsReady e.far → IsTaken e.near e.far → IsTaken e.far e.near → AreTurns ds e →
        IsStill (doing_all ds e) → HasArrived e.far.link.contents (doing_all ds e).far (doing_all ds e).near }
{}
