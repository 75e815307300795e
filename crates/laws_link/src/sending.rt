//! Effects of a request that is granted, and how contents leave a link. Each law is the contract of a call that does nothing.

ghost use Rattle.std.specs.Prelude.{◌≡◌, Bool, None};
ghost use Rattle.model_link.specs.declared.terms.Terms.{Terms};
ghost use Rattle.model_link.specs.Link.{Link, queue_of};
ghost use Rattle.model_link.specs.Events.{Event, Request, requested};
ghost use Rattle.model_link.specs.Machine.{after, told};
ghost use Rattle.model_link.specs.Sound.{IsSound};
ghost use Rattle.laws_link.specs.Effects.{TakesEffect};
ghost use Rattle.laws_link.specs.History.{IsKept, given_up_by, given_up_of, share};
ghost use Rattle.model_link.specs.Requests.{refusal};

/// A request that is granted takes effect:
///
/// - DL-ESTABLISH puts SABME with P=1 after what waits, and the link awaits UA, in state 5 with T200 running.
/// - DL-RELEASE puts DISC with P=1 there, and the link awaits UA, in state 6 with T200 running, and keeps nothing. In
///   state 4 it is confirmed at once.
/// - In state 5 both are granted by annex B alone: nothing is kept, put or told, T200 runs on, and the answer to SABME
///   leads to the confirm.
/// - DL-DATA: the contents are kept after what is kept, and nothing is told.
/// - SetBusy and ClearBusy: own busy is on, or off. If it was not before, RNR or RR with N(R) = V(R) is put there.
///
/// A frame that finds as many waiting as may is told as lost (Q.921 clauses 5.5.1.1, 5.5.3.2, 5.6.1 and 5.6.6).
pub fn requests_take_effect()
    ensures takes_effect { (t : Terms) (request : Request) (full : Bool) (l : Link) → IsSound t l → refusal t l full request ≡ None
        → TakesEffect t request l (after t (requested request full) l) (told t (requested request full) l).notes (told t (requested request full) l).lost }
{}

/// Contents that were granted are acknowledged, wait or are given up, and what is given up is told. By each event the oldest
/// leave that an N(R) names, and those that it adds come after the others; or all leave. All leave, and are told as given up,
/// by an establishment or a release that is granted, as the TEI leaves, and with the notes that tell it (profile).
pub fn losses_are_told()
    ensures kept { (t : Terms) (e : Event) (l : Link) → IsSound t l → IsKept (share t e l) l (after t e l) }
    ensures told { (t : Terms) (e : Event) (l : Link) → IsSound t l → given_up_of t.service (told t e l) ≡ given_up_by (share t e l) (queue_of l) }
{}
