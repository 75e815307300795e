//! The laws. Each is the contract of a call that does nothing.

ghost use Rattle.std.specs.Prelude.{◌≡◌, ◌↔◌, ℕ, ◌≤◌, None};
ghost use Rattle.model_line.specs.declared.config.Config.{Config};
ghost use Rattle.model_line.specs.Line.{Line};
ghost use Rattle.model_line.specs.Counts.{may_send};
ghost use Rattle.model_line.specs.Sound.{IsInRange, IsSound};
ghost use Rattle.model_line.specs.Taken.{taken};
ghost use Rattle.laws_line.specs.Served.{HasNothing};
ghost use Rattle.laws_line.specs.Drains.{after_takes, frames_to_go, most_frames, IsIdling};

/// Calls for the next frame come to an end of what waits. The frames to go are the messages of TEI management and the
/// unit data that wait, and of each link its control frames and the acknowledgement that it owes. In state 7, while the
/// terminal is not taken for busy, they are also the unsent I-frames that its window has room for (Q.921 clauses 5.6.1
/// and 5.6.5). There are none exactly if nothing waits that may go (`exact`). Let there be such calls alone, as many as
/// there are frames to go. Then nothing waits on the line except I-frames beyond a closed window, of a terminal that is
/// taken for busy, or of a link that is not in state 7 (`drained`). Then no call takes a frame, and the line stays as
/// it is (`idle`). A configuration gives a number that the frames to go of its lines are never above (`few`). And after
/// as many calls as frames may be sent none is taken (`ends`). `calls_come_to_an_end` of `Promises` stands on it, and
/// `cards_deliver` of `laws_wire` counts frames to go as it does.
pub fn takes_come_to_an_end()
    ensures exact { (c : Config) (l : Line) → IsSound c l → (frames_to_go c l ≡ 0) ↔ HasNothing c l }
    ensures drained { (c : Config) (n : ℕ) (l : Line) → IsInRange c → IsSound c l → frames_to_go c l ≤ n → HasNothing c (after_takes c n l) }
    ensures idle { (c : Config) (n : ℕ) (l : Line) → IsSound c l → HasNothing c l → IsIdling c n l }
    ensures few { (c : Config) (l : Line) → IsSound c l → frames_to_go c l ≤ most_frames c }
    ensures ends { (c : Config) (n : ℕ) (l : Line) → IsInRange c → IsSound c l → may_send c l ≤ n → taken c (after_takes c n l) ≡ None }
{}
