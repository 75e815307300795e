//! What holds of the definitions of a clock.

ghost use Rattle.std.specs.Prelude.{◌≡◌, ℕ, ◌+◌, true, Some, None};
ghost use Rattle.lapd_clock.specs.Timer.{Timer, Start, Stop, duration};
ghost use Rattle.lapd_clock.specs.Timers.{Timers, finds_place, with_order};
ghost use Rattle.lapd_clock.specs.Moments.{MovesOne};

/// A law: an order changes the moment of its own timer alone. A timer that is started and finds its
/// place falls due at `now` plus the time that it runs, one that is stopped has no moment, and every
/// other timer of every line has the moment that it had, or none as before.
pub fn orders_move_one_timer()
    ensures started { (c : Timers) (line : ℕ) (timer : Timer) (now : ℕ) →
        finds_place c line (Start timer) ≡ true →
        MovesOne line timer (Some (now + duration c.lengths timer)) c (with_order c line (Start timer) now) }
    ensures stopped { (c : Timers) (line : ℕ) (timer : Timer) (now : ℕ) →
        MovesOne line timer None c (with_order c line (Stop timer) now) }
{}
