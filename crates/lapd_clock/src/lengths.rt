//! How long the timers run.

ghost use Rattle.std.specs.Prelude.{◌≡◌, ◌≤◌, None, Some, IfOk, IfErr};
ghost use Rattle.lapd_clock.specs.Timer.{standard, first_out_of_range, is_length, duration};

use crate::fault::LengthFault;
use lapd_frame::Timer;

/// The greatest length of a timer, in milliseconds: an hour (profile).
const LONGEST: u32 = 3_600_000;

/// How long T202 runs by the standard, in milliseconds (Q.921 clause 5.9.7).
const STANDARD_T202: u32 = 2_000;

/// How long the timers of a clock run, in milliseconds: T200 and T203 of each link, T201 of each line, and T202 of each line
/// of a terminal (Q.921 clauses 5.9.1, 5.9.8, 5.9.6 and 5.9.7). Each runs 1 to 3,600,000 ms (profile).
#[derive(Clone, Copy, Debug)]
pub struct Lengths {
    t200: u32,
    t203: u32,
    t201: u32,
    t202: u32,
    ghost least: { 1 ≤ t200 × 1 ≤ t203 × 1 ≤ t201 × 1 ≤ t202 },
    ghost most: { t200 ≤ 3600000 × t203 ≤ 3600000 × t201 ≤ 3600000 × t202 ≤ 3600000 },
}

impl Lengths {
    ghost use Rattle.lapd_clock.specs.Given.{lengths_of};

    /// The default values of Q.921: T200 and T201 run 1,000 ms, T203 10,000 ms, and T202 2,000 ms.
    pub fn standard() -> Lengths
        ensures { lengths_of result ≡ standard }
    {
        Lengths {
            t200: 1_000,
            t203: 10_000,
            t201: 1_000,
            t202: STANDARD_T202,
        }
    }

    /// These lengths, with the default value of T202.
    ///
    /// T200 has to be longer than an answer takes that waits for its turn on a slow line (`docs/EMBEDDING.md`).
    ///
    /// # Errors
    ///
    /// The first of T200, T203 and T201 that is out of range.
    pub fn new(t200: u32, t203: u32, t201: u32) -> Result<Lengths, LengthFault>
        ensures given { IfOk result (λ lengths. lengths_of lengths ≡ record standard { t200 = t200; t203 = t203; t201 = t201 }) }
        ensures in_range { IfOk result (λ _. first_out_of_range (record standard { t200 = t200; t203 = t203; t201 = t201 }) ≡ None) }
        ensures fault { IfErr result (λ fault. first_out_of_range (record standard { t200 = t200; t203 = t203; t201 = t201 }) ≡ Some fault) }
    {
        if !is_length(t200) {
            return Err(LengthFault::T200);
        }
        if !is_length(t203) {
            return Err(LengthFault::T203);
        }
        if !is_length(t201) {
            return Err(LengthFault::T201);
        }
        Ok(Lengths {
            t200,
            t203,
            t201,
            t202: STANDARD_T202,
        })
    }

    /// The same lengths, with this one of T202.
    ///
    /// # Errors
    ///
    /// `T202` if it is out of range.
    pub fn with_t202(self, t202: u32) -> Result<Lengths, LengthFault>
        ensures given { IfOk result (λ lengths. lengths_of lengths ≡ record (lengths_of self) { t202 = t202 }) }
        ensures in_range { IfOk result (λ _. first_out_of_range (record (lengths_of self) { t202 = t202 }) ≡ None) }
        ensures fault { IfErr result (λ fault. first_out_of_range (record (lengths_of self) { t202 = t202 }) ≡ Some fault) }
    {
        if !is_length(t202) {
            return Err(LengthFault::T202);
        }
        Ok(Lengths {
            t200: self.t200,
            t203: self.t203,
            t201: self.t201,
            t202,
        })
    }

    /// How long a timer runs.
    pub fn of(self, timer: Timer) -> u64
        ensures is { result ≡ duration (lengths_of self) timer }
        ensures most { result ≤ 3600000 }
    {
        match timer {
            Timer::T200(_, _) => u64::from(self.t200),
            Timer::T203(_, _) => u64::from(self.t203),
            Timer::T201 => u64::from(self.t201),
            Timer::T202 => u64::from(self.t202),
        }
    }
}

/// Whether a timer may run so long.
fn is_length(milliseconds: u32) -> bool
    ensures { result ≡ is_length milliseconds }
{
    1 <= milliseconds && milliseconds <= LONGEST
}
