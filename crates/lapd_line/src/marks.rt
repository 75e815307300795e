//! Which of up to 64 numbers are marked.

ghost use Rattle.std.specs.Prelude.{◌≡◌, ◌<◌, ◌≤◌, ℕ, false, true, IfSome, MatchOption};
ghost use Rattle.std.specs.Option.{unwrap_or};
ghost use Rattle.lapd_line.specs.{NoneFrom, IsLowestFrom, AreMarked, IsMark, IsMarkedAmong, Sets, IsFirstAround};

/// Which of the numbers below 64 are marked: of a line the links that have a frame to give, of a card the lines.
#[derive(Clone, Copy, Debug)]
pub struct Marks {
    /// A bit for each number, which is 1 if it is marked.
    bits: u64,
}

impl Marks {
    /// No number is marked.
    pub fn none() -> Marks
        ensures { AreMarked result (λ number. false) }
    {
        Marks { bits: 0 }
    }

    /// Marks a number, or takes its mark away.
    #[inline(always)]
    pub fn set(&mut self, number: usize, marked: bool)
        requires { number < 64 }
        ensures { Sets number marked self.old self.new }
    {
        if marked {
            self.bits |= 1 << number;
        } else {
            self.bits &= !(1 << number);
        }
    }

    /// Whether a number is marked.
    #[tactic(auto, using(crate::proofs::MarkBits::one_bit))]
    #[inline(always)]
    pub fn has(&self, number: usize) -> bool
        requires { number < 64 }
        ensures { IsMark self.now number result }
    {
        (self.bits >> number) % 2 == 1
    }

    /// Whether any number is marked.
    #[inline(always)]
    pub fn any(&self) -> bool
        ensures none { result ≡ false → AreMarked self.now (λ number. false) }
        ensures some { result ≡ true → (number : ℕ) × (number < 64) × IsMark self.now number true }
    {
        self.bits != 0
    }

    /// The first that is marked, going round from one number on.
    #[tactic(auto, using(crate::proofs::MarkBits::around_behind, crate::proofs::MarkBits::around_before))]
    #[inline(always)]
    pub fn first_around(&self, turn: usize) -> Option<usize>
        ensures { IsFirstAround self.now turn 64 result }
    {
        match lowest_from(self.bits, turn) {
            Some(number) => Some(number),
            None => lowest_from(self.bits, 0),
        }
    }

    /// The first that is marked, of those from one number on and below another.
    #[inline(always)]
    pub fn first(&self, from: usize, to: usize) -> Option<usize>
        ensures marked { IfSome result (IsMarkedAmong self.now from to) }
        ensures others { (number : ℕ) → from ≤ number → number < unwrap_or result to → IsMark self.now number false }
    {
        let number = lowest_from(self.bits, from)?;
        (number < to).then_some(number)
    }
}

/// The lowest bit that is 1, from one on.
#[inline(always)]
fn lowest_from(bits: u64, from: usize) -> Option<usize>
    ensures lowest { MatchOption result (NoneFrom bits from) (IsLowestFrom bits from) }
    ensures few { IfSome result (λ place. place < 64) }
{
    if from >= 64 {
        return None;
    }
    let rest = bits >> from;
    if rest == 0 {
        return None;
    }
    Some(from + rest.trailing_zeros() as usize)
}
