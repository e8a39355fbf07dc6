ghost use Rattle.std.specs.Prelude.{◌≡◌, ℕ, ◌<◌, ◌≤◌, ◌↔◌, MatchOption};

/// Bounds of a number of tricks, both included.
#[derive(Clone, Copy, Debug, PartialEq, Eq)]
pub struct Interval {
    pub lo: u8,
    pub hi: u8,
    pub ghost ordered: { lo ≤ hi },
}

impl Interval {
    ghost use Rattle.dd_play.specs.Intervals.{Holds};

    /// From `lo` to `hi`, and nothing where `hi` is less than `lo`.
    pub fn new(lo: u8, hi: u8) -> Option<Interval>
        ensures { MatchOption result (hi < lo) (λ interval. (interval.lo ≡ lo) × (interval.hi
            ≡ hi)) }
    {
        if lo <= hi {
            Some(Interval { lo, hi })
        } else {
            None
        }
    }

    /// The numbers that both hold, and nothing where they share none.
    pub fn meet(self, other: Interval) -> Option<Interval>
        ensures { MatchOption result ((n : ℕ) → ¬ (Holds self n × Holds other n))
            (λ both. (n : ℕ) → Holds both n ↔ (Holds self n × Holds other n)) }
    {
        Interval::new(self.lo.max(other.lo), self.hi.min(other.hi))
    }
}
