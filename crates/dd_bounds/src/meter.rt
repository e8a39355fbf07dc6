//! How long a search may go on.
ghost use Rattle.std.specs.Prelude.{◌≡◌, ◌+◌, ◌<◌, ◌≤◌, ◌↔◌, ℕ, Option, None, Some};
ghost use Rattle.dd_bounds.specs.Spent.{WasSpent, WasTicked};

use std::marker::Model;

/// What a meter says at a position that the search visits.
#[derive(Clone, Copy, Debug, PartialEq, Eq)]
pub enum Tick {
    /// The search goes on.
    Go,
    /// The budget is spent.
    Spent,
    /// The search is to stop.
    Stop,
}

/// Why a search ended without an answer.
#[derive(Clone, Copy, Debug, PartialEq, Eq)]
pub enum Halt {
    /// The budget was spent.
    Spent,
    /// The search was stopped.
    Stopped,
}

/// Asked once at each position that a search visits, before anything else is done there.
pub trait Meter {
    ghost use Rattle.std.specs.Prelude.{ℕ, Option};
    ghost use Rattle.dd_bounds.specs.declared.meter.Tick.{Tick};

    /// how many ticks may go in all, where that is limited: it never changes
    ghost limit: { Self → Option ℕ };

    /// the second meter is what became of the first after one tick that went, or more
    ghost ticked: { Self → Self → Type 0 };
    /// what the meter, as it stands, may have said
    ghost says: { Self → Tick → Type 0 };

    fn tick(&mut self) -> Tick
        ensures says { says self.new result }
        ensures limit { limit self.new ≡ limit self.old }
        ensures went { result ≡ Tick.Go → ticked self.old self.new };

    /// more ticks after ticks are ticks
    ghost later: { (a b c : Self) → ticked a b → ticked b c → ticked a c };
}

/// Lets every search go on to its end.
#[derive(Clone, Copy, Debug, Drop)]
pub struct Endless;

impl Meter for Endless {
    ghost use Rattle.std.specs.Prelude.{None};
    ghost use Rattle.dd_bounds.specs.declared.meter.Tick.{Tick};

    ghost limit = { λ m. None };

    ghost ticked = { λ a b. Unit {0} };

    ghost says = { λ m tick. tick ≡ Tick.Go };

    ghost later = { λ a b c x y. tt };

    fn tick(&mut self) -> Tick {
        Tick::Go
    }
}

/// Lets a number of ticks go, seen as that limit and the number that have gone.
#[derive(Drop)]
pub struct Budget {
    limit: u64,
    count: u64,
}

impl Model for Budget {
    ghost use Rattle.std.specs.Prelude.{◌≤◌};
    ghost use Rattle.dd_bounds.specs.Budgets.{CountedTicks};

    ghost Value = { CountedTicks };

    ghost view = { λ b. record { limit = b.limit; count = b.count } };

    ghost invariant = { λ b. b.count ≤ b.limit };
}

impl Budget {
    /// A budget of this many ticks, of which none has gone.
    pub fn new(limit: u64) -> Budget
        ensures { result ≡ record { limit = limit; count = 0 } }
    {
        Budget { limit, count: 0 }
    }

    pub fn limit(&self) -> u64
        ensures { result ≡ self.now.limit }
    {
        self.limit
    }

    /// How many ticks have gone, 0 to the limit.
    pub fn ticks(&self) -> u64
        ensures value { result ≡ self.now.count }
        ensures bound { result ≤ self.now.limit }
    {
        self.count
    }
}

impl Meter for Budget {
    ghost use Rattle.std.specs.Prelude.{Some};
    ghost use Rattle.dd_bounds.specs.declared.meter.Tick.{Tick};
    ghost use Rattle.dd_bounds.specs.Budgets.{later-budget};
    ghost use Rattle.dd_bounds.specs.Spent.{WasSpent, WasTicked};

    ghost limit = { λ b. Some b.limit };

    ghost ticked = { λ a b. (a.limit ≡ b.limit) × (a.count < b.count) × WasTicked a.limit };

    ghost says = { λ b tick. (tick ≡ Tick.Spent → (b.count ≡ b.limit) × WasSpent b.limit)
        × (tick ≡ Tick.Stop → ⊥) };

    ghost later = { λ a b c first second. later-budget a b c first second };

    /// Goes as long as fewer than the limit have gone, and is spent from then on.
    #[inline]
    fn tick(&mut self) -> Tick
        ensures says { (result ≡ Tick.Spent → (self.new.count ≡ self.new.limit) × WasSpent self.new.limit)
            × (result ≡ Tick.Stop → ⊥) }
        ensures went { result ≡ Tick.Go → (self.old.limit ≡ self.new.limit)
            × (self.old.count < self.new.count) × WasTicked self.old.limit }
        ensures spent { (result ≡ Tick.Spent) ↔ (self.old.count ≡ self.old.limit) }
        ensures stays { result ≡ Tick.Spent → self.new ≡ self.old }
        ensures counts { result ≡ Tick.Go → self.new
            ≡ record { limit = self.old.limit; count = self.old.count + 1 } }
    {
        if self.count < self.limit {
            self.count += 1;
            return Tick::Go;
        }
        Tick::Spent
    }
}
