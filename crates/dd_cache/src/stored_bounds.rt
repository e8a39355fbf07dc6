//! Bounds, and the owners of the highest cards under which they hold.
ghost use Rattle.std.specs.Prelude.{◌≡◌, ◌<◌, ◌≤◌, ◌⊎◌, IsTrue};
ghost use Rattle.dd_rank.specs.FirstOwners.{AreFirst};
ghost use Rattle.dd_cache.specs.StoredBounds.{MakesNeedless};

use dd_play::Interval;
use dd_rank::{FirstOwners, OwnerStrings};
use std::marker::Model;

/// Bounds of the value of each position of a shape whose highest cards have these owners.
#[derive(Drop)]
pub(crate) struct StoredBounds {
    pub(crate) firsts: FirstOwners,
    pub(crate) interval: Interval,
}

impl Model for StoredBounds {
    ghost use Rattle.dd_cache.specs.StoredBounds.{StoredBoundsOf};

    ghost Value = { StoredBoundsOf };

    ghost view = { λ t. record { firsts = t.firsts; interval = t.interval } };
}

impl StoredBounds {
    /// Equal ones.
    #[inline]
    pub(crate) fn copy(&self) -> StoredBounds
        ensures { result ≡ self.now }
    {
        StoredBounds {
            firsts: self.firsts.copy(),
            interval: self.interval,
        }
    }

    /// Does it hold of the position with these strings, and settle whether the leader's side takes so many tricks?
    #[inline]
    pub(crate) fn answers(&self, strings: &OwnerStrings, need: u8) -> bool
        ensures firsts { IsTrue result → AreFirst self.now.firsts strings.now }
        ensures settles { IsTrue result → (need ≤ self.now.interval.lo)
            ⊎ (self.now.interval.hi < need) }
    {
        // All is asked: which of it fails would seldom be foreseen.
        let settles = (need <= self.interval.lo) | (self.interval.hi < need);
        let holds = self.firsts.are_in(strings);
        settles & holds
    }

    /// Does it make the other needless, which is of its shape: it says as much of no fewer positions?
    #[inline]
    pub(crate) fn replaces(&self, other: &StoredBounds) -> bool
        ensures { IsTrue result → MakesNeedless self.now other.now }
    {
        let says_as_much = (other.interval.lo <= self.interval.lo)
            & (self.interval.hi <= other.interval.hi);
        says_as_much & self.firsts.include(&other.firsts)
    }
}
