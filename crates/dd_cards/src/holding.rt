ghost use Rattle.std.specs.Prelude.{◌≡◌, true, MatchOption, ℕ, ◌<◌, ◌≤◌, ◌↔◌, ◌==◌, ◌||◌, [], ◌∷◌, ◌++◌, List, length, filter, find, IsTrue, nat_lt, slice_get};
ghost use mathlib.Core.Bool.{not};
ghost use Rattle.dd_cards.specs.Ranks.{all_ranks, has_rank, with_rank};
ghost use Rattle.dd_cards.specs.Masks.{mask_of};

use crate::rank::Rank;
use std::marker::Model;

/// A set of ranks of one suit, seen as their list, highest first.
#[derive(Clone, Copy, Debug, PartialEq, Eq)]
pub struct Holding {
    mask: u16,
}

impl Model for Holding {
    ghost use Rattle.std.specs.Prelude.{ℕ, List};
    ghost use Rattle.dd_cards.specs.Masks.{IsMask, ranks_of, mask_of};
    ghost use Rattle.dd_cards.specs.MaskLaws.{mask_of-ranks_of};

    ghost Value = { List ℕ };

    ghost view = { λ h. ranks_of h.mask };

    ghost invariant = { λ h. IsMask h.mask };

    ghost inverse = { λ ranks. record { mask = mask_of ranks } };

    ghost inverse_ok = { λ h valid. mask_of-ranks_of h valid };
}

impl Holding {
    ghost use Rattle.dd_cards.specs.Masks.{IsMask, ranks_of};

    pub(crate) fn of_mask(mask: u16) -> Holding
        requires { IsMask mask }
        ensures { result ≡ ranks_of mask }
    {
        Holding { mask }
    }

    /// No ranks.
    pub fn new() -> Holding
        ensures { result ≡ [] }
    {
        Holding { mask: 0 }
    }

    /// The mask of the ranks: bit r, counted from 0, stands for the rank r (DDS).
    pub fn mask(self) -> u16
        ensures { result ≡ mask_of self }
    {
        self.mask // stored in this very form
    }

    /// Is the rank in the set?
    pub fn has(self, rank: Rank) -> bool
        ensures { result ≡ has_rank self rank }
    {
        self.mask & (1 << rank.code()) != 0
    }

    /// Has the set no rank?
    pub fn is_empty(self) -> bool
        ensures { IsTrue result ↔ (self ≡ []) }
    {
        self.mask == 0
    }

    /// The number of ranks, 0 to 13.
    pub fn len(self) -> u8
        ensures len { result ≡ length self }
        ensures bound { result ≤ 13 }
    {
        self.mask.count_ones() as u8
    }

    /// The highest rank; None where the set is empty.
    pub fn highest(self) -> Option<Rank>
        ensures { result ≡ slice_get self 0 }
    {
        if self.mask == 0 {
            None
        } else {
            Some(Rank::of(15 - self.mask.leading_zeros() as u8))
        }
    }

    /// Takes the highest rank out. None where no rank is left.
    #[inline]
    pub fn pop_highest(&mut self) -> Option<Rank>
        ensures { MatchOption result ((self.old ≡ []) × (self.new ≡ [])) (λ rank. self.old ≡ rank
            ∷ self.new) }
    {
        // The proof reads here that the ranks fall along the list.
        let _ = &self.mask;
        let highest = self.highest()?;
        *self = self.below(highest);
        Some(highest)
    }

    /// Takes the lowest rank out. None where no rank is left.
    #[inline]
    pub fn pop_lowest(&mut self) -> Option<Rank>
        ensures { MatchOption result ((self.old ≡ []) × (self.new ≡ [])) (λ rank. self.old
            ≡ self.new ++ rank ∷ []) }
    {
        if self.mask == 0 {
            return None;
        }
        let lowest = Rank::of(self.mask.trailing_zeros() as u8);
        self.mask &= self.mask - 1;
        Some(lowest)
    }

    /// The highest rank below this one; None where there is none.
    pub fn next_below(self, rank: Rank) -> Option<Rank>
        ensures { result ≡ find (λ q. nat_lt q rank) self }
    {
        let part = Holding {
            mask: self.mask & ((1 << rank.code()) - 1),
        };
        part.highest()
    }

    /// The lowest rank that is not below this one; None where there is none.
    #[inline]
    pub fn next_from(self, rank: Rank) -> Option<Rank>
        ensures { MatchOption result ((q : ℕ) → has_rank self q ≡ true → q < rank)
            (λ r. (has_rank self r ≡ true) × (rank ≤ r) × ((q : ℕ) → has_rank self q ≡ true
            → rank ≤ q → r ≤ q)) }
    {
        let least = rank.code();
        let part = self.mask >> least;
        if part == 0 {
            None
        } else {
            Some(Rank::of(least + part.trailing_zeros() as u8))
        }
    }

    /// The ranks above this one.
    pub fn above(self, rank: Rank) -> Holding
        ensures { result ≡ filter (λ q. nat_lt rank q) self }
    {
        Holding {
            mask: self.mask & (u16::MAX << (rank.code() + 1)),
        }
    }

    /// The ranks below this one.
    pub fn below(self, rank: Rank) -> Holding
        ensures { result ≡ filter (λ q. nat_lt q rank) self }
    {
        Holding {
            mask: self.mask & ((1u16 << rank.code()) - 1),
        }
    }

    /// The ranks of either set.
    pub fn union(self, other: Holding) -> Holding
        ensures { result ≡ filter (λ q. has_rank self q || has_rank other q) all_ranks }
    {
        Holding {
            mask: self.mask | other.mask,
        }
    }

    /// The ranks of both sets.
    #[inline]
    pub fn intersection(self, other: Holding) -> Holding
        ensures { result ≡ filter (has_rank other) self }
    {
        Holding {
            mask: self.mask & other.mask,
        }
    }

    /// Puts the rank in, and tells whether it was missing.
    pub fn insert(&mut self, rank: Rank) -> bool
        ensures added { self.new ≡ with_rank self.old rank }
        ensures changed { result ≡ not (has_rank self.old rank) }
    {
        let bit = 1u16 << rank.code();
        let absent = self.mask & bit == 0;
        self.mask |= bit;
        absent
    }

    /// Takes the rank out, and tells whether it was there.
    pub fn remove(&mut self, rank: Rank) -> bool
        ensures removed { self.new ≡ filter (λ q. not (q == rank)) self.old }
        ensures changed { result ≡ has_rank self.old rank }
    {
        let bit = 1u16 << rank.code();
        let present = self.mask & bit != 0;
        self.mask &= !bit;
        present
    }
}
