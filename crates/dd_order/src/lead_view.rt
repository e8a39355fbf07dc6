//! What the order of leads sees of a start of a trick: by the ranks that the cards have in the deal, or by relative ones.
use crate::lead::{Move, Ruffs, best_by_card, best_by_masks};
use crate::lead_weights::TopTwo;
use dd_cards::{Holding, Rank, Strain, Suit};
use dd_play::Position;
use dd_relative::KnownStart;

/// A start of a trick as the order of leads sees it.
pub(crate) trait LeadView {
    /// The strain.
    fn strain(&self) -> Strain;

    /// The number of tricks left.
    fn tricks_left(&self) -> u8;

    /// The best of these ranks of the suit where what a card is worth is not the same for all of them.
    fn best_by_rank(
        &self,
        suit: Suit,
        ranks: Holding,
        weight: u16,
        ruffs: Ruffs,
        tops: TopTwo,
    ) -> Move;

    /// The rank of this card among the cards left, where the highest of a suit is an ace. Leads of two suits are weighed against each
    /// other, and so their ranks are.
    fn relative_rank(&self, suit: Suit, rank: Rank) -> u16;
}

impl LeadView for Position {
    #[inline(always)]
    fn strain(&self) -> Strain {
        self.strain()
    }

    #[inline(always)]
    fn tricks_left(&self) -> u8 {
        self.tricks_left()
    }

    // Rank by rank, as it is said. Endings alone are searched so, and a caller's own table: the other form is tried beside this one.
    #[inline(always)]
    fn best_by_rank(
        &self,
        suit: Suit,
        ranks: Holding,
        weight: u16,
        ruffs: Ruffs,
        tops: TopTwo,
    ) -> Move {
        best_by_card(self, suit, ranks, weight, ruffs, tops)
    }

    #[inline(always)]
    fn relative_rank(&self, suit: Suit, rank: Rank) -> u16 {
        let higher = self.in_play().holding(suit).above(rank).len();
        14 - higher as u16
    }
}

impl LeadView for KnownStart {
    #[inline(always)]
    fn strain(&self) -> Strain {
        self.start().strain()
    }

    #[inline(always)]
    fn tricks_left(&self) -> u8 {
        self.start().tricks_left()
    }

    #[inline(always)]
    fn best_by_rank(
        &self,
        suit: Suit,
        ranks: Holding,
        weight: u16,
        ruffs: Ruffs,
        tops: TopTwo,
    ) -> Move {
        best_by_masks(self, suit, ranks, weight, ruffs, tops)
    }

    #[inline(always)]
    fn relative_rank(&self, _suit: Suit, rank: Rank) -> u16 {
        rank.code() as u16
    }
}
