//! An answer at a start by relative ranks, and the winning ranks that it rests on.
ghost use Rattle.std.specs.Prelude.{◌≡◌};

use dd_cards::Hand;
use dd_relative::WinningRanks;
use std::marker::Model;

/// Whether North and South take so many tricks, and the winning ranks that it rests on: it holds as well where the cards below these
/// are others.
// One word, so that it is returned in registers beside a halt: the cards' mask, and in the lowest bit, which no card has,
// whether they do.
#[derive(Drop)]
pub(crate) struct RankVerdict {
    bits: u64,
}

impl Model for RankVerdict {
    ghost use Rattle.std.specs.Prelude.{ℕ, ◌*◌, ◌/◌, ◌%◌, nat_eq};
    ghost use Rattle.dd_cards.specs.HandMasks.{cards_of, IsHandMask};
    ghost use Rattle.dd_relative.specs.WinningRanks.{AreTop};
    ghost use Rattle.dd_search.specs.ClaimsBy.{AnswerBy};

    ghost Value = { AnswerBy };

    ghost view = { λ a. record { yes = nat_eq (a.bits % 2) 1; cards = cards_of (a.bits / 2 * 2) } };

    ghost invariant = { λ a. IsHandMask (a.bits / 2 * 2) × AreTop (cards_of (a.bits / 2 * 2)) };
}

impl RankVerdict {
    #[inline(always)]
    pub(crate) fn new(yes: bool, ranks: &WinningRanks) -> RankVerdict
        ensures { result ≡ record { yes = yes; cards = ranks.now } }
    {
        let cards = ranks.cards();
        let said = if yes { 1 } else { 0 };
        RankVerdict {
            bits: cards.mask() + said,
        }
    }

    /// Do they take so many?
    #[inline(always)]
    pub(crate) fn is_yes(&self) -> bool
        ensures { result ≡ self.now.yes }
    {
        self.bits % 2 == 1
    }

    /// The winning ranks that it rests on.
    #[inline(always)]
    pub(crate) fn ranks(&self) -> WinningRanks
        ensures { result ≡ self.now.cards }
    {
        WinningRanks::of(Hand::of_mask(self.bits / 2 * 2))
    }
}
