//! Which cards are still to try where one by its place has failed.
ghost use Rattle.std.specs.Prelude.{◌≡◌, ◌<◌, ◌⊎◌, true, false, length};
ghost use Rattle.dd_cards.specs.PlayingCard.{PlayingCard};
ghost use Rattle.dd_cards.specs.Cards.{has_card};
ghost use Rattle.dd_play.specs.Reach.{reach};

use dd_cards::{Hand, Place, Suit};
use dd_relative::WinningRanks;

/// Of the cards still to try those that the failure of this one says nothing of: not the card itself, and where its failure rests on
/// higher ones of its suit alone, none of the suit that is lower than these.
#[inline(always)]
pub(crate) fn still_untried(untried: Hand, card: Place, ranks: &WinningRanks) -> Hand
    requires { has_card untried card ≡ true }
    ensures fewer { length result < length untried }
    ensures among { (c : PlayingCard) → has_card result c ≡ true → has_card untried c ≡ true }
    ensures told { (c : PlayingCard) → has_card untried c ≡ true → (has_card result c ≡ true)
        ⊎ ((c ≡ card) ⊎ ((c.suit ≡ card.suit) × (reach ranks.now c ≡ false)
        × (reach ranks.now card ≡ false))) }
{
    // The proof reads here that these are cards of the pack.
    let _real = untried.holding(Suit::Spades);
    let reached = ranks.cards();
    // Both are found, and then one is chosen: a branch would seldom be foreseen.
    let others = untried.without_place(card);
    let lower = untried.of_suit_at(card).difference(reached);
    let higher = untried.difference(lower);
    if reached.has_place(card) {
        others
    } else {
        higher
    }
}
