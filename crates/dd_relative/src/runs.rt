//! Runs of cards of one suit with no rank missing.
ghost use Rattle.std.specs.Prelude.{◌≡◌, true, IsTrue};
ghost use Rattle.dd_cards.specs.PlayingCard.{PlayingCard};
ghost use Rattle.dd_cards.specs.Cards.{has_card};
ghost use Rattle.dd_relative.specs.Runs.{heads_of, next_above};

use dd_cards::Hand;

/// The highest card of each run.
#[inline(always)]
pub(crate) fn run_heads(cards: Hand) -> Hand
    ensures { result ≡ heads_of cards }
{
    let mask = cards.mask();
    Hand::of_mask(mask & !(mask >> 1))
}

/// Have the cards no next lower one among `own` but those that are theirs?
#[inline(always)]
pub(crate) fn have_none_below(cards: Hand, own: Hand) -> bool
    ensures { IsTrue result → (c : PlayingCard) → has_card own c ≡ true
        → has_card cards (next_above c) ≡ true → has_card cards c ≡ true }
{
    let mask = cards.mask();
    let next = (mask >> 1) & own.mask();
    next & !mask == 0
}
