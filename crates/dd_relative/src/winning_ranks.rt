//! The cards on which an answer rests: of each suit some of the highest.
ghost use Rattle.std.specs.Prelude.{◌≡◌, ◌≤◌, ◌&&◌, ◌||◌, ◌∷◌, [], List, true, filter, nat_lt};
ghost use mathlib.Core.Bool.{not};
ghost use Rattle.dd_cards.specs.PlayingCard.{PlayingCard};
ghost use Rattle.dd_cards.specs.declared.strain.Strain.{Strain as StrainOf};
ghost use Rattle.dd_cards.specs.Cards.{deck, has_card, is_of};
ghost use Rattle.dd_cards.specs.Ranks.{IsRank};
ghost use Rattle.dd_cards.specs.declared.suit.Suit.{Suit as SuitOf};
ghost use Rattle.dd_play.specs.Covers.{count_of};
ghost use Rattle.dd_play.specs.Reach.{reach};
ghost use Rattle.dd_rank.specs.Depths.{all_cards, depth_in, depths_of};
ghost use Rattle.dd_relative.specs.Gapped.{IsGapped};
ghost use Rattle.dd_relative.specs.Relative.{led_by_north};
ghost use Rattle.dd_relative.specs.WinningRanks.{AreTop, AreOpened, with_next};

use crate::gap::raised;
use crate::relative_start::{RelativeStart, pack};
use dd_cards::{Card, Hand, Place};
use dd_rank::Depths;
use std::marker::Model;

// The bits of all cards.
const PACK: u64 = 0x7ffc_7ffc_7ffc_7ffc;

// The bit above each suit's ace.
const GUARDS: u64 = 0x8000_8000_8000_8000;

/// Of each suit some of the highest cards: with a card each higher one of its suit.
#[derive(Drop)]
pub struct WinningRanks {
    cards: Hand,
}

impl Model for WinningRanks {
    ghost use Rattle.std.specs.Prelude.{List};
    ghost use Rattle.dd_cards.specs.PlayingCard.{PlayingCard};
    ghost use Rattle.dd_relative.specs.WinningRanks.{AreTop};

    ghost Value = { List PlayingCard };

    ghost view = { λ w. w.cards };

    ghost invariant = { λ w. AreTop w.cards };
}

impl WinningRanks {
    /// No card.
    #[inline(always)]
    pub fn new() -> WinningRanks
        ensures { result ≡ [] }
    {
        WinningRanks { cards: Hand::new() }
    }

    /// These top cards.
    #[inline(always)]
    pub fn of(cards: Hand) -> WinningRanks
        requires { AreTop cards }
        ensures { result ≡ cards }
    {
        WinningRanks { cards }
    }

    /// These cards and all higher ones of their suits.
    // A suit's bits, taken from the bit above its ace's, are all others above the lowest, and that one.
    #[inline(always)]
    pub fn reaching(cards: Hand) -> WinningRanks
        ensures { (c : PlayingCard) → has_card cards c ≡ true → has_card result c ≡ true }
    {
        let mask = cards.mask();
        WinningRanks {
            cards: Hand::of_mask((mask | (GUARDS - mask)) & PACK),
        }
    }

    /// The highest cards of these depths at a start.
    #[inline(always)]
    pub fn of_depths(start: &RelativeStart, depths: Depths) -> WinningRanks
        requires { (u : SuitOf) → depth_in depths u ≤ count_of u (all_cards start.now) }
        ensures depths { (u : SuitOf) → depth_in depths u ≤ depths_of (reach result) start.now u }
        ensures real { (c : PlayingCard) → has_card result c ≡ true → IsRank c.rank }
    {
        // The proof reads here that the cards left of a suit are its highest.
        let _start = start.as_trick_start();
        WinningRanks {
            cards: depths.top_ranks(),
        }
    }

    /// The depths of the cards at a start: how many of the cards left are one of them or higher than one.
    #[inline(always)]
    pub fn depths(&self, start: &RelativeStart) -> Depths
        ensures depths { (u : SuitOf) → depth_in result u ≡ depths_of (reach self.now) start.now u }
        ensures within { (u : SuitOf) → depth_in result u ≤ count_of u (all_cards start.now) }
        ensures real { (c : PlayingCard) → has_card self.now c ≡ true → IsRank c.rank }
    {
        Depths::of_highest(start.as_trick_start(), self.cards)
    }

    /// A card and all higher ones of its suit.
    #[inline(always)]
    pub fn down_to(card: Card) -> WinningRanks
        ensures { result ≡ filter (λ c. is_of card.suit c && not (nat_lt c.rank card.rank)) deck }
    {
        let suit = pack().of_suit(card.suit);
        WinningRanks {
            cards: suit.without_below(card.suit, card.rank),
        }
    }

    /// The same of a card by its place.
    #[inline(always)]
    pub fn down_to_place(place: Place) -> WinningRanks
        ensures cards { result
            ≡ filter (λ c. is_of place.suit c && not (nat_lt c.rank place.rank)) deck }
        ensures itself { has_card result place ≡ true }
    {
        // The proof reads here that it is a card of the pack.
        let _number = place.number();
        WinningRanks {
            cards: Hand::down_to(place),
        }
    }

    /// The cards, as a set.
    #[inline(always)]
    pub fn cards(&self) -> Hand
        ensures cards { result ≡ self.now }
        ensures top { AreTop self.now }
    {
        self.cards
    }

    /// An equal one.
    #[inline(always)]
    pub fn copy(&self) -> WinningRanks
        ensures { result ≡ self.now }
    {
        WinningRanks { cards: self.cards }
    }

    /// The cards of both.
    #[inline(always)]
    pub fn union(&self, other: &WinningRanks) -> WinningRanks
        ensures { result ≡ filter (λ c. has_card self.now c || has_card other.now c) deck }
    {
        WinningRanks {
            cards: self.cards.union(other.cards),
        }
    }

    /// The cards of both, told as two sets that are within it.
    #[inline(always)]
    pub fn with_all(&self, other: &WinningRanks) -> WinningRanks
        ensures left { (c : PlayingCard) → has_card self.now c ≡ true → has_card result c ≡ true }
        ensures right { (c : PlayingCard) → has_card other.now c ≡ true → has_card result c ≡ true }
    {
        WinningRanks {
            cards: self.cards.union(other.cards),
        }
    }

    /// With these cards too, which are top cards together.
    #[inline(always)]
    pub(crate) fn with(&self, more: Hand) -> WinningRanks
        requires { AreTop (filter (λ c. has_card self.now c || has_card more c) deck) }
        ensures { result ≡ filter (λ c. has_card self.now c || has_card more c) deck }
    {
        WinningRanks {
            cards: self.cards.union(more),
        }
    }

    // With the next lower card of its suit, where they reach this card.
    #[inline(always)]
    fn joined(&self, gap: Place) -> WinningRanks
        ensures cards { result ≡ with_next gap self.now }
        ensures top { AreTop self.now }
    {
        WinningRanks {
            cards: with_next(self.cards, gap),
        }
    }
}

/// These winning ranks as they stand before the four gaps that a trick leaves were closed, which may come in any order.
#[inline(always)]
pub(crate) fn before_trick(
    later: &WinningRanks,
    a: Place,
    b: Place,
    c: Place,
    d: Place,
) -> WinningRanks
    ensures { (l s t f : List PlayingCard) (strain : StrainOf)
        → IsGapped (led_by_north l s t f strain) (a ∷ b ∷ c ∷ d ∷ [])
        → AreOpened (led_by_north l s t f strain) later.now result }
{
    let b_now = raised(b, a);
    let c_now = raised(c, a);
    let d_now = raised(d, a);
    let c_next = raised(c_now, b_now);
    let d_next = raised(d_now, b_now);
    let d_last = raised(d_next, c_next);
    later.joined(d_last).joined(c_next).joined(b_now).joined(a)
}

// These top cards and, where the gap is one of them, the next lower one of its suit.
// Where it is none, no card of its suit stands below it: so nothing is asked.
#[inline(always)]
fn with_next(cards: Hand, gap: Place) -> Hand
    requires { AreTop cards }
    ensures { result ≡ with_next gap cards }
{
    let mask = cards.mask();
    Hand::of_mask(mask | (mask >> 1) & gap.places_below() & PACK)
}
