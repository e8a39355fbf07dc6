ghost use Rattle.std.specs.Prelude.{◌≡◌, ◌∷◌, [], ◌+◌, ◌^◌, ◌/◌, ◌<◌, ◌≤◌, ◌↔◌, ◌⊎◌, ◌||◌, ◌&&◌, true, bit_and, bit_or, count_ones, IsTrue, MatchOption, map, filter, length, nat_le, nat_lt, if◌then◌else◌};
ghost use mathlib.Core.Bool.{not};
ghost use Rattle.dd_cards.specs.PlayingCard.{PlayingCard};
ghost use Rattle.dd_cards.specs.Ranks.{IsRank};
ghost use Rattle.dd_cards.specs.Cards.{is_of, card_of, has_card, with_card, without, deck};
ghost use Rattle.dd_cards.specs.HandMasks.{cards_of, in_hand, IsHandMask};
ghost use Rattle.dd_cards.specs.Sequences.{is_above, is_headed, heads};

use crate::card::Card;
use crate::holding::Holding;
use crate::place::Place;
use crate::rank::Rank;
use crate::suit::Suit;
use std::marker::Model;

// The bits of all cards.
const PACK: u64 = 0x7ffc_7ffc_7ffc_7ffc;

/// A set of cards, seen as their list: suit by suit from the spades on, and in a suit from the highest card down.
// 64 bits, sixteen for each suit, the spades on top, so that the bits from the top are the cards in order.
#[derive(Clone, Copy, Debug, PartialEq, Eq, Hash)]
pub struct Hand {
    mask: u64,
}

impl Model for Hand {
    ghost use Rattle.std.specs.Prelude.{List};
    ghost use Rattle.dd_cards.specs.PlayingCard.{PlayingCard};
    ghost use Rattle.dd_cards.specs.HandMasks.{cards_of, IsHandMask, hand_mask_of};
    ghost use Rattle.dd_cards.specs.HandMaskLaws.{hand_mask_of-cards_of};

    ghost Value = { List PlayingCard };

    ghost view = { λ h. cards_of h.mask };

    ghost invariant = { λ h. IsHandMask h.mask };

    ghost inverse = { λ cards. record { mask = hand_mask_of cards } };

    ghost inverse_ok = { λ h valid. hand_mask_of-cards_of h valid };
}

impl Hand {
    /// The cards of a mask: sixteen bits for each suit, the spades on top, and in them bit r for the rank r.
    pub fn of_mask(mask: u64) -> Hand
        requires { IsHandMask mask }
        ensures { result ≡ cards_of mask }
    {
        Hand { mask }
    }

    /// No cards.
    #[inline]
    pub fn new() -> Hand
        ensures { result ≡ [] }
    {
        Hand { mask: 0 }
    }

    /// Is there no card?
    pub fn is_empty(&self) -> bool
        ensures { IsTrue result ↔ (self.now ≡ []) }
    {
        self.mask == 0
    }

    /// The number of cards, 0 to 52.
    pub fn len(&self) -> u8
        ensures { result ≡ length self.now }
    {
        self.mask.count_ones() as u8
    }

    /// Is the card in the hand?
    pub fn has(&self, card: Card) -> bool
        ensures { result ≡ has_card self.now card }
    {
        self.mask & (1 << card.place()) != 0
    }

    /// The cards of this suit.
    pub fn of_suit(&self, suit: Suit) -> Hand
        ensures { result ≡ filter (is_of suit) self.now }
    {
        Hand {
            mask: self.mask & (0xffff << suit.shift()),
        }
    }

    /// The mask of the cards: sixteen bits for each suit, the spades on top, and in them bit r for the rank r.
    #[inline]
    pub fn mask(self) -> u64
        ensures cards { cards_of result ≡ self }
        ensures mask { IsHandMask result }
    {
        self.mask // stored in this very form
    }

    /// The ranks of this suit.
    #[inline]
    pub fn holding(self, suit: Suit) -> Holding
        ensures ranks { map (card_of suit) result ≡ filter (is_of suit) self }
        ensures real { (c : PlayingCard) → has_card self c ≡ true → IsRank c.rank }
    {
        let lane = self.mask >> suit.shift();
        Holding::of_mask((lane & 0x7ffc) as u16)
    }

    /// The cards of either hand.
    #[inline]
    pub fn union(self, other: Hand) -> Hand
        ensures cards { result ≡ filter (λ c. has_card self c || has_card other c) deck }
        ensures left { (c : PlayingCard) → has_card self c ≡ true → has_card result c ≡ true }
        ensures right { (c : PlayingCard) → has_card other c ≡ true → has_card result c ≡ true }
    {
        Hand {
            mask: self.mask | other.mask,
        }
    }

    /// These cards and this one.
    #[inline]
    pub fn with(self, card: Card) -> Hand
        ensures { result ≡ with_card self card }
    {
        Hand {
            mask: self.mask | 1 << card.place(),
        }
    }

    /// These cards, and this one if it is wanted.
    #[inline]
    pub fn with_if(self, card: Card, wanted: bool) -> Hand
        ensures cards { result ≡ (if wanted then with_card self card else self) }
        ensures real { IsRank card.rank }
    {
        let bit = if wanted { 1u64 } else { 0 };
        Hand {
            mask: self.mask | bit << card.place(),
        }
    }

    /// These cards but those of the other set.
    #[inline]
    pub fn difference(self, other: Hand) -> Hand
        ensures { result ≡ filter (λ c. not (has_card other c)) self }
    {
        Hand {
            mask: self.mask & !other.mask,
        }
    }

    /// These cards but this one.
    #[inline]
    pub fn without(self, card: Card) -> Hand
        ensures { result ≡ without self card }
    {
        Hand {
            mask: self.mask & !(1 << card.place()),
        }
    }

    /// These cards but those of this suit.
    #[inline]
    pub fn without_suit(self, suit: Suit) -> Hand
        ensures { result ≡ filter (λ c. not (is_of suit c)) self }
    {
        Hand {
            mask: self.mask & !(0xffff << suit.shift()),
        }
    }

    /// These cards but those of this suit that are lower than this rank.
    #[inline]
    pub fn without_below(self, suit: Suit, rank: Rank) -> Hand
        ensures { result ≡ filter (λ c. not (is_of suit c && nat_lt c.rank rank)) self }
    {
        let shift = suit.shift();
        Hand {
            mask: self.mask & !((1 << (shift + rank.code())) - (1 << shift)),
        }
    }

    /// The highest card of each sequence: of these cards those that have no other above them in their suit with none of the others
    /// between.
    #[inline]
    pub fn heads(self, others: Hand) -> Hand
        ensures { result ≡ heads self others }
    {
        Hand {
            mask: self.mask & !places_below(self.mask, others.mask),
        }
    }

    /// Of these cards those that have one of `tops` above them in their suit with none of the others between.
    #[inline]
    pub fn headed(self, tops: Hand, others: Hand) -> Hand
        ensures { result ≡ filter (is_headed tops others) self }
    {
        Hand {
            mask: self.mask & places_below(tops.mask, others.mask),
        }
    }

    /// The card of this suit that has so many cards of the suit from it on up, itself included: as a set, which is empty for
    /// none and for more than there are.
    #[inline]
    pub fn at_depth(self, suit: Suit, depth: u8) -> Hand
        ensures card { (c : PlayingCard) → has_card result c ≡ true → (has_card self c ≡ true)
            × (c.suit ≡ suit) × (length (filter (is_above c) self) + 1 ≡ depth) }
        ensures some { 1 ≤ depth → depth ≤ length (filter (is_of suit) self) → (c : PlayingCard)
            × (has_card result c ≡ true) }
    {
        let shift = suit.shift();
        let place = place_from_top((self.mask >> shift) & 0x7ffc, depth);
        Hand {
            mask: self.mask & (1 << (shift + place)),
        }
    }

    /// Takes the first card out: the highest of the first suit. None where no card is left.
    pub fn pop_first(&mut self) -> Option<Card>
        ensures { MatchOption result ((self.old ≡ []) × (self.new ≡ [])) (λ card. self.old ≡ card
            ∷ self.new) }
    {
        if self.mask == 0 {
            return None;
        }
        let place = 63 - self.mask.leading_zeros() as u8;
        self.mask &= !(1 << place);
        Some(Card::at(place))
    }
}

// The same by the places of cards, which are known at once where a card's suit and rank would have to be put together.
impl Hand {
    /// Is the card of this place in the hand?
    #[inline(always)]
    pub fn has_place(self, place: Place) -> bool
        ensures { result ≡ has_card self place }
    {
        self.mask & (1 << place.number()) != 0
    }

    /// These cards and the one of this place.
    #[inline(always)]
    pub fn with_place(self, place: Place) -> Hand
        ensures { result ≡ with_card self place }
    {
        Hand {
            mask: self.mask | 1 << place.number(),
        }
    }

    /// These cards but the one of this place.
    #[inline(always)]
    pub fn without_place(self, place: Place) -> Hand
        ensures { result ≡ without self place }
    {
        Hand {
            mask: self.mask & !(1 << place.number()),
        }
    }

    /// The cards of this place's suit.
    #[inline(always)]
    pub fn of_suit_at(self, place: Place) -> Hand
        ensures { result ≡ filter (is_of place.suit) self }
    {
        Hand {
            mask: self.mask & (0xffff << place.shift()),
        }
    }

    /// Of all cards those of this place's suit from the ace down to its own.
    #[inline(always)]
    pub fn down_to(place: Place) -> Hand
        ensures { result
            ≡ filter (λ c. is_of place.suit c && not (nat_lt c.rank place.rank)) deck }
    {
        // up to the bit over the ace's
        Hand {
            mask: (1 << (place.shift() + 15)) - (1 << place.number()),
        }
    }

    /// Takes the first card out: the highest of the first suit. None where no card is left.
    #[inline(always)]
    pub fn take_first(&mut self) -> Option<Place>
        ensures { MatchOption result ((self.old ≡ []) × (self.new ≡ [])) (λ card. self.old ≡ card
            ∷ self.new) }
    {
        if self.mask == 0 {
            return None;
        }
        let number = 63 - self.mask.leading_zeros() as u8;
        self.mask &= !(1 << number);
        Some(Place::at(number))
    }

    /// The card of the lowest bit: the lowest of the last suit. None where there is no card.
    #[inline(always)]
    pub fn lowest_place(self) -> Option<Place>
        ensures { MatchOption result (self ≡ []) (λ card. has_card self card ≡ true) }
    {
        if self.mask == 0 {
            return None;
        }
        Some(Place::at(self.mask.trailing_zeros() as u8))
    }

    /// The card of the highest bit: the highest of the first suit. None where there is no card.
    #[inline(always)]
    pub fn highest_place(self) -> Option<Place>
        ensures { MatchOption result (self ≡ []) (λ card. has_card self card ≡ true) }
    {
        if self.mask == 0 {
            return None;
        }
        Some(Place::at(63 - self.mask.leading_zeros() as u8))
    }

    /// Of these cards those whose bits the mask has. It may have others.
    #[inline(always)]
    pub fn among(self, mask: u64) -> Hand
        ensures { (c : PlayingCard) → has_card result c ≡ true → has_card self c ≡ true }
    {
        Hand {
            mask: self.mask & mask,
        }
    }
}

// The places below one of `tops` with none of the others between. What is below spreads down over places without another,
// each time twice as far.
#[inline]
fn places_below(tops: u64, others: u64) -> u64
    requires { IsHandMask tops }
    ensures { (c : PlayingCard) → IsRank c.rank → in_hand result c ≡ is_headed (cards_of tops)
        (cards_of others) c }
{
    let free = PACK & !others;
    let (below, clear) = spread(tops >> 1, free >> 1, 1);
    let (below, clear) = spread(below, clear, 2);
    let (below, clear) = spread(below, clear, 4);
    spread(below, clear, 8).0
}

// The places below, and those so many places further down with free places alone above them; and the places with free places alone twice
// as far above them.
#[inline]
fn spread(below: u64, clear: u64, places: u8) -> (u64, u64)
    requires { places < 64 }
    ensures below { result.0 ≡ bit_or below (bit_and clear (below / 2 ^ places)) }
    ensures clear { result.1 ≡ bit_and clear (clear / 2 ^ places) }
{
    (below | clear & (below >> places), clear & (clear >> places))
}

// The highest of sixteen places from which on up so many bits are set, and 0 where there are fewer. Half of the places that are
// left go at each step, by choice and not by a branch, which nobody could foresee.
#[inline]
fn place_from_top(bits: u64, count: u8) -> u8
    ensures bound { result ≤ 15 }
    ensures low { (count ≤ count_ones (bits / 2 ^ result)) ⊎ (result ≡ 0) }
    ensures high { (count_ones (bits / 2 ^ (result + 1)) < count) ⊎ (result ≡ 15) }
{
    let (rest, place) = shifted_on(bits, 0, 8, count);
    let (rest, place) = shifted_on(rest, place, 4, count);
    let (rest, place) = shifted_on(rest, place, 2, count);
    shifted_on(rest, place, 1, count).1
}

// The bits shifted by so many places more, and the places shifted in all, where as many as `count` are left then; else as they
// were.
#[inline]
fn shifted_on(bits: u64, place: u8, more: u8, count: u8) -> (u64, u8)
    requires { place + more ≤ 15 }
    ensures bits { result.0 ≡ (if nat_le count (count_ones (bits / 2 ^ more)) then bits / 2 ^ more
        else bits) }
    ensures place { result.1 ≡ (if nat_le count (count_ones (bits / 2 ^ more)) then place + more else
        place) }
{
    let rest = bits >> more;
    if count <= rest.count_ones() as u8 {
        (rest, place + more)
    } else {
        (bits, place)
    }
}
