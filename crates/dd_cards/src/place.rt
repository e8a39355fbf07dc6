ghost use Rattle.std.specs.Prelude.{◌≡◌, ◌+◌, ◌-◌, ◌^◌, ◌<◌, ◌≤◌};
ghost use Rattle.dd_cards.specs.PlayingCard.{PlayingCard};
ghost use Rattle.dd_cards.specs.Ranks.{IsRank};
ghost use Rattle.dd_cards.specs.Suits.{suit_shift};
ghost use Rattle.dd_cards.specs.Cards.{is_of, card_of, place_of};
ghost use Rattle.dd_cards.specs.Places.{IsPlace, at_place};

use crate::card::Card;
use crate::suit::Suit;
use std::marker::Model;

// For each number of a bit, the bits of its suit below it.
static BELOW: [u64; 64] = [
    0x0000_0000_0000_0000,
    0x0000_0000_0000_0001,
    0x0000_0000_0000_0003,
    0x0000_0000_0000_0007,
    0x0000_0000_0000_000F,
    0x0000_0000_0000_001F,
    0x0000_0000_0000_003F,
    0x0000_0000_0000_007F,
    0x0000_0000_0000_00FF,
    0x0000_0000_0000_01FF,
    0x0000_0000_0000_03FF,
    0x0000_0000_0000_07FF,
    0x0000_0000_0000_0FFF,
    0x0000_0000_0000_1FFF,
    0x0000_0000_0000_3FFF,
    0x0000_0000_0000_7FFF,
    0x0000_0000_0000_0000,
    0x0000_0000_0001_0000,
    0x0000_0000_0003_0000,
    0x0000_0000_0007_0000,
    0x0000_0000_000F_0000,
    0x0000_0000_001F_0000,
    0x0000_0000_003F_0000,
    0x0000_0000_007F_0000,
    0x0000_0000_00FF_0000,
    0x0000_0000_01FF_0000,
    0x0000_0000_03FF_0000,
    0x0000_0000_07FF_0000,
    0x0000_0000_0FFF_0000,
    0x0000_0000_1FFF_0000,
    0x0000_0000_3FFF_0000,
    0x0000_0000_7FFF_0000,
    0x0000_0000_0000_0000,
    0x0000_0001_0000_0000,
    0x0000_0003_0000_0000,
    0x0000_0007_0000_0000,
    0x0000_000F_0000_0000,
    0x0000_001F_0000_0000,
    0x0000_003F_0000_0000,
    0x0000_007F_0000_0000,
    0x0000_00FF_0000_0000,
    0x0000_01FF_0000_0000,
    0x0000_03FF_0000_0000,
    0x0000_07FF_0000_0000,
    0x0000_0FFF_0000_0000,
    0x0000_1FFF_0000_0000,
    0x0000_3FFF_0000_0000,
    0x0000_7FFF_0000_0000,
    0x0000_0000_0000_0000,
    0x0001_0000_0000_0000,
    0x0003_0000_0000_0000,
    0x0007_0000_0000_0000,
    0x000F_0000_0000_0000,
    0x001F_0000_0000_0000,
    0x003F_0000_0000_0000,
    0x007F_0000_0000_0000,
    0x00FF_0000_0000_0000,
    0x01FF_0000_0000_0000,
    0x03FF_0000_0000_0000,
    0x07FF_0000_0000_0000,
    0x0FFF_0000_0000_0000,
    0x1FFF_0000_0000_0000,
    0x3FFF_0000_0000_0000,
    0x7FFF_0000_0000_0000,
];

/// A card by the number of its bit in the mask of a hand: 16 times the suit's lane, clubs 0 to spades 3, and the rank.
#[derive(Clone, Copy, Debug)]
pub struct Place {
    at: u8,
}

impl Model for Place {
    ghost use Rattle.dd_cards.specs.PlayingCard.{PlayingCard};
    ghost use Rattle.dd_cards.specs.Cards.{place_of};
    ghost use Rattle.dd_cards.specs.Places.{IsPlace, at_place};
    ghost use Rattle.dd_cards.specs.PlaceLaws.{place_of-inside};

    ghost Value = { PlayingCard };

    ghost view = { λ p. at_place p.at };

    ghost invariant = { λ p. IsPlace p.at };

    ghost inverse = { λ card. record { at = place_of card } };

    ghost inverse_ok = { λ p valid. place_of-inside p valid };
}

impl Place {
    /// The place of a card.
    #[inline(always)]
    pub fn of(card: Card) -> Place
        ensures card { result ≡ card }
        ensures real { IsRank card.rank }
    {
        Place { at: card.place() }
    }

    // The place of this number.
    #[inline(always)]
    pub(crate) fn at(number: u8) -> Place
        requires { IsPlace number }
        ensures { result ≡ at_place number }
    {
        Place { at: number }
    }

    /// The card at this place.
    #[inline(always)]
    pub fn card(self) -> Card
        ensures card { result ≡ self }
        ensures real { IsRank self.rank }
    {
        Card::at(self.at)
    }

    /// The card's suit.
    #[inline(always)]
    pub fn suit(self) -> Suit
        ensures { result ≡ self.suit }
    {
        Suit::of_lane(self.at / 16)
    }

    /// The number of the bit, 2 to 62.
    #[inline(always)]
    pub fn number(self) -> u8
        ensures value { result ≡ place_of self }
        ensures bound { result < 64 }
        ensures real { IsRank self.rank }
    {
        self.at
    }

    /// The card so many ranks higher.
    #[inline(always)]
    pub fn higher_by(self, ranks: u8) -> Place
        requires { self.rank + ranks ≤ 14 }
        ensures { result ≡ card_of self.suit (self.rank + ranks) }
    {
        Place {
            at: self.at + ranks,
        }
    }

    // The lowest of the suit's sixteen bits.
    #[inline(always)]
    pub(crate) fn shift(self) -> u8
        ensures value { result ≡ suit_shift self.suit }
        ensures bound { result ≤ 48 }
    {
        self.at - self.at % 16
    }

    /// Is it of the other card's suit?
    #[inline(always)]
    pub fn follows(self, other: Place) -> bool
        ensures { result ≡ is_of other.suit self }
    {
        self.at / 16 == other.at / 16
    }

    /// The bits of the suit below this one, as a mask.
    #[inline(always)]
    pub fn places_below(self) -> u64
        ensures value { result ≡ 2 ^ place_of self - 2 ^ suit_shift self.suit }
        ensures real { IsRank self.rank }
    {
        BELOW[self.number() as usize]
    }
}
