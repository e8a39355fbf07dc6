ghost use Rattle.std.specs.Prelude.{◌≡◌, ◌<◌, ◌≤◌, ◌%◌, ◌↔◌, IsSome, IfSome};
ghost use Rattle.dd_cards.specs.declared.suit.Suit.TheVariants.{Spades};
ghost use Rattle.dd_cards.specs.Ranks.{IsRank};
ghost use Rattle.dd_cards.specs.Cards.{card_code, IsCardCode, card_of, place_of};

use crate::rank::Rank;
use crate::suit::Suit;
use std::marker::Model;

/// One of the 52 cards (Laws of Duplicate Bridge 2017, Law 1).
#[derive(Clone, Copy, Debug, PartialEq, Eq)]
pub struct Card {
    pub suit: Suit,
    pub rank: Rank,
}

impl Model for Card {
    ghost use Rattle.dd_cards.specs.PlayingCard.{PlayingCard};

    ghost Value = { PlayingCard };

    ghost view = { λ c. record { suit = c.suit; rank = c.rank } };

    ghost inverse = { λ v. record { suit = v.suit; rank = v.rank } };
}

impl Default for Card {
    /// The two of spades. It fills the unused places of a list of fixed room.
    fn default() -> Card
        ensures { result ≡ card_of Spades 2 }
    {
        Card {
            suit: Suit::Spades,
            rank: Rank::of(2),
        }
    }
}

impl Card {
    /// The card of a code: 16 times the suit's code plus the rank's. No other byte stands for a card.
    pub fn from_code(code: u8) -> Option<Card>
        ensures valid { IsSome result ↔ IsCardCode code }
        ensures value { IfSome result (λ card. card_code card ≡ code) }
    {
        let suit = Suit::from_code(code / 16)?;
        let rank = Rank::from_code(code % 16)?;
        Some(Card { suit, rank })
    }

    pub(crate) fn at(place: u8) -> Card
        requires { (place < 64) × (2 ≤ place % 16) × (place % 16 ≤ 14) }
        ensures place { place_of result ≡ place }
        ensures rank { (2 ≤ result.rank) × (result.rank ≤ 14) }
    {
        Card {
            suit: Suit::of_lane(place / 16),
            rank: Rank::of(place % 16),
        }
    }

    /// The card's code, 2 to 62: 16 times the suit's code plus the rank's.
    pub fn code(self) -> u8
        ensures value { result ≡ card_code self }
        ensures real { IsRank self.rank }
    {
        16 * self.suit.code() + self.rank.code()
    }

    // The card's bit in a hand.
    pub(crate) fn place(self) -> u8
        ensures value { result ≡ place_of self }
        ensures bound { result < 64 }
        ensures rank { (2 ≤ self.rank) × (self.rank ≤ 14) }
    {
        self.suit.shift() + self.rank.code()
    }
}
