//! Who holds the cards that are left, as one number a suit.

ghost use Rattle.std.specs.Prelude.{◌≡◌, ◌≤◌, true};
ghost use Rattle.dd_cards.specs.PlayingCard.{PlayingCard};
ghost use Rattle.dd_cards.specs.declared.seat.Seat.TheVariants.{North};
ghost use Rattle.dd_cards.specs.Cards.{has_card};
ghost use Rattle.dd_rank.specs.Depths.{all_cards};
ghost use Rattle.dd_rank.specs.Strings.{strings_of, shape_of, shape_in, hash_in, outline_number_in, same_strings, same-strings, same-strings-partial, string_in};

use crate::lanes::OwnerPlanes;
use crate::shape::{Shape, mix};
use dd_cards::{Seat, Suit};
use dd_play::TrickStart;
use std::marker::Model;

/// The owner strings of a start of a trick: its strain, the lengths of the hands' suits, and for each suit the holders of
/// the cards that are left from the highest down, with the seats counted from the leader.
// They stand as places: so they are found and compared four suits at once.
#[derive(Debug, Drop)]
pub struct OwnerStrings {
    shape: Shape,
    pub(crate) places: OwnerPlanes,
}

impl Model for OwnerStrings {
    ghost use Rattle.dd_cards.specs.declared.suit.Suit.TheVariants.{Spades, Hearts, Diamonds, Clubs};
    ghost use Rattle.dd_cards.specs.Ranks.{all_ranks};
    ghost use Rattle.dd_rank.specs.Lanes.{lane, places_of};
    ghost use Rattle.dd_rank.specs.Strings.{Strings};

    ghost Value = { Strings };

    ghost view = { λ s. record {
      strain = s.shape.strain;
      lengths = s.shape.lengths;
      spades = places_of (lane s.places.odd Spades) (lane s.places.far Spades) all_ranks;
      hearts = places_of (lane s.places.odd Hearts) (lane s.places.far Hearts) all_ranks;
      diamonds = places_of (lane s.places.odd Diamonds) (lane s.places.far Diamonds) all_ranks;
      clubs = places_of (lane s.places.odd Clubs) (lane s.places.far Clubs) all_ranks;
    } };
}

impl PartialEq for OwnerStrings {
    ghost eq = { same_strings };

    ghost laws = { same-strings-partial };

    #[inline]
    fn eq(&self, other: &OwnerStrings) -> bool {
        self.shape == other.shape
            && self.suit(Suit::Spades) == other.suit(Suit::Spades)
            && self.suit(Suit::Hearts) == other.suit(Suit::Hearts)
            && self.suit(Suit::Diamonds) == other.suit(Suit::Diamonds)
            && self.suit(Suit::Clubs) == other.suit(Suit::Clubs)
    }
}

impl Eq for OwnerStrings {
    ghost laws = { same-strings };
}

impl OwnerStrings {
    /// The owner strings of a start of a trick.
    #[inline]
    pub fn of(start: &TrickStart) -> OwnerStrings
        ensures { result ≡ strings_of start.now }
    {
        OwnerStrings::with_shape(start, Shape::of(start))
    }

    /// The same, where its shape is known.
    pub fn with_shape(start: &TrickStart, shape: Shape) -> OwnerStrings
        requires { shape ≡ shape_of start.now }
        ensures { result ≡ strings_of start.now }
    {
        let position = start.position();
        let hands = position.hands();
        let first_seat = position.first();
        let second_seat = first_seat.next();
        let third_seat = second_seat.next();
        let fourth_seat = third_seat.next();
        let leader = hands.hand(first_seat);
        let second = hands.hand(second_seat);
        let third = hands.hand(third_seat);
        let fourth = hands.hand(fourth_seat);
        let odd = second.union(fourth);
        let far = third.union(fourth);
        let left = leader.union(third).union(odd);
        OwnerStrings {
            shape,
            places: OwnerPlanes::close_up(odd.mask(), far.mask(), !left.mask()),
        }
    }

    /// The owner strings of a start of a trick that North leads to, and whose suits have no gaps; its shape is known.
    // No card is gone above another that is left, so the cards stand at their places.
    #[inline(always)]
    pub fn of_closed_up(start: &TrickStart, shape: Shape) -> OwnerStrings
        requires shape { shape ≡ shape_of start.now }
        requires leader { start.now.first ≡ North }
        requires closed { (c d : PlayingCard) → has_card (all_cards start.now) c ≡ true → d.suit ≡ c.suit
            → c.rank ≤ d.rank → d.rank ≤ 14 → has_card (all_cards start.now) d ≡ true }
        ensures { result ≡ strings_of start.now }
    {
        let position = start.position();
        let hands = position.hands();
        let second = hands.hand(Seat::East);
        let third = hands.hand(Seat::South);
        let fourth = hands.hand(Seat::West);
        let odd = second.union(fourth);
        let far = third.union(fourth);
        OwnerStrings {
            shape,
            places: OwnerPlanes {
                odd: odd.mask(),
                far: far.mask(),
            },
        }
    }

    /// The shape that the strings tell.
    #[inline]
    pub fn shape(&self) -> Shape
        ensures { result ≡ shape_in self.now }
    {
        self.shape
    }

    /// A number of 64 bits that strings are spread over: equal for equal strings.
    #[inline]
    pub fn hash_code(&self) -> u64
        ensures { result ≡ hash_in self.now }
    {
        let majors = self.suit(Suit::Spades) as u64
            + self.suit(Suit::Hearts) as u64 * 0x1_0000_0000;
        let minors = self.suit(Suit::Diamonds) as u64
            + self.suit(Suit::Clubs) as u64 * 0x1_0000_0000;
        mix(mix(self.shape.hash_code(), majors), minors)
    }

    /// A number of 64 bits over which outlines are spread: a strain, the leader's number of cards of each suit, and the holder
    /// of the highest card of each suit.
    #[inline]
    pub fn outline_number(&self) -> u64
        ensures { result ≡ outline_number_in self.now }
    {
        self.shape.outline_number(self.places.highest())
    }

    /// An equal one.
    #[inline]
    pub fn copy(&self) -> OwnerStrings
        ensures { result ≡ self.now }
    {
        OwnerStrings {
            shape: self.shape,
            places: self.places,
        }
    }

    /// The owners of a suit: two bits for each card that is left, the highest card's the lowest.
    #[inline]
    pub(crate) fn suit(&self, suit: Suit) -> u32
        ensures { result ≡ string_in self.now suit }
    {
        self.places.owners(suit)
    }
}
