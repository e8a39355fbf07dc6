ghost use Rattle.std.specs.Prelude.{◌≡◌, ◌≤◌, bit_and};
ghost use Rattle.dd_cards.specs.Strains.{strain_code};
ghost use Rattle.std.specs.Hash as fed;
ghost use Rattle.dd_rank.specs.Strings.{fed-shape, mix, hash_of, same-shape, same-shape-partial, same_shape, shape_of};

use crate::lanes::suit_lengths;
use dd_cards::{Strain, Suit};
use dd_play::TrickStart;
use std::hash::{Hash, Hasher};
use std::marker::Model;

/// The strain of a start of a trick, and how many cards of each suit each hand has, with the seats counted from the leader.
// Four bits a length: sixteen bits for each suit, the spades on top, and in them the leader's the lowest.
#[derive(Clone, Copy, Debug)]
pub struct Shape {
    pub(crate) strain: Strain,
    pub(crate) lengths: u64,
}

// The bits of the leader's lengths.
const LEADERS: u64 = 0x000F_000F_000F_000F;

impl Model for Shape {
    ghost use Rattle.dd_rank.specs.Strings.{ShapeOf};

    ghost Value = { ShapeOf };

    ghost view = { λ s. record { strain = s.strain; lengths = s.lengths } };

    ghost inverse = { λ v. record { strain = v.strain; lengths = v.lengths } };
}

impl Shape {
    /// The shape of a start of a trick.
    #[inline]
    pub fn of(start: &TrickStart) -> Shape
        ensures { result ≡ shape_of start.now }
    {
        let position = start.position();
        let hands = position.hands();
        let first_seat = position.first();
        let second_seat = first_seat.next();
        let third_seat = second_seat.next();
        let fourth_seat = third_seat.next();
        let leader = hands.hand(first_seat);
        let second = hands.hand(second_seat);
        let third = hands.hand(third_seat);
        let fourth = hands.hand(fourth_seat);
        let lengths = suit_lengths(leader.mask(), second.mask(), third.mask(), fourth.mask());
        let [leaders, seconds, thirds, fourths] = lengths;
        Shape {
            strain: position.strain(),
            lengths: leaders + seconds * 0x10 + thirds * 0x100 + fourths * 0x1000,
        }
    }

    /// The shape with these lengths: four bits each, sixteen for each suit, the spades on top, and in them the leader's the lowest.
    #[inline]
    pub fn of_lengths(strain: Strain, lengths: u64) -> Shape
        ensures { result ≡ record { strain = strain; lengths = lengths } }
    {
        Shape { strain, lengths }
    }

    #[inline]
    pub fn strain(self) -> Strain
        ensures { result ≡ self.strain }
    {
        self.strain
    }

    /// The lengths as they are handed to `of_lengths`.
    #[inline]
    pub fn lengths(self) -> u64
        ensures { result ≡ self.lengths }
    {
        self.lengths
    }

    /// How many cards of the suit the hand has that is so many places after the leader's.
    // It serves the order of leads: no answer rests on it.
    #[inline]
    pub fn length(self, suit: Suit, places: u8) -> u8
        requires { places ≤ 3 }
        ensures { result ≤ 15 }
    {
        ((self.lengths >> (48 - 16 * suit.code() + 4 * places)) % 16) as u8
    }

    /// A number of 64 bits that shapes are spread over: equal for equal shapes.
    #[inline]
    pub fn hash_code(self) -> u64
        ensures { result ≡ hash_of self }
    {
        mix(mix(0, self.strain.code() as u64), self.lengths)
    }
}

impl Shape {
    /// A number of 64 bits of the strain, the leader's number of cards of each suit and a word.
    #[inline]
    pub(crate) fn outline_number(self, word: u64) -> u64
        ensures { result ≡ mix (mix (strain_code self.strain)
            (bit_and self.lengths 0x000F000F000F000F)) word }
    {
        mix(mix(self.strain.code() as u64, self.lengths & LEADERS), word)
    }
}

impl PartialEq for Shape {
    ghost eq = { same_shape };

    ghost laws = { same-shape-partial };

    #[inline]
    fn eq(&self, other: &Shape) -> bool {
        self.strain.code() == other.strain.code() && self.lengths == other.lengths
    }
}

impl Eq for Shape {
    ghost laws = { same-shape };
}

impl Hash for Shape {
    ghost hash_input = { λ s. fed.u64 (hash_of s) };

    ghost respects_eq = { fed-shape };

    #[inline]
    fn hash<H: Hasher>(&self, state: &mut H) {
        state.write_u64(self.hash_code());
    }
}

// One word hashed into a number.
#[inline]
#[tactic(auto, unfolding(crate::specs::Strings::mix))]
pub(crate) fn mix(number: u64, word: u64) -> u64
    ensures { result ≡ mix number word }
{
    let product = (number ^ word).wrapping_mul(0x9E37_79B9_7F4A_7C15);
    product ^ (product >> 32)
}
