//! A position whose entry answers for each position that it covers.

ghost use Rattle.std.specs.Prelude.{◌≡◌, ◌↔◌, ◌-◌, ◌≤◌, ◌%◌, ◌^◌, IsTrue, [], ◌&&◌, bit_and, nat_eq};
ghost use Rattle.dd_cards.specs.declared.suit.Suit.{Suit as SuitOf};
ghost use Rattle.dd_play.specs.Board.{Board, IsBoard};
ghost use Rattle.dd_play.specs.Covers.{count_of};
ghost use Rattle.dd_rank.specs.Cover.{IsSameCover};
ghost use Rattle.dd_rank.specs.Depths.{all_cards, Covers, depth_in};
ghost use Rattle.dd_rank.specs.Strings.{strings_of, shape_of, shape_in};

use crate::depths::Depths;
use crate::owner_strings::OwnerStrings;
use dd_cards::Suit;
use dd_play::TrickStart;
use std::marker::Model;

/// A start of a trick with depths: it stands for each position with the same holders of so many of the highest cards.
#[derive(Drop)]
pub struct Cover {
    start: TrickStart,
    depths: Depths,
    spades: TopOwners,
    hearts: TopOwners,
    diamonds: TopOwners,
    clubs: TopOwners,
}

impl Model for Cover {
    ghost use Rattle.dd_rank.specs.Cover.{CoverOf};

    ghost Value = { CoverOf };

    ghost use Rattle.dd_rank.specs.Tops.{IsPacked};

    ghost view = { λ c. record { board = c.start; depths = c.depths } };

    ghost invariant = { IsPacked };
}

impl Cover {
    /// The positions that this one covers at these depths, none of which is above the number of the suit's cards.
    pub fn new(start: &TrickStart, depths: Depths, strings: &OwnerStrings) -> Cover
        requires strings { strings.now ≡ strings_of start.now }
        requires within { (u : SuitOf) → depth_in depths u ≤ count_of u (all_cards start.now) }
        ensures { (result.board ≡ start.now) × (result.depths ≡ depths) }
    {
        Cover {
            start: start.copy(),
            depths,
            spades: TopOwners::of(depths.of(Suit::Spades), strings.suit(Suit::Spades)),
            hearts: TopOwners::of(depths.of(Suit::Hearts), strings.suit(Suit::Hearts)),
            diamonds: TopOwners::of(depths.of(Suit::Diamonds), strings.suit(Suit::Diamonds)),
            clubs: TopOwners::of(depths.of(Suit::Clubs), strings.suit(Suit::Clubs)),
        }
    }

    /// Does it cover the positions of these strings, which are of its shape?
    #[inline]
    pub fn covers(&self, strings: &OwnerStrings) -> bool
        requires { shape_in strings.now ≡ shape_of self.now.board }
        ensures { (q : Board) → IsBoard q → q.trick ≡ [] → strings.now ≡ strings_of q
            → IsTrue result ↔ Covers self.now.board (depth_in self.now.depths) q }
    {
        // All four are asked: a branch would cost more.
        self.spades.are_in(strings.suit(Suit::Spades))
            & self.hearts.are_in(strings.suit(Suit::Hearts))
            & self.diamonds.are_in(strings.suit(Suit::Diamonds))
            & self.clubs.are_in(strings.suit(Suit::Clubs))
    }

    /// Do both, which are of one shape, cover the same positions at the same depths?
    pub fn is_same(&self, other: &Cover) -> bool
        requires { shape_of other.now.board ≡ shape_of self.now.board }
        ensures { IsTrue result ↔ IsSameCover self.now other.now }
    {
        self.spades.is_same(other.spades)
            & self.hearts.is_same(other.hearts)
            & self.diamonds.is_same(other.diamonds)
            & self.clubs.is_same(other.clubs)
    }

    /// The position that covers.
    #[inline]
    pub fn start(&self) -> &TrickStart
        ensures { result.now ≡ self.now.board }
    {
        &self.start
    }

    /// How many of the highest cards of each suit matter.
    #[inline]
    pub fn depths(&self) -> Depths
        ensures depths { result ≡ self.now.depths }
        ensures within { (u : SuitOf) → depth_in result u ≤ count_of u (all_cards self.now.board) }
        ensures board { IsBoard self.now.board }
        ensures start { self.now.board.trick ≡ [] }
    {
        self.depths
    }

    /// An equal cover.
    pub fn copy(&self) -> Cover
        ensures { result ≡ self.now }
    {
        Cover {
            start: self.start.copy(),
            depths: self.depths,
            spades: self.spades,
            hearts: self.hearts,
            diamonds: self.diamonds,
            clubs: self.clubs,
        }
    }
}

// The owners of a suit's highest cards, and the bits in which they stand.
#[derive(Clone, Copy, Debug)]
pub(crate) struct TopOwners {
    pub(crate) mask: u32,
    pub(crate) owners: u32,
}

impl TopOwners {
    // Of the owners of a suit the first so many.
    #[inline]
    pub(crate) fn of(depth: u8, owners: u32) -> TopOwners
        requires { depth ≤ 13 }
        ensures mask { result.mask ≡ 4 ^ depth - 1 }
        ensures owners { result.owners ≡ owners % 4 ^ depth }
    {
        let mask = (1 << (2 * depth)) - 1;
        TopOwners {
            mask,
            owners: owners & mask,
        }
    }

    // Are these the first owners of a suit?
    #[inline]
    pub(crate) fn are_in(self, owners: u32) -> bool
        ensures { result ≡ nat_eq (bit_and owners self.mask) self.owners }
    {
        owners & self.mask == self.owners
    }
    // Are these so many, and the same?
    #[inline]
    fn is_same(self, other: TopOwners) -> bool
        ensures { result ≡ (nat_eq self.mask other.mask && nat_eq self.owners other.owners) }
    {
        self.mask == other.mask && self.owners == other.owners
    }
}
