//! How many of the highest cards of each suit matter, and which cards these are.
ghost use Rattle.std.specs.Prelude.{◌≡◌, ◌+◌, ◌≤◌, ◌<◌, ◌^◌, ◌↔◌, ◌&&◌, true, IsTrue, length, filter, nat_lt};
ghost use Rattle.dd_cards.specs.PlayingCard.{PlayingCard};
ghost use Rattle.dd_cards.specs.declared.suit.Suit.{Suit as SuitOf};
ghost use Rattle.dd_cards.specs.Ranks.{IsRank};
ghost use Rattle.dd_cards.specs.Cards.{has_card, is_of};
ghost use Rattle.dd_cards.specs.Hands.{IsSet};
ghost use Rattle.dd_play.specs.Board.{IsBoard};
ghost use Rattle.dd_play.specs.Covers.{count_of};
ghost use Rattle.dd_play.specs.Reach.{reach};
ghost use Rattle.dd_rank.specs.Depths.{all_cards, depths_of, depth_in};
ghost use Rattle.dd_rank.specs.DepthMasks.{tops_of};
ghost use Rattle.dd_rank.specs.FirstOwners.{top_places};
ghost use Rattle.dd_rank.specs.Lanes.{lane};

use dd_cards::{Hand, Rank, Seat, Suit};
use dd_play::{Position, TrickStart};
use std::marker::Model;

/// For each suit how many of its highest cards matter.
// As the bits in which these stand where no card is missing between them: so they are compared with others as they are.
#[derive(Clone, Copy, Debug)]
pub struct Depths {
    tops: u64,
}

impl Model for Depths {
    ghost use Rattle.dd_rank.specs.Depths.{FourDepths};
    ghost use Rattle.dd_rank.specs.DepthMasks.{AreTops, depths_in, tops_of};
    ghost use Rattle.dd_rank.specs.DepthMaskLaws.{tops_of-inside};

    ghost Value = { FourDepths };

    ghost view = { λ d. depths_in d.tops };

    ghost invariant = { λ d. AreTops d.tops };

    ghost inverse = { λ v. record { tops = tops_of v } };

    ghost inverse_ok = { λ d valid. tops_of-inside d valid };
}

impl Default for Depths {
    /// No card of any suit.
    fn default() -> Depths
        ensures { (u : SuitOf) → depth_in result u ≡ 0 }
    {
        Depths::of_suits(0, 0, 0, 0)
    }
}

impl Depths {
    // These depths.
    #[inline]
    fn of_suits(spades: u8, hearts: u8, diamonds: u8, clubs: u8) -> Depths
        requires { (spades ≤ 13) × (hearts ≤ 13) × (diamonds ≤ 13) × (clubs ≤ 13) }
        ensures { result ≡ record { spades = spades; hearts = hearts; diamonds = diamonds; clubs = clubs } }
    {
        Depths {
            tops: (suit_tops(spades) << 48)
                + (suit_tops(hearts) << 32)
                + (suit_tops(diamonds) << 16)
                + suit_tops(clubs),
        }
    }

    /// The depth of a suit.
    #[inline]
    pub fn of(self, suit: Suit) -> u8
        ensures { result ≡ depth_in self suit }
    {
        let lane = self.tops >> (48 - 16 * suit.code());
        (lane & 0xFFFF).count_ones() as u8
    }

    /// Is no depth above that of the same suit?
    #[inline]
    pub(crate) fn are_within(self, most: Depths) -> bool
        ensures { IsTrue result ↔ ((u : SuitOf) → depth_in self u ≤ depth_in most u) }
    {
        (self.of(Suit::Spades) <= most.of(Suit::Spades))
            & (self.of(Suit::Hearts) <= most.of(Suit::Hearts))
            & (self.of(Suit::Diamonds) <= most.of(Suit::Diamonds))
            & (self.of(Suit::Clubs) <= most.of(Suit::Clubs))
    }

    /// The bits in which so many of each suit's highest cards stand, where no card is missing between them.
    #[inline]
    pub(crate) fn tops(self) -> u64
        ensures mask { result ≡ tops_of self }
        ensures tops { (u : SuitOf) → lane result u ≡ top_places (depth_in self u) }
        ensures few { (u : SuitOf) → depth_in self u ≤ 13 }
    {
        self.tops
    }

    /// So many of the highest ranks of each suit, as cards.
    #[inline(always)]
    pub fn top_ranks(self) -> Hand
        requires { (u : SuitOf) → depth_in self u ≤ 13 }
        ensures cards { (c : PlayingCard) → IsRank c.rank
            → has_card result c ≡ nat_lt 14 (c.rank + depth_in self c.suit) }
        ensures real { (c : PlayingCard) → has_card result c ≡ true → IsRank c.rank }
    {
        Hand::of_mask(self.tops())
    }

    /// The depths of all cards left at a position.
    pub fn full(start: &TrickStart) -> Depths
        ensures { (u : SuitOf) → depth_in result u ≡ count_of u (all_cards start.now) }
    {
        let all = cards_left(start.position());
        Depths::of_suits(
            all.holding(Suit::Spades).len(),
            all.holding(Suit::Hearts).len(),
            all.holding(Suit::Diamonds).len(),
            all.holding(Suit::Clubs).len(),
        )
    }

    /// The depths of these cards at a position: how many of the cards left are one of them or higher than one.
    pub fn of_cards(start: &TrickStart, cards: Hand) -> Depths
        ensures depths { (u : SuitOf) → depth_in result u ≡ depths_of (reach cards) start.now u }
        ensures within { (u : SuitOf) → depth_in result u ≤ count_of u (all_cards start.now) }
        ensures real { (c : PlayingCard) → has_card cards c ≡ true → IsRank c.rank }
    {
        let all = cards_left(start.position());
        Depths::of_suits(
            depth_of(all, cards, Suit::Spades),
            depth_of(all, cards, Suit::Hearts),
            depth_of(all, cards, Suit::Diamonds),
            depth_of(all, cards, Suit::Clubs),
        )
    }

    /// The same of cards with each of which all higher ones of its suit are there, at a start of which that holds too.
    // Each bit of theirs is one of the depths then.
    #[inline]
    pub fn of_highest(start: &TrickStart, cards: Hand) -> Depths
        requires start { (c d : PlayingCard) → has_card (all_cards start.now) c ≡ true → d.suit ≡ c.suit
            → c.rank ≤ d.rank → d.rank ≤ 14 → has_card (all_cards start.now) d ≡ true }
        requires cards { (c d : PlayingCard) → has_card cards c ≡ true → d.suit ≡ c.suit
            → c.rank ≤ d.rank → d.rank ≤ 14 → has_card cards d ≡ true }
        ensures depths { (u : SuitOf) → depth_in result u ≡ depths_of (reach cards) start.now u }
        ensures within { (u : SuitOf) → depth_in result u ≤ count_of u (all_cards start.now) }
        ensures real { (c : PlayingCard) → has_card cards c ≡ true → IsRank c.rank }
    {
        // The proof reads here that these are cards of the pack.
        let _real = cards.holding(Suit::Spades);
        let all = cards_left(start.position());
        let others = all.difference(cards);
        Depths::of_bits(all.difference(others))
    }

    // How many of these cards each suit has, where with each all higher ones of its suit are there.
    #[inline]
    fn of_bits(cards: Hand) -> Depths
        requires { (c d : PlayingCard) → has_card cards c ≡ true → d.suit ≡ c.suit → c.rank ≤ d.rank
            → d.rank ≤ 14 → has_card cards d ≡ true }
        ensures { (u : SuitOf) → depth_in result u ≡ count_of u cards }
    {
        Depths { tops: cards.mask() }
    }

    /// The lowest of the cards of these depths at a position, one of each suit of which there are some.
    pub fn cards(self, start: &TrickStart) -> Hand
        requires { (u : SuitOf) → depth_in self u ≤ count_of u (all_cards start.now) }
        ensures depths { (u : SuitOf) → depth_in self u ≤ depths_of (reach result) start.now u }
        ensures real { (c : PlayingCard) → has_card result c ≡ true → IsRank c.rank }
    {
        let all = cards_left(start.position());
        let spades = all.at_depth(Suit::Spades, self.of(Suit::Spades));
        let hearts = all.at_depth(Suit::Hearts, self.of(Suit::Hearts));
        let diamonds = all.at_depth(Suit::Diamonds, self.of(Suit::Diamonds));
        let clubs = all.at_depth(Suit::Clubs, self.of(Suit::Clubs));
        let cards = spades.union(hearts).union(diamonds.union(clubs));
        // The proof reads here that the cards are cards of the pack.
        let _ = cards.holding(Suit::Spades);
        cards
    }
}

// The same of one suit.
#[inline]
fn suit_tops(depth: u8) -> u64
    requires { depth ≤ 13 }
    ensures value { result ≡ top_places depth }
    ensures bound { result < 2 ^ 15 }
{
    0x8000 - (0x8000 >> depth)
}

// The cards in the four hands, as a set.
fn cards_left(position: &Position) -> Hand
    ensures cards { (c : PlayingCard) → has_card result c ≡ has_card (all_cards position.now) c }
    ensures set { IsSet result }
    ensures board { IsBoard position.now }
{
    let hands = position.hands();
    hands
        .hand(Seat::North)
        .union(hands.hand(Seat::East))
        .union(hands.hand(Seat::South))
        .union(hands.hand(Seat::West))
}

// How many of all cards of the suit are reached.
#[inline]
fn depth_of(all: Hand, cards: Hand, suit: Suit) -> u8
    ensures depth { result ≡ length (filter (λ e. is_of suit e && reach cards e) all) }
    ensures bound { result ≤ 13 }
    ensures real { (c : PlayingCard) → has_card cards c ≡ true → IsRank c.rank }
{
    match cards.holding(suit).next_from(Rank::of(2)) {
        Some(floor) => {
            let left = all.holding(suit);
            left.len() - left.below(floor).len()
        }
        None => 0,
    }
}
