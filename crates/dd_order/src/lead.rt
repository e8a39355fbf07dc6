//! Which card looks best to lead: what speaks for a suit, and then for a card of it.
ghost use Rattle.std.specs.Prelude.{◌≡◌, ◌≤◌, true, IfSome};
ghost use Rattle.dd_cards.specs.Cards.{has_card};

use crate::holdings::{code_of_highest, lowest};
use crate::lead_view::LeadView;
use crate::lead_weights::{
    AT_NOTRUMP, LEADER, LeadWeights, LeadWorth, NUMBERS, PARTNER, TOP_TWO, TopTwo, WITH_TRUMPS,
};
use crate::suit_lanes::{LOWEST, LOWEST_FOUR, at, has_lowest, nonzero, place, several};
use dd_bounds::LeadHistory;
use dd_cards::{Hand, Holding, Place, Rank, Strain, Suit};
use dd_play::Position;
use dd_rank::{OwnerStrings, TwoHighest};
use dd_relative::KnownStart;

/// A card to try, and how good it looks.
// One number, 0 where there is no card: the weight over the eight bits of the card's place, of which the rank's are turned. So of cards that
// look as good the greater number is that of the first suit, and in it the lowest card's.
#[derive(Clone, Copy, Default)]
pub(crate) struct Move {
    number: u32,
}

impl Move {
    // The card of this code, and how good it looks.
    #[inline(always)]
    fn of(suit: Suit, code: u8, weight: u16) -> Move {
        let turned = place(suit) | (code ^ 15);
        Move {
            number: (weight as u32) << 8 | turned as u32,
        }
    }

    // The other one where it replaces this one.
    #[inline]
    fn replaced(self, replaces: bool, other: Move) -> Move {
        if replaces { other } else { self }
    }

    // The better of two.
    #[inline]
    fn or(self, other: Move) -> Move {
        Move {
            number: self.number.max(other.number),
        }
    }

    // The card's bit, and one that no card has where there is none.
    #[inline(always)]
    fn bit(self) -> u64 {
        1u64.wrapping_shl((self.number & 63) ^ 15)
    }
}

/// Of each suit the lead that looks best of those still to be tried, and none where there is none. Most searches need no
/// other: so the next of a suit is weighed where that failed.
#[derive(Drop)]
pub struct Leading {
    start: StartView,
    spades: Move,
    hearts: Move,
    diamonds: Move,
    clubs: Move,
}

// For each suit more than all that speaks against it.
const ANY_SUIT: u64 = 500;

// More than any rank.
const RUFF: u8 = 15;

impl Leading {
    /// No cards.
    #[inline]
    pub fn new() -> Leading {
        Leading {
            start: StartView::nothing(),
            spades: Move::default(),
            hearts: Move::default(),
            diamonds: Move::default(),
            clubs: Move::default(),
        }
    }

    /// Weighs these cards of the leader at the start with these strings.
    pub(crate) fn weigh<L: LeadView>(
        &mut self,
        position: &L,
        strings: &OwnerStrings,
        settling: LeadHistory,
        choices: Hand,
    ) {
        // A copy for each: what speaks for a lead is then a constant.
        match position.strain() {
            Strain::Trump(trump) => {
                let strain = Strain::Trump(trump);
                self.weigh_at(strain, WITH_TRUMPS, position, strings, settling, choices);
            }
            Strain::Notrump => {
                let strain = Strain::Notrump;
                self.weigh_at(strain, AT_NOTRUMP, position, strings, settling, choices);
            }
        }
    }

    #[inline(always)]
    fn weigh_at<L: LeadView>(
        &mut self,
        strain: Strain,
        weights: LeadWeights,
        position: &L,
        strings: &OwnerStrings,
        settling: LeadHistory,
        choices: Hand,
    ) {
        let start = StartView::of(position, strain, strings, settling, weights);
        let tops = TopsAt {
            strain,
            tops: strings.two_highest(),
        };
        let more = weights.best_of_its_suit;
        self.spades = best_of(position, start, weights, tops, Suit::Spades, choices, more);
        self.hearts = best_of(position, start, weights, tops, Suit::Hearts, choices, more);
        self.diamonds = best_of(
            position,
            start,
            weights,
            tops,
            Suit::Diamonds,
            choices,
            more,
        );
        self.clubs = best_of(position, start, weights, tops, Suit::Clubs, choices, more);
        self.start = start;
    }

    /// Takes note that a card of this suit failed, and weighs those of the suit that are still to be tried. It does nothing where no
    /// card is led.
    #[inline(always)]
    pub(crate) fn go_on<L: LeadView>(
        &mut self,
        position: &L,
        strings: Option<&OwnerStrings>,
        suit: Suit,
        untried: Hand,
    ) {
        if let Some(strings) = strings {
            self.weigh_again(position, strings, suit, untried);
        }
    }

    fn weigh_again<L: LeadView>(
        &mut self,
        position: &L,
        strings: &OwnerStrings,
        suit: Suit,
        untried: Hand,
    ) {
        let strain = position.strain();
        let weights = weights_at(strain);
        let tops = TopsAt {
            strain,
            tops: strings.two_highest(),
        };
        let next = best_of(position, self.start, weights, tops, suit, untried, 0);
        // Four choices, and no jump to one of four places, which would seldom be foreseen.
        self.spades = self.spades.replaced(suit == Suit::Spades, next);
        self.hearts = self.hearts.replaced(suit == Suit::Hearts, next);
        self.diamonds = self.diamonds.replaced(suit == Suit::Diamonds, next);
        self.clubs = self.clubs.replaced(suit == Suit::Clubs, next);
    }

    /// The best lead that was not tried yet.
    #[inline]
    pub fn best(&self, untried: Hand) -> Option<Place>
        ensures { IfSome result (λ card. has_card untried card ≡ true) }
    {
        let best = self.spades.or(self.hearts).or(self.diamonds.or(self.clubs));
        untried.among(best.bit()).lowest_place()
    }
}

// What is seen of a start of a trick. Where a word speaks of all suits it has sixteen bits for each, the spades' on top.
#[derive(Clone, Copy)]
struct StartView {
    // how many cards of each suit the hands have, four bits each, the leader's the lowest
    lengths: u64,
    // how good each suit looks by lengths, by ruffs and by what settled starts like this one
    weights: u64,
    // the lowest bit of a suit: whether an opponent could ruff it at once, and whether partner could
    opponents_ruff: u64,
    partner_ruffs: u64,
    // whether the leader could ruff it after its one card of it, where partner has more of them
    leader_ruffs: u64,
}

// Who holds the two highest cards of each suit, at this strain.
#[derive(Clone, Copy)]
struct TopsAt {
    strain: Strain,
    tops: TwoHighest,
}

// Who could ruff, of the hands' trumps, and what each suit is led for.
impl StartView {
    #[inline]
    fn nothing() -> StartView {
        StartView {
            lengths: 0,
            weights: 0,
            opponents_ruff: 0,
            partner_ruffs: 0,
            leader_ruffs: 0,
        }
    }

    #[inline]
    fn of<L: LeadView>(
        position: &L,
        strain: Strain,
        strings: &OwnerStrings,
        settling: LeadHistory,
        weights: LeadWeights,
    ) -> StartView {
        let lengths = strings.shape().lengths();
        let left = (lengths >> 4) & LOWEST_FOUR;
        let right = (lengths >> 12) & LOWEST_FOUR;
        let without_left = LOWEST ^ nonzero(left);
        let without_right = LOWEST ^ nonzero(right);
        let (side, trumps) = match strain {
            Strain::Trump(trump) => (LOWEST & !at(trump, 1), lengths >> place(trump)),
            Strain::Notrump => (0, 0),
        };
        let opponents_ruff = where_any(trumps >> 4, side & without_left)
            | where_any(trumps >> 12, side & without_right);
        let without = without_left.wrapping_add(without_right);
        let answers = left
            .wrapping_add(right)
            .wrapping_add(without.wrapping_mul(position.tricks_left() as u64));
        let own = lengths & LOWEST_FOUR;
        let partner = (lengths >> 8) & LOWEST_FOUR;
        let single = LOWEST ^ nonzero(own ^ LOWEST);
        let partner_has_none = LOWEST ^ nonzero(partner);
        let against = answers
            .wrapping_mul(weights.opponents_card)
            .wrapping_add(opponents_ruff.wrapping_mul(weights.opponent_ruffs))
            .wrapping_add(partner_has_none.wrapping_mul(weights.partner_has_none));
        let lengths_for = own
            .wrapping_mul(weights.leaders_card)
            .wrapping_add(partner.wrapping_mul(weights.partners_card))
            .wrapping_add(single.wrapping_mul(weights.single_card));
        let more = several(partner);
        StartView {
            lengths,
            weights: settled_before(settling, weights)
                .wrapping_add(LOWEST * ANY_SUIT)
                .wrapping_add(lengths_for)
                .wrapping_sub(against),
            opponents_ruff,
            partner_ruffs: where_any(trumps >> 8, side & partner_has_none),
            leader_ruffs: where_any(trumps, side & single & more),
        }
    }

    // Is the highest card of the suit, which this hand has, an opponent's only card of it?
    #[inline]
    fn is_lone(self, suit: Suit, first: u8) -> bool {
        let length = self.lengths >> place(suit) >> (4 * (first % 4));
        first % 2 == 1 && length % 16 == 1
    }

    // How good the suit looks.
    #[inline]
    fn weight(self, suit: Suit, tops: TopTwo, weights: LeadWeights) -> u16 {
        let weight = ((self.weights >> place(suit)) & 0xFFFF) as u16;
        let single = tops.first == PARTNER && has_lowest(self.leader_ruffs, suit);
        let single = if single {
            weights.single_card_to_partners_top
        } else {
            0
        };
        weight.wrapping_add(tops.weight).wrapping_add(single)
    }
}

// What speaks for leads at this strain.
#[inline]
fn weights_at(strain: Strain) -> LeadWeights {
    match strain {
        Strain::Trump(_) => WITH_TRUMPS,
        Strain::Notrump => AT_NOTRUMP,
    }
}

// What is known of a suit with this number at this strain.
#[inline]
fn top_two(strain: Strain, number: u8) -> TopTwo
    requires { number ≤ 15 }
{
    let first = match strain {
        Strain::Trump(_) => NUMBERS,
        Strain::Notrump => 0,
    };
    TOP_TWO[first + number as usize]
}

// These bits where the lowest four of the number are not zero.
#[inline]
fn where_any(number: u64, bits: u64) -> u64 {
    if number % 16 == 0 { 0 } else { bits }
}

// What speaks for each suit by what settled starts of a trick like this one.
#[inline]
fn settled_before(settling: LeadHistory, weights: LeadWeights) -> u64 {
    settled(settling.of_shape, weights.settled_shape)
        .wrapping_add(settled(settling.of_outline, weights.settled_outline))
        .wrapping_add(settled(settling.of_leader, weights.settled_leader))
}

// So much for the suit of the lead that settled.
#[inline]
fn settled(lead: Option<Suit>, weight: u64) -> u64 {
    match lead {
        Some(suit) => at(suit, weight),
        None => 0,
    }
}

// The card of this suit that looks best of these choices; each weighs so much more.
// Once for each suit: a call of its own for all costs 1.5 % instructions.
#[inline(always)]
fn best_of<L: LeadView>(
    position: &L,
    start: StartView,
    weights: LeadWeights,
    tops: TopsAt,
    suit: Suit,
    choices: Hand,
    more: u16,
) -> Move {
    let ranks = choices.holding(suit);
    let Some(low) = lowest(ranks) else {
        return Move::default();
    };
    let tops = top_two(tops.strain, tops.tops.of_suit(suit));
    let weight = start.weight(suit, tops, weights).wrapping_add(more);
    let opponents = has_lowest(start.opponents_ruff, suit);
    let partner = has_lowest(start.partner_ruffs, suit);
    let lone = start.is_lone(suit, tops.first);
    if !lone && !tops.cards.alike {
        let ruffs = Ruffs { opponents, partner };
        return position.best_by_rank(suit, ranks, weight, ruffs, tops);
    }
    let worth = if lone {
        weights.lone_top_card
    } else {
        tops.cards.usual
    };
    let wins = !opponents && (partner || tops.first == PARTNER);
    let relative_rank = position.relative_rank(suit, low);
    let weight = weighed(relative_rank, weight, worth, wins);
    Move::of(suit, low.code(), weight)
}

/// Who could ruff a suit at once.
#[derive(Clone, Copy)]
pub(crate) struct Ruffs {
    opponents: bool,
    partner: bool,
}

// How good a card of the suit looks.
#[inline]
fn weighed(relative_rank: u16, weight: u16, worth: LeadWorth, wins: bool) -> u16 {
    let worth = if wins { worth.wins } else { worth.loses };
    weight.wrapping_add(worth).wrapping_sub(relative_rank)
}

// The code of the best card that hands with these ranks of a suit could play to it, where a ruff is more than any rank.
#[inline(always)]
fn best_answer(ranks: Holding, ruffs: bool) -> u8
    ensures { result ≤ 15 }
{
    if ruffs { RUFF } else { code_of_highest(ranks) }
}

/// The best of these cards of a position, one after the other, where what a card is worth is not the same for all of them.
pub(crate) fn best_by_card(
    position: &Position,
    suit: Suit,
    ranks: Holding,
    weight: u16,
    ruffs: Ruffs,
    tops: TopTwo,
) -> Move {
    let hands = position.hands();
    let leader = position.first();
    let own = hands.holding(leader, suit);
    let ours = hands.holding(leader.partner(), suit);
    let theirs = hands
        .holding(leader.left(), suit)
        .union(hands.holding(leader.right(), suit));
    let others = theirs.union(ours);
    let partner = best_answer(ours, ruffs.partner);
    let against = best_answer(theirs, ruffs.opponents);
    let own_top = code_of_highest(own);
    let mut rest = ranks;
    let mut best = Move::default();
    'ranks: while let Some(rank) = rest.pop_lowest() {
        let code = rank.code();
        let special = if tops.first == LEADER {
            code == own_top
        } else {
            has_equal(own, others, rank)
        };
        let worth = if special {
            tops.cards.special
        } else {
            tops.cards.usual
        };
        let wins = code.max(partner) > against;
        let weight = weighed(position.relative_rank(suit, rank), weight, worth, wins);
        best = best.or(Move::of(suit, code, weight));
    }
    best
}

// Has the card of the leader's own an equal below it?
#[inline]
fn has_equal(own: Holding, others: Holding, rank: Rank) -> bool {
    match own.next_below(rank) {
        Some(lower) => match others.next_below(rank) {
            Some(other) => other.code() < lower.code(),
            None => true,
        },
        None => false,
    }
}

/// The same by relative ranks, of which none is missing: a card has an equal below it where the leader has the next rank. The ranks fall
/// into four groups in which a card is worth the same: there the lowest looks best, and one of these does.
pub(crate) fn best_by_masks(
    start: &KnownStart,
    suit: Suit,
    ranks: Holding,
    weight: u16,
    ruffs: Ruffs,
    tops: TopTwo,
) -> Move {
    let hands = start.start();
    let own = hands.leader().holding(suit);
    let theirs = hands
        .second()
        .holding(suit)
        .union(hands.fourth().holding(suit));
    let partner = best_answer(hands.third().holding(suit), ruffs.partner);
    let against = best_answer(theirs, ruffs.opponents);
    let winners = if partner > against {
        u32::MAX
    } else {
        (u32::MAX << 1) << against
    };
    let specials = if tops.first == LEADER {
        1 << code_of_highest(own)
    } else {
        (own.mask() as u32) << 1
    };
    let all = ranks.mask() as u32;
    let usual = all & !specials;
    let special = all & specials;
    let worth = tops.cards.usual;
    let loses = weight.wrapping_add(worth.loses);
    let wins = weight.wrapping_add(worth.wins);
    let usual_loser = lowest_of(start, suit, usual & !winners, loses);
    let usual_winner = lowest_of(start, suit, usual & winners, wins);
    let worth = tops.cards.special;
    let loses = weight.wrapping_add(worth.loses);
    let wins = weight.wrapping_add(worth.wins);
    let special_loser = lowest_of(start, suit, special & !winners, loses);
    let special_winner = lowest_of(start, suit, special & winners, wins);
    usual_loser
        .or(usual_winner)
        .or(special_loser.or(special_winner))
}

// Of a group of ranks, by their bits, each of which has this weight but for its rank, the lowest.
#[inline(always)]
fn lowest_of(start: &KnownStart, suit: Suit, ranks: u32, weight: u16) -> Move {
    match Rank::from_code(ranks.trailing_zeros() as u8) {
        Some(rank) => {
            let weight = weight.wrapping_sub(start.relative_rank(suit, rank));
            Move::of(suit, rank.code(), weight)
        }
        None => Move::default(),
    }
}
