//! What a hand sees that plays to a trick after the lead: the best card so far, and the hands that play later.

ghost use Rattle.std.specs.Prelude.{◌≡◌, ◌≤◌, length};
ghost use Rattle.dd_order.specs.Turns.{cards_before};

use crate::holdings::code_of_highest;
use crate::turn::Turn;
use dd_cards::{Card, Holding, Rank, Seat, Strain, Suit};
use dd_play::Position;

/// What the mover sees.
#[derive(Clone, Copy)]
pub(crate) struct TrickView {
    pub(crate) turn: Turn,
    pub(crate) led: Suit,
    // the trump suit, where another suit was led
    pub(crate) trump: Option<Suit>,
    // whether there is a trump suit
    pub(crate) has_trumps: bool,
    // the rank of the best card on the trick, and whether it is a ruff
    pub(crate) best: Rank,
    pub(crate) ruffed: bool,
    // whether it is partner's
    pub(crate) partners: bool,
    pub(crate) next: Later,
    // the hand after the next, which is partner's
    pub(crate) last: Later,
}

/// What a hand has that plays later: its cards of the suit led, and the rank of its highest trump where it can ruff, else 0.
#[derive(Clone, Copy)]
pub(crate) struct Later {
    pub(crate) suit: Holding,
    pub(crate) trump: u8,
}

impl TrickView {
    /// The view of the mover, whose turn it is after the lead.
    #[inline(always)]
    pub(crate) fn of(position: &Position, turn: Turn) -> TrickView
        requires turn { length position.now.trick ≡ cards_before turn }
        requires led { 1 ≤ length position.now.trick }
    {
        let strain = position.strain();
        let trick = position.trick();
        let first = trick[0];
        let led = first.suit;
        let (best, partners) = match turn {
            Turn::First | Turn::Second => (first, false),
            Turn::Third => {
                let (best, seconds) = better(strain, first, trick[1]);
                (best, !seconds)
            }
            Turn::Fourth => {
                let (best, seconds) = better(strain, first, trick[1]);
                let (best, thirds) = better(strain, best, trick[2]);
                (best, seconds && !thirds)
            }
        };
        let trump = match strain {
            Strain::Trump(trump) if trump != led => Some(trump),
            _ => None,
        };
        let mover = position.mover_at(turn.cards_before());
        // What has played is no matter any more.
        let nobody = Later {
            suit: Holding::new(),
            trump: 0,
        };
        let (next, last) = match turn {
            Turn::First | Turn::Second => (
                later_hand(position, mover.left(), led, trump),
                later_hand(position, mover.partner(), led, trump),
            ),
            Turn::Third => (later_hand(position, mover.left(), led, trump), nobody),
            Turn::Fourth => (nobody, nobody),
        };
        TrickView {
            turn,
            led,
            trump,
            has_trumps: strain != Strain::Notrump,
            best: best.rank,
            ruffed: best.suit != led,
            partners,
            next,
            last,
        }
    }
}

// The better of two cards on a trick, and whether it is the later one.
#[inline]
fn better(strain: Strain, earlier: Card, later: Card) -> (Card, bool) {
    // All is asked, and one of two chosen: a branch would seldom be foreseen.
    let follows = later.suit == earlier.suit;
    let is_higher = later.rank.code() > earlier.rank.code();
    let ruffs = strain.code() == later.suit.code();
    let wins = (follows & is_higher) | (!follows & ruffs);
    if wins {
        (later, true)
    } else {
        (earlier, false)
    }
}

// What the seat has of the suit led, and to ruff with.
#[inline]
fn later_hand(position: &Position, seat: Seat, led: Suit, trump: Option<Suit>) -> Later {
    let hands = position.hands();
    let suit = hands.holding(seat, led);
    let trump = match trump {
        Some(trump) if suit.is_empty() => code_of_highest(hands.holding(seat, trump)),
        _ => 0,
    };
    Later { suit, trump }
}
