//! Where to begin: a guess of the tricks of a side, from who leads, and who holds the high cards and the trumps.
ghost use Rattle.std.specs.Prelude.{◌≤◌};

use crate::holdings::code_of_highest;
use dd_cards::{Holding, Strain, Suit};
use dd_play::Position;

// The points of the leader's side and of the other.
#[derive(Clone, Copy)]
struct Points {
    ours: u32,
    theirs: u32,
}

// What a guess counts, in thousandths of a trick of a full deal.
#[derive(Clone, Copy)]
struct Worths {
    // to be on lead
    lead: u32,
    // a point more than the other side
    point: u32,
    // a trump more than the other side
    trump: u32,
}

// Taken over from a prototype: they bear on the time alone.
const NOTRUMP: Worths = Worths {
    lead: 800,
    point: 224,
    trump: 0,
};

const TRUMPS: Worths = Worths {
    lead: 240,
    point: 152,
    trump: 506,
};

/// A guess of the tricks, 0 to those left, that North and South take from here on: half of them, and more or less by who
/// leads and by each side's share of the points and the trumps.
pub fn guess(position: &Position) -> u8 {
    let tricks = leaders_guess(position);
    if position.first().is_north_south() {
        tricks
    } else {
        position.tricks_left().saturating_sub(tricks)
    }
}

// The guess for the leader's side.
fn leaders_guess(position: &Position) -> u8 {
    let left = position.tricks_left() as u32;
    let points = all_points(position);
    let (worths, trumps) = match position.strain() {
        Strain::Notrump => (NOTRUMP, Points { ours: 0, theirs: 0 }),
        Strain::Trump(suit) => {
            let (ours, theirs) = sides(position, suit);
            let ours = ours.len() as u32;
            let theirs = theirs.len() as u32;
            (TRUMPS, Points { ours, theirs })
        }
    };
    let more = (worths.lead + worths.point * points.ours) * left / 13 + worths.trump * trumps.ours;
    let less = worths.point * points.theirs * left / 13 + worths.trump * trumps.theirs;
    let thousandths = (500 * left + more + 500).saturating_sub(less);
    (thousandths / 1000).min(left) as u8
}

// The points of all suits.
fn all_points(position: &Position) -> Points
    ensures ours { result.ours ≤ 160 }
    ensures theirs { result.theirs ≤ 160 }
{
    let spades = points_of(position, Suit::Spades);
    let hearts = points_of(position, Suit::Hearts);
    let diamonds = points_of(position, Suit::Diamonds);
    let clubs = points_of(position, Suit::Clubs);
    Points {
        ours: spades.ours + hearts.ours + diamonds.ours + clubs.ours,
        theirs: spades.theirs + hearts.theirs + diamonds.theirs + clubs.theirs,
    }
}

// The ranks of a suit that the leader's side has, and those of the other.
fn sides(position: &Position, suit: Suit) -> (Holding, Holding) {
    let hands = position.hands();
    let leader = position.first();
    let left = leader.next();
    let partner = left.next();
    let right = partner.next();
    (
        hands
            .holding(leader, suit)
            .union(hands.holding(partner, suit)),
        hands.holding(left, suit).union(hands.holding(right, suit)),
    )
}

// The points of a suit: 4, 3, 2 and 1 for its highest cards that are left.
fn points_of(position: &Position, suit: Suit) -> Points
    ensures ours { result.ours ≤ 40 }
    ensures theirs { result.theirs ≤ 40 }
{
    let (mut ours, mut theirs) = sides(position, suit);
    let mut points = Points { ours: 0, theirs: 0 };
    for lower in 0..4 {
        let worth = 4 - lower;
        if code_of_highest(ours) > code_of_highest(theirs) {
            points.ours += worth;
            ours = without_highest(ours);
        } else if !theirs.is_empty() {
            points.theirs += worth;
            theirs = without_highest(theirs);
        }
    }
    points
}

fn without_highest(suit: Holding) -> Holding {
    match suit.highest() {
        Some(rank) => suit.below(rank),
        None => suit,
    }
}
