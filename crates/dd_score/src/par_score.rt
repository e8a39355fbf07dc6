ghost use Rattle.std.specs.Prelude.{◌≡◌, ◌∷◌, [], ◌≤◌};
ghost use Rattle.dd_score.specs.Values.{better, IsPar};
ghost use Rattle.dd_score.specs.Bids.{bid_of};
ghost use Rattle.dd_score.specs.Levels.{level_offered};
ghost use Rattle.dd_score.specs.Stands.{offered, stands};
ghost use Rattle.dd_score.specs.Worths.{worth};
ghost use Rattle.dd_cards.specs.Sides.{side_of};

use crate::order::{Asked, Order};
use crate::worths::Worths;
use dd_cards::{Seat, Strain, Suit};

// The score of par: each bid is offered to each seat, the lowest bid first and of the seats the one that is asked last.
pub(crate) fn par_score(worths: &Worths, order: Order) -> i16
    ensures stands { result ≡ stands worths.now.tricks worths.now.vulnerable order 35 }
    ensures par { IsPar worths.now.tricks worths.now.vulnerable order result }
{
    let asked = order.asked();
    let mut score = 0;
    for level in 1..8 {
        score = level_offered(worths, level, asked, score);
    }
    score
}

// What stands after a level's bids were offered, the lowest of them first.
#[tactic(auto, unfolding(crate::specs::Levels::level_offered))]
fn level_offered(worths: &Worths, level: u8, asked: Asked, score: i16) -> i16
    requires { (1 ≤ level) × (level ≤ 7) }
    ensures { result ≡ level_offered worths.now.tricks worths.now.vulnerable level
        (asked.first ∷ asked.second ∷ asked.third ∷ asked.fourth ∷ []) score }
{
    let score = offered(worths, level, Strain::Trump(Suit::Clubs), asked, score);
    let score = offered(worths, level, Strain::Trump(Suit::Diamonds), asked, score);
    let score = offered(worths, level, Strain::Trump(Suit::Hearts), asked, score);
    let score = offered(worths, level, Strain::Trump(Suit::Spades), asked, score);
    offered(worths, level, Strain::Notrump, asked, score)
}

// What stands after a bid was offered to four seats, the last of them first.
// In place, so that the strain is a constant there.
#[inline(always)]
fn offered(worths: &Worths, level: u8, strain: Strain, asked: Asked, score: i16) -> i16
    requires { (1 ≤ level) × (level ≤ 7) }
    ensures { result ≡ offered worths.now.tricks worths.now.vulnerable (bid_of level strain)
        (asked.first ∷ asked.second ∷ asked.third ∷ asked.fourth ∷ []) score }
{
    let score = chosen(worths, level, strain, asked.fourth, score);
    let score = chosen(worths, level, strain, asked.third, score);
    let score = chosen(worths, level, strain, asked.second, score);
    chosen(worths, level, strain, asked.first, score)
}

// What this seat leaves of a score: its bid's worth where that is better for its side.
#[inline(always)]
fn chosen(worths: &Worths, level: u8, strain: Strain, seat: Seat, score: i16) -> i16
    requires { (1 ≤ level) × (level ≤ 7) }
    ensures { result ≡ better (side_of seat) (worth worths.now.tricks worths.now.vulnerable
        (bid_of level strain) seat) score }
{
    let own = worths.at(level, strain, seat);
    if seat.is_north_south() {
        own.max(score)
    } else {
        own.min(score)
    }
}
