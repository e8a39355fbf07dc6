//! The scores of all cards at the start of a trick, as `dd_solve` asks for them.
ghost use Rattle.std.specs.Prelude.{◌≡◌};
ghost use Rattle.dd_equal.specs.EqualCards.{classes_of};
ghost use Rattle.dd_play.specs.Value.{leaders_tricks};

use arrayvec::ArrayVec;
use dd_bounds::{Bounds, Meter};
use dd_cards::Card;
use dd_equal::{Class, classes};
use dd_play::TrickStart;
use dd_rank::Depths;
use dd_search::{score_up_to, start_value};

/// The highest card of each class with its score, in the order of the classes, and the depths of the value.
pub fn scores_of<B: Bounds, M: Meter>(
    start: &TrickStart,
    table: &mut B,
    meter: &mut M,
) -> Option<(ArrayVec<(Card, u8), 13>, Depths)> {
    let (best, depths) = start_value(start, table, meter).ok()?;
    let classes = classes(start.position());
    let scores = scores_up_to(start, classes.as_slice(), best, table, meter)?;
    Some((scores, depths))
}

// The same, where none is above this one.
fn scores_up_to<B: Bounds, M: Meter>(
    start: &TrickStart,
    classes: &[Class],
    best: u8,
    table: &mut B,
    meter: &mut M,
) -> Option<ArrayVec<(Card, u8), 13>>
    requires classes { classes.now ≡ classes_of start.now }
    requires best { best ≡ leaders_tricks start.now }
{
    let position = start.position();
    let mut scores = ArrayVec::new();
    for class in classes {
        let score = score_up_to(position, class.top, best, table, meter).ok()?;
        scores.try_push((class.top, score)).ok()?;
    }
    Some(scores)
}
