//! The answers to requests with a target.
ghost use Rattle.std.specs.Prelude.{◌≡◌, ◌<◌, ◌⊎◌, true, IfOk, IsOk, nat_le, take, ◌==◌, if◌then◌else◌};
ghost use Rattle.dd_cards.specs.Cards.{has_card};
ghost use Rattle.dd_play.specs.Board.{IsBoard, tricks_left};
ghost use Rattle.dd_play.specs.Play.{legal};
ghost use Rattle.dd_play.specs.Positions.{CanPlay};
ghost use Rattle.dd_play.specs.Value.{score};
ghost use Rattle.dd_equal.specs.EqualCards.{classes_of};
ghost use Rattle.dd_bounds.specs.Budgets.{EndsAs, IsEndless};
ghost use Rattle.dd_request.specs.Targets.{all_reaching, solved_target};

use crate::scored_list::ScoredList;
use arrayvec::ArrayVec;
use dd_bounds::{Bounds, Halt, Meter};
use dd_cards::Card;
use dd_equal::{Class, classes};
use dd_play::Position;
use dd_request::{Answer, MOST_CLASSES, Scored, SolvedTarget, TargetRequest};
use dd_search::reaches;

/// Finds the answer to a request with a target, by a yes-or-no question for each class, and none after the last one that is
/// asked for. It takes no memory. An error says why the search ended without an answer; what was noted by then holds. A target
/// of 0, and one above the tricks that are left, is answered without a search.
pub fn solve_target<B: Bounds, M: Meter>(
    request: TargetRequest,
    table: &mut B,
    meter: &mut M,
) -> Result<SolvedTarget, Halt>
    ensures solved { IfOk result (λ solved. solved ≡ solved_target request) }
    ensures ends { EndsAs (M.says meter.new) result }
    ensures limit { M.limit meter.new ≡ M.limit meter.old }
    // It has an answer where the meter can say nothing else than to go on.
    ensures answers { IsEndless M.says → IsOk result }
    ensures unsearched { (request.target ≡ 0) ⊎ (tricks_left request.board < request.target) →
        IsOk result }
{
    let answer = classes_reaching(
        request.position(),
        request.target(),
        most_asked(request.solutions()),
        table,
        meter,
    )?;
    Ok(SolvedTarget::of(request, Answer::of(answer)))
}

// How many of the classes that reach the target are asked for, at most.
fn most_asked(solutions: u8) -> usize
    ensures { result ≡ (if solutions == 2 then MOST_CLASSES else 1) }
{
    if solutions == 2 { MOST_CLASSES } else { 1 }
}

// The first `most` of the classes that reach the target.
fn classes_reaching<B: Bounds, M: Meter>(
    position: &Position,
    target: u8,
    most: usize,
    table: &mut B,
    meter: &mut M,
) -> Result<ScoredList, Halt>
    requires board { IsBoard position.now }
    ensures found { IfOk result (λ found. found.items ≡ take most (all_reaching position.now target)) }
    ensures ends { EndsAs (M.says meter.new) result }
    ensures limit { M.limit meter.new ≡ M.limit meter.old }
    ensures unsearched { (target ≡ 0) ⊎ (tricks_left position.now < target) → IsOk result }
{
    let classes = classes(position);
    first_reaching(position, classes.as_slice(), target, most, table, meter)
}

// The same, of these classes, by a question of each until there are so many.
fn first_reaching<B: Bounds, M: Meter>(
    position: &Position,
    classes: &[Class],
    target: u8,
    most: usize,
    table: &mut B,
    meter: &mut M,
) -> Result<ScoredList, Halt>
    requires board { IsBoard position.now }
    requires classes { classes.now ≡ classes_of position.now }
    ensures found { IfOk result (λ found. found.items ≡ take most (all_reaching position.now target)) }
    ensures ends { EndsAs (M.says meter.new) result }
    ensures limit { M.limit meter.new ≡ M.limit meter.old }
    ensures unsearched { (target ≡ 0) ⊎ (tricks_left position.now < target) → IsOk result }
{
    let mut answer = ArrayVec::new();
    for class in classes {
        if answer.len() == most {
            break;
        }
        if card_reaches(position, class.top, target, table, meter)? {
            answer.push(Scored {
                class: *class,
                score: target,
            });
        }
    }
    Ok(answer)
}

// Does this legal card reach the target? Without a search where every card does, or none can.
fn card_reaches<B: Bounds, M: Meter>(
    position: &Position,
    card: Card,
    target: u8,
    table: &mut B,
    meter: &mut M,
) -> Result<bool, Halt>
    requires board { IsBoard position.now }
    requires legal { has_card (legal position.now) card ≡ true }
    ensures answer { IfOk result (λ yes. yes ≡ nat_le target (score position.now card)) }
    ensures ends { EndsAs (M.says meter.new) result }
    ensures limit { M.limit meter.new ≡ M.limit meter.old }
    ensures unsearched { (target ≡ 0) ⊎ (tricks_left position.now < target) → IsOk result }
{
    if target == 0 {
        Ok(true)
    } else if target > position.tricks_left() {
        Ok(false)
    } else {
        reaches(position, card, target, table, meter)
    }
}
