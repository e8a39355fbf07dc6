//! The parts of a table, each of which is solved by itself.
ghost use Rattle.std.specs.Prelude.{◌≡◌, ◌-◌, ◌<◌, ◌≤◌, ◌↔◌, ◌&&◌, ◌==◌, [], IfOk, IsOk, IsTrue, OnOk};
ghost use Rattle.dd_cards.specs.Same.{same_hands};
ghost use Rattle.dd_cards.specs.Sides.{side_of};
ghost use Rattle.dd_play.specs.Board.{tricks_left, mover};
ghost use Rattle.dd_play.specs.Value.{leaders_tricks};
ghost use Rattle.dd_play.specs.Won.{won};
ghost use Rattle.dd_bounds.specs.Budgets.{EndsAs, IsEndless};
ghost use Rattle.dd_request.specs.Results.{part_result};

use crate::solving::note_value;
use dd_bounds::{Bounds, Halt, Meter};
use dd_play::{Position, TrickStart};
use dd_request::{PARTS, SolvedPart, TableRequest};
use dd_search::{start_value, start_value_from_guess};

/// Finds the result of a part, 0 to 19, of a table: the tricks of the declarer's side. It takes no memory. An error says why
/// the search ended without a result; what was noted by then holds.
pub fn solve_part<B: Bounds, M: Meter>(
    request: &TableRequest,
    part: u8,
    table: &mut B,
    meter: &mut M,
) -> Result<SolvedPart, Halt>
    requires { part < PARTS }
    ensures solved { IfOk result (λ solved. solved ≡ part_result request.now part) }
    ensures ticked { OnOk result (M.ticked meter.old meter.new) }
    ensures ends { EndsAs (M.says meter.new) result }
    ensures limit { M.limit meter.new ≡ M.limit meter.old }
    // It has a result where the meter can say nothing else than to go on.
    ensures answers { IsEndless M.says → IsOk result }
{
    solve_part_from_guess(request, part, None, table, meter)
}

/// The same, where North and South are thought to take some `first_guess` tricks, any number: the search is the shorter the
/// nearer that is.
pub fn solve_part_from_guess<B: Bounds, M: Meter>(
    request: &TableRequest,
    part: u8,
    first_guess: Option<u8>,
    table: &mut B,
    meter: &mut M,
) -> Result<SolvedPart, Halt>
    requires { part < PARTS }
    ensures solved { IfOk result (λ solved. solved ≡ part_result request.now part) }
    ensures ticked { OnOk result (M.ticked meter.old meter.new) }
    ensures ends { EndsAs (M.says meter.new) result }
    ensures limit { M.limit meter.new ≡ M.limit meter.old }
    ensures answers { IsEndless M.says → IsOk result }
{
    let tricks = declarers_tricks(&request.opening(part), first_guess, table, meter)?;
    Ok(SolvedPart::of(request.copy(), part, tricks))
}

// The tricks of the side that does not lead.
fn declarers_tricks<B: Bounds, M: Meter>(
    position: &Position,
    first_guess: Option<u8>,
    table: &mut B,
    meter: &mut M,
) -> Result<u8, Halt>
    requires start { position.now.trick ≡ [] }
    ensures tricks { IfOk result (λ tricks. tricks ≡ tricks_left position.now - leaders_tricks position.now) }
    ensures bound { IfOk result (λ tricks. tricks ≤ 13) }
    ensures ticked { OnOk result (M.ticked meter.old meter.new) }
    ensures ends { EndsAs (M.says meter.new) result }
    ensures limit { M.limit meter.new ≡ M.limit meter.old }
    ensures answers { IsEndless M.says → IsOk result }
{
    let leaders = tricks_of_leaders(position, first_guess, table, meter)?;
    Ok(position.tricks_left() - leaders)
}

// The tricks of the side that leads.
fn tricks_of_leaders<B: Bounds, M: Meter>(
    position: &Position,
    first_guess: Option<u8>,
    table: &mut B,
    meter: &mut M,
) -> Result<u8, Halt>
    requires start { position.now.trick ≡ [] }
    ensures value { IfOk result (λ tricks. tricks ≡ leaders_tricks position.now) }
    ensures ticked { OnOk result (M.ticked meter.old meter.new) }
    ensures ends { EndsAs (M.says meter.new) result }
    ensures limit { M.limit meter.new ≡ M.limit meter.old }
    ensures answers { IsEndless M.says → IsOk result }
{
    match TrickStart::of(position) {
        Some(start) => value_at_start(&start, first_guess, table, meter),
        None => unreachable!(),
    }
}

// The same of a start of a trick. Its value is noted, so that who asks again is told at once.
fn value_at_start<B: Bounds, M: Meter>(
    start: &TrickStart,
    first_guess: Option<u8>,
    table: &mut B,
    meter: &mut M,
) -> Result<u8, Halt>
    ensures value { IfOk result (λ tricks. tricks ≡ leaders_tricks start.now) }
    ensures ticked { OnOk result (M.ticked meter.old meter.new) }
    ensures ends { EndsAs (M.says meter.new) result }
    ensures limit { M.limit meter.new ≡ M.limit meter.old }
    ensures answers { IsEndless M.says → IsOk result }
{
    match first_guess {
        Some(first_guess) => {
            let (tricks, depths) = start_value_from_guess(start, first_guess, table, meter)?;
            note_value(start, tricks, depths, table);
            Ok(tricks)
        }
        None => {
            let (tricks, depths) = start_value(start, table, meter)?;
            note_value(start, tricks, depths, table);
            Ok(tricks)
        }
    }
}
