//! The lines of a game whose results were told.
ghost use Rattle.std.specs.Prelude.{◌≡◌, ◌++◌, OnOk};
ghost use Rattle.dd_file.specs.Filled.{IsParFound, added_text, par_text, where_lacking};
ghost use Rattle.dd_file.specs.Lines.{contract_line, line_with, score_line, table_text, tricks_line};
ghost use Rattle.dd_file.specs.Passing.{AddsFound, par_found};

use crate::fill_state::Conditions;
use crate::line_text::{LineEnds, push_contracts, push_score, push_table, push_tricks};
use crate::wanted::Wanted;
use dd_score::{Order, ParResult, Results, par};
use std::alloc::AllocError;

/// Adds the lines for these results.
pub(crate) fn push_found(
    out: &mut Vec<u8>,
    ends: LineEnds,
    lacking: Wanted,
    results: &Results,
    conditions: Option<Conditions>,
) -> Result<(), AllocError>
    ensures { OnOk result (AddsFound ends lacking results.now conditions out.old.items out.new.items) }
{
    let found = par_of(results, conditions);
    push_lines(out, ends, lacking, results, &found)
}

// Par, where who calls first and which sides are vulnerable is known.
fn par_of(results: &Results, conditions: Option<Conditions>) -> Option<ParResult>
    ensures { IsParFound results.now conditions (par_found result) }
{
    match conditions {
        Some(conditions) => Some(par(
            results,
            conditions.vulnerable,
            Order::Dealer(conditions.dealer),
        )),
        None => None,
    }
}

// Adds those lines that are lacking.
#[tactic(auto, unfolding(crate::specs::Filled::added_text))]
fn push_lines(
    out: &mut Vec<u8>,
    ends: LineEnds,
    lacking: Wanted,
    results: &Results,
    found: &Option<ParResult>,
) -> Result<(), AllocError>
    ensures { OnOk result (out.new.items ≡ out.old.items
        ++ added_text ends lacking (record { table = results.now; par = par_found found.now })) }
{
    push_lacking_tricks(out, ends, lacking, results)?;
    push_lacking_par(out, ends, lacking, found)?;
    push_lacking_table(out, ends, lacking, results)
}

fn push_lacking_tricks(
    out: &mut Vec<u8>,
    ends: LineEnds,
    lacking: Wanted,
    results: &Results,
) -> Result<(), AllocError>
    ensures { OnOk result (out.new.items ≡ out.old.items
        ++ where_lacking lacking.tricks (line_with ends (tricks_line results.now))) }
{
    if lacking.tricks {
        push_tricks(out, ends, results)
    } else {
        Ok(())
    }
}

fn push_lacking_table(
    out: &mut Vec<u8>,
    ends: LineEnds,
    lacking: Wanted,
    results: &Results,
) -> Result<(), AllocError>
    ensures { OnOk result (out.new.items ≡ out.old.items
        ++ where_lacking lacking.table (table_text ends results.now)) }
{
    if lacking.table {
        push_table(out, ends, results)
    } else {
        Ok(())
    }
}

fn push_lacking_par(
    out: &mut Vec<u8>,
    ends: LineEnds,
    lacking: Wanted,
    found: &Option<ParResult>,
) -> Result<(), AllocError>
    ensures { OnOk result (out.new.items ≡ out.old.items ++ par_text ends lacking (par_found found.now)) }
{
    match found {
        Some(found) => push_par(out, ends, lacking, found),
        None => Ok(()),
    }
}

fn push_par(
    out: &mut Vec<u8>,
    ends: LineEnds,
    lacking: Wanted,
    found: &ParResult,
) -> Result<(), AllocError>
    ensures { OnOk result (out.new.items ≡ out.old.items
        ++ (where_lacking lacking.score (line_with ends (score_line found.now.score))
        ++ where_lacking lacking.contract (line_with ends (contract_line found.now.contracts.items)))) }
{
    push_lacking_score(out, ends, lacking, found.score)?;
    if lacking.contract {
        push_contracts(out, ends, found.contracts.as_slice())
    } else {
        Ok(())
    }
}

fn push_lacking_score(
    out: &mut Vec<u8>,
    ends: LineEnds,
    lacking: Wanted,
    score: i16,
) -> Result<(), AllocError>
    ensures { OnOk result (out.new.items ≡ out.old.items
        ++ where_lacking lacking.score (line_with ends (score_line score))) }
{
    if lacking.score {
        push_score(out, ends, score)
    } else {
        Ok(())
    }
}
