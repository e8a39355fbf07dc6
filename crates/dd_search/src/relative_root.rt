//! The leads of a start of a trick by the ranks and seats of the deal, tried at the start by relative ranks.
ghost use Rattle.std.specs.Prelude.{◌≡◌, ◌≤◌, IfOk, OnOk};
ghost use Rattle.dd_play.specs.Board.{tricks_left};
ghost use Rattle.dd_rank.specs.Strings.{strings_of};
ghost use Rattle.dd_bounds.specs.Budgets.{EndsAs};
ghost use Rattle.dd_search.specs.ClaimsBy.{IsAnswer, IsAnswerBy};

use crate::halt_word::HaltWord;
use crate::relative_window::relative_by_lead;
use crate::verdict::Verdict;
use dd_bounds::{Bounds, Meter};
use dd_play::TrickStart;
use dd_rank::{Depths, OwnerStrings, alike_claims, alike_strings, covered_positions};
use dd_relative::{KnownStart, PlacedTrick, RelativeStart};

/// Do North and South take at least `need` of the tricks left, by the leads of a start with these strings? They are tried at the start
/// that is alike by relative ranks, where the leader is North, and what is told there is turned back.
pub(crate) fn by_relative_ranks<B: Bounds, M: Meter>(
    start: &TrickStart,
    strings: &OwnerStrings,
    need: u8,
    table: &mut B,
    meter: &mut M,
) -> Result<Verdict, HaltWord>
    requires strings { strings.now ≡ strings_of start.now }
    requires low { 1 ≤ need }
    requires high { need ≤ tricks_left start.now }
    ensures answer { IfOk result (λ answer. IsAnswer start.now need answer.yes) }
    ensures winning_ranks { IfOk result (λ answer. IsAnswerBy start.now need answer.cards answer.yes) }
    ensures ticked { (m : M) → M.ticked m meter.old → OnOk result (M.ticked m meter.new) }
    ensures ends { EndsAs (M.says meter.new) result }
    ensures limit { M.limit meter.new ≡ M.limit meter.old }
{
    alike_claims();
    alike_strings();
    covered_positions();
    let position = start.position();
    let leads = position.first().is_north_south();
    let left = position.tricks_left();
    let asked = if leads { need } else { left + 1 - need };
    let relative = RelativeStart::of(start);
    let there = relative.as_trick_start();
    // Alike starts have the same strings.
    let known = KnownStart::new(&relative, strings, position.first());
    let trick = PlacedTrick::led(&known);
    let found = relative_by_lead(&trick, asked, table, meter)?;
    let depths = Depths::of_cards(there, found.ranks().cards());
    Ok(Verdict::new(found.is_yes() == leads, depths.cards(start)))
}
