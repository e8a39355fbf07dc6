//! Who knows the results of deals, and says which games are left.
ghost use Rattle.std.specs.Prelude.{◌≡◌, IfSome};
ghost use Rattle.dd_fill.specs.Told.{IsRowTold, IsTold};
ghost use Rattle.dd_bounds.specs.Spent.{IsSpent};

use crate::deal::Deal;
use crate::limit::{Limit, LimitName};
use crate::note::{no_game, note_of};
use crate::pool::Pool;
use crate::progress::{say, show_progress};
use crate::solving::{CLUBS, DIAMONDS, HEARTS, Row, SPADES, results_by_strains, solve_row};
use dd_bounds::Bounds;
use dd_cards::{Hands, Strain};
use dd_file::{Analyst, Reason};
use dd_lines::CountedDevice;
use dd_request::Solver;
use dd_score::Results;
use std::io::Write;
use std::sync::Wait;

/// Takes results from those that search ahead for a pool, if there is one. Where they have none it searches over a table, each
/// time within a limit. It says on a device which games are left, and that a file has none.
// What it has but for the table and the device is behind shared references: else its makers learn nothing of these two.
#[derive(Drop)]
pub(crate) struct DealAnalyst<'r, 'p, 't, 'e, W, S, B, E, N: LimitName> {
    pub(crate) rt: &'r W,
    pub(crate) pool: &'p Option<&'p Pool>,
    pub(crate) solver: &'r S,
    pub(crate) table: &'t mut B,
    pub(crate) errors: &'e mut CountedDevice<E>,
    pub(crate) shows_progress: bool,
    pub(crate) limit: &'r Limit<N>,
}

impl<'r, 'p, 't, 'e, W: Wait, S: Solver, B: Bounds, E: Write, N: LimitName> DealAnalyst<
    'r,
    'p,
    't,
    'e,
    W,
    S,
    B,
    E,
    N,
> {
    /// Nothing was asked and told yet.
    pub(crate) fn new(
        rt: &'r W,
        pool: &'p Option<&'p Pool>,
        solver: &'r S,
        table: &'t mut B,
        errors: &'e mut CountedDevice<E>,
        shows_progress: bool,
        limit: &'r Limit<N>,
    ) -> DealAnalyst<'r, 'p, 't, 'e, W, S, B, E, N>
        ensures same_table { result.table.ghost_name ≡ table.entry.ghost_name }
        ensures same_reference { result.errors.ghost_name ≡ errors.entry.ghost_name }
        ensures errors { result.errors.now ≡ errors.old }
        ensures shows { result.shows_progress ≡ shows_progress }
    {
        DealAnalyst {
            rt,
            pool,
            solver,
            table,
            errors,
            shows_progress,
            limit,
        }
    }
}

impl<'r, 'p, 't, 'e, W: Wait, S: Solver, B: Bounds, E: Write, N: LimitName> Analyst
    for DealAnalyst<'r, 'p, 't, 'e, W, S, B, E, N> {
    ghost use Rattle.dd_fill.specs.Ahead.{SayingOf, SaysTold};
    ghost use Rattle.dd_fill.specs.Said.{sink_of};
    ghost use Rattle.dd_fill.specs.Told.{IsTold};
    ghost use Rattle.dd_bounds.specs.Spent.{IsSpent};

    ghost gives = { IsTold (IsSpent N.positions) };

    ghost State = { SayingOf };

    ghost state = { λ a. record {
      table = a.table.ghost_name;
      reference = a.errors.ghost_name;
      shows = a.shows_progress;
      errors = sink_of E.contents a.errors.now;
    } };

    ghost way = { SaysTold };

    fn results(&mut self, deal: &Hands) -> Option<Results> {
        results_of(
            self.rt,
            *self.pool,
            &Deal::new(deal),
            self.solver,
            &mut *self.table,
            self.limit.positions,
        )
    }

    fn foresees(&self) -> bool {
        self.pool.is_some()
    }

    fn foresee(&mut self, deal: &Hands) {
        if let Some(pool) = *self.pool {
            pool.take_in(self.rt, deal);
        }
    }

    fn passed(&mut self, games: u64, bytes: u64) {
        show_progress(self.shows_progress, games, bytes, &mut *self.errors);
    }

    fn left(&mut self, game: u64, board: &[u8], reason: Reason, unknown: &[u8]) {
        let note = note_of(game, board, reason, unknown);
        say(note.as_slice(), &mut *self.errors, self.shows_progress);
    }

    fn ended(&mut self, games: u64) {
        if games == 0 {
            say(no_game().as_bytes(), &mut *self.errors, self.shows_progress);
        }
    }
}

// The results of a deal. Once those of a strain are given up the others are not asked for.
fn results_of<W: Wait, S: Solver, B: Bounds>(
    rt: &W,
    pool: Option<&Pool>,
    deal: &Deal,
    solver: &S,
    table: &mut B,
    budget: Option<u64>,
) -> Option<Results>
    ensures { IsTold (IsSpent budget) deal.now result }
{
    let spades = row_of(rt, pool, deal, SPADES, solver, table, budget)?;
    let hearts = row_of(rt, pool, deal, HEARTS, solver, table, budget)?;
    let diamonds = row_of(rt, pool, deal, DIAMONDS, solver, table, budget)?;
    let clubs = row_of(rt, pool, deal, CLUBS, solver, table, budget)?;
    let notrump = row_of(rt, pool, deal, Strain::Notrump, solver, table, budget)?;
    Some(results_by_strains(deal, [spades, hearts, diamonds, clubs, notrump]))
}

// The results of a deal in a strain.
fn row_of<W: Wait, S: Solver, B: Bounds>(
    rt: &W,
    pool: Option<&Pool>,
    deal: &Deal,
    strain: Strain,
    solver: &S,
    table: &mut B,
    budget: Option<u64>,
) -> Option<Row>
    ensures { IsRowTold (IsSpent budget) deal.now strain result }
{
    match found_ahead(rt, pool, deal, strain, budget) {
        Some(told) => told,
        None => solve_row(deal, strain, solver, table, budget),
    }
}

// What a thread has found for them, if one searched for them.
fn found_ahead<W: Wait>(
    rt: &W,
    pool: Option<&Pool>,
    deal: &Deal,
    strain: Strain,
    budget: Option<u64>,
) -> Option<Option<Row>>
    ensures { IfSome result (IsRowTold (IsSpent budget) deal.now strain) }
{
    pool?.row_of(rt, deal, strain, budget)
}
