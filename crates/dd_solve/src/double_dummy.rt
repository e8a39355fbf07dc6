//! Requests are answered by searches.
ghost use Rattle.dd_bounds.specs.Spent.{IsSpent};

use crate::play_solving::solve_play;
use crate::solving::solve;
use crate::table_solving::{solve_strain, solve_table};
use crate::target_solving::solve_target;
use dd_bounds::{Bounds, Budget, Endless, Halt};
use dd_cards::Strain;
use dd_request::{
    PlayRequest, Request, Results, Solved, SolvedPlay, SolvedTarget, Solver, TableRequest,
    TargetRequest,
};

/// Answers each request by a search, to the last trick.
#[derive(Clone, Copy, Debug, Drop)]
pub struct DoubleDummy;

impl Solver for DoubleDummy {
    fn solve<B: Bounds>(
        &self,
        request: Request,
        table: &mut B,
        budget: Option<u64>,
    ) -> Option<Solved> {
        match budget {
            Some(limit) => match solve(request, table, &mut Budget::new(limit)) {
                Ok(solved) => Some(solved),
                Err(Halt::Spent) => None,
                Err(Halt::Stopped) => unreachable!(),
            },
            None => match solve(request, table, &mut Endless) {
                Ok(solved) => Some(solved),
                Err(_) => unreachable!(),
            },
        }
    }

    fn solve_target<B: Bounds>(
        &self,
        request: TargetRequest,
        table: &mut B,
        budget: Option<u64>,
    ) -> Option<SolvedTarget> {
        match budget {
            Some(limit) => match solve_target(request, table, &mut Budget::new(limit)) {
                Ok(solved) => Some(solved),
                Err(Halt::Spent) => None,
                Err(Halt::Stopped) => unreachable!(),
            },
            None => match solve_target(request, table, &mut Endless) {
                Ok(solved) => Some(solved),
                Err(_) => unreachable!(),
            },
        }
    }

    fn solve_table<B: Bounds>(
        &self,
        request: &TableRequest,
        table: &mut B,
        budget: Option<u64>,
    ) -> Option<Results> {
        solve_table(request, table, budget)
    }

    fn solve_strain<B: Bounds>(
        &self,
        request: &TableRequest,
        strain: Strain,
        table: &mut B,
        budget: Option<u64>,
    ) -> Option<[u8; 4]> {
        solve_strain(request, strain, table, budget)
    }

    fn solve_play<B: Bounds>(
        &self,
        request: PlayRequest,
        table: &mut B,
        budget: Option<u64>,
    ) -> Option<SolvedPlay> {
        solve_play(request, table, budget)
    }
}
