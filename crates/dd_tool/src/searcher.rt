//! Who finds what lines ask for.
ghost use Rattle.std.specs.Prelude.{◌≡◌};

use dd_bounds::Bounds;
use dd_request::{
    PlayRequest, Request, Results, Solved, SolvedPlay, SolvedTarget, Solver, TableRequest,
    TargetRequest,
};
use dd_wire::Finder;

/// Asks a solver over a table, each time within the budget or to the end.
#[derive(Drop)]
pub(crate) struct Searcher<'s, 't, S, B> {
    solver: &'s S,
    table: &'t mut B,
    budget: Option<u64>,
}

impl<'s, 't, S: Solver, B: Bounds> Searcher<'s, 't, S, B> {
    /// The budget is the most positions that one search visits; `None` lets each go on to its end.
    pub(crate) fn new(
        solver: &'s S,
        table: &'t mut B,
        budget: Option<u64>,
    ) -> Searcher<'s, 't, S, B>
        ensures same_table { result.table.ghost_name ≡ table.entry.ghost_name }
        ensures budget { result.budget ≡ budget }
    {
        Searcher {
            solver,
            table,
            budget,
        }
    }
}

impl<'s, 't, S: Solver, B: Bounds> Finder for Searcher<'s, 't, S, B> {
    ghost use Rattle.dd_bounds.specs.Spent.{IsSpent};

    ghost gave_up = { λ s. IsSpent s.budget };

    fn solve(&mut self, request: Request) -> Option<Solved> {
        self.solver.solve(request, &mut *self.table, self.budget)
    }

    fn solve_table(&mut self, request: &TableRequest) -> Option<Results> {
        self.solver
            .solve_table(request, &mut *self.table, self.budget)
    }

    fn solve_target(&mut self, request: TargetRequest) -> Option<SolvedTarget> {
        self.solver
            .solve_target(request, &mut *self.table, self.budget)
    }

    fn solve_play(&mut self, request: PlayRequest) -> Option<SolvedPlay> {
        self.solver
            .solve_play(request, &mut *self.table, self.budget)
    }
}
