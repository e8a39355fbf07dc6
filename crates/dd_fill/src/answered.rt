//! A strain of a deal whose results were searched for.
ghost use Rattle.std.specs.Prelude.{◌≡◌, IfSome};
ghost use Rattle.dd_fill.specs.Told.{IsRowTold};
ghost use Rattle.dd_bounds.specs.Spent.{IsSpent};

use crate::deal::Deal;
use crate::solving::{Row, solve_row};
use dd_bounds::Bounds;
use dd_cards::Strain;
use dd_request::Solver;
use std::marker::Model;

/// A strain of a deal with its results, or with none, where a search spent the budget.
#[derive(Drop)]
pub(crate) struct Answered {
    deal: Deal,
    strain: Strain,
    budget: Option<u64>,
    row: Option<Row>,
}

impl Model for Answered {
    ghost use Rattle.dd_fill.specs.Ahead.{AnsweredOf};
    ghost use Rattle.dd_fill.specs.Told.{IsRowTold};
    ghost use Rattle.dd_bounds.specs.Spent.{IsSpent};

    ghost Value = { AnsweredOf };

    ghost view = { λ a. record { deal = a.deal; strain = a.strain; budget = a.budget; row = a.row } };

    ghost invariant = { λ a. IsRowTold (IsSpent a.budget) a.deal a.strain a.row };
}

impl Answered {
    /// The strain of the deal with its results.
    pub(crate) fn new<S: Solver, B: Bounds>(
        deal: Deal,
        strain: Strain,
        solver: &S,
        table: &mut B,
        budget: Option<u64>,
    ) -> Answered {
        let row = solve_row(&deal, strain, solver, table, budget);
        Answered {
            deal,
            strain,
            budget,
            row,
        }
    }

    /// What was found for this strain of this deal within this budget, if that was searched for.
    pub(crate) fn row_of(
        self,
        deal: &Deal,
        strain: Strain,
        budget: Option<u64>,
    ) -> Option<Option<Row>>
        ensures { IfSome result (IsRowTold (IsSpent budget) deal.now strain) }
    {
        let Answered {
            deal: own,
            strain: of,
            budget: within,
            row,
        } = self;
        if within == budget && of == strain && own.is_same(deal) {
            Some(row)
        } else {
            None
        }
    }
}
