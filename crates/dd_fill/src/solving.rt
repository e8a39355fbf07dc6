//! The results of a deal by strains, found over a table.
ghost use Rattle.std.specs.Prelude.{◌≡◌};
ghost use Rattle.dd_fill.specs.Told.{table_of, IsRowTold};
ghost use Rattle.dd_bounds.specs.Spent.{IsSpent};

use crate::deal::Deal;
use dd_bounds::Bounds;
use dd_cards::{Strain, Suit};
use dd_request::Solver;
use dd_score::Results;

/// The strains, by their codes.
pub(crate) const SPADES: Strain = Strain::Trump(Suit::Spades);

pub(crate) const HEARTS: Strain = Strain::Trump(Suit::Hearts);

pub(crate) const DIAMONDS: Strain = Strain::Trump(Suit::Diamonds);

pub(crate) const CLUBS: Strain = Strain::Trump(Suit::Clubs);

/// The results of a deal in a strain: the tricks of North, East, South and West as declarers.
pub(crate) type Row = [u8; 4];

/// The results of a deal, which are these of its strains.
pub(crate) fn results_by_strains(deal: &Deal, rows: [Row; 5]) -> Results
    requires { rows ≡ table_of deal.now }
    ensures { result ≡ table_of deal.now }
{
    // The proof reads here that the hands have thirteen cards each.
    let _request = deal.request();
    match Results::new(rows) {
        Some(results) => results,
        None => unreachable!(),
    }
}

/// The results of a deal in a strain, each within the budget.
pub(crate) fn solve_row<S: Solver, B: Bounds>(
    deal: &Deal,
    strain: Strain,
    solver: &S,
    table: &mut B,
    budget: Option<u64>,
) -> Option<Row>
    ensures { IsRowTold (IsSpent budget) deal.now strain result }
{
    solver.solve_strain(&deal.request(), strain, table, budget)
}
