//! All parts of a table, one after another.
ghost use Rattle.std.specs.Prelude.{◌≡◌, ◌<◌, IfNone, IfSome};
ghost use Rattle.dd_bounds.specs.Spent.{IsSpent, IsTicked};
ghost use Rattle.dd_request.specs.Results.{contract_of, results, strain_results, tricks_of};

use crate::table_part::solve_part_from_guess;
use dd_bounds::{Bounds, Budget, Endless};
use dd_cards::{Seat, Strain, Suit};
use dd_request::{PARTS, Results, TableRequest};

/// Finds the results of a table. The budget is the most positions that the search for one of them visits, and `None` lets
/// each search go on to its end. `None` where a search spent its budget.
pub fn solve_table<B: Bounds>(
    request: &TableRequest,
    table: &mut B,
    budget: Option<u64>,
) -> Option<Results>
    ensures results { IfSome result (λ found. found ≡ results request.now) }
    ensures ticked { IfSome result (λ _. IsTicked budget) }
    ensures spent { IfNone result (IsSpent budget) }
{
    let spades = solve_strain(request, Strain::Trump(Suit::Spades), table, budget)?;
    let hearts = solve_strain(request, Strain::Trump(Suit::Hearts), table, budget)?;
    let diamonds = solve_strain(request, Strain::Trump(Suit::Diamonds), table, budget)?;
    let clubs = solve_strain(request, Strain::Trump(Suit::Clubs), table, budget)?;
    let notrump = solve_strain(request, Strain::Notrump, table, budget)?;
    Some(Results::by_strains([spades, hearts, diamonds, clubs, notrump]))
}

/// Finds the results of a strain: those of North, East, South and West as declarers. The budget is that of each search, as in
/// `solve_table`. `None` where a search spent it.
// North and South lead first: what is learned of the one helps with the other most. North and South take about as many tricks
// whoever leads, so each search begins near the result before it.
pub fn solve_strain<B: Bounds>(
    request: &TableRequest,
    strain: Strain,
    table: &mut B,
    budget: Option<u64>,
) -> Option<[u8; 4]>
    ensures results { IfSome result (λ found. found ≡ strain_results request.now strain) }
    ensures ticked { IfSome result (λ _. IsTicked budget) }
    ensures spent { IfNone result (IsSpent budget) }
{
    let all = request.hands().len(Seat::North);
    let west = tricks_within(request, strain, Seat::West, None, table, budget)?;
    let first_guess = all.saturating_sub(west);
    let east = tricks_within(
        request,
        strain,
        Seat::East,
        Some(first_guess),
        table,
        budget,
    )?;
    let first_guess = all.saturating_sub(east);
    let north = tricks_within(
        request,
        strain,
        Seat::North,
        Some(first_guess),
        table,
        budget,
    )?;
    let south = tricks_within(request, strain, Seat::South, Some(north), table, budget)?;
    Some([north, east, south, west])
}

// The tricks of a declarer in a strain, where North and South are thought to take some `first_guess` tricks. `None` where the
// search spent its budget.
fn tricks_within<B: Bounds>(
    request: &TableRequest,
    strain: Strain,
    declarer: Seat,
    first_guess: Option<u8>,
    table: &mut B,
    budget: Option<u64>,
) -> Option<u8>
    ensures tricks { IfSome result (λ tricks. tricks
        ≡ tricks_of request.now (record { strain = strain; declarer = declarer })) }
    ensures ticked { IfSome result (λ _. IsTicked budget) }
    ensures spent { IfNone result (IsSpent budget) }
{
    let part = 4 * strain.code() + declarer.code();
    part_within(request, part, first_guess, table, budget)
}

// The same of the part that is this contract.
fn part_within<B: Bounds>(
    request: &TableRequest,
    part: u8,
    first_guess: Option<u8>,
    table: &mut B,
    budget: Option<u64>,
) -> Option<u8>
    requires { part < PARTS }
    ensures tricks { IfSome result (λ tricks. tricks ≡ tricks_of request.now (contract_of part)) }
    ensures ticked { IfSome result (λ _. IsTicked budget) }
    ensures spent { IfNone result (IsSpent budget) }
{
    let solved = match budget {
        Some(limit) => solve_part_from_guess(
            request,
            part,
            first_guess,
            table,
            &mut Budget::new(limit),
        ),
        None => solve_part_from_guess(request, part, first_guess, table, &mut Endless),
    };
    match (solved, budget) {
        (Ok(solved), _) => Some(solved.tricks()),
        (Err(_), Some(_)) => None,
        (Err(_), None) => unreachable!(),
    }
}
