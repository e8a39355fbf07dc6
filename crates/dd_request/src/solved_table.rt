//! The twenty results of a deal.
ghost use Rattle.std.specs.Prelude.{◌≡◌, ◌≤◌, ◌↔◌, IsTrue, IfNone, IfSome, length, map};
ghost use Rattle.std.specs.List.{flat_map, range_with_len};
ghost use Rattle.dd_cards.specs.Hands.{FourHands};
ghost use Rattle.dd_request.specs.Results.{all_parts, part_result, hands_results};

use crate::solved_part::SolvedPart;
use crate::table_request::TableRequest;
use arrayvec::ArrayVec;
use std::marker::Model;

/// The number of results.
pub const RESULTS: usize = 20;

/// The results of a table that is being made.
type TricksList = ArrayVec<u8, RESULTS>;

/// Twenty results: the tricks of each declarer, by strain (spades, hearts, diamonds, clubs, notrump), then by declarer
/// (North, East, South, West).
#[derive(Drop)]
pub struct Results {
    tricks: TricksList,
}

impl Model for Results {
    ghost use Rattle.std.specs.Prelude.{◌≡◌, List, ℕ, length};

    ghost Value = { List ℕ };

    ghost view = { λ r. r.tricks.items };

    ghost invariant = { λ r. length r.tricks.items ≡ 20 };
}

impl Results {
    // Results of these numbers.
    fn of(tricks: TricksList) -> Results
        requires { length tricks.items ≡ RESULTS }
        ensures { result ≡ tricks.items }
    {
        Results { tricks }
    }

    /// Results of these numbers, which are those of the strains, in their order.
    pub fn by_strains(rows: [[u8; 4]; 5]) -> Results
        ensures { result ≡ flat_map (λ row. row) rows }
    {
        Results {
            tricks: ArrayVec::try_from(rows.as_flattened()).unwrap_or_default(),
        }
    }

    /// The twenty numbers, in their order.
    pub fn as_slice(&self) -> &[u8]
        ensures tricks { result.now ≡ self.now }
        ensures twenty { length result.now ≡ RESULTS }
    {
        self.tricks.as_slice()
    }

    /// The same results. It takes no memory.
    pub fn copy(&self) -> Results
        ensures { result ≡ self.now }
    {
        Results {
            tricks: ArrayVec::try_from(self.tricks.as_slice()).unwrap_or_default(),
        }
    }
}

/// A request for a table with its results.
#[derive(Drop)]
pub struct SolvedTable {
    request: TableRequest,
    results: Results,
}

impl Model for SolvedTable {
    ghost use Rattle.std.specs.Prelude.{◌≡◌};
    ghost use Rattle.dd_request.specs.Results.{HandsResults, results as results_of};

    ghost Value = { HandsResults };

    ghost view = { λ t. record { hands = t.request; results = t.results } };

    ghost invariant = { λ t. t.results ≡ results_of t.request };
}

impl SolvedTable {
    /// The table that these parts are: `None` unless they are the parts 0 to 19 of one request, in this order.
    pub fn of(parts: &[SolvedPart]) -> Option<SolvedTable>
        ensures some { IfSome result (λ table. (parts.now ≡ all_parts table.hands) ×
            (table ≡ hands_results table.hands)) }
        ensures none { IfNone result ((hands : FourHands) → parts.now ≡ all_parts hands → ⊥) }
    {
        let [first, ..] = parts else {
            return None;
        };
        let request = first.request();
        if !are_all_parts(request, parts) {
            return None;
        }
        Some(SolvedTable {
            request: request.copy(),
            results: results_of(parts),
        })
    }

    /// What was asked.
    pub fn request(&self) -> &TableRequest
        ensures { result.now ≡ self.now.hands }
    {
        &self.request
    }

    /// The twenty results.
    pub fn results(&self) -> &Results
        ensures value { result.now ≡ self.now.results }
        ensures solved { self.now ≡ hands_results self.now.hands }
    {
        &self.results
    }

    /// The same request with the same results. It takes no memory.
    pub fn copy(&self) -> SolvedTable
        ensures { result ≡ self.now }
    {
        SolvedTable {
            request: self.request.copy(),
            results: self.results.copy(),
        }
    }
}

// Are these the parts 0 to 19 of the request, in order?
fn are_all_parts(request: &TableRequest, parts: &[SolvedPart]) -> bool
    ensures { IsTrue result ↔ (parts.now ≡ all_parts request.now) }
{
    parts.len() == RESULTS && are_first_parts(request, parts)
}

// Is the part at each place the part of this number of the request?
fn are_first_parts(request: &TableRequest, parts: &[SolvedPart]) -> bool
    requires { length parts.now ≤ RESULTS }
    ensures { IsTrue result ↔
        (parts.now ≡ map (part_result request.now) (range_with_len 0 (length parts.now))) }
{
    for (place, part) in parts.iter().enumerate() {
        if !part.is_part_of(request, place) {
            return false;
        }
    }
    true
}

// The results of all parts.
fn results_of(parts: &[SolvedPart]) -> Results
    requires { length parts.now ≡ RESULTS }
    ensures { result ≡ map (λ part. part.tricks) parts.now }
{
    let mut tricks = ArrayVec::new();
    for part in parts {
        tricks.push(part.tricks());
    }
    Results::of(tricks)
}
