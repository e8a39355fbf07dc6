//! Who answers requests.
ghost use Rattle.std.specs.Prelude.{◌≡◌, IfNone, IfSome};
ghost use Rattle.dd_bounds.specs.Spent.{IsSpent};
ghost use Rattle.dd_request.specs.Plays.{play_trace};
ghost use Rattle.dd_request.specs.Questions.{solved_question};
ghost use Rattle.dd_request.specs.Results.{results, strain_results};
ghost use Rattle.dd_request.specs.Targets.{solved_target};

use crate::play_request::PlayRequest;
use crate::request::Request;
use crate::solved::Solved;
use crate::solved_play::SolvedPlay;
use crate::solved_table::Results;
use crate::solved_target::SolvedTarget;
use crate::table_request::TableRequest;
use crate::target_request::TargetRequest;
use dd_bounds::Bounds;
use dd_cards::Strain;

/// Answers requests over a table, each within a budget. The budget is the most positions that the search for the answer visits, for a
/// table and a strain the search for each result, and for a play the search for each number; `None` lets each go on to its end. It is
/// answered `None` where a search spent its budget.
pub trait Solver {
    /// The cards of a position, with their scores.
    fn solve<B: Bounds>(
        &self,
        request: Request,
        table: &mut B,
        budget: Option<u64>,
    ) -> Option<Solved>
        ensures solved { IfSome result (λ solved. solved ≡ solved_question request) }
        ensures spent { IfNone result (IsSpent budget) };

    /// The cards of a position that reach a target.
    fn solve_target<B: Bounds>(
        &self,
        request: TargetRequest,
        table: &mut B,
        budget: Option<u64>,
    ) -> Option<SolvedTarget>
        ensures solved { IfSome result (λ solved. solved ≡ solved_target request) }
        ensures spent { IfNone result (IsSpent budget) };

    /// The twenty results of hands.
    fn solve_table<B: Bounds>(
        &self,
        request: &TableRequest,
        table: &mut B,
        budget: Option<u64>,
    ) -> Option<Results>
        ensures results { IfSome result (λ found. found ≡ results request.now) }
        ensures spent { IfNone result (IsSpent budget) };

    /// The results of hands in a strain: those of North, East, South and West as declarers.
    fn solve_strain<B: Bounds>(
        &self,
        request: &TableRequest,
        strain: Strain,
        table: &mut B,
        budget: Option<u64>,
    ) -> Option<[u8; 4]>
        ensures results { IfSome result (λ found. found ≡ strain_results request.now strain) }
        ensures spent { IfNone result (IsSpent budget) };

    /// The tricks before the first card of a play and after each one.
    fn solve_play<B: Bounds>(
        &self,
        request: PlayRequest,
        table: &mut B,
        budget: Option<u64>,
    ) -> Option<SolvedPlay>
        ensures solved { IfSome result (λ solved. solved ≡ play_trace request) }
        ensures spent { IfNone result (IsSpent budget) };
}
