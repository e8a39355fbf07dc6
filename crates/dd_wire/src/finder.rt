//! Who finds what lines ask for.
ghost use Rattle.std.specs.Prelude.{◌≡◌, IfNone, IfSome};
ghost use Rattle.dd_request.specs.Plays.{play_trace};
ghost use Rattle.dd_request.specs.Questions.{solved_question};
ghost use Rattle.dd_request.specs.Results.{results};
ghost use Rattle.dd_request.specs.Targets.{solved_target};

use dd_request::{
    PlayRequest, Request, Results, Solved, SolvedPlay, SolvedTarget, TableRequest, TargetRequest,
};

/// Finds the answers to questions, or gives one up, as where a budget is spent.
pub trait Finder {
    /// what holds where one was given up
    ghost gave_up: { Self → Type 0 };

    /// The cards of a position, with their scores.
    fn solve(&mut self, request: Request) -> Option<Solved>
        ensures solved { IfSome result (λ solved. solved ≡ solved_question request) }
        ensures none { IfNone result (gave_up self.old) };

    /// The twenty results of hands.
    fn solve_table(&mut self, request: &TableRequest) -> Option<Results>
        ensures results { IfSome result (λ found. found ≡ results request.now) }
        ensures none { IfNone result (gave_up self.old) };

    /// The cards of a position that reach a target.
    fn solve_target(&mut self, request: TargetRequest) -> Option<SolvedTarget>
        ensures solved { IfSome result (λ solved. solved ≡ solved_target request) }
        ensures none { IfNone result (gave_up self.old) };

    /// The tricks before the first card of a play and after each one.
    fn solve_play(&mut self, request: PlayRequest) -> Option<SolvedPlay>
        ensures solved { IfSome result (λ solved. solved ≡ play_trace request) }
        ensures none { IfNone result (gave_up self.old) };
}
