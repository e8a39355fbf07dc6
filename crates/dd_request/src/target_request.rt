ghost use Rattle.std.specs.Prelude.{◌≡◌, ◌≤◌, ◌↔◌, IsSome, IfSome};
ghost use Rattle.dd_play.specs.Board.{tricks_left};
ghost use Rattle.dd_play.specs.Positions.{CanPlay};
ghost use Rattle.dd_request.specs.Same.{same-target, same-target-partial, same_target};

use dd_play::Position;
use std::marker::Model;

/// The greatest target: a hand has thirteen cards.
pub const GREATEST_TARGET: u8 = 13;

/// What a request with a target asks: a position in which there is a card to play, how many tricks a card is to win, and
/// which of the cards that do the answer has.
#[derive(Drop)]
pub struct TargetRequest {
    position: Position,
    target: u8,
    solutions: u8,
}

impl Model for TargetRequest {
    ghost use Rattle.std.specs.Prelude.{◌≤◌};
    ghost use Rattle.dd_play.specs.Positions.{CanPlay};
    ghost use Rattle.dd_request.specs.Targets.{TargetQuestion};

    ghost Value = { TargetQuestion };

    ghost view = { λ r. record { board = r.position; target = r.target; solutions = r.solutions } };

    ghost invariant = { λ r. (r.target ≤ 13) × (1 ≤ r.solutions) × (r.solutions ≤ 2) ×
        CanPlay r.position };
}

impl TargetRequest {
    /// A request for the cards of this position that win at least `target` tricks, 0 to 13, for the mover's side: all of them
    /// (2), or the first (1). `None` where the target is over 13, the solutions are not 1 or 2, or there is no card to play.
    pub fn new(position: Position, target: u8, solutions: u8) -> Option<TargetRequest>
        ensures valid { IsSome result ↔ ((target ≤ GREATEST_TARGET) × (1 ≤ solutions) ×
            (solutions ≤ 2) × (1 ≤ tricks_left position)) }
        ensures value { IfSome result (λ request. request ≡
            record { board = position; target = target; solutions = solutions }) }
    {
        if target <= GREATEST_TARGET && (1..=2).contains(&solutions) && position.tricks_left() > 0 {
            Some(TargetRequest::of(position, target, solutions))
        } else {
            None
        }
    }

    /// A request for the cards of a position in which there is one to play, with a target of 0 to 13.
    pub fn of(position: Position, target: u8, solutions: u8) -> TargetRequest
        requires play { CanPlay position }
        requires target { target ≤ GREATEST_TARGET }
        requires solutions { (1 ≤ solutions) × (solutions ≤ 2) }
        ensures { result ≡ record { board = position; target = target; solutions = solutions } }
    {
        TargetRequest {
            position,
            target,
            solutions,
        }
    }

    /// The position that the request is about.
    pub fn position(&self) -> &Position
        ensures value { result.now ≡ self.now.board }
        ensures play { CanPlay self.now.board }
    {
        &self.position
    }

    /// The tricks, 0 to 13, that a card is to win for the mover's side, from here on.
    pub fn target(&self) -> u8
        ensures value { result ≡ self.now.target }
        ensures bound { result ≤ GREATEST_TARGET }
    {
        self.target
    }

    /// Which of the cards that reach the target are asked for: all of them (2), or the first (1).
    pub fn solutions(&self) -> u8
        ensures value { result ≡ self.now.solutions }
        ensures bounds { (1 ≤ result) × (result ≤ 2) }
    {
        self.solutions
    }

    /// An equal request. It takes no memory.
    pub fn copy(&self) -> TargetRequest
        ensures same { result ≡ self.now }
        ensures play { CanPlay self.now.board }
    {
        TargetRequest {
            position: self.position.copy(),
            target: self.target,
            solutions: self.solutions,
        }
    }
}

impl PartialEq for TargetRequest {
    ghost eq = { same_target };

    ghost laws = { same-target-partial };

    fn eq(&self, other: &TargetRequest) -> bool {
        self.position == other.position
            && self.target == other.target
            && self.solutions == other.solutions
    }
}

impl Eq for TargetRequest {
    ghost laws = { same-target };
}
