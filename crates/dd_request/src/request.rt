ghost use Rattle.std.specs.Prelude.{◌≡◌, ◌≤◌, ◌↔◌, IsSome, IfSome};
ghost use Rattle.dd_play.specs.Board.{tricks_left};
ghost use Rattle.dd_play.specs.Positions.{CanPlay};
ghost use Rattle.dd_request.specs.Same.{same-question, same-question-partial, same_question};

use dd_play::Position;
use std::marker::Model;

/// What a request asks: a position in which there is a card to play, and which of its cards the answer has.
#[derive(Drop)]
pub struct Request {
    position: Position,
    solutions: u8,
}

impl Model for Request {
    ghost use Rattle.std.specs.Prelude.{◌≤◌};
    ghost use Rattle.dd_play.specs.Positions.{CanPlay};
    ghost use Rattle.dd_request.specs.Questions.{Question};

    ghost Value = { Question };

    ghost view = { λ r. record { board = r.position; solutions = r.solutions } };

    ghost invariant = { λ r. (1 ≤ r.solutions) × (r.solutions ≤ 3) × CanPlay r.position };
}

impl Request {
    /// A request for the cards of this position: all of them (3), those of the greatest score (2), or one of these (1).
    /// `None` where the solutions are not 1 to 3, or there is no card to play.
    pub fn new(position: Position, solutions: u8) -> Option<Request>
        ensures valid { IsSome result ↔ ((1 ≤ solutions) × (solutions ≤ 3) × (1 ≤ tricks_left position)) }
        ensures value { IfSome result (λ request. request ≡
            record { board = position; solutions = solutions }) }
    {
        if (1..=3).contains(&solutions) && position.tricks_left() > 0 {
            Some(Request::of(position, solutions))
        } else {
            None
        }
    }

    /// A request for the cards of a position in which there is one to play.
    pub fn of(position: Position, solutions: u8) -> Request
        requires play { CanPlay position }
        requires solutions { (1 ≤ solutions) × (solutions ≤ 3) }
        ensures { result ≡ record { board = position; solutions = solutions } }
    {
        Request {
            position,
            solutions,
        }
    }

    /// The position that the request is about.
    pub fn position(&self) -> &Position
        ensures value { result.now ≡ self.now.board }
        ensures play { CanPlay self.now.board }
    {
        &self.position
    }

    /// Which cards are asked for: all of them (3), those of the greatest score (2), or one of these (1).
    pub fn solutions(&self) -> u8
        ensures value { result ≡ self.now.solutions }
        ensures bounds { (1 ≤ result) × (result ≤ 3) }
    {
        self.solutions
    }

    /// An equal request. It takes no memory.
    pub fn copy(&self) -> Request
        ensures same { result ≡ self.now }
        ensures play { CanPlay self.now.board }
    {
        Request {
            position: self.position.copy(),
            solutions: self.solutions,
        }
    }
}

impl PartialEq for Request {
    ghost eq = { same_question };

    ghost laws = { same-question-partial };

    fn eq(&self, other: &Request) -> bool {
        self.position == other.position && self.solutions == other.solutions
    }
}

impl Eq for Request {
    ghost laws = { same-question };
}
