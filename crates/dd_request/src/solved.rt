//! Requests with their answers.
ghost use Rattle.std.specs.Prelude.{◌≡◌};
ghost use Rattle.dd_play.specs.Positions.{CanPlay};
ghost use Rattle.dd_request.specs.Questions.{solved_question};
ghost use Rattle.dd_request.specs.ScoredClasses.{answer as answer_of};

use crate::answer::Answer;
use crate::request::Request;
use std::marker::Model;

/// A request with its answer.
#[derive(Drop)]
pub struct Solved {
    request: Request,
    answer: Answer,
}

impl Model for Solved {
    ghost use Rattle.std.specs.Prelude.{◌≡◌};
    ghost use Rattle.dd_play.specs.Positions.{CanPlay};
    ghost use Rattle.dd_request.specs.Questions.{SolvedQuestion};
    ghost use Rattle.dd_request.specs.ScoredClasses.{answer as answer_of};

    ghost Value = { SolvedQuestion };

    ghost view = { λ s. record { asked = s.request; answer = s.answer } };

    ghost invariant = { λ s. (s.answer ≡ answer_of s.request.board s.request.solutions) ×
        CanPlay s.request.board };
}

impl Solved {
    /// A request with what is its answer.
    pub fn of(request: Request, answer: Answer) -> Solved
        requires { answer ≡ answer_of request.board request.solutions }
        ensures { result ≡ record { asked = request; answer = answer } }
    {
        Solved { request, answer }
    }

    /// What was asked.
    pub fn request(&self) -> &Request
        ensures { result.now ≡ self.now.asked }
    {
        &self.request
    }

    /// The classes that were asked for, each with its score.
    pub fn answer(&self) -> &Answer
        ensures found { result.now ≡ self.now.answer }
        ensures classes { self.now ≡ solved_question self.now.asked }
        ensures play { CanPlay self.now.asked.board }
    {
        &self.answer
    }

    /// The same request with the same answer. It takes no memory.
    pub fn copy(&self) -> Solved
        ensures { result ≡ self.now }
    {
        Solved {
            request: self.request.copy(),
            answer: self.answer.copy(),
        }
    }
}
