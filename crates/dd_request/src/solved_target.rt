//! Requests with a target, with their answers.
ghost use Rattle.std.specs.Prelude.{◌≡◌};
ghost use Rattle.dd_play.specs.Positions.{CanPlay};
ghost use Rattle.dd_request.specs.Targets.{reaching, solved_target};

use crate::answer::Answer;
use crate::target_request::TargetRequest;
use std::marker::Model;

/// A request with a target, with its answer.
#[derive(Drop)]
pub struct SolvedTarget {
    request: TargetRequest,
    answer: Answer,
}

impl Model for SolvedTarget {
    ghost use Rattle.std.specs.Prelude.{◌≡◌};
    ghost use Rattle.dd_play.specs.Positions.{CanPlay};
    ghost use Rattle.dd_request.specs.Targets.{SolvedTargetQuestion, reaching};

    ghost Value = { SolvedTargetQuestion };

    ghost view = { λ s. record { asked = s.request; answer = s.answer } };

    ghost invariant = { λ s.
        (s.answer ≡ reaching s.request.board s.request.target s.request.solutions) ×
        CanPlay s.request.board };
}

impl SolvedTarget {
    /// A request with what is its answer.
    pub fn of(request: TargetRequest, answer: Answer) -> SolvedTarget
        requires { answer ≡ reaching request.board request.target request.solutions }
        ensures { result ≡ record { asked = request; answer = answer } }
    {
        SolvedTarget { request, answer }
    }

    /// What was asked.
    pub fn request(&self) -> &TargetRequest
        ensures { result.now ≡ self.now.asked }
    {
        &self.request
    }

    /// The classes that reach the target: spades, hearts, diamonds, clubs, and in a suit the higher cards first. Each has the
    /// target as its score, which here means "at least". It is empty where no card reaches it.
    pub fn answer(&self) -> &Answer
        ensures found { result.now ≡ self.now.answer }
        ensures classes { self.now ≡ solved_target self.now.asked }
        ensures play { CanPlay self.now.asked.board }
    {
        &self.answer
    }

    /// The same request with the same answer. It takes no memory.
    pub fn copy(&self) -> SolvedTarget
        ensures { result ≡ self.now }
    {
        SolvedTarget {
            request: self.request.copy(),
            answer: self.answer.copy(),
        }
    }
}
