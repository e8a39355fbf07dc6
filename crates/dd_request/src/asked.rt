ghost use Rattle.std.specs.Prelude.{◌≡◌};

use crate::play_request::PlayRequest;
use crate::request::Request;
use crate::table_request::TableRequest;
use crate::target_request::TargetRequest;

/// What a line asks for.
#[derive(Drop)]
pub enum Asked {
    /// The cards of a position, with their scores.
    Solve(Request),
    /// The twenty results of a deal.
    Table(TableRequest),
    /// The cards of a position that reach a target.
    Target(TargetRequest),
    /// The tricks that declarer's side takes before the first card of a play and after each one.
    Play(PlayRequest),
}

impl Asked {
    /// The same again. It takes no memory.
    pub fn copy(&self) -> Asked
        ensures { result ≡ self.now }
    {
        match self {
            Asked::Solve(request) => Asked::Solve(request.copy()),
            Asked::Table(request) => Asked::Table(request.copy()),
            Asked::Target(request) => Asked::Target(request.copy()),
            Asked::Play(request) => Asked::Play(request.copy()),
        }
    }
}
