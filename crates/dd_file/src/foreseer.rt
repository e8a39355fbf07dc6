//! Who tells an analyst of deals ahead.
ghost use Rattle.std.specs.Prelude.{◌≡◌};

use crate::analyst::{Analyst, Reason};
use dd_cards::Hands;
use dd_score::Results;

/// Hands each deal that is asked for on, and tells no results of it. What it is told it keeps to itself.
#[derive(Drop)]
pub(crate) struct Foreseer<'a, A> {
    analyst: &'a mut A,
}

impl<'a, A: Analyst> Foreseer<'a, A> {
    /// Tells this one.
    pub(crate) fn new(analyst: &'a mut A) -> Foreseer<'a, A>
        ensures same_reference { result.analyst.ghost_name ≡ analyst.entry.ghost_name }
        ensures analyst { result.analyst.now ≡ analyst.old }
    {
        Foreseer { analyst }
    }
}

impl<'a, A: Analyst> Analyst for Foreseer<'a, A> {
    ghost use Rattle.std.specs.Prelude.{◌≡◌};
    ghost use Rattle.dd_file.specs.Passing.{ForeseerOf};

    ghost gives = { λ _ _. Unit {0} };

    ghost State = { ForeseerOf A.State };

    ghost state = { λ f. record { reference = f.analyst.ghost_name; heard = A.state f.analyst.now } };

    ghost way = { λ before _ after. after ≡ before };

    fn results(&mut self, deal: &Hands) -> Option<Results> {
        self.analyst.foresee(deal);
        None
    }

    fn passed(&mut self, _games: u64, _bytes: u64) {}

    fn left(&mut self, _game: u64, _board: &[u8], _reason: Reason, _unknown: &[u8]) {}

    fn ended(&mut self, _games: u64) {}
}
