//! Who watches the runs of the server.
use dd_desk::{Closed, Naming};
use dd_server::{KeepsRuns, TellsRuns};

/// Watches no run, and keeps nothing of any.
#[derive(Clone, Copy, Debug, Drop)]
pub struct Unwatched;

impl KeepsRuns for Unwatched {
    ghost made_of = { λ _ _. Unit {0} };

    fn of<J: Naming>(_closed: &Closed<J>) -> Unwatched {
        Unwatched
    }
}

impl TellsRuns<Unwatched> for Unwatched {
    ghost use Rattle.std.specs.Prelude.{◌≡◌};

    ghost State = { Unit {0} };

    ghost state = { λ _. tt {0} };

    ghost way = { λ before _ after. after ≡ before };

    fn tell(&mut self, _kept: Unwatched) {}
}
