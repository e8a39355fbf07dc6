//! What is said of the runs of a server.
use dd_desk::{Closed, Naming};

/// What is kept of a run, to be told later: it is shown the run's closed desk, which goes after that.
pub trait KeepsRuns: Drop {
    ghost use Rattle.std.specs.Prelude.{List};
    ghost use Rattle.dd_desk.specs.Events.{EventOf};

    /// it was made of a desk that was closed with this journal
    ghost made_of: { Self → List EventOf → Type 0 };

    /// What is kept of the run with this desk.
    fn of<J: Naming>(closed: &Closed<J>) -> Self
        ensures { Self.made_of result closed.now.history.journal.items };
}

/// Says how runs ended, of each of which this was kept.
pub trait TellsRuns<K: KeepsRuns> {
    ghost use Rattle.std.specs.Prelude.{List};
    ghost use Rattle.dd_desk.specs.Events.{EventOf};

    /// what a clause knows of it
    ghost State: { Type 0 };

    ghost state: { Self → Self.State };
    /// in this state it says that a run with this journal has ended, and that leaves this state
    ghost way: { Self.State → List EventOf → Self.State → Type 0 };

    /// Says that a run ended of which this was kept. The server serves on, whatever becomes of what is said.
    fn tell(&mut self, kept: K)
        ensures { (journal : List EventOf) → K.made_of kept journal
            → Self.way (Self.state self.old) journal (Self.state self.new) };
}
