//! How a run ended.
ghost use Rattle.std.specs.Prelude.{◌≡◌, List};
ghost use Rattle.dd_desk.specs.Events.{EventOf};
ghost use Rattle.dd_server.specs.Callers.{AreCallers};
ghost use Rattle.dd_server.specs.Histories.{IsHistory, IsKept};

use crate::telling::{KeepsRuns, TellsRuns};
use crate::terms::RunNaming;
use dd_desk::Closed;
use std::marker::{Brand, Model, PhantomData};

/// Names the limits and the terms that the runs of a server have.
pub(crate) trait RunLimits {
    ghost use Rattle.dd_book.specs.Limits.{LimitsOf};
    ghost use Rattle.dd_server.specs.declared.terms.Terms.{Terms};

    ghost limits: { LimitsOf };

    ghost terms: { Terms };
}

impl RunLimits for Brand {
    ghost use Rattle.dd_book.specs.Limits.{limits_of};
    ghost use Rattle.dd_server.specs.ServeArgs.{no_terms};

    ghost limits = { limits_of 0 0 0 0 };

    ghost terms = { no_terms };
}

/// What was kept of a run of these limits and terms when its desk was closed. Nothing else gives one, and it can't be copied.
#[derive(Drop)]
pub(crate) struct RunEnd<L: RunLimits, K: KeepsRuns> {
    kept: K,
    limits: PhantomData<L>,
}

impl<L: RunLimits, K: KeepsRuns> Model for RunEnd<L, K> {
    ghost use Rattle.dd_server.specs.Histories.{IsKept};

    ghost Value = { K };

    ghost view = { λ e. e.kept };

    ghost invariant = { λ e. IsKept L.limits L.terms (K.made_of e.kept) };
}

impl<L: RunLimits, K: KeepsRuns> RunEnd<L, K> {
    /// That of a run whose desk was closed so.
    #[tactic(auto, using(crate::proofs::Growing::kept_of))]
    pub(crate) fn of<J: RunNaming>(closed: &Closed<J>) -> RunEnd<L, K>
        requires limits { J.limits ≡ L.limits }
        requires terms { J.terms ≡ L.terms }
        requires history { IsHistory J.limits closed.now.history.journal.items
            closed.now.passes.items }
        requires callers { AreCallers J.limits J.terms closed.now.passes.items }
        ensures { K.made_of result closed.now.history.journal.items }
    {
        RunEnd {
            kept: K::of(closed),
            limits: PhantomData,
        }
    }

    /// Lets it be told.
    pub(crate) fn tell_to<T: TellsRuns<K>>(self, teller: &mut T)
        ensures { IsKept L.limits L.terms (λ journal.
            T.way (T.state teller.old) journal (T.state teller.new)) }
    {
        let RunEnd { kept, limits: _ } = self;
        teller.tell(kept);
    }
}
