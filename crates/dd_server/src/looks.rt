//! What is seen of the desk of a run.
use crate::terms::RunNaming;
use dd_desk::{Desk, Tally};
use std::sync::Wait;

/// Looks at the desk of a run. Who decides by a look is given this alone, so that it can't know what one sees but by looking.
pub(crate) trait Looks {
    ghost use Rattle.std.specs.Prelude.{ℕ, Bool};
    ghost use Rattle.dd_desk.specs.declared.tally.Tally.{Tally};

    /// a look saw that so many events are left and so many jobs open
    ghost saw_tally: { Self → Tally → Type 0 };
    /// a look saw that so many events are free
    ghost saw_free: { Self → ℕ → Type 0 };
    /// a look saw that so many passes were given
    ghost saw_given: { Self → ℕ → Type 0 };
    /// a look saw that this caller has an open job, or that it has none
    ghost saw_open: { Self → ℕ → Bool → Type 0 };

    /// How many events are left, and how many jobs are open.
    fn tally(&self) -> Tally
        ensures { saw_tally self.now result };

    /// How many events are free.
    fn free(&self) -> u64
        ensures { saw_free self.now result };

    /// How many passes were given.
    fn given(&self) -> u64
        ensures { saw_given self.now result };

    /// Has this caller an open job?
    fn has_open(&self, caller: u64) -> bool
        ensures { saw_open self.now caller result };
}

/// Looks at this desk.
#[derive(Drop)]
pub(crate) struct DeskLooks<'a, J: RunNaming, R> {
    pub(crate) rt: &'a R,
    pub(crate) desk: &'a Desk<J>,
}

impl<J: RunNaming, R: Wait> Looks for DeskLooks<'_, J, R> {
    ghost use Rattle.dd_desk.specs.Looks.{SeesOpen, SeesTally};
    ghost use Rattle.dd_desk.specs.Reserve.{SeesFree};
    ghost use Rattle.dd_desk.specs.Sightings.{HasGiven};

    ghost saw_tally = { λ _ tally. SeesTally J.limits tally };

    ghost saw_free = { λ _ free. SeesFree J.limits free };

    ghost saw_given = { λ _ given. HasGiven J.limits given };

    ghost saw_open = { λ _ caller has. SeesOpen J.limits caller has };

    fn tally(&self) -> Tally {
        self.desk.tally(self.rt)
    }

    fn free(&self) -> u64 {
        self.desk.free(self.rt)
    }

    fn given(&self) -> u64 {
        self.desk.given(self.rt)
    }

    fn has_open(&self, caller: u64) -> bool {
        self.desk.has_open(self.rt, caller)
    }
}
