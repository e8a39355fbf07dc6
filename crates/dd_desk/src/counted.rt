//! What is counted of a journal and its book, and the events that are reserved.
ghost use Rattle.std.specs.Prelude.{◌≡◌, ◌+◌, ◌-◌, ◌<◌, true, false, slice_set, vec_len, vec_capacity, MatchOption};
ghost use Rattle.dd_desk.specs.Counted.{IsNewJob, flags_after, reserved_by};
ghost use Rattle.dd_desk.specs.Reserve.{has_ended};

use dd_book::{JobState, PartCounts, Reply};

/// What is counted of a journal and its book.
#[derive(Clone, Copy, Debug)]
pub struct Counted {
    /// How many parts of open jobs wait, and how many run.
    pub(crate) parts: PartCounts,
    /// How many claims got a part.
    pub(crate) claims: u64,
    /// How many finishes there were.
    pub(crate) finishes: u64,
    /// Of how many jobs no reply has told that they have ended.
    pub(crate) untold: u64,
    pub(crate) shut: bool,
}

impl Counted {
    /// Of an empty journal.
    pub(crate) fn new() -> Counted
        ensures { result ≡ record {
          parts = record { waiting = 0; running = 0 };
          claims = 0;
          finishes = 0;
          untold = 0;
          shut = false;
        } }
    {
        Counted {
            parts: PartCounts {
                waiting: 0,
                running: 0,
            },
            claims: 0,
            finishes: 0,
            untold: 0,
            shut: false,
        }
    }

    /// How many events are free, where there is room for so many in all. `None` where fewer have room than are reserved.
    pub(crate) fn free(&self, room: u64) -> Option<u64>
        ensures { MatchOption result (room < reserved_by self.now)
            (λ free. free + reserved_by self.now ≡ room) }
    {
        let due = self
            .parts
            .running
            .max(self.claims.saturating_sub(self.finishes));
        let shut = if self.shut { 0 } else { 1 };
        let left = room.checked_sub(self.parts.waiting)?;
        let left = left.checked_sub(self.parts.waiting)?;
        let left = left.checked_sub(due)?;
        let left = left.checked_sub(self.untold)?;
        left.checked_sub(shut)
    }
}

/// Notes what a reply tells: of a new job not yet that it has ended, and of one that has ended that it has.
pub(crate) fn note(told: &mut Vec<bool>, reply: &Reply)
    requires { IsNewJob reply.now → vec_len told.old < vec_capacity told.old }
    ensures flags { told.new.items ≡ flags_after told.old.items reply.now }
    ensures room { vec_capacity told.new ≡ vec_capacity told.old }
{
    match reply {
        Reply::Submitted(_) => told.push_reserved(false),
        Reply::Cancelled(job) => mark(told, *job),
        Reply::State(job, state) => {
            if has_ended(state) {
                mark(told, *job);
            }
        }
        _ => {}
    }
}

// The job of this number was told to have ended.
fn mark(told: &mut Vec<bool>, job: u64)
    ensures flags { told.new.items ≡ slice_set told.old.items (job - 1) true }
    ensures room { vec_capacity told.new ≡ vec_capacity told.old }
{
    let place = job.saturating_sub(1) as usize;
    if place < told.len() {
        told[place] = true;
    }
}

/// Is it a state that a job keeps?
fn has_ended(state: &JobState) -> bool
    ensures { result ≡ has_ended state.now }
{
    !matches!(state, JobState::Waiting | JobState::Running)
}
