//! How many parts of open jobs wait and how many run.
ghost use Rattle.std.specs.Prelude.{◌≡◌, ◌+◌, ◌-◌, ◌<◌, ◌≤◌, ◌^◌};
ghost use Rattle.std.specs.List.{count_by};
ghost use Rattle.dd_book.specs.Parts.{is_waiting};
ghost use Rattle.dd_book.specs.Jobs.{first_parts};

use crate::parts::first_waiting_parts;
use dd_request::Asked;

/// How many parts of open jobs wait and how many run.
#[derive(Clone, Copy, Debug, PartialEq, Eq)]
pub struct PartCounts {
    /// How many wait for a worker.
    pub waiting: u64,
    /// How many a worker has.
    pub running: u64,
}

impl PartCounts {
    /// With those of a new job.
    pub(crate) fn with_job(self, asked: &Asked) -> PartCounts
        requires { self.waiting + 2 ^ 32 < 2 ^ 64 }
        ensures waiting { result.waiting ≡ self.waiting + count_by is_waiting (first_parts asked.now) }
        ensures running { result.running ≡ self.running }
    {
        PartCounts {
            waiting: self.waiting + first_waiting_parts(asked),
            running: self.running,
        }
    }

    /// Without those of a job that ends.
    pub(crate) fn without(self, job: PartCounts) -> PartCounts
        requires { (job.waiting ≤ self.waiting) × (job.running ≤ self.running) }
        ensures waiting { result.waiting ≡ self.waiting - job.waiting }
        ensures running { result.running ≡ self.running - job.running }
    {
        PartCounts {
            waiting: self.waiting - job.waiting,
            running: self.running - job.running,
        }
    }

    /// One that waited runs.
    pub(crate) fn claimed(self) -> PartCounts
        requires { (1 ≤ self.waiting) × (self.running + 1 < 2 ^ 64) }
        ensures waiting { result.waiting ≡ self.waiting - 1 }
        ensures running { result.running ≡ self.running + 1 }
    {
        PartCounts {
            waiting: self.waiting - 1,
            running: self.running + 1,
        }
    }

    /// One that ran waits again.
    pub(crate) fn stopped(self) -> PartCounts
        requires { (1 ≤ self.running) × (self.waiting + 1 < 2 ^ 64) }
        ensures waiting { result.waiting ≡ self.waiting + 1 }
        ensures running { result.running ≡ self.running - 1 }
    {
        PartCounts {
            waiting: self.waiting + 1,
            running: self.running - 1,
        }
    }

    /// One that ran has ended.
    pub(crate) fn ended(self) -> PartCounts
        requires { 1 ≤ self.running }
        ensures waiting { result.waiting ≡ self.waiting }
        ensures running { result.running ≡ self.running - 1 }
    {
        PartCounts {
            waiting: self.waiting,
            running: self.running - 1,
        }
    }
}
