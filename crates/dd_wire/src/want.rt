ghost use Rattle.std.specs.Prelude.{◌≡◌};

use dd_request::Asked;

/// What a line of a session wants of the job book. Its caller is the session's own, and jobs are numbers.
#[derive(Drop)]
pub enum Want {
    /// A new job.
    Submit(Asked),
    /// The end of a job.
    Cancel(u64),
    /// The state of a job.
    Fetch(u64),
    /// That no more jobs are taken.
    Stop,
}

impl Want {
    /// The same again. It takes no memory.
    pub fn copy(&self) -> Want
        ensures { result ≡ self.now }
    {
        match self {
            Want::Submit(asked) => Want::Submit(asked.copy()),
            Want::Cancel(job) => Want::Cancel(*job),
            Want::Fetch(job) => Want::Fetch(*job),
            Want::Stop => Want::Stop,
        }
    }
}
