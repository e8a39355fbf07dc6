//! The job book as one session sees it.
ghost use Rattle.std.specs.Prelude.{◌≡◌, Err, IfErr, IfOk, true};
ghost use Rattle.dd_book.specs.declared.call.Call.TheVariants.{Fetch};
ghost use Rattle.dd_desk.specs.Replies.{IsTold, MayClaim};
ghost use Rattle.dd_desk.specs.Receipts.{has_shut};
ghost use Rattle.dd_desk.specs.Sightings.{RefusesCall};
ghost use Rattle.dd_desk.specs.declared.fault.DeskFault.TheVariants.{JournalFull, OutOfMemory};
ghost use Rattle.dd_lines.specs.CountedDevices.{one_more};
ghost use Rattle.dd_session.specs.Healths.{IsHealth};
ghost use Rattle.dd_session.specs.Ports.{Tells, call_by, last_place, new_port, port_of, refused, told_at};
ghost use Rattle.dd_session.specs.Leaving.{Leaves, SawAt};
ghost use Rattle.dd_session.specs.Serving.{EndsIn};
ghost use Rattle.dd_wire.specs.declared.want.Want.TheVariants.{Fetch as FetchWant, Stop as StopWant, Submit as SubmitWant};

use crate::leaving::give_up_jobs;
use dd_book::Reply;
use dd_desk::{Desk, DeskFault, Naming, Pass};
use dd_request::Asked;
use dd_wire::{Health, Want};
use std::marker::Model;
use std::sync::Wait;
use std::sync::atomic::AtomicBool;
use std::time::{Clock, Duration};

/// The job book as one caller sees it, or what stands for it.
pub trait BookPort {
    ghost use Rattle.std.specs.Prelude.{ℕ, List, IfOk};
    ghost use Rattle.dd_session.specs.Serving.{EndsIn};
    ghost use Rattle.dd_session.specs.Leaving.{JobSight, Leaves};
    ghost use Rattle.dd_session.specs.Ports.{Exchange, Tells, port_of};
    ghost use Rattle.dd_wire.specs.declared.health.Health.{Health};
    ghost use Rattle.dd_wire.specs.declared.want.Want.TheVariants.{Fetch};

    /// the calls that were made, each with its reply, in order
    ghost told: { Self → List Exchange };
    /// how many calls were refused, up to the greatest number, where the count stays
    ghost refusals: { Self → ℕ };
    /// what the port has seen of a job that it made: the job has ended, or its cancel was refused
    ghost saw: { Self → JobSight → Type 0 };
    /// what the port sees of its run when it looks
    ghost shows: { Self → Health → Type 0 };

    /// Makes the call, or refuses it and counts that: with `JournalFull` or `OutOfMemory`, and nothing else changes.
    fn ask(&mut self, want: Want) -> Result<Reply, DeskFault>
        ensures { Tells (port_of (told self.old) (refusals self.old)) want result
            (port_of (told self.new) (refusals self.new)) };

    /// The same for a fetch that waits until the job has ended, so many milliseconds at the most. It tells of an open job only
    /// where a wait of this length was cut off.
    fn fetch_within(&mut self, job: u64, wait: u64) -> Result<Reply, DeskFault>
        ensures told { Tells (port_of (told self.old) (refusals self.old)) (Fetch job) result
            (port_of (told self.new) (refusals self.new)) }
        ensures ends { IfOk result (EndsIn wait) };

    /// How the run is. It is no call of the book, and nothing changes.
    fn health(&self) -> Health
        ensures { shows self.now result };

    /// Cancels the jobs that were made over the port, each that has not ended: nobody is left who
    /// could fetch them.
    fn leave(&mut self)
        ensures { Leaves (saw self.new) (port_of (told self.old) (refusals self.old))
            (port_of (told self.new) (refusals self.new)) };
}

/// The port over a desk and a pass: each call that is made leaves a receipt in the pass, and the desk's faults are its
/// refusals.
#[derive(Drop)]
pub struct DeskPort<'a, J: Naming, R: Wait + Clock> {
    rt: &'a R,
    desk: &'a Desk<J>,
    pass: Pass<J>,
    // The receipts that the pass had when the port was made.
    before: usize,
    refusals: u64,
    // Of the run.
    workers: u64,
    // Set, it ends the rests of a session that leaves while memory is out.
    stop: &'a AtomicBool,
}

impl<'a, J: Naming, R: Wait + Clock> Model for DeskPort<'a, J, R> {
    ghost use Rattle.std.specs.Prelude.{◌≤◌, drop, length};
    ghost use Rattle.dd_session.specs.Ports.{AreClients, DeskPortOf};

    ghost Value = { DeskPortOf };

    ghost view = { λ p. record {
      pass = p.pass;
      before = p.before;
      refusals = p.refusals;
      workers = p.workers;
    } };

    ghost invariant = { λ p. (p.before ≤ length p.pass.receipts)
        × AreClients p.pass.number (drop p.before p.pass.receipts) };
}

impl<'a, J: Naming, R: Wait + Clock> DeskPort<'a, J, R> {
    /// A port that has told nothing and refused nothing, to a desk with so many workers. It takes no memory. A cancel of who
    /// leaves that finds none is made again after a rest, for ten seconds in all, unless `stop` is set.
    pub fn new(
        rt: &'a R,
        desk: &'a Desk<J>,
        pass: Pass<J>,
        workers: u64,
        stop: &'a AtomicBool,
    ) -> DeskPort<'a, J, R>
        ensures { result ≡ new_port workers 0 pass }
    {
        DeskPort::after(rt, desk, pass, workers, stop, 0)
    }

    /// A port that has told nothing, and refused so many calls before it had its pass.
    pub(crate) fn after(
        rt: &'a R,
        desk: &'a Desk<J>,
        pass: Pass<J>,
        workers: u64,
        stop: &'a AtomicBool,
        refusals: u64,
    ) -> DeskPort<'a, J, R>
        ensures { result ≡ new_port workers refusals pass }
    {
        let before = pass.receipts().len();
        DeskPort {
            rt,
            desk,
            pass,
            before,
            refusals,
            workers,
            stop,
        }
    }

    /// Refuses a call as if the journal were full: the desk isn't asked, and the refusal is counted.
    pub fn refuse(&mut self) -> DeskFault
        ensures fault { result ≡ JournalFull }
        ensures port { self.new ≡ refused self.old }
    {
        self.refusals = one_more(self.refusals);
        DeskFault::JournalFull
    }

    /// Asks for a new job, and claims by the pass of a worker as `Desk::submit_and_claim` does.
    pub fn submit_and_claim(
        &mut self,
        asked: Asked,
        worker: &mut Pass<J>,
    ) -> (Result<Reply, DeskFault>, Option<Reply>)
        ensures told { Tells (port_of (told_at self.old) self.old.refusals) (SubmitWant asked) result.0
            (port_of (told_at self.new) self.new.refusals) }
        ensures claimed { MayClaim J.limits worker.old result.0 result.1 worker.new }
        ensures refused { IfErr result.0 (RefusesCall J.limits self.new.pass.number
            (call_by self.new.pass.number (SubmitWant asked))) }
        ensures before { self.new.before ≡ self.old.before }
    {
        let (told, claim) = self
            .desk
            .submit_and_claim(self.rt, &mut self.pass, worker, asked);
        match told {
            Ok(reply) => (Ok(reply), claim),
            Err(fault) => {
                self.refusals = one_more(self.refusals);
                (Err(fault), claim)
            }
        }
    }

    /// The place in the journal of the last event of the pass.
    pub fn last_place(&self) -> Option<u64>
        ensures { result ≡ last_place self.now }
    {
        match self.pass.receipts().last() {
            Some(receipt) => Some(receipt.place()),
            None => None,
        }
    }

    /// The number of its pass.
    pub fn number(&self) -> u64
        ensures { result ≡ self.now.pass.number }
    {
        self.pass.number()
    }

    /// The pass, with a receipt for each call that was made.
    pub fn into_pass(self) -> Pass<J>
        ensures { result ≡ self.entry.pass }
    {
        let DeskPort {
            rt: _,
            desk: _,
            pass,
            before: _,
            refusals: _,
            workers: _,
            stop: _,
        } = self;
        pass
    }
}

impl<'a, J: Naming, R: Wait + Clock> BookPort for DeskPort<'a, J, R> {
    ghost use Rattle.dd_session.specs.Healths.{IsHealth};
    ghost use Rattle.dd_session.specs.Leaving.{SawAt};
    ghost use Rattle.dd_session.specs.Ports.{told_at};

    ghost told = { λ p. told_at p };

    ghost refusals = { λ p. p.refusals };

    ghost saw = { λ p sight. SawAt J.limits p.before p.pass sight };

    ghost shows = { λ p health. IsHealth J.limits p.workers health };

    fn ask(&mut self, want: Want) -> Result<Reply, DeskFault>
        ensures told { Tells (port_of (told_at self.old) self.old.refusals) want result
            (port_of (told_at self.new) self.new.refusals) }
        ensures stop { want ≡ StopWant → result ≡ Err OutOfMemory
            → has_shut self.old.pass.receipts ≡ true }
        ensures refused { IfErr result (RefusesCall J.limits self.new.pass.number
            (call_by self.new.pass.number want)) }
        ensures before { self.new.before ≡ self.old.before }
    {
        match call(self.rt, self.desk, &mut self.pass, want) {
            Ok(reply) => Ok(reply),
            Err(fault) => {
                self.refusals = one_more(self.refusals);
                Err(fault)
            }
        }
    }

    fn fetch_within(&mut self, job: u64, wait: u64) -> Result<Reply, DeskFault>
        ensures told { Tells (port_of (told_at self.old) self.old.refusals) (FetchWant job) result
            (port_of (told_at self.new) self.new.refusals) }
        ensures ends { IfOk result (EndsIn wait) }
        ensures refused { IfErr result (RefusesCall J.limits self.new.pass.number
            (call_by self.new.pass.number (FetchWant job))) }
        ensures before { self.new.before ≡ self.old.before }
    {
        match fetch_within(self.rt, self.desk, &mut self.pass, job, wait) {
            Ok(reply) => Ok(reply),
            Err(fault) => {
                self.refusals = one_more(self.refusals);
                Err(fault)
            }
        }
    }

    fn health(&self) -> Health {
        health_of(self.rt, self.desk, self.workers)
    }

    fn leave(&mut self)
        ensures leaves { Leaves (SawAt J.limits self.new.before self.new.pass)
            (port_of (told_at self.old) self.old.refusals)
            (port_of (told_at self.new) self.new.refusals) }
        ensures before { self.new.before ≡ self.old.before }
    {
        self.refusals = give_up_jobs(
            self.rt,
            self.desk,
            &mut self.pass,
            self.before,
            self.refusals,
            self.stop,
        );
    }
}

/// The call at the desk that makes the want known.
fn call<J: Naming, R: Wait>(
    rt: &R,
    desk: &Desk<J>,
    pass: &mut Pass<J>,
    want: Want,
) -> Result<Reply, DeskFault>
    ensures told { IsTold J.limits pass.old (call_by pass.old.number want) result pass.new }
    ensures stop { want ≡ StopWant → result ≡ Err OutOfMemory → has_shut pass.old.receipts ≡ true }
{
    match want {
        Want::Submit(asked) => desk.submit(rt, pass, asked),
        Want::Cancel(job) => desk.cancel(rt, pass, job),
        Want::Fetch(job) => desk.fetch(rt, pass, job),
        Want::Stop => desk.shut(rt, pass),
    }
}

/// The fetch at the desk that waits.
fn fetch_within<J: Naming, R: Wait + Clock>(
    rt: &R,
    desk: &Desk<J>,
    pass: &mut Pass<J>,
    job: u64,
    wait: u64,
) -> Result<Reply, DeskFault>
    ensures told { IsTold J.limits pass.old (Fetch pass.old.number job) result pass.new }
    ensures ends { IfOk result (EndsIn wait) }
{
    let (told, _) = desk.fetch_within(rt, pass, job, Duration::from_millis(wait));
    told
}

/// How the run of a desk with so many workers is.
pub(crate) fn health_of<J: Naming, R: Wait>(rt: &R, desk: &Desk<J>, workers: u64) -> Health
    ensures { IsHealth J.limits workers result }
{
    let tally = desk.tally(rt);
    Health {
        events_left: tally.events_left,
        jobs: tally.open_jobs,
        workers,
    }
}

/// The count of one refusal more.
pub(crate) fn one_more(refusals: u64) -> u64
    ensures { result ≡ one_more refusals }
{
    refusals.saturating_add(1)
}
