//! The job book as a session sees it that has no pass before it needs one.
ghost use Rattle.std.specs.Prelude.{◌≡◌, Err, IfErr, IfOk, IfSome, IsSome, None, Some, true, ℕ, option_and_then};
ghost use Rattle.dd_desk.specs.Receipts.{has_shut};
ghost use Rattle.dd_desk.specs.Replies.{MayClaim};
ghost use Rattle.dd_desk.specs.Sightings.{HasNoPassLeft};
ghost use Rattle.dd_desk.specs.declared.fault.DeskFault.TheVariants.{JournalFull, OutOfMemory};
ghost use Rattle.dd_lines.specs.CountedDevices.{one_more};
ghost use Rattle.dd_session.specs.Leaving.{SawBy, Leaves};
ghost use Rattle.dd_session.specs.Serving.{EndsIn};
ghost use Rattle.dd_session.specs.Ports.{AreClients, RefusesWant, Tells, before_by, last_place, new_late_port, number_of, pass_by, port_of, receipts_by, refusals_by, told_by, told_in};
ghost use Rattle.dd_wire.specs.declared.want.Want.TheVariants.{Fetch, Stop as StopWant, Submit};

use crate::port::{BookPort, DeskPort, health_of, one_more};
use dd_book::Reply;
use dd_desk::{BlankPass, Desk, DeskFault, Naming, Pass};
use dd_request::Asked;
use dd_wire::{Health, Want};
use std::marker::Model;
use std::sync::Wait;
use std::sync::atomic::AtomicBool;
use std::time::Clock;

/// The port over a desk that gives the pass at the first call: who asks nothing takes none. Where no pass is left each call is
/// refused as if the journal were full.
#[derive(Drop)]
pub struct LatePort<'a, J: Naming, R: Wait + Clock> {
    rt: &'a R,
    desk: &'a Desk<J>,
    workers: u64,
    // Set, it ends the rests of a session that leaves while memory is out.
    stop: &'a AtomicBool,
    port: Option<DeskPort<'a, J, R>>,
    // What the pass needs, until there is one.
    blank: Option<BlankPass>,
    // The calls that were refused until then.
    refused: u64,
}

impl<'a, J: Naming, R: Wait + Clock> Model for LatePort<'a, J, R> {
    ghost use Rattle.std.specs.Prelude.{◌≡◌, IsSome, None};
    ghost use Rattle.dd_session.specs.Ports.{LatePortOf, before_by};

    ghost Value = { LatePortOf };

    ghost view = { λ p. record { port = p.port; refused = p.refused; workers = p.workers } };

    ghost invariant = { λ p. (before_by p.port ≡ 0) × (p.port ≡ None → IsSome p.blank) };
}

impl<'a, J: Naming, R: Wait + Clock> LatePort<'a, J, R> {
    /// A port without a pass that has refused nothing, to a desk with so many workers. It takes no memory, nor does the pass.
    /// A cancel of who leaves that finds none is made again after a rest, for ten seconds in all, unless `stop` is set.
    pub fn new(
        rt: &'a R,
        desk: &'a Desk<J>,
        blank: BlankPass,
        workers: u64,
        stop: &'a AtomicBool,
    ) -> LatePort<'a, J, R>
        ensures { result ≡ new_late_port workers }
    {
        LatePort {
            rt,
            desk,
            workers,
            stop,
            port: None,
            blank: Some(blank),
            refused: 0,
        }
    }

    /// Refuses a call as if the journal were full: the desk isn't asked, and the refusal is counted.
    pub fn refuse(&mut self) -> DeskFault
        ensures fault { result ≡ JournalFull }
        ensures told { told_by self.new.port ≡ told_by self.old.port }
        ensures counted { refusals_by self.new.refused self.new.port
            ≡ one_more (refusals_by self.old.refused self.old.port) }
        ensures receipts { receipts_by self.new.port ≡ receipts_by self.old.port }
    {
        refuse_at(&mut self.port, &mut self.refused)
    }

    /// Asks for a new job, and claims by the pass of a worker as `Desk::submit_and_claim` does.
    pub fn submit_and_claim(
        &mut self,
        asked: Asked,
        worker: &mut Pass<J>,
    ) -> (Result<Reply, DeskFault>, Option<Reply>)
        ensures told { Tells (port_of (told_by self.old.port)
            (refusals_by self.old.refused self.old.port)) (Submit asked) result.0
            (port_of (told_by self.new.port) (refusals_by self.new.refused self.new.port)) }
        ensures claimed { MayClaim J.limits worker.old result.0 result.1 worker.new }
        ensures refused { IfErr result.0 (RefusesWant J.limits (number_of self.new.port) (Submit asked)) }
    {
        enrol_at(
            self.rt,
            self.desk,
            self.workers,
            self.stop,
            self.refused,
            &mut self.port,
            &mut self.blank,
        );
        submit_at(&mut self.port, &mut self.refused, asked, worker)
    }

    /// The place in the journal of the last event of the pass.
    pub fn last_place(&self) -> Option<u64>
        ensures { result ≡ option_and_then last_place self.now.port }
    {
        self.port.as_ref()?.last_place()
    }

    /// The number of the pass, if there is one.
    pub fn number(&self) -> Option<u64>
        ensures { result ≡ number_of self.now.port }
    {
        match &self.port {
            Some(port) => Some(port.number()),
            None => None,
        }
    }

    /// The pass, if there is one, with a receipt for each call that was made.
    pub fn into_pass(self) -> Option<Pass<J>>
        ensures pass { result ≡ pass_by self.entry.port }
        ensures told { IfSome result (λ pass. told_in pass.receipts ≡ told_by self.entry.port) }
        ensures clients { IfSome result (λ pass. AreClients pass.number pass.receipts) }
        ensures begun { before_by self.entry.port ≡ 0 }
    {
        let LatePort {
            rt: _,
            desk: _,
            workers: _,
            stop: _,
            port,
            blank: _,
            refused: _,
        } = self;
        Some(port?.into_pass())
    }
}

impl<'a, J: Naming, R: Wait + Clock> BookPort for LatePort<'a, J, R> {
    ghost use Rattle.dd_session.specs.Healths.{IsHealth};
    ghost use Rattle.dd_session.specs.Leaving.{SawBy};
    ghost use Rattle.dd_session.specs.Ports.{refusals_by, told_by};

    ghost told = { λ p. told_by p.port };

    ghost refusals = { λ p. refusals_by p.refused p.port };

    ghost saw = { λ p sight. SawBy J.limits p.port sight };

    ghost shows = { λ p health. IsHealth J.limits p.workers health };

    fn ask(&mut self, want: Want) -> Result<Reply, DeskFault>
        ensures told { Tells (port_of (told_by self.old.port)
            (refusals_by self.old.refused self.old.port)) want result
            (port_of (told_by self.new.port) (refusals_by self.new.refused self.new.port)) }
        ensures stop { want ≡ StopWant → result ≡ Err OutOfMemory
            → has_shut (receipts_by self.old.port) ≡ true }
        ensures refused { IfErr result (RefusesWant J.limits (number_of self.new.port) want) }
    {
        enrol_at(
            self.rt,
            self.desk,
            self.workers,
            self.stop,
            self.refused,
            &mut self.port,
            &mut self.blank,
        );
        ask_at(&mut self.port, &mut self.refused, want)
    }

    fn fetch_within(&mut self, job: u64, wait: u64) -> Result<Reply, DeskFault>
        ensures told { Tells (port_of (told_by self.old.port)
            (refusals_by self.old.refused self.old.port)) (Fetch job) result
            (port_of (told_by self.new.port) (refusals_by self.new.refused self.new.port)) }
        ensures ends { IfOk result (EndsIn wait) }
        ensures refused { IfErr result (RefusesWant J.limits (number_of self.new.port) (Fetch job)) }
    {
        enrol_at(
            self.rt,
            self.desk,
            self.workers,
            self.stop,
            self.refused,
            &mut self.port,
            &mut self.blank,
        );
        fetch_at(&mut self.port, &mut self.refused, job, wait)
    }

    fn health(&self) -> Health {
        health_of(self.rt, self.desk, self.workers)
    }

    // Who has no pass has no job, and takes none.
    fn leave(&mut self)
        ensures none { self.old.port ≡ None → self.new.port ≡ None }
        ensures leaves { Leaves (SawBy J.limits self.new.port)
            (port_of (told_by self.old.port) (refusals_by self.old.refused self.old.port))
            (port_of (told_by self.new.port) (refusals_by self.new.refused self.new.port)) }
    {
        leave_at(&mut self.port)
    }
}

// Takes a pass, where there is none and one is left.
fn enrol_at<'a, J: Naming, R: Wait + Clock>(
    rt: &'a R,
    desk: &'a Desk<J>,
    workers: u64,
    stop: &'a AtomicBool,
    refused: u64,
    port: &mut Option<DeskPort<'a, J, R>>,
    blank: &mut Option<BlankPass>,
)
    requires either { port.old ≡ None → IsSome blank.old }
    ensures either { port.new ≡ None → IsSome blank.new }
    ensures left { port.new ≡ None → HasNoPassLeft J.limits }
    ensures told { told_by port.new ≡ told_by port.old }
    ensures refusals { refusals_by refused port.new ≡ refusals_by refused port.old }
    ensures receipts { receipts_by port.new ≡ receipts_by port.old }
    ensures before { before_by port.new ≡ before_by port.old }
{
    if port.is_some() {
        return;
    }
    let Some(kept) = blank.take() else {
        return;
    };
    match desk.enrol_blank(rt, kept) {
        Ok(pass) => *port = Some(DeskPort::after(rt, desk, pass, workers, stop, refused)),
        Err(kept) => *blank = Some(kept),
    }
}

// Refuses a call, with a port or before it.
fn refuse_at<J: Naming, R: Wait + Clock>(
    port: &mut Option<DeskPort<'_, J, R>>,
    refused: &mut u64,
) -> DeskFault
    ensures fault { result ≡ JournalFull }
    ensures told { told_by port.new ≡ told_by port.old }
    ensures counted { refusals_by refused.new port.new ≡ one_more (refusals_by refused.old port.old) }
    ensures receipts { receipts_by port.new ≡ receipts_by port.old }
    ensures number { number_of port.new ≡ number_of port.old }
    ensures none { port.new ≡ None → port.old ≡ None }
    ensures before { before_by port.new ≡ before_by port.old }
{
    match port {
        Some(port) => port.refuse(),
        None => {
            *refused = one_more(*refused);
            DeskFault::JournalFull
        }
    }
}

// A call over the port, if it is there.
fn ask_at<J: Naming, R: Wait + Clock>(
    port: &mut Option<DeskPort<'_, J, R>>,
    refused: &mut u64,
    want: Want,
) -> Result<Reply, DeskFault>
    requires left { port.old ≡ None → HasNoPassLeft J.limits }
    ensures none { port.new ≡ None → port.old ≡ None }
    ensures told { Tells (port_of (told_by port.old) (refusals_by refused.old port.old)) want result
        (port_of (told_by port.new) (refusals_by refused.new port.new)) }
    ensures stop { want ≡ StopWant → result ≡ Err OutOfMemory
        → has_shut (receipts_by port.old) ≡ true }
    ensures refused { IfErr result (RefusesWant J.limits (number_of port.new) want) }
    ensures before { before_by port.new ≡ before_by port.old }
{
    match port {
        Some(port) => port.ask(want),
        None => Err(refuse_at(port, refused)),
    }
}

// A submit over the port, if it is there, with a claim by the pass of a worker.
fn submit_at<J: Naming, R: Wait + Clock>(
    port: &mut Option<DeskPort<'_, J, R>>,
    refused: &mut u64,
    asked: Asked,
    worker: &mut Pass<J>,
) -> (Result<Reply, DeskFault>, Option<Reply>)
    requires left { port.old ≡ None → HasNoPassLeft J.limits }
    ensures none { port.new ≡ None → port.old ≡ None }
    ensures told { Tells (port_of (told_by port.old) (refusals_by refused.old port.old)) (Submit asked) result.0
        (port_of (told_by port.new) (refusals_by refused.new port.new)) }
    ensures claimed { MayClaim J.limits worker.old result.0 result.1 worker.new }
    ensures refused { IfErr result.0 (RefusesWant J.limits (number_of port.new) (Submit asked)) }
    ensures before { before_by port.new ≡ before_by port.old }
{
    match port {
        Some(port) => port.submit_and_claim(asked, worker),
        None => (Err(refuse_at(port, refused)), None),
    }
}

// A fetch over the port, if it is there.
fn fetch_at<J: Naming, R: Wait + Clock>(
    port: &mut Option<DeskPort<'_, J, R>>,
    refused: &mut u64,
    job: u64,
    wait: u64,
) -> Result<Reply, DeskFault>
    requires left { port.old ≡ None → HasNoPassLeft J.limits }
    ensures none { port.new ≡ None → port.old ≡ None }
    ensures told { Tells (port_of (told_by port.old) (refusals_by refused.old port.old)) (Fetch job) result
        (port_of (told_by port.new) (refusals_by refused.new port.new)) }
    ensures ends { IfOk result (EndsIn wait) }
    ensures refused { IfErr result (RefusesWant J.limits (number_of port.new) (Fetch job)) }
    ensures before { before_by port.new ≡ before_by port.old }
{
    match port {
        Some(port) => port.fetch_within(job, wait),
        None => Err(refuse_at(port, refused)),
    }
}

// The port is left, if it is there.
fn leave_at<J: Naming, R: Wait + Clock>(port: &mut Option<DeskPort<'_, J, R>>)
    ensures none { port.old ≡ None → port.new ≡ None }
    ensures kept { port.new ≡ None → port.old ≡ None }
    ensures leaves { (refused : ℕ) → Leaves (SawBy J.limits port.new)
        (port_of (told_by port.old) (refusals_by refused port.old))
        (port_of (told_by port.new) (refusals_by refused port.new)) }
    ensures before { before_by port.new ≡ before_by port.old }
{
    match port {
        Some(port) => port.leave(),
        None => {}
    }
}
