//! The port of a run.
ghost use Rattle.std.specs.Prelude.{◌≡◌, ◌⊎◌, true, Err, IfErr, IfOk, IfSome, IsTrue, ◌↔◌, option_and_then};
ghost use Rattle.dd_wire.specs.declared.want.Want.TheVariants.{Fetch, Stop as StopWant, Submit};
ghost use Rattle.dd_desk.specs.Receipts.{has_shut};
ghost use Rattle.dd_session.specs.Ports.{AreClients, RefusesWant, Tells, before_by, last_place, new_late_port, number_of, pass_by, port_of, receipts_by, refusals_by, told_by, told_in};
ghost use Rattle.dd_session.specs.Serving.{EndsIn};
ghost use Rattle.dd_server.specs.Worn.{KnowsWorn, is_submit};

use crate::run_state::RunState;
use crate::short_jobs::{ShortJobs, is_short, work};
use crate::terms::RunNaming;
use crate::wear::are_events_used;
use dd_book::{Limits, Reply};
use dd_desk::{BlankPass, DeskFault, Pass};
use dd_request::Asked;
use dd_session::{BookPort, LatePort};
use dd_wire::{Health, Want};
use dd_work::Gate;
use std::cell::Cell;
use std::sync::Wait;
use std::time::Clock;

/// A port whose stop ends the run and the server, and which takes no submit but the first once the run is worn. It has no pass
/// before a call needs one. On a short job its session works itself, where no other part waits.
pub(crate) struct RunPort<'a, J: RunNaming, R: Wait + Clock, G> {
    port: LatePort<'a, J, R>,
    rt: &'a R,
    state: &'a RunState<'a, J>,
    limits: Limits,
    // Here the number of the pass is told.
    caller: &'a Cell<Option<u64>>,
    gate: &'a G,
    short_jobs: ShortJobs<J>,
}

impl<'a, J: RunNaming, R: Wait + Clock + Eprint, G: Gate> RunPort<'a, J, R, G> {
    pub(crate) fn new(
        rt: &'a R,
        state: &'a RunState<'a, J>,
        blank: BlankPass,
        caller: &'a Cell<Option<u64>>,
        gate: &'a G,
    ) -> RunPort<'a, J, R, G>
        ensures limits { result.limits ≡ state.now.server.now.limits }
        ensures port { result.port ≡ new_late_port state.now.server.now.args.workers }
    {
        let workers = state.server.args.workers;
        RunPort {
            port: LatePort::new(rt, &state.desk, blank, workers as u64, state.stop.flag()),
            rt,
            state,
            limits: state.server.limits,
            caller,
            gate,
            short_jobs: ShortJobs::new(),
        }
    }

    /// The pass within, if there is one. That of a worker, if the session has one, comes back to the run.
    pub(crate) fn into_pass(self) -> Option<Pass<J>>
        ensures pass { result ≡ pass_by self.entry.port.port }
        ensures told { IfSome result (λ pass.
            told_in pass.receipts ≡ told_by self.entry.port.port) }
        ensures clients { IfSome result (λ pass. AreClients pass.number pass.receipts) }
        ensures begun { before_by self.entry.port.port ≡ 0 }
    {
        let RunPort {
            port,
            rt,
            state,
            limits: _,
            caller: _,
            gate: _,
            short_jobs,
        } = self;
        short_jobs.end(rt, state);
        port.into_pass()
    }

    // Does the run take no submit of this session? It may be another one that saw that first. Who has had no event yet came while
    // the run had room for it: that is the desk's to say, until the run ends.
    fn is_worn(&self) -> bool
        ensures { KnowsWorn self.now.limits (option_and_then last_place self.now.port.port)
            → IsTrue result }
    {
        match self.port.last_place() {
            Some(place) => are_events_used(self.limits, place)
                || self.state.takes_no_more(&self.state.looks(self.rt)),
            None => self.state.is_over(),
        }
    }

    // Tells the run where the journal stands, and once which pass the session has.
    fn note(&self) {
        if let Some(place) = self.port.last_place() {
            self.state.note_place(place);
        }
        if self.caller.get().is_none() {
            self.note_pass(self.port.number())
        }
    }

    fn note_pass(&self, number: Option<u64>) {
        if let Some(number) = number {
            self.state.note_not_silent();
            self.state.note_passes(number);
            self.caller.set(Some(number));
        }
    }

    // A desk whose journal is full says so, and has no place for it.
    fn note_full(&self, said: &Result<Reply, DeskFault>) {
        if matches!(said, Err(DeskFault::JournalFull)) {
            self.state.note_used_up();
        }
    }

    // A submit at the desk.
    fn submit(&mut self, asked: Asked) -> Result<Reply, DeskFault>
        ensures { Tells (port_of (told_by self.old.port.port)
            (refusals_by self.old.port.refused self.old.port.port)) (Submit asked) result
            (port_of (told_by self.new.port.port)
            (refusals_by self.new.port.refused self.new.port.port)) }
    {
        if !is_short(&asked) || !self.gate.lets_others_work() {
            return self.ask_desk(Want::Submit(asked));
        }
        let Some(ready) = self.short_jobs.take(self.rt, self.state) else {
            return self.ask_desk(Want::Submit(asked));
        };
        let mut worker = ready.into_pass();
        let (reply, claim) = self.port.submit_and_claim(asked, &mut worker);
        self.note();
        self.note_full(&reply);
        self.short_jobs
            .put_back(work(self.rt, self.state, self.gate, worker, claim));
        reply
    }

    // A call at the desk, and where it is a stop, that of the server.
    fn ask_desk(&mut self, want: Want) -> Result<Reply, DeskFault>
        ensures told { Tells (port_of (told_by self.old.port.port)
            (refusals_by self.old.port.refused self.old.port.port)) want result
            (port_of (told_by self.new.port.port)
            (refusals_by self.new.port.refused self.new.port.port)) }
        ensures stop { want ≡ StopWant → result ≡ Err DeskFault.OutOfMemory
            → has_shut (receipts_by self.old.port.port) ≡ true }
        ensures refused { IfErr result (RefusesWant J.limits (number_of self.new.port.port) want) }
    {
        let stops = is_stop(&want);
        let reply = self.port.ask(want);
        self.note();
        self.note_full(&reply);
        if stops && !found_no_memory(&reply) {
            let ended = self.state.stop.end(self.rt, &reply);
            self.state.server.stop.stop(ended);
        }
        reply
    }
}

impl<'a, J: RunNaming, R: Wait + Clock + Eprint, G: Gate> BookPort for RunPort<'a, J, R, G> {
    ghost use Rattle.dd_session.specs.Healths.{IsHealth};
    ghost use Rattle.dd_session.specs.Leaving.{SawBy};
    ghost use Rattle.dd_session.specs.Ports.{refusals_by, told_by};

    ghost told = { λ s. told_by s.port.port };

    ghost refusals = { λ s. refusals_by s.port.refused s.port.port };

    ghost saw = { λ s sight. SawBy J.limits s.port.port sight };

    ghost shows = { λ s health. IsHealth J.limits s.port.workers health };

    fn ask(&mut self, want: Want) -> Result<Reply, DeskFault>
        ensures told { Tells (port_of (told_by self.old.port.port)
            (refusals_by self.old.port.refused self.old.port.port)) want result
            (port_of (told_by self.new.port.port)
            (refusals_by self.new.port.refused self.new.port.port)) }
        ensures worn { KnowsWorn self.old.limits (option_and_then last_place self.old.port.port)
            → is_submit want ≡ true → result ≡ Err DeskFault.JournalFull }
        ensures stop { want ≡ StopWant → result ≡ Err DeskFault.OutOfMemory
            → has_shut (receipts_by self.old.port.port) ≡ true }
        // A submit may be refused unasked, by a run that is worn, and nothing else.
        ensures refused { IfErr result (λ fault. (is_submit want ≡ true)
            ⊎ RefusesWant J.limits (number_of self.new.port.port) want fault) }
    {
        if is_submit(&want) && self.is_worn() {
            return Err(self.port.refuse());
        }
        match want {
            Want::Submit(asked) => self.submit(asked),
            Want::Cancel(_) | Want::Fetch(_) | Want::Stop => self.ask_desk(want),
        }
    }

    fn fetch_within(&mut self, job: u64, wait: u64) -> Result<Reply, DeskFault>
        ensures told { Tells (port_of (told_by self.old.port.port)
            (refusals_by self.old.port.refused self.old.port.port)) (Fetch job) result
            (port_of (told_by self.new.port.port)
            (refusals_by self.new.port.refused self.new.port.port)) }
        ensures ends { IfOk result (EndsIn wait) }
        ensures refused { IfErr result (RefusesWant J.limits (number_of self.new.port.port) (Fetch job)) }
    {
        let reply = self.port.fetch_within(job, wait);
        self.note();
        self.note_full(&reply);
        reply
    }

    fn health(&self) -> Health {
        self.port.health()
    }

    fn leave(&mut self) {
        self.port.leave();
        self.note();
    }
}

// Is it a submit that is wanted?
fn is_submit(want: &Want) -> bool
    ensures { result ≡ is_submit want.now }
{
    matches!(want, Want::Submit(_))
}

// Is it a stop that is wanted?
fn is_stop(want: &Want) -> bool
    ensures { IsTrue result ↔ (want.now ≡ StopWant) }
{
    matches!(want, Want::Stop)
}

// Did the call find no memory? Then the book was not shut.
fn found_no_memory(said: &Result<Reply, DeskFault>) -> bool
    ensures { IsTrue result ↔ (said.now ≡ Err DeskFault.OutOfMemory) }
{
    matches!(said, Err(DeskFault::OutOfMemory))
}
