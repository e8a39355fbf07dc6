//! What the threads of a run share.
ghost use Rattle.std.specs.Prelude.{◌≡◌};
ghost use Rattle.dd_server.specs.Callers.{IsWorkersOrClients};
ghost use Rattle.dd_server.specs.Worn.{SeesFewFree, SeesFewLeft, SeesFewPasses, SeesUsedUp};

use crate::looks::{DeskLooks, Looks};
use crate::new_pass::NewPass;
use crate::returned::Returned;
use crate::server_state::ServerState;
use crate::stop::RunStop;
use crate::terms::{RunNaming, Terms};
use crate::wear::{are_events_used, are_few_left, are_passes_used};
use dd_book::Limits;
use dd_desk::{BlankPass, Desk, DeskFault, Pass};
use std::alloc::AllocError;
use std::sync::atomic::{AtomicBool, AtomicU64, Ordering};
use std::sync::{Mutex, Wait};

/// How many events a table takes: its submit, a claim and a finish of each of its twenty parts, and the fetch that tells it.
const EVENTS_OF_TABLE: u64 = 42;

/// How many events a play of 52 cards takes, the most that a job takes.
const EVENTS_OF_PLAY: u64 = 106;

/// For how many jobs at most the desk is asked once.
const MOST_UNASKED: u64 = 64;

/// Of how many connections that have asked nothing yet a table is expected.
const MOST_EXPECTED: u64 = 64;

/// What the threads of a run share.
#[derive(Drop)]
pub(crate) struct RunState<'a, J: RunNaming> {
    pub(crate) server: &'a ServerState,
    pub(crate) number: u64,
    // Those of its desk.
    pub(crate) limits: Limits,
    // As the run was asked for.
    pub(crate) terms: Terms,
    pub(crate) desk: Desk<J>,
    pub(crate) returned: Mutex<Returned<J>>,
    pub(crate) stop: RunStop,
    // The run is used up: it takes no more connections, nor jobs but the first of who was accepted before.
    pub(crate) worn: AtomicBool,
    // The run ends, since another one follows it: it takes no job at all.
    pub(crate) over: AtomicBool,
    // How many submits of who has had an event there were, and up to which of them the run surely has room.
    pub(crate) submits: AtomicU64,
    pub(crate) sure: AtomicU64,
    // How many connections have asked nothing yet that needs a pass.
    pub(crate) silent: AtomicU64,
    // A worker of the run left since memory stays out.
    pub(crate) lacks_memory: AtomicBool,
    pub(crate) ghost same: { limits ≡ J.limits },
    pub(crate) ghost asked: { terms ≡ J.terms },
}

impl<'a, J: RunNaming> RunState<'a, J> {
    /// A pass, with room kept for its return.
    pub(crate) fn enrol<R: Wait>(&self, rt: &R) -> Result<NewPass<J>, DeskFault> {
        if self.returned.lock(rt).expect_one().is_err() {
            return Err(DeskFault::OutOfMemory);
        }
        match self.desk.enrol(rt) {
            Ok(pass) => Ok(NewPass::new(pass)),
            Err(fault) => {
                self.expect_one_less(rt);
                Err(fault)
            }
        }
    }

    /// What a pass needs, with room kept for its return.
    pub(crate) fn blank_pass<R: Wait>(&self, rt: &R) -> Result<BlankPass, AllocError> {
        self.returned.lock(rt).expect_one()?;
        let blank = BlankPass::new(self.server.alloc);
        if blank.is_err() {
            self.expect_one_less(rt);
        }
        blank
    }

    /// A pass for whose return room was kept was never had.
    pub(crate) fn expect_one_less<R: Wait>(&self, rt: &R) {
        self.returned.lock(rt).expect_one_less();
    }

    /// The pass comes back.
    pub(crate) fn take_back<R: Wait>(&self, rt: &R, pass: Pass<J>)
        requires { IsWorkersOrClients J.limits J.terms pass }
    {
        self.returned.lock(rt).take_back(pass);
    }

    /// Whether it is known that the run is used up.
    pub(crate) fn is_worn(&self) -> bool {
        self.worn.load(Ordering::SeqCst)
    }

    /// The desk, to be looked at.
    pub(crate) fn looks<'b, R>(&'b self, rt: &'b R) -> DeskLooks<'b, J, R> {
        DeskLooks {
            rt,
            desk: &self.desk,
        }
    }

    /// Is the run to take no more connections? It is used up, by whomever, as its desk shows, and takes no more jobs from then on.
    pub(crate) fn is_used_up<D: Looks>(&self, looks: &D) -> bool
        ensures used_up { SeesUsedUp J.limits (D.saw_tally looks.now) result }
        ensures free { SeesFewFree J.limits (D.saw_free looks.now) result }
        ensures passes { SeesFewPasses J.limits (D.saw_given looks.now) result }
    {
        let has_few_events = self.has_few_events(looks);
        let has_few_free = self.has_few_free(looks);
        let has_few_passes = self.has_few_passes(looks);
        let is_used_up = has_few_events || has_few_free || has_few_passes || self.is_worn();
        if is_used_up {
            self.note_used_up();
        }
        is_used_up
    }

    /// Does the run take no more jobs from who has had an event? Its desk is asked once for as many jobs as it surely has room for.
    pub(crate) fn takes_no_more<D: Looks>(&self, looks: &D) -> bool {
        let number = self.submits.fetch_add(1, Ordering::SeqCst);
        self.is_worn() || (self.sure.load(Ordering::SeqCst) <= number && self.has_few_free(looks))
    }

    // Are few events free, or would be if each connection that has asked nothing yet asked for a table? Then the run is used up.
    fn has_few_free<D: Looks>(&self, looks: &D) -> bool
        ensures { SeesFewFree J.limits (D.saw_free looks.now) result }
    {
        let free = looks.free();
        let beside = free.saturating_sub(self.expected_events());
        let has_few = are_few_left(self.limits, free) || are_few_left(self.limits, beside);
        if has_few {
            self.note_used_up();
        } else {
            self.note_room(beside);
        }
        has_few
    }

    // So many events are free beside what is expected: the desk need not be asked for the next jobs.
    fn note_room(&self, free: u64) {
        let spare = free.saturating_sub(self.limits.events() / 4) / EVENTS_OF_PLAY;
        let number = self.submits.load(Ordering::SeqCst);
        let sure = number.saturating_add(spare.min(MOST_UNASKED));
        self.sure.store(sure, Ordering::SeqCst);
    }

    // How many events are expected of connections that have asked nothing yet.
    fn expected_events(&self) -> u64 {
        self.silent.load(Ordering::SeqCst).min(MOST_EXPECTED) * EVENTS_OF_TABLE
    }

    /// A connection begins.
    pub(crate) fn note_silent(&self) {
        self.silent.fetch_add(1, Ordering::SeqCst);
    }

    /// It has asked for the first time what needs a pass, or has ended before.
    pub(crate) fn note_not_silent(&self) {
        self.silent.fetch_sub(1, Ordering::SeqCst);
    }

    // Is no more than the last quarter of the events left? Clients and workers made the others.
    fn has_few_events<D: Looks>(&self, looks: &D) -> bool
        ensures { SeesFewLeft J.limits (D.saw_tally looks.now) result }
    {
        are_few_left(self.limits, looks.tally().events_left)
    }

    // Are no more than the last of its passes left?
    fn has_few_passes<D: Looks>(&self, looks: &D) -> bool
        ensures { SeesFewPasses J.limits (D.saw_given looks.now) result }
    {
        are_passes_used(self.limits, looks.given())
    }

    /// The run is used up.
    pub(crate) fn note_used_up(&self) {
        self.worn.store(true, Ordering::SeqCst);
    }

    /// The run ends, since another one follows it.
    pub(crate) fn note_over(&self) {
        self.note_used_up();
        self.over.store(true, Ordering::SeqCst);
    }

    /// Does the run end, so that it takes no job at all?
    pub(crate) fn is_over(&self) -> bool {
        self.over.load(Ordering::SeqCst)
    }

    /// An event stands at this place of the journal.
    pub(crate) fn note_place(&self, place: u64) {
        if are_events_used(self.limits, place) {
            self.note_used_up();
        }
    }

    /// So many passes were given.
    pub(crate) fn note_passes(&self, passes: u64) {
        if are_passes_used(self.limits, passes) {
            self.note_used_up();
        }
    }
}
