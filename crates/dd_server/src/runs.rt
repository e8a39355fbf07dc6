//! The runs of a server, as all threads see them.
ghost use Rattle.std.specs.Prelude.{◌≡◌, IfOk};

use crate::args::ServeFault;
use crate::roster::{Begun, News, Opening, Roster};
use crate::run_end::{RunEnd, RunLimits};
use crate::telling::KeepsRuns;
use crate::terms::Terms;
use dd_book::Limits;
use dd_desk::Row;
use std::alloc::{AllocError, Global};
use std::sync::{Condvar, Mutex, Wait};
use std::time::{Clock, Duration};

/// How many milliseconds a connection waits for room for its run.
const MOST_WAIT: u64 = 1_000;

/// The runs of a server under a lock, and the limits and the terms that each of them has.
#[derive(Drop)]
pub(crate) struct Runs<L: RunLimits, K: KeepsRuns> {
    alloc: Global,
    limits: Limits,
    terms: Terms,
    roster: Mutex<Roster<L, K>>,
    // A run has ended, or the next one is to begin.
    changed: Condvar,
    ghost same: { limits ≡ L.limits },
    ghost asked: { terms ≡ L.terms },
}

impl<L: RunLimits, K: KeepsRuns> Runs<L, K> {
    /// No run has begun.
    pub(crate) fn new(alloc: Global, limits: Limits, terms: Terms) -> Runs<L, K>
        requires limits { limits ≡ L.limits }
        requires terms { terms ≡ L.terms }
    {
        Runs {
            alloc,
            limits,
            terms,
            roster: Mutex::new(Roster::new(alloc)),
            changed: Condvar::new(),
        }
    }

    /// The limits of each run.
    pub(crate) fn limits(&self) -> Limits
        ensures { result ≡ L.limits }
    {
        self.limits
    }

    /// The terms of each run.
    pub(crate) fn terms(&self) -> Terms
        ensures { result ≡ L.terms }
    {
        self.terms
    }

    /// A row for the desk of a run.
    pub(crate) fn row(&self) -> Result<Row, AllocError>
        ensures { IfOk result (λ row. row.limits ≡ L.limits) }
    {
        Row::new(self.alloc, self.limits)
    }

    /// One run more. Where there is no room for its end the server ends badly.
    pub(crate) fn begin<R: Wait>(&self, rt: &R) -> Option<Begun> {
        let mut roster = self.roster.lock(rt);
        let begun = roster.begin();
        if begun.is_err() {
            roster.fail(ServeFault::OutOfMemory);
        }
        begun.ok()
    }

    /// Waits until the run that accepts opens the next one, a run has ended, or none serves any more.
    pub(crate) fn next<R: Wait>(&self, rt: &R) -> News<L, K> {
        let mut roster = self.changed.wait_while(
            rt,
            self.roster.lock(rt),
            |roster: &mut Roster<L, K>| roster.is_quiet(),
        );
        roster.take_news()
    }

    /// Is there room for another run? Where there is none, those before this one are to end soon, and it waits for that: a second at
    /// most, and where that was too short not again before a run has ended.
    pub(crate) fn make_room<R: Wait + Clock>(&self, rt: &R, number: u64) -> bool {
        let mut roster = self.roster.lock(rt);
        if !roster.is_crowded() {
            return true;
        }
        roster.hurry(number);
        if roster.is_stuck() {
            return false;
        }
        let (mut roster, waited) = self.changed.wait_timeout_while(
            rt,
            roster,
            Duration::from_millis(MOST_WAIT),
            |roster: &mut Roster<L, K>| roster.is_crowded(),
        );
        if waited.timed_out() {
            roster.stick();
        }
        !waited.timed_out()
    }

    /// The run that accepts is worn, and another is to begin so.
    pub(crate) fn open_next<R: Wait>(&self, rt: &R, opening: Opening<L>) {
        self.roster.lock(rt).open_next(opening);
        self.changed.notify_all();
    }

    /// Is this run to end soon, since others have no room?
    pub(crate) fn is_hurried<R: Wait>(&self, rt: &R, number: u64) -> bool {
        self.roster.lock(rt).is_hurried(number)
    }

    /// Does another run serve beside one that does?
    pub(crate) fn has_others<R: Wait>(&self, rt: &R) -> bool {
        self.roster.lock(rt).has_others()
    }

    /// A run has ended.
    pub(crate) fn end<R: Wait>(&self, rt: &R, begun: Begun, end: Result<RunEnd<L, K>, ServeFault>) {
        self.roster.lock(rt).end(begun, end);
        self.changed.notify_all();
    }

    /// Why the server ended badly, if it did.
    pub(crate) fn into_fault(self) -> Option<ServeFault> {
        let Runs {
            alloc: _,
            limits: _,
            terms: _,
            roster,
            changed: _,
        } = self;
        roster.into_inner().into_fault()
    }
}
