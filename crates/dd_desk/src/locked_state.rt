//! What lies under the desk's lock.
ghost use Rattle.std.specs.Prelude.{◌≡◌, ◌+◌, ◌<◌, ◌≤◌, true, false, [], length, map, take, vec_len, vec_capacity, Some, ◌⊎◌, MatchResult, MatchBool, IfErr, IfOk, IfSome};
ghost use Rattle.dd_book.specs.Calls.{IsIdle};
ghost use Rattle.dd_book.specs.Jobs.{is_open_job, open_in, own_job};
ghost use Rattle.dd_desk.specs.Looks.{SeesOpen, SeesRunning, SeesTally};
ghost use Rattle.dd_desk.specs.Reserve.{SeesFree, reserved};
ghost use Rattle.dd_desk.specs.Sightings.{HasGiven, HasNoPassLeft, WasSeen};
ghost use Rattle.dd_desk.specs.Receipts.{below};
ghost use Rattle.dd_desk.specs.Entries.{AreBeginnings, event_in, journal_in};

use crate::bells::{Concerns, Rings};
use crate::blank_pass::BlankPass;
use crate::entry::Entry;
use crate::event::Event;
use crate::history::History;
use crate::names::{Naming, PlaceSums, ReceiptCounts};
use crate::past::Past;
use crate::receipt_log::{CountedLog, ReceiptLog};
use crate::seen::{Seen, follow, goes_on};
use crate::tally::Tally;
use dd_book::Limits;
use once_cell::race::Note;
use std::alloc::Global;
use std::sync::ledger::{Blank, Share};
use std::sync::{Wait, ledger};

/// The book with its journal, a note of the cell of each place, which knows the event there and the
/// journal up to it, the books of both ledgers, and the parts of the passes that were not given yet.
#[derive(Drop)]
pub struct LockedState<J: Naming> {
    pub(crate) history: History,
    pub(crate) marks: Vec<Note<Entry>>,
    // The journal again, for the next event.
    pub(crate) past: Past,
    pub(crate) given: u64,
    pub(crate) count: ledger::Book<ReceiptCounts<J>>,
    pub(crate) sum: ledger::Book<PlaceSums<J>>,
    pub(crate) spare_count: Share<ReceiptCounts<J>>,
    pub(crate) spare_sum: Share<PlaceSums<J>>,
    pub ghost within: { history.limits.events ≤ length J.cells },
    pub ghost marked: { map (λ n. n.cell) marks.items
        ≡ take (vec_len history.journal) J.cells },
    pub ghost knows: { map (λ n. event_in n.known) marks.items
        ≡ map Some history.journal.items },
    pub ghost beginnings: { AreBeginnings (map (λ n. journal_in n.known) marks.items)
        history.journal.items },
    pub ghost remembered: { past.events ≡ history.journal.items },
    pub ghost room: { (vec_len marks ≡ vec_len history.journal)
        × (history.limits.events ≤ vec_capacity marks) },
    pub ghost counted: { count.total ≡ vec_len history.journal },
    pub ghost placed: { sum.total ≡ below (vec_len history.journal) },
    pub ghost limits_are: { history.limits ≡ J.limits },
    pub ghost all_is: { history.limits.passes ≡ J.all },
    pub ghost parts: { (spare_count.parts + given ≡ J.all)
        × (spare_sum.parts + given ≡ J.all) },
    pub ghost idle: { (spare_count.amount ≡ 0) × (spare_sum.amount ≡ 0) },
}

impl<J: Naming> LockedState<J> {
    /// An empty history with its journal and its marks, and all parts of both ledgers.
    pub(crate) fn new(
        alloc: Global,
        limits: Limits,
        journal: Vec<Event>,
        told: Vec<bool>,
        marks: Vec<Note<Entry>>,
        count: Blank,
        sum: Blank,
    ) -> LockedState<J>
        requires journal { (journal.items ≡ []) × (vec_len journal ≡ 0)
            × (limits.events ≤ vec_capacity journal) }
        requires told { (told.items ≡ []) × (limits.jobs ≤ vec_capacity told) }
        requires marks { (marks.items ≡ []) × (vec_len marks ≡ 0)
            × (limits.events ≤ vec_capacity marks) }
        requires limits { limits ≡ J.limits }
        requires events { limits.events ≡ length J.cells }
        requires passes { (limits.passes ≡ J.all) × (J.all ≡ J.parts) }
        requires count { (count.name ≡ J.counts) × (count.parts ≡ J.parts) }
        requires sum { (sum.name ≡ J.places) × (sum.parts ≡ J.parts) }
    {
        let (count, spare_count) = count.open::<ReceiptCounts<J>>();
        let (sum, spare_sum) = sum.open::<PlaceSums<J>>();
        LockedState {
            history: History::new(alloc, limits, journal, told),
            marks,
            past: Past::empty(),
            given: 0,
            count,
            sum,
            spare_count,
            spare_sum,
        }
    }

    /// A new pass, under the next number. The blank comes back exactly where as many were given as there may be.
    pub(crate) fn enrol(&mut self, blank: BlankPass) -> Result<CountedLog<J>, BlankPass>
        ensures pass { IfOk result (λ held. (held.log.number ≡ self.old.given + 1)
            × (held.log.receipts.items ≡ [])) }
        ensures given { MatchResult result (λ _. self.new.given ≡ self.old.given + 1)
            (λ _. self.new.given ≡ self.old.given) }
        ensures full { MatchResult result (λ _. self.old.given < self.old.history.limits.passes)
            (λ _. self.old.given ≡ self.old.history.limits.passes) }
        ensures left { IfErr result (λ _. HasNoPassLeft J.limits) }
        ensures same { self.new.history ≡ self.old.history }
    {
        if self.given() >= self.history.limits.passes() {
            return Err(blank);
        }
        let LockedState {
            history: _,
            marks: _,
            past: _,
            given,
            count: _,
            sum: _,
            spare_count,
            spare_sum,
        } = self;
        let log = ReceiptLog::new(blank, *given + 1);
        let count = spare_count.split_off(1, 0);
        let sum = spare_sum.split_off(1, 0);
        *given += 1;
        Ok(CountedLog { log, count, sum })
    }

    /// How many passes were given.
    pub(crate) fn given(&self) -> u64
        ensures same { result ≡ self.now.given }
        ensures given { HasGiven J.limits result }
    {
        self.given
    }

    // The book with its journal, as a look sees it.
    fn seen(&self) -> &History
        ensures history { result.now ≡ self.now.history }
        ensures was { WasSeen J.limits self.now.history.journal.items }
    {
        &self.history
    }

    /// Must a fetch of this job wait? It must exactly while the job is the caller's and open, and nobody shut.
    pub(crate) fn keeps_fetch_waiting(&self, caller: u64, job: u64) -> bool
        ensures { MatchBool result
            ((is_open_job (own_job self.now.history.book.jobs caller job) ≡ true)
            × (self.now.history.book.shut ≡ false))
            ((is_open_job (own_job self.now.history.book.jobs caller job) ≡ false)
            ⊎ (self.now.history.book.shut ≡ true)) }
    {
        !self.history.is_shut() && self.history.is_open(caller, job)
    }

    /// Has the caller an open job?
    pub(crate) fn has_open(&self, caller: u64) -> bool
        ensures { SeesOpen J.limits caller result }
    {
        self.seen().has_open(caller)
    }

    /// How many events the journal still has room for, and how many jobs are open.
    pub(crate) fn tally(&self) -> Tally
        ensures left { result.events_left + vec_len self.now.history.journal
            ≡ self.now.history.limits.events }
        ensures jobs { result.open_jobs ≡ open_in self.now.history.book.jobs }
        ensures sees { SeesTally J.limits result }
    {
        self.seen().tally()
    }

    /// Has the worker that has seen this a part of the job of this number under this claim number?
    pub(crate) fn still_runs<R: Wait>(
        &mut self,
        rt: &R,
        seen: &mut Seen<J>,
        job: u64,
        claim: u64,
    ) -> bool
        ensures seen { seen.new ≡ seen.old }
        ensures sees { SeesRunning J.limits seen.old job claim result }
    {
        follow(rt, self, seen);
        self.history.runs(seen.number(), job, claim)
    }

    /// The same, where the journal goes on from what the worker has seen: it always does.
    pub(crate) fn may_still_run(&mut self, seen: &mut Seen<J>, job: u64, claim: u64) -> Option<bool>
        ensures seen { seen.new ≡ seen.old }
        ensures sees { IfSome result (SeesRunning J.limits seen.old job claim) }
    {
        if !goes_on(self, seen) {
            return None;
        }
        Some(self.history.runs(seen.number(), job, claim))
    }

    /// Whose bells are to ring after a call.
    pub(crate) fn rings(&self, told: Concerns, answered: bool) -> Rings {
        if !answered {
            return Rings::Nobody;
        }
        match told {
            Concerns::Nobody => Rings::Nobody,
            Concerns::OwnerOf(job) => match self.history.owner_of_ended(job) {
                Some(owner) => Rings::One(owner),
                None => Rings::Nobody,
            },
            Concerns::Everybody => Rings::Everybody(self.given),
        }
    }

    /// How many events are neither made nor reserved.
    pub(crate) fn free(&self) -> u64
        ensures free { length self.now.history.journal.items
            + reserved self.now.history.limits self.now.history.journal.items + result
            ≡ self.now.history.limits.events }
        ensures sees { SeesFree J.limits result }
    {
        self.seen().free()
    }

    /// Must a claim wait? It must exactly while nothing waits, nobody shut, and some job is open or some event free: else no
    /// part will ever wait again.
    pub(crate) fn keeps_waiting(&self) -> bool
        ensures { MatchBool result
            (IsIdle self.now.history.book
            × ((length self.now.history.journal.items
            + reserved self.now.history.limits self.now.history.journal.items
            < self.now.history.limits.events) ⊎ (1 ≤ open_in self.now.history.book.jobs)))
            ((IsIdle self.now.history.book → ⊥)
            ⊎ ((self.now.history.limits.events ≤ length self.now.history.journal.items
            + reserved self.now.history.limits self.now.history.journal.items)
            × (open_in self.now.history.book.jobs ≡ 0))) }
    {
        self.history.is_idle() && (self.history.free() > 0 || self.history.has_open_jobs())
    }
}
