//! What the threads of a run over a file share.
ghost use Rattle.std.specs.Prelude.{IfSome};
ghost use Rattle.dd_file.specs.Deals.{IsThirteen};
ghost use Rattle.dd_fill.specs.Told.{IsRowTold};
ghost use Rattle.dd_bounds.specs.Spent.{IsSpent};

use crate::answered::Answered;
use crate::deal::Deal;
use crate::solving::Row;
use crate::strain_queue::StrainQueue;
use dd_bounds::Bounds;
use dd_cards::{Hands, Strain};
use dd_request::Solver;
use std::alloc::Global;
use std::sync::{Condvar, Mutex, Wait};

/// Deals that were read and whose results were not yet asked for, for threads to search ahead.
#[derive(Drop)]
pub(crate) struct Pool {
    budget: Option<u64>,
    queue: Mutex<StrainQueue>,
    // A strain waits for a thread, or no more come.
    offered: Condvar,
    // The first strain has its results.
    answered: Condvar,
}

impl Pool {
    /// No deals. The budget is the most positions that the search for one result visits.
    pub(crate) fn new(alloc: Global, budget: Option<u64>) -> Pool {
        Pool {
            budget,
            queue: Mutex::new(StrainQueue::new(alloc)),
            offered: Condvar::new(),
            answered: Condvar::new(),
        }
    }

    /// The strains of the deal wait for threads.
    pub(crate) fn take_in<R: Wait>(&self, rt: &R, deal: &Hands)
        requires { IsThirteen deal.now }
    {
        let mut queue = self.queue.lock(rt);
        queue.push(deal);
        drop(queue);
        self.offered.notify_all();
    }

    /// What was found for this strain of the deal, which is the next whose results are asked for, if a thread searched for it;
    /// where one still does it waits. Strains before it, of a deal whose results were given up, are not asked for any more.
    pub(crate) fn row_of<R: Wait>(
        &self,
        rt: &R,
        deal: &Deal,
        strain: Strain,
        budget: Option<u64>,
    ) -> Option<Option<Row>>
        ensures { IfSome result (IsRowTold (IsSpent budget) deal.now strain) }
    {
        let mut queue = self.queue.lock(rt);
        queue.pass_to(strain);
        let mut queue = self.answered.wait_while(
            rt,
            queue,
            |queue: &mut StrainQueue| queue.is_first_running(),
        );
        let popped = queue.pop();
        drop(queue);
        let answered = popped?;
        answered.row_of(deal, strain, budget)
    }

    // The next strain that waits, with its number. None where no more come.
    fn next<R: Wait>(&self, rt: &R) -> Option<(u64, Deal, Strain)> {
        let mut queue = self.offered.wait_while(
            rt,
            self.queue.lock(rt),
            |queue: &mut StrainQueue| queue.is_idle(),
        );
        queue.take()
    }

    // The strain of this number has its results.
    fn put<R: Wait>(&self, rt: &R, number: u64, answered: Answered) {
        let mut queue = self.queue.lock(rt);
        let is_first = queue.put(number, answered);
        drop(queue);
        if is_first {
            self.answered.notify_one();
        }
    }

    /// No more deals come: who searches ahead leaves.
    pub(crate) fn close<R: Wait>(&self, rt: &R) {
        self.queue.lock(rt).close();
        self.offered.notify_all();
    }
}

/// Searches for the results of deals ahead, one strain after another, until no more come.
pub(crate) fn search_ahead<R: Wait, S: Solver, B: Bounds>(
    rt: &R,
    pool: &Pool,
    solver: &S,
    table: &mut B,
) {
    for _ in rt.forever() {
        let Some((number, deal, strain)) = pool.next(rt) else {
            return;
        };
        let answered = Answered::new(deal, strain, solver, table, pool.budget);
        pool.put(rt, number, answered);
    }
}
