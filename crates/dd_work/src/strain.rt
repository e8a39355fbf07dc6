//! A part of a table, and those of its strain that nobody has claimed yet.
ghost use Rattle.dd_work.specs.Rounds.{EndsPart};

use crate::last_part::LastPart;
use crate::outcome::{Searched, search_part};
use crate::stop::HeldPart;
use dd_book::Outcome;
use dd_bounds::Bounds;
use dd_desk::Naming;
use dd_request::TableRequest;
use std::sync::Wait;

/// Below this budget, in positions, nothing is searched ahead: a search ahead that spends it is made a second time, when its
/// part is claimed.
const LEAST_BUDGET_AHEAD: u64 = 1_000_000;

/// What a worker remembers of the tables that it works on. It bears on the time alone.
#[derive(Clone, Copy)]
pub(crate) struct Remembered {
    last: Option<LastPart>,
    // Since the last strain began a part behind its strain's first was not known: the table may keep too little.
    is_lost: bool,
}

impl Remembered {
    /// Nothing yet.
    pub(crate) fn new() -> Remembered {
        Remembered {
            last: None,
            is_lost: false,
        }
    }

    // Is this strain, which begins, to be searched ahead?
    fn is_to_search(&mut self, budget: Option<u64>) -> bool {
        if self.is_lost {
            self.is_lost = false;
            return false;
        }
        match budget {
            Some(limit) => limit >= LEAST_BUDGET_AHEAD,
            None => true,
        }
    }
}

/// The result of this part, as `search_part` finds it. Where the part is its strain's first one, the results of the others are
/// searched too, and left in the table: what the one search learned helps with the others in this worker's cache alone, and
/// claims that go round the owners hand them to other workers.
pub(crate) fn outcome_of_part<J: Naming, B: Bounds, R: Wait>(
    request: &TableRequest,
    job: u64,
    part: u8,
    remembered: &mut Remembered,
    table: &mut B,
    budget: Option<u64>,
    held: HeldPart<'_, J, R>,
) -> Outcome
    ensures { EndsPart budget request.now part result }
{
    let first_guess = LastPart::guess(remembered.last, job, part);
    let Searched {
        outcome,
        was_known,
        held,
    } = search_part(request, part, first_guess, table, budget, held);
    remembered.last = LastPart::of(job, &outcome);
    if part % 4 == 0 {
        if remembered.is_to_search(budget) && held.has_few_jobs() {
            search_ahead(request, job, part, remembered.last, table, budget, held);
        }
    } else if first_guess.is_none() && !was_known {
        remembered.is_lost = true;
    }
    outcome
}

// Searches the three parts behind this one, for what the table learns. It ends where one has no result.
fn search_ahead<J: Naming, B: Bounds, R: Wait>(
    request: &TableRequest,
    job: u64,
    part: u8,
    first: Option<LastPart>,
    table: &mut B,
    budget: Option<u64>,
    held: HeldPart<'_, J, R>,
) {
    let (mut held, mut last) = (held, first);
    for behind in 1..4 {
        if last.is_none() {
            return;
        }
        let next = part.saturating_add(behind);
        let first_guess = LastPart::guess(last, job, next);
        let searched = search_part(request, next, first_guess, table, budget, held);
        last = LastPart::of(job, &searched.outcome);
        held = searched.held;
    }
}
