//! What a pass has seen of its desk.
ghost use Rattle.std.specs.Prelude.{◌≡◌, ◌<◌, IsTrue, length, vec_len, vec_capacity, Some, slice_get};
ghost use Rattle.dd_desk.specs.Looks.{GoesOn};
ghost use Rattle.dd_desk.specs.Receipts.{HasReceipts, pass_of};
ghost use Rattle.dd_desk.specs.Sightings.{WasSeen};

use crate::entry::Entry;
use crate::locked_state::LockedState;
use crate::names::Naming;
use crate::pass::Pass;
use crate::recall::compare;
use crate::receipt_log::ReceiptLog;
use crate::stuck::wait_forever;
use once_cell::race::Note;
use std::marker::{Model, PhantomData};
use std::sync::Wait;

/// What a pass has seen of its desk: the journal as it was with its last event. A look may have it in place of the pass.
#[derive(Drop)]
pub struct Seen<J: Naming> {
    pub(crate) number: u64,
    pub(crate) place: u64,
    pub(crate) mark: Note<Entry>,
    pub(crate) of: PhantomData<J>,
}

impl<J: Naming> Model for Seen<J> {
    ghost use Rattle.std.specs.Prelude.{◌≡◌, slice_index_or, IsSome};
    ghost use Rattle.dd_desk.specs.Entries.{seen_by};
    ghost use Rattle.dd_desk.specs.Looks.{SeenOf};

    ghost Value = { SeenOf };

    ghost view = { λ s. seen_by s.number s.mark.known };

    ghost invariant = { λ s. (s.mark.cell ≡ slice_index_or J.cells s.place 0)
        × IsSome s.mark.known };
}

impl<J: Naming> Seen<J> {
    /// The number of the pass.
    pub(crate) fn number(&self) -> u64
        ensures { result ≡ self.now.number }
    {
        self.number
    }
}

impl<J: Naming> Pass<J> {
    /// What it has seen with its last event.
    pub fn seen(&mut self) -> Seen<J>
        requires { 0 < length self.old.receipts }
        ensures pass { self.new ≡ self.old }
        ensures number { result.number ≡ self.old.number }
        ensures has { HasReceipts result.journal self.old }
    {
        last_seen(&mut self.held.log)
    }
}

// The same of a log.
fn last_seen<J: Naming>(log: &mut ReceiptLog<J>) -> Seen<J>
    requires { 0 < length log.old.receipts.items }
    ensures log { (log.new.number ≡ log.old.number)
        × (log.new.receipts.items ≡ log.old.receipts.items)
        × (vec_len log.new.receipts ≡ vec_len log.old.receipts) }
    ensures number { result.number ≡ log.old.number }
    ensures has { HasReceipts result.journal (pass_of log.old.number log.old.receipts.items) }
{
    let ReceiptLog {
        number,
        receipts,
        marks,
        spare: _,
        made: _,
        next: _,
        places: _,
        of: _,
    } = log;
    let last = receipts.len() - 1;
    Seen {
        number: *number,
        place: receipts[last].place(),
        mark: again_at(marks, last),
        of: PhantomData,
    }
}

// A second note of the cell that this one is of.
fn again_at(marks: &mut Vec<Note<Entry>>, at: usize) -> Note<Entry>
    requires { at < vec_len marks.old }
    ensures marks { (marks.new.items ≡ marks.old.items)
        × (vec_len marks.new ≡ vec_len marks.old)
        × (vec_capacity marks.new ≡ vec_capacity marks.old) }
    ensures again { slice_get marks.old.items at ≡ Some result }
{
    marks[at].again()
}

/// The journal goes on from the one that was seen, or it never returns.
pub(crate) fn follow<J: Naming, R: Wait>(rt: &R, state: &mut LockedState<J>, seen: &mut Seen<J>)
    ensures history { state.new.history ≡ state.old.history }
    ensures seen { seen.new ≡ seen.old }
    ensures goes_on { GoesOn seen.old.journal state.old.history.journal.items }
    ensures was { WasSeen J.limits state.old.history.journal.items }
{
    if !goes_on(state, seen) {
        wait_forever(rt)
    }
}

/// Does the journal go on from the one that was seen? It always does, though the types don't tell.
pub(crate) fn goes_on<J: Naming>(state: &mut LockedState<J>, seen: &mut Seen<J>) -> bool
    ensures history { state.new.history ≡ state.old.history }
    ensures seen { seen.new ≡ seen.old }
    ensures goes_on { IsTrue result → GoesOn seen.old.journal state.old.history.journal.items }
    ensures was { WasSeen J.limits state.old.history.journal.items }
{
    let LockedState {
        history,
        marks,
        past: _,
        given: _,
        count: _,
        sum: _,
        spare_count: _,
        spare_sum: _,
    } = state;
    let place = seen.place as usize;
    if place >= history.len() {
        return false;
    }
    let other = seen.mark.again();
    compare(marks, place, other);
    true
}
