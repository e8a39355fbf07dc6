//! The journal has what a pass was told.
ghost use Rattle.std.specs.Prelude.{◌≡◌, ◌<◌, map, vec_len, vec_capacity, Some, slice_get, slice_index_or};
ghost use Rattle.dd_desk.specs.declared.entry.Entry.{Entry as Known};
ghost use Rattle.dd_desk.specs.Receipts.{HasReceipts, pass_of};
ghost use Rattle.dd_desk.specs.Sightings.{WasSeen};

use crate::entry::Entry;
use crate::locked_state::LockedState;
use crate::names::Naming;
use crate::receipt_log::ReceiptLog;
use crate::stuck::wait_forever;
use once_cell::race::Note;
use std::sync::Wait;

/// Two marks of one cell know the same event, and the same journal up to it.
pub(crate) fn agree(
    kept: &mut Vec<Note<Entry>>,
    place: usize,
    marks: &mut Vec<Note<Entry>>,
    at: usize,
)
    requires within { (place < vec_len kept.old) × (at < vec_len marks.old) }
    requires cells { slice_index_or (map (λ n. n.cell) kept.old.items) place 0
        ≡ slice_index_or (map (λ n. n.cell) marks.old.items) at 0 }
    ensures kept { (kept.new.items ≡ kept.old.items) × (vec_len kept.new ≡ vec_len kept.old)
        × (vec_capacity kept.new ≡ vec_capacity kept.old) }
    ensures marks { (marks.new.items ≡ marks.old.items)
        × (vec_len marks.new ≡ vec_len marks.old)
        × (vec_capacity marks.new ≡ vec_capacity marks.old) }
    ensures entries { (x y : Known)
        → slice_get (map (λ n. n.known) kept.old.items) place ≡ Some (Some x)
        → slice_get (map (λ n. n.known) marks.old.items) at ≡ Some (Some y) → x ≡ y }
{
    let other = marks[at].again();
    compare(kept, place, other);
}

/// The same of a mark by itself.
pub(crate) fn compare(kept: &mut Vec<Note<Entry>>, place: usize, other: Note<Entry>)
    requires within { place < vec_len kept.old }
    requires cell { slice_index_or (map (λ n. n.cell) kept.old.items) place 0 ≡ other.cell }
    ensures kept { (kept.new.items ≡ kept.old.items) × (vec_len kept.new ≡ vec_len kept.old)
        × (vec_capacity kept.new ≡ vec_capacity kept.old) }
    ensures entries { (x y : Known)
        → slice_get (map (λ n. n.known) kept.old.items) place ≡ Some (Some x)
        → other.known ≡ Some y → x ≡ y }
{
    kept[place].compare(other);
}

/// All receipts of the log stand in the journal, or it never returns. It only compares the marks of the last one's place: what
/// these know reaches back to the first.
pub(crate) fn recall<J: Naming, R: Wait>(
    rt: &R,
    state: &mut LockedState<J>,
    log: &mut ReceiptLog<J>,
)
    ensures history { state.new.history ≡ state.old.history }
    ensures number { log.new.number ≡ log.old.number }
    ensures receipts { (log.new.receipts.items ≡ log.old.receipts.items)
        × (vec_len log.new.receipts ≡ vec_len log.old.receipts) }
    ensures has { HasReceipts state.old.history.journal.items
        (pass_of log.old.number log.old.receipts.items) }
    ensures was { WasSeen J.limits state.old.history.journal.items }
{
    let LockedState {
        history,
        marks: kept,
        past: _,
        given: _,
        count: _,
        sum: _,
        spare_count: _,
        spare_sum: _,
    } = state;
    let ReceiptLog {
        number: _,
        receipts,
        marks,
        spare: _,
        made: _,
        next: _,
        places: _,
        of: _,
    } = log;
    let count = receipts.len();
    if count == 0 {
        return;
    }
    let place = receipts[count - 1].place() as usize;
    if place >= history.len() {
        wait_forever(rt)
    }
    agree(kept, place, marks, count - 1);
}
