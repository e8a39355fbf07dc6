//! The receipts of one caller.
ghost use Rattle.std.specs.Prelude.{◌≡◌, ◌<◌, ◌≤◌, ◌+◌, [], map, true, false, vec_len, vec_capacity, Some, slice_index_or, IsOk, OnOk, OnErr};
ghost use Rattle.dd_desk.specs.Receipts.{has_shut, pass_of, told_by, rises, next_of};
ghost use Rattle.dd_desk.specs.Entries.{LastHas, event_in, journal_in};
ghost use Rattle.dd_desk.specs.Ready.{IsReady};
ghost use Rattle.dd_desk.specs.Closing.{sum_of_places};

use crate::blank_pass::BlankPass;
use crate::entry::{Entry, blank};
use crate::event::Receipt;
use crate::names::{Naming, PlaceSums, ReceiptCounts};
use once_cell::race::Note;
use std::alloc::{AllocError, Global};
use std::marker::PhantomData;
use std::sync::ledger::Share;

/// The receipts of one caller, with a note of the cell of each one's place, which knows the event. That of the last one knows
/// a journal in which all of them stand.
#[derive(Drop)]
pub(crate) struct ReceiptLog<J: Naming> {
    pub(crate) number: u64,
    pub(crate) receipts: Vec<Receipt>,
    pub(crate) marks: Vec<Note<Entry>>,
    // Room for the event of a shut.
    pub(crate) spare: Option<Box<Entry>>,
    // Room for the event of the next call, which was made before the lock was asked for.
    pub(crate) made: Option<Box<Entry>>,
    // The place after the last one, and the sum of the places.
    pub(crate) next: u64,
    pub(crate) places: u64,
    pub(crate) of: PhantomData<J>,
    pub ghost marked: { map (λ n. n.cell) marks.items
        ≡ map (λ r. slice_index_or J.cells r.place 0) receipts.items },
    pub ghost knows: { map (λ n. event_in n.known) marks.items
        ≡ map (λ r. Some (told_by number r)) receipts.items },
    pub ghost last: { LastHas (map (λ n. journal_in n.known) marks.items)
        (pass_of number receipts.items) },
    pub ghost rising: { rises 0 receipts.items ≡ true },
    pub ghost next_is: { next ≡ next_of 0 receipts.items },
    pub ghost places_is: { places ≡ sum_of_places receipts.items },
    pub ghost ready: { has_shut receipts.items ≡ false
        → IsReady (vec_len receipts) (vec_capacity receipts) (vec_len marks) (vec_capacity marks) spare },
}

impl<J: Naming> ReceiptLog<J> {
    /// No receipt yet, and what a shut needs.
    pub(crate) fn new(blank: BlankPass, number: u64) -> ReceiptLog<J>
        ensures number { result.number ≡ number }
        ensures receipts { (result.receipts.items ≡ []) × (vec_len result.receipts ≡ 0) }
    {
        let BlankPass {
            receipts,
            marks,
            spare,
        } = blank;
        ReceiptLog {
            number,
            receipts,
            marks,
            spare: Some(spare),
            made: None,
            next: 0,
            places: 0,
            of: PhantomData,
        }
    }
}

/// Room for an event, and in the log of a caller for its receipt and its mark. What was made before is taken first. A shut may take
/// what is kept for one, any other call leaves it.
pub(crate) fn room_for(
    alloc: Global,
    receipts: &mut Vec<Receipt>,
    marks: &mut Vec<Note<Entry>>,
    spare: &mut Option<Box<Entry>>,
    made: &mut Option<Box<Entry>>,
    shuts: bool,
) -> Result<Box<Entry>, AllocError>
    ensures receipts { (receipts.new.items ≡ receipts.old.items)
        × (vec_len receipts.new ≡ vec_len receipts.old)
        × (vec_capacity receipts.old ≤ vec_capacity receipts.new) }
    ensures marks { (marks.new.items ≡ marks.old.items) × (vec_len marks.new ≡ vec_len marks.old)
        × (vec_capacity marks.old ≤ vec_capacity marks.new) }
    ensures room { OnOk result ((vec_len receipts.new < vec_capacity receipts.new)
        × (vec_len marks.new < vec_capacity marks.new)) }
    ensures more { shuts ≡ false → OnOk result
        ((vec_len receipts.new + 1 < vec_capacity receipts.new)
        × (vec_len marks.new + 1 < vec_capacity marks.new)) }
    ensures spare { shuts ≡ false → spare.new ≡ spare.old }
    ensures kept { OnErr result (spare.new ≡ spare.old) }
    ensures ready { shuts ≡ true → IsReady (vec_len receipts.old) (vec_capacity receipts.old)
        (vec_len marks.old) (vec_capacity marks.old) spare.old → IsOk result }
{
    let more = if shuts { 1 } else { 2 };
    receipts.reserve(more)?;
    marks.reserve(more)?;
    if let Some(made) = made.take() {
        return Ok(made);
    }
    if shuts {
        if let Some(kept) = spare.take() {
            return Ok(kept);
        }
    }
    blank(alloc)
}

impl<J: Naming> ReceiptLog<J> {
    /// Makes what the next call needs, as far as there is memory: under the lock that would hold up others.
    pub(crate) fn make_ready(&mut self, alloc: Global)
        ensures number { self.new.number ≡ self.old.number }
        ensures receipts { (self.new.receipts.items ≡ self.old.receipts.items)
            × (vec_len self.new.receipts ≡ vec_len self.old.receipts) }
    {
        if self.made.is_none() {
            self.made = blank(alloc).ok();
        }
        let _ = self.receipts.reserve(2);
        let _ = self.marks.reserve(2);
    }
}

/// A log, with one part of each ledger: its receipts are counted, and their places added up.
#[derive(Drop)]
pub(crate) struct CountedLog<J: Naming> {
    pub(crate) log: ReceiptLog<J>,
    pub(crate) count: Share<ReceiptCounts<J>>,
    pub(crate) sum: Share<PlaceSums<J>>,
    pub ghost parts: { (count.parts ≡ 1) × (sum.parts ≡ 1) },
    pub ghost amounts: { (count.amount ≡ vec_len log.receipts)
        × (sum.amount ≡ sum_of_places log.receipts.items) },
}

impl<J: Naming> CountedLog<J> {
    /// The same of its log.
    pub(crate) fn make_ready(&mut self, alloc: Global)
        ensures number { self.new.log.number ≡ self.old.log.number }
        ensures receipts { self.new.log.receipts.items ≡ self.old.log.receipts.items }
    {
        self.log.make_ready(alloc)
    }
}
