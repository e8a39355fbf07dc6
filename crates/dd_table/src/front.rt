//! The front of a table: exact values that are read and set without waiting.
ghost use Rattle.std.specs.Prelude.{◌≡◌, ◌<◌, Some, IfSome, IfNone, IfOk, OnErr, MatchOption, true};
ghost use Rattle.std.specs.declared.option.Option.TheVariants.{None};
ghost use Rattle.dd_play.specs.Board.{Board};
ghost use Rattle.dd_play.specs.Value.{leaders_tricks};
ghost use Rattle.dd_rank.specs.Alike.{AreAlike};
ghost use Rattle.dd_rank.specs.Strings.{strings_of};
ghost use Rattle.dd_table.specs.Front.{Exact, Gets, IsNoteOf};
ghost use Rattle.dd_table.specs.Places.{slot_of};

use crate::entry::FrontEntry;
use crate::note::FrontNote;
use crate::shared_table::{FRONT_CELLS, SharedTable};
use dd_play::TrickStart;
use dd_rank::OwnerStrings;
use std::alloc::AllocError;

/// The slot of a position, 0 to 4,095: one for all positions that are alike.
pub fn front_slot(start: &TrickStart) -> u16
    ensures slot { result ≡ slot_of start.now }
    ensures bound { result < FRONT_CELLS }
{
    slot_by(&OwnerStrings::of(start))
}

// The slot of a position with these strings.
#[tactic(auto, unfolding(crate::specs::Places::slot_of))]
pub(crate) fn slot_by(strings: &OwnerStrings) -> u16
    ensures slot { (p : Board) → strings.now ≡ strings_of p → result ≡ slot_of p }
    ensures bound { result < FRONT_CELLS }
{
    ((strings.hash_code() >> 32) % FRONT_CELLS as u64) as u16
}

// None of these calls takes a lock: a cell is read and set by one atomic step.
impl SharedTable {
    /// A note of the cell of this slot, which knows nothing.
    pub fn front_note(&self, slot: u16) -> FrontNote
        requires { slot < FRONT_CELLS }
        ensures table { IsNoteOf self.now result }
        ensures slot { result.slot ≡ slot }
        ensures new { result.known ≡ None }
    {
        FrontNote {
            slot,
            note: self.front[slot as usize].note(),
        }
    }

    /// The entry that the cell of the note holds, and nothing where it is empty. The note knows it from then on, and is
    /// answered it each time.
    pub fn front_held<'a>(&'a self, note: &mut FrontNote) -> Option<&'a FrontEntry>
        requires { IsNoteOf self.now note.old }
        ensures table { IsNoteOf self.now note.new }
        ensures slot { note.new.slot ≡ note.old.slot }
        ensures some { IfSome result (λ entry. note.new.known ≡ Some entry.now) }
        ensures none { IfNone result (note.new.known ≡ None) }
        ensures same { IfSome note.old.known (λ e. note.new.known ≡ Some e) }
        ensures answers { IfSome note.old.known
            (λ e. MatchOption result ⊥ (λ entry. entry.now ≡ e)) }
    {
        let FrontNote { slot, note } = note;
        self.front[*slot as usize].get_as(note)
    }

    /// The value of a position, where the cell of the note holds that of an alike one. The note knows what the cell holds
    /// from then on, and is answered it each time.
    pub fn front_get(&self, note: &mut FrontNote, start: &TrickStart) -> Option<u8>
        requires { IsNoteOf self.now note.old }
        ensures table { IsNoteOf self.now note.new }
        ensures slot { note.new.slot ≡ note.old.slot }
        ensures value { IfSome result (λ value. value ≡ leaders_tricks start.now) }
        ensures gets { Gets start.now result note.new.known }
        ensures none { IfNone result (IfSome note.new.known (λ e. ¬ AreAlike e.board start.now)) }
        ensures same { IfSome note.old.known (λ e. note.new.known ≡ Some e) }
        ensures answers { IfSome note.old.known
            (λ e. AreAlike e.board start.now → result ≡ Some e.value) }
    {
        self.front_held(note)?.value_of(start)
    }

    /// Offers the value of a position to its cell, which takes it if it is empty, and tells whether it did: a cell once set
    /// stays as it is. The error says that memory ran out.
    pub fn front_offer(
        &self,
        note: &mut FrontNote,
        start: &TrickStart,
        value: u8,
    ) -> Result<bool, AllocError>
        requires table { IsNoteOf self.now note.old }
        requires slot { note.old.slot ≡ slot_of start.now }
        requires value { value ≡ leaders_tricks start.now }
        ensures table { IsNoteOf self.now note.new }
        ensures slot { note.new.slot ≡ note.old.slot }
        ensures taken { IfOk result (λ taken. taken ≡ true
            → (note.old.known ≡ None) × (note.new.known
            ≡ Some (record { board = start.now; value = value }))) }
        ensures some { IfOk result (λ taken. (e : Exact) × (note.new.known ≡ Some e)) }
        ensures same { IfSome note.old.known (λ e. note.new.known ≡ Some e) }
        ensures err { OnErr result (note.new ≡ note.old) }
    {
        self.offer_by(note, start, &OwnerStrings::of(start), value)
    }

    // The same, where the strings of the position are known.
    pub(crate) fn offer_by(
        &self,
        note: &mut FrontNote,
        start: &TrickStart,
        strings: &OwnerStrings,
        value: u8,
    ) -> Result<bool, AllocError>
        requires strings { strings.now ≡ strings_of start.now }
        requires table { IsNoteOf self.now note.old }
        requires slot { note.old.slot ≡ slot_of start.now }
        requires value { value ≡ leaders_tricks start.now }
        ensures table { IsNoteOf self.now note.new }
        ensures slot { note.new.slot ≡ note.old.slot }
        ensures taken { IfOk result (λ taken. taken ≡ true
            → (note.old.known ≡ None) × (note.new.known
            ≡ Some (record { board = start.now; value = value }))) }
        ensures some { IfOk result (λ taken. (e : Exact) × (note.new.known ≡ Some e)) }
        ensures same { IfSome note.old.known (λ e. note.new.known ≡ Some e) }
        ensures err { OnErr result (note.new ≡ note.old) }
    {
        let entry = Box::new(self.alloc, FrontEntry::new(start, strings, value))?;
        let FrontNote { slot, note } = note;
        Ok(self.front[*slot as usize].set_as(entry, note).is_ok())
    }
}
