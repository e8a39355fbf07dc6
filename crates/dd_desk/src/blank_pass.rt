//! A pass before it is given.
ghost use Rattle.std.specs.Prelude.{◌≡◌, ◌≤◌, [], vec_len, vec_capacity};

use crate::entry::{Entry, blank};
use crate::event::Receipt;
use once_cell::race::Note;
use std::alloc::{AllocError, Global};

/// What a pass needs, and a shut by it. It has no number yet, and is none of the passes that were given.
#[derive(Drop)]
pub struct BlankPass {
    pub(crate) receipts: Vec<Receipt>,
    pub(crate) marks: Vec<Note<Entry>>,
    pub(crate) spare: Box<Entry>,
    pub ghost empty: { (receipts.items ≡ []) × (vec_len receipts ≡ 0)
        × (marks.items ≡ []) × (vec_len marks ≡ 0) },
    pub ghost room: { (1 ≤ vec_capacity receipts) × (1 ≤ vec_capacity marks) },
}

impl BlankPass {
    /// Such a pass. It asks no desk.
    pub fn new(alloc: Global) -> Result<BlankPass, AllocError> {
        Ok(BlankPass {
            receipts: Vec::with_capacity(alloc, 1)?,
            marks: Vec::with_capacity(alloc, 1)?,
            spare: blank(alloc)?,
        })
    }
}
