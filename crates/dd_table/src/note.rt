//! What a caller has seen of the front.

use crate::entry::FrontEntry;
use once_cell::race::Note;
use std::marker::Model;

/// What a caller has seen of one cell of a front: nothing, or its entry, which stays. It is of use with its own table alone.
#[derive(Drop)]
pub struct FrontNote {
    pub(crate) slot: u16,
    pub(crate) note: Note<FrontEntry>,
}

impl Model for FrontNote {
    ghost use Rattle.std.specs.Prelude.{◌<◌};
    ghost use Rattle.dd_table.specs.Front.{Noted};

    ghost Value = { Noted };

    ghost view = { λ n. record { slot = n.slot; cell = n.note.cell; known = n.note.known } };

    ghost invariant = { λ n. n.slot < 4096 };
}
