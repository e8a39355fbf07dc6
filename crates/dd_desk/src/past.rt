//! A journal that proofs alone remember.
ghost use Rattle.std.specs.Prelude.{◌≡◌, List, [], ◌∷◌, ◌++◌};
ghost use Rattle.std.specs.Borrow.{ftrue};
ghost use Rattle.std.specs.Coded.{coded_list};
ghost use Rattle.dd_desk.specs.contracts.event.Event.{the_row};

use crate::event::Event;
use std::marker::Model;

/// The journal as it was at some time. It takes no bytes, and what makes it does nothing.
#[derive(Drop)]
pub struct Past {
    pub ghost events: { List the_row.Denot } by { coded_list the_row.coded },
}

impl Model for Past {
    ghost also_owns = { λ _. ftrue };
}

// It owns nothing.
unsafe impl Send for Past {}

unsafe impl Sync for Past {}

impl Past {
    /// The empty journal.
    pub(crate) fn empty() -> Past
        ensures { result.events ≡ [] }
    {
        Past {}
    }

    /// The journal with one event more.
    pub(crate) fn then(_before: &Past, _event: &Event) -> Past
        ensures { result.events ≡ _before.now.events ++ _event.now ∷ [] }
    {
        Past {}
    }
}
