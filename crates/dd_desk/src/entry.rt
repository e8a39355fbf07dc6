//! What the cell of a place has.
ghost use Rattle.std.specs.Prelude.{◌≡◌, [], ◌∷◌, ◌++◌};
ghost use Rattle.dd_desk.specs.Events.{event};

use crate::event::Event;
use crate::past::Past;
use crate::stuck::wait_forever;
use dd_book::{Call, Reply};
use std::alloc::{AllocError, Global};
use std::sync::Wait;

/// An event, and the journal that ends with it: so two notes of one cell that know the event know all that came before it too.
#[derive(Drop)]
pub struct Entry {
    pub(crate) event: Event,
    pub(crate) upto: Past,
}

/// Room for an event.
pub(crate) fn blank(alloc: Global) -> Result<Box<Entry>, AllocError> {
    let event = Event::blank(alloc)?;
    let made = Box::new(
        alloc,
        Entry {
            event,
            upto: Past::empty(),
        },
    )?;
    Ok(made)
}

/// The blank as the event of this call with this reply. It never returns where the blank is shared.
pub(crate) fn filled<R: Wait>(
    rt: &R,
    mut blank: Box<Entry>,
    caller: u64,
    call: Call,
    reply: Reply,
) -> Box<Entry>
    ensures { result.value.event ≡ event caller call reply }
{
    if !blank.event.fill(caller, call, reply) {
        wait_forever(rt)
    }
    blank
}

/// The event as the next of this journal.
pub(crate) fn joined(mut made: Box<Entry>, past: &mut Past) -> Box<Entry>
    ensures event { result.value.event ≡ made.value.event }
    ensures upto { result.value.upto.events ≡ past.new.events }
    ensures past { past.new.events ≡ past.old.events ++ made.value.event ∷ [] }
{
    made.upto = Past::then(past, &made.event);
    *past = Past::then(past, &made.event);
    made
}
