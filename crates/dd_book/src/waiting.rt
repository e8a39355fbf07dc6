//! The places that wait, by their owners.
ghost use Rattle.std.specs.Prelude.{◌≡◌, true, false, OnOk, OnErr};
ghost use Rattle.std.specs.BTreeSet.{IsUnchanged};
ghost use Rattle.dd_book.specs.Waiting.{IsFirstPlace, IsNextPlace, SetsOnly, has_place};

use std::alloc::AllocError;
use std::collections::BTreeSet;

/// Owners with the places that wait.
pub(crate) type Waiting = BTreeSet<(u64, usize)>;

/// The first place of this owner that waits.
pub(crate) fn first_of(waiting: &Waiting, owner: u64) -> Option<usize>
    ensures { IsFirstPlace waiting.now owner result }
{
    next_of(waiting, owner, 0)
}

/// The first place of this owner that waits, from this one on.
pub(crate) fn next_of(waiting: &Waiting, owner: u64, from: usize) -> Option<usize>
    ensures { IsNextPlace waiting.now owner from result }
{
    match waiting.range((owner, from)..).next() {
        Some((whose, place)) if *whose == owner => Some(*place),
        _ => None,
    }
}

/// A place of this owner waits. Where memory runs out nothing changes.
pub(crate) fn put(waiting: &mut Waiting, owner: u64, place: usize) -> Result<(), AllocError>
    ensures ok { OnOk result (SetsOnly waiting.old waiting.new owner place true) }
    ensures err { OnErr result (IsUnchanged waiting.old waiting.new) }
{
    waiting.insert((owner, place))?;
    Ok(())
}

/// A place of this owner does not wait. It takes no memory.
pub(crate) fn take(waiting: &mut Waiting, owner: u64, place: usize)
    ensures { SetsOnly waiting.old waiting.new owner place false }
{
    waiting.remove(&(owner, place));
}

/// A place of this owner that waits does so still, or not any more. It takes no memory.
pub(crate) fn keep(waiting: &mut Waiting, owner: u64, place: usize, waits: bool)
    requires { has_place waiting.old owner place ≡ true }
    ensures { SetsOnly waiting.old waiting.new owner place waits }
{
    if !waits {
        take(waiting, owner, place);
    }
}
