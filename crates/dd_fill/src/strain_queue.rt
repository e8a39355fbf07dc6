//! The strains of deals that were read and whose results were not yet asked for.
ghost use Rattle.std.specs.Prelude.{◌≡◌, ◌+◌, ◌≤◌, ◌++◌, [], ◌∷◌, drop, length, slice_get, slice_set, IfSome, OnErr, OnOk};
ghost use Rattle.dd_file.specs.Deals.{IsThirteen};
ghost use Rattle.dd_fill.specs.declared.strain_queue.TheConstants.{MOST_AHEAD};

use crate::answered::Answered;
use crate::deal::Deal;
use crate::solving::{CLUBS, DIAMONDS, HEARTS, SPADES};
use dd_cards::{Hands, Strain};
use std::alloc::{AllocError, Global};
use std::collections::VecDeque;
use std::mem;

/// The most strains of deals that are held: those of 4,096 deals.
const MOST_AHEAD: usize = 20_480;

/// The strains of a deal.
const STRAINS: u64 = 5;

// A strain of a deal.
#[derive(Drop)]
enum Slot {
    /// No thread has taken it.
    Waits(Deal, Strain),
    /// A thread searches for its results.
    Runs,
    Answered(Answered),
}

/// The strains of the deals that were foreseen, as far as their results were not asked for yet, in order: of those at the front
/// threads have taken some, and the others wait.
#[derive(Drop)]
pub(crate) struct StrainQueue {
    slots: VecDeque<Slot>,
    // The number of the first of these strains, and how many threads have taken.
    first: u64,
    taken: usize,
    closed: bool,
    ghost bounded: { length slots.items ≤ MOST_AHEAD },
}

impl StrainQueue {
    /// No deals.
    pub(crate) fn new(alloc: Global) -> StrainQueue {
        StrainQueue {
            slots: VecDeque::new(alloc),
            first: 0,
            taken: 0,
            closed: false,
        }
    }

    /// The strains of the deal wait, as far as there is room. The results of the others are searched for when they are asked
    /// for.
    pub(crate) fn push(&mut self, deal: &Hands)
        requires { IsThirteen deal.now }
    {
        for strain in [SPADES, HEARTS, DIAMONDS, CLUBS, Strain::Notrump] {
            let _ = self.push_strain(Deal::new(deal), strain);
        }
    }

    /// What stands before the next place of this strain is left out: each deal has five places, by the codes of the strains.
    pub(crate) fn pass_to(&mut self, strain: Strain) {
        for _ in 0..STRAINS {
            if self.first % STRAINS == strain.code() as u64 {
                return;
            }
            let _ = self.pop();
        }
    }

    // The strain waits, behind all others, if there is room.
    fn push_strain(&mut self, deal: Deal, strain: Strain) -> Result<(), AllocError>
        ensures ok { OnOk result (self.new.slots.items
            ≡ self.old.slots.items ++ (Slot.Waits deal strain) ∷ []) }
        ensures err { OnErr result (self.new.slots.items ≡ self.old.slots.items) }
    {
        if self.slots.len() >= MOST_AHEAD {
            return Err(AllocError);
        }
        self.slots.push_back(Slot::Waits(deal, strain))?;
        Ok(())
    }

    /// Does no strain wait for a thread, and may more come?
    pub(crate) fn is_idle(&self) -> bool {
        !self.closed && self.taken >= self.slots.len()
    }

    /// The next strain that waits, with its number, for a thread to search. It waits no more: no other thread takes it.
    pub(crate) fn take(&mut self) -> Option<(u64, Deal, Strain)>
        ensures waited { IfSome result (λ taken. slice_get self.old.slots.items self.old.taken
            ≡ Some (Slot.Waits taken.1 taken.2)) }
        ensures runs { IfSome result (λ _. self.new.slots.items
            ≡ slice_set self.old.slots.items self.old.taken Slot.Runs) }
        ensures next { IfSome result (λ _. self.new.taken ≡ self.old.taken + 1) }
    {
        if self.closed {
            return None;
        }
        let number = self.first.wrapping_add(self.taken as u64);
        let slot = self.slots.get_mut(self.taken)?;
        let Slot::Waits(deal, strain) = mem::replace(slot, Slot::Runs) else {
            return None;
        };
        self.taken += 1;
        Some((number, deal, strain))
    }

    /// The strain of this number has its results. Is it the first?
    pub(crate) fn put(&mut self, number: u64, answered: Answered) -> bool {
        let place = number.wrapping_sub(self.first) as usize;
        if let Some(slot) = self.slots.get_mut(place) {
            *slot = Slot::Answered(answered);
        }
        place == 0
    }

    /// Does a thread search for the results of the first strain?
    pub(crate) fn is_first_running(&self) -> bool {
        matches!(self.slots.front(), Some(Slot::Runs))
    }

    /// The results of the first strain are asked for: what a thread has found, if one has.
    pub(crate) fn pop(&mut self) -> Option<Answered>
        ensures first { IfSome result (λ answered. slice_get self.old.slots.items 0
            ≡ Some (Slot.Answered answered)) }
        ensures rest { self.new.slots.items ≡ drop 1 self.old.slots.items }
    {
        let slot = self.slots.pop_front()?;
        self.first = self.first.wrapping_add(1);
        self.taken = self.taken.saturating_sub(1);
        match slot {
            Slot::Answered(answered) => Some(answered),
            _ => None,
        }
    }

    /// No more results are searched for ahead.
    pub(crate) fn close(&mut self) {
        self.closed = true;
    }
}
