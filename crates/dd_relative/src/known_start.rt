//! A start of a trick by relative ranks that is searched.
ghost use Rattle.std.specs.Prelude.{◌≡◌, ◌≤◌};
ghost use Rattle.dd_cards.specs.Seats.{seat_after};
ghost use Rattle.dd_cards.specs.declared.seat.Seat.TheVariants.{North};
ghost use Rattle.dd_play.specs.Board.{cards_at};
ghost use Rattle.dd_rank.specs.Strings.{strings_of};
ghost use Rattle.dd_relative.specs.Relative.{IsRelative};

use crate::relative_start::RelativeStart;
use dd_cards::{Hand, Seat, Strain};
use dd_rank::OwnerStrings;
use std::marker::Model;

/// A start that is searched: its owner strings are known, and the seat that leads there in the deal.
#[derive(Drop)]
pub struct KnownStart {
    start: RelativeStart,
    strings: OwnerStrings,
    deal_leader: Seat,
}

impl Model for KnownStart {
    ghost use Rattle.std.specs.Prelude.{◌≡◌};
    ghost use Rattle.dd_play.specs.Board.{Board};
    ghost use Rattle.dd_rank.specs.Strings.{strings_of};
    ghost use Rattle.dd_relative.specs.Relative.{IsRelative};

    ghost Value = { Board };

    ghost view = { λ k. k.start };

    ghost invariant = { λ k. IsRelative k.start × (k.strings ≡ strings_of k.start) };
}

impl KnownStart {
    /// A start with its owner strings, to which this seat leads in the deal. The seat serves the order of leads alone.
    #[inline(always)]
    pub fn new(start: &RelativeStart, strings: &OwnerStrings, deal_leader: Seat) -> KnownStart
        requires { strings.now ≡ strings_of start.now }
        ensures { result ≡ start.now }
    {
        KnownStart {
            start: start.copy(),
            strings: strings.copy(),
            deal_leader,
        }
    }

    /// The start.
    #[inline(always)]
    pub fn start(&self) -> &RelativeStart
        ensures same { result.now ≡ self.now }
        ensures relative { IsRelative self.now }
    {
        &self.start
    }

    /// Its owner strings.
    #[inline(always)]
    pub fn strings(&self) -> &OwnerStrings
        ensures { result.now ≡ strings_of self.now }
    {
        &self.strings
    }

    /// The seat that leads in the deal. It serves the order of leads.
    #[inline(always)]
    pub fn deal_leader(&self) -> Seat {
        self.deal_leader
    }

    // The cards of the hand so many places after the leader's.
    #[inline(always)]
    pub(crate) fn hand(&self, places: u8) -> Hand
        requires { places ≤ 3 }
        ensures cards { result ≡ cards_at self.now (seat_after North places) }
        ensures relative { IsRelative self.now }
    {
        if places == 0 {
            self.start.leader()
        } else if places == 1 {
            self.start.second()
        } else if places == 2 {
            self.start.third()
        } else {
            self.start.fourth()
        }
    }

    // The strain.
    #[inline(always)]
    pub(crate) fn strain(&self) -> Strain
        ensures strain { result ≡ self.now.strain }
        ensures relative { IsRelative self.now }
    {
        self.start.strain()
    }
}
