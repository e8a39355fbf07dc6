//! A start of a trick by relative ranks that comes after a trick.
ghost use Rattle.std.specs.Prelude.{◌≡◌};
ghost use Rattle.dd_rank.specs.Strings.{shape_of, strings_of};
ghost use Rattle.dd_relative.specs.Relative.{IsRelative};

use crate::relative_start::RelativeStart;
use dd_cards::Seat;
use dd_rank::{OwnerStrings, Shape};
use std::marker::Model;

/// The start that comes after a trick, with its shape. What a search has to know of it besides is made where it is searched.
#[derive(Drop)]
pub struct ComingStart {
    start: RelativeStart,
    shape: Shape,
    // the seat that won the trick: for the seat that leads in the deal alone
    winner: Seat,
}

impl Model for ComingStart {
    ghost use Rattle.std.specs.Prelude.{◌≡◌};
    ghost use Rattle.dd_play.specs.Board.{Board};
    ghost use Rattle.dd_rank.specs.Strings.{shape_of};
    ghost use Rattle.dd_relative.specs.Relative.{IsRelative};

    ghost Value = { Board };

    ghost view = { λ s. s.start };

    ghost invariant = { λ s. IsRelative s.start × (s.shape ≡ shape_of s.start) };
}

impl ComingStart {
    /// The start after a trick that this seat won, seen from its leader as North. The seat serves the order of leads alone.
    #[inline(always)]
    pub fn new(start: RelativeStart, winner: Seat) -> ComingStart
        ensures same { result ≡ start }
        ensures relative { IsRelative result }
    {
        let shape = Shape::of(start.as_trick_start());
        ComingStart {
            start,
            shape,
            winner,
        }
    }

    /// The start.
    #[inline(always)]
    pub fn start(&self) -> &RelativeStart
        ensures same { result.now ≡ self.now }
        ensures relative { IsRelative self.now }
    {
        &self.start
    }

    /// Its strain and the lengths of its suits.
    #[inline(always)]
    pub fn shape(&self) -> Shape
        ensures { result ≡ shape_of self.now }
    {
        self.shape
    }

    /// Its owner strings.
    #[inline(always)]
    pub fn strings(&self) -> OwnerStrings
        ensures { result ≡ strings_of self.now }
    {
        OwnerStrings::of_closed_up(self.start.as_trick_start(), self.shape)
    }

    /// The seat that leads there in the deal, where this one led there before the trick. It serves the order of leads.
    #[inline(always)]
    pub fn deal_leader(&self, before: Seat) -> Seat {
        before.after(self.winner.code())
    }
}
