ghost use Rattle.std.specs.Prelude.{◌≡◌, ◌≢◌, [], MatchOption};
ghost use Rattle.dd_cards.specs.declared.seat.Seat.TheVariants.{North};
ghost use Rattle.dd_cards.specs.Hands.{dealt};
ghost use Rattle.dd_play.specs.Board.{board_of, IsBoard};

use crate::position::Position;
use dd_cards::{Hand, Strain};
use std::marker::Model;

/// A position in which no card has been played to the current trick.
#[derive(Drop)]
pub struct TrickStart {
    position: Position,
}

impl Model for TrickStart {
    ghost use Rattle.std.specs.Prelude.{◌≡◌, []};
    ghost use Rattle.dd_play.specs.Board.{Board, IsBoard};

    ghost Value = { Board };

    ghost view = { λ t. t.position };

    ghost invariant = { λ t. (t.position.trick ≡ []) × IsBoard t.position };
}

impl TrickStart {
    /// The position as a start of a trick, and nothing where a card lies on the trick.
    pub fn of(position: &Position) -> Option<TrickStart>
        ensures { MatchOption result (position.now.trick ≢ [])
            (λ start. (position.now.trick ≡ []) × (start ≡ position.now)) }
    {
        if position.trick().is_empty() {
            Some(TrickStart {
                position: position.copy(),
            })
        } else {
            None
        }
    }

    /// The start of a trick that North leads to, of these hands from North on.
    #[inline(always)]
    pub fn led_by_north(
        north: Hand,
        east: Hand,
        south: Hand,
        west: Hand,
        strain: Strain,
    ) -> TrickStart
        requires { IsBoard (board_of (dealt north east south west) strain North []) }
        ensures { result ≡ board_of (dealt north east south west) strain North [] }
    {
        TrickStart {
            position: Position::led_by_north(north, east, south, west, strain),
        }
    }

    pub fn position(&self) -> &Position
        ensures value { result.now ≡ self.now }
        ensures start { self.now.trick ≡ [] }
        ensures board { IsBoard self.now }
    {
        &self.position
    }

    /// An equal start of a trick.
    pub fn copy(&self) -> TrickStart
        ensures same { result ≡ self.now }
        ensures start { self.now.trick ≡ [] }
        ensures board { IsBoard self.now }
    {
        TrickStart {
            position: self.position.copy(),
        }
    }
}
