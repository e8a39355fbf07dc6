//! Whose turn it is in a trick.
ghost use Rattle.std.specs.Prelude.{◌≡◌, length};
ghost use Rattle.dd_order.specs.Turns.{cards_before};

use dd_play::Position;

/// The hand that is to play to a trick: it finds no card there, or one, two or three.
#[derive(Clone, Copy, Debug, PartialEq, Eq)]
pub enum Turn {
    First,
    Second,
    Third,
    Fourth,
}

impl Turn {
    /// Whose turn it is in this position.
    #[inline]
    pub fn of(position: &Position) -> Turn
        ensures { length position.now.trick ≡ cards_before result }
    {
        match position.trick() {
            [] => Turn::First,
            [_] => Turn::Second,
            [_, _] => Turn::Third,
            _ => Turn::Fourth,
        }
    }

    /// How many cards lie on the trick then: 0 to 3.
    #[inline(always)]
    pub fn cards_before(self) -> u8
        ensures { result ≡ cards_before self }
    {
        match self {
            Turn::First => 0,
            Turn::Second => 1,
            Turn::Third => 2,
            Turn::Fourth => 3,
        }
    }
}
