//! A value of a game, with what it has from the games before.

/// What is kept from game to game.
pub(crate) trait Value: Drop {
    /// An equal value.
    fn copy(&self) -> Self;
}

/// How a tag tells its value.
#[derive(Clone, Copy, Debug, PartialEq, Eq)]
pub(crate) enum Told {
    /// `#`: it is that of the game before.
    AsBefore,
    /// Behind `##`: it also holds for each later game that lacks the tag.
    FromHere,
    /// It stands there.
    Here,
}

/// The value of this game, as far as a tag told it; that of the game before; and that of games which lack the tag.
#[derive(Drop)]
pub(crate) struct Kept<T> {
    pub(crate) own: Option<T>,
    pub(crate) before: T,
    pub(crate) lacking: T,
}

impl<T: Value> Kept<T> {
    /// A tag tells this value.
    pub(crate) fn tell(&mut self, told: Told, value: T) {
        match told {
            Told::AsBefore => self.own = Some(self.before.copy()),
            Told::FromHere => {
                self.lacking = value.copy();
                self.own = Some(value);
            }
            Told::Here => self.own = Some(value),
        }
    }

    /// The value of this game.
    pub(crate) fn value(&self) -> T {
        match &self.own {
            Some(value) => value.copy(),
            None => self.lacking.copy(),
        }
    }

    /// The game is over.
    pub(crate) fn end_game(&mut self) {
        let value = self.value();
        self.before = value;
        self.own = None;
    }
}
