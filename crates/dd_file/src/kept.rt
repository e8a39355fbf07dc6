//! A value of a game, with what it has from the games before.
ghost use Rattle.std.specs.Prelude.{◌≡◌};
ghost use Rattle.dd_file.specs.Kepts.{after_game, value_of, with_value};

/// What is kept from game to game.
pub(crate) trait Value: Drop {
    /// An equal value.
    fn copy(&self) -> Self
        ensures { result ≡ self.now };
}

/// How a tag tells its value.
#[derive(Clone, Copy, Debug, PartialEq, Eq)]
pub(crate) enum Told {
    /// `#`: it is that of the game before.
    AsBefore,
    /// Behind `##`: it also holds for each later game that lacks the tag.
    FromHere,
    /// It stands there.
    Here,
}

/// The value of this game, as far as a tag told it; that of the game before; and that of games which lack the tag.
#[derive(Drop)]
pub(crate) struct Kept<T> {
    pub(crate) own: Option<T>,
    pub(crate) before: T,
    pub(crate) lacking: T,
}

impl<T: Value> Kept<T> {
    /// A tag tells this value.
    pub(crate) fn tell(&mut self, told: Told, value: T)
        ensures { self.new ≡ with_value told value self.old }
    {
        match told {
            Told::AsBefore => self.own = Some(self.before.copy()),
            Told::FromHere => {
                self.lacking = value.copy();
                self.own = Some(value);
            }
            Told::Here => self.own = Some(value),
        }
    }

    /// The value of this game.
    pub(crate) fn value(&self) -> T
        ensures { result ≡ value_of self.now }
    {
        match &self.own {
            Some(value) => value.copy(),
            None => self.lacking.copy(),
        }
    }

    /// An equal one.
    pub(crate) fn copy(&self) -> Kept<T> {
        Kept {
            own: match &self.own {
                Some(value) => Some(value.copy()),
                None => None,
            },
            before: self.before.copy(),
            lacking: self.lacking.copy(),
        }
    }

    /// The game is over.
    pub(crate) fn end_game(&mut self)
        ensures { self.new ≡ after_game self.old }
    {
        let value = self.value();
        self.before = value;
        self.own = None;
    }
}
