ghost use Rattle.std.specs.Prelude.{◌≡◌, ◌*◌, ◌<◌, ◌≤◌, ◌↔◌, IsSome, IfSome};
ghost use Rattle.dd_cards.specs.Suits.{suit_code, suit_shift};

/// A suit (Laws of Duplicate Bridge 2017, Law 1).
#[derive(Clone, Copy, Debug, PartialEq, Eq, Hash)]
pub enum Suit {
    Spades,
    Hearts,
    Diamonds,
    Clubs,
}

impl Suit {
    /// The DDS code of the suit: 0 spades, 1 hearts, 2 diamonds, 3 clubs.
    pub fn code(self) -> u8
        ensures value { result ≡ suit_code self }
        ensures bound { result < 4 }
    {
        match self {
            Suit::Spades => 0,
            Suit::Hearts => 1,
            Suit::Diamonds => 2,
            Suit::Clubs => 3,
        }
    }

    /// The suit of a DDS code, 0 to 3.
    pub fn from_code(code: u8) -> Option<Suit>
        ensures valid { IsSome result ↔ (code < 4) }
        ensures value { IfSome result (λ suit. suit_code suit ≡ code) }
    {
        match code {
            0 => Some(Suit::Spades),
            1 => Some(Suit::Hearts),
            2 => Some(Suit::Diamonds),
            3 => Some(Suit::Clubs),
            _ => None,
        }
    }

    // The suit of a lane of a hand's bits, the spades' being lane 3.
    pub(crate) fn of_lane(lane: u8) -> Suit
        requires { lane < 4 }
        ensures { suit_shift result ≡ 16 * lane }
    {
        match lane {
            0 => Suit::Clubs,
            1 => Suit::Diamonds,
            2 => Suit::Hearts,
            _ => Suit::Spades,
        }
    }

    // The lowest of the suit's sixteen bits in a hand.
    pub(crate) fn shift(self) -> u8
        ensures value { result ≡ suit_shift self }
        ensures bound { result ≤ 48 }
    {
        48 - 16 * self.code()
    }
}
