ghost use Rattle.std.specs.Prelude.{◌≡◌, ◌<◌, ◌↔◌, IsSome, IfSome};
ghost use Rattle.dd_cards.specs.Seats.{seat_code, next_seat, seat_after, is_north_south};
ghost use Rattle.dd_cards.specs.Sides.{side_of};

use crate::side::Side;

/// A hand's place at the table. The four stand clockwise in this order.
#[derive(Clone, Copy, Debug, PartialEq, Eq, Hash)]
pub enum Seat {
    North,
    East,
    South,
    West,
}

impl Seat {
    /// The DDS code of the hand: 0 North, 1 East, 2 South, 3 West.
    pub fn code(self) -> u8
        ensures value { result ≡ seat_code self }
        ensures bound { result < 4 }
    {
        match self {
            Seat::North => 0,
            Seat::East => 1,
            Seat::South => 2,
            Seat::West => 3,
        }
    }

    /// The seat of a DDS code, 0 to 3.
    pub fn from_code(code: u8) -> Option<Seat>
        ensures valid { IsSome result ↔ (code < 4) }
        ensures value { IfSome result (λ seat. seat_code seat ≡ code) }
    {
        match code {
            0 => Some(Seat::North),
            1 => Some(Seat::East),
            2 => Some(Seat::South),
            3 => Some(Seat::West),
            _ => None,
        }
    }

    /// The next seat clockwise, whose turn it is next (Laws of Duplicate Bridge 2017, Law 44B).
    #[inline]
    pub fn next(self) -> Seat
        ensures { result ≡ next_seat self }
    {
        self.after(1)
    }

    /// The seat that comes so many places after it, clockwise.
    // By its code: by cases it would be a jump that is seldom foreseen.
    #[inline(always)]
    pub fn after(self, places: u8) -> Seat
        requires { places < 4 }
        ensures { result ≡ seat_after self places }
    {
        Seat::at((self.code() + places) % 4)
    }

    // The seat of a code.
    #[inline(always)]
    fn at(code: u8) -> Seat
        requires { code < 4 }
        ensures { seat_code result ≡ code }
    {
        match code {
            0 => Seat::North,
            1 => Seat::East,
            2 => Seat::South,
            _ => Seat::West,
        }
    }

    /// The left-hand opponent, who sits next clockwise.
    #[inline]
    pub fn left(self) -> Seat
        ensures { result ≡ seat_after self 1 }
    {
        self.next()
    }

    /// The partner, who sits opposite.
    #[inline]
    pub fn partner(self) -> Seat
        ensures { result ≡ seat_after self 2 }
    {
        self.after(2)
    }

    /// The right-hand opponent.
    #[inline]
    pub fn right(self) -> Seat
        ensures { result ≡ seat_after self 3 }
    {
        self.after(3)
    }

    /// The side that the seat plays for.
    pub fn side(self) -> Side
        ensures { result ≡ side_of self }
    {
        match self {
            Seat::North | Seat::South => Side::NorthSouth,
            Seat::East | Seat::West => Side::EastWest,
        }
    }

    /// Is it North or South?
    pub fn is_north_south(self) -> bool
        ensures { result ≡ is_north_south self }
    {
        match self {
            Seat::North | Seat::South => true,
            Seat::East | Seat::West => false,
        }
    }
}
