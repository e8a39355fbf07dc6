ghost use Rattle.std.specs.Prelude.{◌≡◌, ◌∷◌, [], ◌≤◌};
ghost use Rattle.dd_cards.specs.Seats.{seat_after};
ghost use Rattle.dd_score.specs.Orders.{asked};
ghost use Rattle.dd_score.specs.ParContracts.{place_in};

use dd_cards::{Seat, Side};

/// Who calls first: a dealer; or a side, either of whose seats may (DDS: DealerPar and SidesPar).
#[derive(Clone, Copy, Debug, PartialEq, Eq)]
pub enum Order {
    Dealer(Seat),
    First(Side),
}

// The four seats, who is asked first standing first.
#[derive(Clone, Copy)]
pub(crate) struct Asked {
    pub first: Seat,
    pub second: Seat,
    pub third: Seat,
    pub fourth: Seat,
}

impl Order {
    // Who is asked before whom.
    pub(crate) fn asked(self) -> Asked
        ensures { asked self ≡ result.first ∷ result.second ∷ result.third ∷ result.fourth ∷ [] }
    {
        match self {
            Order::Dealer(dealer) => in_turn(
                dealer,
                dealer.left(),
                dealer.partner(),
                dealer.right(),
            ),
            Order::First(Side::NorthSouth) => partners_first(Seat::North),
            Order::First(Side::EastWest) => partners_first(Seat::East),
        }
    }

    // How many are asked before this seat; the seats of one side, where it is asked first, have one place.
    pub(crate) fn place(self, seat: Seat) -> u8
        ensures value { result ≡ place_in self seat }
        ensures bound { result ≤ 3 }
    {
        match self {
            Order::Dealer(dealer) => (seat.code() + 4 - dealer.code()) % 4,
            Order::First(side) => { if seat.side() == side { 0 } else { 1 } }
        }
    }
}

// A seat and its partner before the other two.
fn partners_first(seat: Seat) -> Asked
    ensures { result ≡ record {
      first = seat;
      second = seat_after seat 2;
      third = seat_after seat 1;
      fourth = seat_after seat 3;
    } }
{
    in_turn(seat, seat.partner(), seat.left(), seat.right())
}

fn in_turn(first: Seat, second: Seat, third: Seat, fourth: Seat) -> Asked
    ensures { result ≡ record { first = first; second = second; third = third; fourth = fourth } }
{
    Asked {
        first,
        second,
        third,
        fourth,
    }
}
