ghost use Rattle.std.specs.Prelude.{◌≡◌, ◌<◌};
ghost use Rattle.dd_cards.specs.Seats.{seat_after};

use dd_cards::Seat;

// The seat that comes `places` after `first`, clockwise.
#[inline]
pub(crate) fn seat_after(first: Seat, places: u8) -> Seat
    requires { places < 4 }
    ensures { result ≡ seat_after first places }
{
    first.after(places)
}
