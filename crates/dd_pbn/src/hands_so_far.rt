ghost use Rattle.std.specs.Prelude.{◌≡◌};
ghost use Rattle.dd_pbn.specs.Reading.{nothing, note, outcome};

use crate::fault::PbnFault;
use dd_cards::{Card, Hands, Seat};

// What the hands of a text hold, as far as it is read. Whether a hand is left out or a card stands twice is noted and
// not answered at once, since a fault of the grammar may yet come and goes before both.
#[derive(Drop)]
pub(crate) struct HandsSoFar {
    pub(crate) hands: Hands,
    pub(crate) absent: bool,
    pub(crate) twice: bool,
}

impl HandsSoFar {
    pub(crate) fn new() -> HandsSoFar
        ensures { result ≡ nothing }
    {
        HandsSoFar {
            hands: Hands::new(),
            absent: false,
            twice: false,
        }
    }

    // One more card of this seat.
    pub(crate) fn note(&mut self, seat: Seat, card: Card)
        ensures { self.new ≡ note seat card self.old }
    {
        if !self.hands.insert(seat, card) {
            self.twice = true;
        }
    }
}

// The deal, or why there is none.
pub(crate) fn outcome(seen: Option<HandsSoFar>) -> Result<Hands, PbnFault>
    ensures { result ≡ outcome seen }
{
    let Some(seen) = seen else {
        return Err(PbnFault::Grammar);
    };
    if seen.absent {
        Err(PbnFault::Absent)
    } else if seen.twice {
        Err(PbnFault::Twice)
    } else {
        Ok(seen.hands)
    }
}
