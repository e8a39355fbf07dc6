//! Cards that may lie on a trick.
ghost use Rattle.std.specs.Prelude.{◌≡◌, [], map, true};
ghost use Rattle.dd_wire.specs.Requests.{are_cards, pair_of_card};

use crate::request_reader::Played;
use arrayvec::ArrayVec;

/// Cards that may lie on a trick that isn't complete.
#[derive(Drop)]
pub(crate) struct OnTrick {
    pub(crate) cards: Played,
    ghost valid: { are_cards (map pair_of_card cards.items) ≡ true },
}

impl OnTrick {
    pub(crate) fn none() -> OnTrick
        ensures { result.cards.items ≡ [] }
    {
        OnTrick {
            cards: ArrayVec::new(),
        }
    }

    pub(crate) fn of(cards: Played) -> OnTrick
        requires { are_cards (map pair_of_card cards.items) ≡ true }
        ensures { result.cards ≡ cards }
    {
        OnTrick { cards }
    }
}
