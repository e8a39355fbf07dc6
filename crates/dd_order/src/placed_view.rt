//! What a hand sees that plays to a trick by relative ranks after the lead.
ghost use Rattle.std.specs.Prelude.{◌≡◌, length};
ghost use Rattle.dd_order.specs.Turns.{cards_before};

use crate::turn::Turn;
use dd_cards::{Hand, Place, Strain};
use dd_relative::PlacedTrick;

/// The best card on the trick, and whether it is partner's.
#[derive(Clone, Copy)]
pub(crate) struct BestCard {
    pub(crate) place: Place,
    pub(crate) partners: bool,
}

impl BestCard {
    /// The best card that the mover finds, whose turn it is after the lead.
    #[inline(always)]
    pub(crate) fn of(trick: &PlacedTrick<'_>, turn: Turn) -> BestCard {
        let strain = trick.start().start().strain();
        let first = trick.card_at(0);
        match turn {
            Turn::First | Turn::Second => BestCard {
                place: first,
                partners: false,
            },
            Turn::Third => {
                let both = Hand::new().with_place(first).with_place(trick.card_at(1));
                let place = best_of(both, first, strain);
                BestCard {
                    place,
                    partners: place.number() == first.number(),
                }
            }
            Turn::Fourth => {
                let second = trick.card_at(1);
                let both = Hand::new().with_place(first).with_place(second);
                let place = best_of(both.with_place(trick.card_at(2)), first, strain);
                BestCard {
                    place,
                    partners: place.number() == second.number(),
                }
            }
        }
    }
}

// The best of the cards of a trick, to which this one was led.
// The highest bit of those that decide: no card is measured against another.
#[inline(always)]
fn best_of(cards: Hand, led: Place, strain: Strain) -> Place {
    let followed = cards.of_suit_at(led);
    let trumps = match strain {
        Strain::Trump(trump) => cards.of_suit(trump),
        Strain::Notrump => Hand::new(),
    };
    let deciding = if trumps.is_empty() { followed } else { trumps };
    match deciding.highest_place() {
        Some(place) => place,
        None => led,
    }
}
