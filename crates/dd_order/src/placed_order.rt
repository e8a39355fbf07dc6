//! The order in which the cards of a trick by relative ranks are tried: that of `order.rt`, by the places of the cards. It bears on the
//! time alone.
ghost use Rattle.std.specs.Prelude.{◌≡◌, [], MatchOption, true, length};
ghost use Rattle.dd_cards.specs.Cards.{has_card};
ghost use Rattle.dd_order.specs.Turns.{cards_before};

use crate::discard::Discarding;
use crate::lead::Leading;
use crate::placed_discard::discarding;
use crate::placed_follow::PlacedFollowing;
use crate::suit_lanes::LOWEST_FOUR;
use crate::turn::Turn;
use dd_bounds::{Bounds, LeadHistory};
use dd_cards::{Hand, Place, Suit};
use dd_relative::PlacedTrick;

/// What a hand does.
#[derive(Clone, Copy, Debug)]
pub enum Phase {
    Lead,
    Follow,
    Discard,
}

/// Does a hand after the first follow suit, which may play one of these cards?
#[inline(always)]
pub fn follows(trick: &PlacedTrick<'_>, choices: Hand) -> bool {
    !choices.of_suit_at(trick.card_at(0)).is_empty()
}

/// What a hand sees by which it chooses. Where it leads the cards are weighed, and the best stand beside it.
// The phase is handed in: where it is a constant, no code looks at it, and of the parts one alone is kept.
#[derive(Clone, Copy)]
pub struct PlacedPicker {
    following: PlacedFollowing,
    discarding: Discarding,
}

impl PlacedPicker {
    /// The picker of the mover, which may play one of these cards. Where it leads, cards of suits more that settled other starts like
    /// this one weigh more.
    #[inline(always)]
    pub fn of(
        trick: &PlacedTrick<'_>,
        turn: Turn,
        phase: Phase,
        settling: LeadHistory,
        tops: Hand,
        leading: &mut Leading,
    ) -> PlacedPicker
        requires { length trick.now.trick ≡ cards_before turn }
    {
        match phase {
            Phase::Lead => {
                let start = trick.start();
                leading.weigh(start, start.strings(), settling, tops);
                PlacedPicker {
                    following: PlacedFollowing::nothing(),
                    discarding: Discarding::nothing(),
                }
            }
            Phase::Follow => PlacedPicker {
                following: PlacedFollowing::of(trick, turn, tops),
                discarding: Discarding::nothing(),
            },
            Phase::Discard => PlacedPicker {
                following: PlacedFollowing::nothing(),
                discarding: discarding(trick, turn),
            },
        }
    }

    /// The best of the choices that were not tried yet, and none where there is none.
    #[inline(always)]
    pub fn best(
        &self,
        trick: &PlacedTrick<'_>,
        turn: Turn,
        phase: Phase,
        tops: Hand,
        untried: Hand,
        leading: &Leading,
    ) -> Option<Place>
        requires { length trick.now.trick ≡ cards_before turn }
        ensures { MatchOption result (untried ≡ []) (λ card. has_card untried card ≡ true) }
    {
        if untried.is_empty() {
            return None;
        }
        let best = match phase {
            Phase::Lead => leading.best(untried),
            Phase::Follow => self.following.best(untried),
            Phase::Discard => {
                let cards = self.discarding.best(lengths_of(trick, turn), tops, untried);
                cards.lowest_place()
            }
        };
        match best {
            Some(place) => Some(place),
            None => untried.highest_place(),
        }
    }
}

/// Takes note that a card of this suit failed, and weighs those of the suit that are still to be tried. It does nothing where no card is
/// led.
#[inline]
pub fn go_on(
    leading: &mut Leading,
    trick: &PlacedTrick<'_>,
    phase: Phase,
    suit: Suit,
    untried: Hand,
) {
    match phase {
        Phase::Lead => {
            let start = trick.start();
            leading.go_on(start, Some(start.strings()), suit, untried);
        }
        Phase::Follow | Phase::Discard => {}
    }
}

/// The suits of leads that settled starts of a trick like this one; of another hand's turn none are known.
#[inline]
pub fn lead_history<B: Bounds>(trick: &PlacedTrick<'_>, turn: Turn, table: &B) -> LeadHistory
    requires { length trick.now.trick ≡ cards_before turn }
{
    match turn {
        Turn::First => {
            let start = trick.start();
            let leader = start.deal_leader();
            table.lead_history_of(trick.at_lead().position(), leader, start.strings())
        }
        Turn::Second | Turn::Third | Turn::Fourth => LeadHistory::default(),
    }
}

/// Hands over the card that settled a start of a trick.
#[inline]
pub fn note_lead<B: Bounds>(trick: &PlacedTrick<'_>, turn: Turn, card: Place, table: &mut B)
    requires { length trick.now.trick ≡ cards_before turn }
{
    match turn {
        Turn::First => {
            let start = trick.start();
            let leader = start.deal_leader();
            table.note_lead_of(
                trick.at_lead().position(),
                leader,
                start.strings(),
                card.suit(),
            );
        }
        Turn::Second | Turn::Third | Turn::Fourth => {}
    }
}

// The lengths of the mover's suits. It has all cards that it had at the start.
#[inline(always)]
fn lengths_of(trick: &PlacedTrick<'_>, turn: Turn) -> u64 {
    let lengths = trick.start().strings().shape().lengths();
    let own = match turn {
        Turn::First => lengths,
        Turn::Second => lengths >> 4,
        Turn::Third => lengths >> 8,
        Turn::Fourth => lengths >> 12,
    };
    own & LOWEST_FOUR
}
