//! Deals that are drawn.

use crate::draws::Draws;
use std::alloc::AllocError;

/// The cards of a pack. A card is its suit, spades first, times thirteen, and its rank from the two up.
pub(crate) const PACK: usize = 52;

/// The ranks of a suit.
pub(crate) const RANKS: usize = 13;

/// In place of a seat: a card that no hand has.
const NOBODY: u8 = 4;

const RANK_LETTERS: [u8; RANKS] = *b"23456789TJQKA";

/// Who has each card: 0 North, 1 East, 2 South, 3 West.
#[derive(Clone, Copy, Drop)]
pub(crate) struct Deal {
    holders: [u8; PACK],
}

impl Deal {
    /// So many cards for each hand.
    pub(crate) fn drawn(draws: &mut Draws, cards: usize) -> Deal {
        let pack = shuffled(draws);
        let mut holders = [NOBODY; PACK];
        for (place, card) in pack.iter().enumerate() {
            let seat = place % 4;
            if place / 4 < cards {
                holders[usize::from(*card) % PACK] = seat as u8;
            }
        }
        Deal { holders }
    }

    /// Does the seat have the card?
    pub(crate) fn has(&self, seat: usize, card: usize) -> bool {
        usize::from(self.holders[card % PACK]) == seat
    }

    /// Is the card in a hand?
    pub(crate) fn is_held(&self, card: usize) -> bool {
        self.holders[card % PACK] != NOBODY
    }

    /// Does the seat have a card of the suit?
    pub(crate) fn follows(&self, seat: usize, suit: usize) -> bool {
        for rank in 0..RANKS {
            if self.has(seat, card_of(suit, rank)) {
                return true;
            }
        }
        false
    }

    /// Takes a card out of its hand.
    pub(crate) fn play(&mut self, card: usize) {
        self.holders[card % PACK] = NOBODY;
    }

    /// What North and South have together: ace 4, king 3, queen 2, jack 1.
    pub(crate) fn points(&self) -> usize {
        let mut points = 0usize;
        for card in 0..PACK {
            if self.has(0, card) || self.has(2, card) {
                points = points.wrapping_add((card % RANKS).saturating_sub(8));
            }
        }
        points
    }

    /// Adds the deal as PBN has it, from North.
    pub(crate) fn push(&self, text: &mut Vec<u8>) -> Result<(), AllocError> {
        text.extend_from_slice(b"N:")?;
        for seat in 0..4 {
            if seat > 0 {
                text.push(b' ')?;
            }
            self.push_hand(text, seat)?;
        }
        Ok(())
    }

    fn push_hand(&self, text: &mut Vec<u8>, seat: usize) -> Result<(), AllocError> {
        for suit in 0..4 {
            if suit > 0 {
                text.push(b'.')?;
            }
            for rank in (0..RANKS).rev() {
                if self.has(seat, card_of(suit, rank)) {
                    text.push(rank_letter(rank))?;
                }
            }
        }
        Ok(())
    }
}

/// The card of a suit and a rank.
pub(crate) fn card_of(suit: usize, rank: usize) -> usize {
    (suit % 4) * RANKS + rank % RANKS
}

fn rank_letter(rank: usize) -> u8 {
    RANK_LETTERS[rank % RANKS]
}

/// A shuffled pack.
pub(crate) fn shuffled(draws: &mut Draws) -> [u8; PACK] {
    let mut pack = [0; PACK];
    for card in 0..PACK {
        pack[card] = card as u8;
    }
    for place in 1..PACK {
        let other = draws.below(place + 1);
        pack.swap(place, other);
    }
    pack
}
