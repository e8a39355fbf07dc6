//! Plays by simple rules, with a mistake now and then.

use crate::deal::{Deal, PACK, RANKS, card_of};
use crate::draws::Draws;

/// In place of a card.
const NO_CARD: usize = PACK;

/// One of so many cards is played at random.
const MISTAKES: usize = 10;

/// The cards that are still held, and the trick at hand.
#[derive(Drop)]
pub(crate) struct Play {
    deal: Deal,
    trump: usize,
    turn: usize,
    led: usize,
    best: usize,
    winner: usize,
    // the cards on the trick
    count: usize,
}

impl Play {
    pub(crate) fn new(deal: Deal, trump: usize, leader: usize) -> Play {
        Play {
            deal,
            trump,
            turn: leader,
            led: NO_CARD,
            best: NO_CARD,
            winner: leader,
            count: 0,
        }
    }

    /// The cards that are still held.
    pub(crate) fn deal(&self) -> &Deal {
        &self.deal
    }

    /// The next card, and who is to play after it.
    pub(crate) fn next(&mut self, draws: &mut Draws) -> usize {
        let card = if draws.below(MISTAKES) == 0 {
            self.any(draws)
        } else {
            self.sensible(draws)
        };
        self.take(card);
        card
    }

    fn take(&mut self, card: usize) {
        self.deal.play(card);
        if self.led == NO_CARD {
            self.led = card;
        }
        if self.best == NO_CARD || self.beats(card) {
            self.best = card;
            self.winner = self.turn;
        }
        self.count = (self.count % 4) + 1;
        self.turn = (self.turn % 4 + 1) % 4;
        if self.count == 4 {
            self.count = 0;
            self.turn = self.winner;
            self.led = NO_CARD;
            self.best = NO_CARD;
        }
    }

    // May the card be played?
    fn is_legal(&self, card: usize) -> bool {
        self.deal.has(self.turn, card)
            && (self.led == NO_CARD
                || card / RANKS == self.led / RANKS
                || !self.deal.follows(self.turn, self.led / RANKS))
    }

    // Does the card beat the best of the trick?
    fn beats(&self, card: usize) -> bool {
        if card / RANKS == self.best / RANKS {
            card > self.best
        } else {
            card / RANKS == self.trump
        }
    }

    fn any(&self, draws: &mut Draws) -> usize {
        let start = draws.below(PACK);
        for offset in 0..PACK {
            let card = (start + offset) % PACK;
            if self.is_legal(card) {
                return card;
            }
        }
        start
    }

    fn sensible(&self, draws: &mut Draws) -> usize {
        if self.led == NO_CARD {
            return self.lead(draws);
        }
        if self.winner % 4 != (self.turn % 4 + 2) % 4 {
            let card = self.cheapest(draws, true);
            if card != NO_CARD {
                return card;
            }
        }
        self.cheapest(draws, false)
    }

    // The lowest legal card, trumps last, or of those that beat the best.
    fn cheapest(&self, draws: &mut Draws, is_to_beat: bool) -> usize {
        let start = draws.below(4);
        let mut found = NO_CARD;
        let mut least = usize::MAX;
        for rank in 0..RANKS {
            for offset in 0..4 {
                let suit = (start + offset) % 4;
                let card = card_of(suit, rank);
                let cost = if suit == self.trump {
                    rank + RANKS
                } else {
                    rank
                };
                if cost < least && self.is_legal(card) && (!is_to_beat || self.beats(card)) {
                    least = cost;
                    found = card;
                }
            }
        }
        found
    }

    // The highest card of a suit where no one has a higher one, else the lowest.
    fn lead(&self, draws: &mut Draws) -> usize {
        let start = draws.below(4);
        for offset in 0..4 {
            let suit = (start + offset) % 4;
            if self.deal.follows(self.turn, suit) {
                return self.lead_of(suit);
            }
        }
        start
    }

    fn lead_of(&self, suit: usize) -> usize {
        let mut lowest = NO_CARD;
        let mut highest = NO_CARD;
        let mut is_winner = false;
        for rank in 0..RANKS {
            let card = card_of(suit, rank);
            if self.deal.has(self.turn, card) {
                if lowest == NO_CARD {
                    lowest = card;
                }
                highest = card;
                is_winner = true;
            } else if self.deal.is_held(card) {
                is_winner = false;
            }
        }
        if is_winner { highest } else { lowest }
    }
}
