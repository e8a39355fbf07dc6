ghost use Rattle.std.specs.Prelude.{◌≡◌, [], ◌↔◌, Bool, true, false, IsTrue, IfSome, IfNone, if◌then◌else◌, map, filter, length};
ghost use Rattle.dd_cards.specs.Cards.{card_of, is_of, has_card, with_card, without, deck};
ghost use Rattle.dd_cards.specs.Hands.{dealt, hand_of, with_hand, hands_without, AreHands};
ghost use Rattle.dd_cards.specs.Same.{same-hands, same-hands-partial, same_cards, same_hands};

use crate::card::Card;
use crate::hand::Hand;
use crate::holding::Holding;
use crate::seat::Seat;
use crate::suit::Suit;
use std::marker::Model;

/// A set of cards for each seat, no card in two of them, seen as the four lists of their cards.
// Each hand is 64 bits, sixteen for each suit, the spades on top.
#[derive(Drop)]
pub struct Hands {
    masks: [u64; 4],
}

impl Model for Hands {
    ghost use Rattle.dd_cards.specs.Hands.{FourHands};
    ghost use Rattle.dd_cards.specs.HandMasks.{hands_of, AreHandMasks};

    ghost Value = { FourHands };

    ghost view = { λ h. hands_of h.masks };

    ghost invariant = { λ h. AreHandMasks h.masks };
}

impl Hands {
    /// Four hands without cards.
    pub fn new() -> Hands
        ensures { result ≡ dealt [] [] [] [] }
    {
        Hands { masks: [0; 4] }
    }

    /// These four hands.
    #[inline(always)]
    pub fn of_four(north: Hand, east: Hand, south: Hand, west: Hand) -> Hands
        requires { AreHands (dealt north east south west) }
        ensures { result ≡ dealt north east south west }
    {
        Hands {
            masks: [north.mask(), east.mask(), south.mask(), west.mask()],
        }
    }

    /// Four equal hands. It takes no memory.
    pub fn copy(&self) -> Hands
        ensures { result ≡ self.now }
    {
        Hands { masks: self.masks }
    }

    /// Is the card in this hand?
    pub fn has(&self, seat: Seat, card: Card) -> bool
        ensures { result ≡ has_card (hand_of self.now seat) card }
    {
        self.masks[seat.code() as usize] & (1 << card.place()) != 0
    }

    /// The cards of this hand.
    pub fn hand(&self, seat: Seat) -> Hand
        ensures hand { result ≡ hand_of self.now seat }
        ensures hands { AreHands self.now }
    {
        Hand::of_mask(self.masks[seat.code() as usize])
    }

    /// The number of cards in this hand, 0 to 52.
    pub fn len(&self, seat: Seat) -> u8
        ensures { result ≡ length (hand_of self.now seat) }
    {
        self.masks[seat.code() as usize].count_ones() as u8
    }

    /// The ranks of this suit in this hand.
    pub fn holding(&self, seat: Seat, suit: Suit) -> Holding
        ensures { map (card_of suit) result ≡ filter (is_of suit) (hand_of self.now seat) }
    {
        let lane = self.masks[seat.code() as usize] >> suit.shift();
        Holding::of_mask((lane & 0x7ffc) as u16)
    }

    /// The seat whose hand has the card; None where no hand has it.
    pub fn holder(&self, card: Card) -> Option<Seat>
        ensures some { IfSome result (λ seat. has_card (hand_of self.now seat) card ≡ true) }
        ensures only { IfSome result (λ seat. (other : Seat)
            → has_card (hand_of self.now other) card ≡ true → other ≡ seat) }
        ensures none { IfNone result ((seat : Seat) → has_card (hand_of self.now seat) card
            ≡ false) }
    {
        // The proof reads here that no card is in two hands.
        let _ = &self.masks;
        if self.has(Seat::North, card) {
            Some(Seat::North)
        } else if self.has(Seat::East, card) {
            Some(Seat::East)
        } else if self.has(Seat::South, card) {
            Some(Seat::South)
        } else if self.has(Seat::West, card) {
            Some(Seat::West)
        } else {
            None
        }
    }

    /// Puts the card into this hand. False, and nothing changed, where some hand has it.
    pub fn insert(&mut self, seat: Seat, card: Card) -> bool
        ensures inserts { IsTrue result ↔ ((other : Seat) → has_card (hand_of self.old other) card
            ≡ false) }
        ensures hands { self.new
            ≡ (if result then with_hand self.old seat (with_card (hand_of self.old seat) card) else
            self.old) }
    {
        if self.holder(card).is_some() {
            return false;
        }
        self.masks[seat.code() as usize] |= 1 << card.place();
        true
    }

    /// Takes the card out of this hand. False, and nothing changed, where this hand lacks it.
    pub fn remove(&mut self, seat: Seat, card: Card) -> bool
        ensures removes { result ≡ has_card (hand_of self.old seat) card }
        ensures hands { self.new ≡ with_hand self.old seat (without (hand_of self.old seat) card) }
    {
        let had = self.has(seat, card);
        self.masks[seat.code() as usize] &= !(1 << card.place());
        had
    }

    /// The hands when the card is in none of them.
    // All four in registers: a hand that was changed in place would be read again before its write is done.
    #[inline]
    pub fn without(&self, card: Card) -> Hands
        ensures { result ≡ hands_without self.now card }
    {
        let kept = !(1 << card.place());
        let [north, east, south, west] = self.masks;
        Hands {
            masks: [north & kept, east & kept, south & kept, west & kept],
        }
    }
}

impl PartialEq for Hands {
    ghost eq = { same_hands };

    ghost laws = { same-hands-partial };

    fn eq(&self, other: &Hands) -> bool {
        is_same_hand(self.hand(Seat::North), other.hand(Seat::North))
            && is_same_hand(self.hand(Seat::East), other.hand(Seat::East))
            && is_same_hand(self.hand(Seat::South), other.hand(Seat::South))
            && is_same_hand(self.hand(Seat::West), other.hand(Seat::West))
    }
}

impl Eq for Hands {
    ghost laws = { same-hands };
}

// Have both hands the same cards? By their masks.
#[inline]
fn is_same_hand(hand: Hand, other: Hand) -> bool
    ensures { result ≡ same_cards hand other }
{
    hand.mask() == other.mask()
}
