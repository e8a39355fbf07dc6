//! A lead that is remembered.

use dd_cards::Suit;

/// So many deals have numbers of their own, from 1 on.
pub(crate) const MOST_DEALS: u8 = 63;

/// The suit of a lead that settled a start of a trick, with the number of its deal; or none. It serves the order of leads alone.
// The suit's code in the two lowest bits, the number of the deal above them; no deal has the number 0.
#[derive(Clone, Copy)]
pub(crate) struct SettlingLead {
    bits: u8,
}

impl SettlingLead {
    /// None of any deal.
    #[inline]
    pub(crate) fn none() -> SettlingLead {
        SettlingLead { bits: 0 }
    }

    #[inline]
    pub(crate) fn new(deal: u8, suit: Suit) -> SettlingLead {
        SettlingLead {
            bits: deal.wrapping_mul(4) | suit.code(),
        }
    }

    /// The suit, where it is of this deal.
    #[inline]
    pub(crate) fn in_deal(self, deal: u8) -> Option<Suit> {
        if self.bits / 4 == deal {
            Suit::from_code(self.bits % 4)
        } else {
            None
        }
    }

    /// Is it one of some deal?
    #[inline]
    pub(crate) fn is_some(self) -> bool {
        self.bits != 0
    }
}
