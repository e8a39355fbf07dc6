//! A claim: tricks that a side takes, and the cards that this rests on.
ghost use Rattle.std.specs.Prelude.{◌≡◌, ◌⊎◌, max, []};

use dd_cards::Hand;
use std::marker::Model;

/// So many tricks, 0 to 13, and the cards that it rests on that a side takes them: it takes as many where the cards below
/// these are others.
#[derive(Clone, Copy)]
pub(crate) struct Claim {
    pub(crate) tricks: u8,
    pub(crate) cards: Hand,
}

impl Model for Claim {
    ghost use Rattle.dd_search.specs.ClaimsBy.{ClaimBy};

    ghost Value = { ClaimBy };

    ghost view = { λ c. record { tricks = c.tricks; cards = c.cards } };

    ghost inverse = { λ v. record { tricks = v.tricks; cards = v.cards } };
}

impl Claim {
    /// No tricks, which rests on no cards.
    pub(crate) fn nothing() -> Claim
        ensures tricks { result.tricks ≡ 0 }
        ensures cards { result.cards ≡ [] }
    {
        Claim {
            tricks: 0,
            cards: Hand::new(),
        }
    }

    /// The claim of more tricks, and this one where the other has no more.
    pub(crate) fn or(self, other: Claim) -> Claim
        ensures most { result.tricks ≡ max self.tricks other.tricks }
        ensures either { (result ≡ self) ⊎ (result ≡ other) }
    {
        if self.tricks >= other.tricks {
            self
        } else {
            other
        }
    }
}
