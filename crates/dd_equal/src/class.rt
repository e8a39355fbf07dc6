use dd_cards::Card;
use std::marker::Model;

/// A class of equal cards that may be played: its highest card, and the mask of its other cards, bit r for rank r.
#[derive(Clone, Copy, Debug)]
pub struct Class {
    pub top: Card,
    pub equals: u16,
}

impl Model for Class {
    ghost use Rattle.dd_equal.specs.EqualCards.{EqualCards};

    ghost Value = { EqualCards };

    ghost view = { λ c. record { top = c.top; equals = c.equals } };

    ghost inverse = { λ v. record { top = v.top; equals = v.equals } };
}

impl Default for Class {
    fn default() -> Class {
        Class {
            top: Card::default(),
            equals: 0,
        }
    }
}
