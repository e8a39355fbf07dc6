//! Deals of thirteen cards a hand.
ghost use Rattle.std.specs.Prelude.{◌≡◌, ◌↔◌, IsTrue};
ghost use Rattle.dd_file.specs.Deals.{IsThirteen};

use dd_cards::Hands;
use dd_request::TableRequest;
use std::marker::Model;

/// A deal of thirteen cards a hand.
#[derive(Drop)]
pub(crate) struct Deal {
    hands: Hands,
}

impl Model for Deal {
    ghost use Rattle.dd_cards.specs.Hands.{FourHands};
    ghost use Rattle.dd_file.specs.Deals.{IsThirteen};

    ghost Value = { FourHands };

    ghost view = { λ d. d.hands };

    ghost invariant = { λ d. IsThirteen d.hands };
}

impl Deal {
    /// The deal of these hands.
    pub(crate) fn new(hands: &Hands) -> Deal
        requires { IsThirteen hands.now }
        ensures { result ≡ hands.now }
    {
        Deal {
            hands: hands.copy(),
        }
    }

    /// The request for its results.
    pub(crate) fn request(&self) -> TableRequest
        ensures request { result ≡ self.now }
        ensures thirteen { IsThirteen self.now }
    {
        match TableRequest::new(self.hands.copy()) {
            Ok(request) => request,
            Err(_) => unreachable!(),
        }
    }

    /// Is it the same deal?
    pub(crate) fn is_same(&self, other: &Deal) -> bool
        ensures { IsTrue result ↔ (self.now ≡ other.now) }
    {
        self.hands == other.hands
    }
}
