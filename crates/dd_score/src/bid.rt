ghost use Rattle.std.specs.Prelude.{◌≡◌, ◌+◌, ◌-◌, ◌*◌, ◌/◌, ◌%◌, ◌≤◌, ◌↔◌, IsSome, IfSome};
ghost use Rattle.dd_score.specs.Bids.{level_of, strain_of, bid_of};

use dd_cards::{Strain, Suit};
use std::marker::Model;

/// A bid by its number, 1 to 35, in the order in which bids may be made (Laws of Duplicate Bridge 2017, Law 18): one club
/// is 1, one diamond 2, one notrump 5, two clubs 6, seven notrump 35.
#[derive(Clone, Copy, Debug, PartialEq, Eq)]
pub struct Bid {
    number: u8,
}

impl Model for Bid {
    ghost use Rattle.std.specs.Prelude.{ℕ, ◌≤◌};

    ghost Value = { ℕ };

    ghost view = { λ b. b.number };

    ghost invariant = { λ b. (1 ≤ b.number) × (b.number ≤ 35) };

    ghost inverse = { λ n. record { number = n } };
}

impl Bid {
    /// The bid of a number; None where it is not 1 to 35.
    pub fn from_number(number: u8) -> Option<Bid>
        ensures valid { IsSome result ↔ ((1 ≤ number) × (number ≤ 35)) }
        ensures value { IfSome result (λ b. b ≡ number) }
    {
        if 1 <= number && number <= 35 {
            Some(Bid { number })
        } else {
            None
        }
    }

    /// The bid of a number that is known to be one.
    pub fn of(number: u8) -> Bid
        requires { (1 ≤ number) × (number ≤ 35) }
        ensures { result ≡ number }
    {
        Bid { number }
    }

    /// The bid of a level, 1 to 7, in a strain.
    pub fn new(level: u8, strain: Strain) -> Bid
        requires { (1 ≤ level) × (level ≤ 7) }
        ensures { result ≡ bid_of level strain }
    {
        let place = match strain {
            Strain::Trump(Suit::Clubs) => 0,
            Strain::Trump(Suit::Diamonds) => 1,
            Strain::Trump(Suit::Hearts) => 2,
            Strain::Trump(Suit::Spades) => 3,
            Strain::Notrump => 4,
        };
        Bid {
            number: 5 * (level - 1) + place + 1,
        }
    }

    /// The bid's number, 1 to 35.
    pub fn number(self) -> u8
        ensures value { result ≡ self }
        ensures low { 1 ≤ result }
        ensures high { result ≤ 35 }
    {
        self.number
    }

    /// The odd tricks, beyond six, that it undertakes to win, 1 to 7.
    #[tactic(auto, unfolding(crate::specs::Bids::level_of))]
    pub fn level(self) -> u8
        ensures value { result ≡ level_of self }
        ensures low { 1 ≤ result }
        ensures high { result ≤ 7 }
    {
        (self.number - 1) / 5 + 1
    }

    /// Its strain: clubs are the lowest, then diamonds, hearts, spades and notrump.
    #[tactic(auto, unfolding(crate::specs::Bids::strain_of))]
    pub fn strain(self) -> Strain
        ensures { result ≡ strain_of self }
    {
        match (self.number - 1) % 5 {
            0 => Strain::Trump(Suit::Clubs),
            1 => Strain::Trump(Suit::Diamonds),
            2 => Strain::Trump(Suit::Hearts),
            3 => Strain::Trump(Suit::Spades),
            _ => Strain::Notrump,
        }
    }
}
