//! What a line that asks for par asks.
ghost use Rattle.std.specs.Prelude.{◌≡◌, ◌↔◌, IsSome, IfSome, length};
ghost use Rattle.dd_request.specs.Results.{AreEven};

use dd_cards::Seat;
use dd_request::TableRequest;
use dd_score::{Order, Results, Vulnerable};
use std::marker::Model;

/// The cards of each hand of a deal that has a par.
const THIRTEEN: u8 = 13;

/// What par depends on beside the results: the vulnerable sides, and who calls first.
#[derive(Clone, Copy)]
pub struct Conditions {
    pub vulnerable: Vulnerable,
    pub order: Order,
}

/// Par of twenty results.
#[derive(Drop)]
pub struct ParOfResults {
    pub results: Results,
    pub conditions: Conditions,
}

/// Par of a deal, that is of the results of its table. The hands have thirteen cards.
#[derive(Drop)]
pub struct ParOfDeal {
    request: TableRequest,
    conditions: Conditions,
}

impl Model for ParOfDeal {
    ghost use Rattle.std.specs.Prelude.{◌≡◌, length};
    ghost use Rattle.dd_request.specs.Results.{AreEven};
    ghost use Rattle.dd_wire.specs.ParLines.{DealPar};

    ghost Value = { DealPar };

    ghost view = { λ p. record { hands = p.request; conditions = p.conditions } };

    ghost invariant = { λ p. AreEven p.request × (length p.request.north ≡ 13) };
}

impl ParOfDeal {
    /// Par of this deal; None where its hands are not of thirteen cards.
    pub fn new(request: TableRequest, conditions: Conditions) -> Option<ParOfDeal>
        ensures valid { IsSome result ↔ (length request.north ≡ 13) }
        ensures value { IfSome result (λ par. par ≡ record { hands = request; conditions = conditions }) }
    {
        if request.hands().len(Seat::North) == THIRTEEN {
            Some(ParOfDeal {
                request,
                conditions,
            })
        } else {
            None
        }
    }

    /// The request for the results.
    pub fn request(&self) -> &TableRequest
        ensures value { result.now ≡ self.now.hands }
        ensures even { AreEven self.now.hands }
        ensures thirteen { length self.now.hands.north ≡ 13 }
    {
        &self.request
    }

    /// Who calls first, and which sides are vulnerable.
    pub fn conditions(&self) -> Conditions
        ensures { result ≡ self.now.conditions }
    {
        self.conditions
    }
}
