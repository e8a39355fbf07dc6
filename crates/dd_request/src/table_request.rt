//! Requests for the twenty results of a deal.
ghost use Rattle.std.specs.Prelude.{◌≡◌, ◌<◌, ◌≤◌, ◌↔◌, IsOk, IsTrue, IfOk, Err, length};
ghost use Rattle.dd_cards.specs.Hands.{AreHands, FourHands};
ghost use Rattle.dd_cards.specs.Same.{same-hands, same-hands-partial, same_hands};
ghost use Rattle.dd_play.specs.Positions.{CanPlay};
ghost use Rattle.dd_request.specs.Results.{AreEven, contract_of, opening};

use dd_cards::{Hands, Seat, Strain};
use dd_play::{PlayFault, Position};
use std::marker::Model;

/// The parts of a table: five strains with four declarers each.
pub const PARTS: u8 = 20;

/// What a request for a table asks: the tricks of each declarer in each strain, for hands of one length, 1 to 13 cards.
#[derive(Drop)]
pub struct TableRequest {
    hands: Hands,
}

impl Model for TableRequest {
    ghost use Rattle.std.specs.Prelude.{◌≤◌, length};
    ghost use Rattle.dd_cards.specs.Hands.{FourHands};
    ghost use Rattle.dd_request.specs.Results.{AreEven};

    ghost Value = { FourHands };

    ghost view = { λ t. t.hands };

    ghost invariant = { λ t. AreEven t.hands × (1 ≤ length t.hands.north) };
}

impl TableRequest {
    /// A request for the table of these hands. Refused where they have not as many cards each (`Uneven`), and then where
    /// they have none (`Empty`).
    pub fn new(hands: Hands) -> Result<TableRequest, PlayFault>
        ensures valid { IsOk result ↔ (AreEven hands × (1 ≤ length hands.north)) }
        ensures value { IfOk result (λ request. request ≡ hands) }
        ensures uneven { (result ≡ Err PlayFault.Uneven) ↔ (¬ AreEven hands) }
        ensures empty { (result ≡ Err PlayFault.Empty) ↔ (AreEven hands × (length hands.north
            ≡ 0)) }
    {
        if !are_even(&hands) {
            return Err(PlayFault::Uneven);
        }
        if hands.len(Seat::North) == 0 {
            return Err(PlayFault::Empty);
        }
        Ok(TableRequest { hands })
    }

    /// The hands whose table is asked for.
    pub fn hands(&self) -> &Hands
        ensures value { result.now ≡ self.now }
        ensures even { AreEven self.now }
        ensures cards { 1 ≤ length self.now.north }
    {
        &self.hands
    }

    /// The position from which a part is played: that of its contract, with the hand after the declarer to lead.
    pub fn opening(&self, part: u8) -> Position
        requires { part < PARTS }
        ensures value { result ≡ opening self.now (contract_of part) }
        ensures play { CanPlay result }
    {
        let (strain, declarer) = contract_of(part);
        let leader = declarer.next();
        // The proof reads here that no card is in two hands.
        let _ = self.hands.hand(leader);
        match Position::new(self.hands.copy(), strain, leader, &[]) {
            Ok(position) => position,
            Err(_) => unreachable!(),
        }
    }

    /// An equal request. It takes no memory.
    pub fn copy(&self) -> TableRequest
        ensures same { result ≡ self.now }
    {
        TableRequest {
            hands: self.hands.copy(),
        }
    }
}

impl PartialEq for TableRequest {
    ghost eq = { same_hands };

    ghost laws = { same-hands-partial };

    fn eq(&self, other: &TableRequest) -> bool {
        self.hands == other.hands
    }
}

impl Eq for TableRequest {
    ghost laws = { same-hands };
}

// The strain and the declarer of a part.
fn contract_of(part: u8) -> (Strain, Seat)
    requires { part < PARTS }
    ensures { contract_of part ≡ record { strain = result.0; declarer = result.1 } }
{
    match (Strain::from_code(part / 4), Seat::from_code(part % 4)) {
        (Some(strain), Some(declarer)) => (strain, declarer),
        _ => unreachable!(),
    }
}

// Have the four hands as many cards?
fn are_even(hands: &Hands) -> bool
    ensures { IsTrue result ↔ AreEven hands.now }
{
    let cards = hands.len(Seat::North);
    hands.len(Seat::East) == cards
        && hands.len(Seat::South) == cards
        && hands.len(Seat::West) == cards
}
