//! Plays, card by card from the opening lead on.
ghost use Rattle.std.specs.Prelude.{◌≡◌, ◌+◌, ◌≤◌, ◌↔◌, IsOk, IfOk, OnOk, Err, [], length, take, MatchOption};
ghost use Rattle.dd_play.specs.Board.{mover, tricks_left, IsBoard};
ghost use Rattle.dd_cards.specs.Sides.{is_side};
ghost use Rattle.dd_play.specs.Positions.{CanPlay};
ghost use Rattle.dd_play.specs.Simulations.{IsLegal};
ghost use Rattle.dd_request.specs.CardFaults.{IsFaultOf, IsFirstFault};
ghost use Rattle.dd_request.specs.Plays.{declarers, position_after, position_at, tricks_after, tricks_won, IsRegular};
ghost use Rattle.dd_request.specs.SideTricks.{side_trick};

use crate::card_fault::CardFault;
use arrayvec::ArrayVec;
use dd_cards::{Card, Seat, Side};
use dd_play::Position;
use std::marker::Model;

/// The most cards of a play.
pub const MOST_CARDS: usize = 52;

/// What a request for a play asks: the tricks that declarer's side takes before its first card and after each one. Each card
/// is legal in its turn. A play may end before the last card, as by a claim.
#[derive(Drop)]
pub struct PlayRequest {
    opening: Position,
    cards: ArrayVec<Card, MOST_CARDS>,
}

impl Model for PlayRequest {
    ghost use Rattle.std.specs.Prelude.{◌≡◌, []};
    ghost use Rattle.dd_play.specs.Positions.{CanPlay};
    ghost use Rattle.dd_request.specs.Plays.{Play, IsRegular};

    ghost Value = { Play };

    ghost view = { λ r. record { opening = r.opening; cards = r.cards.items } };

    ghost invariant = { λ r. CanPlay r.opening × (r.opening.trick ≡ []) ×
        IsRegular r.opening r.cards.items };
}

impl PlayRequest {
    /// A request for the play of these cards from this opening. Refused with the fault of the first card that is not legal
    /// in its turn.
    pub fn new(opening: Position, cards: &[Card]) -> Result<PlayRequest, CardFault>
        requires play { CanPlay opening }
        requires start { opening.trick ≡ [] }
        ensures valid { IsOk result ↔ IsRegular opening cards.now }
        ensures value { IfOk result (λ request. request ≡
            record { opening = opening; cards = cards.now }) }
        ensures faults { (fault : CardFault) →
            (result ≡ Err fault) ↔ IsFirstFault fault opening cards.now }
    {
        check(&opening, cards)?;
        Ok(PlayRequest {
            opening,
            cards: ArrayVec::try_from(cards).unwrap_or_default(),
        })
    }

    /// The position before the opening lead.
    pub fn opening(&self) -> &Position
        ensures value { result.now ≡ self.now.opening }
        ensures play { CanPlay self.now.opening }
        ensures start { self.now.opening.trick ≡ [] }
    {
        &self.opening
    }

    /// The cards, in the order in which they were played.
    pub fn cards(&self) -> &[Card]
        ensures value { result.now ≡ self.now.cards }
        ensures most { length result.now ≤ MOST_CARDS }
        ensures regular { IsRegular self.now.opening self.now.cards }
    {
        self.cards.as_slice()
    }

    /// Declarer's side: the opening leader's opponents.
    pub fn declarers(&self) -> Side
        ensures { result ≡ declarers self.now.opening }
    {
        self.opening.first().left().side()
    }

    /// The position that the first `count` cards leave, and the tricks, 0 to 13, that declarer's side has won by then.
    pub fn after(&self, count: usize) -> (Position, u8)
        requires { count ≤ length self.now.cards }
        ensures position { result.0 ≡ position_after self.now.opening (take count self.now.cards) }
        ensures won { result.1 ≡
            tricks_won (declarers self.now.opening) self.now.opening (take count self.now.cards) }
        ensures bound { result.1 + tricks_left result.0 ≤ 13 }
        ensures board { IsBoard self.now.opening }
        ensures regular { IsRegular self.now.opening self.now.cards }
    {
        let side = self.declarers();
        let mut position = self.opening.copy();
        let mut won = 0;
        let played = &self.cards.as_slice()[..count];
        for card in played {
            let (next, winner) = position.play(*card);
            won += trick_for(side, winner);
            position = next;
        }
        (position, won)
    }

    /// The number of the trace after the last card, where no card is left to play: the tricks that were won.
    pub fn last_number(&self) -> Option<u8>
        ensures { MatchOption result
            (1 ≤ tricks_left (position_at self.now (length self.now.cards)))
            (λ tricks. (tricks_left (position_at self.now (length self.now.cards)) ≡ 0)
            × (tricks ≡ tricks_after self.now (length self.now.cards))) }
    {
        let (position, won) = self.after(self.cards().len());
        if position.tricks_left() == 0 {
            Some(won)
        } else {
            None
        }
    }

    /// Is declarer's side to play in this position?
    pub fn declarer_plays(&self, position: &Position) -> bool
        ensures { result ≡ is_side (declarers self.now.opening) (mover position.now) }
    {
        position.mover().side() == self.declarers()
    }

    /// The same play. It takes no memory.
    pub fn copy(&self) -> PlayRequest
        ensures { result ≡ self.now }
    {
        PlayRequest {
            opening: self.opening.copy(),
            cards: ArrayVec::try_from(self.cards.as_slice()).unwrap_or_default(),
        }
    }
}

// A trick for the side.
fn trick_for(side: Side, winner: Option<Seat>) -> u8
    ensures value { result ≡ side_trick side winner }
    ensures bound { result ≤ 1 }
{
    match winner {
        Some(seat) if seat.side() == side => 1,
        _ => 0,
    }
}

// Is each card legal in its turn?
fn check(opening: &Position, cards: &[Card]) -> Result<(), CardFault>
    ensures regular { IsOk result ↔ IsRegular opening.now cards.now }
    ensures faults { (fault : CardFault) →
        (result ≡ Err fault) ↔ IsFirstFault fault opening.now cards.now }
    ensures most { OnOk result (length cards.now ≤ MOST_CARDS) }
{
    let mut position = opening.copy();
    for card in cards {
        if let Some(fault) = fault_of(&position, *card) {
            return Err(fault);
        }
        position = position.play(*card).0;
    }
    Ok(())
}

// Why the card may not be played here, if it may not.
fn fault_of(position: &Position, card: Card) -> Option<CardFault>
    ensures { MatchOption result (IsLegal position.now card) (λ fault. IsFaultOf fault position.now card) }
{
    if position.tricks_left() == 0 {
        return Some(CardFault::AfterLast);
    }
    if !position.hands().has(position.mover(), card) {
        return Some(CardFault::NotInHand);
    }
    if position.is_legal(card) {
        None
    } else {
        Some(CardFault::Revoke)
    }
}
