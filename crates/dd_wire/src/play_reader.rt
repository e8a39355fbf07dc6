//! Lines that ask for a play.
ghost use Rattle.std.specs.Prelude.{◌≡◌, ◌<◌, ◌≤◌, ℕ, List, Result, [], ◌∷◌, ◌++◌, codes, None, Err, MatchOption, option_and_then, length};
ghost use Rattle.std.specs.List.{list_any};
ghost use Rattle.std.specs.Str.{bytes_eq};
ghost use Rattle.serde_json.specs.Find.{get_member};
ghost use Rattle.serde_json.specs.View.{items_view, members_view, view};
ghost use Rattle.dd_cards.specs.Hands.{AreHands};
ghost use Rattle.dd_play.specs.Board.{board_of};
ghost use Rattle.dd_play.specs.Positions.{CanPlay};
ghost use Rattle.dd_wire.specs.PlayLines.{MeansPlay, MeansPlayed, MeansPlayFields, card_fault, list_of_pairs, play_fields, play_keys};
ghost use Rattle.dd_wire.specs.ReadingPlay.{AreCards, ReadsCards, ReadsFields, cards_kept, fields_of, list_in};
ghost use Rattle.dd_wire.specs.Requests.{are_among, keys_of, pairs_of};

use crate::fault::Fault;
use crate::request_reader::{
    card_of, hands_of, member_at, pair_of, play_fault, seat_of, strain_of, text_at, whole_number_at,
};
use arrayvec::ArrayVec;
use dd_cards::{Card, Hands, Seat, Strain};
use dd_play::Position;
use dd_request::{CardFault, MOST_CARDS, PlayRequest};
use serde_json::{Map, Value};

// ---- The fields, as JSON has them.

// The cards of a play.
pub(crate) type Cards = ArrayVec<Card, MOST_CARDS>;

// The fields of a request for a play. There are no cards where the pairs that stand for them are none of a play: that is a
// fault, and others go before it.
#[derive(Drop)]
pub(crate) struct PlayFields<'a> {
    deal: &'a str,
    trump: u64,
    first: u64,
    cards: Option<Cards>,
}

// The fields, where all of them are there, each of its kind, and no other is.
pub(crate) fn play_fields(object: &Map<String, Value>) -> Option<PlayFields<'_>>
    ensures { let read = play_fields (members_view object.now.entries) in
        MatchOption result (read ≡ None) (ReadsFields read) }
{
    if !has_play_keys_alone(object) || text_at(object, "do")? != "play" {
        return None;
    }
    Some(PlayFields {
        deal: text_at(object, "deal")?,
        trump: whole_number_at(object, "trump")?,
        first: whole_number_at(object, "first")?,
        cards: cards_at(object)?,
    })
}

// Is each key the name of a field of a request for a play?
fn has_play_keys_alone(object: &Map<String, Value>) -> bool
    ensures { result ≡ are_among play_keys (keys_of (members_view object.now.entries)) }
{
    object.keys().all(|key| is_play_key(key))
}

pub(crate) fn is_play_key(key: &str) -> bool
    ensures { result ≡ list_any (bytes_eq key.now) play_keys }
{
    matches!(key, "cards" | "deal" | "do" | "first" | "trump" | "wait")
}

// The cards of the play: None where they are left out or no list of pairs.
pub(crate) fn cards_at(object: &Map<String, Value>) -> Option<Option<Cards>>
    ensures { let read = option_and_then list_of_pairs
        (get_member (codes "cards") (members_view object.now.entries)) in
        MatchOption result (read ≡ None) (λ found. ReadsCards read (list_in found)) }
{
    cards_of(member_at(object, "cards")?.as_array()?.as_slice())
}

// The cards of a list of pairs: None where it is no such list.
fn cards_of(values: &[Value]) -> Option<Option<Cards>>
    ensures { let read = pairs_of (items_view values.now) in
        MatchOption result (read ≡ None) (λ found. ReadsCards read (list_in found)) }
{
    let mut cards = Some(ArrayVec::new());
    for value in values {
        let (suit, rank) = pair_of(value)?;
        cards = with_pair(cards, suit, rank);
    }
    Some(cards)
}

// The cards with that of one more pair.
fn with_pair(cards: Option<Cards>, suit: u64, rank: u64) -> Option<Cards>
    ensures { (pairs : List (ℕ × ℕ)) → AreCards (list_in cards) pairs →
        AreCards (list_in result) (pairs ++ (suit, rank) ∷ []) }
{
    let mut cards = cards?;
    let card = card_of(suit, rank)?;
    if cards.is_full() {
        return None;
    }
    cards.push(card);
    Some(cards)
}

// ---- What the fields ask.

// What the fields ask, or their first fault.
pub(crate) fn play_asked(fields: &PlayFields<'_>) -> Result<PlayRequest, Fault>
    ensures { (pairs : List (ℕ × ℕ)) → AreCards (cards_kept fields.now) pairs →
        MeansPlayFields (fields_of fields.now pairs) result }
{
    let hands = hands_of(fields.deal.as_bytes())?;
    play_of_hands(hands, fields)
}

// What the fields ask of these hands, or their first fault.
fn play_of_hands(hands: Hands, fields: &PlayFields<'_>) -> Result<PlayRequest, Fault>
    requires { AreHands hands }
    ensures { (pairs : List (ℕ × ℕ)) → AreCards (cards_kept fields.now) pairs →
        MeansPlayed (fields_of fields.now pairs) hands result }
{
    let strain = strain_of(fields.trump).ok_or(Fault::WrongTrump)?;
    let first = seat_of(fields.first).ok_or(Fault::WrongFirst)?;
    let cards = fields.cards.as_ref().ok_or(Fault::WrongPlayed)?;
    play_request(hands, strain, first, cards.as_slice())
}

// The request for the play of these cards from these hands, or the first fault of hands and cards together.
fn play_request(
    hands: Hands,
    strain: Strain,
    first: Seat,
    cards: &[Card],
) -> Result<PlayRequest, Fault>
    requires { AreHands hands }
    ensures { MeansPlay (record { opening = board_of hands strain first []; cards = cards.now }) result }
{
    let opening = Position::new(hands, strain, first, &[]).map_err(play_fault)?;
    regular_play(opening, cards)
}

// The play of these cards from this opening, or the fault of the first that may not be played in its turn.
fn regular_play(opening: Position, cards: &[Card]) -> Result<PlayRequest, Fault>
    requires play { CanPlay opening }
    requires start { opening.trick ≡ [] }
    ensures { MeansPlay (record { opening = opening; cards = cards.now }) result }
{
    PlayRequest::new(opening, cards).map_err(card_fault)
}

fn card_fault(fault: CardFault) -> Fault
    ensures { result ≡ card_fault fault }
{
    match fault {
        CardFault::AfterLast => Fault::AfterLast,
        CardFault::NotInHand => Fault::NotInHand,
        CardFault::Revoke => Fault::Revoke,
    }
}
