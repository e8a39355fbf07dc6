ghost use Rattle.std.specs.Prelude.{◌≡◌, ◌≢◌, ◌<◌, ◌≤◌, ◌⊎◌, ◌↔◌, ℕ, List, Result, [], ◌∷◌, ◌++◌, codes, option_map, length, None, Some, Ok, Err, IsSome, IfSome, IfOk, IfErr, MatchOption};
ghost use Rattle.std.specs.List.{list_any};
ghost use Rattle.std.specs.Str.{bytes_eq};
ghost use Rattle.serde_json.specs.Errors.{IsMemory};
ghost use Rattle.serde_json.specs.Find.{as_object, get_member};
ghost use Rattle.serde_json.specs.View.{view, items_view, members_view};
ghost use Rattle.dd_cards.specs.Ranks.{IsRank};
ghost use Rattle.dd_cards.specs.Seats.{seat_code};
ghost use Rattle.dd_cards.specs.Strains.{strain_code};
ghost use Rattle.dd_cards.specs.Hands.{AreHands, FourHands};
ghost use Rattle.dd_pbn.specs.declared.fault.PbnFault.{PbnFault};
ghost use Rattle.dd_play.specs.Board.{board_of};
ghost use Rattle.dd_request.specs.Questions.{Question};
ghost use Rattle.dd_wire.specs.Lines.{Means, MeansMembers};
ghost use Rattle.dd_wire.specs.PlayLines.{MeansAsked};
ghost use Rattle.dd_wire.specs.Requests.{MeansObject, MeansDeal, MeansTable, MeansFields, MeansHands, MeansBoard, MeansSolve, MeansPosition, question, known_fields, SpellsDeal, SpellsNone, asked_as, deal_fault, pair_of_card, object_of, solve_keys, table_keys, are_among, keys_of, solve_fields, table_deal, text_at, wait_at, whole_number_at, pairs_at, pairs_of};
ghost use Rattle.dd_lines.specs.Line.{longest_line};
ghost use Rattle.dd_wire.specs.Reading.{IsUnread, ArePlayed, ReadsPlayed, ReadsFields, pair_in, cards_in, played_in, fields_of, play_fault};

use crate::fault::Fault;
use crate::line_asked::LineAsked;
use crate::par_reader::{par_asked, par_fields};
use crate::play_reader::{play_asked, play_fields};
use crate::target_reader::{target_asked, target_fields};
use crate::usual_asked::usual_asked;
use crate::wish::LONGEST_WAIT;
use arrayvec::ArrayVec;
use dd_cards::{Card, Hands, Rank, Seat, Strain, Suit};
use dd_lines::LONGEST_LINE;
use dd_pbn::{PbnFault, begins_tag, read_deal, read_tag};
use dd_play::{PlayFault, Position};
use dd_request::{Asked, Request, TableRequest};
use serde_json::{Error, Map, Value};
use std::alloc::Global;

// The most cards that lie on a trick before it is complete.
pub(crate) const MOST_PLAYED: usize = 3;

/// What a request line asks, or the line's first fault; `OutOfMemory` where memory ran out while the line was read as
/// JSON. The line comes without its line end.
pub fn read_request(alloc: Global, line: &[u8]) -> Result<LineAsked, Fault>
    ensures ok { IfOk result (λ asked. Means line.now (Ok asked)) }
    ensures err { IfErr result (λ fault. (fault ≢ Fault.OutOfMemory → Means line.now (Err fault))) }
    ensures memory { result ≡ Err Fault.OutOfMemory →
        (0 < length line.now) × (length line.now ≤ longest_line) }
{
    if line.len() > LONGEST_LINE {
        return Err(Fault::LineTooLong);
    }
    if let Some(meaning) = usual_asked(line) {
        return meaning;
    }
    let object = read_object(alloc, line)?;
    wait_at(&object).ok_or(Fault::WrongField)?;
    let asked = line_asked_by(&object)?;
    Ok(asked)
}

// What the members of an object ask, or their first fault: par, or else what a job book takes too.
pub(crate) fn line_asked_by(object: &Map<String, Value>) -> Result<LineAsked, Fault>
    ensures { MeansMembers (members_view object.now.entries) result }
{
    match par_fields(object) {
        Some(fields) => par_asked(fields),
        None => Ok(LineAsked::Cards(asked_by(object)?)),
    }
}

// What the members of an object ask that a job book takes, or their first fault: a play, or else a table or cards of a position.
pub(crate) fn asked_by(object: &Map<String, Value>) -> Result<Asked, Fault>
    ensures { MeansAsked (members_view object.now.entries) result }
{
    match play_fields(object) {
        Some(fields) => Ok(Asked::Play(play_asked(&fields)?)),
        None => object_asked(object),
    }
}

// What they ask that don't ask for a play: a table, or else cards of a position.
fn object_asked(object: &Map<String, Value>) -> Result<Asked, Fault>
    ensures { MeansObject (members_view object.now.entries) result }
{
    match table_deal(object) {
        Some(deal) => table_asked(deal),
        None => position_asked(object),
    }
}

// ---- The line as JSON.

// The line as a JSON object.
pub(crate) fn read_object(alloc: Global, line: &[u8]) -> Result<Map<String, Value>, Fault>
    ensures ok { IfOk result (λ object. object_of line.now ≡ Some (members_view object.entries)) }
    ensures err { IfErr result (IsUnread line.now) }
{
    match read_json(alloc, line)? {
        Value::Object(object) => Ok(object),
        _other => Err(Fault::NotAnObject),
    }
}

// The line as JSON.
fn read_json(alloc: Global, line: &[u8]) -> Result<Value, Fault>
    ensures ok { IfOk result (λ value. object_of line.now ≡ as_object (view value)) }
    ensures err { IfErr result (IsUnread line.now) }
{
    Value::from_slice(alloc, line).map_err(fault_of)
}

// Why a line is not read as JSON.
fn fault_of(error: Error) -> Fault
    ensures { (IsMemory error × (result ≡ Fault.OutOfMemory)) ⊎
        ((¬ IsMemory error) × (result ≡ Fault.NotAnObject)) }
{
    if error.is_memory() {
        Fault::OutOfMemory
    } else {
        Fault::NotAnObject
    }
}

// ---- The fields, as JSON has them.

// The cards on a trick that isn't complete.
pub(crate) type Played = ArrayVec<Card, MOST_PLAYED>;

// The fields of a request to solve. There are no cards played where the pairs that stand for them are none of such
// cards: that is a fault, and others go before it.
#[derive(Drop)]
pub(crate) struct SolveFields<'a> {
    pub(crate) deal: &'a str,
    pub(crate) trump: u64,
    pub(crate) first: u64,
    pub(crate) played: Option<Played>,
    pub(crate) solutions: u64,
}

// The text of the deal whose table is asked for, where it is there and no other field is.
fn table_deal(object: &Map<String, Value>) -> Option<&str>
    ensures { option_map (λ text. text.now) result ≡ table_deal (members_view object.now.entries) }
{
    if !has_table_keys_alone(object) || text_at(object, "do")? != "table" {
        return None;
    }
    text_at(object, "deal")
}

// Is each key the name of a field of a request for a table?
fn has_table_keys_alone(object: &Map<String, Value>) -> bool
    ensures { result ≡ are_among table_keys (keys_of (members_view object.now.entries)) }
{
    object.keys().all(|key| is_table_key(key))
}

pub(crate) fn is_table_key(key: &str) -> bool
    ensures { result ≡ list_any (bytes_eq key.now) table_keys }
{
    matches!(key, "deal" | "do" | "wait")
}

// The fields, where all of them are there, each of its kind, and no other is.
fn solve_fields(object: &Map<String, Value>) -> Option<SolveFields<'_>>
    ensures { let read = solve_fields (members_view object.now.entries) in
        MatchOption result (read ≡ None) (ReadsFields read) }
{
    if has_solve_keys_alone(object) {
        known_fields(object)
    } else {
        None
    }
}

// The fields, where all of them are there, each of its kind, whatever others are.
pub(crate) fn known_fields(object: &Map<String, Value>) -> Option<SolveFields<'_>>
    ensures { let read = known_fields (members_view object.now.entries) in
        MatchOption result (read ≡ None) (ReadsFields read) }
{
    if text_at(object, "do")? != "solve" {
        return None;
    }
    Some(SolveFields {
        deal: text_at(object, "deal")?,
        trump: whole_number_at(object, "trump")?,
        first: whole_number_at(object, "first")?,
        played: played_at(object)?,
        solutions: whole_number_at(object, "solutions")?,
    })
}

// Is each key the name of a field of a request to solve?
fn has_solve_keys_alone(object: &Map<String, Value>) -> bool
    ensures { result ≡ are_among solve_keys (keys_of (members_view object.now.entries)) }
{
    object.keys().all(|key| is_solve_key(key))
}

fn is_solve_key(key: &str) -> bool
    ensures { result ≡ list_any (bytes_eq key.now) solve_keys }
{
    matches!(
        key,
        "deal" | "do" | "first" | "played" | "solutions" | "trump" | "wait"
    )
}

pub(crate) fn text_at<'a>(object: &'a Map<String, Value>, key: &str) -> Option<&'a str>
    ensures { option_map (λ text. text.now) result ≡
        text_at (members_view object.now.entries) key.now }
{
    member_at(object, key)?.as_str()
}

// The whole number at this key, written with digits alone.
pub(crate) fn whole_number_at(object: &Map<String, Value>, key: &str) -> Option<u64>
    ensures { result ≡ whole_number_at (members_view object.now.entries) key.now }
{
    member_at(object, key)?.as_u64()
}

// How many milliseconds the reply may wait, which may be left out: None where it is no whole number.
pub(crate) fn wait_at(object: &Map<String, Value>) -> Option<u64>
    ensures { result ≡ wait_at (members_view object.now.entries) }
{
    match member_at(object, "wait") {
        None => Some(0),
        Some(value) => Some(value.as_u64()?.min(LONGEST_WAIT)),
    }
}

// The cards played, which may be left out: None where they are no list of pairs.
pub(crate) fn played_at(object: &Map<String, Value>) -> Option<Option<Played>>
    ensures { let read = pairs_at (members_view object.now.entries) (codes "played") in
        MatchOption result (read ≡ None) (λ found. ReadsPlayed read (cards_in found)) }
{
    let Some(value) = member_at(object, "played") else {
        return Some(Some(ArrayVec::new()));
    };
    played_of(value.as_array()?.as_slice())
}

// The cards of a list of pairs: None where it is no such list.
fn played_of(values: &[Value]) -> Option<Option<Played>>
    ensures { let read = pairs_of (items_view values.now) in
        MatchOption result (read ≡ None) (λ found. ReadsPlayed read (cards_in found)) }
{
    let mut played = Some(ArrayVec::new());
    for value in values {
        let (suit, rank) = pair_of(value)?;
        played = with_pair(played, suit, rank);
    }
    Some(played)
}

// The cards with that of one more pair.
pub(crate) fn with_pair(played: Option<Played>, suit: u64, rank: u64) -> Option<Played>
    ensures { (pairs : List (ℕ × ℕ)) → ArePlayed (cards_in played) pairs →
        ArePlayed (cards_in result) (pairs ++ (suit, rank) ∷ []) }
{
    let mut cards = played?;
    let card = card_of(suit, rank)?;
    if cards.is_full() {
        return None;
    }
    cards.push(card);
    Some(cards)
}

// The two whole numbers of a list of exactly two.
pub(crate) fn pair_of(value: &Value) -> Option<(u64, u64)>
    ensures { result ≡ pair_in value.now }
{
    match value.as_array()?.as_slice() {
        [suit, rank] => Some((suit.as_u64()?, rank.as_u64()?)),
        _ => None,
    }
}

pub(crate) fn member_at<'a>(object: &'a Map<String, Value>, key: &str) -> Option<&'a Value>
    ensures { option_map (λ value. view value.now) result ≡
        get_member key.now (members_view object.now.entries) }
{
    object.get(key)
}

// ---- What the fields ask.

// What is asked of the deal of this text, whose table is asked for, or the first fault.
fn table_asked(deal: &str) -> Result<Asked, Fault>
    ensures { (asked : Result FourHands Fault) × MeansDeal deal.now MeansTable asked ×
        (result ≡ asked_as Asked.Table asked) }
{
    let hands = hands_of(deal.as_bytes())?;
    let request = table_request(hands)?;
    Ok(Asked::Table(request))
}

// What is asked of these hands, whose table is asked for, or their fault.
pub(crate) fn table_request(hands: Hands) -> Result<TableRequest, Fault>
    ensures { MeansTable hands result }
{
    TableRequest::new(hands).map_err(play_fault)
}

// What is asked of a position, with a target or without, or the first fault of the fields.
fn position_asked(object: &Map<String, Value>) -> Result<Asked, Fault>
    ensures { MeansPosition (members_view object.now.entries) result }
{
    match target_fields(object) {
        Some(fields) => target_asked(&fields),
        None => solve_asked(object),
    }
}

// What is asked of a position, or the first fault of the fields.
fn solve_asked(object: &Map<String, Value>) -> Result<Asked, Fault>
    ensures { MeansSolve (members_view object.now.entries) result }
{
    let fields = solve_fields(object).ok_or(Fault::WrongField)?;
    let request = request_of(&fields)?;
    Ok(Asked::Solve(request))
}

// What the fields ask, or their first fault.
pub(crate) fn request_of(fields: &SolveFields<'_>) -> Result<Request, Fault>
    ensures { (pairs : List (ℕ × ℕ)) → ArePlayed (played_in fields.now) pairs →
        MeansFields (fields_of fields.now pairs) result }
{
    let hands = hands_of(fields.deal.as_bytes())?;
    request_for(hands, fields)
}

// What the fields ask of these hands, or their first fault.
fn request_for(hands: Hands, fields: &SolveFields<'_>) -> Result<Request, Fault>
    ensures { (pairs : List (ℕ × ℕ)) → ArePlayed (played_in fields.now) pairs →
        MeansHands (fields_of fields.now pairs) hands result }
{
    let strain = strain_of(fields.trump).ok_or(Fault::WrongTrump)?;
    let first = seat_of(fields.first).ok_or(Fault::WrongFirst)?;
    let trick = fields.played.as_ref().ok_or(Fault::WrongPlayed)?;
    let solutions = solutions_of(fields.solutions).ok_or(Fault::WrongSolutions)?;
    request(hands, strain, first, trick.as_slice(), solutions)
}

// The hands of a deal's text, which is a tag where it begins as one, and else a value.
pub(crate) fn hands_of(text: &[u8]) -> Result<Hands, Fault>
    ensures ok { IfOk result (λ hands. AreHands hands × SpellsDeal text.now hands) }
    ensures err { IfErr result (λ fault. (why : PbnFault) × SpellsNone text.now why ×
        (fault ≡ deal_fault why)) }
{
    read_text(text).map_err(deal_fault)
}

// The same, with the fault as the text has it.
fn read_text(text: &[u8]) -> Result<Hands, PbnFault>
    ensures ok { IfOk result (λ hands. AreHands hands × SpellsDeal text.now hands) }
    ensures err { IfErr result (SpellsNone text.now) }
{
    if begins_tag(text) {
        read_tag(text)
    } else {
        read_deal(text)
    }
}

fn deal_fault(fault: PbnFault) -> Fault
    ensures { result ≡ deal_fault fault }
{
    match fault {
        PbnFault::Grammar => Fault::DealText,
        PbnFault::Absent => Fault::HandLeftOut,
        PbnFault::Twice => Fault::CardTwice,
    }
}

pub(crate) fn strain_of(code: u64) -> Option<Strain>
    ensures valid { IsSome result ↔ (code ≤ 4) }
    ensures value { IfSome result (λ strain. strain_code strain ≡ code) }
{
    Strain::from_code(u8::try_from(code).ok()?)
}

pub(crate) fn seat_of(code: u64) -> Option<Seat>
    ensures valid { IsSome result ↔ (code < 4) }
    ensures value { IfSome result (λ seat. seat_code seat ≡ code) }
{
    Seat::from_code(u8::try_from(code).ok()?)
}

pub(crate) fn card_of(suit: u64, rank: u64) -> Option<Card>
    ensures valid { IsSome result ↔ ((suit < 4) × IsRank rank) }
    ensures value { IfSome result (λ card. pair_of_card card ≡ (suit, rank)) }
{
    Some(Card {
        suit: Suit::from_code(u8::try_from(suit).ok()?)?,
        rank: Rank::from_code(u8::try_from(rank).ok()?)?,
    })
}

fn solutions_of(code: u64) -> Option<u8>
    ensures valid { IsSome result ↔ ((1 ≤ code) × (code ≤ 3)) }
    ensures value { IfSome result (λ solutions. solutions ≡ code) }
{
    match code {
        1..=3 => Some(code as u8),
        _ => None,
    }
}

// ---- The position.

// The request for these hands and these cards on the trick, or the first fault of the cards together.
fn request(
    hands: Hands,
    strain: Strain,
    first: Seat,
    trick: &[Card],
    solutions: u8,
) -> Result<Request, Fault>
    requires { (length trick.now ≤ 3) × (1 ≤ solutions) × (solutions ≤ 3) }
    ensures { let board = board_of hands strain first trick.now in
        MeansBoard board (question solutions board) result }
{
    let position = Position::new(hands, strain, first, trick).map_err(play_fault)?;
    Ok(Request::of(position, solutions))
}

pub(crate) fn play_fault(fault: PlayFault) -> Fault
    ensures { result ≡ play_fault fault }
{
    match fault {
        PlayFault::Played => Fault::WrongPlayed,
        PlayFault::Twice => Fault::CardTwice,
        PlayFault::Uneven => Fault::UnevenHands,
        PlayFault::Empty => Fault::NoCard,
    }
}
