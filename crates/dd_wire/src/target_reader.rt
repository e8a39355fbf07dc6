//! Requests with a target: those to solve with one field more.
ghost use Rattle.std.specs.Prelude.{◌≡◌, ◌≤◌, ◌↔◌, ℕ, List, Result, length, None, IsSome, IfSome, MatchOption};
ghost use Rattle.std.specs.List.{list_any};
ghost use Rattle.std.specs.Str.{bytes_eq};
ghost use Rattle.serde_json.specs.View.{members_view};
ghost use Rattle.dd_play.specs.Board.{board_of};
ghost use Rattle.dd_request.specs.Targets.{TargetQuestion};
ghost use Rattle.dd_wire.specs.Requests.{MeansTargetFields, MeansTargetHands, MeansBoard, asked_as, target_keys, are_among, keys_of, target_fields};
ghost use Rattle.dd_wire.specs.Reading.{ArePlayed, ReadsTarget, played_in, target_fields_of};

use crate::fault::Fault;
use crate::request_reader::{
    SolveFields, hands_of, known_fields, play_fault, seat_of, strain_of, whole_number_at,
};
use dd_cards::{Card, Hands, Seat, Strain};
use dd_play::Position;
use dd_request::{Asked, GREATEST_TARGET, TargetRequest};
use serde_json::{Map, Value};

// The fields of a request to solve, with a target.
#[derive(Drop)]
pub(crate) struct TargetFields<'a> {
    pub(crate) solve: SolveFields<'a>,
    pub(crate) target: u64,
}

// The fields, where all of them and a target are there, each of its kind, and no other is.
pub(crate) fn target_fields(object: &Map<String, Value>) -> Option<TargetFields<'_>>
    ensures { let read = target_fields (members_view object.now.entries) in
        MatchOption result (read ≡ None) (ReadsTarget read) }
{
    if !has_target_keys_alone(object) {
        return None;
    }
    Some(TargetFields {
        solve: known_fields(object)?,
        target: whole_number_at(object, "target")?,
    })
}

// Is each key the name of a field of a request with a target?
fn has_target_keys_alone(object: &Map<String, Value>) -> bool
    ensures { result ≡ are_among target_keys (keys_of (members_view object.now.entries)) }
{
    object.keys().all(|key| is_target_key(key))
}

pub(crate) fn is_target_key(key: &str) -> bool
    ensures { result ≡ list_any (bytes_eq key.now) target_keys }
{
    matches!(
        key,
        "deal" | "do" | "first" | "played" | "solutions" | "target" | "trump" | "wait"
    )
}

// What the fields ask, or their first fault.
pub(crate) fn target_asked(fields: &TargetFields<'_>) -> Result<Asked, Fault>
    ensures { (pairs : List (ℕ × ℕ)) → ArePlayed (played_in fields.now.solve) pairs →
        (asked : Result TargetQuestion Fault) ×
        MeansTargetFields (target_fields_of fields.now pairs) asked ×
        (result ≡ asked_as Asked.Target asked) }
{
    let request = request_of(fields)?;
    Ok(Asked::Target(request))
}

// The request that the fields make, or their first fault.
fn request_of(fields: &TargetFields<'_>) -> Result<TargetRequest, Fault>
    ensures { (pairs : List (ℕ × ℕ)) → ArePlayed (played_in fields.now.solve) pairs →
        MeansTargetFields (target_fields_of fields.now pairs) result }
{
    let hands = hands_of(fields.solve.deal.as_bytes())?;
    request_for(hands, fields)
}

// The same, of these hands.
fn request_for(hands: Hands, fields: &TargetFields<'_>) -> Result<TargetRequest, Fault>
    ensures { (pairs : List (ℕ × ℕ)) → ArePlayed (played_in fields.now.solve) pairs →
        MeansTargetHands (target_fields_of fields.now pairs) hands result }
{
    let strain = strain_of(fields.solve.trump).ok_or(Fault::WrongTrump)?;
    let first = seat_of(fields.solve.first).ok_or(Fault::WrongFirst)?;
    let trick = fields.solve.played.as_ref().ok_or(Fault::WrongPlayed)?;
    let solutions = solutions_of(fields.solve.solutions).ok_or(Fault::WrongSolutions)?;
    let target = target_of(fields.target).ok_or(Fault::WrongTarget)?;
    request(hands, strain, first, trick.as_slice(), target, solutions)
}

// With a target not every card can be asked for.
fn solutions_of(code: u64) -> Option<u8>
    ensures valid { IsSome result ↔ ((1 ≤ code) × (code ≤ 2)) }
    ensures value { IfSome result (λ solutions. solutions ≡ code) }
{
    match code {
        1..=2 => Some(code as u8),
        _ => None,
    }
}

fn target_of(code: u64) -> Option<u8>
    ensures valid { IsSome result ↔ (code ≤ 13) }
    ensures value { IfSome result (λ target. target ≡ code) }
{
    if code <= GREATEST_TARGET as u64 {
        Some(code as u8)
    } else {
        None
    }
}

// The request for these hands and these cards on the trick, or the first fault of the cards together.
fn request(
    hands: Hands,
    strain: Strain,
    first: Seat,
    trick: &[Card],
    target: u8,
    solutions: u8,
) -> Result<TargetRequest, Fault>
    requires trick { length trick.now ≤ 3 }
    requires solutions { (1 ≤ solutions) × (solutions ≤ 2) }
    requires target { target ≤ 13 }
    ensures { let board = board_of hands strain first trick.now in
        MeansBoard board (record { board = board; target = target; solutions = solutions }) result }
{
    let position = Position::new(hands, strain, first, trick).map_err(play_fault)?;
    Ok(TargetRequest::of(position, target, solutions))
}
