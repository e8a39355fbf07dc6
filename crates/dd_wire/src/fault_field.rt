//! The field that a fault tells of.
ghost use Rattle.std.specs.Prelude.{◌≡◌, ◌≤◌, ◌&&◌, IfSome, None, Some, codes, is_some, length, not, option_map, if◌then◌else◌};
ghost use Rattle.std.specs.List.{list_any};
ghost use Rattle.std.specs.Str.{bytes_eq};
ghost use Rattle.serde_json.specs.View.{members_view};
ghost use Rattle.dd_wire.specs.FaultFields.{deal_alone, field_of, has_cards, has_key, has_number, has_text, keys_for, may_have_number, one_of_two, other_key, session_task, session_task_in, table_par_keys, task_in, task_of, told_key, want_field, wrong_field, wrong_for, wrong_in, wrong_known, wrong_of_call, wrong_of_par, wrong_of_play, wrong_of_solve, wrong_of_table, wrong_want};
ghost use Rattle.dd_wire.specs.ParLines.{first_in, given_in};
ghost use Rattle.dd_wire.specs.Requests.{pairs_at};

use crate::fault::Fault;
use crate::id::{LONGEST_PLAIN, is_plain};
use crate::par_reader::{first_in, given_in, is_par_key};
use crate::play_reader::{cards_at, is_play_key};
use crate::request_reader::{
    is_table_key, member_at, played_at, text_at, wait_at, whole_number_at,
};
use crate::target_reader::is_target_key;
use crate::want_reader::{is_fetch_key, is_job_key, is_task_key};
use serde_json::{Map, Value};

// What a line asks for, by its `do`.
#[derive(Clone, Copy)]
enum Task {
    Solve,
    Table,
    Play,
    Par,
    TablePar,
    Fetch,
    Cancel,
    Health,
    Stop,
}

/// The field that the fault of these members tells of in a session, if there is one.
#[tactic(auto, unfolding(crate::specs::FaultFields::want_field))]
pub(crate) fn want_field<'a>(
    object: &'a Map<String, Value>,
    allow_stop: bool,
    fault: Fault,
) -> Option<&'a str>
    ensures field { option_map (λ f. f.now) result ≡
        want_field allow_stop (members_view object.now.entries) fault }
    ensures bound { IfSome result (λ f. length f.now ≤ LONGEST_PLAIN) }
{
    match fault {
        Fault::WrongField => wrong_want(object, allow_stop),
        _ => field_of(object, fault),
    }
}

/// The field that the fault of these members tells of, if there is one.
#[tactic(auto, unfolding(crate::specs::FaultFields::field_of))]
pub(crate) fn field_of<'a>(object: &'a Map<String, Value>, fault: Fault) -> Option<&'a str>
    ensures field { option_map (λ f. f.now) result ≡ field_of (members_view object.now.entries) fault }
    ensures bound { IfSome result (λ f. length f.now ≤ LONGEST_PLAIN) }
{
    match fault {
        Fault::WrongField => wrong_field(object),
        Fault::DealText | Fault::HandLeftOut | Fault::NoCard | Fault::NotThirteen => Some("deal"),
        Fault::CardTwice | Fault::UnevenHands => deal_alone(object),
        Fault::WrongTrump => Some("trump"),
        Fault::WrongFirst => Some("first"),
        Fault::WrongPlayed => Some(one_of_two(object, "played", "cards")),
        Fault::WrongSolutions => Some("solutions"),
        Fault::WrongTarget => Some("target"),
        Fault::WrongOrder => Some(one_of_two(object, "dealer", "side")),
        Fault::WrongVulnerable => Some("vulnerable"),
        Fault::WrongResult => Some("table"),
        Fault::AfterLast | Fault::NotInHand | Fault::Revoke => Some("cards"),
        Fault::LineTooLong | Fault::NotAnObject | Fault::OutOfMemory => None,
    }
}

// The deal, where no cards were played that may be at fault too.
fn deal_alone(object: &Map<String, Value>) -> Option<&'static str>
    ensures field { option_map (λ f. f.now) result ≡ deal_alone (members_view object.now.entries) }
    ensures bound { IfSome result (λ f. length f.now ≤ LONGEST_PLAIN) }
{
    if has_key(object, "played") {
        None
    } else {
        Some("deal")
    }
}

// The second of two names where its field stands there alone, and else the first.
fn one_of_two(
    object: &Map<String, Value>,
    first: &'static str,
    second: &'static str,
) -> &'static str
    ensures field { result.now ≡ one_of_two (members_view object.now.entries) first.now second.now }
    ensures bound { length first.now ≤ LONGEST_PLAIN → length second.now ≤ LONGEST_PLAIN →
        length result.now ≤ LONGEST_PLAIN }
{
    if has_key(object, second) && !has_key(object, first) {
        second
    } else {
        first
    }
}

// ---- A field that is missing, unknown or of the wrong kind.

// The first such field of a line of the line tool.
#[tactic(auto, unfolding(crate::specs::FaultFields::wrong_field))]
fn wrong_field<'a>(object: &'a Map<String, Value>) -> Option<&'a str>
    ensures field { option_map (λ f. f.now) result ≡ wrong_field (members_view object.now.entries) }
    ensures bound { IfSome result (λ f. length f.now ≤ LONGEST_PLAIN) }
{
    wrong_in(object, task_in(object))
}

// The first such field of a line of a session.
#[tactic(auto, unfolding(crate::specs::FaultFields::wrong_want))]
fn wrong_want<'a>(object: &'a Map<String, Value>, allow_stop: bool) -> Option<&'a str>
    ensures field { option_map (λ f. f.now) result ≡
        wrong_want allow_stop (members_view object.now.entries) }
    ensures bound { IfSome result (λ f. length f.now ≤ LONGEST_PLAIN) }
{
    wrong_in(object, session_task_in(object, allow_stop))
}

// The first such field of this task, in the order in which they are looked for.
fn wrong_in<'a>(object: &'a Map<String, Value>, task: Option<Task>) -> Option<&'a str>
    ensures field { option_map (λ f. f.now) result ≡ wrong_in task (members_view object.now.entries) }
    ensures bound { IfSome result (λ f. length f.now ≤ LONGEST_PLAIN) }
{
    if wait_at(object).is_none() {
        return Some("wait");
    }
    match task {
        None => Some("do"),
        Some(task) => wrong_for(object, task),
    }
}

// The task of the members of a line of the line tool.
fn task_in(object: &Map<String, Value>) -> Option<Task>
    ensures { result ≡ task_in (members_view object.now.entries) }
{
    task_of(text_at(object, "do")?)
}

// The task of the members of a line of a session.
fn session_task_in(object: &Map<String, Value>, allow_stop: bool) -> Option<Task>
    ensures { result ≡ session_task_in allow_stop (members_view object.now.entries) }
{
    session_task(text_at(object, "do")?, allow_stop)
}

fn session_task(task: &str, allow_stop: bool) -> Option<Task>
    ensures { result ≡ session_task allow_stop task.now }
{
    match task {
        "fetch" => Some(Task::Fetch),
        "cancel" => Some(Task::Cancel),
        "health" => Some(Task::Health),
        "stop" => stop_task(allow_stop),
        "par" => Some(Task::TablePar),
        _ => task_of(task),
    }
}

// A stop, with leave.
fn stop_task(allow_stop: bool) -> Option<Task>
    ensures { result ≡ (if allow_stop then Some Task.Stop else None) }
{
    if allow_stop { Some(Task::Stop) } else { None }
}

fn task_of(task: &str) -> Option<Task>
    ensures { result ≡ task_of task.now }
{
    match task {
        "solve" => Some(Task::Solve),
        "table" => Some(Task::Table),
        "play" => Some(Task::Play),
        "par" => Some(Task::Par),
        _ => None,
    }
}

// The first key that is no field of the task, or else the first field that is missing or of the wrong kind.
fn wrong_for<'a>(object: &'a Map<String, Value>, task: Task) -> Option<&'a str>
    ensures field { option_map (λ f. f.now) result ≡ wrong_for (members_view object.now.entries) task }
    ensures bound { IfSome result (λ f. length f.now ≤ LONGEST_PLAIN) }
{
    match other_key(object, task) {
        Some(key) => told_key(key),
        None => wrong_known(object, task),
    }
}

// The first key that is no field of the task.
fn other_key<'a>(object: &'a Map<String, Value>, task: Task) -> Option<&'a str>
    ensures { option_map (λ key. key.now) result ≡
        other_key (keys_for task) (members_view object.now.entries) }
{
    let key = object.keys().find(|key| !is_key_of(task, key.as_str()))?;
    Some(key.as_str())
}

// Is the key the name of a field of the task?
fn is_key_of(task: Task, key: &str) -> bool
    ensures { result ≡ list_any (bytes_eq key.now) (keys_for task) }
{
    match task {
        Task::Solve => is_target_key(key),
        Task::Table => is_table_key(key),
        Task::Play => is_play_key(key),
        Task::Par => is_par_key(key),
        Task::TablePar => is_table_par_key(key),
        Task::Fetch => is_fetch_key(key),
        Task::Cancel => is_job_key(key),
        Task::Health | Task::Stop => is_task_key(key),
    }
}

// Is the key the name of a field of par in a session?
fn is_table_par_key(key: &str) -> bool
    ensures { result ≡ list_any (bytes_eq key.now) table_par_keys }
{
    matches!(key, "dealer" | "do" | "side" | "table" | "vulnerable")
}

// The key, if it is short and plain.
fn told_key(key: &str) -> Option<&str>
    ensures field { option_map (λ f. f.now) result ≡ told_key key.now }
    ensures bound { IfSome result (λ f. length f.now ≤ LONGEST_PLAIN) }
{
    if is_plain(key) { Some(key) } else { None }
}

// The first field of the task that is missing or of the wrong kind.
fn wrong_known(object: &Map<String, Value>, task: Task) -> Option<&'static str>
    ensures field { option_map (λ f. f.now) result ≡ wrong_known task (members_view object.now.entries) }
    ensures bound { IfSome result (λ f. length f.now ≤ LONGEST_PLAIN) }
{
    match task {
        Task::Solve => wrong_of_solve(object),
        Task::Table => wrong_of_table(object),
        Task::Play => wrong_of_play(object),
        Task::Par | Task::TablePar => wrong_of_par(object),
        Task::Fetch | Task::Cancel => wrong_of_call(object),
        Task::Health | Task::Stop => None,
    }
}

fn wrong_of_solve(object: &Map<String, Value>) -> Option<&'static str>
    ensures field { option_map (λ f. f.now) result ≡ wrong_of_solve (members_view object.now.entries) }
    ensures bound { IfSome result (λ f. length f.now ≤ LONGEST_PLAIN) }
{
    if !has_text(object, "deal") {
        Some("deal")
    } else if !has_number(object, "trump") {
        Some("trump")
    } else if !has_number(object, "first") {
        Some("first")
    } else if !has_played(object) {
        Some("played")
    } else if !has_number(object, "solutions") {
        Some("solutions")
    } else if !may_have_number(object, "target") {
        Some("target")
    } else {
        None
    }
}

fn wrong_of_table(object: &Map<String, Value>) -> Option<&'static str>
    ensures field { option_map (λ f. f.now) result ≡ wrong_of_table (members_view object.now.entries) }
    ensures bound { IfSome result (λ f. length f.now ≤ LONGEST_PLAIN) }
{
    if has_text(object, "deal") {
        None
    } else {
        Some("deal")
    }
}

fn wrong_of_play(object: &Map<String, Value>) -> Option<&'static str>
    ensures field { option_map (λ f. f.now) result ≡ wrong_of_play (members_view object.now.entries) }
    ensures bound { IfSome result (λ f. length f.now ≤ LONGEST_PLAIN) }
{
    if !has_text(object, "deal") {
        Some("deal")
    } else if !has_number(object, "trump") {
        Some("trump")
    } else if !has_number(object, "first") {
        Some("first")
    } else if !has_cards(object) {
        Some("cards")
    } else {
        None
    }
}

fn wrong_of_par(object: &Map<String, Value>) -> Option<&'static str>
    ensures field { option_map (λ f. f.now) result ≡ wrong_of_par (members_view object.now.entries) }
    ensures bound { IfSome result (λ f. length f.now ≤ LONGEST_PLAIN) }
{
    if given_in(object).is_none() {
        Some(one_of_two(object, "table", "deal"))
    } else if first_in(object).is_none() {
        Some(one_of_two(object, "dealer", "side"))
    } else if !has_number(object, "vulnerable") {
        Some("vulnerable")
    } else {
        None
    }
}

fn wrong_of_call(object: &Map<String, Value>) -> Option<&'static str>
    ensures field { option_map (λ f. f.now) result ≡ wrong_of_call (members_view object.now.entries) }
    ensures bound { IfSome result (λ f. length f.now ≤ LONGEST_PLAIN) }
{
    if has_number(object, "job") {
        None
    } else {
        Some("job")
    }
}

// ---- A member.

// Is a member of this key there?
fn has_key(object: &Map<String, Value>, key: &str) -> bool
    ensures { result ≡ has_key (members_view object.now.entries) key.now }
{
    member_at(object, key).is_some()
}

// Is a text there?
fn has_text(object: &Map<String, Value>, key: &str) -> bool
    ensures { result ≡ has_text (members_view object.now.entries) key.now }
{
    text_at(object, key).is_some()
}

// Is a whole number there?
fn has_number(object: &Map<String, Value>, key: &str) -> bool
    ensures { result ≡ has_number (members_view object.now.entries) key.now }
{
    whole_number_at(object, key).is_some()
}

// Is a whole number there, or nothing?
fn may_have_number(object: &Map<String, Value>, key: &str) -> bool
    ensures { result ≡ may_have_number (members_view object.now.entries) key.now }
{
    !has_key(object, key) || has_number(object, key)
}

// Is what was played a list of pairs, or left out?
fn has_played(object: &Map<String, Value>) -> bool
    ensures { result ≡ is_some (pairs_at (members_view object.now.entries) (codes "played")) }
{
    played_at(object).is_some()
}

// Are the cards of a play a list of pairs?
fn has_cards(object: &Map<String, Value>) -> bool
    ensures { result ≡ has_cards (members_view object.now.entries) }
{
    cards_at(object).is_some()
}
