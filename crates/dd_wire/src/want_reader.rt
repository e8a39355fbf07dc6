//! What the lines of a session want.
ghost use Rattle.std.specs.Prelude.{◌≡◌, ◌≢◌, ◌<◌, ◌≤◌, length, Ok, Err, IfOk, IfErr};
ghost use Rattle.std.specs.List.{list_any};
ghost use Rattle.std.specs.Str.{bytes_eq};
ghost use Rattle.serde_json.specs.View.{members_view};
ghost use Rattle.dd_wire.specs.Requests.{are_among, keys_of};
ghost use Rattle.dd_lines.specs.Line.{longest_line};
ghost use Rattle.dd_wire.specs.Wants.{MeansWant, MeansWanted, MeansUncalled, MeansOther, asks_health, session_call, named_job, is_alone, job_keys, fetch_keys, alone_keys};

use crate::fault::Fault;
use crate::par_reader::{par_fields, table_par_asked};
use crate::request_reader::{asked_by, read_object, text_at, wait_at, whole_number_at};
use crate::session_asked::SessionAsked;
use crate::usual_want::usual_want;
use crate::want::Want;
use crate::wish::Wish;
use dd_lines::LONGEST_LINE;
use serde_json::{Map, Value};
use std::alloc::Global;

/// What a line of a session asks, and how long its reply may wait, or the line's first fault; `OutOfMemory` where memory
/// ran out while the line was read as JSON. The line comes without its line end. Without `allow_stop` a stop is no more
/// known than any other word.
pub fn read_want(alloc: Global, line: &[u8], allow_stop: bool) -> Result<SessionAsked, Fault>
    ensures ok { IfOk result (λ asked. MeansWant allow_stop line.now (Ok asked)) }
    ensures err { IfErr result (λ fault. (fault ≢ Fault.OutOfMemory →
        MeansWant allow_stop line.now (Err fault))) }
    ensures memory { result ≡ Err Fault.OutOfMemory →
        (0 < length line.now) × (length line.now ≤ longest_line) }
{
    if line.len() > LONGEST_LINE {
        return Err(Fault::LineTooLong);
    }
    if let Some(meaning) = usual_want(line) {
        return meaning;
    }
    let object = read_object(alloc, line)?;
    let wait = wait_at(&object).ok_or(Fault::WrongField)?;
    let asked = wanted_by(&object, allow_stop, wait)?;
    Ok(asked)
}

// What the members of an object ask, with this wait, or their first fault.
pub(crate) fn wanted_by(
    object: &Map<String, Value>,
    allow_stop: bool,
    wait: u64,
) -> Result<SessionAsked, Fault>
    ensures { MeansWanted allow_stop wait (members_view object.now.entries) result }
{
    match session_call(object, allow_stop) {
        Some(want) => Ok(SessionAsked::Book(Wish { want, wait })),
        None => uncalled_asked(object, wait),
    }
}

// What members ask that are no call of a session alone, or their first fault: how the run is, or else another thing.
fn uncalled_asked(object: &Map<String, Value>, wait: u64) -> Result<SessionAsked, Fault>
    ensures { MeansUncalled wait (members_view object.now.entries) result }
{
    if asks_health(object) {
        Ok(SessionAsked::Health)
    } else {
        other_asked(object, wait)
    }
}

// Do the members ask how the run is, and no other field is there?
fn asks_health(object: &Map<String, Value>) -> bool
    ensures { result ≡ asks_health (members_view object.now.entries) }
{
    match text_at(object, "do") {
        Some("health") => is_alone(object),
        _ => false,
    }
}

// What other members ask, or their first fault: par, or else what is submitted.
fn other_asked(object: &Map<String, Value>, wait: u64) -> Result<SessionAsked, Fault>
    ensures { MeansOther wait (members_view object.now.entries) result }
{
    match par_fields(object) {
        Some(fields) => Ok(SessionAsked::Par(table_par_asked(fields)?)),
        None => {
            let want = Want::Submit(asked_by(object)?);
            Ok(SessionAsked::Book(Wish { want, wait }))
        }
    }
}

// The call of a session alone that the members stand for, if they do.
fn session_call(object: &Map<String, Value>, allow_stop: bool) -> Option<Want>
    ensures { result ≡ session_call allow_stop (members_view object.now.entries) }
{
    match text_at(object, "do")? {
        "cancel" => Some(Want::Cancel(cancelled_job(object)?)),
        "fetch" => Some(Want::Fetch(fetched_job(object)?)),
        "stop" if allow_stop && is_alone(object) => Some(Want::Stop),
        _ => None,
    }
}

// The number of the job that is to end, where no other field is there.
fn cancelled_job(object: &Map<String, Value>) -> Option<u64>
    ensures { result ≡ named_job job_keys (members_view object.now.entries) }
{
    if has_job_keys_alone(object) {
        whole_number_at(object, "job")
    } else {
        None
    }
}

// Is each key the name of a field of a call that names a job?
fn has_job_keys_alone(object: &Map<String, Value>) -> bool
    ensures { result ≡ are_among job_keys (keys_of (members_view object.now.entries)) }
{
    object.keys().all(|key| is_job_key(key))
}

pub(crate) fn is_job_key(key: &str) -> bool
    ensures { result ≡ list_any (bytes_eq key.now) job_keys }
{
    matches!(key, "do" | "job")
}

// The number of the job whose state is asked for, where no field but it and its wait is there.
fn fetched_job(object: &Map<String, Value>) -> Option<u64>
    ensures { result ≡ named_job fetch_keys (members_view object.now.entries) }
{
    if has_fetch_keys_alone(object) {
        whole_number_at(object, "job")
    } else {
        None
    }
}

// Is each key the name of a field of a fetch?
fn has_fetch_keys_alone(object: &Map<String, Value>) -> bool
    ensures { result ≡ are_among fetch_keys (keys_of (members_view object.now.entries)) }
{
    object.keys().all(|key| is_fetch_key(key))
}

pub(crate) fn is_fetch_key(key: &str) -> bool
    ensures { result ≡ list_any (bytes_eq key.now) fetch_keys }
{
    matches!(key, "do" | "job" | "wait")
}

// Does `do` stand there alone?
fn is_alone(object: &Map<String, Value>) -> bool
    ensures { result ≡ is_alone (members_view object.now.entries) }
{
    object.keys().all(|key| is_task_key(key))
}

pub(crate) fn is_task_key(key: &str) -> bool
    ensures { result ≡ list_any (bytes_eq key.now) alone_keys }
{
    key == "do"
}
