//! What lines of the usual forms ask in a session.
ghost use Rattle.std.specs.Prelude.{◌≡◌, ◌<◌, ◌≤◌, Bool, length, Some, IfSome};
ghost use Rattle.dd_lines.specs.Line.{longest_line};
ghost use Rattle.dd_wire.specs.ParLines.{table_par_of};
ghost use Rattle.dd_wire.specs.ReadingPar.{fields_of, given_of};
ghost use Rattle.dd_wire.specs.Requests.{asked_as};
ghost use Rattle.dd_wire.specs.UsualLines.{AsksFetch, IsWanted, members_of, wait_of};
ghost use Rattle.dd_wire.specs.Wants.{MeansWant, submitted};

use crate::fault::Fault;
use crate::par_reader::{ParFields, table_par_asked};
use crate::session_asked::SessionAsked;
use crate::usual_asked::{fields_of_par, position_asked, wait_of};
use crate::usual_reader::{Fields, Task, absent, usual_fields};
use crate::want::Want;
use crate::wish::Wish;
use dd_request::Asked;
use std::str::from_utf8;

/// What a line of a usual form asks in a session, with leave to stop and without, or its first fault; None where it is of another
/// form.
pub(crate) fn usual_want(line: &[u8]) -> Option<Result<SessionAsked, Fault>>
    ensures text { IfSome result (λ _. 0 < length line.now) }
    ensures means { IfSome result (λ meaning. length line.now ≤ longest_line → (leave : Bool)
        → MeansWant leave line.now meaning) }
{
    let fields = usual_fields(line)?;
    from_utf8(line).ok()?;
    wanted_of(fields)
}

// What they ask where they are those of one form, and no others.
fn wanted_of(fields: Fields<'_>) -> Option<Result<SessionAsked, Fault>>
    ensures { IfSome result (IsWanted (members_of fields.entry)) }
{
    let wait = wait_of(fields.wait);
    match fields.task? {
        Task::Solve => Some(submitted(position_asked(fields)?, wait)),
        Task::Fetch => Some(Ok(fetched(fetched_job(&fields)?, wait))),
        Task::Par => Some(par_asked(fields_of_par(&fields)?)),
    }
}

// What is submitted, and how long its reply may wait.
fn submitted(asked: Result<Asked, Fault>, wait: u64) -> Result<SessionAsked, Fault>
    ensures { result ≡ asked_as (submitted wait) asked }
{
    let want = Want::Submit(asked?);
    Ok(SessionAsked::Book(Wish { want, wait }))
}

// The call for the state of a job.
fn fetched(job: u64, wait: u64) -> SessionAsked
    ensures { result ≡ SessionAsked.Book (record { want = Want.Fetch job; wait = wait }) }
{
    SessionAsked::Book(Wish {
        want: Want::Fetch(job),
        wait,
    })
}

// The number of the job whose state is asked for, where no field but it and its wait is there.
fn fetched_job(fields: &Fields<'_>) -> Option<u64>
    requires { fields.now.task ≡ Some Task.Fetch }
    ensures { IfSome result (AsksFetch (members_of fields.now) (wait_of fields.now.wait)) }
{
    absent(&fields.deal)?;
    absent(&fields.dealer)?;
    absent(&fields.first)?;
    absent(&fields.played)?;
    absent(&fields.side)?;
    absent(&fields.solutions)?;
    absent(&fields.table)?;
    absent(&fields.target)?;
    absent(&fields.trump)?;
    absent(&fields.vulnerable)?;
    fields.job
}

// Par of the results that these fields have, or their first fault.
fn par_asked(fields: ParFields<'_>) -> Result<SessionAsked, Fault>
    ensures { result ≡ asked_as SessionAsked.Par (table_par_of (given_of fields.entry.given)
        (fields_of fields.entry)) }
{
    Ok(SessionAsked::Par(table_par_asked(fields)?))
}
