//! What a port is asked for.
ghost use Rattle.std.specs.Prelude.{◌≡◌, ◌<◌};
ghost use Rattle.dd_session.specs.Ports.{port_of};
ghost use Rattle.dd_session.specs.Serving.{Answers, new_job};

use crate::port::BookPort;
use dd_book::Reply;
use dd_desk::DeskFault;
use dd_request::Asked;
use dd_wire::{Want, Wish};

/// What the port says to a wish. A fetch may wait for the end of its job. A submit that may wait is followed by a fetch of
/// its job that does, whose reply is told; where that is refused the submit's reply is, so that the job isn't lost.
#[tactic(auto, using(crate::proofs::Answering::answers_at_once))]
pub(crate) fn ask_for<P: BookPort>(port: &mut P, wish: Wish) -> Result<Reply, DeskFault>
    ensures { Answers (port_of (P.told port.old) (P.refusals port.old)) wish result
        (port_of (P.told port.new) (P.refusals port.new)) }
{
    let Wish { want, wait } = wish;
    if wait == 0 {
        port.ask(want)
    } else {
        ask_and_wait(port, want, wait)
    }
}

// The same, where there is a wait.
fn ask_and_wait<P: BookPort>(port: &mut P, want: Want, wait: u64) -> Result<Reply, DeskFault>
    requires { 0 < wait }
    ensures { Answers (port_of (P.told port.old) (P.refusals port.old))
        record { want = want; wait = wait } result
        (port_of (P.told port.new) (P.refusals port.new)) }
{
    match want {
        Want::Submit(asked) => submit_and_fetch(port, asked, wait),
        Want::Cancel(job) => port.ask(Want::Cancel(job)),
        Want::Fetch(job) => port.fetch_within(job, wait),
        Want::Stop => port.ask(Want::Stop),
    }
}

// A submit, and where it made a job, a fetch of it.
#[tactic(auto, using(crate::proofs::Answering::answers_no_job))]
fn submit_and_fetch<P: BookPort>(port: &mut P, asked: Asked, wait: u64) -> Result<Reply, DeskFault>
    requires { 0 < wait }
    ensures { Answers (port_of (P.told port.old) (P.refusals port.old))
        record { want = Want.Submit asked; wait = wait } result
        (port_of (P.told port.new) (P.refusals port.new)) }
{
    let made = match port.ask(Want::Submit(asked)) {
        Ok(made) => made,
        Err(fault) => return Err(fault),
    };
    let Some(job) = new_job(&made) else {
        return Ok(made);
    };
    match port.fetch_within(job, wait) {
        Ok(state) => Ok(state),
        Err(_) => Ok(made),
    }
}

/// The job that a reply tells of as new.
pub(crate) fn new_job(reply: &Reply) -> Option<u64>
    ensures { result ≡ new_job reply.now }
{
    match reply {
        Reply::Submitted(job) => Some(*job),
        Reply::Claimed { .. }
        | Reply::ClaimedTarget { .. }
        | Reply::ClaimedPart { .. }
        | Reply::ClaimedPlayPart { .. }
        | Reply::NothingWaits
        | Reply::Closing
        | Reply::Recorded
        | Reply::Stale
        | Reply::Cancelled(_)
        | Reply::State(_, _)
        | Reply::Shut
        | Reply::Fault(_) => None,
    }
}
