//! What a session that ends leaves behind.
ghost use Rattle.std.specs.Prelude.{◌≡◌, ◌<◌, ◌≤◌, ◌∷◌, [], drop, length, slice_get, true, Err, MatchOption};
ghost use Rattle.dd_desk.specs.declared.fault.DeskFault.TheVariants.{OutOfMemory};
ghost use Rattle.dd_desk.specs.Looks.{IsToldIfOpen};
ghost use Rattle.dd_lines.specs.CountedDevices.{one_more};
ghost use Rattle.dd_session.specs.Leaving.{listed, own_jobs};
ghost use Rattle.dd_session.specs.GivingUp.{GivesUpAt};
ghost use Rattle.dd_session.specs.Ports.{told_in, told_of};

use crate::asking::new_job;
use crate::port::one_more;
use dd_book::{Call, Reply};
use dd_desk::{Desk, DeskFault, Naming, Pass, Receipt};
use std::sync::Wait;
use std::sync::atomic::{AtomicBool, Ordering};
use std::thread;
use std::time::{Clock, Duration};

/// How many milliseconds a session that leaves rests before it asks again.
const REST: u64 = 100;

/// How often it asks again, for all its jobs: for some ten seconds, as a worker does.
const MOST_RESTS: u32 = 100;

/// Cancels the jobs that the pass has submitted since it had so many receipts, each that has not
/// ended, and answers the count of refusals after it. Where memory is short it rests, holding
/// nothing, and asks again, until it is told to stop.
pub(crate) fn give_up_jobs<J: Naming, R: Wait + Clock>(
    rt: &R,
    desk: &Desk<J>,
    pass: &mut Pass<J>,
    before: usize,
    refusals: u64,
    stop: &AtomicBool,
) -> u64
    requires { before ≤ length pass.old.receipts }
    ensures { GivesUpAt J.limits (own_jobs (told_in (drop before pass.old.receipts)))
        pass.old refusals pass.new result }
{
    let count = pass.receipts().len();
    let mut refused = refusals;
    let mut rests = MOST_RESTS;
    for place in before..count {
        refused = give_up_at(rt, desk, pass, place, refused, stop, &mut rests);
    }
    refused
}

// The same for the job of one receipt, if that made one.
fn give_up_at<J: Naming, R: Wait + Clock>(
    rt: &R,
    desk: &Desk<J>,
    pass: &mut Pass<J>,
    place: usize,
    refusals: u64,
    stop: &AtomicBool,
    rests: &mut u32,
) -> u64
    requires { place < length pass.old.receipts }
    ensures { MatchOption (slice_get pass.old.receipts place) ⊥ (λ receipt.
        GivesUpAt J.limits (own_jobs (told_of receipt.call receipt.reply))
        pass.old refusals pass.new result) }
{
    match made_at(pass, place) {
        Some(job) => give_up(rt, desk, pass, job, refusals, stop, rests),
        None => refusals,
    }
}

// The job that the call of the receipt at this place made.
fn made_at<J: Naming>(pass: &Pass<J>, place: usize) -> Option<u64>
    requires { place < length pass.now.receipts }
    ensures { MatchOption (slice_get pass.now.receipts place) ⊥
        (λ receipt. own_jobs (told_of receipt.call receipt.reply) ≡ listed result) }
{
    made_by(&pass.receipts()[place])
}

// The job that the call of a receipt made.
fn made_by(receipt: &Receipt) -> Option<u64>
    ensures { own_jobs (told_of receipt.now.call receipt.now.reply) ≡ listed result }
{
    match receipt.call() {
        Call::Submit { .. } => new_job(receipt.reply()),
        Call::Claim { .. }
        | Call::Finish { .. }
        | Call::Cancel { .. }
        | Call::Fetch { .. }
        | Call::Shut => None,
    }
}

// Cancels a job of the pass, if it has not ended, and answers the count of refusals after it.
fn give_up<J: Naming, R: Wait + Clock>(
    rt: &R,
    desk: &Desk<J>,
    pass: &mut Pass<J>,
    job: u64,
    refusals: u64,
    stop: &AtomicBool,
    rests: &mut u32,
) -> u64
    ensures { GivesUpAt J.limits (job ∷ []) pass.old refusals pass.new result }
{
    match cancel(rt, desk, pass, job, stop, rests) {
        Ok(_) => refusals,
        Err(_) => one_more(refusals),
    }
}

// The cancel of a job that has not ended. Where memory is short it is made again after a rest, so often at most.
fn cancel<J: Naming, R: Wait + Clock>(
    rt: &R,
    desk: &Desk<J>,
    pass: &mut Pass<J>,
    job: u64,
    stop: &AtomicBool,
    rests: &mut u32,
) -> Result<Option<Reply>, DeskFault>
    ensures { IsToldIfOpen J.limits pass.old job result pass.new }
{
    for _ in 0..*rests {
        let told = desk.cancel_if_open(rt, pass, job);
        if !is_short(&told) || stop.load(Ordering::SeqCst) {
            return told;
        }
        *rests = rests.saturating_sub(1);
        thread::sleep(rt, Duration::from_millis(REST));
    }
    desk.cancel_if_open(rt, pass, job)
}

// Did the cancel find no memory?
fn is_short(told: &Result<Option<Reply>, DeskFault>) -> bool
    ensures { result ≡ true → told.now ≡ Err OutOfMemory }
{
    matches!(told, Err(DeskFault::OutOfMemory))
}
