//! Two workers at one desk, side by side.
ghost use Rattle.std.specs.Prelude.{◌≡◌, map};
ghost use Rattle.once_cell.specs.Once.{cell_name};

use crate::desk::worked::counted;
use crate::work::lines::{
    BEHIND, BEHIND_ANSWER, CAUGHT, CAUGHT_ANSWER, RUFFED, RUFFED_ANSWER, SUITS, SUITS_ANSWER,
};
use crate::work::worked::{ask, enrol};
use dd_book::Limits;
use dd_bounds::{Bounds, NoTable};
use dd_cards::Strain;
use dd_desk::{Desk, Naming, Pass, Row};
use dd_play::{Interval, TrickStart};
use dd_rank::Depths;
use dd_table::SharedTable;
use dd_work::{Gate, NoGate, worker};
use std::alloc::{AllocError, Global};
use std::marker::Brand;
use std::process::Abort;
use std::sync::Wait;
use std::sync::atomic::{AtomicBool, AtomicU64, Ordering};
use std::thread;
use std::thread::{Threads, join};
use std::time::{Clock, Duration};

// The most turns, of about a millisecond, that a worker is held.
const TURNS: u32 = 60_000;

// What the workers of a test tell one another.
#[derive(Drop)]
struct Signs {
    // a position at notrump was looked at
    looked: AtomicBool,
    // job 2 was answered
    answered: AtomicBool,
    // how many workers have a job
    met: AtomicU64,
    stop: AtomicBool,
    // a worker was held in vain
    late: AtomicBool,
}

impl Signs {
    fn new() -> Signs {
        Signs {
            looked: AtomicBool::new(false),
            answered: AtomicBool::new(false),
            met: AtomicU64::new(0),
            stop: AtomicBool::new(false),
            late: AtomicBool::new(false),
        }
    }
}

// Holds until the sign is given, or the turns are used up.
fn hold<R: Clock>(rt: &R, sign: &AtomicBool, signs: &Signs) {
    for _ in 0..TURNS {
        if sign.load(Ordering::SeqCst) {
            return;
        }
        thread::sleep(rt, Duration::from_millis(1));
    }
    signs.late.store(true, Ordering::SeqCst);
}

// Job 2 begins once a position at notrump was looked at, which the search for job 1 alone does.
#[derive(Drop)]
struct HoldsSecond<'a, R> {
    rt: &'a R,
    signs: &'a Signs,
}

impl<'a, R: Clock> Gate for HoldsSecond<'a, R> {
    fn before(&self, job: u64) {
        if job == 2 {
            hold(self.rt, &self.signs.looked, self.signs);
        }
    }

    fn after(&self, job: u64) {
        if job == 2 {
            self.signs.answered.store(true, Ordering::SeqCst);
        }
    }
}

// That look holds until job 2 was answered.
#[derive(Drop)]
struct HoldsLook<'a, R> {
    rt: &'a R,
    signs: &'a Signs,
}

impl<'a, R: Clock> Bounds for HoldsLook<'a, R> {
    ghost tells = { λ table p depths interval. ⊥ };

    ghost holds = { λ table p depths interval q told. absurd told };

    fn look(&mut self, start: &TrickStart) -> Option<(Interval, Depths)> {
        if start.position().strain() == Strain::Notrump {
            self.signs.looked.store(true, Ordering::SeqCst);
            hold(self.rt, &self.signs.answered, self.signs);
        }
        None
    }

    fn note(&mut self, _start: &TrickStart, _depths: Depths, _interval: Interval) {}
}

// Each worker is held until both have a job, and then told to stop.
#[derive(Drop)]
struct StopsBoth<'a, R> {
    rt: &'a R,
    signs: &'a Signs,
}

impl<'a, R: Clock> Gate for StopsBoth<'a, R> {
    fn before(&self, _job: u64) {
        if self.signs.met.fetch_add(1, Ordering::SeqCst) == 1 {
            self.signs.stop.store(true, Ordering::SeqCst);
        }
        hold(self.rt, &self.signs.stop, self.signs);
    }

    fn after(&self, _job: u64) {}
}

// How the two workers meet.
#[derive(Clone, Copy, Debug, PartialEq, Eq)]
enum Meeting {
    // the first is held inside its search until the second has answered
    Held,
    // both are stopped in their searches
    Stopped,
    // both work over one table
    Shared,
}

fn work<J: Naming, R: Wait + Clock>(
    rt: &R,
    desk: &Desk<J>,
    table: &SharedTable,
    signs: &Signs,
    meeting: Meeting,
    pass: Pass<J>,
) -> Pass<J> {
    match meeting {
        Meeting::Held => worker(
            rt,
            desk,
            &mut HoldsLook { rt, signs },
            pass,
            &HoldsSecond { rt, signs },
            None,
            &signs.stop,
        ),
        Meeting::Stopped => worker(
            rt,
            desk,
            &mut NoTable,
            pass,
            &StopsBoth { rt, signs },
            None,
            &signs.stop,
        ),
        Meeting::Shared => worker(
            rt,
            desk,
            &mut table.view(rt),
            pass,
            &NoGate,
            None,
            &signs.stop,
        ),
    }
}

// The caller's rows, each a call and what it is told.
fn ask_all<J: Naming, R: Wait + Abort>(
    rt: &R,
    alloc: Global,
    desk: &Desk<J>,
    caller: &mut Pass<J>,
    rows: &str,
) -> Result<(), AllocError> {
    for row in rows.lines() {
        let mut halves = row.split(" => ");
        let words = halves.next().expect(rt, "a call");
        let wanted = halves.next().expect(rt, "what it is told");
        let told = ask(rt, alloc, desk, caller, words)?;
        assert_eq!(rt; told.as_str(), wanted, "{words}");
    }
    Ok(())
}

// What the caller does before the workers come, and after they left; and how many events there are.
#[derive(Drop)]
struct Script {
    limits: Limits,
    meeting: Meeting,
    before: String,
    after: String,
    ending: String,
}

// Two workers at the desk until both have left: their passes.
fn work_both<J: Naming + Send + Sync, R: Threads + Wait + Clock + Abort + Sync>(
    rt: &R,
    alloc: Global,
    desk: &Desk<J>,
    meeting: Meeting,
) -> Result<(Pass<J>, Pass<J>), AllocError> {
    let (first, second) = (enrol(rt, desk), enrol(rt, desk));
    let table = SharedTable::new(alloc, 16, 4_096)?;
    let signs = Signs::new();
    let (learned, told) = (&table, &signs);
    let both = join(
        rt,
        move || work(rt, desk, learned, told, meeting, first),
        move || work(rt, desk, learned, told, meeting, second),
    );
    let held_in_vain = signs.late.load(Ordering::SeqCst);
    assert!(rt; !held_in_vain);
    let looked = signs.looked.load(Ordering::SeqCst);
    assert_eq!(rt; looked, meeting == Meeting::Held);
    Ok(both)
}

// The three passes of a meeting.
fn gather<J: Naming>(
    alloc: Global,
    caller: Pass<J>,
    first: Pass<J>,
    second: Pass<J>,
) -> Result<Vec<Pass<J>>, AllocError> {
    let mut passes = Vec::new(alloc);
    passes.push(caller)?;
    passes.push(first)?;
    passes.push(second)?;
    Ok(passes)
}

fn meet<J: Naming + Send + Sync, R: Threads + Wait + Clock + Abort + Sync>(
    rt: &R,
    alloc: Global,
    row: Row,
    script: &Script,
) -> Result<(), AllocError>
    requires cells { (map cell_name row.cells.items ≡ J.cells) × (J.all ≡ J.parts) }
    requires limits { row.limits ≡ J.limits }
    requires count { (row.count.name ≡ J.counts) × (row.count.parts ≡ J.parts) }
    requires sum { (row.sum.name ≡ J.places) × (row.sum.parts ≡ J.parts) }
{
    let desk = Desk::<J>::new(row);
    let mut caller = enrol(rt, &desk);
    ask_all(rt, alloc, &desk, &mut caller, script.before.as_str())?;
    let (first, second) = work_both(rt, alloc, &desk, script.meeting)?;
    ask_all(rt, alloc, &desk, &mut caller, script.after.as_str())?;
    let passes = gather(alloc, caller, first, second)?;
    let Ok(closed) = desk.close(passes) else {
        return Err(AllocError);
    };
    let counted = counted(alloc, &closed)?;
    assert!(rt; counted.as_str().starts_with(script.ending.as_str()));
    Ok(())
}

fn meet_at_a_row<R: Threads + Wait + Clock + Abort + Sync>(
    rt: &R,
    alloc: Global,
    meeting: Meeting,
    before: String,
    after: String,
    ending: &str,
) -> Result<(), AllocError> {
    let limits = Limits::new(64, 1_000, 8, 1_000).expect(rt, "limits in their ranges");
    let script = Script {
        limits,
        meeting,
        before,
        after,
        ending: String::from_str(alloc, ending)?,
    };
    let row = Row::new(alloc, limits)?;
    meet::<Brand, R>(rt, alloc, row, &script)
}

#[test]
fn a_job_is_answered_while_another_is_held_in_its_search(
    rt: HostRuntime,
) -> Result<(), AllocError> {
    let alloc = rt.alloc();
    let before = format!(in alloc;
        "submits {BEHIND} => job 1\nsubmits {RUFFED} => job 2\nshuts => shut"
    )?;
    let after = format!(in alloc; "fetches 1 => {BEHIND_ANSWER}\nfetches 2 => {RUFFED_ANSWER}")?;
    meet_at_a_row(&rt, alloc, Meeting::Held, before, after, "11 events: 5 3 3")
}

#[test]
fn both_workers_are_stopped_and_their_jobs_wait(rt: HostRuntime) -> Result<(), AllocError> {
    let alloc = rt.alloc();
    let before = format!(in alloc; "submits {CAUGHT} => job 1\nsubmits {BEHIND} => job 2")?;
    let after = String::from_str(alloc, "fetches 1 => waiting\nfetches 2 => waiting")?;
    meet_at_a_row(
        &rt,
        alloc,
        Meeting::Stopped,
        before,
        after,
        "8 events: 4 2 2",
    )
}

#[test]
fn two_workers_answer_over_one_table(rt: HostRuntime) -> Result<(), AllocError> {
    let alloc = rt.alloc();
    let before = format!(in alloc;
        "submits {SUITS} => job 1\nsubmits {CAUGHT} => job 2\nsubmits {BEHIND} => job 3\n\
         submits {RUFFED} => job 4\nshuts => shut"
    )?;
    let after = format!(in alloc;
        "fetches 1 => {SUITS_ANSWER}\nfetches 2 => {CAUGHT_ANSWER}\nfetches 3 => {BEHIND_ANSWER}\n\
         fetches 4 => {RUFFED_ANSWER}"
    )?;
    meet_at_a_row(&rt, alloc, Meeting::Shared, before, after, "57 events: 9 ")
}
