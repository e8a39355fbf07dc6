//! What is told of the runs of a server.
ghost use Rattle.std.specs.Prelude.{◌≡◌, ◌<◌, ◌≤◌, List, All, IsOk, OnOk, OnErr, false, length};
ghost use Rattle.dd_desk.specs.Events.{EventOf};
ghost use Rattle.dd_program.specs.Endings.{closed_text, closed_texts, TellsText};
ghost use Rattle.dd_streams.specs.Endings.{state_of, WritesAll, WritesBeginning};
ghost use Rattle.dd_server.specs.Histories.{IsJournalOfRun};
ghost use Rattle.dd_server.specs.Runs.{AreTold};
ghost use Rattle.dd_server.specs.ServeArgs.{HasTableSize, terms_by};

use arrayvec::ArrayString;
use dd_book::Limits;
use dd_desk::{Closed, Naming};
use dd_lines::{CountedDevice, LineFault, write_whole};
use dd_server::{KeepsRuns, ServeArgs, ServeFault, TellsRuns, run_server};
use dd_work::NoGate;
use itoa::Buffer;
use std::alloc::Global;
use std::io::Write;
use std::net::TcpListener;
use std::sync::Wait;
use std::thread::Threads;
use std::time::Clock;

/// The most bytes of the line that tells of a run.
const CLOSED_LINE: usize = 64;

/// What is kept of a run whose desk was closed: how many events its journal had, and what who watches keeps of it.
#[derive(Drop)]
pub(crate) struct RunKept<K: KeepsRuns> {
    events: u64,
    watched: K,
}

impl<K: KeepsRuns> KeepsRuns for RunKept<K> {
    ghost use Rattle.std.specs.Prelude.{◌≡◌, length};

    ghost made_of = { λ kept journal. (kept.events ≡ length journal) × K.made_of kept.watched journal };

    fn of<J: Naming>(closed: &Closed<J>) -> RunKept<K> {
        RunKept {
            events: closed.journal().len() as u64,
            watched: K::of(closed),
        }
    }
}

/// Tells on the output how many events each run had, until a write fails, and tells who watches of each run.
#[derive(Drop)]
pub(crate) struct Telling<'a, O: Write, V> {
    output: &'a mut CountedDevice<O>,
    watcher: &'a mut V,
    has_failed: bool,
    // How the server ended, once it has.
    served: Result<(), ServeFault>,
}

impl<'a, O: Write, V> Telling<'a, O, V> {
    /// Nothing was told yet.
    pub(crate) fn new(output: &'a mut CountedDevice<O>, watcher: &'a mut V) -> Telling<'a, O, V>
        ensures same_output { result.output.ghost_name ≡ output.entry.ghost_name }
        ensures same_watcher { result.watcher.ghost_name ≡ watcher.entry.ghost_name }
        ensures output { result.output.now ≡ output.old }
        ensures watcher { result.watcher.now ≡ watcher.old }
        ensures fresh { result.has_failed ≡ false }
    {
        Telling {
            output,
            watcher,
            has_failed: false,
            served: Ok(()),
        }
    }

    /// How the server ended, and whether a write failed.
    pub(crate) fn end(self) -> (Result<(), ServeFault>, bool)
        ensures output { self.exit.0.now ≡ self.entry.output.now }
        ensures watcher { self.exit.1.0.now ≡ self.entry.watcher.now }
        ensures served { result.0 ≡ self.entry.served }
        ensures failed { result.1 ≡ self.entry.has_failed }
    {
        let Telling {
            output: _,
            watcher: _,
            has_failed,
            served,
        } = self;
        (served, has_failed)
    }
}

impl<'a, O: Write, K: KeepsRuns, V: TellsRuns<K>> TellsRuns<RunKept<K>> for Telling<'a, O, V> {
    ghost use Rattle.dd_program.specs.Endings.{TellingOf, TellsRun};
    ghost use Rattle.dd_streams.specs.Endings.{state_of};

    ghost State = { TellingOf V.State };

    ghost state = { λ t. record {
      references = (t.output.ghost_name, t.watcher.ghost_name);
      output = state_of O.contents t.output.now;
      has_failed = t.has_failed;
      watcher = V.state t.watcher.now;
    } };

    ghost way = { TellsRun V.way };

    fn tell(&mut self, kept: RunKept<K>) {
        let RunKept { events, watched } = kept;
        let watcher = &mut *self.watcher;
        watcher.tell(watched);
        if !self.has_failed {
            self.has_failed = tell_run(events, &mut *self.output);
        }
    }
}

/// Serves the clients of the listener, with what is told of each run, and how it ends.
pub(crate) fn serve_told<
    'a,
    W: Threads + Wait + Clock + Eprint + Sync,
    O: Write,
    K: KeepsRuns + Send,
    V: TellsRuns<K>,
>(
    rt: &W,
    alloc: Global,
    listener: TcpListener,
    limits: Limits,
    args: ServeArgs,
    telling: Telling<'a, O, V>,
) -> Telling<'a, O, V>
    requires passes { args.workers < limits.passes }
    requires table { HasTableSize args }
    requires fresh { telling.has_failed ≡ false }
    ensures same_output { result.output.ghost_name ≡ telling.entry.output.ghost_name }
    ensures same_watcher { result.watcher.ghost_name ≡ telling.entry.watcher.ghost_name }
    ensures told { (runs : List (List EventOf)) × All (IsJournalOfRun limits (terms_by args)) runs
        × (IsOk result.served → 0 < length runs)
        × AreTold V.way (V.state telling.entry.watcher.now) runs (V.state result.watcher.now)
        × TellsText (closed_texts runs) result.has_failed
        (state_of O.contents telling.entry.output.now)
        (state_of O.contents result.output.now) }
{
    let (mut telling, served) = run_server::<RunKept<K>, Telling<'a, O, V>, W, NoGate>(
        rt, alloc, listener, limits, args, &NoGate, telling,
    );
    telling.served = served;
    telling
}

/// Tells of a run with so many events. Did a write fail?
fn tell_run<O: Write>(events: u64, output: &mut CountedDevice<O>) -> bool
    ensures { TellsText (closed_text events) result (state_of O.contents output.old)
        (state_of O.contents output.new) }
{
    match tell(closed_line(events).as_str(), output) {
        Ok(()) => false,
        Err(_) => true,
    }
}

/// Tells the line.
pub(crate) fn tell<O: Write>(line: &str, output: &mut CountedDevice<O>) -> Result<(), LineFault>
    ensures all { OnOk result
        (WritesAll line.now (state_of O.contents output.old) (state_of O.contents output.new)) }
    ensures beginning { OnErr result
        (WritesBeginning line.now (state_of O.contents output.old) (state_of O.contents output.new)) }
{
    write_whole(output, line.as_bytes())
}

/// The line that tells the number of events of a run. It takes no memory.
fn closed_line(events: u64) -> ArrayString<CLOSED_LINE>
    ensures { result.bytes ≡ closed_text events }
{
    let mut buffer = Buffer::new();
    let mut line = ArrayString::new();
    line.push_str("closed after ");
    line.push_str(buffer.format(events));
    line.push_str(" events\n");
    line
}
