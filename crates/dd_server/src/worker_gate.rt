//! What a run does when memory is short for its workers.
use crate::args::ServeFault;
use crate::run_state::RunState;
use crate::terms::RunNaming;
use dd_work::Gate;
use std::sync::atomic::Ordering;

/// A worker's gate, which says once that memory is short, and stops the server where it stays out.
#[derive(Drop)]
pub(crate) struct WorkerGate<'a, J: RunNaming, R, G> {
    pub(crate) rt: &'a R,
    pub(crate) state: &'a RunState<'a, J>,
    pub(crate) gate: &'a G,
}

impl<J: RunNaming, R: Eprint, G: Gate> Gate for WorkerGate<'_, J, R, G> {
    fn before(&self, job: u64) {
        self.gate.before(job)
    }

    fn after(&self, job: u64) {
        self.gate.after(job)
    }

    fn short(&self) {
        if !self.state.server.told_short.swap(true, Ordering::SeqCst) {
            let _ = self
                .rt
                .eprintln("ddserve: memory is short: a worker waits for it");
        }
        self.gate.short()
    }

    fn lets_others_work(&self) -> bool {
        self.gate.lets_others_work()
    }

    // Where one worker gave up, of whichever run, none waits on for its last calls: the server ends.
    fn may_rest(&self) -> bool {
        !self.state.server.lacks_memory.load(Ordering::SeqCst) && self.gate.may_rest()
    }

    fn give_up(&self) {
        self.state.lacks_memory.store(true, Ordering::SeqCst);
        self.state.server.lacks_memory.store(true, Ordering::SeqCst);
        self.state.server.stop.fail(ServeFault::OutOfMemory);
        self.gate.give_up()
    }
}
