//! The pass of a run.
ghost use Rattle.std.specs.Prelude.{◌≡◌, [], None, Err};
ghost use Rattle.std.specs.Option.{ForSome};
ghost use Rattle.dd_desk.specs.declared.fault.DeskFault.TheVariants.{OutOfMemory};
ghost use Rattle.dd_server.specs.Callers.{ShutsOnce};

use crate::new_pass::NewPass;
use crate::run_state::RunState;
use crate::stop_flag::FlagIsSet;
use crate::terms::RunNaming;
use dd_book::Reply;
use dd_desk::{DeskFault, Pass};
use std::sync::Wait;

/// A run's own pass, by which it shuts its book, once.
#[derive(Drop)]
pub(crate) struct OwnPass<J: RunNaming> {
    pass: Pass<J>,
    // What the shut was told, if there was one.
    told: Option<Result<Reply, DeskFault>>,
    ghost fresh: { told ≡ None → pass.receipts ≡ [] },
    ghost alone: { ShutsOnce pass.receipts },
    ghost had_memory: { ForSome told (λ said. said ≡ Err OutOfMemory → ⊥) },
}

impl<J: RunNaming> OwnPass<J> {
    /// A pass that has told nothing.
    pub(crate) fn new(pass: NewPass<J>) -> OwnPass<J> {
        OwnPass {
            pass: pass.into_pass(),
            told: None,
        }
    }

    /// Shuts the book, where this pass has not, and ends the run.
    #[tactic(auto, using(crate::proofs::Callers::shuts_once))]
    pub(crate) fn shut<R: Wait>(&mut self, rt: &R, state: &RunState<'_, J>) -> FlagIsSet {
        let OwnPass { pass, told } = self;
        match told {
            Some(said) => state.stop.end(rt, said),
            None => {
                let said = state.desk.shut(rt, pass);
                let is_set = state.stop.end(rt, &said);
                *told = Some(said);
                is_set
            }
        }
    }

    /// The pass within.
    pub(crate) fn into_pass(self) -> Pass<J>
        ensures { ShutsOnce result.receipts }
    {
        let OwnPass { pass, told: _ } = self;
        pass
    }
}
