//! A pass that was just given.
ghost use Rattle.std.specs.Prelude.{◌≡◌, []};

use crate::terms::RunNaming;
use dd_desk::Pass;

/// A pass that has asked nothing yet.
#[derive(Drop)]
pub(crate) struct NewPass<J: RunNaming> {
    pass: Pass<J>,
    ghost fresh: { pass.receipts ≡ [] },
}

impl<J: RunNaming> NewPass<J> {
    pub(crate) fn new(pass: Pass<J>) -> NewPass<J>
        requires { pass.receipts ≡ [] }
    {
        NewPass { pass }
    }

    /// The pass within.
    pub(crate) fn into_pass(self) -> Pass<J>
        ensures { result.receipts ≡ [] }
    {
        let NewPass { pass } = self;
        pass
    }
}
