//! What each run of a server is asked for, and the names of a run.
ghost use Rattle.std.specs.Prelude.{◌≡◌};
ghost use Rattle.dd_server.specs.ServeArgs.{terms_by};

use crate::args::ServeArgs;
use dd_desk::Naming;
use dd_session::Manner;
use std::marker::Brand;

/// What each run of a server is asked for beside its limits.
#[derive(Clone, Copy, Debug, PartialEq, Eq)]
pub struct Terms {
    /// How its sessions answer.
    pub manner: Manner,
    /// The most positions of the search for each claim. `None` is no limit.
    pub budget: Option<u64>,
}

impl Terms {
    /// Those of the runs of a server with these options.
    pub(crate) fn of(args: &ServeArgs) -> Terms
        ensures { result ≡ terms_by args.now }
    {
        Terms {
            manner: args.manner(),
            budget: args.budget,
        }
    }
}

/// Names the row of a run's desk, and the terms of the run.
pub(crate) trait RunNaming: Naming {
    ghost use Rattle.dd_server.specs.declared.terms.Terms.{Terms};

    ghost terms: { Terms };
}

impl RunNaming for Brand {
    ghost use Rattle.dd_server.specs.ServeArgs.{no_terms};

    ghost terms = { no_terms };
}
