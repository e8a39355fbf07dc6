//! How long the search for a result may be.
ghost use Rattle.std.specs.Prelude.{◌≡◌};

use std::marker::{Brand, PhantomData};

/// Names a limit: what an analyst may tell of a deal can speak of a name, and not of a number that is known when the program runs.
pub(crate) trait LimitName {
    ghost use Rattle.std.specs.Prelude.{ℕ, Option};

    /// the most positions of a search, if there is a limit
    ghost positions: { Option ℕ };
}

impl LimitName for Brand {
    ghost use Rattle.std.specs.Prelude.{None};

    ghost positions = { None };
}

/// The most positions that the search for one of the twenty results of a deal visits. `None` lets each search go on to its end.
#[derive(Drop)]
pub(crate) struct Limit<N: LimitName> {
    pub(crate) positions: Option<u64>,
    of: PhantomData<N>,
    pub ghost named: { positions ≡ N.positions },
}

impl<N: LimitName> Limit<N> {
    /// So many positions.
    pub(crate) fn new(positions: Option<u64>) -> Limit<N>
        requires { positions ≡ N.positions }
    {
        Limit {
            positions,
            of: PhantomData,
        }
    }
}
