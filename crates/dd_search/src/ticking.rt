//! The ticks of a search.
ghost use Rattle.std.specs.Prelude.{◌≡◌, OnOk};
ghost use Rattle.dd_bounds.specs.Budgets.{EndsAs};

use dd_bounds::{Halt, Meter, Tick};

/// One tick, which is an error where the search may not go on.
#[inline]
pub(crate) fn go_on<M: Meter>(meter: &mut M) -> Result<(), Halt>
    ensures ticked { OnOk result (M.ticked meter.old meter.new) }
    ensures ends { EndsAs (M.says meter.new) result }
    ensures limit { M.limit meter.new ≡ M.limit meter.old }
{
    match meter.tick() {
        Tick::Go => Ok(()),
        Tick::Spent => Err(Halt::Spent),
        Tick::Stop => Err(Halt::Stopped),
    }
}
