//! A halt of the search as a word.
ghost use Rattle.std.specs.Prelude.{◌≡◌, OnOk};
ghost use Rattle.dd_bounds.specs.Budgets.{EndsAs};

use crate::ticking::go_on;
use crate::verdict::Verdict;
use dd_bounds::{Halt, Meter};
use std::marker::Model;

/// Why a search ended without an answer.
// One word, as an answer is: so either comes back in registers. A halt's byte would stand elsewhere than an answer's word, and
// both would go by memory.
#[derive(Drop)]
pub(crate) struct HaltWord {
    bits: u64,
}

impl Model for HaltWord {
    ghost use Rattle.std.specs.Prelude.{nat_eq, if◌then◌else◌};
    ghost use Rattle.dd_bounds.specs.declared.meter.Halt.{Halt};
    ghost use Rattle.dd_bounds.specs.declared.meter.Halt.TheVariants.{Spent, Stopped};

    ghost Value = { Halt };

    ghost view = { λ w. if nat_eq w.bits 0 then Spent else Stopped };
}

impl HaltWord {
    #[inline]
    fn of(halt: Halt) -> HaltWord
        ensures { result ≡ halt }
    {
        match halt {
            Halt::Spent => HaltWord { bits: 0 },
            Halt::Stopped => HaltWord { bits: 1 },
        }
    }

    #[inline]
    fn halt(&self) -> Halt
        ensures { result ≡ self.now }
    {
        if self.bits == 0 {
            Halt::Spent
        } else {
            Halt::Stopped
        }
    }
}

/// One tick, which is an error where the search may not go on.
#[inline]
pub(crate) fn tick<M: Meter>(meter: &mut M) -> Result<(), HaltWord>
    ensures ticked { OnOk result (M.ticked meter.old meter.new) }
    ensures ends { EndsAs (M.says meter.new) result }
    ensures limit { M.limit meter.new ≡ M.limit meter.old }
{
    match go_on(meter) {
        Ok(()) => Ok(()),
        Err(halt) => Err(HaltWord::of(halt)),
    }
}

/// The same answer, or the same halt.
#[inline]
pub(crate) fn answer_or_halt(found: Result<Verdict, HaltWord>) -> Result<Verdict, Halt>
    ensures { result ≡ found }
{
    match found {
        Ok(answer) => Ok(answer),
        Err(word) => Err(word.halt()),
    }
}
