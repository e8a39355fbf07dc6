//! The solver that C holds.
ghost use Rattle.std.specs.Prelude.{◌≡◌, true, false, IsSome, None};

use crate::held_cache::HeldCache;
use crate::solver_cache::SolverCache;
use std::alloc::Global;
use std::marker::Send;
use std::mem;

/// A solver, open or not. C has it in its memory, all zero where it is not open, and leaves it to the calls.
#[repr(C)]
pub struct Solver {
    pub is_open: bool,
    held: HeldCache,
    pub ghost open_holds: { is_open ≡ true → IsSome held.kept },
    pub ghost closed_holds_nothing: { is_open ≡ false → held.kept ≡ None },
}

impl Solver {
    /// One that is not open.
    pub(crate) fn closed() -> Solver
        ensures { result.is_open ≡ false }
    {
        Solver {
            is_open: false,
            held: HeldCache::none(),
        }
    }

    /// One that is open, with this cache.
    pub(crate) fn with(cache: Box<SolverCache, Global>) -> Solver
        ensures { result.is_open ≡ true }
    {
        for_any_thread(Solver {
            is_open: true,
            held: HeldCache::of(cache),
        })
    }

    /// Takes the cache of one that is open, which is closed then.
    pub(crate) fn take(&mut self, alloc: Global) -> Option<Box<SolverCache, Global>>
        ensures closed { self.new.is_open ≡ false }
        ensures open { self.old.is_open ≡ true → IsSome result }
        ensures none { self.old.is_open ≡ false → result ≡ None }
    {
        mem::replace(self, Solver::closed()).into_cache(alloc)
    }

    /// It is open from now on, with this cache.
    pub(crate) fn put(&mut self, alloc: Global, cache: Box<SolverCache, Global>)
        ensures { self.new.is_open ≡ true }
    {
        drop(mem::replace(self, Solver::with(cache)).into_cache(alloc));
    }

    fn into_cache(self, alloc: Global) -> Option<Box<SolverCache, Global>>
        ensures open { self.is_open ≡ true → IsSome result }
        ensures none { self.is_open ≡ false → result ≡ None }
    {
        let Solver { is_open, held } = self;
        if is_open {
            return Some(held.into_box(alloc));
        }
        held.end();
        None
    }
}

/// The value, if its type may go to another thread: C hands solvers on.
fn for_any_thread<T: Send>(value: T) -> T
    ensures { result ≡ value }
{
    value
}
