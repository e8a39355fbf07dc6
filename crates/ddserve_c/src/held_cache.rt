//! A cache in the hands of C.
ghost use Rattle.std.specs.Prelude.{◌≡◌, Option, Some, None, IsSome};
ghost use Rattle.std.specs.Coded.{coded_option};
ghost use Rattle.ddserve_c.specs.Kept.{kept_owns};
ghost use Rattle.ddserve_c.specs.contracts.solver_cache.SolverCache.{the_row};

use crate::box_parts::BoxParts;
use crate::solver_cache::SolverCache;
use std::alloc::Global;
use std::marker::{Model, Send};
use std::ptr::null_mut;

/// The box of a cache as a pointer, or none. It can't be let go, so no path forgets the memory.
///
/// The pointer's type tells C nothing of what is there: C must not reach it.
#[repr(C)]
pub struct HeldCache {
    at: *mut u8,
    pub ghost kept: { Option the_row.Denot } by { coded_option the_row.coded },
}

impl Model for HeldCache {
    ghost also_owns = { λ h. kept_owns h.at h.kept };
}

impl HeldCache {
    /// Nothing.
    pub(crate) fn none() -> HeldCache
        ensures { result.kept ≡ None }
    {
        HeldCache { at: null_mut() }
    }

    /// This cache.
    pub(crate) fn of(cache: Box<SolverCache, Global>) -> HeldCache
        ensures { result.kept ≡ Some cache.value }
    {
        HeldCache::of_parts(BoxParts::of(cache))
    }

    /// The cache, which there is.
    pub(crate) fn into_box(self, alloc: Global) -> Box<SolverCache, Global>
        requires { IsSome self.kept }
        ensures { self.kept ≡ Some result.value }
    {
        self.into_parts(alloc).into_box()
    }

    /// Ends what holds nothing.
    pub(crate) fn end(self)
        requires { self.kept ≡ None }
    {
        let HeldCache { at: _ } = self;
    }

    fn of_parts(parts: BoxParts<SolverCache, Global>) -> HeldCache
        ensures { result.kept ≡ Some parts.value }
    {
        let BoxParts { ptr, alloc: _ } = parts;
        HeldCache { at: ptr.cast() }
    }

    fn into_parts(self, alloc: Global) -> BoxParts<SolverCache, Global>
        requires { IsSome self.kept }
        ensures { self.kept ≡ Some result.value }
    {
        let HeldCache { at } = self;
        BoxParts {
            ptr: at.cast(),
            alloc,
        }
    }
}

// C hands a solver from thread to thread.
unsafe impl Send for HeldCache {}
