//! The flag of a stop.
use std::sync::atomic::{AtomicBool, Ordering};

/// The flag that ends searches, and that whoever is woken by a stop finds set.
#[derive(Drop)]
pub(crate) struct StopFlag {
    flag: AtomicBool,
}

/// Tells that the flag is set: only setting it gives one. What wakes a thread takes it, so none is woken before.
#[derive(Clone, Copy)]
pub(crate) struct FlagIsSet {
    _made_here: (),
}

impl StopFlag {
    /// It is not set yet.
    pub(crate) fn new() -> StopFlag {
        StopFlag {
            flag: AtomicBool::new(false),
        }
    }

    /// Sets it for good.
    pub(crate) fn set(&self) -> FlagIsSet {
        self.flag.store(true, Ordering::SeqCst);
        FlagIsSet { _made_here: () }
    }

    pub(crate) fn is_set(&self) -> bool {
        self.flag.load(Ordering::SeqCst)
    }

    /// The flag itself, which searches look at.
    pub(crate) fn flag(&self) -> &AtomicBool {
        &self.flag
    }
}
