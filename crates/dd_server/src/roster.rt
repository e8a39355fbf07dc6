//! The runs of a server.
ghost use Rattle.std.specs.Prelude.{◌≡◌, ◌+◌, ◌<◌, ◌≤◌, [], ◌∷◌, ◌++◌, true, IfOk, IsErr, MatchOption, vec_len, vec_capacity};
ghost use Rattle.dd_server.specs.declared.roster.TheConstants.{MOST_RUNS};
ghost use Rattle.dd_server.specs.Worn.{is_crowded};

use crate::args::ServeFault;
use crate::run_end::{RunEnd, RunLimits};
use crate::telling::KeepsRuns;
use dd_desk::Row;
use std::alloc::{AllocError, Global};
use std::marker::PhantomData;
use std::net::TcpStream;

/// How many runs may serve at once: the one that accepts, and older ones that end.
pub const MOST_RUNS: usize = 3;

/// What a run begins with: its row, and the connection that came when the run before it was worn.
#[derive(Drop)]
pub(crate) struct Opening<L: RunLimits> {
    row: Row,
    stream: Option<TcpStream>,
    names: PhantomData<L>,
    ghost limits: { row.limits ≡ L.limits },
}

/// A place among the runs that serve, with room for the end of its run. Only `begin` gives one, and `end` takes it back.
#[derive(Drop)]
pub(crate) struct Begun {
    number: u64,
}

/// What there is to do for who begins the runs.
#[derive(Drop)]
pub(crate) enum News<L: RunLimits, K: KeepsRuns> {
    /// Another run begins so.
    Opens(Opening<L>),
    /// A run has ended.
    Ended(RunEnd<L, K>),
    /// No run serves any more.
    Over,
}

/// The runs of a server: how many serve, which have ended, and how the next one begins.
#[derive(Drop)]
pub(crate) struct Roster<L: RunLimits, K: KeepsRuns> {
    // How those ended of which nobody was told yet.
    ends: Vec<RunEnd<L, K>>,
    // How many serve, for whose ends there is room.
    live: usize,
    begun: u64,
    // The runs before this one are to end soon.
    hurried: u64,
    // There was no room for another run in time, and none has ended since.
    stuck: bool,
    opening: Option<Opening<L>>,
    fault: Option<ServeFault>,
    ghost room: { vec_len ends + live ≤ vec_capacity ends },
    ghost few: { live ≤ MOST_RUNS },
}

impl<L: RunLimits> Opening<L> {
    pub(crate) fn new(row: Row, stream: Option<TcpStream>) -> Opening<L>
        requires { row.limits ≡ L.limits }
    {
        Opening {
            row,
            stream,
            names: PhantomData,
        }
    }

    /// Its row and its connection.
    pub(crate) fn into_parts(self) -> (Row, Option<TcpStream>)
        ensures { result.0.limits ≡ L.limits }
    {
        let Opening {
            row,
            stream,
            names: _,
        } = self;
        (row, stream)
    }
}

impl Begun {
    /// Runs are numbered from 1.
    pub(crate) fn number(&self) -> u64 {
        self.number
    }
}

impl<L: RunLimits, K: KeepsRuns> Roster<L, K> {
    /// No run has begun.
    pub(crate) fn new(alloc: Global) -> Roster<L, K> {
        Roster {
            ends: Vec::new(alloc),
            live: 0,
            begun: 0,
            hurried: 0,
            stuck: false,
            opening: None,
            fault: None,
        }
    }

    /// One run more, unless as many serve as may, with room for its end.
    pub(crate) fn begin(&mut self) -> Result<Begun, AllocError>
        ensures few { is_crowded self.old.live ≡ true → IsErr result }
    {
        if self.is_crowded() {
            return Err(AllocError);
        }
        let Roster {
            ends,
            live,
            begun,
            hurried: _,
            stuck: _,
            opening: _,
            fault: _,
        } = self;
        let more = *live + 1;
        ends.reserve(more)?;
        *live = more;
        *begun = begun.saturating_add(1);
        Ok(Begun { number: *begun })
    }

    /// Do as many runs serve as may?
    pub(crate) fn is_crowded(&self) -> bool
        ensures { result ≡ is_crowded self.now.live }
    {
        self.live >= MOST_RUNS
    }

    /// Does another run serve beside one that does?
    pub(crate) fn has_others(&self) -> bool {
        self.live > 1
    }

    /// The runs before this one are to end soon.
    pub(crate) fn hurry(&mut self, number: u64) {
        self.hurried = self.hurried.max(number);
    }

    pub(crate) fn is_hurried(&self, number: u64) -> bool {
        number < self.hurried
    }

    /// There was no room for another run in time.
    pub(crate) fn stick(&mut self) {
        self.stuck = true;
    }

    /// Was there no room in time, and has no run ended since?
    pub(crate) fn is_stuck(&self) -> bool {
        self.stuck
    }

    /// Another run is to begin so.
    pub(crate) fn open_next(&mut self, opening: Opening<L>) {
        self.opening = Some(opening);
    }

    /// Is there nothing to do for who begins the runs?
    pub(crate) fn is_quiet(&self) -> bool {
        self.ends.is_empty() && self.opening.is_none() && self.live > 0
    }

    /// What there is to do.
    pub(crate) fn take_news(&mut self) -> News<L, K> {
        if let Some(opening) = self.opening.take() {
            return News::Opens(opening);
        }
        match self.first_end() {
            Some(end) => News::Ended(end),
            None => News::Over,
        }
    }

    // How the run ended that is to be told next: the first of those of which nobody was told yet.
    fn first_end(&mut self) -> Option<RunEnd<L, K>>
        ensures { MatchOption result (self.old.ends.items ≡ [])
            (λ end. self.old.ends.items ≡ end ∷ self.new.ends.items) }
    {
        if self.ends.is_empty() {
            return None;
        }
        Some(self.ends.remove(0))
    }

    /// A run that had begun has ended: how, is told after those that ended before.
    pub(crate) fn end(&mut self, _begun: Begun, end: Result<RunEnd<L, K>, ServeFault>)
        ensures { IfOk end (λ ended. 0 < self.old.live
            → self.new.ends.items ≡ self.old.ends.items ++ ended ∷ []) }
    {
        let Roster {
            ends,
            live,
            begun: _,
            hurried: _,
            stuck,
            opening: _,
            fault,
        } = self;
        *stuck = false;
        if *live > 0 {
            match end {
                Ok(end) => ends.push_reserved(end),
                Err(why) => *fault = Some(why),
            }
            *live -= 1;
        }
    }

    /// A run could not begin.
    pub(crate) fn fail(&mut self, fault: ServeFault) {
        self.fault = Some(fault);
    }

    /// Why the server ended badly, if it did.
    pub(crate) fn into_fault(self) -> Option<ServeFault> {
        self.fault
    }
}
