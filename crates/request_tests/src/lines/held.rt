//! Threads that are held in a search, and the signs by which they are let go.
use crate::devices::Taker;
use dd_bounds::Bounds;
use dd_cards::{Strain, Suit};
use dd_play::{Interval, TrickStart};
use dd_rank::Depths;
use std::io::Write;
use std::sync::atomic::{AtomicBool, AtomicU64, Ordering};
use std::time::{Clock, Duration};
use std::{io, thread};

// The most turns, of about a millisecond, that a sign is waited for.
const TURNS: u32 = 10_000;

/// A line whose search is held: clubs are trumps. Eight cards a hand.
pub fn held() -> &'static [u8] {
    br#"{"do":"solve","deal":"N:T65.J.54.T9 Q9.K52.93.6 K.Q76.AJ2.8 A.4.T8.7532","trump":3,"first":2,"solutions":3}"#
}

/// What the threads of a test tell one another.
#[derive(Clone, Copy)]
pub enum Sign {
    /// as many threads as are wanted are held in a search
    Searching,
    /// the first stream has come to its second reply
    Second,
    /// the searches go on
    LetGo,
}

/// The signs that were given.
#[derive(Drop)]
pub struct Signs {
    searching: AtomicBool,
    second: AtomicBool,
    let_go: AtomicBool,
    // one was waited for in vain
    late: AtomicBool,
    // how many threads are held, or were, and how many are wanted
    searches: AtomicU64,
    wanted: u64,
}

impl Signs {
    /// None, where so many threads are to be held.
    pub fn new(wanted: u64) -> Signs {
        Signs {
            searching: AtomicBool::new(false),
            second: AtomicBool::new(false),
            let_go: AtomicBool::new(false),
            late: AtomicBool::new(false),
            searches: AtomicU64::new(0),
            wanted,
        }
    }

    fn flag(&self, sign: Sign) -> &AtomicBool {
        match sign {
            Sign::Searching => &self.searching,
            Sign::Second => &self.second,
            Sign::LetGo => &self.let_go,
        }
    }

    pub fn give(&self, sign: Sign) {
        self.flag(sign).store(true, Ordering::SeqCst);
    }

    /// Waits for this sign, until the turns are used up. After a wait in vain no other one waits.
    pub fn wait_for<R: Clock>(&self, rt: &R, sign: Sign) {
        for _ in 0..TURNS {
            if self.flag(sign).load(Ordering::SeqCst) || self.is_late() {
                return;
            }
            thread::sleep(rt, Duration::from_millis(1));
        }
        self.late.store(true, Ordering::SeqCst);
    }

    // One more thread is held.
    fn begin_search(&self) {
        let before = self.searches.fetch_add(1, Ordering::SeqCst);
        if before.saturating_add(1) >= self.wanted {
            self.give(Sign::Searching);
        }
    }

    /// Was a sign waited for in vain?
    pub fn is_late(&self) -> bool {
        self.late.load(Ordering::SeqCst)
    }
}

/// Knows nothing and keeps nothing. The first search with clubs as trumps is held in its first look until it is let go.
#[derive(Drop)]
pub struct HoldsSearch<'a, R> {
    rt: &'a R,
    signs: &'a Signs,
    was_held: bool,
    last: Option<Strain>,
}

impl<'a, R> HoldsSearch<'a, R> {
    pub fn new(rt: &'a R, signs: &'a Signs) -> HoldsSearch<'a, R> {
        HoldsSearch {
            rt,
            signs,
            was_held: false,
            last: None,
        }
    }

    /// What the last search is in that had a look.
    pub fn last(&self) -> Option<Strain> {
        self.last
    }
}

impl<'a, R: Clock> Bounds for HoldsSearch<'a, R> {
    ghost tells = { λ table p depths interval. ⊥ };

    ghost holds = { λ table p depths interval q told. absurd told };

    fn look(&mut self, start: &TrickStart) -> Option<(Interval, Depths)> {
        let strain = start.position().strain();
        self.last = Some(strain);
        if strain == Strain::Trump(Suit::Clubs) && !self.was_held {
            self.was_held = true;
            self.signs.begin_search();
            self.signs.wait_for(self.rt, Sign::LetGo);
        }
        None
    }

    fn note(&mut self, _start: &TrickStart, _depths: Depths, _interval: Interval) {}
}

/// Knows nothing and keeps nothing, and counts its looks.
#[derive(Drop)]
pub struct CountsLooks {
    pub looks: u64,
}

impl Bounds for CountsLooks {
    ghost tells = { λ table p depths interval. ⊥ };

    ghost holds = { λ table p depths interval q told. absurd told };

    fn look(&mut self, _start: &TrickStart) -> Option<(Interval, Depths)> {
        self.looks = self.looks.saturating_add(1);
        None
    }

    fn note(&mut self, _start: &TrickStart, _depths: Depths, _interval: Interval) {}
}

/// What an output does before it takes a reply: it gives a sign, and then it waits for one.
#[derive(Clone, Copy)]
pub struct Turn {
    pub gives: Option<Sign>,
    pub waits_for: Option<Sign>,
}

/// Takes what a `Taker` takes, the first replies after a turn each.
#[derive(Drop)]
pub struct TakesTurns<'a, R> {
    pub rt: &'a R,
    pub signs: &'a Signs,
    pub turns: &'a [Turn],
    pub taker: Taker,
}

impl<'a, R: Clock> Write for TakesTurns<'a, R> {
    fn write(&mut self, buf: &[u8]) -> io::Result<usize> {
        if let Some((turn, rest)) = self.turns.split_first() {
            if let Some(sign) = turn.gives {
                self.signs.give(sign);
            }
            if let Some(sign) = turn.waits_for {
                self.signs.wait_for(self.rt, sign);
            }
            self.turns = rest;
        }
        self.taker.write(buf)
    }

    fn flush(&mut self) -> io::Result<()> {
        Ok(())
    }
}

/// Takes what a `Taker` takes, and fails while threads are held in a search, who go on then.
#[derive(Drop)]
pub struct EndsWhileSearching<'a, R> {
    pub rt: &'a R,
    pub signs: &'a Signs,
    pub taker: Taker,
}

impl<'a, R: Clock> Write for EndsWhileSearching<'a, R> {
    fn write(&mut self, buf: &[u8]) -> io::Result<usize> {
        if self.taker.room == 0 {
            self.signs.wait_for(self.rt, Sign::Searching);
            self.signs.give(Sign::LetGo);
        }
        self.taker.write(buf)
    }

    fn flush(&mut self) -> io::Result<()> {
        Ok(())
    }
}
