//! How a file was passed on before its lines were passed on by stretches: byte by byte, as the program did it then. The contract of
//! `fill_file` fixes what comes out, so that is left out here. What an analyst is asked, and told ahead, and when, is in no clause.
ghost use Rattle.std.specs.Prelude.{◌≤◌, length};

mod fill_state;
mod filler;
mod kept;
mod known_tag;
mod mark;
mod mode;
mod tag_reader;
mod value;

use dd_cards::Hands;
use dd_file::{Analyst, Reason, Wanted};
use dd_score::Results;
use filler::Filler;
use mark::NEAR;
use std::alloc::{AllocError, Global};

/// Asks and tells an analyst what it is asked and told of a file.
pub fn tell_file<A: Analyst>(
    alloc: Global,
    wanted: Wanted,
    file: &[u8],
    analyst: &mut A,
) -> Result<(), AllocError> {
    if analyst.foresees() {
        pass_on(alloc, wanted, file, &mut Foreseer { analyst })?;
    }
    pass_on(alloc, wanted, file, analyst)
}

fn pass_on<A: Analyst>(
    alloc: Global,
    wanted: Wanted,
    file: &[u8],
    analyst: &mut A,
) -> Result<(), AllocError> {
    let mut filler = Filler::new(alloc, wanted);
    pass_front(file, file.len(), true, &mut filler, analyst)?;
    filler.add_last(analyst);
    analyst.ended(filler.games());
    Ok(())
}

// Passes on the first bytes of the window, each judged by those near it.
fn pass_front<A: Analyst>(
    window: &[u8],
    count: usize,
    is_all: bool,
    filler: &mut Filler,
    analyst: &mut A,
) -> Result<(), AllocError>
    requires { count ≤ length window.now }
{
    for at in 0..count {
        pass_first(&window[at..], is_all, filler, analyst)?;
    }
    Ok(())
}

// Passes on the first of these bytes.
fn pass_first<A: Analyst>(
    rest: &[u8],
    is_all: bool,
    filler: &mut Filler,
    analyst: &mut A,
) -> Result<(), AllocError> {
    filler.pass(near_of(rest), is_near(is_all, rest), analyst)
}

// Do all bytes that follow stand near the first of these?
fn is_near(is_all: bool, rest: &[u8]) -> bool {
    is_all && rest.len() <= NEAR
}

// The bytes by which it is judged what begins at the first of them.
fn near_of(rest: &[u8]) -> &[u8] {
    rest.get(..NEAR).unwrap_or(rest)
}

// Hands each deal that is asked for on, and tells no results of it.
#[derive(Drop)]
struct Foreseer<'a, A> {
    analyst: &'a mut A,
}

impl<'a, A: Analyst> Analyst for Foreseer<'a, A> {
    ghost gives = { λ _ _. Unit {0} };

    ghost State = { Unit {0} };

    ghost state = { λ _. tt };

    ghost way = { λ _ _ _. Unit {0} };

    fn results(&mut self, deal: &Hands) -> Option<Results> {
        self.analyst.foresee(deal);
        None
    }

    fn passed(&mut self, _games: u64, _bytes: u64) {}

    fn left(&mut self, _game: u64, _board: &[u8], _reason: Reason, _unknown: &[u8]) {}

    fn ended(&mut self, _games: u64) {}
}
