//! A file passed on byte by byte, and what is asked and told of its games.
ghost use Rattle.dd_file.specs.Deals.{IsThirteen};

use super::fill_state::FillState;
use super::known_tag::{BOARD, DEALER, VULNERABLE, known_number};
use super::mark::{Mark, mark_at};
use super::mode::Mode;
use super::value::{Unfit, thirteen_in, unescaped};
use dd_cards::Hands;
use dd_file::{Analyst, Reason, Wanted};
use std::alloc::{AllocError, Global};

/// A file that is passed on.
#[derive(Drop)]
pub(crate) struct Filler {
    pub(crate) wanted: Wanted,
    /// Where the next byte stands.
    pub(crate) mode: Mode,
    /// How many bytes from there on belong to a tag that has begun.
    pub(crate) left: usize,
    pub(crate) state: FillState,
    alloc: Global,
    // The number of the game at hand, and what its tags Board, Dealer and Vulnerable say.
    number: u64,
    board: Vec<u8>,
    dealer: Vec<u8>,
    vulnerable: Vec<u8>,
    // How many bytes were passed on.
    passed: u64,
}

impl Filler {
    /// Before the first byte.
    pub(crate) fn new(alloc: Global, wanted: Wanted) -> Filler {
        Filler {
            wanted,
            mode: Mode::Head,
            left: 0,
            state: FillState::new(),
            alloc,
            number: 1,
            board: Vec::new(alloc),
            dealer: Vec::new(alloc),
            vulnerable: Vec::new(alloc),
            passed: 0,
        }
    }

    /// How many games there are so far, with the one at hand.
    pub(crate) fn games(&self) -> u64 {
        if self.state.begun {
            self.number
        } else {
            self.number.saturating_sub(1)
        }
    }

    /// Passes on the first of these bytes, which are all that follow, or the next `NEAR`.
    pub(crate) fn pass<A: Analyst>(
        &mut self,
        near: &[u8],
        is_all: bool,
        analyst: &mut A,
    ) -> Result<(), AllocError> {
        let Some(byte) = near.first() else {
            return Ok(());
        };
        let mark = self.mark(near, is_all);
        self.end_before(&mark, analyst);
        self.take(&mark, *byte)
    }

    // What begins at the first of these bytes.
    fn mark<'a>(&self, near: &'a [u8], is_all: bool) -> Mark<'a> {
        if self.left > 0 {
            Mark::Nothing
        } else {
            mark_at(self.mode, near, is_all)
        }
    }

    // Ends the game that ends before what begins here, if it does.
    fn end_before<A: Analyst>(&mut self, mark: &Mark<'_>, analyst: &mut A) {
        if !self.state.ends(mark) {
            return;
        }
        self.add_lines_at(has_place(mark), analyst);
        analyst.passed(self.number, self.passed);
        self.end_game();
    }

    // The game is over.
    fn end_game(&mut self) {
        self.state.end_game();
        self.number = self.number.saturating_add(1);
        self.board.clear();
        self.dealer.clear();
        self.vulnerable.clear();
    }

    // The byte has been passed on, and what begins with it is taken in.
    fn take(&mut self, mark: &Mark<'_>, byte: u8) -> Result<(), AllocError> {
        self.tell(mark)?;
        self.left = left_within(self.left, mark);
        self.mode = self.mode.next(byte);
        self.passed = self.passed.saturating_add(1);
        Ok(())
    }

    // Takes a tag in.
    fn tell(&mut self, mark: &Mark<'_>) -> Result<(), AllocError> {
        match *mark {
            Mark::Tag { name, quoted, .. } => {
                self.note(name, quoted)?;
                self.state.tell_tag(self.alloc, name, quoted)
            }
            _ => Ok(()),
        }
    }

    // Notes what a tag Board, Dealer or Vulnerable says.
    fn note(&mut self, name: &[u8], quoted: &[u8]) -> Result<(), AllocError> {
        let number = known_number(name);
        if number == Some(BOARD) {
            self.board = unescaped(self.alloc, quoted)?;
        } else if number == Some(DEALER) {
            self.dealer = unescaped(self.alloc, quoted)?;
        } else if number == Some(VULNERABLE) {
            self.vulnerable = unescaped(self.alloc, quoted)?;
        }
        Ok(())
    }

    // Asks for the lines of a game that ends at a place for lines, or at none.
    fn add_lines_at<A: Analyst>(&self, has_place: bool, analyst: &mut A) {
        if has_place {
            self.add_lines(analyst);
        } else {
            self.leave(analyst, Reason::NotClosed);
        }
    }

    /// Asks for the lines of a game that the end of the file ends, or tells that it has no end.
    pub(crate) fn add_last<A: Analyst>(&self, analyst: &mut A) {
        if !self.state.begun {
            return;
        }
        if !is_closed(self.left, self.mode) {
            self.leave(analyst, Reason::NotClosed);
            return;
        }
        self.add_lines(analyst);
    }

    // Asks for the lines of the game at hand.
    fn add_lines<A: Analyst>(&self, analyst: &mut A) {
        match thirteen_in(self.state.deal.value()) {
            Ok(deal) => self.add_lines_of(&deal, analyst),
            Err(unfit) => self.leave(analyst, reason_of(unfit)),
        }
    }

    // Asks for the lines of the game at hand, which has this deal.
    fn add_lines_of<A: Analyst>(&self, deal: &Hands, analyst: &mut A)
        requires { IsThirteen deal.now }
    {
        let lacking = self.state.lacks(self.wanted);
        if !needs(lacking, self.state.has_conditions()) {
            self.tell_unknown(lacking, analyst);
            return;
        }
        match analyst.results(deal) {
            Some(_) => self.tell_unknown(lacking, analyst),
            None => self.leave(analyst, Reason::Spent),
        }
    }

    // Tells why the lines of par are lacking, where they are and who calls first or which sides are vulnerable isn't known.
    fn tell_unknown<A: Analyst>(&self, lacking: Wanted, analyst: &mut A) {
        if !lacking.score && !lacking.contract {
            return;
        }
        if self.state.dealer.value().is_none() {
            self.leave_unknown(analyst, Reason::NoDealer, self.dealer.as_slice());
        } else if self.state.vulnerable.value().is_none() {
            self.leave_unknown(analyst, Reason::NoVulnerable, self.vulnerable.as_slice());
        }
    }

    // Tells why the game at hand lacks a tag, where it lacks one.
    fn leave<A: Analyst>(&self, analyst: &mut A, reason: Reason) {
        self.leave_unknown(analyst, reason, b"");
    }

    // The same, with the text of a tag whose value isn't known.
    fn leave_unknown<A: Analyst>(&self, analyst: &mut A, reason: Reason, text: &[u8]) {
        let lacking = self.state.lacks(self.wanted);
        if lacking.tricks || lacking.score || lacking.contract || lacking.table {
            let unknown: &[u8] = if text == b"?".as_slice() { b"" } else { text };
            analyst.left(
                self.number,
                front(self.board.as_slice()),
                reason,
                front(unknown),
            );
        }
    }
}

/// The most bytes of a tag's text that are told.
const TOLD_BYTES: usize = 32;

// The first bytes of a text.
fn front(text: &[u8]) -> &[u8] {
    &text[..text.len().min(TOLD_BYTES)]
}

fn reason_of(unfit: Unfit) -> Reason {
    match unfit {
        Unfit::NoDeal => Reason::NoDeal,
        Unfit::Refused(fault) => Reason::Refused(fault),
    }
}

// Can lines stand before what begins here?
fn has_place(mark: &Mark<'_>) -> bool {
    match *mark {
        Mark::EmptyLine => true,
        Mark::Tag { is_first, .. } => is_first,
        _ => false,
    }
}

// How many bytes after this one belong to a tag, where so many with it did.
fn left_within(left: usize, mark: &Mark<'_>) -> usize {
    match left {
        0 => left_of(mark),
        _ => left - 1,
    }
}

fn left_of(mark: &Mark<'_>) -> usize {
    match *mark {
        Mark::Tag { length, .. } => length.saturating_sub(1),
        Mark::Cut { length } => length,
        _ => 0,
    }
}

// Is the file closed where it ends so?
fn is_closed(left: usize, mode: Mode) -> bool {
    match (left, mode) {
        (0, Mode::Braced) => false,
        (0, _) => true,
        _ => false,
    }
}

// Does a game that lacks these get a line?
fn needs(lacking: Wanted, has_par: bool) -> bool {
    (lacking.tricks || lacking.table) || (has_par && (lacking.score || lacking.contract))
}
