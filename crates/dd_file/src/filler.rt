//! A file passed on by stretches, tags and single bytes, with the lines that its games lack.
ghost use Rattle.std.specs.Prelude.{◌≡◌, ◌<◌, ◌+◌, ◌-◌, ◌^◌, ◌++◌, [], false, length, min, not, slice_index, take, true, IfOk, IfSome, OnErr, OnOk, Option, Some};
ghost use Rattle.dd_cards.specs.Hands.{FourHands};
ghost use Rattle.dd_file.specs.Deals.{IsThirteen};
ghost use Rattle.dd_file.specs.Filled.{Found, ask_at, ask_of, ask_with, has_place, needs};
ghost use Rattle.dd_file.specs.Games.{after_end, conditions_of, ends, first_state, lacks, line_ends, next_state, told, with_byte, with_mark};
ghost use Rattle.dd_file.specs.Marked.{is_closed, left_of, left_within};
ghost use Rattle.dd_file.specs.Marks.{shown};
ghost use Rattle.dd_file.specs.Modes.{next_mode};
ghost use Rattle.dd_file.specs.Notes.{AsksAtEnd, Notes, NotesFirst, board_of, games_of, notes_of, unknown_of};
ghost use Rattle.dd_file.specs.Notices.{Hears};
ghost use Rattle.dd_file.specs.Passing.{AddsAnswer, AddsLast, EndsBefore, EndsHere, KeepsPlace, PassesByte, StopsAt, begins_now};
ghost use Rattle.dd_file.specs.Quiet.{Counts, IsPlace, KeepsCounts, PassesQuiet, PassesTag, Takes, is_alone, is_quiet, with_line_bytes};
ghost use Rattle.dd_file.specs.Told.{board_here, board_told, board_with, first_notes, is_board, left_of_game, no_texts, number_here, reason_of, texts_here, texts_told, texts_with, why_at, why_par, why_with, why};
ghost use Rattle.dd_file.specs.Values.{unescaped};
ghost use Rattle.dd_file.specs.Windows.{Stops};

use crate::analyst::{Analyst, Reason};
use crate::fill_state::FillState;
use crate::found_lines::push_found;
use crate::known_tag::{BOARD, known_number};
use crate::mark::{Mark, NEAR, mark_at};
use crate::mode::{CARRIAGE_RETURN, LINE_FEED, Mode};
use crate::quiet::{after_calm, after_plain_lines, is_alone};
use crate::tag_reader::{after_first, read_short_tag};
use crate::told_texts::{TOLD_BYTES, UnknownTexts, told_front};
use crate::value::{Unfit, thirteen_in, unescaped};
use crate::wanted::Wanted;
use dd_cards::Hands;
use std::alloc::{AllocError, Global};

/// A file that is passed on.
#[derive(Drop)]
pub(crate) struct Filler {
    pub(crate) wanted: Wanted,
    /// Where the next byte stands.
    pub(crate) mode: Mode,
    /// How many bytes from there on belong to a tag that has begun.
    pub(crate) left: usize,
    pub(crate) state: FillState,
    alloc: Global,
    // The number of the game at hand, what its tag Board says, and what those say whose values aren't known.
    number: u64,
    board: Vec<u8>,
    unknown: UnknownTexts,
    // How many bytes were passed on.
    passed: u64,
}

impl Filler {
    /// Before the first byte.
    pub(crate) fn new(alloc: Global, wanted: Wanted) -> Filler
        ensures wanted { result.wanted ≡ wanted }
        ensures mode { result.mode ≡ Mode.Head }
        ensures left { result.left ≡ 0 }
        ensures state { result.state ≡ first_state }
        ensures number { result.number ≡ 1 }
        ensures notes { notes_of result ≡ first_notes }
    {
        Filler {
            wanted,
            mode: Mode::Head,
            left: 0,
            state: FillState::new(),
            alloc,
            number: 1,
            board: Vec::new(alloc),
            unknown: UnknownTexts::new(),
            passed: 0,
        }
    }

    /// One that passes on the same bytes.
    pub(crate) fn copy(&self) -> Result<Filler, AllocError> {
        Ok(Filler {
            wanted: self.wanted,
            mode: self.mode,
            left: self.left,
            state: self.state.copy(),
            alloc: self.alloc,
            number: self.number,
            board: Vec::from_slice(self.alloc, self.board.as_slice())?,
            unknown: self.unknown.copy(),
            passed: self.passed,
        })
    }

    /// How many games there are so far, with the one at hand.
    pub(crate) fn games(&self) -> u64
        ensures { result ≡ games_of self.now }
    {
        if self.state.begun {
            self.number
        } else {
            self.number.saturating_sub(1)
        }
    }

    /// Passes on the first of these bytes, which are all that follow, or the next `NEAR`.
    pub(crate) fn pass<A: Analyst>(
        &mut self,
        near: &[u8],
        is_all: bool,
        analyst: &mut A,
        out: &mut Vec<u8>,
    ) -> Result<(), AllocError>
        requires { 0 < length near.now }
        ensures passes { OnOk result (PassesByte A.gives A.way self.old self.new
            (A.state analyst.old) (A.state analyst.new)
            (begins_now self.old.left self.old.mode is_all near.now) (slice_index near.now 0)
            out.old.items out.new.items) }
        ensures notes { OnOk result (Notes self.old self.new
            (begins_now self.old.left self.old.mode is_all near.now)) }
        ensures passed { OnOk result (self.new.passed ≡ min (self.old.passed + 1) (2 ^ 64 - 1)) }
        ensures asks { ends self.old.state (begins_now self.old.left self.old.mode is_all near.now) ≡ false
            → analyst.new ≡ analyst.old }
        ensures stops { OnErr result (StopsAt A.gives A.way self.old (A.state analyst.old)
            (A.state analyst.new)
            (begins_now self.old.left self.old.mode is_all near.now)) }
    {
        let byte = near[0];
        let mark = self.mark(near, is_all);
        self.end_before(&mark, analyst, out)?;
        out.push(byte)?;
        self.take(&mark, byte)
    }

    /// Passes on the first of these bytes, as far as they come out alone, and tells how many.
    // Where a tag comes next there are none, and nothing is called.
    #[inline(always)]
    pub(crate) fn pass_quiet(&mut self, text: &[u8], out: &mut Vec<u8>) -> Result<usize, AllocError>
        ensures passes { IfOk result
            (λ count. PassesQuiet self.old self.new text.now count out.old.items out.new.items) }
        ensures counts { IfOk result (λ count. Counts self.old self.new count) }
    {
        if !self.begins_quiet(text) {
            return Ok(0);
        }
        self.pass_stretch(text, out)
    }

    // The same of bytes of which the first comes out alone.
    #[inline(never)]
    fn pass_stretch(&mut self, text: &[u8], out: &mut Vec<u8>) -> Result<usize, AllocError>
        ensures passes { IfOk result
            (λ count. PassesQuiet self.old self.new text.now count out.old.items out.new.items) }
        ensures counts { IfOk result (λ count. Counts self.old self.new count) }
    {
        let count = text.len().saturating_sub(self.take_quiet(text).len());
        out.extend_from_slice(&text[..count])?;
        self.passed = self.passed.saturating_add(count as u64);
        Ok(count)
    }

    /// Passes on a tag that the text begins with, where it stands on one line and is read at once, and tells how many bytes it
    /// has: 0 where there is none.
    pub(crate) fn pass_tag<A: Analyst>(
        &mut self,
        text: &[u8],
        analyst: &mut A,
        out: &mut Vec<u8>,
    ) -> Result<usize, AllocError>
        ensures passes { IfOk result (λ count. PassesTag A.gives A.way self.old self.new (notes_of self.new)
            (A.state analyst.old) (A.state analyst.new) text.now count out.old.items out.new.items) }
        ensures counts { IfOk result (λ count. (0 < count
            → self.new.passed ≡ min (self.old.passed + count) (2 ^ 64 - 1))
            × (count ≡ 0 → KeepsCounts self.old self.new)) }
        ensures notes { IfOk result (λ count. NotesFirst self.old self.new text.now count) }
        ensures asks { IfOk result (λ count. AsksAtEnd self.old text.now analyst.old analyst.new) }
        ensures stops { OnErr result (Stops A.gives A.way false self.old
            (A.state analyst.old) (A.state analyst.new) text.now) }
    {
        let Some(is_first) = tag_place(self.left, self.mode) else {
            return Ok(0);
        };
        let Some(tag) = read_short_tag(text) else {
            return Ok(0);
        };
        let length = text.len().saturating_sub(tag.rest.len());
        if length > NEAR {
            return Ok(0);
        }
        let number = known_number(tag.name);
        let ends = self.state.ends_at_tag(number);
        self.end_here(ends, is_first, analyst, out)?;
        self.take_whole(number, tag.quoted, &text[..length])?;
        let behind = self.take_line_end(tag.rest);
        let taken = text.len().saturating_sub(behind.len());
        out.extend_from_slice(&text[..taken])?;
        self.passed = self.passed.saturating_add(taken as u64);
        Ok(taken)
    }

    // Takes all bytes of a tag on one line in, which has a name of this number and a string that stands there as it is meant.
    fn take_whole(
        &mut self,
        number: Option<u8>,
        quoted: &[u8],
        bytes: &[u8],
    ) -> Result<(), AllocError>
        requires { IfSome number (λ n. n < 19) }
        ensures state { OnOk result (self.new.state
            ≡ with_line_bytes bytes.now (told number quoted.now self.old.state)) }
        ensures mode { OnOk result (self.new.mode ≡ Mode.Plain) }
        ensures left { OnOk result (self.new.left ≡ self.old.left) }
        ensures wanted { OnOk result (self.new.wanted ≡ self.old.wanted) }
        ensures passed { OnOk result (self.new.passed ≡ self.old.passed) }
        ensures number { OnOk result (self.new.number ≡ self.old.number) }
        ensures board { OnOk result (board_of self.new ≡ board_told number quoted.now (board_of self.old)) }
        ensures texts { OnOk result (unknown_of self.new
            ≡ texts_told number quoted.now (told number quoted.now self.old.state) (unknown_of self.old)) }
    {
        self.note_plain_board(number, quoted)?;
        self.state.tell_text(number, quoted);
        self.unknown.tell(number, quoted, &self.state);
        self.state.pass_line_bytes(bytes);
        self.mode = Mode::Plain;
        Ok(())
    }

    // Takes the end of a line in where it comes next, and gives the bytes after it.
    #[inline(always)]
    fn take_line_end<'a>(&mut self, text: &'a [u8]) -> &'a [u8]
        requires { self.old.mode ≡ Mode.Plain }
        ensures takes { Takes self.old self.new text.now result.now }
        ensures counts { KeepsCounts self.old self.new }
    {
        let rest = self.take_next(CARRIAGE_RETURN, text);
        self.take_next(LINE_FEED, rest)
    }

    // Takes a byte in at which nothing begins outside, if it comes next.
    #[inline(always)]
    fn take_next<'a>(&mut self, byte: u8, text: &'a [u8]) -> &'a [u8]
        requires plain { self.old.mode ≡ Mode.Plain }
        requires quiet { is_quiet Mode.Plain byte ≡ true }
        ensures takes { Takes self.old self.new text.now result.now }
        ensures counts { KeepsCounts self.old self.new }
        ensures mode { next_mode Mode.Plain byte ≡ Mode.Plain → self.new.mode ≡ Mode.Plain }
    {
        match after_first(byte, text) {
            Some(rest) => {
                self.take_byte(byte);
                rest
            }
            None => text,
        }
    }

    // Does the first of these bytes come out alone?
    fn begins_quiet(&self, text: &[u8]) -> bool {
        match text {
            [first, ..] => self.is_alone(*first),
            [] => false,
        }
    }

    // Does this byte come out alone if it is the next one, whatever follows?
    fn is_alone(&self, byte: u8) -> bool
        ensures { result ≡ is_alone self.now.state.begun self.now.left self.now.mode byte }
    {
        is_alone(self.state.begun, self.left, self.mode, byte)
    }

    // Takes such bytes in, and gives those after them: lines of plain text, calm bytes, and one behind them that comes out alone, by
    // turns.
    fn take_quiet<'a>(&mut self, text: &'a [u8]) -> &'a [u8]
        ensures takes { Takes self.old self.new text.now result.now }
        ensures counts { KeepsCounts self.old self.new }
    {
        let mut rest = text;
        'stretches: loop {
            let after = self.take_stretch(rest);
            let [first, tail @ ..] = after else {
                return after;
            };
            if !self.is_alone(*first) {
                return after;
            }
            self.take_byte(*first);
            rest = tail;
        }
    }

    // Takes lines of plain text in, and calm bytes behind them.
    fn take_stretch<'a>(&mut self, text: &'a [u8]) -> &'a [u8]
        ensures takes { Takes self.old self.new text.now result.now }
        ensures counts { KeepsCounts self.old self.new }
    {
        let rest = self.take_lines(text);
        self.take_calm(rest)
    }

    // Takes lines of plain text in.
    fn take_lines<'a>(&mut self, text: &'a [u8]) -> &'a [u8]
        ensures takes { Takes self.old self.new text.now result.now }
        ensures counts { KeepsCounts self.old self.new }
    {
        let Some(true) = tag_place(self.left, self.mode) else {
            return text;
        };
        let rest = after_plain_lines(text);
        let lines = &text[..text.len().saturating_sub(rest.len())];
        self.state.pass_lines(lines);
        rest
    }

    // Takes calm bytes in.
    fn take_calm<'a>(&mut self, text: &'a [u8]) -> &'a [u8]
        ensures takes { Takes self.old self.new text.now result.now }
        ensures counts { KeepsCounts self.old self.new }
    {
        let rest = after_calm(self.mode, text);
        let bytes = &text[..text.len().saturating_sub(rest.len())];
        self.state.pass_line_bytes(bytes);
        self.left = self.left.saturating_sub(bytes.len());
        rest
    }

    // Takes a byte in that comes out alone.
    #[inline(always)]
    fn take_byte(&mut self, byte: u8)
        ensures state { self.new.state ≡ with_byte byte self.old.state }
        ensures mode { self.new.mode ≡ next_mode self.old.mode byte }
        ensures left { self.new.left ≡ self.old.left - 1 }
        ensures wanted { self.new.wanted ≡ self.old.wanted }
        ensures counts { KeepsCounts self.old self.new }
    {
        self.state.pass(byte);
        self.left = self.left.saturating_sub(1);
        self.mode = self.mode.next(byte);
    }

    // What begins at the first of these bytes.
    fn mark<'a>(&self, near: &'a [u8], is_all: bool) -> Mark<'a>
        ensures { shown result ≡ begins_now self.now.left self.now.mode is_all near.now }
    {
        if self.left > 0 {
            Mark::Nothing
        } else {
            mark_at(self.mode, near, is_all)
        }
    }

    // Ends the game that ends before what begins here, if it does.
    #[inline(always)]
    fn end_before<A: Analyst>(
        &mut self,
        mark: &Mark<'_>,
        analyst: &mut A,
        out: &mut Vec<u8>,
    ) -> Result<(), AllocError>
        ensures ends { OnOk result (EndsBefore A.gives A.way self.old self.new
            (A.state analyst.old) (A.state analyst.new) (shown mark.now) out.old.items out.new.items) }
        ensures passed { OnOk result (self.new.passed ≡ self.old.passed) }
        ensures number { OnOk result (self.new.number
            ≡ number_here (ends self.old.state (shown mark.now)) self.old.number) }
        ensures board { OnOk result (board_of self.new
            ≡ board_here (ends self.old.state (shown mark.now)) (board_of self.old)) }
        ensures texts { OnOk result (unknown_of self.new
            ≡ texts_here (ends self.old.state (shown mark.now)) (unknown_of self.old)) }
        ensures asks { ends self.old.state (shown mark.now) ≡ false → analyst.new ≡ analyst.old }
        ensures stops { OnErr result (A.state analyst.new ≡ A.state analyst.old) }
    {
        let ends = self.state.ends(mark);
        self.end_here(ends, has_place(mark), analyst, out)
    }

    // Ends the game at hand, at a place for lines or at none, if it ends.
    #[inline(always)]
    fn end_here<A: Analyst>(
        &mut self,
        ends: bool,
        has_place: bool,
        analyst: &mut A,
        out: &mut Vec<u8>,
    ) -> Result<(), AllocError>
        ensures ends { OnOk result (EndsHere A.gives A.way self.old self.new
            (A.state analyst.old) (A.state analyst.new) ends has_place out.old.items out.new.items) }
        ensures passed { OnOk result (self.new.passed ≡ self.old.passed) }
        ensures number { OnOk result (self.new.number ≡ number_here ends self.old.number) }
        ensures board { OnOk result (board_of self.new ≡ board_here ends (board_of self.old)) }
        ensures texts { OnOk result (unknown_of self.new ≡ texts_here ends (unknown_of self.old)) }
        ensures asks { ends ≡ false → analyst.new ≡ analyst.old }
        ensures stops { OnErr result (A.state analyst.new ≡ A.state analyst.old) }
    {
        if !ends {
            return Ok(());
        }
        self.add_lines_at(has_place, analyst, out)?;
        analyst.passed(self.number, self.passed);
        self.end_game();
        Ok(())
    }

    // The game is over.
    fn end_game(&mut self)
        ensures state { self.new.state ≡ after_end self.old.state }
        ensures place { KeepsPlace self.old self.new }
        ensures passed { self.new.passed ≡ self.old.passed }
        ensures number { self.new.number ≡ min (self.old.number + 1) (2 ^ 64 - 1) }
        ensures board { self.new.board.items ≡ [] }
        ensures texts { unknown_of self.new ≡ no_texts }
    {
        self.state.end_game();
        self.number = self.number.saturating_add(1);
        self.board.clear();
        self.unknown.clear();
    }

    // The byte has been passed on, and what begins with it is taken in.
    fn take(&mut self, mark: &Mark<'_>, byte: u8) -> Result<(), AllocError>
        ensures state { OnOk result (self.new.state ≡ next_state self.old.state (shown mark.now) byte) }
        ensures mode { OnOk result (self.new.mode ≡ next_mode self.old.mode byte) }
        ensures left { OnOk result (self.new.left ≡ left_within self.old.left (shown mark.now)) }
        ensures wanted { OnOk result (self.new.wanted ≡ self.old.wanted) }
        ensures passed { OnOk result (self.new.passed ≡ min (self.old.passed + 1) (2 ^ 64 - 1)) }
        ensures number { OnOk result (self.new.number ≡ self.old.number) }
        ensures board { OnOk result (board_of self.new ≡ board_with (shown mark.now) (board_of self.old)) }
        ensures texts { OnOk result (unknown_of self.new
            ≡ texts_with (shown mark.now) self.old.state (unknown_of self.old)) }
    {
        self.tell(mark)?;
        self.state.pass(byte);
        self.left = left_within(self.left, mark);
        self.mode = self.mode.next(byte);
        self.passed = self.passed.saturating_add(1);
        Ok(())
    }

    // Takes a tag in.
    #[inline(always)]
    #[tactic(auto, unfolding(crate::specs::Games::with_tag))]
    fn tell(&mut self, mark: &Mark<'_>) -> Result<(), AllocError>
        ensures state { OnOk result (self.new.state ≡ with_mark (shown mark.now) self.old.state) }
        ensures place { OnOk result (KeepsPlace self.old self.new) }
        ensures passed { OnOk result (self.new.passed ≡ self.old.passed) }
        ensures number { OnOk result (self.new.number ≡ self.old.number) }
        ensures board { OnOk result (board_of self.new ≡ board_with (shown mark.now) (board_of self.old)) }
        ensures texts { OnOk result (unknown_of self.new
            ≡ texts_with (shown mark.now) self.old.state (unknown_of self.old)) }
    {
        match *mark {
            Mark::Tag { name, quoted, .. } => {
                let number = known_number(name);
                self.note_board(number, quoted)?;
                self.state.tell_tag(self.alloc, number, quoted)?;
                self.unknown
                    .tell_quoted(self.alloc, number, quoted, &self.state)
            }
            _ => Ok(()),
        }
    }

    // Notes what a tag says whose number is that of Board.
    fn note_board(&mut self, number: Option<u8>, quoted: &[u8]) -> Result<(), AllocError>
        ensures state { OnOk result (self.new.state ≡ self.old.state) }
        ensures place { OnOk result (KeepsPlace self.old self.new) }
        ensures passed { OnOk result (self.new.passed ≡ self.old.passed) }
        ensures number { OnOk result (self.new.number ≡ self.old.number) }
        ensures board { OnOk result (board_of self.new
            ≡ board_told number (unescaped false quoted.now) (board_of self.old)) }
        ensures unknown { OnOk result (self.new.unknown ≡ self.old.unknown) }
    {
        if is_board(number) {
            self.board = unescaped(self.alloc, quoted)?;
        }
        Ok(())
    }

    // The same of a string that stands there as it is meant, as far as it is told.
    fn note_plain_board(&mut self, number: Option<u8>, text: &[u8]) -> Result<(), AllocError>
        ensures state { OnOk result (self.new.state ≡ self.old.state) }
        ensures place { OnOk result (KeepsPlace self.old self.new) }
        ensures passed { OnOk result (self.new.passed ≡ self.old.passed) }
        ensures number { OnOk result (self.new.number ≡ self.old.number) }
        ensures board { number ≡ Some 3 → OnOk result (self.new.board.items ≡ take TOLD_BYTES text.now) }
        ensures told { OnOk result (board_of self.new ≡ board_told number text.now (board_of self.old)) }
        ensures unknown { OnOk result (self.new.unknown ≡ self.old.unknown) }
    {
        if is_board(number) {
            self.board = Vec::from_slice(self.alloc, told_front(text))?;
        }
        Ok(())
    }

    // Adds the lines of a game that ends at a place for lines, or at none.
    fn add_lines_at<A: Analyst>(
        &self,
        has_place: bool,
        analyst: &mut A,
        out: &mut Vec<u8>,
    ) -> Result<(), AllocError>
        ensures adds { OnOk result (AddsAnswer A.gives A.way (ask_at has_place self.now.wanted self.now.state)
            (why has_place self.now.wanted self.now.state (unknown_of self.now))
            self.now.wanted self.now.state (notes_of self.now)
            (A.state analyst.old) (A.state analyst.new) out.old.items out.new.items) }
        ensures stops { OnErr result (A.state analyst.new ≡ A.state analyst.old) }
    {
        if has_place {
            return self.add_lines(analyst, out);
        }
        self.leave_open(analyst);
        Ok(())
    }

    /// Adds the lines of a game that the end of the file ends, or tells that it has no end.
    pub(crate) fn add_last<A: Analyst>(
        &self,
        analyst: &mut A,
        out: &mut Vec<u8>,
    ) -> Result<(), AllocError>
        ensures adds { OnOk result (AddsLast A.gives A.way (is_closed self.now.left self.now.mode) self.now
            (A.state analyst.old) (A.state analyst.new) out.old.items out.new.items) }
        ensures stops { OnErr result (A.state analyst.new ≡ A.state analyst.old) }
    {
        if !self.state.begun {
            return Ok(());
        }
        if !is_closed(self.left, self.mode) {
            self.leave_open(analyst);
            return Ok(());
        }
        self.add_lines(analyst, out)
    }

    // Adds the lines of the game at hand.
    fn add_lines<A: Analyst>(&self, analyst: &mut A, out: &mut Vec<u8>) -> Result<(), AllocError>
        ensures adds { OnOk result (AddsAnswer A.gives A.way (ask_of self.now.wanted self.now.state)
            (why true self.now.wanted self.now.state (unknown_of self.now))
            self.now.wanted self.now.state (notes_of self.now)
            (A.state analyst.old) (A.state analyst.new) out.old.items out.new.items) }
        ensures stops { OnErr result (A.state analyst.new ≡ A.state analyst.old) }
    {
        if lacks_none(self.state.lacks(self.wanted)) {
            return Ok(());
        }
        match thirteen_in(self.state.deal.value()) {
            Ok(deal) => self.add_lines_of(&deal, analyst, out),
            Err(unfit) => {
                self.leave(analyst, reason_of(unfit), b"");
                Ok(())
            }
        }
    }

    // Adds the lines of the game at hand, which has this deal.
    fn add_lines_of<A: Analyst>(
        &self,
        deal: &Hands,
        analyst: &mut A,
        out: &mut Vec<u8>,
    ) -> Result<(), AllocError>
        requires { IsThirteen deal.now }
        ensures adds { OnOk result (AddsAnswer A.gives A.way
            (ask_with (Ok deal.now) (conditions_of self.now.state) (lacks self.now.wanted self.now.state))
            (why_with (Ok deal.now) (lacks self.now.wanted self.now.state) self.now.state
            (unknown_of self.now))
            self.now.wanted self.now.state (notes_of self.now)
            (A.state analyst.old) (A.state analyst.new) out.old.items out.new.items) }
        ensures stops { OnErr result (A.state analyst.new ≡ A.state analyst.old) }
    {
        let lacking = self.state.lacks(self.wanted);
        let conditions = self.state.conditions();
        if !needs(lacking, conditions.is_some()) {
            self.tell_unknown(lacking, analyst);
            return Ok(());
        }
        match analyst.results(deal) {
            Some(results) => {
                push_found(out, self.state.line_ends(), lacking, &results, conditions)?;
                // Only now: where memory runs out it is told nothing of a game whose lines are lost.
                self.tell_unknown(lacking, analyst);
                Ok(())
            }
            None => {
                self.leave(analyst, Reason::Spent, b"");
                Ok(())
            }
        }
    }

    // Tells why the lines of par are lacking, where they are and who calls first or which sides are vulnerable isn't known.
    fn tell_unknown<A: Analyst>(&self, lacking: Wanted, analyst: &mut A)
        ensures { Hears A.way (A.state analyst.old)
            (left_of_game (notes_of self.now) (why_par lacking self.now.state (unknown_of self.now)))
            (A.state analyst.new) }
    {
        if !lacking.score && !lacking.contract {
            return;
        }
        if self.state.dealer.value().is_none() {
            self.leave(analyst, Reason::NoDealer, self.unknown.dealer.as_slice());
        } else if self.state.vulnerable.value().is_none() {
            self.leave(
                analyst,
                Reason::NoVulnerable,
                self.unknown.vulnerable.as_slice(),
            );
        }
    }

    // Tells that the game at hand has no end, or none at which a line can stand, where it lacks a tag.
    fn leave_open<A: Analyst>(&self, analyst: &mut A)
        ensures { (answer : Option Found) → Hears A.way (A.state analyst.old)
            (left_of_game (notes_of self.now) (why false self.now.wanted self.now.state
            (unknown_of self.now) answer))
            (A.state analyst.new) }
    {
        if !lacks_none(self.state.lacks(self.wanted)) {
            self.leave(analyst, Reason::NotClosed, b"");
        }
    }

    // Tells why the game at hand lacks a tag, with the text of one whose value isn't known.
    fn leave<A: Analyst>(&self, analyst: &mut A, reason: Reason, unknown: &[u8])
        ensures { Hears A.way (A.state analyst.old)
            (left_of_game (notes_of self.now) (Some record { reason = reason; text = unknown.now }))
            (A.state analyst.new) }
    {
        analyst.left(
            self.number,
            told_front(self.board.as_slice()),
            reason,
            unknown,
        );
    }
}

// Whether a tag that begins at a byte that stands so is the first thing on its line, where one can begin. The byte is not
// within a tag, nor the first of the file or of its text behind a byte-order mark.
fn tag_place(left: usize, mode: Mode) -> Option<bool>
    ensures left { IfSome result (λ is_first. left ≡ 0) }
    ensures mode { IfSome result (λ is_first. IsPlace mode is_first) }
{
    match (left, mode) {
        (0, Mode::Start) => Some(true),
        (0, Mode::Plain) => Some(false),
        _ => None,
    }
}

// Is it the number of the tag Board?
fn is_board(number: Option<u8>) -> bool
    ensures { result ≡ is_board number }
{
    match number {
        Some(number) => number == BOARD,
        None => false,
    }
}

fn reason_of(unfit: Unfit) -> Reason
    ensures { result ≡ reason_of unfit }
{
    match unfit {
        Unfit::NoDeal => Reason::NoDeal,
        Unfit::Refused(fault) => Reason::Refused(fault),
    }
}

// Can lines stand before what begins here?
fn has_place(mark: &Mark<'_>) -> bool
    ensures { result ≡ has_place (shown mark.now) }
{
    match *mark {
        Mark::EmptyLine => true,
        Mark::Tag { is_first, .. } => is_first,
        _ => false,
    }
}

// How many bytes after this one belong to a tag, where so many with it did.
fn left_within(left: usize, mark: &Mark<'_>) -> usize
    ensures { result ≡ left_within left (shown mark.now) }
{
    match left {
        0 => left_of(mark),
        _ => left - 1,
    }
}

fn left_of(mark: &Mark<'_>) -> usize
    ensures { result ≡ left_of (shown mark.now) }
{
    match *mark {
        Mark::Tag { length, .. } => length.saturating_sub(1),
        Mark::Cut { length } => length,
        _ => 0,
    }
}

// Is the file closed where it ends so?
fn is_closed(left: usize, mode: Mode) -> bool
    ensures { result ≡ is_closed left mode }
{
    match (left, mode) {
        (0, Mode::Braced) => false,
        (0, _) => true,
        _ => false,
    }
}

// Is nothing lacking?
fn lacks_none(lacking: Wanted) -> bool
    ensures { result ≡ not (needs lacking true) }
{
    !needs(lacking, true)
}

// Does a game that lacks these get a line?
fn needs(lacking: Wanted, has_par: bool) -> bool
    ensures { result ≡ needs lacking has_par }
{
    (lacking.tricks || lacking.table) || (has_par && (lacking.score || lacking.contract))
}
