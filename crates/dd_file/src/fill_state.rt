//! The game at hand, and what it has from those before.
ghost use Rattle.std.specs.Prelude.{◌≡◌, ◌<◌, ◌==◌, ◌&&◌, ◌||◌, false, IfSome, OnOk};
ghost use Rattle.dd_file.specs.Games.{after_end, conditions_of, ends, first_state, has_name, is_required, lacks, line_ends, marked_name, told, with_byte, with_value_of};
ghost use Rattle.dd_file.specs.Kepts.{value_of};
ghost use Rattle.dd_file.specs.Marks.{shown};
ghost use Rattle.dd_file.specs.Quiet.{noted, required_number, with_line_bytes, with_lines};
ghost use Rattle.dd_file.specs.Values.{unescaped};

use crate::kept::Kept;
use crate::known_tag::{
    CONTRACT, DEAL, DEALER, NAMES, REQUIRED, SCORE, TABLE, TRICKS, VULNERABLE, known_number,
};
use crate::line_text::LineEnds;
use crate::mark::Mark;
use crate::mode::{CARRIAGE_RETURN, LINE_FEED};
use crate::value::{
    Unfit, deal_value, dealer_value, text_told, told_in, unescaped, vulnerable_value,
};
use crate::wanted::Wanted;
use dd_cards::{Hands, Seat};
use dd_score::Vulnerable;
use std::alloc::{AllocError, Global};

/// Who calls first, and which sides are vulnerable.
#[derive(Clone, Copy)]
pub(crate) struct Conditions {
    pub(crate) dealer: Seat,
    pub(crate) vulnerable: Vulnerable,
}

/// The game at hand: whether it has begun, which names its tags have, its values; the last byte; and whether the last line
/// that ended has a carriage return before its line feed.
#[derive(Drop)]
pub(crate) struct FillState {
    pub(crate) begun: bool,
    pub(crate) names: [bool; NAMES],
    pub(crate) deal: Kept<Result<Hands, Unfit>>,
    pub(crate) dealer: Kept<Option<Seat>>,
    pub(crate) vulnerable: Kept<Option<Vulnerable>>,
    pub(crate) last: u8,
    pub(crate) has_return: bool,
}

impl FillState {
    /// Before the first byte.
    pub(crate) fn new() -> FillState
        ensures { result ≡ first_state }
    {
        FillState {
            begun: false,
            names: [false; NAMES],
            deal: Kept {
                own: None,
                before: Err(Unfit::NoDeal),
                lacking: Err(Unfit::NoDeal),
            },
            dealer: Kept {
                own: None,
                before: None,
                lacking: None,
            },
            vulnerable: Kept {
                own: None,
                before: None,
                lacking: None,
            },
            last: 0,
            has_return: false,
        }
    }

    /// An equal one.
    pub(crate) fn copy(&self) -> FillState {
        FillState {
            begun: self.begun,
            names: self.names,
            deal: self.deal.copy(),
            dealer: self.dealer.copy(),
            vulnerable: self.vulnerable.copy(),
            last: self.last,
            has_return: self.has_return,
        }
    }

    /// Does the game end before what begins here?
    pub(crate) fn ends(&self, mark: &Mark<'_>) -> bool
        ensures { result ≡ ends self.now (shown mark.now) }
    {
        match *mark {
            Mark::EmptyLine => self.begun,
            Mark::Tag { name, .. } => self.begun && self.has_required(name),
            _ => false,
        }
    }

    /// Does the game end before a tag of this number, or of a name that doesn't matter?
    pub(crate) fn ends_at_tag(&self, number: Option<u8>) -> bool
        ensures { result ≡ (self.now.begun && has_name (required_number number) self.now.names) }
    {
        self.begun && self.has_required_number(number)
    }

    // Does it have a tag of this name, which is one that every game should have?
    fn has_required(&self, name: &[u8]) -> bool
        ensures { result ≡ has_name (is_required name.now) self.now.names }
    {
        self.has_required_number(known_number(name))
    }

    // The same of the name's number.
    fn has_required_number(&self, number: Option<u8>) -> bool
        ensures { result ≡ has_name (required_number number) self.now.names }
    {
        match number {
            Some(number) if (number as usize) < REQUIRED => self.names[number as usize],
            _ => false,
        }
    }

    /// The game is over.
    pub(crate) fn end_game(&mut self)
        ensures { self.new ≡ after_end self.old }
    {
        self.begun = false;
        self.names = [false; NAMES];
        self.deal.end_game();
        self.dealer.end_game();
        self.vulnerable.end_game();
    }

    /// A tag of this number comes, or of a name that doesn't matter.
    pub(crate) fn tell_tag(
        &mut self,
        alloc: Global,
        number: Option<u8>,
        quoted: &[u8],
    ) -> Result<(), AllocError>
        requires { IfSome number (λ n. n < 19) }
        ensures { OnOk result (self.new ≡ told number (unescaped false quoted.now) self.old) }
    {
        let Some(number) = number else {
            self.begun = true;
            return Ok(());
        };
        if !has_value(number) {
            self.note(number);
            return Ok(());
        }
        let text = unescaped(alloc, quoted)?;
        self.note(number);
        self.tell(number, text.as_slice());
        Ok(())
    }

    /// The same with the text of its string, which stands there as it is meant.
    pub(crate) fn tell_text(&mut self, number: Option<u8>, text: &[u8])
        requires { IfSome number (λ n. n < 19) }
        ensures { self.new ≡ told number text.now self.old }
    {
        let Some(number) = number else {
            self.begun = true;
            return;
        };
        self.note(number);
        if has_value(number) {
            self.tell(number, text);
        }
    }

    // A tag of this number is there.
    fn note(&mut self, number: u8)
        requires { number < 19 }
        ensures { self.new ≡ noted number self.old }
    {
        self.begun = true;
        self.names[number as usize] = true;
    }

    // The tag of this number has this text.
    fn tell(&mut self, number: u8, text: &[u8])
        ensures { self.new ≡ with_value_of number text.now self.old }
    {
        let told = told_in(text);
        let value = text_told(told, text);
        match number {
            DEAL => self.deal.tell(told, deal_value(value)),
            DEALER => self.dealer.tell(told, dealer_value(value)),
            VULNERABLE => self.vulnerable.tell(told, vulnerable_value(value)),
            _ => {}
        }
    }

    /// A byte is passed on.
    pub(crate) fn pass(&mut self, byte: u8)
        ensures { self.new ≡ with_byte byte self.old }
    {
        if byte == LINE_FEED {
            self.has_return = self.last == CARRIAGE_RETURN;
        }
        self.last = byte;
    }

    /// Bytes that end no line are passed on.
    pub(crate) fn pass_line_bytes(&mut self, bytes: &[u8])
        ensures { self.new ≡ with_line_bytes bytes.now self.old }
    {
        if let [.., last] = bytes {
            self.last = *last;
        }
    }

    /// Whole lines are passed on, each of at least two bytes.
    pub(crate) fn pass_lines(&mut self, bytes: &[u8])
        ensures { self.new ≡ with_lines bytes.now self.old }
    {
        if let [.., before, _] = bytes {
            self.has_return = *before == CARRIAGE_RETURN;
            self.last = LINE_FEED;
        }
    }

    /// The tags that it lacks of those that are wanted.
    pub(crate) fn lacks(&self, wanted: Wanted) -> Wanted
        ensures { result ≡ lacks wanted self.now }
    {
        Wanted {
            tricks: wanted.tricks && !self.names[TRICKS],
            score: wanted.score && !self.names[SCORE],
            contract: wanted.contract && !self.names[CONTRACT],
            table: wanted.table && !self.names[TABLE],
        }
    }

    /// Who calls first and which sides are vulnerable, where both are known.
    pub(crate) fn conditions(&self) -> Option<Conditions>
        ensures { result ≡ conditions_of self.now }
    {
        match (self.dealer.value(), self.vulnerable.value()) {
            (Some(dealer), Some(vulnerable)) => Some(Conditions { dealer, vulnerable }),
            _ => None,
        }
    }

    /// The line ends of a line that is added here.
    pub(crate) fn line_ends(&self) -> LineEnds
        ensures { result ≡ line_ends self.now }
    {
        LineEnds {
            has_return: self.has_return,
            leads: self.last != LINE_FEED,
        }
    }
}

// Does it matter what the value of a tag of this number is?
fn has_value(number: u8) -> bool
    ensures { result ≡ ((number == DEAL || number == DEALER) || number == VULNERABLE) }
{
    number == DEAL || number == DEALER || number == VULNERABLE
}
