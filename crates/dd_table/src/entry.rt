//! An exact value in a cell of the front.
ghost use Rattle.std.specs.Prelude.{◌≡◌, IfNone, IfSome};
ghost use Rattle.dd_play.specs.Value.{leaders_tricks};
ghost use Rattle.dd_rank.specs.Alike.{AreAlike};
ghost use Rattle.dd_rank.specs.Strings.{strings_of};
ghost use Rattle.dd_table.specs.Front.{IsExact};

use dd_play::TrickStart;
use dd_rank::{OwnerStrings, alike_positions, alike_strings};
use std::marker::Model;

/// A position at the start of a trick, and the value of each position alike to it: the tricks, 0 to 13, of the leader's
/// side. Contracts see both.
#[derive(Drop)]
pub struct FrontEntry {
    start: TrickStart,
    // those of the start, by which positions are compared
    strings: OwnerStrings,
    value: u8,
}

impl Model for FrontEntry {
    ghost use Rattle.std.specs.Prelude.{◌≡◌};
    ghost use Rattle.dd_rank.specs.Strings.{strings_of};
    ghost use Rattle.dd_table.specs.Front.{Exact, IsExact};

    ghost Value = { Exact };

    ghost view = { λ e. record { board = e.start; value = e.value } };

    ghost invariant = { λ e. (e.strings ≡ strings_of e.start)
        × IsExact (record { board = e.start; value = e.value }) };
}

impl FrontEntry {
    /// An entry of this position with these strings, with its value.
    pub(crate) fn new(start: &TrickStart, strings: &OwnerStrings, value: u8) -> FrontEntry
        requires strings { strings.now ≡ strings_of start.now }
        requires value { value ≡ leaders_tricks start.now }
        ensures { result ≡ record { board = start.now; value = value } }
    {
        // The proof reads here that it is a legal state of play, and that alike positions have one value.
        let _ = start.position();
        alike_positions();
        FrontEntry {
            start: start.copy(),
            strings: strings.copy(),
            value,
        }
    }

    /// The position that was told with the value. A search of more than three tricks tells the first start of a trick of each line of play as
    /// it stands in the deal, and those after it by relative ranks: alike to the deal's, with the seats turned so that North leads, and of
    /// each suit the highest cards in place of those left.
    pub fn start(&self) -> &TrickStart
        ensures { result.now ≡ self.now.board }
    {
        &self.start
    }

    /// The value, which each position alike to that one has.
    pub fn value(&self) -> u8
        ensures value { result ≡ self.now.value }
        ensures exact { IsExact self.now }
    {
        self.value
    }

    /// The value of a position that is alike to the entry's, and nothing of another.
    pub fn value_of(&self, start: &TrickStart) -> Option<u8>
        ensures value { IfSome result (λ value. value ≡ leaders_tricks start.now) }
        ensures some { IfSome result (λ value. AreAlike self.now.board start.now
            × (value ≡ self.now.value)) }
        ensures none { IfNone result (¬ AreAlike self.now.board start.now) }
    {
        self.value_by(start, &OwnerStrings::of(start))
    }

    // The same, where the strings of the position are known.
    pub(crate) fn value_by(&self, start: &TrickStart, strings: &OwnerStrings) -> Option<u8>
        requires { strings.now ≡ strings_of start.now }
        ensures value { IfSome result (λ value. value ≡ leaders_tricks start.now) }
        ensures some { IfSome result (λ value. AreAlike self.now.board start.now
            × (value ≡ self.now.value)) }
        ensures none { IfNone result (¬ AreAlike self.now.board start.now) }
    {
        // The proof reads here that both are legal states of play, and that equal strings are those of alike positions.
        let _ = self.start.position();
        let _ = start.position();
        alike_strings();
        if *strings == self.strings {
            Some(self.value)
        } else {
            None
        }
    }
}
