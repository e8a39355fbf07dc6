//! What is told of the tags of a game that is left: the first bytes of their texts.
ghost use Rattle.std.specs.Prelude.{◌≡◌, ◌≤◌, false, length, take, OnOk};
ghost use Rattle.dd_file.specs.Notes.{texts_of};
ghost use Rattle.dd_file.specs.Told.{is_dealer, is_known, no_texts, texts_told, unknown_text, with_text};
ghost use Rattle.dd_file.specs.Values.{unescaped};

use crate::fill_state::FillState;
use crate::known_tag::{DEALER, VULNERABLE};
use crate::value::unescaped;
use arrayvec::ArrayVec;
use std::alloc::{AllocError, Global};

/// The most bytes of a text that are told.
pub(crate) const TOLD_BYTES: usize = 32;

/// Such bytes.
pub(crate) type ToldText = ArrayVec<u8, TOLD_BYTES>;

/// What is told of a text.
pub(crate) fn told_front(text: &[u8]) -> &[u8]
    ensures text { result.now ≡ take TOLD_BYTES text.now }
    ensures short { length result.now ≤ TOLD_BYTES }
{
    if text.len() <= TOLD_BYTES {
        text
    } else {
        &text[..TOLD_BYTES]
    }
}

/// What the tags Dealer and Vulnerable of a game say, where their values aren't known.
#[derive(Drop)]
pub(crate) struct UnknownTexts {
    pub(crate) dealer: ToldText,
    pub(crate) vulnerable: ToldText,
}

impl UnknownTexts {
    /// They say nothing.
    pub(crate) fn new() -> UnknownTexts
        ensures { texts_of result ≡ no_texts }
    {
        UnknownTexts {
            dealer: ToldText::new(),
            vulnerable: ToldText::new(),
        }
    }

    /// Equal ones.
    pub(crate) fn copy(&self) -> UnknownTexts
        ensures { texts_of result ≡ texts_of self.now }
    {
        UnknownTexts {
            dealer: ToldText::try_from(self.dealer.as_slice()).unwrap_or_default(),
            vulnerable: ToldText::try_from(self.vulnerable.as_slice()).unwrap_or_default(),
        }
    }

    /// The game is over.
    pub(crate) fn clear(&mut self)
        ensures { texts_of self.new ≡ no_texts }
    {
        self.dealer.clear();
        self.vulnerable.clear();
    }

    /// A tag of this number has come, with a string that stands there as it is meant. The game is this one behind it.
    #[inline(always)]
    pub(crate) fn tell(&mut self, number: Option<u8>, text: &[u8], state: &FillState)
        ensures { texts_of self.new ≡ texts_told number text.now state.now (texts_of self.old) }
    {
        if !is_known(number, state) {
            self.put(number, text);
        }
    }

    /// The same with any string.
    pub(crate) fn tell_quoted(
        &mut self,
        alloc: Global,
        number: Option<u8>,
        quoted: &[u8],
        state: &FillState,
    ) -> Result<(), AllocError>
        ensures { OnOk result (texts_of self.new ≡ texts_told number (unescaped false quoted.now) state.now
            (texts_of self.old)) }
    {
        if !is_known(number, state) {
            let text = unescaped(alloc, quoted)?;
            self.put(number, text.as_slice());
        }
        Ok(())
    }

    // The tag Dealer has this text, or else Vulnerable.
    #[inline(never)]
    fn put(&mut self, number: Option<u8>, text: &[u8])
        ensures { texts_of self.new ≡ with_text number text.now (texts_of self.old) }
    {
        if is_dealer(number) {
            self.dealer = unknown_text(text);
        } else {
            self.vulnerable = unknown_text(text);
        }
    }
}

// Is the value of a tag of this number known in this game, or does it not matter?
fn is_known(number: Option<u8>, state: &FillState) -> bool
    ensures { result ≡ is_known number state.now }
{
    let Some(number) = number else {
        return true;
    };
    match number {
        DEALER => state.dealer.value().is_some(),
        VULNERABLE => state.vulnerable.value().is_some(),
        _ => true,
    }
}

// Is it the number of the tag Dealer?
fn is_dealer(number: Option<u8>) -> bool
    ensures { result ≡ is_dealer number }
{
    match number {
        Some(number) => number == DEALER,
        None => false,
    }
}

// What is told of a text that tells no value: nothing where there is none, or `?`.
fn unknown_text(text: &[u8]) -> ToldText
    ensures { result.items ≡ unknown_text text.now }
{
    if text.is_empty() || text == b"?".as_slice() {
        ToldText::new()
    } else {
        ToldText::try_from(told_front(text)).unwrap_or_default()
    }
}
