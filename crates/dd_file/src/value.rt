//! What the values of tags mean.
ghost use Rattle.std.specs.Prelude.{◌≡◌, ◌<◌, ◌≤◌, ◌∷◌, ◌++◌, List, ℕ, false, length, IfOk};
ghost use Rattle.dd_cards.specs.Hands.{AreHands};
ghost use Rattle.dd_pbn.specs.Reading.{outcome, value_of};
ghost use Rattle.dd_file.specs.Deals.{IsThirteen};
ghost use Rattle.dd_file.specs.Values.{behind_two, begins_colon, closed_up, deal_read, deal_value, dealer_value, fault_of, has_length, is_word, letter_closed, of_thirteen, seat_of, text_told, thirteen_in, told_in, unescaped, vulnerable_value};

use crate::analyst::DealFault;
use crate::kept::{Told, Value};
use crate::mark::after_blanks;
use crate::quiet::after_quoted;
use arrayvec::ArrayVec;
use dd_cards::{Hands, Seat};
use dd_pbn::{PbnFault, read_deal};
use dd_score::Vulnerable;
use std::alloc::{AllocError, Global};

/// The longest value of a tag Deal that is read.
pub(crate) const LONGEST_DEAL: usize = 1_024;

/// The cards of each hand of a deal.
pub(crate) const THIRTEEN: u8 = 13;

/// Why a game has no deal.
#[derive(Clone, Copy, Debug, PartialEq, Eq)]
pub(crate) enum Unfit {
    /// There is none.
    NoDeal,
    /// It isn't one of thirteen cards a hand.
    Refused(DealFault),
}

impl Value for Result<Hands, Unfit> {
    fn copy(&self) -> Result<Hands, Unfit> {
        match self {
            Ok(hands) => Ok(hands.copy()),
            Err(unfit) => Err(*unfit),
        }
    }
}

impl Value for Option<Seat> {
    fn copy(&self) -> Option<Seat> {
        *self
    }
}

impl Value for Option<Vulnerable> {
    fn copy(&self) -> Option<Vulnerable> {
        *self
    }
}

/// A string without the backslashes that stand before quotes and backslashes.
pub(crate) fn unescaped(alloc: Global, quoted: &[u8]) -> Result<Vec<u8>, AllocError>
    ensures { IfOk result (λ text. text.items ≡ unescaped false quoted.now) }
{
    let rest = after_quoted(quoted);
    // Room for all of it at once: where it grew, memory would be asked for more often.
    let mut text = Vec::with_capacity(alloc, quoted.len())?;
    text.extend_from_slice(&quoted[..quoted.len().saturating_sub(rest.len())])?;
    let mut is_behind_backslash = false;
    for byte in rest {
        is_behind_backslash = push_unescaped(&mut text, is_behind_backslash, *byte)?;
    }
    if is_behind_backslash {
        text.push(b'\\')?;
    }
    Ok(text)
}

// One byte more, and whether the next one stands behind a backslash that is not told yet.
fn push_unescaped(
    text: &mut Vec<u8>,
    is_behind_backslash: bool,
    byte: u8,
) -> Result<bool, AllocError>
    ensures { IfOk result (λ behind. (rest : List ℕ)
        → text.old.items ++ unescaped is_behind_backslash (byte ∷ rest)
        ≡ text.new.items ++ unescaped behind rest) }
{
    if !is_behind_backslash {
        if byte == b'\\' {
            return Ok(true);
        }
    } else if byte != b'"' && byte != b'\\' {
        text.push(b'\\')?;
    }
    text.push(byte)?;
    Ok(false)
}

/// How a tag tells its value.
pub(crate) fn told_in(value: &[u8]) -> Told
    ensures { result ≡ told_in value.now }
{
    match value {
        [b'#'] => Told::AsBefore,
        [b'#', b'#', ..] => Told::FromHere,
        _ => Told::Here,
    }
}

/// The value that it tells so.
pub(crate) fn text_told(told: Told, value: &[u8]) -> &[u8]
    ensures { result.now ≡ text_told told value.now }
{
    match told {
        Told::FromHere => behind_two(value),
        _ => value,
    }
}

// A value without its first two bytes.
fn behind_two(value: &[u8]) -> &[u8]
    ensures { result.now ≡ behind_two value.now }
{
    match value {
        [_, _, text @ ..] => text,
        _ => value,
    }
}

/// The hands that the value of a tag Deal spells. Blanks may stand before its colon.
#[tactic(auto, unfolding(crate::specs::Values::deal_value))]
pub(crate) fn deal_value(text: &[u8]) -> Result<Hands, Unfit>
    ensures { result ≡ deal_value text.now }
{
    if text.is_empty() || text == b"?".as_slice() {
        return Err(Unfit::NoDeal);
    }
    if text.len() > LONGEST_DEAL {
        return Err(Unfit::Refused(DealFault::Text));
    }
    match deal_spelled(closed_up(text).as_slice()) {
        Ok(hands) => Ok(hands),
        Err(fault) => Err(Unfit::Refused(fault_of(fault))),
    }
}

// What the text spells.
fn deal_spelled(text: &[u8]) -> Result<Hands, PbnFault>
    ensures { result ≡ outcome (value_of text.now) }
{
    read_deal(text)
}

// A value of a tag Deal that is read.
type DealText = ArrayVec<u8, LONGEST_DEAL>;

// The text without blanks between its letter and the colon.
#[tactic(auto, unfolding(crate::specs::Values::closed_up))]
fn closed_up(text: &[u8]) -> DealText
    requires { length text.now ≤ LONGEST_DEAL }
    ensures { result.items ≡ closed_up text.now }
{
    match after_blanks(text) {
        [letter, rest @ ..] => letter_closed(text, *letter, after_blanks(rest)),
        [] => DealText::try_from(text).unwrap_or_default(),
    }
}

// The letter with the rest, where that begins with a colon, and else the text.
fn letter_closed(text: &[u8], letter: u8, rest: &[u8]) -> DealText
    requires text { length text.now ≤ LONGEST_DEAL }
    requires rest { length rest.now < LONGEST_DEAL }
    ensures { result.items ≡ letter_closed text.now letter rest.now }
{
    if !begins_colon(rest) {
        return DealText::try_from(text).unwrap_or_default();
    }
    let mut closed = DealText::new();
    closed.push(letter);
    let _fits = closed.try_extend_from_slice(rest);
    closed
}

// Does a colon come first?
fn begins_colon(text: &[u8]) -> bool
    ensures { result ≡ begins_colon text.now }
{
    match text {
        [first, ..] => *first == b':',
        [] => false,
    }
}

fn fault_of(fault: PbnFault) -> DealFault
    ensures { result ≡ fault_of fault }
{
    match fault {
        PbnFault::Grammar => DealFault::Text,
        PbnFault::Absent => DealFault::LeftOut,
        PbnFault::Twice => DealFault::Twice,
    }
}

/// The deal of a game, where its hands are of thirteen cards.
pub(crate) fn thirteen_in(deal: Result<Hands, Unfit>) -> Result<Hands, Unfit>
    ensures value { result ≡ thirteen_in deal }
    ensures thirteen { IfOk result IsThirteen }
{
    match deal {
        Ok(hands) => of_thirteen(hands),
        Err(unfit) => Err(unfit),
    }
}

// The hands, where they are of thirteen cards.
fn of_thirteen(hands: Hands) -> Result<Hands, Unfit>
    ensures value { result ≡ of_thirteen hands }
    ensures thirteen { IfOk result IsThirteen }
{
    let cards = hands.len(Seat::North);
    if !has_length(&hands, cards) {
        return Err(Unfit::Refused(DealFault::Uneven));
    }
    match cards {
        THIRTEEN => Ok(hands),
        0 => Err(Unfit::Refused(DealFault::Empty)),
        _ => Err(Unfit::Refused(DealFault::NotThirteen)),
    }
}

// Has each hand so many cards?
fn has_length(hands: &Hands, cards: u8) -> bool
    ensures { result ≡ has_length hands.now cards }
{
    hands.len(Seat::North) == cards
        && hands.len(Seat::East) == cards
        && hands.len(Seat::South) == cards
        && hands.len(Seat::West) == cards
}

/// The seat that the value of a tag Dealer names.
pub(crate) fn dealer_value(text: &[u8]) -> Option<Seat>
    ensures { result ≡ dealer_value text.now }
{
    match text {
        [letter] => seat_of(*letter),
        _ => None,
    }
}

fn seat_of(letter: u8) -> Option<Seat>
    ensures { result ≡ seat_of letter }
{
    match letter {
        b'N' | b'n' => Some(Seat::North),
        b'E' | b'e' => Some(Seat::East),
        b'S' | b's' => Some(Seat::South),
        b'W' | b'w' => Some(Seat::West),
        _ => None,
    }
}

/// The sides that the value of a tag Vulnerable names.
#[tactic(auto, unfolding(crate::specs::Values::vulnerable_value))]
pub(crate) fn vulnerable_value(text: &[u8]) -> Option<Vulnerable>
    ensures { result ≡ vulnerable_value text.now }
{
    if is_word(text, b"none") || is_word(text, b"love") || is_word(text, b"-") {
        Some(Vulnerable::Neither)
    } else if is_word(text, b"ns") {
        Some(Vulnerable::NorthSouth)
    } else if is_word(text, b"ew") {
        Some(Vulnerable::EastWest)
    } else if is_word(text, b"all") || is_word(text, b"both") {
        Some(Vulnerable::Both)
    } else {
        None
    }
}

// Is the text this word, letters in either case?
fn is_word(text: &[u8], word: &[u8]) -> bool
    ensures { result ≡ is_word text.now word.now }
{
    text.eq_ignore_ascii_case(word)
}
