//! The names of tags that matter.
ghost use Rattle.std.specs.Prelude.{◌<◌, IfSome};

use super::value::is_word;

/// The names that are told apart. The first fifteen are those that every game should have.
pub(crate) const NAMES: usize = 19;

/// How many names every game should have.
pub(crate) const REQUIRED: usize = 15;

/// The numbers of some of them.
pub(crate) const BOARD: u8 = 3;

pub(crate) const DEALER: u8 = 8;

pub(crate) const VULNERABLE: u8 = 9;

pub(crate) const DEAL: u8 = 10;

pub(crate) const TRICKS: usize = 15;

pub(crate) const SCORE: usize = 16;

pub(crate) const CONTRACT: usize = 17;

pub(crate) const TABLE: usize = 18;

/// The number of a name, in either case.
pub(crate) fn known_number(name: &[u8]) -> Option<u8>
    ensures { IfSome result (λ number. number < 19) }
{
    match first_number(name) {
        Some(number) => Some(number),
        None => match last_number(name) {
            Some(number) => Some(number),
            None => added_number(name),
        },
    }
}

fn first_number(name: &[u8]) -> Option<u8>
    ensures { IfSome result (λ number. number < 19) }
{
    if is_word(name, b"event") {
        Some(0)
    } else if is_word(name, b"site") {
        Some(1)
    } else if is_word(name, b"date") {
        Some(2)
    } else if is_word(name, b"board") {
        Some(3)
    } else if is_word(name, b"west") {
        Some(4)
    } else if is_word(name, b"north") {
        Some(5)
    } else if is_word(name, b"east") {
        Some(6)
    } else if is_word(name, b"south") {
        Some(7)
    } else {
        None
    }
}

fn last_number(name: &[u8]) -> Option<u8>
    ensures { IfSome result (λ number. number < 19) }
{
    if is_word(name, b"dealer") {
        Some(8)
    } else if is_word(name, b"vulnerable") {
        Some(9)
    } else if is_word(name, b"deal") {
        Some(10)
    } else if is_word(name, b"scoring") {
        Some(11)
    } else if is_word(name, b"declarer") {
        Some(12)
    } else if is_word(name, b"contract") {
        Some(13)
    } else if is_word(name, b"result") {
        Some(14)
    } else {
        None
    }
}

fn added_number(name: &[u8]) -> Option<u8>
    ensures { IfSome result (λ number. number < 19) }
{
    if is_word(name, b"doubledummytricks") {
        Some(15)
    } else if is_word(name, b"optimumscore") {
        Some(16)
    } else if is_word(name, b"parcontract") {
        Some(17)
    } else if is_word(name, b"optimumresulttable") {
        Some(18)
    } else {
        None
    }
}
