//! Lines of the usual forms, read in one pass with no tree of their values: par of given results, cards of a position, and a fetch. The
//! keys stand in any order, a space may follow a comma, a colon or an opening bracket, and numbers have up to nineteen
//! digits. What else stands in a line isn't read here.
ghost use Rattle.std.specs.Prelude.{◌≡◌, ◌≤◌, ◌<◌, length, take, ◌+◌, ◌^◌, ◌∷◌, ◌++◌, decimal, map, true, false, None, Some, IfSome};
ghost use Rattle.std.specs.List.{list_all};
ghost use Rattle.std.specs.Str.{bytes_eq};
ghost use Rattle.json.specs.Lex.{lex, between, fresh, begins_colon};
ghost use Rattle.json.specs.Run.{is_plain};
ghost use Rattle.json.specs.Word.{ends_word};
ghost use Rattle.serde_json.specs.Data.{number, unsigned, string, array, object};
ghost use Rattle.serde_json.specs.Read.{read};
ghost use Rattle.dd_wire.specs.Requests.{pair_of_card};
ghost use Rattle.dd_wire.specs.UsualLines.{IsValue, AreItems, Opens, Closes, GoesOn, Adds, Puts, key_text, text_in, number_in, task_in, table_in, trick_in, task_text, items_of_row, items_of_rows, items_of_pair, items_of_pairs, members_of};

use crate::on_trick::OnTrick;
use crate::request_reader::{MOST_PLAYED, with_pair};
use arrayvec::ArrayVec;
use std::str::from_utf8;

/// The most members of a line: one for each field.
const MOST_MEMBERS: u32 = 13;

/// The least number of nineteen digits. One below it and a digit more stay below 2^64.
const NINETEEN_DIGITS: u64 = 1_000_000_000_000_000_000;

/// What is to be done.
#[derive(Clone, Copy)]
pub(crate) enum Task {
    Solve,
    Par,
    Fetch,
}

/// The name of a field.
#[derive(Clone, Copy)]
pub(crate) enum KeyName {
    Deal,
    Dealer,
    Do,
    First,
    Job,
    Played,
    Side,
    Solutions,
    Table,
    Target,
    Trump,
    Vulnerable,
    Wait,
}

/// The results of a strain.
#[derive(Clone, Copy)]
pub(crate) struct Row {
    pub(crate) north: u64,
    pub(crate) east: u64,
    pub(crate) south: u64,
    pub(crate) west: u64,
}

/// Those of each strain.
#[derive(Clone, Copy)]
pub(crate) struct Rows {
    pub(crate) spades: Row,
    pub(crate) hearts: Row,
    pub(crate) diamonds: Row,
    pub(crate) clubs: Row,
    pub(crate) notrump: Row,
}

/// What stood at each key.
#[derive(Drop)]
pub(crate) struct Fields<'a> {
    pub(crate) deal: Option<&'a str>,
    pub(crate) dealer: Option<u64>,
    pub(crate) task: Option<Task>,
    pub(crate) first: Option<u64>,
    pub(crate) job: Option<u64>,
    pub(crate) played: Option<OnTrick>,
    pub(crate) side: Option<u64>,
    pub(crate) solutions: Option<u64>,
    pub(crate) table: Option<Rows>,
    pub(crate) target: Option<u64>,
    pub(crate) trump: Option<u64>,
    pub(crate) vulnerable: Option<u64>,
    pub(crate) wait: Option<u64>,
}

/// The members of a line that is an object of them alone, each once.
pub(crate) fn usual_fields(line: &[u8]) -> Option<Fields<'_>>
    ensures text { IfSome result (λ _. (0 < length line.now)) }
    ensures read { IfSome result (λ fields. read line.now ≡ Some (object (members_of fields))) }
{
    let text = after(line, b"{")?;
    let mut fields = no_fields();
    let mut rest = read_member(after_space(text), &mut fields)?;
    'members: for _turn in 0..MOST_MEMBERS {
        if let Some(end) = after(rest, b"}") {
            return if end.is_empty() { Some(fields) } else { None };
        }
        rest = read_member(after_comma(rest)?, &mut fields)?;
    }
    None
}

fn no_fields<'a>() -> Fields<'a>
    ensures { result ≡ record {
      deal = None;
      dealer = None;
      task = None;
      first = None;
      job = None;
      played = None;
      side = None;
      solutions = None;
      table = None;
      target = None;
      trump = None;
      vulnerable = None;
      wait = None;
    } }
{
    Fields {
        deal: None,
        dealer: None,
        task: None,
        first: None,
        job: None,
        played: None,
        side: None,
        solutions: None,
        table: None,
        target: None,
        trump: None,
        vulnerable: None,
        wait: None,
    }
}

// ---- Members.

// Reads a member into its field, which has to be empty; None where it is of no field, or is written in another way.
fn read_member<'a>(text: &'a [u8], fields: &mut Fields<'a>) -> Option<&'a [u8]>
    ensures { IfSome result (λ rest. Adds text.now fields.old rest.now fields.new) }
{
    let (key, rest) = read_key(text)?;
    match key {
        KeyName::Deal => put_text(rest, &mut fields.deal),
        KeyName::Dealer => put_number(rest, &mut fields.dealer),
        KeyName::Do => put_task(rest, &mut fields.task),
        KeyName::First => put_number(rest, &mut fields.first),
        KeyName::Job => put_number(rest, &mut fields.job),
        KeyName::Played => put_played(rest, &mut fields.played),
        KeyName::Side => put_number(rest, &mut fields.side),
        KeyName::Solutions => put_number(rest, &mut fields.solutions),
        KeyName::Table => put_table(rest, &mut fields.table),
        KeyName::Target => put_number(rest, &mut fields.target),
        KeyName::Trump => put_number(rest, &mut fields.trump),
        KeyName::Vulnerable => put_number(rest, &mut fields.vulnerable),
        KeyName::Wait => put_number(rest, &mut fields.wait),
    }
}

// The name of a field, and what follows its colon. The first letter says which it may be.
fn read_key(text: &[u8]) -> Option<(KeyName, &[u8])>
    ensures { IfSome result (λ found. text.now ≡ 34 ∷ (key_text found.0 ++ 34 ∷ 58 ∷ found.1.now)) }
{
    match *text.get(1)? {
        b'd' => key_in_d(text),
        b'f' => Some((KeyName::First, after(text, b"\"first\":")?)),
        b'j' => Some((KeyName::Job, after(text, b"\"job\":")?)),
        b'p' => Some((KeyName::Played, after(text, b"\"played\":")?)),
        b's' => key_in_s(text),
        b't' => key_in_t(text),
        b'v' => Some((KeyName::Vulnerable, after(text, b"\"vulnerable\":")?)),
        b'w' => Some((KeyName::Wait, after(text, b"\"wait\":")?)),
        _ => None,
    }
}

fn key_in_d(text: &[u8]) -> Option<(KeyName, &[u8])>
    ensures { IfSome result (λ found. text.now ≡ 34 ∷ (key_text found.0 ++ 34 ∷ 58 ∷ found.1.now)) }
{
    if let Some(rest) = after(text, b"\"do\":") {
        return Some((KeyName::Do, rest));
    }
    if let Some(rest) = after(text, b"\"deal\":") {
        return Some((KeyName::Deal, rest));
    }
    Some((KeyName::Dealer, after(text, b"\"dealer\":")?))
}

fn key_in_s(text: &[u8]) -> Option<(KeyName, &[u8])>
    ensures { IfSome result (λ found. text.now ≡ 34 ∷ (key_text found.0 ++ 34 ∷ 58 ∷ found.1.now)) }
{
    if let Some(rest) = after(text, b"\"solutions\":") {
        return Some((KeyName::Solutions, rest));
    }
    Some((KeyName::Side, after(text, b"\"side\":")?))
}

fn key_in_t(text: &[u8]) -> Option<(KeyName, &[u8])>
    ensures { IfSome result (λ found. text.now ≡ 34 ∷ (key_text found.0 ++ 34 ∷ 58 ∷ found.1.now)) }
{
    if let Some(rest) = after(text, b"\"trump\":") {
        return Some((KeyName::Trump, rest));
    }
    if let Some(rest) = after(text, b"\"table\":") {
        return Some((KeyName::Table, rest));
    }
    Some((KeyName::Target, after(text, b"\"target\":")?))
}

fn put_number<'a>(text: &'a [u8], field: &mut Option<u64>) -> Option<&'a [u8]>
    ensures { IfSome result (λ rest. Puts text.now (number_in field.old) (number_in field.new) rest.now) }
{
    absent(field)?;
    let (found, rest) = read_number(after_space(text))?;
    *field = Some(found);
    Some(rest)
}

fn put_text<'a>(text: &'a [u8], field: &mut Option<&'a str>) -> Option<&'a [u8]>
    ensures { IfSome result (λ rest. Puts text.now (text_in field.old) (text_in field.new) rest.now) }
{
    absent(field)?;
    let (found, rest) = read_quoted(after_space(text))?;
    *field = Some(found);
    Some(rest)
}

fn put_task<'a>(text: &'a [u8], field: &mut Option<Task>) -> Option<&'a [u8]>
    ensures { IfSome result (λ rest. Puts text.now (task_in field.old) (task_in field.new) rest.now) }
{
    absent(field)?;
    let (found, rest) = read_task(after_space(text))?;
    *field = Some(found);
    Some(rest)
}

fn put_table<'a>(text: &'a [u8], field: &mut Option<Rows>) -> Option<&'a [u8]>
    ensures { IfSome result (λ rest. Puts text.now (table_in field.old) (table_in field.new) rest.now) }
{
    absent(field)?;
    let (found, rest) = read_table(after_space(text))?;
    *field = Some(found);
    Some(rest)
}

fn put_played<'a>(text: &'a [u8], field: &mut Option<OnTrick>) -> Option<&'a [u8]>
    ensures { IfSome result (λ rest. Puts text.now (trick_in field.old) (trick_in field.new) rest.now) }
{
    absent(field)?;
    let (found, rest) = read_played(after_space(text))?;
    *field = Some(found);
    Some(rest)
}

// Is nothing there?
pub(crate) fn absent<T>(field: &Option<T>) -> Option<()>
    ensures { IfSome result (λ _. field.now ≡ None) }
{
    match field {
        None => Some(()),
        Some(_) => None,
    }
}

// ---- Values.

// A whole number of up to nineteen digits, before what may follow a value.
fn read_number(text: &[u8]) -> Option<(u64, &[u8])>
    ensures { IfSome result (λ found. IsValue 0 text.now (number (unsigned found.0)) found.1.now) }
{
    let (first, after_first) = digit(text)?;
    if ends_number(after_first) {
        return Some((first, after_first));
    }
    if first == 0 {
        return None;
    }
    let (second, rest) = digit(after_first)?;
    if ends_number(rest) {
        Some((first * 10 + second, rest))
    } else {
        read_longer(first * 10 + second, rest)
    }
}

// The same number with the digits that follow, up to nineteen in all, before what may follow a value.
fn read_longer<'a>(front: u64, text: &'a [u8]) -> Option<(u64, &'a [u8])>
    requires { 0 < front }
    ensures { IfSome result (λ found. (found.0 < 2 ^ 64)
        × (decimal front ++ text.now ≡ decimal found.0 ++ found.1.now)
        × (ends_word found.1.now ≡ true)) }
{
    let mut number = front;
    let mut rest = text;
    'digits: while number < NINETEEN_DIGITS {
        let (next, behind) = digit(rest)?;
        number = number * 10 + next;
        rest = behind;
        if ends_number(rest) {
            return Some((number, rest));
        }
    }
    None
}

fn digit(text: &[u8]) -> Option<(u64, &[u8])>
    ensures { IfSome result (λ found. (found.0 < 10) × (text.now ≡ (48 + found.0) ∷ found.1.now)) }
{
    let (first, rest) = text.split_first()?;
    if *first < b'0' || *first > b'9' {
        return None;
    }
    Some((u64::from(*first - b'0'), rest))
}

// Does what may follow a number stand here?
fn ends_number(text: &[u8]) -> bool
    ensures { result ≡ true → ends_word text.now ≡ true }
{
    match text.first() {
        Some(byte) => matches!(*byte, b',' | b']' | b'}'),
        None => false,
    }
}

// The name of what is to be done.
fn read_task(text: &[u8]) -> Option<(Task, &[u8])>
    ensures { IfSome result (λ found. IsValue 0 text.now (string (task_text found.0)) found.1.now) }
{
    if let Some(rest) = after(text, b"\"solve\"") {
        return Some((Task::Solve, ended(rest)?));
    }
    if let Some(rest) = after(text, b"\"fetch\"") {
        return Some((Task::Fetch, ended(rest)?));
    }
    let rest = after(text, b"\"par\"")?;
    Some((Task::Par, ended(rest)?))
}

// A text of ASCII with no escape.
fn read_quoted(text: &[u8]) -> Option<(&str, &[u8])>
    ensures { IfSome result (λ found. IsValue 0 text.now (string found.0.now) found.1.now) }
{
    let inside = after(text, b"\"")?;
    let (plain, behind) = inside.split_at(plain_len(inside));
    let rest = after(behind, b"\"")?;
    Some((from_utf8(plain).ok()?, ended(rest)?))
}

// How many bytes stand before one that ends a text, or has a meaning of its own in one, or is none of ASCII: no good line has such a
// one in a text that is read here, so what follows it isn't looked at.
fn plain_len(text: &[u8]) -> usize
    ensures within { result ≤ length text.now }
    ensures plain { list_all is_plain (take result text.now) ≡ true }
{
    let mut len = 0;
    while len < text.len() && text[len].is_ascii() && is_plain(text[len]) {
        len += 1;
    }
    len
}

fn is_plain(byte: u8) -> bool
    ensures { result ≡ is_plain byte }
{
    byte != b'"' && byte != b'\\' && byte >= b' '
}

// The same text, where a value of an object may end before it.
fn ended(text: &[u8]) -> Option<&[u8]>
    ensures { IfSome result (λ rest. (rest.now ≡ text.now) × (begins_colon (lex between text.now) ≡ false)) }
{
    let byte = *text.first()?;
    if byte == b',' {
        return Some(text);
    }
    if byte == b'}' {
        return Some(text);
    }
    None
}

// Five rows.
fn read_table(text: &[u8]) -> Option<(Rows, &[u8])>
    ensures { IfSome result (λ found. IsValue 2 text.now (array (items_of_rows found.0)) found.1.now) }
{
    let (spades, text) = read_row(opened(text)?)?;
    let (hearts, text) = read_row(after_comma(text)?)?;
    let (diamonds, text) = read_row(after_comma(text)?)?;
    let (clubs, text) = read_row(after_comma(text)?)?;
    let (notrump, text) = read_row(after_comma(text)?)?;
    let rows = Rows {
        spades,
        hearts,
        diamonds,
        clubs,
        notrump,
    };
    Some((rows, closed(text)?))
}

// Four numbers.
fn read_row(text: &[u8]) -> Option<(Row, &[u8])>
    ensures { IfSome result (λ found. IsValue 1 text.now (array (items_of_row found.0)) found.1.now) }
{
    let (north, text) = read_number(opened(text)?)?;
    let (east, text) = read_number(after_comma(text)?)?;
    let (south, text) = read_number(after_comma(text)?)?;
    let (west, text) = read_number(after_comma(text)?)?;
    Some((
        Row {
            north,
            east,
            south,
            west,
        },
        closed(text)?,
    ))
}

// The cards on the trick.
fn read_played(text: &[u8]) -> Option<(OnTrick, &[u8])>
    ensures { IfSome result (λ found. IsValue 2 text.now
        (array (items_of_pairs (map pair_of_card found.0.cards.items))) found.1.now) }
{
    let inside = opened(text)?;
    match closed(inside) {
        Some(rest) => Some((OnTrick::none(), rest)),
        None => read_cards(inside),
    }
}

// One card or more, up to the bracket of their list.
fn read_cards(text: &[u8]) -> Option<(OnTrick, &[u8])>
    ensures { IfSome result (λ found. AreItems 1 fresh text.now
        (items_of_pairs (map pair_of_card found.0.cards.items)) found.1.now) }
{
    let (pair, mut rest) = read_pair(text)?;
    let mut cards = with_pair(Some(ArrayVec::new()), pair.0, pair.1)?;
    'cards: for _turn in 0..MOST_PLAYED {
        if let Some(end) = closed(rest) {
            return Some((OnTrick::of(cards), end));
        }
        let (next, after) = read_pair(after_comma(rest)?)?;
        cards = with_pair(Some(cards), next.0, next.1)?;
        rest = after;
    }
    None
}

// Two numbers.
fn read_pair(text: &[u8]) -> Option<((u64, u64), &[u8])>
    ensures { IfSome result (λ found. IsValue 1 text.now (array (items_of_pair found.0)) found.1.now) }
{
    let (suit, text) = read_number(opened(text)?)?;
    let (rank, text) = read_number(after_comma(text)?)?;
    Some(((suit, rank), closed(text)?))
}

// ---- What stands between values.

fn opened(text: &[u8]) -> Option<&[u8]>
    ensures { IfSome result (λ rest. Opens text.now rest.now) }
{
    Some(after_space(after(text, b"[")?))
}

fn closed(text: &[u8]) -> Option<&[u8]>
    ensures { IfSome result (λ rest. Closes text.now rest.now) }
{
    Some(after(text, b"]")?)
}

fn after_comma(text: &[u8]) -> Option<&[u8]>
    ensures { IfSome result (λ rest. GoesOn text.now rest.now) }
{
    Some(after_space(after(text, b",")?))
}

// The text after the space before it, if there is one.
fn after_space(text: &[u8]) -> &[u8]
    ensures { lex between result.now ≡ lex between text.now }
{
    match after(text, b" ") {
        Some(rest) => rest,
        None => text,
    }
}

// What follows this name at the beginning of a text.
#[inline(always)]
fn after<'a>(text: &'a [u8], name: &[u8]) -> Option<&'a [u8]>
    ensures { IfSome result (λ rest. text.now ≡ name.now ++ rest.now) }
{
    if text.len() < name.len() {
        return None;
    }
    let (front, rest) = text.split_at(name.len());
    if is_same(front, name) {
        Some(rest)
    } else {
        None
    }
}

// Are they the same bytes? At a literal name this becomes one comparison.
#[inline(always)]
fn is_same(text: &[u8], name: &[u8]) -> bool
    requires { length text.now ≡ length name.now }
    ensures { result ≡ bytes_eq text.now name.now }
{
    let mut same = true;
    let mut at = name.len();
    while at > 0 {
        at -= 1;
        same = (text[at] == name[at]) & same;
    }
    same
}
