//! The text of par: JSON without spaces, keys in the order of their bytes.
ghost use Rattle.std.specs.Prelude.{◌≡◌, ◌+◌, ◌<◌, ◌≤◌, ◌*◌, ◌++◌, ◌∷◌, [], length, map};
ghost use Rattle.std.specs.List.{join_with_byte};
ghost use Rattle.arrayvec.specs.ArrayString.{array_string_len};
ghost use Rattle.dd_cards.specs.Seats.{seat_code};
ghost use Rattle.dd_score.specs.Tables.{IsTable};
ghost use Rattle.dd_wire.specs.ParReplies.{TellsPar, par_text, contract_text, declarers_text, rows_of};
ghost use Rattle.dd_wire.specs.Replies.{list_text, of_strain};

use crate::line_reply::LONGEST_ANSWER;
use crate::par_request::{Conditions, ParOfResults};
use crate::reply::push_number;
use dd_cards::{Seat, Side};
use dd_lines::{LONGEST_REPLY, ReplyText};
use dd_score::{Declarers, ParContract, ParResult, Results, par};
use itoa::Buffer;

/// The reply to a request for par of these results: `{"contracts":[C,C,..],"score":n}`, each contract C as
/// `{"declarers":[s,..],"level":l,"tricks":t,"trump":x}`. The score is North and South's.
pub fn write_par(asked: &ParOfResults) -> ReplyText
    ensures text { TellsPar asked.now.results asked.now.conditions result.bytes }
    ensures bound { array_string_len result ≤ LONGEST_ANSWER }
{
    let mut text = ReplyText::new();
    put_par(&mut text, asked);
    text
}

/// The same reply in place of another text.
pub(crate) fn put_par(text: &mut ReplyText, asked: &ParOfResults)
    ensures text { TellsPar asked.now.results asked.now.conditions text.new.bytes }
    ensures bound { array_string_len text.new ≤ LONGEST_ANSWER }
{
    par_reply(text, &asked.results, asked.conditions);
}

// Puts the text of par of these results.
fn par_reply(text: &mut ReplyText, results: &Results, conditions: Conditions)
    ensures text { TellsPar results.now conditions text.new.bytes }
    ensures bound { array_string_len text.new ≤ LONGEST_ANSWER }
{
    let found = par(results, conditions.vulnerable, conditions.order);
    put_found(text, &found);
}

// Puts the text of par that was found.
fn put_found(text: &mut ReplyText, found: &ParResult)
    ensures text { text.new.bytes ≡ par_text found.now.contracts.items found.now.score }
    ensures bound { array_string_len text.new ≤ LONGEST_ANSWER }
{
    text.clear();
    text.push_str("{\"contracts\":[");
    push_contracts(text, found.contracts.as_slice());
    text.push_str("],\"score\":");
    let mut buffer = Buffer::new();
    text.push_str(buffer.format(found.score));
    text.push_str("}");
}

// Appends the contracts, at most ten, with a comma between each two.
fn push_contracts(text: &mut ReplyText, contracts: &[ParContract])
    requires room { array_string_len text.old + 650 ≤ LONGEST_REPLY }
    requires few { length contracts.now ≤ 10 }
    ensures bytes { text.new.bytes ≡ text.old.bytes ++ join_with_byte 44 (map contract_text contracts.now) }
    ensures bound { array_string_len text.new ≤ array_string_len text.old + 650 }
{
    for (place, contract) in contracts.iter().enumerate() {
        if place > 0 {
            text.push_str(",");
        }
        push_contract(text, contract);
    }
}

// Appends a contract.
fn push_contract(text: &mut ReplyText, contract: &ParContract)
    requires { array_string_len text.old + 64 ≤ LONGEST_REPLY }
    ensures bytes { text.new.bytes ≡ text.old.bytes ++ contract_text contract.now }
    ensures bound { array_string_len text.new ≤ array_string_len text.old + 64 }
{
    text.push_str("{\"declarers\":");
    push_declarers(text, contract.declarers);
    text.push_str(",\"level\":");
    push_number(text, contract.level as u16);
    text.push_str(",\"tricks\":");
    push_number(text, contract.tricks as u16);
    text.push_str(",\"trump\":");
    push_number(text, contract.strain.code() as u16);
    text.push_str("}");
}

// Appends the list of the seats that declare, rising.
#[tactic(auto, unfolding(crate::specs::ParReplies::declarers_text))]
fn push_declarers(text: &mut ReplyText, declarers: Declarers)
    requires { array_string_len text.old + 7 ≤ LONGEST_REPLY }
    ensures bytes { text.new.bytes ≡ text.old.bytes ++ declarers_text declarers }
    ensures bound { array_string_len text.new ≤ array_string_len text.old + 7 }
{
    match declarers {
        Declarers::Both(Side::NorthSouth) => text.push_str("[0,2]"),
        Declarers::Both(Side::EastWest) => text.push_str("[1,3]"),
        Declarers::One(seat) => push_seat(text, seat),
    }
}

// Appends the list of one seat.
fn push_seat(text: &mut ReplyText, seat: Seat)
    requires { array_string_len text.old + 7 ≤ LONGEST_REPLY }
    ensures bytes { text.new.bytes ≡ text.old.bytes ++ list_text (seat_code seat ∷ []) }
    ensures bound { array_string_len text.new ≤ array_string_len text.old + 7 }
{
    text.push_str("[");
    push_number(text, seat.code() as u16);
    text.push_str("]");
}

// Puts the text of par of twenty results that were found.
pub(crate) fn put_table_par(
    text: &mut ReplyText,
    found: &dd_request::Results,
    conditions: Conditions,
)
    requires { IsTable (rows_of found.now) }
    ensures text { TellsPar (rows_of found.now) conditions text.new.bytes }
    ensures bound { array_string_len text.new ≤ LONGEST_ANSWER }
{
    par_reply(text, &scored(found), conditions);
}

// Twenty results as they are scored.
fn scored(found: &dd_request::Results) -> Results
    requires { IsTable (rows_of found.now) }
    ensures { result ≡ rows_of found.now }
{
    let tricks = found.as_slice();
    let rows = [
        of_strain(tricks, 0),
        of_strain(tricks, 1),
        of_strain(tricks, 2),
        of_strain(tricks, 3),
        of_strain(tricks, 4),
    ];
    match Results::new(rows) {
        Some(results) => results,
        None => unreachable!(),
    }
}

// Of twenty results those of a strain.
fn of_strain(tricks: &[u8], strain: usize) -> [u8; 4]
    requires twenty { length tricks.now ≡ 20 }
    requires below { strain < 5 }
    ensures { result ≡ of_strain tricks.now strain }
{
    four(&tricks[4 * strain..4 * strain + 4])
}

// Four numbers as an array.
fn four(row: &[u8]) -> [u8; 4]
    requires { length row.now ≡ 4 }
    ensures { result ≡ row.now }
{
    match row {
        [north, east, south, west] => [*north, *east, *south, *west],
        _ => unreachable!(),
    }
}
