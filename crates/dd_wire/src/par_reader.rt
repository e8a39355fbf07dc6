//! Lines that ask for par.
ghost use Rattle.std.specs.Prelude.{◌≡◌, ◌<◌, ◌↔◌, nat_le, option_map, IsSome, IfSome, if◌then◌else◌};
ghost use Rattle.std.specs.List.{list_any, list_all};
ghost use Rattle.std.specs.Str.{bytes_eq};
ghost use Rattle.serde_json.specs.View.{view, members_view};
ghost use Rattle.dd_score.specs.Vulnerability.{vulnerable_code};
ghost use Rattle.dd_wire.specs.Lines.{MeansGiven};
ghost use Rattle.dd_wire.specs.ParLines.{par_fields, par_keys, given_in, first_in, rows_of_value, row_of_value, order_coded, seat_coded, side_coded, vulnerable_coded, conditions_of, par_of_results, table_par_of, MeansParOfDeal, MeansDealt};
ghost use Rattle.dd_wire.specs.ReadingPar.{fields_of, given_of};
ghost use Rattle.dd_wire.specs.Requests.{are_among, keys_of};

use crate::fault::Fault;
use crate::line_asked::LineAsked;
use crate::par_request::{Conditions, ParOfDeal, ParOfResults};
use crate::request_reader::{
    hands_of, member_at, seat_of, table_request, text_at, whole_number_at,
};
use dd_cards::{Hands, Seat, Side};
use dd_score::{Order, Results, Vulnerable};
use serde_json::{Map, Value};

// ---- The fields, as JSON has them.

// A row for each strain, and in each a result for each declarer.
type Rows = [[u64; 4]; 5];

// What par is asked of.
#[derive(Drop)]
pub(crate) enum Given<'a> {
    Results(Rows),
    /// The text of a deal.
    Deal(&'a str),
}

// Who calls first: the code of a dealer, or of a side.
#[derive(Clone, Copy)]
pub(crate) enum FirstCode {
    Dealer(u64),
    Side(u64),
}

// The fields of a request for par.
#[derive(Drop)]
pub(crate) struct ParFields<'a> {
    pub(crate) given: Given<'a>,
    pub(crate) first: FirstCode,
    pub(crate) vulnerable: u64,
}

// The fields, where all of them are there, each of its kind, and no other is.
pub(crate) fn par_fields(object: &Map<String, Value>) -> Option<ParFields<'_>>
    ensures { option_map fields_of result ≡ par_fields (members_view object.now.entries) }
{
    if !has_par_keys_alone(object) || text_at(object, "do")? != "par" {
        return None;
    }
    Some(ParFields {
        given: given_in(object)?,
        first: first_in(object)?,
        vulnerable: whole_number_at(object, "vulnerable")?,
    })
}

// Is each key the name of a field of a request for par?
fn has_par_keys_alone(object: &Map<String, Value>) -> bool
    ensures { result ≡ are_among par_keys (keys_of (members_view object.now.entries)) }
{
    object.keys().all(|key| is_par_key(key))
}

pub(crate) fn is_par_key(key: &str) -> bool
    ensures { result ≡ list_any (bytes_eq key.now) par_keys }
{
    matches!(
        key,
        "deal" | "dealer" | "do" | "side" | "table" | "vulnerable"
    )
}

// What par is asked of, where just one of the two stands there.
pub(crate) fn given_in(object: &Map<String, Value>) -> Option<Given<'_>>
    ensures { option_map given_of result ≡ given_in (members_view object.now.entries) }
{
    match (member_at(object, "table"), member_at(object, "deal")) {
        (Some(table), None) => Some(Given::Results(rows_in(table)?)),
        (None, Some(deal)) => Some(Given::Deal(deal.as_str()?)),
        _ => None,
    }
}

// Who calls first, where just one of the two stands there.
pub(crate) fn first_in(object: &Map<String, Value>) -> Option<FirstCode>
    ensures { result ≡ first_in (members_view object.now.entries) }
{
    match (member_at(object, "dealer"), member_at(object, "side")) {
        (Some(dealer), None) => Some(FirstCode::Dealer(dealer.as_u64()?)),
        (None, Some(side)) => Some(FirstCode::Side(side.as_u64()?)),
        _ => None,
    }
}

// The rows of a list of exactly five.
fn rows_in(value: &Value) -> Option<Rows>
    ensures { result ≡ rows_of_value (view value.now) }
{
    match value.as_array()?.as_slice() {
        [spades, hearts, diamonds, clubs, notrump] => Some([
            row_in(spades)?,
            row_in(hearts)?,
            row_in(diamonds)?,
            row_in(clubs)?,
            row_in(notrump)?,
        ]),
        _ => None,
    }
}

// The four whole numbers of a list of exactly four.
fn row_in(value: &Value) -> Option<[u64; 4]>
    ensures { result ≡ row_of_value (view value.now) }
{
    match value.as_array()?.as_slice() {
        [north, east, south, west] => Some([
            north.as_u64()?,
            east.as_u64()?,
            south.as_u64()?,
            west.as_u64()?,
        ]),
        _ => None,
    }
}

// ---- What the fields ask.

// What the fields ask, or their first fault.
pub(crate) fn par_asked(fields: ParFields<'_>) -> Result<LineAsked, Fault>
    ensures { MeansGiven (given_of fields.entry.given) (fields_of fields.entry) result }
{
    let ParFields {
        given,
        first,
        vulnerable,
    } = fields;
    match given {
        Given::Results(rows) => Ok(LineAsked::Par(par_of_results(&rows, first, vulnerable)?)),
        Given::Deal(text) => Ok(LineAsked::ParOfDeal(par_of_deal(text, first, vulnerable)?)),
    }
}

// What the fields ask where par of a deal is not known, or their first fault.
pub(crate) fn table_par_asked(fields: ParFields<'_>) -> Result<ParOfResults, Fault>
    ensures { result ≡ table_par_of (given_of fields.entry.given) (fields_of fields.entry) }
{
    let ParFields {
        given,
        first,
        vulnerable,
    } = fields;
    match given {
        Given::Results(rows) => par_of_results(&rows, first, vulnerable),
        Given::Deal(_) => Err(Fault::WrongField),
    }
}

// Par of these results, or the first fault.
fn par_of_results(rows: &Rows, first: FirstCode, vulnerable: u64) -> Result<ParOfResults, Fault>
    ensures { result ≡ par_of_results first vulnerable rows.now }
{
    let conditions = conditions_of(first, vulnerable)?;
    let results = results_of(rows).ok_or(Fault::WrongResult)?;
    Ok(ParOfResults {
        results,
        conditions,
    })
}

// Par of the deal of this text, or the first fault.
fn par_of_deal(text: &str, first: FirstCode, vulnerable: u64) -> Result<ParOfDeal, Fault>
    ensures { MeansParOfDeal first vulnerable text.now result }
{
    let hands = hands_of(text.as_bytes())?;
    par_of_hands(hands, first, vulnerable)
}

// Par of these hands, or the first fault.
fn par_of_hands(hands: Hands, first: FirstCode, vulnerable: u64) -> Result<ParOfDeal, Fault>
    ensures { MeansDealt first vulnerable hands result }
{
    let conditions = conditions_of(first, vulnerable)?;
    let request = table_request(hands)?;
    ParOfDeal::new(request, conditions).ok_or(Fault::NotThirteen)
}

// Who calls first and who is vulnerable, or the first fault.
fn conditions_of(first: FirstCode, vulnerable: u64) -> Result<Conditions, Fault>
    ensures { result ≡ conditions_of first vulnerable }
{
    let order = order_of(first).ok_or(Fault::WrongOrder)?;
    let vulnerable = vulnerable_coded(vulnerable).ok_or(Fault::WrongVulnerable)?;
    Ok(Conditions { vulnerable, order })
}

fn order_of(first: FirstCode) -> Option<Order>
    ensures { result ≡ order_coded first }
{
    match first {
        FirstCode::Dealer(code) => Some(Order::Dealer(seat_coded(code)?)),
        FirstCode::Side(code) => Some(Order::First(side_of(code)?)),
    }
}

fn side_of(code: u64) -> Option<Side>
    ensures { result ≡ side_coded code }
{
    match code {
        0 => Some(Side::NorthSouth),
        1 => Some(Side::EastWest),
        _ => None,
    }
}

fn seat_coded(code: u64) -> Option<Seat>
    ensures { result ≡ seat_coded code }
{
    seat_of(code)
}

fn vulnerable_coded(code: u64) -> Option<Vulnerable>
    ensures { result ≡ vulnerable_coded code }
{
    vulnerable_of(code)
}

fn vulnerable_of(code: u64) -> Option<Vulnerable>
    ensures valid { IsSome result ↔ (code < 4) }
    ensures value { IfSome result (λ sides. vulnerable_code sides ≡ code) }
{
    Vulnerable::from_code(u8::try_from(code).ok()?)
}

// The results of these rows; None where one is over 13.
fn results_of(rows: &Rows) -> Option<Results>
    ensures { result ≡
        (if list_all (list_all (λ tricks. nat_le tricks 13)) rows.now then Some rows.now else None) }
{
    let [spades, hearts, diamonds, clubs, notrump] = rows;
    Results::new([
        row_of(spades)?,
        row_of(hearts)?,
        row_of(diamonds)?,
        row_of(clubs)?,
        row_of(notrump)?,
    ])
}

// The results of a strain; None where one is over 13.
fn row_of(row: &[u64; 4]) -> Option<[u8; 4]>
    ensures { result ≡ (if list_all (λ tricks. nat_le tricks 13) row.now then Some row.now else None) }
{
    let [north, east, south, west] = row;
    Some([
        tricks_of(*north)?,
        tricks_of(*east)?,
        tricks_of(*south)?,
        tricks_of(*west)?,
    ])
}

// The tricks of a declarer; None where they are over 13.
fn tricks_of(number: u64) -> Option<u8>
    ensures { result ≡ (if nat_le number 13 then Some number else None) }
{
    if number <= 13 {
        Some(number as u8)
    } else {
        None
    }
}
