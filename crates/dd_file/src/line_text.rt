//! The lines that are added to a game.
ghost use Rattle.std.specs.Prelude.{◌≡◌, ◌∷◌, ◌++◌, ◌≤◌, OnOk, decimal};
ghost use Rattle.std.specs.List.{flat_map};
ghost use Rattle.dd_score.specs.Tables.{tricks_of};
ghost use Rattle.dd_file.specs.Lines.{after_line, before_line, contract_line, contract_text, contracts_text, declarers_text, denomination, digit_of, digits_of, line_end, line_with, outcome_text, right_of, row_line, rows_of_seat, score_line, score_text, seat_letter, table_header, table_text, tricks_line, two_columns};

use dd_cards::{Seat, Side, Strain, Suit};
use dd_score::{Declarers, ParContract, Results};
use itoa::Buffer;
use std::alloc::AllocError;

/// How added lines end: whether a carriage return stands before each line feed, and whether the line end stands before the
/// line and not behind it.
#[derive(Clone, Copy)]
pub(crate) struct LineEnds {
    pub(crate) has_return: bool,
    pub(crate) leads: bool,
}

/// `[DoubleDummyTricks "..."]`: twenty hexadecimal digits, declarers North, South, East, West, in each notrump, spades,
/// hearts, diamonds, clubs.
#[tactic(auto, unfolding(crate::specs::Lines::line_with))]
pub(crate) fn push_tricks(
    out: &mut Vec<u8>,
    ends: LineEnds,
    results: &Results,
) -> Result<(), AllocError>
    ensures { OnOk result (out.new.items ≡ out.old.items ++ line_with ends (tricks_line results.now)) }
{
    begin_line(out, ends)?;
    out.extend_from_slice(b"[DoubleDummyTricks \"")?;
    push_digits(out, results, Seat::North)?;
    push_digits(out, results, Seat::South)?;
    push_digits(out, results, Seat::East)?;
    push_digits(out, results, Seat::West)?;
    out.extend_from_slice(b"\"]")?;
    end_line(out, ends)
}

// The digits of a declarer.
#[tactic(auto, unfolding(crate::specs::Lines::digits_of))]
fn push_digits(out: &mut Vec<u8>, results: &Results, declarer: Seat) -> Result<(), AllocError>
    ensures { OnOk result (out.new.items ≡ out.old.items ++ digits_of results.now declarer) }
{
    out.push(digit_of(results.tricks(Strain::Notrump, declarer)))?;
    out.push(digit_of(results.tricks(Strain::Trump(Suit::Spades), declarer)))?;
    out.push(digit_of(results.tricks(Strain::Trump(Suit::Hearts), declarer)))?;
    out.push(digit_of(results.tricks(Strain::Trump(Suit::Diamonds), declarer)))?;
    out.push(digit_of(results.tricks(Strain::Trump(Suit::Clubs), declarer)))?;
    Ok(())
}

// A hexadecimal digit.
fn digit_of(tricks: u8) -> u8
    requires { tricks ≤ 13 }
    ensures { result ≡ digit_of tricks }
{
    if tricks < 10 {
        b'0' + tricks
    } else {
        87 + tricks
    }
}

/// `[OptimumScore "NS n"]` where the score is 0 or more, else `[OptimumScore "EW n"]` with what East and West score.
#[tactic(auto, unfolding(crate::specs::Lines::line_with))]
pub(crate) fn push_score(out: &mut Vec<u8>, ends: LineEnds, score: i16) -> Result<(), AllocError>
    ensures { OnOk result (out.new.items ≡ out.old.items ++ line_with ends (score_line score)) }
{
    begin_line(out, ends)?;
    out.extend_from_slice(b"[OptimumScore \"")?;
    push_score_text(out, score)?;
    out.extend_from_slice(b"\"]")?;
    end_line(out, ends)
}

#[tactic(auto, unfolding(crate::specs::Lines::score_text))]
fn push_score_text(out: &mut Vec<u8>, score: i16) -> Result<(), AllocError>
    ensures { OnOk result (out.new.items ≡ out.old.items ++ score_text score) }
{
    if score >= 0 {
        out.extend_from_slice(b"NS ")?;
    } else {
        out.extend_from_slice(b"EW ")?;
    }
    push_number(out, score.unsigned_abs())
}

/// `[ParContract "..."]`: the contracts with `; ` between each two, or `Pass`.
#[tactic(auto, unfolding(crate::specs::Lines::line_with))]
pub(crate) fn push_contracts(
    out: &mut Vec<u8>,
    ends: LineEnds,
    contracts: &[ParContract],
) -> Result<(), AllocError>
    ensures { OnOk result (out.new.items ≡ out.old.items ++ line_with ends (contract_line contracts.now)) }
{
    begin_line(out, ends)?;
    out.extend_from_slice(b"[ParContract \"")?;
    push_contract_list(out, contracts)?;
    out.extend_from_slice(b"\"]")?;
    end_line(out, ends)
}

fn push_contract_list(out: &mut Vec<u8>, contracts: &[ParContract]) -> Result<(), AllocError>
    ensures { OnOk result (out.new.items ≡ out.old.items ++ contracts_text contracts.now) }
{
    match contracts {
        [] => out.extend_from_slice(b"Pass"),
        [first, rest @ ..] => {
            push_contract(out, first)?;
            push_more_contracts(out, rest)
        }
    }
}

// Each with `; ` before it.
fn push_more_contracts(out: &mut Vec<u8>, contracts: &[ParContract]) -> Result<(), AllocError>
    ensures { OnOk result (out.new.items ≡ out.old.items
        ++ flat_map (λ c. 59 ∷ 32 ∷ contract_text c) contracts.now) }
{
    for contract in contracts {
        out.extend_from_slice(b"; ")?;
        push_contract(out, contract)?;
    }
    Ok(())
}

// Declarers, level, denomination, and its result.
#[tactic(auto, unfolding(crate::specs::Lines::contract_text))]
fn push_contract(out: &mut Vec<u8>, contract: &ParContract) -> Result<(), AllocError>
    ensures { OnOk result (out.new.items ≡ out.old.items ++ contract_text contract.now) }
{
    push_declarers(out, contract.declarers)?;
    out.push(b' ')?;
    push_number(out, contract.level as u16)?;
    out.extend_from_slice(denomination(contract.strain))?;
    push_outcome(out, contract.level, contract.tricks)
}

fn push_declarers(out: &mut Vec<u8>, declarers: Declarers) -> Result<(), AllocError>
    ensures { OnOk result (out.new.items ≡ out.old.items ++ declarers_text declarers) }
{
    match declarers {
        Declarers::One(seat) => {
            out.push(seat_letter(seat))?;
            Ok(())
        }
        Declarers::Both(Side::NorthSouth) => out.extend_from_slice(b"NS"),
        Declarers::Both(Side::EastWest) => out.extend_from_slice(b"EW"),
    }
}

// `=`, or the tricks over or under with their sign; doubled where it fails.
fn push_outcome(out: &mut Vec<u8>, level: u8, tricks: u8) -> Result<(), AllocError>
    ensures { OnOk result (out.new.items ≡ out.old.items ++ outcome_text level tricks) }
{
    let needed = level as u16 + 6;
    let won = tricks as u16;
    if won == needed {
        out.push(b'=')?;
        return Ok(());
    }
    if won > needed {
        out.push(b'+')?;
        push_number(out, won - needed)
    } else {
        out.extend_from_slice(b"X-")?;
        push_number(out, needed - won)
    }
}

/// The section OptimumResultTable: its tag, and twenty rows.
pub(crate) fn push_table(
    out: &mut Vec<u8>,
    ends: LineEnds,
    results: &Results,
) -> Result<(), AllocError>
    ensures { OnOk result (out.new.items ≡ out.old.items ++ table_text ends results.now) }
{
    push_header(out, ends)?;
    push_rows(out, ends, results, Seat::North)?;
    push_rows(out, ends, results, Seat::South)?;
    push_rows(out, ends, results, Seat::East)?;
    push_rows(out, ends, results, Seat::West)
}

// The tag of the section.
#[tactic(auto, unfolding(crate::specs::Lines::line_with))]
fn push_header(out: &mut Vec<u8>, ends: LineEnds) -> Result<(), AllocError>
    ensures { OnOk result (out.new.items ≡ out.old.items ++ line_with ends table_header) }
{
    begin_line(out, ends)?;
    out.extend_from_slice(b"[OptimumResultTable \"Declarer;Denomination\\2R;Result\\2R\"]")?;
    end_line(out, ends)
}

// The rows of a declarer.
#[tactic(auto, unfolding(crate::specs::Lines::rows_of_seat))]
fn push_rows(
    out: &mut Vec<u8>,
    ends: LineEnds,
    results: &Results,
    declarer: Seat,
) -> Result<(), AllocError>
    ensures { OnOk result (out.new.items ≡ out.old.items ++ rows_of_seat ends results.now declarer) }
{
    push_row(out, ends, results, declarer, Strain::Notrump)?;
    push_row(out, ends, results, declarer, Strain::Trump(Suit::Spades))?;
    push_row(out, ends, results, declarer, Strain::Trump(Suit::Hearts))?;
    push_row(out, ends, results, declarer, Strain::Trump(Suit::Diamonds))?;
    push_row(out, ends, results, declarer, Strain::Trump(Suit::Clubs))
}

// The declarer's letter, a space, the strain in two columns, a space, the tricks in two columns.
#[tactic(auto, unfolding(crate::specs::Lines::line_with, crate::specs::Lines::row_line))]
fn push_row(
    out: &mut Vec<u8>,
    ends: LineEnds,
    results: &Results,
    declarer: Seat,
    strain: Strain,
) -> Result<(), AllocError>
    ensures { OnOk result (out.new.items ≡ out.old.items
        ++ line_with ends (row_line declarer strain (tricks_of results.now strain declarer))) }
{
    begin_line(out, ends)?;
    out.push(seat_letter(declarer))?;
    out.push(b' ')?;
    push_right(out, denomination(strain))?;
    out.push(b' ')?;
    push_two_columns(out, results.tricks(strain, declarer))?;
    end_line(out, ends)
}

// A denomination to the right in two columns.
fn push_right(out: &mut Vec<u8>, denomination: &[u8]) -> Result<(), AllocError>
    ensures { OnOk result (out.new.items ≡ out.old.items ++ right_of denomination.now) }
{
    if denomination.len() < 2 {
        out.push(b' ')?;
    }
    out.extend_from_slice(denomination)
}

// A number to the right in two columns.
fn push_two_columns(out: &mut Vec<u8>, number: u8) -> Result<(), AllocError>
    requires { number ≤ 13 }
    ensures { OnOk result (out.new.items ≡ out.old.items ++ two_columns number) }
{
    if number < 10 {
        out.push(b' ')?;
        out.push(b'0' + number)?;
    } else {
        out.push(b'1')?;
        out.push(38 + number)?;
    }
    Ok(())
}

fn denomination(strain: Strain) -> &'static [u8]
    ensures { result.now ≡ denomination strain }
{
    match strain {
        Strain::Trump(Suit::Spades) => b"S",
        Strain::Trump(Suit::Hearts) => b"H",
        Strain::Trump(Suit::Diamonds) => b"D",
        Strain::Trump(Suit::Clubs) => b"C",
        Strain::Notrump => b"NT",
    }
}

fn seat_letter(seat: Seat) -> u8
    ensures { result ≡ seat_letter seat }
{
    match seat {
        Seat::North => b'N',
        Seat::East => b'E',
        Seat::South => b'S',
        Seat::West => b'W',
    }
}

// A number in decimal.
fn push_number(out: &mut Vec<u8>, number: u16) -> Result<(), AllocError>
    ensures { OnOk result (out.new.items ≡ out.old.items ++ decimal number) }
{
    let mut buffer = Buffer::new();
    out.extend_from_slice(buffer.format(number).as_bytes())
}

// The line end, where it stands before the line.
fn begin_line(out: &mut Vec<u8>, ends: LineEnds) -> Result<(), AllocError>
    ensures { OnOk result (out.new.items ≡ out.old.items ++ before_line ends) }
{
    if ends.leads {
        push_line_end(out, ends)?;
    }
    Ok(())
}

// The line end, where it stands behind the line.
fn end_line(out: &mut Vec<u8>, ends: LineEnds) -> Result<(), AllocError>
    ensures { OnOk result (out.new.items ≡ out.old.items ++ after_line ends) }
{
    if !ends.leads {
        push_line_end(out, ends)?;
    }
    Ok(())
}

fn push_line_end(out: &mut Vec<u8>, ends: LineEnds) -> Result<(), AllocError>
    ensures { OnOk result (out.new.items ≡ out.old.items ++ line_end ends) }
{
    if ends.has_return {
        out.push(b'\r')?;
    }
    out.push(b'\n')?;
    Ok(())
}
