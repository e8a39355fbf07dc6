//! Request lines.

use crate::deal::{Deal, PACK, RANKS};
use crate::draws::Draws;
use crate::play::Play;
use std::alloc::{AllocError, Global};

/// The points of a strong side.
const STRONG: usize = 26;

/// The tables of results that there are: by the fewest tricks, the strain that has them, what the others have more, and in which hands the
/// strain after it has one fewer.
const TABLES: usize = 9 * 5 * 625 * 4;

/// How far apart two are that come one after the other: it has no factor of their number, so all come before one comes again.
const TABLES_APART: usize = 7919;

/// The cards a hand of endings, in turn.
const ENDINGS: [usize; 10] = [1, 2, 3, 4, 5, 6, 1, 2, 3, 4];

/// All opening leads of full deals, in each strain and by each leader in turn.
pub(crate) fn leads(alloc: Global, count: u32, draws: &mut Draws) -> Result<Vec<u8>, AllocError> {
    let mut lines = Vec::new(alloc);
    for number in 0..count {
        let deal = Deal::drawn(draws, RANKS);
        let number = number as usize;
        push_solve(&mut lines, &deal, number % 5, number % 4, 3)?;
        lines.extend_from_slice(b"}\n")?;
    }
    Ok(lines)
}

/// One best lead against strong declarers at notrump.
pub(crate) fn strong(alloc: Global, count: u32, draws: &mut Draws) -> Result<Vec<u8>, AllocError> {
    let mut lines = Vec::new(alloc);
    for _ in 0..count {
        let deal = strong_deal(draws);
        push_solve(&mut lines, &deal, 4, 3, 1)?;
        lines.extend_from_slice(b"}\n")?;
    }
    Ok(lines)
}

fn strong_deal(draws: &mut Draws) -> Deal {
    let mut deal = Deal::drawn(draws, RANKS);
    for _ in 0..10_000 {
        if deal.points() >= STRONG {
            break;
        }
        deal = Deal::drawn(draws, RANKS);
    }
    deal
}

/// Whole plays of full deals.
pub(crate) fn plays(alloc: Global, count: u32, draws: &mut Draws) -> Result<Vec<u8>, AllocError> {
    let mut lines = Vec::new(alloc);
    for number in 0..count {
        push_play(&mut lines, number as usize, draws)?;
    }
    Ok(lines)
}

fn push_play(lines: &mut Vec<u8>, number: usize, draws: &mut Draws) -> Result<(), AllocError> {
    let deal = Deal::drawn(draws, RANKS);
    let leader = draws.below(4);
    lines.extend_from_slice(b"{\"do\":\"play\",\"deal\":\"")?;
    deal.push(lines)?;
    push_field(lines, b"\",\"trump\":", number % 5)?;
    push_field(lines, b",\"first\":", leader)?;
    lines.extend_from_slice(b",\"cards\":[")?;
    let mut play = Play::new(deal, number % 5, leader);
    for place in 0..PACK {
        if place > 0 {
            lines.push(b',')?;
        }
        push_card(lines, play.next(draws))?;
    }
    lines.extend_from_slice(b"]}\n")
}

/// Short lines: par of given results, and endings of a few cards with up to three on the trick, in turn.
pub(crate) fn short(alloc: Global, count: u32, draws: &mut Draws) -> Result<Vec<u8>, AllocError> {
    let mut lines = Vec::new(alloc);
    let first = draws.below(TABLES);
    for number in 0..count {
        let number = number as usize;
        if number % 2 == 0 {
            let table = first.wrapping_add((number / 2).wrapping_mul(TABLES_APART)) % TABLES;
            push_par(&mut lines, table, draws)?;
        } else {
            push_ending(&mut lines, number / 2, draws)?;
        }
    }
    Ok(lines)
}

fn push_ending(lines: &mut Vec<u8>, number: usize, draws: &mut Draws) -> Result<(), AllocError> {
    let deal = Deal::drawn(draws, ENDINGS[number % ENDINGS.len()]);
    let trump = draws.below(5);
    let leader = draws.below(4);
    let on_trick = draws.below(4);
    let mut play = Play::new(deal, trump, leader);
    let mut played = [0; 3];
    for place in 0..on_trick {
        played[place] = play.next(draws);
    }
    push_solve(lines, play.deal(), trump, leader, 1 + draws.below(3))?;
    lines.extend_from_slice(b",\"played\":[")?;
    for place in 0..on_trick {
        if place > 0 {
            lines.push(b',')?;
        }
        push_card(lines, played[place])?;
    }
    lines.extend_from_slice(b"]}\n")
}

// All of a line for a position's cards but its end.
fn push_solve(
    lines: &mut Vec<u8>,
    deal: &Deal,
    trump: usize,
    first: usize,
    solutions: usize,
) -> Result<(), AllocError> {
    lines.extend_from_slice(b"{\"do\":\"solve\",\"deal\":\"")?;
    deal.push(lines)?;
    push_field(lines, b"\",\"trump\":", trump)?;
    push_field(lines, b",\"first\":", first)?;
    push_field(lines, b",\"solutions\":", solutions)
}

// A line for par. The number of its table gives the tricks in the strain in which North and South take the fewest, which one that is, in
// the others up to five more, and what the next strain has fewer: no two numbers give the same results.
fn push_par(lines: &mut Vec<u8>, table: usize, draws: &mut Draws) -> Result<(), AllocError> {
    lines.extend_from_slice(b"{\"do\":\"par\",\"table\":[")?;
    let fewest = table % 9;
    let lowest = table / 9 % 5;
    let mut more = table / 45 % 625;
    for strain in 0..5 {
        if strain > 0 {
            lines.push(b',')?;
        }
        if strain == lowest {
            push_row(lines, fewest, draws.below(8) / 7, draws.below(8) / 7)?;
        } else {
            let tricks = fewest + 1 + more % 5;
            more /= 5;
            if strain == (lowest + 1) % 5 {
                push_row(lines, tricks, table / 28_125 % 2, table / 56_250 % 2)?;
            } else {
                push_row(lines, tricks, draws.below(8) / 7, draws.below(8) / 7)?;
            }
        }
    }
    push_field(lines, b"],\"dealer\":", draws.below(4))?;
    push_field(lines, b",\"vulnerable\":", draws.below(4))?;
    lines.extend_from_slice(b"}\n")
}

// The results of a strain: those of a side are mostly the same by both of its hands, and the other side has what is left.
fn push_row(
    lines: &mut Vec<u8>,
    tricks: usize,
    north_fewer: usize,
    west_fewer: usize,
) -> Result<(), AllocError> {
    push_field(lines, b"[", tricks.saturating_sub(north_fewer))?;
    push_field(lines, b",", 13usize.saturating_sub(tricks))?;
    push_field(lines, b",", tricks)?;
    push_field(
        lines,
        b",",
        13usize.saturating_sub(tricks.saturating_sub(west_fewer)),
    )?;
    lines.push(b']').map_err(AllocError::from)
}

fn push_card(lines: &mut Vec<u8>, card: usize) -> Result<(), AllocError> {
    push_field(lines, b"[", card % PACK / RANKS)?;
    push_field(lines, b",", card % RANKS + 2)?;
    lines.extend_from_slice(b"]")
}

/// Adds a number of one or two digits after some text.
pub(crate) fn push_field(
    text: &mut Vec<u8>,
    before: &[u8],
    number: usize,
) -> Result<(), AllocError> {
    text.extend_from_slice(before)?;
    if number >= 10 {
        text.push(digit(number / 10))?;
    }
    text.push(digit(number))?;
    Ok(())
}

fn digit(number: usize) -> u8 {
    b'0' + (number % 10) as u8
}
