//! Boards of PBN files.

use crate::deal::{Deal, PACK, RANKS, shuffled};
use crate::draws::Draws;
use crate::lines::push_field;
use std::alloc::{AllocError, Global};

const SEATS: [u8; 4] = *b"NESW";

const HEX: [u8; 14] = *b"0123456789abcd";

/// A hand record: boards that have a deal and no results.
pub(crate) fn record(alloc: Global, count: u32, draws: &mut Draws) -> Result<Vec<u8>, AllocError> {
    let mut file = Vec::new(alloc);
    file.extend_from_slice(b"% PBN 2.1\n% EXPORT\n\n")?;
    for number in 0..count {
        let deal = Deal::drawn(draws, RANKS);
        push_head(&mut file, number as usize, &deal)?;
        file.extend_from_slice(b"[Contract \"?\"]\n[Result \"?\"]\n\n")?;
    }
    Ok(file)
}

/// Boards that were played, and have all results already.
pub(crate) fn tagged(alloc: Global, count: u32, draws: &mut Draws) -> Result<Vec<u8>, AllocError> {
    let mut file = Vec::new(alloc);
    file.extend_from_slice(b"% PBN 2.1\n% EXPORT\n\n")?;
    for number in 0..count {
        let deal = Deal::drawn(draws, RANKS);
        push_head(&mut file, number as usize, &deal)?;
        push_results(&mut file, draws)?;
        if number % 2 == 0 {
            push_auction(&mut file, draws)?;
            push_cards(&mut file, draws)?;
        }
        file.push(b'\n')?;
    }
    Ok(file)
}

fn push_head(file: &mut Vec<u8>, number: usize, deal: &Deal) -> Result<(), AllocError> {
    file.extend_from_slice(
        b"[Event \"Club pairs\"]\n[Site \"?\"]\n[Date \"2026.11.25\"]\n[Board \"",
    )?;
    push_field(file, b"", number / 100 % 100)?;
    push_field(file, b"", number % 100)?;
    file.extend_from_slice(
        b"\"]\n[West \"A. Player\"]\n[North \"B. Player\"]\n[East \"C. Player\"]\n[South \"D. Player\"]\n[Dealer \"",
    )?;
    file.push(SEATS[number % 4])?;
    file.extend_from_slice(b"\"]\n[Vulnerable \"")?;
    file.extend_from_slice(vulnerable(number))?;
    file.extend_from_slice(b"\"]\n[Deal \"")?;
    deal.push(file)?;
    file.extend_from_slice(b"\"]\n[Scoring \"MP\"]\n[Declarer \"?\"]\n")
}

fn vulnerable(number: usize) -> &'static [u8] {
    match (number % 4 + number / 4 % 4) % 4 {
        0 => b"None",
        1 => b"NS",
        2 => b"EW",
        _ => b"All",
    }
}

// Results that nobody compares with the deal.
fn push_results(file: &mut Vec<u8>, draws: &mut Draws) -> Result<(), AllocError> {
    file.extend_from_slice(b"[Contract \"3NT\"]\n[Result \"9\"]\n[DoubleDummyTricks \"")?;
    for _ in 0..20 {
        file.push(HEX[draws.below(14)])?;
    }
    push_field(file, b"\"]\n[OptimumScore \"NS 4", draws.below(100))?;
    file.extend_from_slice(
        b"\"]\n[ParContract \"NS 3N=\"]\n[OptimumResultTable \"Declarer;Denomination\\2R;Result\\2R\"]\n",
    )?;
    for seat in 0..4 {
        push_table(file, seat, draws)?;
    }
    Ok(())
}

fn push_table(file: &mut Vec<u8>, seat: usize, draws: &mut Draws) -> Result<(), AllocError> {
    for strain in [b"NT", b" S", b" H", b" D", b" C"] {
        file.push(SEATS[seat % 4])?;
        file.push(b' ')?;
        file.extend_from_slice(strain)?;
        push_field(file, b" ", draws.below(14))?;
        file.push(b'\n')?;
    }
    Ok(())
}

fn push_auction(file: &mut Vec<u8>, draws: &mut Draws) -> Result<(), AllocError> {
    file.extend_from_slice(b"[Auction \"N\"]\n1C Pass 1")?;
    file.push(b"DHS"[draws.below(3)])?;
    file.extend_from_slice(
        b" Pass\n1NT Pass 3NT =1= Pass\nPass Pass\n[Note \"1:no slam try\"]\n{ Both tables of the match were in game. }\n",
    )
}

// Cards as a play has them, which nobody compares with the deal: they cost little to make.
fn push_cards(file: &mut Vec<u8>, draws: &mut Draws) -> Result<(), AllocError> {
    file.extend_from_slice(b"[Play \"W\"]\n")?;
    let pack = shuffled(draws);
    for (place, card) in pack.iter().enumerate() {
        let card = usize::from(*card) % PACK;
        let end = if place % 4 == 3 { b'\n' } else { b' ' };
        file.extend_from_slice(&[b"SHDC"[card / RANKS], b"23456789TJQKA"[card % RANKS], end])?;
    }
    file.extend_from_slice(b"*\n")
}
