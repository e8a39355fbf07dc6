//! Law 77's table a second time, by columns of whole scores as printed score cards have them.

ghost use Rattle.std.specs.Prelude.{◌<◌, ◌≤◌};

use dd_cards::{Strain, Suit};
use dd_score::{Doubling, points};

// Contracts that are just made, by level: minors, majors and notrump; in each undoubled, doubled, redoubled; in each not
// vulnerable, vulnerable.
const MADE: [[i16; 7]; 18] = [
    [70, 90, 110, 130, 400, 920, 1440],
    [70, 90, 110, 130, 600, 1370, 2140],
    [140, 180, 470, 510, 550, 1090, 1630],
    [140, 180, 670, 710, 750, 1540, 2330],
    [230, 560, 640, 720, 800, 1380, 1960],
    [230, 760, 840, 920, 1000, 1830, 2660],
    [80, 110, 140, 420, 450, 980, 1510],
    [80, 110, 140, 620, 650, 1430, 2210],
    [160, 470, 530, 590, 650, 1210, 1770],
    [160, 670, 730, 790, 850, 1660, 2470],
    [520, 640, 760, 880, 1000, 1620, 2240],
    [720, 840, 960, 1080, 1200, 2070, 2940],
    [90, 120, 400, 430, 460, 990, 1520],
    [90, 120, 600, 630, 660, 1440, 2220],
    [180, 490, 550, 610, 670, 1230, 1790],
    [180, 690, 750, 810, 870, 1680, 2490],
    [560, 680, 800, 920, 1040, 1660, 2280],
    [760, 880, 1000, 1120, 1240, 2110, 2980],
];

// A trick over, in the same columns.
const OVER: [i16; 18] = [
    20, 20, 100, 200, 200, 400, 30, 30, 100, 200, 200, 400, 30, 30, 100, 200, 200, 400,
];

// Contracts that fail, by the tricks short from one: undoubled, doubled, redoubled; in each not vulnerable, vulnerable.
const SHORT: [[i16; 13]; 6] = [
    [
        50, 100, 150, 200, 250, 300, 350, 400, 450, 500, 550, 600, 650,
    ],
    [
        100, 200, 300, 400, 500, 600, 700, 800, 900, 1000, 1100, 1200, 1300,
    ],
    [
        100, 300, 500, 800, 1100, 1400, 1700, 2000, 2300, 2600, 2900, 3200, 3500,
    ],
    [
        200, 500, 800, 1100, 1400, 1700, 2000, 2300, 2600, 2900, 3200, 3500, 3800,
    ],
    [
        200, 600, 1000, 1600, 2200, 2800, 3400, 4000, 4600, 5200, 5800, 6400, 7000,
    ],
    [
        400, 1000, 1600, 2200, 2800, 3400, 4000, 4600, 5200, 5800, 6400, 7000, 7600,
    ],
];

fn strain_of(code: usize) -> Strain {
    match code {
        0 => Strain::Trump(Suit::Clubs),
        1 => Strain::Trump(Suit::Diamonds),
        2 => Strain::Trump(Suit::Hearts),
        3 => Strain::Trump(Suit::Spades),
        _ => Strain::Notrump,
    }
}

fn doubling_of(column: usize) -> Doubling {
    match column / 2 {
        0 => Doubling::Undoubled,
        1 => Doubling::Doubled,
        _ => Doubling::Redoubled,
    }
}

// What the tables above say.
fn expected(level: usize, kind: usize, column: usize, tricks: usize) -> i32
    requires { (1 ≤ level) × (level ≤ 7) × (kind < 3) × (column < 6) × (tricks ≤ 13) }
{
    if level + 6 <= tricks {
        let place = 6 * kind + column;
        let over = (tricks - (level + 6)) as i32;
        let made = MADE[place];
        (made[level - 1] as i32).saturating_add(over * OVER[place] as i32)
    } else {
        let short = SHORT[column];
        -(short[level + 6 - tricks - 1] as i32)
    }
}

// Is a score what the tables say, for each number of tricks?
fn agree(level: usize, strain: usize, column: usize) -> bool
    requires { (1 ≤ level) × (level ≤ 7) × (strain < 5) × (column < 6) }
{
    for tricks in 0..14 {
        let found = points(
            level as u8,
            strain_of(strain),
            doubling_of(column),
            column % 2 == 1,
            tricks as u8,
        );
        if found as i32 != expected(level, strain / 2, column, tricks) {
            return false;
        }
    }
    true
}

#[test]
fn every_score_is_that_of_the_printed_tables(rt: HostRuntime) {
    for level in 1..8 {
        for strain in 0..5 {
            for column in 0..6 {
                assert!(rt;
                    agree(level, strain, column),
                    "level {level}, strain {strain}, column {column}"
                );
            }
        }
    }
}
