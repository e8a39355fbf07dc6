ghost use Rattle.std.specs.Prelude.{◌<◌, ◌≤◌, length};

use dd_cards::{Seat, Side};
use dd_score::{Declarers, Order, ParContract, Results, Vulnerable, par};

// A row a line: twenty results as hexadecimal digits, spades, hearts, diamonds, clubs, notrump and in each North, East,
// South, West; the dealer's code, or 4 and 5 for North and South and for East and West asked first; the code of vulnerable;
// the score; and for each contract the strain's code, level, tricks and declarers' code. The first twenty-six were worked by
// hand; the others are recorded ones, for which all calls of the auction were played out.
const ROWS: &[u8] = br"58586666575775756666 0 0 -0110 0285
66666666666666666666 0 0 +0000
66666666666666667777 0 0 +0090 4170
66666666666666667777 1 0 -0090 4171
66666666666666667777 4 0 +0090 4174
66666666666666667777 5 0 -0090 4175
66666666666666666677 0 0 +0090 4172
66666666666666666677 3 0 -0090 4173
66666666666666666677 4 0 +0090 4172
66666666666666666677 5 0 -0090 4173
4949a3a3858576768585 0 0 +0100 0495
4949a3a3858576768585 0 3 +0200 0495
858576769494b2b29494 0 0 +0400 35b4 4394
94947676767667677676 0 0 +0140 0294
94947676767658587676 0 0 +0140 0394
84796666666666666666 0 0 -0100 0380
88876666666666666666 3 0 +0100 0273
88886666666666666666 4 0 +0100 0385
d0d00d0dd0d00d0d0000 0 0 +1510 07d4
3a3a3a3a949494844949 2 3 -0300 2594 3590
c1c1c1c1a3a33a3ac1c1 0 2 +0500 37a5
8585676794948585a393 2 1 +0630 43a0
8dca0ad516978dac4a64 3 1 -1400 0780
5858a3a3b2b267677676 0 0 +0400 25b4
67667676676767677776 0 0 +0090 4170
67666757676749585769 4 3 -0500 4362
88886556355555353556 4 3 +0110 0284
8768a384485984855949 0 0 +0100 4495
a37cda095872c8dac811 1 1 +0200 07c3
959567679494c1c1c1c1 2 0 +0990 46c4
1b1b3a3a585839393a3a 1 0 -0450 04b5
1b1b58581a1a2a2a1919 3 0 -0450 04b5
7676a3a3a3a39393a3a3 2 1 +0630 43a4
857494a5949558488475 2 2 +0500 3585
7685676729498685785a 0 1 -0630 44a3
55656456464566665466 0 2 +0000
54455657754653549999 1 1 -0200 4494
94948585b2b2a3a39493 4 1 +0600 25b4 4394
9494b2b2949494949494 1 2 +0650 14b4
767694844939494a8585 1 3 -0100 1490
59698594667694945878 2 0 -0100 1492 3494
67688465858649494a5a 0 3 -0500 1580 2584";

// What the byte of a column stands for as a hexadecimal digit; 0 where it is none or the row is shorter.
fn digit(row: &[u8], column: usize) -> u8
    ensures { result ≤ 15 }
{
    match row.get(column) {
        Some(byte) => match *byte {
            b'0'..=b'9' => *byte - b'0',
            b'a'..=b'f' => *byte - b'a' + 10,
            _ => 0,
        },
        None => 0,
    }
}

fn four(row: &[u8], column: usize) -> [u8; 4]
    requires { column < 17 }
{
    [
        digit(row, column),
        digit(row, column + 1),
        digit(row, column + 2),
        digit(row, column + 3),
    ]
}

fn score_of(row: &[u8]) -> i16 {
    let high = 10 * digit(row, 26) as i16 + digit(row, 27) as i16;
    let low = 10 * digit(row, 28) as i16 + digit(row, 29) as i16;
    let points = 100 * high + low;
    if row.get(25) == Some(&b'-') {
        -points
    } else {
        points
    }
}

fn order_of(row: &[u8]) -> Order {
    match digit(row, 21) {
        4 => Order::First(Side::NorthSouth),
        5 => Order::First(Side::EastWest),
        code => Order::Dealer(Seat::from_code(code).unwrap_or(Seat::North)),
    }
}

// The code of the declarers of a row: a seat's, or 4 and 5 for both seats of North and South and of East and West.
fn declarers_code(declarers: Declarers) -> u8 {
    match declarers {
        Declarers::One(seat) => seat.code(),
        Declarers::Both(Side::NorthSouth) => 4,
        Declarers::Both(Side::EastWest) => 5,
    }
}

// Is it the contract that the row has from a column on?
fn is_listed(row: &[u8], column: usize, contract: &ParContract) -> bool
    requires { column < 1000 }
{
    contract.strain.code() == digit(row, column)
        && contract.level == digit(row, column + 1)
        && contract.tricks == digit(row, column + 2)
        && declarers_code(contract.declarers) == digit(row, column + 3)
}

fn are_listed(row: &[u8], contracts: &[ParContract]) -> bool
    requires { length contracts.now ≤ 10 }
{
    if row.len() != 30 + 5 * contracts.len() {
        return false;
    }
    for (index, contract) in contracts.iter().enumerate() {
        if !is_listed(row, 31 + 5 * index, contract) {
            return false;
        }
    }
    true
}

// Is par what the row says?
fn holds(row: &[u8]) -> bool {
    let table = [
        four(row, 0),
        four(row, 4),
        four(row, 8),
        four(row, 12),
        four(row, 16),
    ];
    match (Results::new(table), Vulnerable::from_code(digit(row, 23))) {
        (Some(results), Some(vulnerable)) => {
            let found = par(&results, vulnerable, order_of(row));
            found.score == score_of(row) && are_listed(row, found.contracts.as_slice())
        }
        _ => false,
    }
}

fn is_line_feed(byte: &u8) -> bool {
    *byte == b'\n'
}

#[test]
fn par_of_tables_worked_by_hand_and_recorded(rt: HostRuntime) {
    for row in ROWS.split(is_line_feed) {
        assert!(rt; holds(row), "{row:?}");
    }
}
