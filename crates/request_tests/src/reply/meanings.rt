use crate::rows::{after_bar, before_bar};
use dd_cards::{Card, Rank, Seat, Suit};
use dd_request::{Asked, Request};
use dd_wire::{LineAsked, read_request};
use std::alloc::{AllocError, Global};
use std::test::Fail;

// What a line means, as numbers: the strain, the first seat, the tricks left, the cards on the trick and the solutions
// of what it asks, the cards of North where it asks for a table, or the number of its fault.
fn meaning(alloc: Global, line: &[u8]) -> Result<String, AllocError> {
    match read_request(alloc, line) {
        Ok(LineAsked::Cards(asked)) => meaning_of_cards(alloc, &asked),
        Ok(LineAsked::Par(_)) => format!(in alloc; "par"),
        Ok(LineAsked::ParOfDeal(_)) => format!(in alloc; "par of a deal"),
        Err(fault) => {
            let number = fault.number();
            format!(in alloc; "{number}")
        }
    }
}

// The same of a question of cards.
fn meaning_of_cards(alloc: Global, asked: &Asked) -> Result<String, AllocError> {
    match asked {
        Asked::Table(request) => {
            let cards = request.hands().len(Seat::North);
            format!(in alloc; "table {cards}")
        }
        Asked::Solve(request) => {
            let position = request.position();
            let strain = position.strain().code();
            let first = position.first().code();
            let left = position.tricks_left();
            let played = position.trick().len();
            let solutions = request.solutions();
            format!(in alloc; "{strain} {first} {left} {played} {solutions}")
        }
        Asked::Target(request) => {
            let position = request.position();
            let strain = position.strain().code();
            let first = position.first().code();
            let left = position.tricks_left();
            let played = position.trick().len();
            let solutions = request.solutions();
            let target = request.target();
            format!(in alloc; "{strain} {first} {left} {played} {solutions} target {target}")
        }
        Asked::Play(request) => {
            let cards = request.cards().len();
            format!(in alloc; "play {cards}")
        }
    }
}

// The position to solve that a line asks about.
fn solve_request(alloc: Global, line: &[u8]) -> Option<Request> {
    match read_request(alloc, line) {
        Ok(LineAsked::Cards(Asked::Solve(request))) => Some(request),
        _ => None,
    }
}

const SERVED: &str =
    r#"{"do":"solve","deal":"N:A... K... Q... J...","trump":4,"first":0,"solutions":3}"#;

// The request that is served, with more members. Of a key that stands twice the last member counts, so these change it.
fn changed(alloc: Global, members: &[u8]) -> Result<Vec<u8>, AllocError> {
    let mut line = Vec::new(alloc);
    line.extend_from_slice(
        br#"{"do":"solve","deal":"N:A... K... Q... J...","trump":4,"first":0,"solutions":3,"#,
    )?;
    line.extend_from_slice(members)?;
    line.push(b'}')?;
    Ok(line)
}

// Each row of these tables is a meaning, a bar and a line.
const JSON_OBJECTS: &[u8] = b"1|\n\
     1| \t\n\
     1|3\n\
     1|null\n\
     1|\"solve\"\n\
     1|[]\n\
     1|[1]\n\
     1|[{}]\n\
     3|{}\n\
     3| \t{} \r\n\
     1|{}{}\n\
     1|{} {}\n\
     1|{},\n\
     1|{}\0\n\
     1|{}\x0c\n\
     1|{}\xc2\xa0\n\
     1|{}// all\n\
     1|\xef\xbb\xbf{}\n\
     1|{\"x\":1\n\
     1|{\"do\":\"sol\n\
     1|{\"do\":\"solve\",}\n\
     1|{'do':'solve'}\n\
     1|{do:\"solve\"}\n\
     1|{\"do\"}\n\
     1|{\"do\":\"so\tlve\"}\n\
     1|{\"do\":\"\\x73olve\"}\n\
     1|{\"do\":\"\\ud800\"}\n\
     1|{\"do\":\"\\udc00\\ud800\"}\n\
     3|{\"do\":\"\\ud83d\\ude00\"}\n\
     1|{\"trump\":+1}\n\
     1|{\"trump\":01}\n\
     1|{\"trump\":1.}\n\
     1|{\"trump\":.5}\n\
     1|{\"trump\":0x1}\n\
     1|{\"trump\":NaN}\n\
     1|{\"trump\":1e400}\n\
     1|{\"do\":\"\xff\"}\n\
     1|{\"do\":\"\xc0\xaf\"}\n\
     1|{\"\xed\xa0\x80\":1}";

const FIELDS_LEFT_OUT: &[u8] =
    br#"4 0 1 0 3|{"do":"solve","deal":"N:A... K... Q... J...","trump":4,"first":0,"solutions":3}
1 2 2 0 2|{"trump":1,"solutions":2,"played":[],"first":2,"do":"solve","deal":"N:32... K4... AQ... 65..."}
4 0 1 0 3| { "\u0064o" : "so\u006cve" , "deal":"N\u003aA... K... Q... J...","trump":4,"first":0,"solutions":3 } 
3|{"deal":"N:A... K... Q... J...","trump":4,"first":0,"solutions":3}
3|{"do":"solve","trump":4,"first":0,"solutions":3}
3|{"do":"solve","deal":"N:A... K... Q... J...","first":0,"solutions":3}
3|{"do":"solve","deal":"N:A... K... Q... J...","trump":4,"solutions":3}
3|{"do":"solve","deal":"N:A... K... Q... J...","trump":4,"first":0}"#;

#[test]
fn a_line_is_one_json_object_with_all_fields(rt: HostRuntime) -> Result<(), Fail> {
    for table in [JSON_OBJECTS, FIELDS_LEFT_OUT] {
        for row in table.split(|byte| *byte == b'\n') {
            let meaning = meaning(rt.alloc(), after_bar(row))?;
            assert_eq!(rt; meaning.as_bytes(), before_bar(row), "at {row:?}");
        }
    }
    Ok(())
}

// Each row of these tables is a meaning, a bar and the members that change the request.
const FIELDS: &[u8] = br#"3|"do":"Solve"
3|"do":"table"
3|"do":"solve\u0000"
3|"do":1
4 0 1 0 3|"do":"table","do":"solve"
3|"x":1
3|"":null
3|"Trump":4
3|"trump ":4
3|"deal":["N:A... K... Q... J..."]
3|"deal":null
0 1 1 0 1|"trump":0,"first":1,"solutions":1
1 2 1 0 2|"trump":1,"first":2,"solutions":2
2 3 1 0 3|"trump":2,"first":3
3 0 1 0 3|"trump":3
9|"\u0074rump":5
9|"trump":260
9|"trump":18446744073709551615
3|"trump":18446744073709551616
3|"trump":4.0
3|"trump":4e0
3|"trump":"4"
3|"trump":[4]
3|"trump":null
10|"first":4
10|"first":256
10|"first":18446744073709551615
3|"first":18446744073709551616
3|"first":-0
3|"first":-1
3|"first":false
12|"solutions":0
12|"solutions":4
12|"target":1
12|"target":14
4 0 1 0 1 target 0|"target":0,"solutions":1
4 0 1 0 2 target 13|"target":13,"solutions":2
27|"target":14,"solutions":2
27|"target":257,"solutions":1
27|"target":18446744073709551615,"solutions":1
3|"target":18446744073709551616,"solutions":1
3|"target":-1,"solutions":1
3|"target":1.0,"solutions":1
3|"target":"1","solutions":1
3|"target":null,"solutions":1
3|"target":1,"solutions":1,"do":"table"
12|"solutions":259
12|"solutions":18446744073709551615
3|"solutions":18446744073709551616
3|"solutions":1.0
3|"played":null
3|"played":{}
3|"played":"[]"
3|"played":[0,14]
3|"played":[[]]
3|"played":[[0]]
3|"played":[[0,14,0]]
3|"played":[[0,14.0]]
3|"played":[[-0,14]]
3|"played":[["S","A"]]
3|"played":[[0,2],[0,3],[0,4],[0,5],[0]]
11|"played":[[0,2],[0,3],[0,4],[0,5]]
11|"played":[[4,14]]
11|"played":[[0,1]]
11|"played":[[0,15]]
11|"played":[[0,2],[0,3],[256,4]]
11|"played":[[0,258],[0,3]]
4 0 1 0 3|"played":[]
4 0 1 1 3|"deal":"N:... K... Q... J...","played":[[0,14]]
4 0 1 2 3|"deal":"N:... ... Q... J...","played":[[1,2],[3,13]]
4 0 1 3 3|"deal":"N:... ... ... J...","played":[[0,14],[0,13],[0,12]]
4 2 2 2 3|"deal":"N:32... 54... 6... 7...","first":2,"played":[[2,14],[2,13]]
7|"deal":"N:32... 54... 6... 7...","played":[[2,14],[2,13]]
7|"deal":"N:... ... ... ...","played":[[0,14]]
6|"played":[[0,13]]"#;

const DEALS: &[u8] =
    br#"4 0 13 0 3|"deal":"N:AKQJT98765432... .AKQJT98765432.. ..AKQJT98765432. ...AKQJT98765432"
4 0 13 0 3|"deal":"w:2TaJ6Q3K87954... .akqjt98765432.. ..23456789tjqka. ...akqjt98765432"
4 0 1 0 3|"deal":" \t N:A... K... Q... J..."
4 0 1 0 3|"deal":"N: \tA... K... Q... J..."
4 0 1 0 3|"deal":"N:A...\tK...  Q... \t J..."
4 0 1 0 3|"deal":"N:A... K... Q... J... \t"
4 0 1 0 3|"deal":"[Deal \"N:A... K... Q... J...\"]"
4 0 1 0 3|"deal":" \t[ dEAL\t\" n: a... k... q... j... \" ] "
4|"deal":""
4|"deal":" "
4|"deal":"["
4|"deal":"A... K... Q... J..."
4|"deal":"X:A... K... Q... J..."
4|"deal":"N :A... K... Q... J..."
4|"deal":"N:A ... K... Q... J..."
4|"deal":"N:A. .. K... Q... J..."
4|"deal":"N:A...K... Q... J..."
4|"deal":"N:A... K... Q... J... T..."
4|"deal":"N:A... K... Q..."
4|"deal":"N:A.. K... Q... J..."
4|"deal":"N:A.... K... Q... J..."
4|"deal":"N:10... K... Q... J..."
4|"deal":"N:A... -- Q... J..."
4|"deal":"N:A...\nK... Q... J..."
4|"deal":"N:A... K... Q... J...\r"
4|"deal":"N:A...\u00a0K... Q... J..."
4|"deal":"N:A... K... Q... J...\u0000"
4|"deal":"\u2660:A... K... Q... J..."
4|"deal":"\"N:A... K... Q... J...\""
4|"deal":"[Dealer \"N:A... K... Q... J...\"]"
4|"deal":"[Deal N:A... K... Q... J...]"
4|"deal":"[Deal \"N:A... K... Q... J...\"]]"
5|"deal":"N:A... K... Q... -"
5|"deal":"N:- - - -"
5|"deal":"[Deal \"N:A... - Q... J...\"]"
6|"deal":"N:A... A... Q... J..."
6|"deal":"N:AKQJT98765432A... ... ... ..."
6|"deal":"[Deal \"N:AA... K2... Q3... J4...\"]"
7|"deal":"N:A2... K... Q... J..."
7|"deal":"N:AKQJT98765432.2.. .K.. .Q.. .J.."
8|"deal":"N:... ... ... ...""#;

const TWO_FAULTS: &[u8] = br#"1|"x":1,
3|"x":1,"deal":"N:A... K... Q... J.."
3|"solutions":3.0,"deal":"N:A... K... Q... J.."
3|"played":[[0,1,2]],"deal":"N:A... K... Q... J.."
4|"deal":"N:- K... Q... J.."
4|"deal":"N:AA... K... Q... J.."
4|"trump":5,"deal":"N:A... K... Q... J.."
5|"deal":"N:- AA... Q... J..."
5|"trump":5,"deal":"N:A... K... Q... -"
6|"trump":5,"deal":"N:A... A... Q... J..."
9|"trump":5,"first":4
10|"first":4,"played":[[0,1]]
11|"played":[[0,1]],"solutions":4
11|"played":[[0,2],[0,3],[0,4],[0,14]]
12|"solutions":4,"played":[[0,11]]
27|"target":14,"solutions":1,"deal":"N:A2... K... Q... J..."
12|"target":14,"solutions":0
11|"target":14,"solutions":4,"played":[[0,1]]
12|"solutions":0,"deal":"N:A2... K... Q... J..."
6|"played":[[0,11]],"deal":"N:A2... K... Q... J..."
6|"played":[[0,14],[0,14]],"deal":"N:... ... Q... J..."
7|"deal":"N:... K... Q... J...""#;

#[test]
fn each_field_has_its_meaning_and_the_first_fault_is_told(rt: HostRuntime) -> Result<(), Fail> {
    for table in [FIELDS, DEALS, TWO_FAULTS] {
        for row in table.split(|byte| *byte == b'\n') {
            let line = changed(rt.alloc(), after_bar(row))?;
            let meaning = meaning(rt.alloc(), &line)?;
            assert_eq!(rt; meaning.as_bytes(), before_bar(row), "at {row:?}");
        }
    }
    Ok(())
}

#[test]
fn a_line_has_at_most_4096_bytes(rt: HostRuntime) -> Result<(), Fail> {
    let mut line = [b' '; 4_097];
    line[..SERVED.len()].copy_from_slice(SERVED.as_bytes());
    assert_eq!(rt; meaning(rt.alloc(), &line)?.as_str(), "2");
    assert_eq!(rt; meaning(rt.alloc(), &line[..4_096])?.as_str(), "4 0 1 0 3");
    assert_eq!(rt; meaning(rt.alloc(), &line[1..])?.as_str(), "1");
    line[SERVED.len()] = b'\r';
    assert_eq!(rt;
        meaning(rt.alloc(), &line[..SERVED.len() + 1])?.as_str(),
        "4 0 1 0 3"
    );
    Ok(())
}

// An object whose arrays nest, this deep with itself.
fn nested(alloc: Global, depth: usize) -> Result<String, AllocError> {
    let mut line = String::new(alloc);
    line.push_str("{\"played\":")?;
    for _ in 1..depth {
        line.push('[')?;
    }
    for _ in 1..depth {
        line.push(']')?;
    }
    line.push('}')?;
    Ok(line)
}

#[test]
fn json_nests_127_deep(rt: HostRuntime) -> Result<(), Fail> {
    for (depth, fault) in [(2, "3"), (127, "3"), (128, "1"), (1_000, "1")] {
        let line = nested(rt.alloc(), depth)?;
        assert_eq!(rt;
            meaning(rt.alloc(), line.as_bytes())?.as_str(),
            fault,
            "at {depth}"
        );
    }
    Ok(())
}

// The spades of each seat: bit r stands for the rank r.
fn spades(alloc: Global, request: &Request) -> Result<String, AllocError> {
    let hands = request.position().hands();
    let north = hands.holding(Seat::North, Suit::Spades).mask();
    let east = hands.holding(Seat::East, Suit::Spades).mask();
    let south = hands.holding(Seat::South, Suit::Spades).mask();
    let west = hands.holding(Seat::West, Suit::Spades).mask();
    format!(in alloc; "{north} {east} {south} {west}")
}

// Each row is the spades, a bar and a deal.
const FIRST_HANDS: &[u8] = br#"16384 8192 4096 2048|"deal":"N:A... K... Q... J..."
16384 8192 4096 2048|"deal":"n:A... K... Q... J..."
2048 16384 8192 4096|"deal":"E:A... K... Q... J..."
2048 16384 8192 4096|"deal":"e:A... K... Q... J..."
4096 2048 16384 8192|"deal":"S:A... K... Q... J..."
4096 2048 16384 8192|"deal":"s:A... K... Q... J..."
8192 4096 2048 16384|"deal":"W:A... K... Q... J..."
8192 4096 2048 16384|"deal":"w:A... K... Q... J..."
8192 4096 2048 16384|"deal":"[Deal \"W:A... K... Q... J...\"]""#;

#[test]
fn the_first_hand_is_that_of_the_letter(rt: HostRuntime) -> Result<(), Fail> {
    for row in FIRST_HANDS.split(|byte| *byte == b'\n') {
        let line = changed(rt.alloc(), after_bar(row))?;
        let request = solve_request(rt.alloc(), &line)
            .expect(&rt, "a request")
            .copy();
        let spades = spades(rt.alloc(), &request)?;
        assert_eq!(rt; spades.as_bytes(), before_bar(row), "at {row:?}");
    }
    Ok(())
}

#[test]
fn the_trick_is_as_it_was_played(rt: HostRuntime) -> Result<(), Fail> {
    let members = r#""deal":"N:... ... ... J...","played":[[3,14],[0,2],[2,10]]"#;
    let line = changed(rt.alloc(), members.as_bytes())?;
    let request = solve_request(rt.alloc(), &line).expect(&rt, "a request");
    let trick = [
        Card {
            suit: Suit::Clubs,
            rank: Rank::of(14),
        },
        Card {
            suit: Suit::Spades,
            rank: Rank::of(2),
        },
        Card {
            suit: Suit::Diamonds,
            rank: Rank::of(10),
        },
    ];
    assert_eq!(rt; request.position().trick(), trick.as_slice());
    assert_eq!(rt; request.position().mover(), Seat::West);
    Ok(())
}
