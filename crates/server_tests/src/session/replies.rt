//! The texts of a book's replies.
use crate::session::words::plainly;
use dd_book::{Book, Limits};
use dd_session::Session;
use request_tests::book::words::call;
use request_tests::rows::{after_bar, before_bar};
use std::alloc::Global;

// Each row is a call of the book, in the words of its tests, a bar and the text of the reply.
const WORKED: &[u8] = br#"1 fetches 0|{"fault":16}
1 submits A|{"job":1}
1 fetches 1|{"job":1,"state":"waiting"}
2 fetches 1|{"fault":16}
9 claims|{}
1 fetches 1|{"job":1,"state":"running"}
9 finishes 1 1 A|{}
1 fetches 1|{"cards":[{"equals":0,"rank":14,"score":1,"suit":0}],"job":1,"state":"done"}
1 cancels 1|{"fault":17}
1 submits B|{"job":2}
1 submits B|{"fault":13}
1 cancels 2|{"job":2,"state":"cancelled"}
1 cancels 2|{"fault":17}
1 fetches 2|{"job":2,"state":"cancelled"}
1 submits B|{"job":3}
9 claims|{}
9 finishes 3 2 spent|{}
9 finishes 3 2 spent|{}
1 fetches 3|{"job":3,"state":"spent"}
9 claims|{}
1 submits A|{"job":4}
2 submits A|{"fault":14}
1 shuts|{"closing":true}
1 shuts|{"closing":true}
2 submits A|{"fault":18}"#;

// The table of hands with an ace and lower cards: the parts are finished one by one.
const TABLE: &[u8] = br#"1 submits T|{"job":1}
9 claims|{}
9 finishes 1 1 a|{}
1 fetches 1|{"job":1,"state":"running"}
9 claims|{}
9 finishes 1 2 b|{}
9 claims|{}
9 finishes 1 3 c|{}
9 claims|{}
9 finishes 1 4 d|{}
9 claims|{}
9 finishes 1 5 e|{}
9 claims|{}
9 finishes 1 6 f|{}
9 claims|{}
9 finishes 1 7 g|{}
9 claims|{}
9 finishes 1 8 h|{}
9 claims|{}
9 finishes 1 9 i|{}
9 claims|{}
9 finishes 1 10 j|{}
9 claims|{}
9 finishes 1 11 k|{}
9 claims|{}
9 finishes 1 12 l|{}
9 claims|{}
9 finishes 1 13 m|{}
9 claims|{}
9 finishes 1 14 n|{}
9 claims|{}
9 finishes 1 15 o|{}
9 claims|{}
9 finishes 1 16 p|{}
9 claims|{}
9 finishes 1 17 q|{}
9 claims|{}
9 finishes 1 18 r|{}
9 claims|{}
9 finishes 1 19 s|{}
9 claims|{}
9 finishes 1 20 t|{}
1 fetches 1|{"job":1,"state":"done","table":[[1,0,1,0],[1,0,1,0],[1,0,1,0],[1,0,1,0],[1,0,1,0]]}"#;

// A play of four cards, one of them the king's: the parts are finished one by one.
const PLAY: &[u8] = br#"1 submits Q|{"job":1}
1 fetches 1|{"job":1,"state":"waiting"}
9 claims|{}
9 finishes 1 1 Q4|{}
1 fetches 1|{"job":1,"state":"running"}
9 claims|{}
9 finishes 1 2 Q3|{}
9 claims|{}
9 finishes 1 3 Q2|{}
9 claims|{}
9 finishes 1 4 Q1|{}
9 claims|{}
9 finishes 1 5 Q0|{}
1 fetches 1|{"job":1,"state":"done","tricks":[0,0,0,1,1]}"#;

// The first row whose call is replied with another text, or nothing.
fn first_with_another_text(alloc: Global, table: &'static [u8]) -> Option<&'static [u8]> {
    let session = Session::new(alloc, plainly(true));
    let mut book = Book::new(alloc, Limits::new(1, 4, 4, 100)?);
    for row in table.split(|byte| *byte == b'\n') {
        let words = str::from_utf8(before_bar(row)).ok()?;
        if book.claims() > 1_000 {
            return Some(row);
        }
        let Ok(reply) = book.apply(call(words)?) else {
            return Some(row);
        };
        if session.on_reply(&reply, None).as_str().as_bytes() != after_bar(row) {
            return Some(row);
        }
    }
    None
}

#[test]
fn worked_calls_are_replied(rt: HostRuntime) {
    assert_eq!(rt; first_with_another_text(rt.alloc(), WORKED), None);
    assert_eq!(rt; first_with_another_text(rt.alloc(), TABLE), None);
    assert_eq!(rt; first_with_another_text(rt.alloc(), PLAY), None);
}
