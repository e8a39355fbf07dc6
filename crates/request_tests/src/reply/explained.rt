//! Replies that tell ids again and say why a line has a fault.
use crate::rows::{after_bar, before_bar};
use dd_bounds::NoTable;
use dd_solve::DoubleDummy;
use dd_tool::explained_reply;
use std::alloc::Global;

/// Each row is a line, a bar and its reply.
const REPLIES: &[u8] =
    br#"{"do":"solve","deal":"N:A... K... Q... J...","trump":4,"first":0,"solutions":3}|{"cards":[{"equals":0,"rank":14,"score":1,"suit":0}]}
{"id":7,"do":"solve","deal":"N:A... K... Q... J...","trump":4,"first":0,"solutions":3}|{"id":7,"cards":[{"equals":0,"rank":14,"score":1,"suit":0}]}
{"do":"table","deal":"N:A... K... Q... J...","id":"board 7"}|{"id":"board 7","table":[[1,0,1,0],[1,0,1,0],[1,0,1,0],[1,0,1,0],[1,0,1,0]]}
{"do":"par","table":[[7,6,7,6],[6,7,6,7],[10,3,10,3],[7,6,7,6],[9,3,9,3]],"dealer":0,"vulnerable":0,"id":18446744073709551615}|{"id":18446744073709551615,"contracts":[{"declarers":[0,2],"level":3,"tricks":9,"trump":4}],"score":400}
{"do":"play","deal":"N:32... K4... AQ... 65...","trump":4,"first":0,"cards":[[0,2],[0,4],[0,14],[0,5]],"id":"1","id":""}|{"id":"","tricks":[0,0,0,1,1]}
{"do":"table","deal":"N:A... K...","id":"a2f1c7de-0000-4000-8000-000000000000-and-so-on-up-to-64-bytes-64"}|{"id":"a2f1c7de-0000-4000-8000-000000000000-and-so-on-up-to-64-bytes-64","fault":4,"field":"deal","text":"the text of the deal has not the form of a deal"}
{"do":"table","deal":"N:A... K...","id":"a2f1c7de-0000-4000-8000-000000000000-and-so-on-up-to-65-bytes-65-"}|{"fault":3,"field":"id","text":"a field is missing, unknown or of the wrong kind"}
{"do":"table","deal":"N:A... K...","id":"a \"b\""}|{"fault":3,"field":"id","text":"a field is missing, unknown or of the wrong kind"}
{"do":"table","deal":"N:A... K...","id":"a\\b"}|{"fault":3,"field":"id","text":"a field is missing, unknown or of the wrong kind"}
{"do":"table","deal":"N:A... K...","id":"a\nb"}|{"fault":3,"field":"id","text":"a field is missing, unknown or of the wrong kind"}
{"do":"table","deal":"N:A... K...","id":1.5}|{"fault":3,"field":"id","text":"a field is missing, unknown or of the wrong kind"}
{"do":"table","deal":"N:A... K...","id":-1}|{"fault":3,"field":"id","text":"a field is missing, unknown or of the wrong kind"}
{"do":"table","deal":"N:A... K...","id":null}|{"fault":3,"field":"id","text":"a field is missing, unknown or of the wrong kind"}
{"id":1,"wait":"long","trumps":4}|{"id":1,"fault":3,"field":"wait","text":"a field is missing, unknown or of the wrong kind"}
{"id":1}|{"id":1,"fault":3,"field":"do","text":"a field is missing, unknown or of the wrong kind"}
{"do":"resolve","id":1}|{"id":1,"fault":3,"field":"do","text":"a field is missing, unknown or of the wrong kind"}
{"do":"solve","deal":"N:A... K... Q... J...","trumps":4,"first":0,"solutions":3}|{"fault":3,"field":"trumps","text":"a field is missing, unknown or of the wrong kind"}
{"do":"solve","deal":"N:A... K... Q... J...","tr\"umps":4,"first":0,"solutions":3}|{"fault":3,"text":"a field is missing, unknown or of the wrong kind"}
{"do":"solve","trump":4,"first":0,"solutions":3}|{"fault":3,"field":"deal","text":"a field is missing, unknown or of the wrong kind"}
{"do":"solve","deal":"","trump":"4","first":0,"solutions":3}|{"fault":3,"field":"trump","text":"a field is missing, unknown or of the wrong kind"}
{"do":"solve","deal":"","trump":4,"solutions":3}|{"fault":3,"field":"first","text":"a field is missing, unknown or of the wrong kind"}
{"do":"solve","deal":"","trump":4,"first":0,"played":[[0]],"solutions":3}|{"fault":3,"field":"played","text":"a field is missing, unknown or of the wrong kind"}
{"do":"solve","deal":"","trump":4,"first":0}|{"fault":3,"field":"solutions","text":"a field is missing, unknown or of the wrong kind"}
{"do":"solve","deal":"","trump":4,"first":0,"solutions":1,"target":[]}|{"fault":3,"field":"target","text":"a field is missing, unknown or of the wrong kind"}
{"do":"table","deal":5}|{"fault":3,"field":"deal","text":"a field is missing, unknown or of the wrong kind"}
{"do":"table","deal":"","trump":4}|{"fault":3,"field":"trump","text":"a field is missing, unknown or of the wrong kind"}
{"do":"play","deal":"","trump":4,"first":0}|{"fault":3,"field":"cards","text":"a field is missing, unknown or of the wrong kind"}
{"do":"par","dealer":0,"vulnerable":0}|{"fault":3,"field":"table","text":"a field is missing, unknown or of the wrong kind"}
{"do":"par","deal":5,"dealer":0,"vulnerable":0}|{"fault":3,"field":"deal","text":"a field is missing, unknown or of the wrong kind"}
{"do":"par","deal":"","side":"N","vulnerable":0}|{"fault":3,"field":"side","text":"a field is missing, unknown or of the wrong kind"}
{"do":"par","deal":"","dealer":0}|{"fault":3,"field":"vulnerable","text":"a field is missing, unknown or of the wrong kind"}
{"do":"par","deal":"","dealer":0,"vulnerable":0,"wait":1}|{"fault":3,"field":"wait","text":"a field is missing, unknown or of the wrong kind"}
{"do":"solve","deal":"N:A... - Q... J...","trump":4,"first":0,"solutions":3}|{"fault":5,"field":"deal","text":"a hand of the deal is left out"}
{"do":"solve","deal":"N:AA... K2... Q3... J4...","trump":4,"first":0,"solutions":3}|{"fault":6,"field":"deal","text":"a card stands twice"}
{"do":"solve","deal":"N:A... K... Q... J...","trump":4,"first":0,"solutions":3,"played":[[0,14]]}|{"fault":6,"text":"a card stands twice"}
{"do":"table","deal":"N:A2... K... Q... J..."}|{"fault":7,"field":"deal","text":"the hands have not equally many cards, or one fewer where they have played to the trick"}
{"do":"table","deal":"N:... ... ... ..."}|{"fault":8,"field":"deal","text":"there is no card to play"}
{"do":"solve","deal":"N:A... K... Q... J...","trump":5,"first":0,"solutions":3}|{"fault":9,"field":"trump","text":"trump is not 0 to 4"}
{"do":"solve","deal":"N:A... K... Q... J...","trump":4,"first":4,"solutions":3}|{"fault":10,"field":"first","text":"first is not 0 to 3"}
{"do":"solve","deal":"N:A... K... Q... J...","trump":4,"first":0,"solutions":3,"played":[[4,2]]}|{"fault":11,"field":"played","text":"there are too many cards, or one of them is no card"}
{"do":"play","deal":"N:A... K... Q... J...","trump":4,"first":0,"cards":[[4,2]]}|{"fault":11,"field":"cards","text":"there are too many cards, or one of them is no card"}
{"do":"solve","deal":"N:A... K... Q... J...","trump":4,"first":0,"solutions":4}|{"fault":12,"field":"solutions","text":"solutions is not 1 to 3, or not 1 or 2 beside a target"}
{"do":"par","deal":"N:A... K... Q... J...","dealer":4,"vulnerable":0}|{"fault":20,"field":"dealer","text":"dealer is not 0 to 3, or side not 0 or 1"}
{"do":"par","deal":"N:A... K... Q... J...","side":2,"vulnerable":0}|{"fault":20,"field":"side","text":"dealer is not 0 to 3, or side not 0 or 1"}
{"do":"par","deal":"N:A... K... Q... J...","side":1,"vulnerable":4}|{"fault":21,"field":"vulnerable","text":"vulnerable is not 0 to 3"}
{"do":"par","table":[[7,6,7,6],[6,7,6,7],[10,3,10,3],[7,6,7,6],[9,3,9,14]],"dealer":0,"vulnerable":0}|{"fault":22,"field":"table","text":"a result is over 13"}
{"do":"par","deal":"N:A... K... Q... J...","side":1,"vulnerable":0}|{"fault":23,"field":"deal","text":"the hands are not of thirteen cards"}
{"do":"play","deal":"N:32... K4... AQ... 65...","trump":4,"first":0,"cards":[[0,4]]}|{"fault":24,"field":"cards","text":"a card is not in the hand that is to play it"}
{"do":"play","deal":"N:3.2.. A.A.. K.K.. Q.Q..","trump":4,"first":0,"cards":[[0,3],[1,14]]}|{"fault":25,"field":"cards","text":"a card is not of the suit led, which the hand has"}
{"do":"play","deal":"N:A... K... Q... J...","trump":4,"first":0,"cards":[[0,14],[0,13],[0,12],[0,11],[0,2]],"id":0}|{"id":0,"fault":26,"field":"cards","text":"a card comes after the last"}
{"do":"solve","deal":"N:A... K... Q... J...","trump":4,"first":0,"solutions":1,"target":14}|{"fault":27,"field":"target","text":"target is over 13"}
[7]|{"fault":1,"text":"the line is no JSON object"}
|{"fault":1,"text":"the line is blank"}
   |{"fault":1,"text":"the line is blank"}"#;

/// The first row whose line has another reply, or nothing.
fn first_with_another_reply(alloc: Global, table: &'static [u8]) -> Option<&'static [u8]> {
    for row in table.split(|byte| *byte == b'\n') {
        let reply = explained_reply(alloc, before_bar(row), &DoubleDummy, &mut NoTable, None);
        if reply.as_str().as_bytes() != after_bar(row) {
            return Some(row);
        }
    }
    None
}

#[test]
fn worked_requests_have_their_explained_replies(rt: HostRuntime) {
    assert_eq!(rt; first_with_another_reply(rt.alloc(), REPLIES), None);
}

// A line behind a byte-order mark, and one that was too long.
#[test]
fn a_mark_and_a_long_line_are_told(rt: HostRuntime) {
    let alloc = rt.alloc();
    let marked = explained_reply(
        alloc,
        b"\xEF\xBB\xBF{\"do\":\"table\"}",
        &DoubleDummy,
        &mut NoTable,
        None,
    );
    let long = explained_reply(alloc, &[b' '; 4_097], &DoubleDummy, &mut NoTable, None);
    let spent = explained_reply(
        alloc,
        br#"{"id":3,"do":"table","deal":"N:A... K... Q... J..."}"#,
        &DoubleDummy,
        &mut NoTable,
        Some(0),
    );
    let told = [marked.as_str(), long.as_str(), spent.as_str()];
    assert_eq!(rt;
        told,
        [
            r#"{"fault":1,"text":"the line begins with a byte-order mark, which is to be left out"}"#,
            r#"{"fault":2,"text":"the line is over 4096 bytes"}"#,
            r#"{"id":3,"state":"spent"}"#,
        ]
    );
}
