//! What follows a line.
use crate::session::words::{plain, plainly};
use dd_session::{Session, Step};
use dd_wire::Want;
use request_tests::rows::{after_bar, before_bar, spaced};
use std::alloc::{AllocError, Global};
use std::test::Fail;

// Each row is what follows with leave to stop, a bar and a line.
const LINES: &[u8] = br#"{"fault":1}|
{"fault":3}|{}
{"fault":1}|[1]
solve|{"do":"solve","deal":"N:A... K... Q... J...","trump":4,"first":0,"solutions":3}
{"fault":12}|{"do":"solve","deal":"N:A... K... Q... J...","trump":4,"first":0,"solutions":4}
{"fault":3}|{"do":"solve","deal":"N:A... K... Q... J...","trump":4,"first":1.5,"solutions":3}
{"fault":7}|{"do":"solve","deal":"N:A2... K... Q... J...","trump":4,"first":0,"solutions":3}
table|{"do":"table","deal":"N:A... K... Q... J..."}
{"fault":7}|{"do":"table","deal":"N:A2... K... Q... J..."}
{"fault":8}|{"do":"table","deal":"N:... ... ... ..."}
{"fault":3}|{"do":"table","deal":"N:A... K... Q... J...","trump":4}
{"fault":3}|{"do":"table","deal":"N:A... K... Q... J...","job":1}
fetch 0|{"do":"fetch","job":0}
fetch 1| { "job" : 1 , "do" : "fetch" } 
fetch 18446744073709551615|{"job":18446744073709551615,"do":"fetch"}
{"fault":3}|{"job":18446744073709551616,"do":"fetch"}
{"fault":3}|{"do":"fetch"}
{"fault":3}|{"do":"fetch","job":-1}
{"fault":3}|{"do":"fetch","job":1.0}
{"fault":3}|{"do":"fetch","job":"1"}
{"fault":3}|{"do":"fetch","job":1,"deal":"N:A... K... Q... J..."}
{"fault":3}|{"do":"Fetch","job":1}
{"fault":3}|{"job":1}
cancel 7|{"do":"cancel","job":7}
cancel 7|{"do":"fetch","job":7,"do":"cancel"}
{"fault":3}|{"do":"cancel","job":[7]}
{"fault":3}|{"do":"cancel"}
{"fault":3}|{"do":["cancel"],"job":7}
stop|{"do":"stop"}
{"fault":3}|{"do":"stop","job":1}
{"fault":3}|{"do":"stopped"}
health|{"do":"health"}
health|{"do":"stop","do":"health"}
{"fault":3}|{"do":"health","job":1}
{"fault":3}|{"do":"health","wait":1}
{"fault":3}|{"do":"Health"}
{"fault":3}|{"do":"claim"}
{"fault":3}|{"do":"shut"}
play|{"do":"play","deal":"N:32... K4... AQ... 65...","trump":4,"first":0,"cards":[[0,2],[0,4],[0,14],[0,5]]}
play within 250|{"do":"play","deal":"N:32... K4... AQ... 65...","trump":4,"first":0,"cards":[],"wait":250}
{"fault":3}|{"do":"play","deal":"N:32... K4... AQ... 65...","trump":4,"first":0,"cards":[],"job":1}
{"fault":3}|{"do":"play","deal":"N:32... K4... AQ... 65...","trump":4,"first":0}
{"fault":24}|{"do":"play","deal":"N:32... K4... AQ... 65...","trump":4,"first":0,"cards":[[0,4]]}
{"fault":25}|{"do":"play","deal":"N:3.2.. A.A.. K.K.. Q.Q..","trump":4,"first":0,"cards":[[0,3],[1,14]]}
{"fault":26}|{"do":"play","deal":"N:A... K... Q... J...","trump":4,"first":0,"cards":[[0,14],[0,13],[0,12],[0,11],[0,11]]}
{"fault":27}|{"do":"solve","deal":"N:A... K... Q... J...","trump":4,"first":0,"solutions":2,"target":14}
{"contracts":[{"declarers":[1,3],"level":2,"tricks":8,"trump":0}],"score":-110}|{"do":"par","table":[[5,8,5,8],[6,6,6,6],[5,7,5,7],[7,5,7,5],[6,6,6,6]],"dealer":0,"vulnerable":0}
{"fault":20}|{"do":"par","table":[[5,8,5,8],[6,6,6,6],[5,7,5,7],[7,5,7,5],[6,6,6,14]],"dealer":4,"vulnerable":4}
{"fault":22}|{"do":"par","table":[[5,8,5,8],[6,6,6,6],[5,7,5,7],[7,5,7,5],[6,6,6,14]],"side":0,"vulnerable":0}
{"fault":3}|{"do":"par","table":[[5,8,5,8],[6,6,6,6],[5,7,5,7],[7,5,7,5],[6,6,6,6]],"dealer":0,"vulnerable":0,"job":1}
{"fault":3}|{"do":"par","deal":"N:A... K... Q... J...","dealer":4,"vulnerable":0}"#;

#[test]
fn each_line_asks_or_has_its_fault(rt: HostRuntime) -> Result<(), Fail> {
    let session = Session::new(rt.alloc(), plainly(true));
    for row in LINES.split(|byte| *byte == b'\n') {
        let step = plain(rt.alloc(), &session.on_line(after_bar(row)))?;
        assert_eq!(rt; step.as_bytes(), before_bar(row), "at {row:?}");
    }
    Ok(())
}

// The same without leave to stop, of lines of the usual forms, and of lines that just aren't of one.
const USUAL: &[u8] =
    br#"solve|{"do":"solve","deal":"N:A... K... Q... J...","trump":4,"first":0,"solutions":3,"wait":0}
solve within 99|{"wait":99,"do":"solve","deal":"N:A... K... Q... J...","trump":4,"first":0,"played":[],"solutions":3}
solve within 100|{"do":"solve","deal":"N:A... K... Q... J...","trump":4,"first":0,"solutions":3,"wait":100}
solve within 59999|{"do":"solve","deal":"N:A... K... Q... J...","trump":4,"first":0,"solutions":3,"wait":59999}
solve within 60000|{"do":"solve","deal":"N:A... K... Q... J...","trump":4,"first":0,"solutions":3,"wait":60000}
solve within 60000|{"do":"solve","deal":"N:A... K... Q... J...","trump":4,"first":0,"solutions":3,"wait":60001}
solve within 60000|{"do":"solve","deal":"N:A... K... Q... J...","trump":4,"first":0,"solutions":3,"wait":9999999999999999999}
solve within 60000|{"do":"solve","deal":"N:A... K... Q... J...","trump":4,"first":0,"solutions":3,"wait":10000000000000000000}
{"fault":3}|{"do":"solve","deal":"N:A... K... Q... J...","trump":4,"first":0,"solutions":3,"wait":1e3}
{"fault":1}|{"do":"solve","deal":"N:A... K... Q... J...","trump":4,"first":0,"solutions":3,"wait":0100}
target within 7|{"do":"solve","deal":"N:A... K... Q... J...","trump":4,"first":0,"solutions":2,"target":1,"wait":7}
target|{"do":"solve","deal":"N:A... K... Q... J...","trump":4,"first":0,"solutions":1,"target":13}
{"fault":27}|{"do":"solve","deal":"N:A... K... Q... J...","trump":4,"first":0,"solutions":1,"target":14,"wait":7}
{"fault":12}|{"do":"solve","deal":"N:A... K... Q... J...","trump":4,"first":0,"solutions":3,"target":1}
{"fault":3}|{"do":"solve","deal":"N:A... K... Q... J...","trump":4,"first":0,"solutions":3,"job":1}
{"fault":3}|{"do":"solve","deal":"N:A... K... Q... J...","trump":4,"first":0,"solutions":3,"id":1}
fetch 99 within 5|{"do":"fetch","job":99,"wait":5}
fetch 100 within 5|{"wait":5,"job":100,"do":"fetch"}
fetch 1234567890123456789 within 60000|{"do":"fetch","job":1234567890123456789,"wait":123456}
fetch 9999999999999999999|{"do":"fetch","job":9999999999999999999}
fetch 10000000000000000000|{"do":"fetch","job":10000000000000000000}
fetch 5|{"do":"fetch","job":7,"job":5}
cancel 5|{"do":"fetch","job":5,"do":"cancel"}
{"fault":3}|{"do":"fetch","job":1,"wait":1,"trump":4}
{"fault":3}|{"do":"fetch","job":1,"played":[]}
{"fault":3}|{"do":"fetch","job":1,"solutions":3}
{"fault":3}|{"do":"fetch","job":1,"table":[[1,2,3,4],[1,2,3,4],[1,2,3,4],[1,2,3,4],[1,2,3,4]]}
{"fault":3}|{"do":"fetch","job":1,"dealer":0}
{"fault":3}|{"do":"fetch","job":1,"side":0}
{"fault":3}|{"do":"fetch","job":1,"target":0}
{"fault":3}|{"do":"fetch","job":1,"first":0}
{"fault":3}|{"do":"fetch","job":1,"vulnerable":0}
{"fault":1}|{"do":"fetch","job":01}
{"fault":1}|{"do":"fetch","job":001}
{"fault":1}|{"do":"fetch","job":1x}
{"fault":1}|{"do":"fetch","job":123x}
{"fault":3}|{"do":"fetch","wait":5}
{"fault":3}|{"do":"par","table":[[5,8,5,8],[6,6,6,6],[5,7,5,7],[7,5,7,5],[6,6,6,6]],"dealer":0,"vulnerable":0,"wait":0}
{"contracts":[{"declarers":[1,3],"level":2,"tricks":8,"trump":0}],"score":-110}|{"do":"par","table":[[5,8,5,8],[6,6,6,6],[5,7,5,7],[7,5,7,5],[6,6,6,6]],"side":0,"vulnerable":0}"#;

// The same with the last byte of ASCII in a deal, and with bytes after it.
const BYTES: &[u8] =
    b"{\"fault\":4}|{\"do\":\"solve\",\"deal\":\"N:A... K... Q... J...\x7f\",\"trump\":4,\"first\":0,\"solutions\":3}\n\
     {\"fault\":4}|{\"do\":\"solve\",\"deal\":\"N:A... K... Q... J...\xc2\x80\",\"trump\":4,\"first\":0,\"solutions\":3}\n\
     {\"fault\":1}|{\"do\":\"solve\",\"deal\":\"N:A... K... Q... J...\x80\",\"trump\":4,\"first\":0,\"solutions\":3}\n\
     {\"fault\":4}|{\"do\":\"solve\",\"deal\":\"\x7f\",\"trump\":4,\"first\":0,\"solutions\":3,\"wait\":5}\n\
     {\"fault\":4}|{\"do\":\"solve\",\"deal\":\"\xc3\x84\",\"trump\":4,\"first\":0,\"solutions\":3,\"wait\":5}\n\
     {\"fault\":1}|{\"do\":\"solve\",\"deal\":\"\xff\",\"trump\":4,\"first\":0,\"solutions\":3,\"wait\":5}\n\
     solve|{\"do\":\"solve\",\"deal\":\"\xc3\x84\",\"deal\":\"N:A... K... Q... J...\",\"trump\":4,\"first\":0,\"solutions\":3}";

#[test]
fn a_line_asks_the_same_with_a_space_before_its_brace(rt: HostRuntime) -> Result<(), Fail> {
    let session = Session::new(rt.alloc(), plainly(false));
    for table in [USUAL, BYTES] {
        for row in table.split(|byte| *byte == b'\n') {
            let line = after_bar(row);
            let step = plain(rt.alloc(), &session.on_line(line))?;
            let other = plain(rt.alloc(), &session.on_line(&spaced(rt.alloc(), line)?))?;
            assert_eq!(rt;
                (step.as_bytes(), other.as_bytes()),
                (before_bar(row), before_bar(row)),
                "at {row:?}"
            );
        }
    }
    Ok(())
}

#[test]
fn a_stop_without_leave_is_unknown(rt: HostRuntime) -> Result<(), Fail> {
    let session = Session::new(rt.alloc(), plainly(false));
    let stop = plain(rt.alloc(), &session.on_line(br#"{"do":"stop"}"#))?;
    assert_eq!(rt; stop.as_str(), r#"{"fault":3}"#);
    Ok(())
}

const SERVED: &[u8] =
    br#"{"do":"solve","deal":"N:A... K... Q... J...","trump":4,"first":0,"solutions":3}"#;

#[test]
fn a_line_has_at_most_4096_bytes(rt: HostRuntime) -> Result<(), Fail> {
    let session = Session::new(rt.alloc(), plainly(false));
    let mut line = [b' '; 4_097];
    line[..SERVED.len()].copy_from_slice(SERVED);
    let longest = plain(rt.alloc(), &session.on_line(&line[..4_096]))?;
    let longer = plain(rt.alloc(), &session.on_line(&line))?;
    assert_eq!(rt;
        (longest.as_str(), longer.as_str()),
        ("solve", r#"{"fault":2}"#)
    );
    Ok(())
}

// An object whose field is a list in a list, this deep.
fn nested(alloc: Global, depth: usize) -> Result<String, AllocError> {
    let mut line = String::new(alloc);
    line.push_str("{\"a\":")?;
    for _ in 0..depth {
        line.push('[')?;
    }
    for _ in 0..depth {
        line.push(']')?;
    }
    line.push('}')?;
    Ok(line)
}

#[test]
fn hostile_lines_have_their_faults(rt: HostRuntime) -> Result<(), Fail> {
    let session = Session::new(rt.alloc(), plainly(true));
    let deep = nested(rt.alloc(), 200)?;
    let less = nested(rt.alloc(), 100)?;
    for (line, fault) in [
        (deep.as_bytes(), r#"{"fault":1}"#),
        (less.as_bytes(), r#"{"fault":3}"#),
        (
            b"{\"do\":\"table\",\"deal\":\"N:A... K... Q... J...\xff\"}",
            r#"{"fault":1}"#,
        ),
        (b"{\"do\":\"stop\xff\"}", r#"{"fault":1}"#),
    ] {
        let step = plain(rt.alloc(), &session.on_line(line))?;
        assert_eq!(rt; step.as_str(), fault, "at {line:?}");
    }
    Ok(())
}

#[test]
fn a_line_cut_short_is_no_object(rt: HostRuntime) -> Result<(), Fail> {
    let session = Session::new(rt.alloc(), plainly(true));
    for end in 0..SERVED.len() {
        let step = plain(rt.alloc(), &session.on_line(&SERVED[..end]))?;
        assert_eq!(rt; step.as_str(), r#"{"fault":1}"#, "at {end}");
    }
    Ok(())
}

// Does the line ask, and is it told that memory ran out?
fn asks_or_is_refused(session: &Session, line: &[u8]) -> (bool, bool) {
    match session.on_line(line) {
        Step::Ask(wish, _) => (matches!(wish.want, Want::Submit(_)), false),
        Step::Say(text) => (false, text.as_str() == r#"{"fault":19}"#),
        Step::Look(_) => (false, false),
    }
}

// `rt try --test --fail-alloc N` refuses the Nth growth; `rt test` refuses none. A line of a usual form needs none, so both ask.
#[test]
fn a_line_that_finds_no_memory_asks_when_it_comes_again(rt: HostRuntime) {
    let session = Session::new(rt.alloc(), plainly(false));
    let (asks, refused) = asks_or_is_refused(&session, SERVED);
    let (asks_again, refused_again) = asks_or_is_refused(&session, SERVED);
    assert!(rt; asks && (asks_again || refused_again) || refused && asks_again);
}

// A line that is read as JSON needs some: one of the two asks, and the other may be refused.
#[test]
fn a_line_read_as_json_that_finds_no_memory_asks_when_it_comes_again(rt: HostRuntime) {
    let session = Session::new(rt.alloc(), plainly(false));
    let mut line = [b' '; 100];
    line[..SERVED.len()].copy_from_slice(SERVED);
    let (asks, refused) = asks_or_is_refused(&session, &line);
    let (asks_again, refused_again) = asks_or_is_refused(&session, &line);
    assert!(rt; asks && (asks_again || refused_again) || refused && asks_again);
}
