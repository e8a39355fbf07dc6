//! Sessions that tell ids again, and say of each fault why.
use crate::session::served::{Client, End, Served, serve};
use crate::session::worked::client;
use dd_book::{Refusal, Reply};
use dd_desk::DeskFault;
use dd_session::{Manner, Session, write_refusal};
use std::alloc::{AllocError, Global};
use std::test::Fail;

// The same client of a session that explains.
fn explained(alloc: Global, lines: &[u8]) -> Result<Client, AllocError> {
    let mut client = client(alloc, lines)?;
    client.explain = true;
    Ok(client)
}

// Were all lines read, these replies written, and so many events journaled?
fn has_served(served: &Option<Served>, written: &[u8], events: usize) -> bool {
    match served {
        Some(served) => {
            served.end == End::Lines(Ok(()))
                && served.written.as_slice() == written
                && served.events == events
        }
        None => false,
    }
}

#[test]
fn each_reply_has_the_id_of_its_line(rt: HostRuntime) -> Result<(), Fail> {
    let lines =
        br#"{"do":"solve","deal":"N:A... K... Q... J...","trump":4,"first":0,"solutions":3,"id":1}
{"do":"fetch","job":1,"wait":1,"id":"board 7"}
{"do":"fetch","job":1}
{"do":"health","id":18446744073709551615}
{"id":"","do":"cancel","job":1}
{"do":"par","table":[[5,8,5,8],[6,6,6,6],[5,7,5,7],[7,5,7,5],[6,6,6,6]],"dealer":0,"vulnerable":0,"id":5}
{"do":"solve","deal":"N:A... K... Q... J...","trump":4,"first":0,"solutions":3,"wait":1,"id":6}
{"do":"stop","id":7}
"#;
    let replies = br#"{"id":1,"job":1}
{"id":"board 7","job":1,"state":"waiting"}
{"job":1,"state":"waiting"}
{"id":18446744073709551615,"events_left":97,"jobs":1,"workers":4}
{"id":"","job":1,"state":"cancelled"}
{"id":5,"contracts":[{"declarers":[1,3],"level":2,"tricks":8,"trump":0}],"score":-110}
{"id":6,"job":2,"state":"waiting"}
{"id":7,"closing":true}
"#;
    let client = explained(rt.alloc(), lines)?;
    // The cancel of the second job at the end is the eighth.
    assert!(rt; has_served(&serve(&rt, rt.alloc(), &client), replies, 8));
    Ok(())
}

#[test]
fn each_fault_says_why(rt: HostRuntime) -> Result<(), Fail> {
    let lines = br#"{"do":"fetch","job":9,"id":1}

{"do":"claim","id":2}
{"do":"fetch","id":3}
{"do":"fetch","job":1,"deal":"","id":4}
{"do":"cancel","job":1,"wait":1}
{"do":"health","job":1}
{"do":"fetch","job":1,"wait":"1","id":5}
{"do":"health","id":true}
{"do":"par","deal":"","dealer":0,"vulnerable":0,"id":6}
{"do":"solve","deal":"N:A... K... Q... J...","trump":5,"first":0,"solutions":3,"id":7}
{"do":"stop"}
{"do":"table","deal":"N:A... K... Q... J...","id":8}
"#;
    let replies =
        br#"{"id":1,"fault":16,"field":"job","text":"this connection has no job of that number"}
{"fault":1,"text":"the line is blank"}
{"id":2,"fault":3,"field":"do","text":"a field is missing, unknown or of the wrong kind"}
{"id":3,"fault":3,"field":"job","text":"a field is missing, unknown or of the wrong kind"}
{"id":4,"fault":3,"field":"deal","text":"a field is missing, unknown or of the wrong kind"}
{"fault":3,"field":"wait","text":"a field is missing, unknown or of the wrong kind"}
{"fault":3,"field":"job","text":"a field is missing, unknown or of the wrong kind"}
{"id":5,"fault":3,"field":"wait","text":"a field is missing, unknown or of the wrong kind"}
{"fault":3,"field":"id","text":"a field is missing, unknown or of the wrong kind"}
{"id":6,"fault":3,"field":"deal","text":"a field is missing, unknown or of the wrong kind"}
{"id":7,"fault":9,"field":"trump","text":"trump is not 0 to 4"}
{"closing":true}
{"id":8,"fault":18,"text":"the server is closing and takes no more jobs"}
"#;
    let client = explained(rt.alloc(), lines)?;
    assert!(rt; has_served(&serve(&rt, rt.alloc(), &client), replies, 3));
    Ok(())
}

#[test]
fn a_stop_without_leave_is_an_unknown_word(rt: HostRuntime) -> Result<(), Fail> {
    let mut client = explained(rt.alloc(), b"{\"do\":\"stop\",\"id\":1}\n")?;
    client.allow_stop = false;
    let reply =
        b"{\"id\":1,\"fault\":3,\"field\":\"do\",\"text\":\"a field is missing, unknown or of the wrong kind\"}\n";
    assert!(rt; has_served(&serve(&rt, rt.alloc(), &client), reply, 0));
    Ok(())
}

#[test]
fn a_full_journal_is_told_with_the_id(rt: HostRuntime) -> Result<(), Fail> {
    let lines = br#"{"do":"table","deal":"N:A... K... Q... J...","id":1}
{"do":"fetch","job":1,"id":2}
"#;
    let replies = br#"{"id":1,"job":1}
{"id":2,"fault":15,"text":"the run of this connection is used up, and the next one serves who connects anew"}
"#;
    let mut client = explained(rt.alloc(), lines)?;
    // A table and a shut. The cancel at the end is the second.
    client.events = 43;
    assert!(rt; has_served(&serve(&rt, rt.alloc(), &client), replies, 2));
    Ok(())
}

#[test]
fn each_refusal_has_its_words(rt: HostRuntime) {
    let manner = Manner {
        allow_stop: false,
        explain: true,
    };
    let session = Session::new(rt.alloc(), manner);
    for (refusal, words) in [
        (
            Refusal::OpenJobs,
            r#"{"fault":13,"text":"this connection has as many open jobs as it may have"}"#,
        ),
        (
            Refusal::BookFull,
            r#"{"fault":14,"text":"the list of the run's jobs is full"}"#,
        ),
        (
            Refusal::UnknownJob,
            r#"{"fault":16,"field":"job","text":"this connection has no job of that number"}"#,
        ),
        (
            Refusal::JobEnded,
            r#"{"fault":17,"text":"the job has ended, and there is nothing to cancel"}"#,
        ),
        (
            Refusal::ShuttingDown,
            r#"{"fault":18,"text":"the server is closing and takes no more jobs"}"#,
        ),
    ] {
        let text = session.on_reply(&Reply::Fault(refusal), None);
        assert_eq!(rt; text.as_str(), words);
    }
    let memory = write_refusal(DeskFault::OutOfMemory, true);
    let plain = write_refusal(DeskFault::OutOfMemory, false);
    assert_eq!(rt;
        (memory.as_str(), plain.as_str()),
        (
            r#"{"fault":19,"text":"memory ran out, and nothing was changed"}"#,
            r#"{"fault":19}"#
        )
    );
}
