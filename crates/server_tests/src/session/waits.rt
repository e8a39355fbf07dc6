//! Lines whose replies wait for the end of a job, at a desk of their own that nobody works at.
use crate::session::served::{Client, End, Served, serve};
use crate::session::words::{plain, plainly};
use crate::session::worked::client;
use dd_session::Session;
use request_tests::rows::{after_bar, before_bar};
use std::alloc::{AllocError, Global};
use std::sync::Wait;
use std::test::Fail;
use std::time::Clock;

// Each row is what follows, a bar and a line.
const LINES: &[u8] = br#"fetch 7 within 30000|{"do":"fetch","job":7,"wait":30000}
fetch 7|{"do":"fetch","job":7,"wait":0}
fetch 7 within 60000|{"wait":60001,"do":"fetch","job":7}
fetch 7 within 60000|{"wait":18446744073709551615,"do":"fetch","job":7}
{"fault":3}|{"wait":18446744073709551616,"do":"fetch","job":7}
{"fault":3}|{"do":"fetch","job":7,"wait":"1"}
{"fault":3}|{"do":"fetch","job":7,"wait":-1}
{"fault":3}|{"do":"fetch","job":7,"wait":1.0}
{"fault":3}|{"do":"fetch","job":7,"wait":true}
{"fault":3}|{"do":"fetch","job":7,"wait":null}
{"fault":3}|{"do":"fetch","wait":1}
{"fault":3}|{"do":"cancel","job":7,"wait":1}
{"fault":3}|{"do":"stop","wait":0}
solve within 5|{"do":"solve","deal":"N:A... K... Q... J...","trump":4,"first":0,"solutions":3,"wait":5}
table within 5|{"do":"table","deal":"N:A... K... Q... J...","wait":5}
{"fault":3}|{"do":"table","deal":"N:A... K... Q... J...","wait":[]}
{"fault":3}|{"do":"table","deal":"nonsense","wait":0.5}
{"fault":4}|{"do":"table","deal":"nonsense","wait":5}"#;

#[test]
fn a_wait_is_a_whole_number_of_milliseconds(rt: HostRuntime) -> Result<(), Fail> {
    let session = Session::new(rt.alloc(), plainly(true));
    for row in LINES.split(|byte| *byte == b'\n') {
        let step = plain(rt.alloc(), &session.on_line(after_bar(row)))?;
        assert_eq!(rt; step.as_bytes(), before_bar(row), "at {row:?}");
    }
    Ok(())
}

// Were all lines read, these replies written, and so many events journaled? A job that is open at the
// end is cancelled, which is an event too.
fn has_served(served: &Option<Served>, written: &[u8], events: usize) -> bool {
    match served {
        Some(served) => {
            served.end == End::Lines(Ok(()))
                && served.written.as_slice() == written
                && served.events == events
        }
        None => false,
    }
}

fn serves<R: Wait + Clock>(
    rt: &R,
    alloc: Global,
    lines: &[u8],
    written: &[u8],
    events: usize,
) -> Result<bool, AllocError> {
    let client = client(alloc, lines)?;
    Ok(has_served(&serve(rt, alloc, &client), written, events))
}

// A submit that waits is two events. What has ended, and what is none of the caller's, is told at once: else the test would
// take minutes.
#[test]
fn a_wait_ends_with_its_time_or_with_the_job(rt: HostRuntime) -> Result<(), Fail> {
    let lines = br#"{"do":"table","deal":"N:A... K... Q... J...","wait":50}
{"do":"fetch","job":1,"wait":0}
{"do":"fetch","job":1,"wait":50}
{"do":"cancel","job":1}
{"do":"fetch","job":1,"wait":60000}
{"do":"fetch","job":2,"wait":60000}
{"do":"solve","deal":"N:A... K... Q... J...","trump":4,"first":0,"solutions":3,"wait":0}
"#;
    let replies = br#"{"job":1,"state":"waiting"}
{"job":1,"state":"waiting"}
{"job":1,"state":"waiting"}
{"job":1,"state":"cancelled"}
{"job":1,"state":"cancelled"}
{"fault":16}
{"job":2}
"#;
    assert!(rt; serves(&rt, rt.alloc(), lines, replies, 9)?);
    Ok(())
}

#[test]
fn after_a_shut_nothing_is_waited_for(rt: HostRuntime) -> Result<(), Fail> {
    let lines = br#"{"do":"table","deal":"N:A... K... Q... J..."}
{"do":"stop"}
{"do":"fetch","job":1,"wait":60000}
{"do":"table","deal":"N:A... K... Q... J...","wait":60000}
"#;
    let replies = br#"{"job":1}
{"closing":true}
{"job":1,"state":"waiting"}
{"fault":18}
"#;
    assert!(rt; serves(&rt, rt.alloc(), lines, replies, 5)?);
    Ok(())
}

// The submit leaves no event free. When its time is over the job is open, and the fetch is refused: the client is told of its job.
// The cancel at the end has an event.
#[test]
fn a_job_whose_fetch_is_refused_is_not_lost(rt: HostRuntime) -> Result<(), Fail> {
    let lines = br#"{"do":"table","deal":"N:A... K... Q... J...","wait":50}
{"do":"table","deal":"N:A... K... Q... J...","wait":60000}
{"do":"fetch","job":1,"wait":50}
"#;
    let mut client = client(rt.alloc(), lines)?;
    client.events = 43;
    let served = serve(&rt, rt.alloc(), &client);
    assert!(rt; has_served(&served, b"{\"job\":1}\n{\"fault\":15}\n{\"fault\":15}\n", 2));
    Ok(())
}

// So many submits, and one more that waits, with events for all.
fn full_hands(alloc: Global) -> Result<Client, AllocError> {
    let mut client = client(alloc, b"")?;
    client.events = 3_000;
    for _ in 0..64 {
        client
            .sent
            .extend_from_slice(b"{\"do\":\"table\",\"deal\":\"N:A... K... Q... J...\"}\n")?;
    }
    client.sent.extend_from_slice(
        b"{\"do\":\"table\",\"deal\":\"N:A... K... Q... J...\",\"wait\":60000}\n",
    )?;
    Ok(client)
}

#[test]
fn a_submit_that_is_refused_waits_for_nothing(rt: HostRuntime) -> Result<(), Fail> {
    let client = full_hands(rt.alloc())?;
    let served = serve(&rt, rt.alloc(), &client).expect(&rt, "memory");
    let refused = served.written.ends_with(b"{\"job\":64}\n{\"fault\":13}\n");
    // Each of the jobs is cancelled at the end.
    assert!(rt; refused && served.events == 129);
    Ok(())
}
