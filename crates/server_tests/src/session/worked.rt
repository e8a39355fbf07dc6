//! Worked sessions over lines.
use crate::session::served::{Client, End, Served, Way, serve};
use std::alloc::{AllocError, Global};
use std::sync::Wait;
use std::test::Fail;
use std::time::Clock;

/// A client with these lines, over a connection that bears all.
pub fn client(alloc: Global, lines: &[u8]) -> Result<Client, AllocError> {
    Ok(Client {
        way: Way::Lines,
        sent: Vec::from_slice(alloc, lines)?,
        most: usize::MAX,
        reads: usize::MAX,
        room: usize::MAX,
        events: 100,
        allow_stop: true,
        explain: false,
    })
}

// Were all lines read, these replies written, and so many events journaled? A job that is open at the
// end is cancelled, which is an event too.
fn has_served(served: &Option<Served>, written: &[u8], events: usize) -> bool {
    match served {
        Some(served) => {
            served.end == End::Lines(Ok(()))
                && served.written.as_slice() == written
                && served.events == events
        }
        None => false,
    }
}

fn serves<R: Wait + Clock>(
    rt: &R,
    alloc: Global,
    lines: &[u8],
    written: &[u8],
    events: usize,
) -> Result<bool, AllocError> {
    let client = client(alloc, lines)?;
    Ok(has_served(&serve(rt, alloc, &client), written, events))
}

#[test]
fn a_job_is_submitted_fetched_and_cancelled(rt: HostRuntime) -> Result<(), Fail> {
    let lines = br#"{"do":"fetch","job":0}
{"do":"solve","deal":"N:A... K... Q... J...","trump":4,"first":0,"solutions":3}
{"do":"fetch","job":1}
{"do":"cancel","job":1}
{"do":"cancel","job":1}
"#;
    let replies = br#"{"fault":16}
{"job":1}
{"job":1,"state":"waiting"}
{"job":1,"state":"cancelled"}
{"fault":17}
"#;
    assert!(rt; serves(&rt, rt.alloc(), lines, replies, 5)?);
    Ok(())
}

#[test]
fn par_is_told_at_once_and_leaves_no_event(rt: HostRuntime) -> Result<(), Fail> {
    let lines =
        br#"{"do":"par","table":[[5,8,5,8],[6,6,6,6],[5,7,5,7],[7,5,7,5],[6,6,6,6]],"dealer":0,"vulnerable":0}
{"do":"solve","deal":"N:A... K... Q... J...","trump":4,"first":0,"solutions":3}
{"do":"par","table":[[6,6,6,6],[6,6,6,6],[6,6,6,6],[6,6,6,6],[7,7,7,7]],"side":1,"vulnerable":0}
{"do":"fetch","job":1}
"#;
    let replies =
        br#"{"contracts":[{"declarers":[1,3],"level":2,"tricks":8,"trump":0}],"score":-110}
{"job":1}
{"contracts":[{"declarers":[1,3],"level":1,"tricks":7,"trump":4}],"score":-90}
{"job":1,"state":"waiting"}
"#;
    assert!(rt; serves(&rt, rt.alloc(), lines, replies, 3)?);
    Ok(())
}

#[test]
fn how_the_run_is_is_told_at_once_and_leaves_no_event(rt: HostRuntime) -> Result<(), Fail> {
    let lines = br#"{"do":"health"}
{"do":"solve","deal":"N:A... K... Q... J...","trump":4,"first":0,"solutions":3}
{"do":"table","deal":"N:A... K... Q... J..."}
{"do":"health"}
{"do":"cancel","job":1}
{"do":"health"}
{"do":"health"}
{"do":"cancel","job":1}
{"do":"health"}
"#;
    let replies = br#"{"events_left":100,"jobs":0,"workers":4}
{"job":1}
{"job":2}
{"events_left":98,"jobs":2,"workers":4}
{"job":1,"state":"cancelled"}
{"events_left":97,"jobs":1,"workers":4}
{"events_left":97,"jobs":1,"workers":4}
{"fault":17}
{"events_left":96,"jobs":1,"workers":4}
"#;
    // The cancel of the table at the end is the fifth.
    assert!(rt; serves(&rt, rt.alloc(), lines, replies, 5)?);
    Ok(())
}

#[test]
fn lines_with_a_fault_ask_nothing(rt: HostRuntime) -> Result<(), Fail> {
    let mut lines = Vec::from_slice(rt.alloc(), b"\n{}\n")?;
    for _ in 0..4_097 {
        lines.push(b'{')?;
    }
    lines.extend_from_slice(
        br#"
[1]
{"do":"solve","deal":"N:A... K... Q... J...","trump":4,"first":0,"solutions":4}
{"do":"solve","deal":"N:A... K... Q... J...","trump":4,"first":1.5,"solutions":3}
{"do":"solve","deal":"N:A... K... Q... J...","trump":4,"first":0,"solutions":3}
"#,
    )?;
    let replies = br#"{"fault":1}
{"fault":3}
{"fault":2}
{"fault":1}
{"fault":12}
{"fault":3}
{"job":1}
"#;
    assert!(rt; serves(&rt, rt.alloc(), &lines, replies, 2)?);
    Ok(())
}

#[test]
fn the_last_line_may_lack_its_end(rt: HostRuntime) -> Result<(), Fail> {
    let broken = serves(&rt, rt.alloc(), b"{\"do\":\"sol", b"{\"fault\":1}\n", 0)?;
    let whole = serves(
        &rt,
        rt.alloc(),
        br#"{"do":"solve","deal":"N:A... K... Q... J...","trump":4,"first":0,"solutions":3}"#,
        b"{\"job\":1}\n",
        2,
    )?;
    let returned = serves(
        &rt,
        rt.alloc(),
        b"{\"do\":\"table\",\"deal\":\"N:A... K... Q... J...\"}\r\n",
        b"{\"job\":1}\n",
        2,
    )?;
    assert_eq!(rt; (broken, whole, returned), (true, true, true));
    Ok(())
}

#[test]
fn nothing_is_submitted_after_a_stop(rt: HostRuntime) -> Result<(), Fail> {
    let lines = br#"{"do":"stop"}
{"do":"table","deal":"N:A... K... Q... J..."}
{"do":"stop"}
"#;
    let mut client = client(rt.alloc(), lines)?;
    let leave = serve(&rt, rt.alloc(), &client);
    assert!(rt;
        has_served(
            &leave,
            b"{\"closing\":true}\n{\"fault\":18}\n{\"closing\":true}\n",
            3
        )
    );
    client.allow_stop = false;
    let none = serve(&rt, rt.alloc(), &client);
    assert!(rt; has_served(&none, b"{\"fault\":3}\n{\"job\":1}\n{\"fault\":3}\n", 2));
    Ok(())
}

// A table and a shut have 43 events. The cancel at the end takes that of the fetch.
#[test]
fn a_full_journal_is_told(rt: HostRuntime) -> Result<(), Fail> {
    let lines = br#"{"do":"table","deal":"N:A... K... Q... J..."}
{"do":"fetch","job":1}
{"do":"table","deal":"N:A... K... Q... J..."}
{"do":"stop"}
{"do":"stop"}
{"do":"fetch","job":1}
{"do":"fetch"}
"#;
    let mut client = client(rt.alloc(), lines)?;
    client.events = 43;
    let served = serve(&rt, rt.alloc(), &client);
    let replies =
        b"{\"job\":1}\n{\"fault\":15}\n{\"fault\":15}\n{\"closing\":true}\n{\"fault\":15}\n{\"fault\":15}\n{\"fault\":3}\n";
    assert!(rt; has_served(&served, replies, 3));
    client.events = 42;
    let served = serve(&rt, rt.alloc(), &client);
    let replies =
        b"{\"fault\":15}\n{\"fault\":16}\n{\"fault\":15}\n{\"closing\":true}\n{\"closing\":true}\n{\"fault\":16}\n{\"fault\":3}\n";
    assert!(rt; has_served(&served, replies, 4));
    Ok(())
}

#[test]
fn a_job_is_cancelled_and_told_where_no_event_is_free(rt: HostRuntime) -> Result<(), Fail> {
    let lines = br#"{"do":"solve","deal":"N:A... K... Q... J...","trump":4,"first":0,"solutions":3}
{"do":"fetch","job":1}
{"do":"cancel","job":1}
{"do":"fetch","job":1}
{"do":"fetch","job":1}
{"do":"fetch","job":1}
"#;
    let mut client = client(rt.alloc(), lines)?;
    client.events = 5;
    let served = serve(&rt, rt.alloc(), &client);
    let replies = br#"{"job":1}
{"fault":15}
{"job":1,"state":"cancelled"}
{"job":1,"state":"cancelled"}
{"job":1,"state":"cancelled"}
{"fault":15}
"#;
    assert!(rt; has_served(&served, replies, 4));
    Ok(())
}
