//! Sessions whose connection fails, or that find no memory.
use crate::session::served::{End, Served, serve};
use crate::session::worked::client;
use dd_lines::LineFault;
use std::test::Fail;

// Lines whose calls make an event each.
fn lines() -> &'static [u8] {
    br#"{"do":"table","deal":"N:A... K... Q... J..."}
{"do":"fetch","job":1}
{"do":"cancel","job":1}
"#
}

fn replies() -> &'static [u8] {
    br#"{"job":1}
{"job":1,"state":"waiting"}
{"job":1,"state":"cancelled"}
"#
}

// The lines that were answered whole.
fn answered(served: &Served) -> usize {
    served.written.iter().filter(|byte| **byte == b'\n').count()
}

// The lines whose calls were made: those answered, and one whose reply was not written whole.
fn asked(served: &Served) -> usize {
    answered(served).saturating_add(1)
}

// How many events so many of the lines make: one each; the job that the first submits and the third cancels is cancelled at the
// end where it is open then.
fn events_of(lines: usize) -> usize {
    match lines {
        1 => 2,
        2 => 3,
        others => others,
    }
}

#[test]
fn a_read_that_fails_ends_the_session_after_a_beginning(rt: HostRuntime) -> Result<(), Fail> {
    let mut client = client(rt.alloc(), lines())?;
    client.most = 10;
    for reads in 0..10 {
        client.reads = reads;
        let served = serve(&rt, rt.alloc(), &client).expect(&rt, "memory");
        let whole = served.end == End::Lines(Err(LineFault::Read))
            && replies().starts_with(&served.written)
            && served.events == events_of(answered(&served));
        assert!(rt; whole, "at read {reads}");
    }
    Ok(())
}

#[test]
fn a_write_that_fails_ends_the_session_after_a_beginning(rt: HostRuntime) -> Result<(), Fail> {
    let mut client = client(rt.alloc(), lines())?;
    for room in 0..replies().len() {
        client.room = room;
        let served = serve(&rt, rt.alloc(), &client).expect(&rt, "memory");
        let begun = served.end == End::Lines(Err(LineFault::Write))
            && replies().starts_with(&served.written)
            && served.written.len() == room
            && served.events == events_of(asked(&served));
        assert!(rt; begun, "after {room} bytes");
    }
    Ok(())
}

// `rt try --test --fail-alloc N` refuses the Nth growth; `rt test` refuses none. A session that finds no memory for its
// lines, its desk or its writer ends at once.
#[test]
fn a_refused_line_leaves_no_event(rt: HostRuntime) -> Result<(), Fail> {
    let lines = br#"{"do":"table","deal":"N:A... K... Q... J..."}
{"do":"table","deal":"N:A... K... Q... J..."}
"#;
    let client = client(rt.alloc(), lines)?;
    let Some(served) = serve(&rt, rt.alloc(), &client) else {
        return Ok(());
    };
    let told = match served.written.as_slice() {
        // The cancels at the end may find no memory either.
        b"{\"job\":1}\n{\"job\":2}\n" => (3..=4).contains(&served.events),
        b"{\"fault\":19}\n{\"job\":1}\n" | b"{\"job\":1}\n{\"fault\":19}\n" => served.events == 2,
        _ => served.end == End::Lines(Err(LineFault::Write)),
    };
    assert!(rt; told);
    Ok(())
}
