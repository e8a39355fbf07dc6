use super::runs::{Outcome, run, run_within};
use crate::devices::Pieces;
use std::alloc::{AllocError, Global};
use std::test::Fail;

// Lines and replies are what functions answer, so that the proof of a test meets a value and no text.

/// A request.
pub fn good() -> &'static [u8] {
    br#"{"do":"solve","deal":"N:A... K... Q... J...","trump":4,"first":0,"solutions":3}"#
}

fn reply() -> &'static [u8] {
    br#"{"cards":[{"equals":0,"rank":14,"score":1,"suit":0}]}
"#
}

// Three lines with a fault each.
fn faulty() -> &'static [u8] {
    br#"{"do":"solve","deal":"N:A... K... Q... J...","trump":4,"first":1.5,"solutions":3}
{"do":"solve","deal":"N:A... K... Q... J...","trump":4,"first":0,"solutions":4}
{"do":"solve","deal":"N:A... K... Q... J...","trump":4,"first":1,"solutions":3}
"#
}

fn push_times(line: &mut Vec<u8>, byte: u8, times: usize) -> Result<(), AllocError> {
    for _ in 0..times {
        line.push(byte)?;
    }
    Ok(())
}

/// Lines with each kind of fault, and good ones.
pub fn many_lines(alloc: Global) -> Result<Vec<u8>, AllocError> {
    let mut lines = Vec::new(alloc);
    lines.extend_from_slice(b"\n{}\n")?;
    push_times(&mut lines, b'{', 4_097)?;
    lines.extend_from_slice(b"\n[1]\n")?;
    push_times(&mut lines, b' ', 4_096)?;
    lines.push(b'\n')?;
    lines.extend_from_slice(faulty())?;
    lines.extend_from_slice(good())?;
    Ok(lines)
}

/// The replies to these lines.
pub fn many_replies() -> &'static [u8] {
    br#"{"fault":1}
{"fault":3}
{"fault":2}
{"fault":1}
{"fault":1}
{"fault":3}
{"fault":12}
{"cards":[{"equals":0,"rank":13,"score":0,"suit":0}]}
{"cards":[{"equals":0,"rank":14,"score":1,"suit":0}]}
"#
}

// Did all calls succeed, and were these replies written?
fn has_replied(run: &Outcome, replies: &[u8]) -> bool {
    run.result.is_ok()
        && run.failed_reads == 0
        && run.failed_writes == 0
        && run.written.as_slice() == replies
}

#[test]
fn a_line_is_answered_with_and_without_its_end(rt: HostRuntime) -> Result<(), Fail> {
    for end in b"|\n|\r\n|\r".split(|byte| *byte == b'|') {
        let mut line = Vec::new(rt.alloc());
        line.extend_from_slice(good())?;
        line.extend_from_slice(end)?;
        let run = run(rt.alloc(), Pieces::of(&line), usize::MAX, usize::MAX);
        assert!(rt; has_replied(&run, reply()), "after {end:?}");
    }
    Ok(())
}

// The same request with blanks behind it, of each length up to that of the longest line, and then of a byte more.
#[test]
fn a_line_of_each_length_up_to_4096_bytes_is_answered(rt: HostRuntime) -> Result<(), Fail> {
    let mut lines = Vec::new(rt.alloc());
    let mut replies = Vec::new(rt.alloc());
    for blanks in 0..=4_096usize.saturating_sub(good().len()) {
        lines.extend_from_slice(good())?;
        push_times(&mut lines, b' ', blanks)?;
        lines.push(b'\n')?;
        replies.extend_from_slice(reply())?;
    }
    lines.extend_from_slice(good())?;
    push_times(&mut lines, b' ', 4_097usize.saturating_sub(good().len()))?;
    replies.extend_from_slice(b"{\"fault\":2}\n")?;
    let run = run(rt.alloc(), Pieces::of(&lines), usize::MAX, usize::MAX);
    assert!(rt; has_replied(&run, &replies));
    Ok(())
}

#[test]
fn a_stream_without_bytes_has_no_reply(rt: HostRuntime) {
    let run = run(rt.alloc(), Pieces::of(b""), usize::MAX, usize::MAX);
    assert!(rt; has_replied(&run, b""));
}

#[test]
fn a_line_that_breaks_off_is_no_object(rt: HostRuntime) {
    let run = run(
        rt.alloc(),
        Pieces::of(b"{\"do\":\"sol"),
        usize::MAX,
        usize::MAX,
    );
    assert!(rt; has_replied(&run, b"{\"fault\":1}\n"));
}

#[test]
fn pieces_of_any_size_give_the_same_replies(rt: HostRuntime) -> Result<(), Fail> {
    let lines = many_lines(rt.alloc())?;
    for most in (1..21).chain([4_095, 4_096, 4_097, 100_000]) {
        let pieces = Pieces {
            bytes: &lines,
            most,
            calls: usize::MAX,
        };
        let run = run(rt.alloc(), pieces, most, usize::MAX);
        assert!(rt; has_replied(&run, many_replies()), "in pieces of {most}");
    }
    Ok(())
}

#[test]
fn a_budget_that_is_not_spent_changes_no_reply(rt: HostRuntime) -> Result<(), Fail> {
    let lines = many_lines(rt.alloc())?;
    let run = run_within(
        rt.alloc(),
        Pieces::of(&lines),
        usize::MAX,
        usize::MAX,
        Some(u64::MAX),
    );
    assert!(rt; has_replied(&run, many_replies()));
    Ok(())
}
