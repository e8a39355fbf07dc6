//! Lines that are cut short at each of their bytes, between whole ones.
use super::runs::run;
use crate::devices::Pieces;
use std::alloc::{AllocError, Global};
use std::test::Fail;

fn whole() -> &'static [u8] {
    br#"{"do":"solve","deal":"N:A... K... Q... J...","trump":4,"first":0,"solutions":3}"#
}

// The same in no usual form: it is read as JSON, which asks for memory.
fn spaced() -> &'static [u8] {
    br#"{"do":"solve","deal":"N:A... K... Q... J...","trump":4,"first":0,"solutions":3 }"#
}

fn reply() -> &'static [u8] {
    b"{\"cards\":[{\"equals\":0,\"rank\":14,\"score\":1,\"suit\":0}]}\n"
}

// Puts a line behind the others, with its line feed.
fn push_line(lines: &mut Vec<u8>, line: &[u8]) -> Result<(), AllocError> {
    lines.extend_from_slice(line)?;
    lines.push(b'\n')?;
    Ok(())
}

#[test]
fn a_line_cut_at_any_byte_is_no_object_and_the_next_is_right(rt: HostRuntime) -> Result<(), Fail> {
    let line = whole();
    let mut lines = Vec::new(rt.alloc());
    let mut replies = Vec::new(rt.alloc());
    for end in 0..line.len() {
        push_line(&mut lines, &line[..end])?;
        replies.extend_from_slice(b"{\"fault\":1}\n")?;
        push_line(&mut lines, line)?;
        replies.extend_from_slice(reply())?;
    }
    let run = run(rt.alloc(), Pieces::of(&lines), usize::MAX, usize::MAX);
    assert!(rt; run.result.is_ok() && run.written.as_slice() == replies.as_slice());
    Ok(())
}

// Does a run over this line twice answer both, or one, and tell the other that memory ran out? What the writer of this test keeps
// grows too: a run whose write finds no memory ends there.
fn is_told_of_one_at_most(alloc: Global, line: &[u8]) -> Result<bool, AllocError> {
    let mut lines = Vec::new(alloc);
    push_line(&mut lines, line)?;
    push_line(&mut lines, line)?;
    let mut right = Vec::from_slice(alloc, reply())?;
    let mut first_refused = Vec::from_slice(alloc, b"{\"fault\":19}\n")?;
    let mut last_refused = Vec::from_slice(alloc, reply())?;
    right.extend_from_slice(reply())?;
    first_refused.extend_from_slice(reply())?;
    last_refused.extend_from_slice(b"{\"fault\":19}\n")?;
    let run = run(alloc, Pieces::of(&lines), usize::MAX, usize::MAX);
    let written = run.written.as_slice();
    let told = written == right.as_slice()
        || written == first_refused.as_slice()
        || written == last_refused.as_slice();
    Ok(told && run.result.is_ok() || run.failed_writes == 1)
}

// `rt try --test --fail-alloc N` refuses the Nth growth; `rt test` refuses none, and `cases/memory.sh` those of the built program.
// Lines of a usual form ask for no memory: only what the test itself keeps can be refused.
#[test]
fn a_line_that_finds_no_memory_is_told_so_and_the_other_is_right(
    rt: HostRuntime,
) -> Result<(), Fail> {
    assert!(rt; is_told_of_one_at_most(rt.alloc(), whole())?);
    Ok(())
}

// Here either line may be told so.
#[test]
fn a_line_that_is_read_as_json_and_finds_no_memory_is_told_so(rt: HostRuntime) -> Result<(), Fail> {
    assert!(rt; is_told_of_one_at_most(rt.alloc(), spaced())?);
    Ok(())
}
