use super::runs::{Outcome, run};
use super::served::{good, many_lines, many_replies};
use crate::devices::Pieces;
use dd_lines::LineFault;
use std::test::Fail;

// Did the run end with this fault, and one call of its device fail and none of the other?
fn has_failed(run: &Outcome, fault: LineFault) -> bool {
    let failed = match fault {
        LineFault::Read => (1, 0),
        LineFault::Write => (0, 1),
    };
    run.result == Err(fault) && (run.failed_reads, run.failed_writes) == failed
}

#[test]
fn a_read_that_fails_ends_the_run_after_a_beginning(rt: HostRuntime) -> Result<(), Fail> {
    let lines = many_lines(rt.alloc())?;
    let turns = lines.len().div_ceil(50) + 1;
    for calls in 0..turns {
        let pieces = Pieces {
            bytes: &lines,
            most: 50,
            calls,
        };
        let run = run(rt.alloc(), pieces, usize::MAX, usize::MAX);
        assert!(rt; has_failed(&run, LineFault::Read), "at call {calls}");
        assert!(rt; many_replies().starts_with(&run.written), "at call {calls}");
        assert!(rt; calls > 0 || run.written.is_empty());
    }
    let pieces = Pieces {
        bytes: &lines,
        most: 50,
        calls: turns,
    };
    assert!(rt;
        run(rt.alloc(), pieces, usize::MAX, usize::MAX)
            .result
            .is_ok()
    );
    Ok(())
}

#[test]
fn a_whole_line_is_answered_before_the_next_read(rt: HostRuntime) {
    let pieces = Pieces {
        bytes: b"{}\n[1]\n{",
        most: 3,
        calls: 2,
    };
    let run = run(rt.alloc(), pieces, usize::MAX, usize::MAX);
    assert!(rt; has_failed(&run, LineFault::Read));
    assert_eq!(rt; run.written.as_slice(), b"{\"fault\":3}\n".as_slice());
}

#[test]
fn a_write_that_fails_ends_the_run_after_a_beginning(rt: HostRuntime) -> Result<(), Fail> {
    let lines = many_lines(rt.alloc())?;
    for room in 0..many_replies().len() {
        let run = run(rt.alloc(), Pieces::of(&lines), 7, room);
        assert!(rt; has_failed(&run, LineFault::Write), "after {room} bytes");
        assert_eq!(rt; run.written.len(), room);
        assert!(rt;
            many_replies().starts_with(&run.written),
            "after {room} bytes"
        );
    }
    let all = run(rt.alloc(), Pieces::of(&lines), 7, many_replies().len());
    assert!(rt; all.result.is_ok());
    Ok(())
}

#[test]
fn nothing_is_read_after_a_write_that_fails(rt: HostRuntime) {
    let pieces = Pieces {
        bytes: b"{}\n[1]\n{}\n",
        most: 3,
        calls: usize::MAX,
    };
    let run = run(rt.alloc(), pieces, usize::MAX, 5);
    assert!(rt; has_failed(&run, LineFault::Write));
    assert_eq!(rt;
        (run.written.as_slice(), run.unread),
        (b"{\"fau".as_slice(), 7)
    );
}

#[test]
fn a_writer_that_takes_nothing_fails(rt: HostRuntime) {
    let run = run(rt.alloc(), Pieces::of(b"{}\n"), 0, usize::MAX);
    assert!(rt; has_failed(&run, LineFault::Write));
    assert!(rt; run.written.is_empty());
}

#[test]
fn a_writer_that_takes_five_bytes_of_a_reply_ends_the_run(rt: HostRuntime) {
    let run = run(rt.alloc(), Pieces::of(good()), usize::MAX, 5);
    assert!(rt; has_failed(&run, LineFault::Write));
    assert_eq!(rt; run.written.as_slice(), b"{\"car".as_slice());
}
