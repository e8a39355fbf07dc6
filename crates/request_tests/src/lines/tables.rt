//! Lines that ask for a table, each answered in its turn.
use super::runs::{run, run_within};
use crate::devices::Pieces;

/// Tables counted by hand, between a position and faults.
const LINES: &[u8] = br#"{"do":"table","deal":"N:A... K... Q... J..."}
{"do":"solve","deal":"N:A... K... Q... J...","trump":4,"first":0,"solutions":3}
{"do":"table","deal":"N:A2... K... Q... J..."}
{"do":"table","deal":"N:... ... ... ..."}
{"do":"table","deal":"N:A... K... Q... J...","trump":4}
{"do":"table","deal":"N:AKQJT98765432... .AKQJT98765432.. ..AKQJT98765432. ...AKQJT98765432"}"#;

/// The replies to these lines.
const REPLIES: &[u8] = br#"{"table":[[1,0,1,0],[1,0,1,0],[1,0,1,0],[1,0,1,0],[1,0,1,0]]}
{"cards":[{"equals":0,"rank":14,"score":1,"suit":0}]}
{"fault":7}
{"fault":8}
{"fault":3}
{"table":[[13,0,13,0],[0,13,0,13],[13,0,13,0],[0,13,0,13],[0,0,0,0]]}
"#;

/// The same with a budget of 0.
const REPLIES_WITH_NO_POSITION: &[u8] = br#"{"state":"spent"}
{"state":"spent"}
{"fault":7}
{"fault":8}
{"fault":3}
{"state":"spent"}
"#;

#[test]
fn a_table_is_answered_in_its_turn(rt: HostRuntime) {
    let run = run(rt.alloc(), Pieces::of(LINES), usize::MAX, usize::MAX);
    assert_eq!(rt; run.result, Ok(()));
    assert_eq!(rt; run.written.as_slice(), REPLIES);
}

#[test]
fn a_table_without_a_position_is_spent(rt: HostRuntime) {
    let run = run_within(
        rt.alloc(),
        Pieces::of(LINES),
        usize::MAX,
        usize::MAX,
        Some(0),
    );
    assert_eq!(rt; run.result, Ok(()));
    assert_eq!(rt; run.written.as_slice(), REPLIES_WITH_NO_POSITION);
}
