//! Requests whose answers can be counted by hand.
use crate::rows::{after_bar, before_bar};
use dd_bounds::NoTable;
use dd_solve::DoubleDummy;
use dd_tool::reply_to_line;
use std::alloc::Global;

/// Each row is a line, a bar and its reply without a budget.
pub(super) const REPLIES: &[u8] =
    br#"{"do":"solve","deal":"N:A... K... Q... J...","trump":4,"first":0,"solutions":3}|{"cards":[{"equals":0,"rank":14,"score":1,"suit":0}]}
{"do":"solve","deal":"N:A... K... Q... J...","trump":4,"first":1,"solutions":3}|{"cards":[{"equals":0,"rank":13,"score":0,"suit":0}]}
{"do":"solve","deal":"N:32... K4... AQ... 65...","trump":4,"first":0,"solutions":3}|{"cards":[{"equals":4,"rank":3,"score":2,"suit":0}]}
{"do":"solve","deal":"N:32... 65... AQ... K4...","trump":4,"first":0,"solutions":3}|{"cards":[{"equals":4,"rank":3,"score":1,"suit":0}]}
{"do":"solve","deal":"N:.65.. .2.. QT... .43..","trump":4,"first":1,"played":[[0,11]],"solutions":3}|{"cards":[{"equals":0,"rank":12,"score":2,"suit":0},{"equals":0,"rank":10,"score":1,"suit":0}]}
{"do":"solve","deal":"N:.65.. .2.. QT... .43..","trump":4,"first":1,"played":[[0,11]],"solutions":2}|{"cards":[{"equals":0,"rank":12,"score":2,"suit":0}]}
{"do":"solve","deal":"N:.65.. .2.. QT... .43..","trump":4,"first":1,"played":[[0,11]],"solutions":1}|{"cards":[{"equals":0,"rank":12,"score":2,"suit":0}]}
{"do":"solve","deal":"N:A... .2.. 2... 3...","trump":1,"first":0,"solutions":3}|{"cards":[{"equals":0,"rank":14,"score":0,"suit":0}]}
{"do":"solve","deal":"N:AJ... .AK.. .QJ.. .T9..","trump":4,"first":0,"solutions":3}|{"cards":[{"equals":2048,"rank":14,"score":2,"suit":0}]}
{"do":"solve","deal":"N:AA... K2... Q3... J4...","trump":4,"first":0,"solutions":3}|{"fault":6}
{"do":"solve","deal":"N:A... - Q... J...","trump":4,"first":0,"solutions":3}|{"fault":5}
{"do":"solve","deal":"N:A.. K... Q... J...","trump":4,"first":0,"solutions":3}|{"fault":4}
{"do":"solve","deal":"N:A2... K... Q... J...","trump":4,"first":0,"solutions":3}|{"fault":7}
{"do":"solve","deal":"N:... ... ... ...","trump":4,"first":0,"solutions":3}|{"fault":8}
{"do":"solve","deal":"N:... ... ... ...","trump":4,"first":0,"played":[[0,14]],"solutions":3}|{"fault":7}
{"do":"solve","deal":"N:A... K... Q... ...","trump":4,"first":3,"played":[[0,14]],"solutions":3}|{"fault":6}
{"do":"solve","deal":"[Deal \"e:k4... aq... 65... 32...\"]","trump":4,"first":0,"solutions":3}|{"cards":[{"equals":4,"rank":3,"score":2,"suit":0}]}
{"do":"solve","deal":"N:A.2.. K.A.. Q.K.. J.Q..","trump":4,"first":0,"solutions":3}|{"cards":[{"equals":0,"rank":14,"score":1,"suit":0},{"equals":0,"rank":2,"score":1,"suit":1}]}
{"do":"solve","deal":"N:A.2.. K.A.. Q.K.. J.Q..","trump":4,"first":0,"solutions":2}|{"cards":[{"equals":0,"rank":14,"score":1,"suit":0},{"equals":0,"rank":2,"score":1,"suit":1}]}
{"do":"solve","deal":"N:A.2.. K.A.. Q.K.. J.Q..","trump":4,"first":0,"solutions":1}|{"cards":[{"equals":0,"rank":14,"score":1,"suit":0}]}
{"do":"solve","deal":"N:2.A.. AK... Q.4.. J.5..","trump":4,"first":0,"solutions":3}|{"cards":[{"equals":0,"rank":14,"score":1,"suit":1},{"equals":0,"rank":2,"score":0,"suit":0}]}
{"do":"solve","deal":"N:2.A.. AK... Q.4.. J.5..","trump":4,"first":0,"solutions":2}|{"cards":[{"equals":0,"rank":14,"score":1,"suit":1}]}
{"do":"solve","deal":"N:2.A.. AK... Q.4.. J.5..","trump":4,"first":0,"solutions":1}|{"cards":[{"equals":0,"rank":14,"score":1,"suit":1}]}
{"do":"solve","deal":"N:32... K4... AQ... 65...","trump":4,"first":0,"solutions":1}|{"cards":[{"equals":4,"rank":3,"score":2,"suit":0}]}
{"do":"solve","deal":"N:A... K... Q... J...","trump":4,"first":1,"solutions":2}|{"cards":[{"equals":0,"rank":13,"score":0,"suit":0}]}"#;

/// The same with a target.
const REPLIES_WITH_A_TARGET: &[u8] =
    br#"{"do":"solve","deal":"N:32... 65... AQ... K4...","trump":4,"first":0,"solutions":2,"target":0}|{"cards":[{"equals":4,"rank":3,"score":0,"suit":0}]}
{"do":"solve","deal":"N:32... 65... AQ... K4...","trump":4,"first":0,"solutions":2,"target":1}|{"cards":[{"equals":4,"rank":3,"score":1,"suit":0}]}
{"do":"solve","deal":"N:32... 65... AQ... K4...","trump":4,"first":0,"solutions":2,"target":2}|{"cards":[]}
{"do":"solve","deal":"N:32... 65... AQ... K4...","trump":4,"first":0,"solutions":2,"target":13}|{"cards":[]}
{"do":"solve","deal":"N:32... 65... AQ... K4...","trump":4,"first":0,"solutions":2,"target":14}|{"fault":27}
{"do":"solve","deal":"N:32... 65... AQ... K4...","trump":4,"first":0,"solutions":3,"target":1}|{"fault":12}
{"do":"solve","deal":"N:32... 65... AQ... K4...","trump":4,"first":0,"solutions":3,"target":14}|{"fault":12}
{"do":"solve","deal":"N:32... 65... AQ... K...","trump":4,"first":0,"solutions":1,"target":14}|{"fault":27}
{"do":"solve","deal":"N:32... 65... AQ... K...","trump":4,"first":0,"solutions":1,"target":13}|{"fault":7}
{"do":"solve","deal":"N:.65.. .2.. QT... .43..","trump":4,"first":1,"played":[[0,11]],"solutions":2,"target":1}|{"cards":[{"equals":0,"rank":12,"score":1,"suit":0},{"equals":0,"rank":10,"score":1,"suit":0}]}
{"do":"solve","deal":"N:.65.. .2.. QT... .43..","trump":4,"first":1,"played":[[0,11]],"solutions":2,"target":2}|{"cards":[{"equals":0,"rank":12,"score":2,"suit":0}]}
{"do":"solve","deal":"N:.65.. .2.. QT... .43..","trump":4,"first":1,"played":[[0,11]],"solutions":1,"target":1}|{"cards":[{"equals":0,"rank":12,"score":1,"suit":0}]}
{"do":"solve","deal":"N:2.2.. A.A.. K.K.. Q.Q..","trump":4,"first":0,"solutions":1,"target":0}|{"cards":[{"equals":0,"rank":2,"score":0,"suit":0}]}
{"do":"solve","deal":"N:2.2.. A.A.. K.K.. Q.Q..","trump":4,"first":0,"solutions":2,"target":0}|{"cards":[{"equals":0,"rank":2,"score":0,"suit":0},{"equals":0,"rank":2,"score":0,"suit":1}]}
{"do":"solve","deal":"N:A... K... Q... J...","trump":4,"first":1,"solutions":2,"target":1}|{"cards":[]}
{"do":"solve","deal":"N:A... K... Q... J...","trump":4,"first":1,"solutions":2,"target":0}|{"cards":[{"equals":0,"rank":13,"score":0,"suit":0}]}
{"do":"solve","deal":"N:2.A.. AK... Q.4.. J.5..","trump":4,"first":0,"solutions":1,"target":1}|{"cards":[{"equals":0,"rank":14,"score":1,"suit":1}]}
{"do":"solve","deal":"N:A.2.. K.A.. Q.K.. J.Q..","trump":4,"first":0,"solutions":2,"target":1}|{"cards":[{"equals":0,"rank":14,"score":1,"suit":0},{"equals":0,"rank":2,"score":1,"suit":1}]}
{"do":"solve","deal":"N:A.2.. K.A.. Q.K.. J.Q..","trump":4,"first":0,"solutions":2,"target":"1"}|{"fault":3}"#;

/// The same with a budget of 1,000.
const REPLIES_WITH_1_000_POSITIONS: &[u8] =
    br#"{"do":"solve","deal":"N:AKQJT98765432... .AKQJT98765432.. ..AKQJT98765432. ...AKQJT98765432","trump":4,"first":0,"solutions":3}|{"cards":[{"equals":16380,"rank":14,"score":13,"suit":0}]}"#;

/// The same with a budget of 1.
const REPLIES_WITH_ONE_POSITION: &[u8] =
    br#"{"do":"solve","deal":"N:A... ... ... ...","trump":4,"first":1,"played":[[0,13],[0,12],[0,11]],"solutions":3}|{"cards":[{"equals":0,"rank":14,"score":1,"suit":0}]}"#;

/// The same with a budget of 0.
const REPLIES_WITH_NO_POSITION: &[u8] =
    br#"{"do":"solve","deal":"N:A... ... ... ...","trump":4,"first":1,"played":[[0,13],[0,12],[0,11]],"solutions":3}|{"state":"spent"}
{"do":"solve","deal":"N:2.A.. AK... Q.4.. J.5..","trump":4,"first":0,"solutions":3}|{"state":"spent"}
{"do":"solve","deal":"N:A... K... Q... J...","trump":4,"first":1.5,"solutions":3}|{"fault":3}
{"do":"solve","deal":"N:A... K... Q... J...","trump":4,"first":0,"solutions":4}|{"fault":12}
{"do":"solve","deal":"N:2.A.. AK... Q.4.. J.5..","trump":4,"first":0,"solutions":2,"target":1}|{"state":"spent"}
{"do":"solve","deal":"N:2.A.. AK... Q.4.. J.5..","trump":4,"first":0,"solutions":2,"target":0}|{"cards":[{"equals":0,"rank":2,"score":0,"suit":0},{"equals":0,"rank":14,"score":0,"suit":1}]}
{"do":"solve","deal":"N:2.A.. AK... Q.4.. J.5..","trump":4,"first":0,"solutions":2,"target":3}|{"cards":[]}"#;

/// The same with a budget of 10,000.
const REPLIES_WITH_10_000_POSITIONS: &[u8] =
    br#"{"do":"solve","deal":"N:AKQ.AKQ.AKQ.AKQJ J852.J85.J85.T74 T74.T742.T74.963 963.963.9632.852","trump":4,"first":0,"solutions":3}|{"cards":[{"equals":12288,"rank":14,"score":13,"suit":0},{"equals":12288,"rank":14,"score":13,"suit":1},{"equals":12288,"rank":14,"score":13,"suit":2},{"equals":14336,"rank":14,"score":13,"suit":3}]}"#;

/// The first row whose line has another reply, or nothing.
pub(super) fn first_with_another_reply(
    alloc: Global,
    table: &'static [u8],
    budget: Option<u64>,
) -> Option<&'static [u8]> {
    for row in table.split(|byte| *byte == b'\n') {
        let reply = reply_to_line(alloc, before_bar(row), &DoubleDummy, &mut NoTable, budget);
        if reply.as_str().as_bytes() != after_bar(row) {
            return Some(row);
        }
    }
    None
}

#[test]
fn worked_requests_have_their_replies(rt: HostRuntime) {
    for (table, budget) in [
        (REPLIES, None),
        (REPLIES_WITH_A_TARGET, None),
        (REPLIES_WITH_NO_POSITION, Some(0)),
        (REPLIES_WITH_ONE_POSITION, Some(1)),
        (REPLIES_WITH_1_000_POSITIONS, Some(1_000)),
        (REPLIES_WITH_10_000_POSITIONS, Some(10_000)),
    ] {
        assert_eq!(rt; first_with_another_reply(rt.alloc(), table, budget), None);
    }
}
