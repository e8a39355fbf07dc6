//! Lines that ask for par, whose replies were worked by hand.
use super::worked::first_with_another_reply;

/// Each row is a line, a bar and its reply without a budget.
pub(super) const REPLIES: &[u8] =
    br#"{"do":"par","table":[[5,8,5,8],[6,6,6,6],[5,7,5,7],[7,5,7,5],[6,6,6,6]],"dealer":0,"vulnerable":0}|{"contracts":[{"declarers":[1,3],"level":2,"tricks":8,"trump":0}],"score":-110}
{"vulnerable":0,"dealer":0,"table":[[6,6,6,6],[6,6,6,6],[6,6,6,6],[6,6,6,6],[6,6,6,6]],"do":"par"}|{"contracts":[],"score":0}
{"do":"par","table":[[6,6,6,6],[6,6,6,6],[6,6,6,6],[6,6,6,6],[7,7,7,7]],"dealer":0,"vulnerable":0}|{"contracts":[{"declarers":[0],"level":1,"tricks":7,"trump":4}],"score":90}
{"do":"par","table":[[6,6,6,6],[6,6,6,6],[6,6,6,6],[6,6,6,6],[7,7,7,7]],"dealer":1,"vulnerable":0}|{"contracts":[{"declarers":[1],"level":1,"tricks":7,"trump":4}],"score":-90}
{"do":"par","table":[[6,6,6,6],[6,6,6,6],[6,6,6,6],[6,6,6,6],[7,7,7,7]],"side":0,"vulnerable":0}|{"contracts":[{"declarers":[0,2],"level":1,"tricks":7,"trump":4}],"score":90}
{"do":"par","table":[[6,6,6,6],[6,6,6,6],[6,6,6,6],[6,6,6,6],[7,7,7,7]],"side":1,"vulnerable":0}|{"contracts":[{"declarers":[1,3],"level":1,"tricks":7,"trump":4}],"score":-90}
{"do":"par","table":[[4,9,4,9],[10,3,10,3],[8,5,8,5],[7,6,7,6],[8,5,8,5]],"dealer":0,"vulnerable":3}|{"contracts":[{"declarers":[1,3],"level":4,"tricks":9,"trump":0}],"score":200}
{"do":"par","table":[[8,5,8,5],[7,6,7,6],[9,4,9,4],[11,2,11,2],[9,4,9,4]],"dealer":0,"vulnerable":0}|{"contracts":[{"declarers":[0,2],"level":5,"tricks":11,"trump":3},{"declarers":[0,2],"level":3,"tricks":9,"trump":4}],"score":400}
{"do":"par","table":[[3,10,3,10],[3,10,3,10],[9,4,9,4],[9,4,8,4],[4,9,4,9]],"dealer":2,"vulnerable":3}|{"contracts":[{"declarers":[0,2],"level":5,"tricks":9,"trump":2},{"declarers":[0],"level":5,"tricks":9,"trump":3}],"score":-300}
{"do":"par","table":[[13,0,13,0],[0,13,0,13],[13,0,13,0],[0,13,0,13],[0,0,0,0]],"dealer":0,"vulnerable":0}|{"contracts":[{"declarers":[0,2],"level":7,"tricks":13,"trump":0}],"score":1510}
{"do":"par","table":[[12,1,12,1],[12,1,12,1],[10,3,10,3],[3,10,3,10],[12,1,12,1]],"dealer":0,"vulnerable":2}|{"contracts":[{"declarers":[1,3],"level":7,"tricks":10,"trump":3}],"score":500}
{"do":"par","table":[[8,5,8,5],[6,7,6,7],[9,4,9,4],[8,5,8,5],[10,3,9,3]],"dealer":2,"vulnerable":1}|{"contracts":[{"declarers":[0],"level":3,"tricks":10,"trump":4}],"score":630}
{"do":"par","deal":"N:AKQJT98765432... .AKQJT98765432.. ..AKQJT98765432. ...AKQJT98765432","dealer":0,"vulnerable":0}|{"contracts":[{"declarers":[0,2],"level":7,"tricks":13,"trump":0}],"score":1510}
{"do":"par","deal":"[Deal \"n:akqjt98765432... .akqjt98765432.. ..akqjt98765432. ...akqjt98765432\"]","side":1,"vulnerable":1}|{"contracts":[{"declarers":[0,2],"level":7,"tricks":13,"trump":0}],"score":2210}"#;

/// The first fault of each line.
pub(super) const FAULTS: &[u8] = br#"{"do":"par"}|{"fault":3}
{"do":"par","table":[[6,6,6,6],[6,6,6,6],[6,6,6,6],[6,6,6,6],[6,6,6,6]],"vulnerable":0}|{"fault":3}
{"do":"par","table":[[6,6,6,6],[6,6,6,6],[6,6,6,6],[6,6,6,6],[6,6,6,6]],"dealer":0}|{"fault":3}
{"do":"par","dealer":0,"vulnerable":0}|{"fault":3}
{"do":"par","table":[[6,6,6,6],[6,6,6,6],[6,6,6,6],[6,6,6,6],[6,6,6,6]],"dealer":0,"side":0,"vulnerable":0}|{"fault":3}
{"do":"par","table":[[6,6,6,6],[6,6,6,6],[6,6,6,6],[6,6,6,6],[6,6,6,6]],"deal":"N:A... K... Q... J...","dealer":0,"vulnerable":0}|{"fault":3}
{"do":"par","table":[[6,6,6,6],[6,6,6,6],[6,6,6,6],[6,6,6,6],[6,6,6,6]],"dealer":0,"vulnerable":0,"trump":4}|{"fault":3}
{"do":"par","table":[[6,6,6,6],[6,6,6,6],[6,6,6,6],[6,6,6,6],[6,6,6]],"dealer":0,"vulnerable":0}|{"fault":3}
{"do":"par","table":[[6,6,6,6],[6,6,6,6],[6,6,6,6],[6,6,6,6],[6,6,6,6,6]],"dealer":0,"vulnerable":0}|{"fault":3}
{"do":"par","table":[[6,6,6,6],[6,6,6,6],[6,6,6,6],[6,6,6,6]],"dealer":0,"vulnerable":0}|{"fault":3}
{"do":"par","table":[[6,6,6,6],[6,6,6,6],[6,6,6,6],[6,6,6,6],[6,6,6,6],[6,6,6,6]],"dealer":0,"vulnerable":0}|{"fault":3}
{"do":"par","table":[[6,6,6,6],[6,6,6,6],[6,6,6,6],[6,6,6,6],[6,6,6,6.0]],"dealer":0,"vulnerable":0}|{"fault":3}
{"do":"par","table":[[6,6,6,6],[6,6,6,6],[6,6,6,6],[6,6,6,6],[6,6,6,-1]],"dealer":0,"vulnerable":0}|{"fault":3}
{"do":"par","table":[6,6,6,6,6],"dealer":0,"vulnerable":0}|{"fault":3}
{"do":"par","table":null,"dealer":0,"vulnerable":0}|{"fault":3}
{"do":"par","deal":null,"dealer":0,"vulnerable":0}|{"fault":3}
{"do":"par","table":[[6,6,6,6],[6,6,6,6],[6,6,6,6],[6,6,6,6],[6,6,6,6]],"dealer":"0","vulnerable":0}|{"fault":3}
{"do":"par","table":[[6,6,6,6],[6,6,6,6],[6,6,6,6],[6,6,6,6],[6,6,6,6]],"side":0,"vulnerable":0.0}|{"fault":3}
{"do":"table","table":[[6,6,6,6],[6,6,6,6],[6,6,6,6],[6,6,6,6],[6,6,6,6]],"dealer":0,"vulnerable":0}|{"fault":3}
{"do":"par","table":[[6,6,6,6],[6,6,6,6],[6,6,6,6],[6,6,6,6],[6,6,6,14]],"dealer":4,"vulnerable":4}|{"fault":20}
{"do":"par","table":[[6,6,6,6],[6,6,6,6],[6,6,6,6],[6,6,6,6],[6,6,6,6]],"side":2,"vulnerable":0}|{"fault":20}
{"do":"par","table":[[6,6,6,6],[6,6,6,6],[6,6,6,6],[6,6,6,6],[6,6,6,6]],"dealer":256,"vulnerable":0}|{"fault":20}
{"do":"par","table":[[6,6,6,6],[6,6,6,6],[6,6,6,6],[6,6,6,6],[6,6,6,14]],"dealer":3,"vulnerable":4}|{"fault":21}
{"do":"par","table":[[6,6,6,6],[6,6,6,6],[6,6,6,6],[6,6,6,6],[6,6,6,6]],"dealer":3,"vulnerable":258}|{"fault":21}
{"do":"par","table":[[6,6,6,6],[6,6,6,6],[6,6,6,6],[6,6,6,6],[6,6,6,14]],"dealer":3,"vulnerable":3}|{"fault":22}
{"do":"par","table":[[262,6,6,6],[6,6,6,6],[6,6,6,6],[6,6,6,6],[6,6,6,6]],"dealer":3,"vulnerable":3}|{"fault":22}
{"do":"par","deal":"N:A.. K... Q... J...","dealer":4,"vulnerable":4}|{"fault":4}
{"do":"par","deal":"N:A... - Q... J...","dealer":4,"vulnerable":4}|{"fault":5}
{"do":"par","deal":"N:AA... K2... Q3... J4...","dealer":4,"vulnerable":4}|{"fault":6}
{"do":"par","deal":"N:A2... K... Q... J...","dealer":4,"vulnerable":4}|{"fault":20}
{"do":"par","deal":"N:A2... K... Q... J...","side":1,"vulnerable":4}|{"fault":21}
{"do":"par","deal":"N:A2... K... Q... J...","side":1,"vulnerable":3}|{"fault":7}
{"do":"par","deal":"N:... ... ... ...","side":1,"vulnerable":3}|{"fault":8}
{"do":"par","deal":"N:A... K... Q... J...","side":1,"vulnerable":3}|{"fault":23}"#;

/// Replies with a budget of 0: the results of a deal are searched for, and given ones aren't.
const REPLIES_WITH_NO_POSITION: &[u8] =
    br#"{"do":"par","table":[[5,8,5,8],[6,6,6,6],[5,7,5,7],[7,5,7,5],[6,6,6,6]],"dealer":0,"vulnerable":0}|{"contracts":[{"declarers":[1,3],"level":2,"tricks":8,"trump":0}],"score":-110}
{"do":"par","deal":"N:AKQJT98765432... .AKQJT98765432.. ..AKQJT98765432. ...AKQJT98765432","dealer":0,"vulnerable":0}|{"state":"spent"}
{"do":"par","deal":"N:A... K... Q... J...","side":1,"vulnerable":3}|{"fault":23}"#;

#[test]
fn worked_lines_for_par_have_their_replies(rt: HostRuntime) {
    for (table, budget) in [
        (REPLIES, None),
        (FAULTS, None),
        (REPLIES_WITH_NO_POSITION, Some(0)),
    ] {
        assert_eq!(rt; first_with_another_reply(rt.alloc(), table, budget), None);
    }
}
