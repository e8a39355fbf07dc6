//! Tables whose results can be counted by hand, and the parts that make one.
ghost use Rattle.std.specs.Prelude.{◌≤◌};

use super::worked::first_with_another_reply;
use dd_bounds::{Budget, Endless, Halt, NoTable};
use dd_pbn::read_deal;
use dd_play::PlayFault;
use dd_request::{SolvedPart, SolvedTable, TableRequest};
use dd_solve::solve_part;
use std::alloc::Global;
use std::test::Fail;

/// Each row is a line, a bar and its reply without a budget.
const REPLIES: &[u8] =
    br#"{"do":"table","deal":"N:A... K... Q... J..."}|{"table":[[1,0,1,0],[1,0,1,0],[1,0,1,0],[1,0,1,0],[1,0,1,0]]}
{"deal":"[Deal \"e:k... q... j... a...\"]","do":"table"}|{"table":[[1,0,1,0],[1,0,1,0],[1,0,1,0],[1,0,1,0],[1,0,1,0]]}
{"do":"table","deal":"N:A... .2.. K... .3.."}|{"table":[[1,0,1,0],[0,1,0,1],[0,0,0,0],[0,0,0,0],[0,0,0,0]]}
{"do":"table","deal":"N:32... K4... AQ... 65..."}|{"table":[[2,1,2,0],[2,1,2,0],[2,1,2,0],[2,1,2,0],[2,1,2,0]]}
{"do":"table","deal":"N:AKQJT98765432... .AKQJT98765432.. ..AKQJT98765432. ...AKQJT98765432"}|{"table":[[13,0,13,0],[0,13,0,13],[13,0,13,0],[0,13,0,13],[0,0,0,0]]}
{"do":"table","deal":"N:A2... K... Q... J..."}|{"fault":7}
{"do":"table","deal":"N:A... ... ... ..."}|{"fault":7}
{"do":"table","deal":"N:A... K... Q... J2..."}|{"fault":7}
{"do":"table","deal":"N:... ... ... ..."}|{"fault":8}
{"do":"table","deal":"N:A... K... Q... J...","trump":4}|{"fault":3}
{"do":"table","deal":"N:A... K... Q... J...","solutions":3}|{"fault":3}
{"do":"table","deal":"N:A... K... Q... J..","trump":4}|{"fault":3}
{"do":"table","deal":7}|{"fault":3}
{"do":"table"}|{"fault":3}
{"do":"tables","deal":"N:A... K... Q... J..."}|{"fault":3}
{"do":"solve","deal":"N:A... K... Q... J..."}|{"fault":3}
{"do":"table","deal":"N:A.. K... Q... J..."}|{"fault":4}
{"do":"table","deal":"N:A... - Q... J..."}|{"fault":5}
{"do":"table","deal":"N:AA... K2... Q3... J4..."}|{"fault":6}"#;

/// The same with a budget of 19. A search has one tick or more, so one budget for all twenty would be spent.
const REPLIES_WITH_19_POSITIONS: &[u8] =
    br#"{"do":"table","deal":"N:A... K... Q... J..."}|{"table":[[1,0,1,0],[1,0,1,0],[1,0,1,0],[1,0,1,0],[1,0,1,0]]}
{"do":"table","deal":"N:32... K4... AQ... 65..."}|{"table":[[2,1,2,0],[2,1,2,0],[2,1,2,0],[2,1,2,0],[2,1,2,0]]}
{"do":"table","deal":"N:A2... K... Q... J..."}|{"fault":7}"#;

/// The same with a budget of 0.
const REPLIES_WITH_NO_POSITION: &[u8] =
    br#"{"do":"table","deal":"N:A... K... Q... J..."}|{"state":"spent"}
{"do":"table","deal":"N:... ... ... ..."}|{"fault":8}"#;

#[test]
fn worked_tables_have_their_replies(rt: HostRuntime) {
    for (table, budget) in [
        (REPLIES, None),
        (REPLIES_WITH_19_POSITIONS, Some(19)),
        (REPLIES_WITH_NO_POSITION, Some(0)),
    ] {
        assert_eq!(rt; first_with_another_reply(rt.alloc(), table, budget), None);
    }
}

// The request for the table of a deal, where it is one.
fn request_of(deal: &str) -> Option<TableRequest> {
    TableRequest::new(read_deal(deal.as_bytes()).ok()?).ok()
}

// The first so many parts of a request.
fn parts_of(alloc: Global, request: &TableRequest, many: u8) -> Result<Vec<SolvedPart>, Fail>
    requires { many ≤ 20 }
{
    let mut parts = Vec::new(alloc);
    for part in 0..many {
        if let Ok(solved) = solve_part(request, part, &mut NoTable, &mut Endless) {
            parts.push(solved)?;
        }
    }
    Ok(parts)
}

#[test]
fn twenty_parts_make_a_table_and_nineteen_do_not(rt: HostRuntime) -> Result<(), Fail> {
    let request = request_of("N:32... K4... AQ... 65...").expect(&rt, "a request");
    let mut parts = parts_of(rt.alloc(), &request, 20)?;
    let table = SolvedTable::of(parts.as_slice()).expect(&rt, "a table");
    let tricks = [2, 1, 2, 0, 2, 1, 2, 0, 2, 1, 2, 0, 2, 1, 2, 0, 2, 1, 2, 0];
    assert_eq!(rt; table.copy().results().copy().as_slice(), tricks.as_slice());
    assert!(rt; *table.request() == request);
    assert!(rt; SolvedTable::of(&[]).is_none());
    let other = request_of("N:32... K5... AQ... 64...").expect(&rt, "a request");
    assert!(rt; other != request);
    let _last = parts.pop();
    assert!(rt; SolvedTable::of(parts.as_slice()).is_none());
    let last = solve_part(&other, 19, &mut NoTable, &mut Endless).expect(&rt, "a part");
    parts.push(last.copy())?;
    assert!(rt; SolvedTable::of(parts.as_slice()).is_none());
    Ok(())
}

#[test]
fn a_part_says_what_it_is_the_result_of(rt: HostRuntime) {
    let request = request_of("N:A... .2.. K... .3..").expect(&rt, "a request");
    let part = solve_part(&request, 5, &mut NoTable, &mut Endless).expect(&rt, "a part");
    assert_eq!(rt; (part.part(), part.tricks()), (5, 1));
    assert!(rt; part.request().copy() == request);
    assert_eq!(rt; request.opening(5).first().code(), 2);
    assert_eq!(rt; request.opening(5).strain().code(), 1);
    let spent = solve_part(&request, 5, &mut NoTable, &mut Budget::new(0));
    assert_eq!(rt; spent.err(), Some(Halt::Spent));
}

#[test]
fn hands_of_several_lengths_or_of_none_have_no_table(rt: HostRuntime) {
    for (deal, fault) in [
        ("N:A2... K... Q... J...", PlayFault::Uneven),
        ("N:... ... ... A...", PlayFault::Uneven),
        ("N:... ... ... ...", PlayFault::Empty),
    ] {
        let hands = read_deal(deal.as_bytes()).expect(&rt, "a deal");
        assert_eq!(rt; TableRequest::new(hands).err(), Some(fault));
    }
}
