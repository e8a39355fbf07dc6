//! Budgets of over 30,000 positions, of the line tool and of the server: one just suffices, and one fewer does not.
use crate::program::asking::{converse, run_at};
use crate::program::devices::{SOUND, run_line};
use crate::server::client::Way;
use dd_bounds::Budget;
use dd_cache::Cache;
use dd_request::Asked;
use dd_solve::solve;
use dd_table::SharedTable;
use dd_wire::{LineAsked, read_request};
use std::alloc::{AllocError, Global};
use std::net::{Net, TcpListener, TcpStream};
use std::sync::Wait;
use std::test::Fail;
use std::thread::Threads;
use std::time::Clock;
use std::{io, thread};

// An opening lead, and its answer by DDS 2.9.
const LEAD: &str =
    r#"{"do":"solve","deal":"N:75.Q93.AQ7652.AQ A9862.T74.8.8754 KQ.AKJ8652.JT.T2 JT43..K943.KJ963","trump":2,"first":0,"solutions":3}"#;

const ANSWER: &str =
    r#"{"cards":[{"equals":0,"rank":7,"score":11,"suit":0},{"equals":0,"rank":5,"score":11,"suit":0},{"equals":0,"rank":12,"score":10,"suit":1},{"equals":0,"rank":9,"score":10,"suit":1},{"equals":0,"rank":3,"score":10,"suit":1},{"equals":0,"rank":14,"score":10,"suit":2},{"equals":0,"rank":12,"score":10,"suit":2},{"equals":96,"rank":7,"score":10,"suit":2},{"equals":0,"rank":2,"score":10,"suit":2},{"equals":0,"rank":14,"score":9,"suit":3},{"equals":0,"rank":12,"score":9,"suit":3}]"#;

// How many positions the search for the lead visits over a table that is empty before, where these are over 30,000.
fn positions<R: Wait>(rt: &R, alloc: Global) -> Option<u64> {
    let Ok(LineAsked::Cards(Asked::Solve(request))) = read_request(alloc, LEAD.as_bytes()) else {
        return None;
    };
    let table = SharedTable::new(alloc, 1, 4_096).ok()?;
    let mut cache = Cache::new(alloc, table.view(rt)).ok()?;
    let mut budget = Budget::new(5_000_000);
    solve(request, &mut cache, &mut budget).ok()?;
    Some(budget.ticks()).filter(|count| *count > 30_000)
}

// What the line tool replies to the lead.
fn solved<
    W: Threads + Wait + Clock + Eprint + Net<Listener = TcpListener, Stream = TcpStream> + Sync,
>(rt: &W, alloc: Global, budget: u64) -> Result<Vec<u8>, AllocError> {
    let line = format!(in alloc; "ddserve solve --budget {budget}")?;
    Ok(run_line(rt, alloc, line.as_str(), LEAD, SOUND)?.output)
}

// What a client of the server is told of it.
fn served<
    W: Threads + Wait + Clock + Eprint + Net<Listener = TcpListener, Stream = TcpStream> + Sync,
>(rt: &W, alloc: Global, budget: u64) -> io::Result<Option<String>> {
    let line = format!(in alloc;
        "ddserve serve --listen 127.0.0.1:0 --workers 1 --shards 1 --budget {budget} --allow-stop"
    )?;
    let listener = TcpListener::bind(rt, "127.0.0.1:0")?;
    let address = listener.local_addr()?;
    let (_, told) = thread::join(
        rt,
        || run_at(rt, alloc, line.as_str(), &listener),
        || converse(rt, alloc, address, Way::Lines, LEAD).ok(),
    );
    Ok(told)
}

#[test]
fn the_line_tool_keeps_to_a_large_budget(rt: HostRuntime) -> Result<(), Fail> {
    let alloc = rt.alloc();
    let count = positions(&rt, alloc).expect(&rt, "over 30,000 positions");
    let answer = format!(in alloc; "{ANSWER}}}\n")?;
    let suffices = solved(&rt, alloc, count)?.as_slice() == answer.as_str().as_bytes();
    let less = solved(&rt, alloc, count.saturating_sub(1))?;
    assert!(rt; suffices && less.as_slice() == b"{\"state\":\"spent\"}\n".as_slice());
    Ok(())
}

#[test]
fn the_server_keeps_to_a_large_budget(rt: HostRuntime) -> Result<(), Fail> {
    let alloc = rt.alloc();
    let count = positions(&rt, alloc).expect(&rt, "over 30,000 positions");
    let rows = [
        (count, ANSWER, "done"),
        (count.saturating_sub(1), "{", "spent"),
    ];
    for (budget, answer, state) in rows {
        let comma = if answer == "{" { "" } else { "," };
        let wanted = format!(in alloc;
            "{{\"job\":1}}\n{answer}{comma}\"job\":1,\"state\":\"{state}\"}}\n{{\"closing\":true}}\n"
        )?;
        let told = served(&rt, alloc, budget)?.expect(&rt, "the client has its replies");
        assert_eq!(rt; told.as_str(), wanted.as_str());
    }
    Ok(())
}
