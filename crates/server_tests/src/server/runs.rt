//! Runs that follow one another. Each has twenty events, and is worn after fifteen, or as many as a test says.
use crate::server::client::{Client, MOST_FETCHES, Way};
use crate::server::serving::{LINES, Run, Told, serve_runs};
use dd_work::NoGate;
use std::alloc::Global;
use std::net::{Net, SocketAddr, TcpListener, TcpStream};
use std::test::Fail;
use std::{io, thread};

const SMALL: Run = Run {
    events: 20,
    ..LINES
};

// Room for a table and a shut.
const OF_A_TABLE: Run = Run {
    events: 43,
    ..LINES
};

// How many events wear a run of twenty.
const WEARS: u32 = 15;

// Three cards are on the trick, and the ace is left: the search visits one position.
const SOLVE: &str =
    r#"{"do":"solve","deal":"N:A... ... ... ...","trump":4,"first":1,"solutions":3,"played":[[0,13],[0,12],[0,11]],"wait":60000}"#;

const FETCH: &str = r#"{"do":"fetch","job":2}"#;

const FETCH_FIRST: &str = r#"{"do":"fetch","job":1}"#;

const FETCH_SECOND_AND_WAIT: &str = r#"{"do":"fetch","job":2,"wait":60000}"#;

const STOP: &str = r#"{"do":"stop"}"#;

const HEALTH: &str = r#"{"do":"health"}"#;

// Twenty parts, of which the worker makes two events each.
const TABLE: &str = r#"{"do":"table","deal":"N:A... K... Q... J..."}"#;

// North and South win the one trick, whoever declares.
const TABLE_DONE: &str =
    r#"{"job":1,"state":"done","table":[[1,0,1,0],[1,0,1,0],[1,0,1,0],[1,0,1,0],[1,0,1,0]]}"#;

const SECOND_TABLE_DONE: &str =
    r#"{"job":2,"state":"done","table":[[1,0,1,0],[1,0,1,0],[1,0,1,0],[1,0,1,0],[1,0,1,0]]}"#;

const ACE_DONE: &str =
    r#"{"cards":[{"equals":0,"rank":14,"score":1,"suit":0}],"job":1,"state":"done"}"#;

// How the run is once the worker has used up what the client left: but for a fetch and a shut.
const USED: &str = r#"{"events_left":2,"jobs":0,"workers":1}"#;

// Writes a reply down, in a line.
fn note(told: &mut String, reply: &str) -> io::Result<()> {
    told.push_str(reply)?;
    told.push_str("\n")?;
    Ok(())
}

// Wears the run of the client, by fetches of no job.
fn wear(client: &mut Client<'_>) -> io::Result<()> {
    for _ in 0..WEARS {
        client.ask(FETCH)?;
    }
    Ok(())
}

// One client wears its run and has its submit refused; another is served by the next run, and stops both.
fn converse_in_two<R: Net<Stream = TcpStream>>(
    rt: &R,
    alloc: Global,
    address: SocketAddr,
) -> io::Result<String> {
    let mut told = String::new(alloc);
    let stream = TcpStream::connect(rt, address)?;
    let mut first = Client::new(alloc, Way::Lines, &stream)?;
    wear(&mut first)?;
    note(&mut told, first.ask(SOLVE)?.as_str())?;
    note(&mut told, first.ask(FETCH)?.as_str())?;
    let next = TcpStream::connect(rt, address)?;
    let mut second = Client::new(alloc, Way::Lines, &next)?;
    note(&mut told, second.ask(SOLVE)?.as_str())?;
    note(&mut told, first.ask(FETCH)?.as_str())?;
    note(&mut told, second.ask(STOP)?.as_str())?;
    Ok(told)
}

// The fetches of the first run; the submit, the fetch and the stop of the second one, with a claim and a finish; the shut of the
// first, whose client did not stop it; and the last claim of each worker.
#[test]
fn a_worn_run_takes_no_submit_and_the_next_connection_begins_the_next_run(
    rt: HostRuntime,
) -> Result<(), Fail> {
    let listener = TcpListener::bind(&rt, "127.0.0.1:0")?;
    let address = listener.local_addr()?;
    let (served, told) = thread::join(
        &rt,
        || serve_runs(&rt, rt.alloc(), listener, SMALL, &NoGate),
        || converse_in_two(&rt, rt.alloc(), address).ok(),
    );
    let told = told.expect(&rt, "the clients have their replies");
    let wanted =
        "{\"fault\":15}\n{\"fault\":16}\n{\"cards\":[{\"equals\":0,\"rank\":14,\"score\":1,\"suit\":0}],\"job\":1,\"state\":\"done\"}\n{\"fault\":16}\n{\"closing\":true}\n";
    assert_eq!(rt; told.as_str(), wanted);
    assert!(rt;
        served
            == Some((
                Told {
                    runs: 2,
                    events: 25
                },
                Ok(())
            ))
    );
    Ok(())
}

// One client makes a single event, and the worker uses up the run. Another is served by the next run, and stops both. The first
// is told the end of its job, once.
fn converse_beside_a_worker<R: Net<Stream = TcpStream>>(
    rt: &R,
    alloc: Global,
    address: SocketAddr,
) -> io::Result<String> {
    let mut told = String::new(alloc);
    let stream = TcpStream::connect(rt, address)?;
    let mut first = Client::new(alloc, Way::Lines, &stream)?;
    note(&mut told, first.ask(TABLE)?.as_str())?;
    note(&mut told, health_when_used(&mut first)?.as_str())?;
    let next = TcpStream::connect(rt, address)?;
    let mut second = Client::new(alloc, Way::Lines, &next)?;
    note(&mut told, second.ask(SOLVE)?.as_str())?;
    note(&mut told, first.ask(SOLVE)?.as_str())?;
    note(&mut told, first.ask(FETCH)?.as_str())?;
    note(&mut told, first.ask(FETCH_FIRST)?.as_str())?;
    note(&mut told, first.ask(FETCH_FIRST)?.as_str())?;
    note(&mut told, second.ask(STOP)?.as_str())?;
    Ok(told)
}

// Asks how the run is until its worker has used it up.
fn health_when_used(client: &mut Client<'_>) -> io::Result<String> {
    let mut told = client.ask(HEALTH)?;
    for _ in 0..MOST_FETCHES {
        if told.as_str() == USED {
            break;
        }
        told = client.ask(HEALTH)?;
    }
    Ok(told)
}

// The first run has as many events as there is room for: a submit, what the worker made, a fetch, and a shut. The second has a
// submit, a fetch, the stop, a claim, a finish and the last claim.
#[test]
fn a_run_that_its_worker_used_up_is_followed_by_another(rt: HostRuntime) -> Result<(), Fail> {
    let alloc = rt.alloc();
    let listener = TcpListener::bind(&rt, "127.0.0.1:0")?;
    let address = listener.local_addr()?;
    let (served, told) = thread::join(
        &rt,
        || serve_runs(&rt, alloc, listener, OF_A_TABLE, &NoGate),
        || converse_beside_a_worker(&rt, alloc, address).ok(),
    );
    let told = told.expect(&rt, "the clients have their replies");
    let fault = "{\"fault\":15}";
    let wanted = format!(in alloc;
        "{{\"job\":1}}\n{USED}\n{ACE_DONE}\n{fault}\n{fault}\n{TABLE_DONE}\n{fault}\n{{\"closing\":true}}\n"
    )?;
    assert_eq!(rt; told.as_str(), wanted.as_str());
    assert!(rt;
        served
            == Some((
                Told {
                    runs: 2,
                    events: 49
                },
                Ok(())
            ))
    );
    Ok(())
}

// A hundred events, of which 25 are the last quarter. Beside two connections that have asked nothing there is no room for a third:
// 99 are free, and a table of each would leave 15. So the third is served by the next run, and the two have a job each in this, and
// no more, though that had room for it.
fn converse_after_silence<R: Net<Stream = TcpStream>>(
    rt: &R,
    alloc: Global,
    address: SocketAddr,
) -> io::Result<String> {
    let mut told = String::new(alloc);
    let one = TcpStream::connect(rt, address)?;
    let two = TcpStream::connect(rt, address)?;
    let three = TcpStream::connect(rt, address)?;
    let mut first = Client::new(alloc, Way::Lines, &one)?;
    let mut second = Client::new(alloc, Way::Lines, &two)?;
    let mut third = Client::new(alloc, Way::Lines, &three)?;
    note(&mut told, third.ask(SOLVE)?.as_str())?;
    note(&mut told, first.ask(SOLVE)?.as_str())?;
    note(&mut told, second.ask(TABLE)?.as_str())?;
    note(&mut told, first.ask(SOLVE)?.as_str())?;
    note(&mut told, second.ask(FETCH_SECOND_AND_WAIT)?.as_str())?;
    note(&mut told, third.ask(STOP)?.as_str())?;
    Ok(told)
}

const HUNDRED: Run = Run {
    events: 100,
    ..LINES
};

#[test]
fn a_run_is_left_for_the_next_without_room_for_who_has_asked_nothing(
    rt: HostRuntime,
) -> Result<(), Fail> {
    let alloc = rt.alloc();
    let listener = TcpListener::bind(&rt, "127.0.0.1:0")?;
    let address = listener.local_addr()?;
    let (served, told) = thread::join(
        &rt,
        || serve_runs(&rt, alloc, listener, HUNDRED, &NoGate),
        || converse_after_silence(&rt, alloc, address).ok(),
    );
    let told = told.expect(&rt, "the clients have their replies");
    let wanted = format!(in alloc;
        "{ACE_DONE}\n{ACE_DONE}\n{{\"job\":2}}\n{{\"fault\":15}}\n{SECOND_TABLE_DONE}\n{{\"closing\":true}}\n"
    )?;
    assert_eq!(rt; told.as_str(), wanted.as_str());
    assert!(rt; matches!(served, Some((Told { runs: 2, .. }, Ok(())))));
    Ok(())
}

// The first has asked, so that no table of it is expected: the third is served by the same run, which has its jobs numbered after
// those of the first. Who has asked is told 15 where a table of each other one would leave no more than a quarter.
fn converse_after_a_fetch<R: Net<Stream = TcpStream>>(
    rt: &R,
    alloc: Global,
    address: SocketAddr,
) -> io::Result<String> {
    let mut told = String::new(alloc);
    let one = TcpStream::connect(rt, address)?;
    let mut first = Client::new(alloc, Way::Lines, &one)?;
    note(&mut told, first.ask(FETCH)?.as_str())?;
    let two = TcpStream::connect(rt, address)?;
    let mut second = Client::new(alloc, Way::Lines, &two)?;
    note(&mut told, first.ask(SOLVE)?.as_str())?;
    let three = TcpStream::connect(rt, address)?;
    let mut third = Client::new(alloc, Way::Lines, &three)?;
    note(&mut told, third.ask(FETCH)?.as_str())?;
    note(&mut told, third.ask(TABLE)?.as_str())?;
    note(&mut told, first.ask(SOLVE)?.as_str())?;
    note(&mut told, second.ask(STOP)?.as_str())?;
    Ok(told)
}

#[test]
fn who_has_asked_is_expected_to_ask_no_table(rt: HostRuntime) -> Result<(), Fail> {
    let alloc = rt.alloc();
    let listener = TcpListener::bind(&rt, "127.0.0.1:0")?;
    let address = listener.local_addr()?;
    let (served, told) = thread::join(
        &rt,
        || serve_runs(&rt, alloc, listener, HUNDRED, &NoGate),
        || converse_after_a_fetch(&rt, alloc, address).ok(),
    );
    let told = told.expect(&rt, "the clients have their replies");
    let wanted = format!(in alloc;
        "{{\"fault\":16}}\n{ACE_DONE}\n{{\"fault\":16}}\n{{\"job\":2}}\n{{\"fault\":15}}\n{{\"closing\":true}}\n"
    )?;
    assert_eq!(rt; told.as_str(), wanted.as_str());
    assert!(rt; matches!(served, Some((Told { runs: 1, .. }, Ok(())))));
    Ok(())
}

// The first client does nothing more, and hears the end of its run when the time of this is over.
fn converse_past_the_grace<R: Net<Stream = TcpStream>>(
    rt: &R,
    alloc: Global,
    address: SocketAddr,
) -> io::Result<String> {
    let mut told = String::new(alloc);
    let stream = TcpStream::connect(rt, address)?;
    let mut first = Client::new(alloc, Way::Lines, &stream)?;
    wear(&mut first)?;
    let next = TcpStream::connect(rt, address)?;
    let mut second = Client::new(alloc, Way::Lines, &next)?;
    note(&mut told, second.ask(FETCH)?.as_str())?;
    note(&mut told, first.hear()?.as_str())?;
    note(&mut told, second.ask(STOP)?.as_str())?;
    Ok(told)
}

#[test]
fn a_worn_run_ends_when_its_time_is_over(rt: HostRuntime) -> Result<(), Fail> {
    let listener = TcpListener::bind(&rt, "127.0.0.1:0")?;
    let address = listener.local_addr()?;
    let run = Run {
        grace: 300,
        ..SMALL
    };
    let (served, told) = thread::join(
        &rt,
        || serve_runs(&rt, rt.alloc(), listener, run, &NoGate),
        || converse_past_the_grace(&rt, rt.alloc(), address).ok(),
    );
    let told = told.expect(&rt, "the clients have their replies");
    assert_eq!(rt; told.as_str(), "{\"fault\":16}\n\n{\"closing\":true}\n");
    assert!(rt;
        served
            == Some((
                Told {
                    runs: 2,
                    events: 20
                },
                Ok(())
            ))
    );
    Ok(())
}

// Three clients wear a run each and stay. For the fourth the first run has to end, whose client hears that.
fn converse_in_a_crowd<R: Net<Stream = TcpStream>>(
    rt: &R,
    alloc: Global,
    address: SocketAddr,
) -> io::Result<String> {
    let mut told = String::new(alloc);
    let one = TcpStream::connect(rt, address)?;
    let mut first = Client::new(alloc, Way::Lines, &one)?;
    wear(&mut first)?;
    let two = TcpStream::connect(rt, address)?;
    let mut second = Client::new(alloc, Way::Lines, &two)?;
    wear(&mut second)?;
    let three = TcpStream::connect(rt, address)?;
    let mut third = Client::new(alloc, Way::Lines, &three)?;
    wear(&mut third)?;
    let four = TcpStream::connect(rt, address)?;
    let mut fourth = Client::new(alloc, Way::Lines, &four)?;
    note(&mut told, fourth.ask(FETCH)?.as_str())?;
    note(&mut told, first.hear()?.as_str())?;
    note(&mut told, third.ask(FETCH)?.as_str())?;
    note(&mut told, fourth.ask(STOP)?.as_str())?;
    Ok(told)
}

#[test]
fn older_runs_end_at_once_where_three_are_there(rt: HostRuntime) -> Result<(), Fail> {
    let listener = TcpListener::bind(&rt, "127.0.0.1:0")?;
    let address = listener.local_addr()?;
    let (served, told) = thread::join(
        &rt,
        || serve_runs(&rt, rt.alloc(), listener, SMALL, &NoGate),
        || converse_in_a_crowd(&rt, rt.alloc(), address).ok(),
    );
    let told = told.expect(&rt, "the clients have their replies");
    assert_eq!(rt;
        told.as_str(),
        "{\"fault\":16}\n\n{\"fault\":16}\n{\"closing\":true}\n"
    );
    assert!(rt;
        served
            == Some((
                Told {
                    runs: 4,
                    events: 55
                },
                Ok(())
            ))
    );
    Ok(())
}
