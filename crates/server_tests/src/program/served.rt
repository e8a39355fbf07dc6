//! The program as a server of two clients of the same process.
use crate::program::devices::words_in;
use crate::server::client::{Client, Way};
use crate::server::serving::{RunEvents, Told};
use dd_lines::CountedDevice;
use dd_program::run_program;
use dd_streams::Ending;
use std::alloc::{AllocError, Global};
use std::io::Write;
use std::net::{Net, SocketAddr, TcpListener, TcpStream};
use std::sync::{Mutex, Wait};
use std::test::Fail;
use std::thread::Threads;
use std::time::{Clock, Duration};
use std::{io, thread};

// The most turns, of about a millisecond, that the address is waited for.
const TURNS: u32 = 60_000;

// Three cards are on the trick, and the ace is left: the search visits one position.
const LAST_CARD: &str =
    r#"{"do":"solve","deal":"N:A... ... ... ...","trump":4,"first":1,"solutions":3,"played":[[0,13],[0,12],[0,11]]}"#;

// No search for it ends at its first position.
const TWO_CARDS: &str =
    r#"{"do":"solve","deal":"N:32... K4... AQ... 65...","trump":4,"first":0,"solutions":3}"#;

const FETCH: &str = r#"{"do":"fetch","job":1}"#;

// What the program writes, which its clients read while it runs.
#[derive(Drop)]
struct Shared<'a, R> {
    rt: &'a R,
    text: &'a Mutex<Vec<u8>>,
}

impl<'a, R: Wait> Write for Shared<'a, R> {
    fn write(&mut self, buf: &[u8]) -> io::Result<usize> {
        self.text.lock(self.rt).extend_from_slice(buf)?;
        Ok(buf.len())
    }

    fn flush(&mut self) -> io::Result<()> {
        Ok(())
    }
}

// The program over the words of a line, with an empty input, and what who watches is told. All that it writes is put into one text.
fn run<W: Threads + Wait + Clock + Eprint + Net<Listener = TcpListener, Stream = TcpStream> + Sync>(
    rt: &W,
    alloc: Global,
    line: &str,
    text: &Mutex<Vec<u8>>,
) -> Result<(Ending, Told), AllocError> {
    let words = words_in(alloc, line)?;
    let mut reader = CountedDevice::new(io::empty());
    let mut output = CountedDevice::new(Shared { rt, text });
    let mut errors = CountedDevice::new(Shared { rt, text });
    let mut told = Told { runs: 0, events: 0 };
    let ending = run_program::<_, _, _, _, RunEvents, Told>(
        rt,
        alloc,
        Ok(words),
        &mut reader,
        &mut output,
        &mut errors,
        false,
        &mut told,
    );
    Ok((ending, told))
}

// The address in the line that tells it.
fn address_in(text: &[u8]) -> Option<SocketAddr> {
    let line = str::from_utf8(text).ok()?;
    let address = line.strip_prefix("listening on ")?.strip_suffix("\n")?;
    address.parse().ok()
}

// The address that the program tells.
fn told_address<R: Wait + Clock>(rt: &R, text: &Mutex<Vec<u8>>) -> Option<SocketAddr> {
    for _ in 0..TURNS {
        let address = address_in(text.lock(rt).as_slice());
        if address.is_some() {
            return address;
        }
        thread::sleep(rt, Duration::from_millis(1));
    }
    None
}

// What the clients were told, and how often the job was fetched until it had ended.
#[derive(Drop)]
struct Talk {
    address: SocketAddr,
    replies: String,
    fetches: u32,
}

// One client asks for a job and for its end, another meanwhile for the same job; the first stops the program.
fn converse<R: Wait + Clock + Net<Stream = TcpStream>>(
    rt: &R,
    alloc: Global,
    way: Way,
    request: &str,
    text: &Mutex<Vec<u8>>,
) -> io::Result<Option<Talk>> {
    let Some(address) = told_address(rt, text) else {
        return Ok(None);
    };
    let streams = (
        TcpStream::connect(rt, address)?,
        TcpStream::connect(rt, address)?,
    );
    let mut first = Client::new(alloc, way, &streams.0)?;
    let mut second = Client::new(alloc, way, &streams.1)?;
    let submitted = first.ask(request)?;
    let fetched = first.fetch(FETCH)?;
    let refused = second.ask(FETCH)?;
    let stopped = first.ask(r#"{"do":"stop"}"#)?;
    let (submitted, state) = (submitted.as_str(), fetched.reply.as_str());
    let (refused, stopped) = (refused.as_str(), stopped.as_str());
    Ok(Some(Talk {
        address,
        replies: format!(in alloc; "{submitted}\n{state}\n{refused}\n{stopped}\n")?,
        fetches: fetched.fetches,
    }))
}

// How many events there are: beside the fetches of the job a submit, its claim and its finish, the other client's fetch, the shut, and
// the last claim of each worker.
fn events_of(talk: &Talk, workers: u32) -> u64 {
    u64::from(talk.fetches) + 5 + u64::from(workers)
}

// Did the program tell its address and then how many events there are, and nothing else?
fn has_told(alloc: Global, text: &[u8], talk: &Talk, events: u64) -> Result<bool, AllocError> {
    let address = talk.address;
    let told = format!(in alloc; "listening on {address}\nclosed after {events} events\n")?;
    Ok(told.as_str().as_bytes() == text)
}

// A run of this line: what its clients were told, where the program ended well and told what it had to, also to who watches.
fn serve_line<
    W: Threads + Wait + Clock + Eprint + Net<Listener = TcpListener, Stream = TcpStream> + Sync,
>(
    rt: &W,
    alloc: Global,
    line: &str,
    way: Way,
    request: &str,
    workers: u32,
) -> Result<Option<String>, AllocError> {
    let text = Mutex::new(Vec::new(alloc));
    let (ended, talk) = thread::join(
        rt,
        || run(rt, alloc, line, &text),
        || converse(rt, alloc, way, request, &text).ok(),
    );
    let Some(Some(talk)) = talk else {
        return Ok(None);
    };
    let text = text.into_inner();
    let events = events_of(&talk, workers);
    let watched = Told { runs: 1, events };
    let has_ended = ended == Ok((Ending::Closed, watched))
        && talk.address.ip().is_loopback()
        && has_told(alloc, text.as_slice(), &talk, events)?;
    Ok(has_ended.then_some(talk.replies))
}

// The replies, where the job has this state.
fn replies(alloc: Global, state: &str) -> Result<String, AllocError> {
    format!(in alloc; "{{\"job\":1}}\n{{{state}}}\n{{\"fault\":16}}\n{{\"closing\":true}}\n")
}

#[test]
fn clients_are_served_as_the_words_ask(rt: HostRuntime) -> Result<(), Fail> {
    let alloc = rt.alloc();
    let last =
        "\"cards\":[{\"equals\":0,\"rank\":14,\"score\":1,\"suit\":0}],\"job\":1,\"state\":\"done\"";
    let two =
        "\"cards\":[{\"equals\":4,\"rank\":3,\"score\":2,\"suit\":0}],\"job\":1,\"state\":\"done\"";
    let rows = [
        (
            "ddserve serve --listen 127.0.0.1:0 --workers 2 --budget 1 --allow-stop",
            Way::Lines,
            TWO_CARDS,
            2,
            "\"job\":1,\"state\":\"spent\"",
        ),
        (
            "ddserve serve --listen 127.0.0.1:0 --workers 1 --budget 1 --shards 2 --entries 16 --websocket --allow-stop",
            Way::Messages,
            LAST_CARD,
            1,
            last,
        ),
        (
            "ddserve serve --listen 127.0.0.1:0 --budget 0 --allow-stop",
            Way::Lines,
            TWO_CARDS,
            4,
            two,
        ),
    ];
    for (line, way, request, workers, state) in rows {
        let told = serve_line(&rt, alloc, line, way, request, workers)?;
        let told = told.expect(&rt, "clients that were served");
        assert_eq!(rt; told.as_str(), replies(alloc, state)?.as_str());
    }
    Ok(())
}
