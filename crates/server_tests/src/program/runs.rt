use crate::program::devices::{Devices, Outcome, SOUND, run_line, run_over};
use dd_command::{ArgumentsFault, VERSION, given_arguments};
use dd_streams::{Ending, ListenFault};
use std::alloc::{AllocError, Global};
use std::env::FillError;
use std::net::{Net, TcpListener, TcpStream};
use std::rt::Env;
use std::sync::Wait;
use std::test::Fail;
use std::thread::Threads;
use std::time::Clock;

// Lines and replies are what functions answer, so that the proof of a test meets a value and no text.

fn ace() -> &'static str {
    "{\"do\":\"solve\",\"deal\":\"N:A... K... Q... J...\",\"trump\":4,\"first\":0,\"solutions\":3}\n"
}

fn ace_reply() -> &'static str {
    "{\"cards\":[{\"equals\":0,\"rank\":14,\"score\":1,\"suit\":0}]}\n"
}

// The last card of a trick: the search visits one position.
fn last_card() -> &'static str {
    "{\"do\":\"solve\",\"deal\":\"N:A... ... ... ...\",\"trump\":4,\"first\":1,\"played\":[[0,13],[0,12],[0,11]],\"solutions\":3}\n"
}

fn spent_reply() -> &'static str {
    "{\"state\":\"spent\"}\n"
}

fn good_and_bad() -> &'static str {
    "\
{\"do\":\"solve\",\"deal\":\"N:A... K... Q... J...\",\"trump\":4,\"first\":0,\"solutions\":3}
{\"do\":\"solve\",\"deal\":\"N:A... K... Q... J...\",\"trump\":5,\"first\":0,\"solutions\":3}
{\"do\":\"solve\",\"deal\":\"N:A... K... Q... J...\",\"trump\":4,\"first\":0,\"solutions\":3}"
}

fn good_and_bad_replies() -> &'static str {
    "\
{\"cards\":[{\"equals\":0,\"rank\":14,\"score\":1,\"suit\":0}]}
{\"fault\":9}
{\"cards\":[{\"equals\":0,\"rank\":14,\"score\":1,\"suit\":0}]}
"
}

// Was all of the input answered so, and nothing said on the standard error?
fn has_answered(outcome: &Outcome, replies: &str) -> bool {
    outcome.ending == Ending::Answered
        && outcome.ending.status() == 0
        && outcome.output.as_slice() == replies.as_bytes()
        && outcome.errors.is_empty()
        && outcome.unread == 0
}

#[test]
fn the_lines_of_the_input_are_answered_within_the_budget(rt: HostRuntime) -> Result<(), Fail> {
    let rows = [
        ("ddserve solve", ace(), ace_reply()),
        ("ddserve solve --entries 1", ace(), ace_reply()),
        ("ddserve solve", "", ""),
        ("ddserve solve", good_and_bad(), good_and_bad_replies()),
        ("ddserve solve --budget 0", last_card(), spent_reply()),
        ("ddserve solve --budget 1", last_card(), ace_reply()),
    ];
    for (line, input, want) in rows {
        let outcome = run_line(&rt, rt.alloc(), line, input, SOUND)?;
        assert!(rt; has_answered(&outcome, want), "{line}");
    }
    Ok(())
}

#[test]
fn a_call_is_shown_on_the_output_and_ends_with_0(rt: HostRuntime) -> Result<(), Fail> {
    let version = format!(in rt.alloc(); "ddserve {VERSION}\n")?;
    let rows = [
        ("ddserve --help", "Usage: ddserve <COMMAND>"),
        ("ddserve help", "Usage: ddserve <COMMAND>"),
        ("ddserve help solve", "Usage: ddserve solve [OPTIONS]"),
        ("ddserve solve --help", "Usage: ddserve solve [OPTIONS]"),
        (
            "ddserve serve --help",
            "18  the server is closing and takes no more jobs",
        ),
        ("ddserve pbn --help", "Usage: ddserve pbn [OPTIONS]"),
        ("ddserve --version", version.as_str()),
        ("ddserve -V", version.as_str()),
    ];
    for (line, part) in rows {
        let outcome = run_line(&rt, rt.alloc(), line, ace(), SOUND)?;
        assert!(rt; has_shown(&outcome, part), "{line}");
    }
    Ok(())
}

// Does the text stand in the bytes?
fn has_part(bytes: &[u8], part: &str) -> bool {
    match str::from_utf8(bytes) {
        Ok(text) => text.contains(part),
        Err(_) => false,
    }
}

// Was a text with this part shown, and no input read?
fn has_shown(outcome: &Outcome, part: &str) -> bool {
    outcome.ending == Ending::Shown
        && outcome.ending.status() == 0
        && has_part(&outcome.output, part)
        && outcome.errors.is_empty()
        && outcome.unread == ace().len()
}

// A bad line ends with status 2, whether the standard error takes its text or not.
fn is_refused(outcome: &Outcome, said: &str) -> bool {
    outcome.ending == Ending::BadLine
        && outcome.ending.status() == 2
        && outcome.output.is_empty()
        && outcome.unread == ace().len()
        && has_part(&outcome.errors, said)
}

// Did the run end so, with status 1, once this was written and said?
fn has_failed(outcome: &Outcome, ending: Ending, written: &str, said: &str) -> bool {
    outcome.ending == ending
        && outcome.ending.status() == 1
        && outcome.output.as_slice() == written.as_bytes()
        && outcome.errors.as_slice() == said.as_bytes()
}

#[test]
fn a_bad_line_is_explained_on_the_standard_error_and_ends_with_2(
    rt: HostRuntime,
) -> Result<(), Fail> {
    let rows = [
        ("ddserve resolve", "unrecognized subcommand 'resolve'"),
        ("ddserve solve --entries 0", "0 is not in 1..=65536"),
        ("ddserve solve --limit 5", "unexpected argument '--limit'"),
        ("ddserve solve lines.jsonl", "as in: ddserve solve < FILE\n"),
        ("ddserve pbn deals.pbn", "as in: ddserve pbn < FILE\n"),
        (
            "ddserve pbn --tags Deal",
            "--tags takes DoubleDummyTricks, ",
        ),
        ("ddserve pbn --workers 65", "65 is not in 1..=64"),
        ("ddserve", "requires a subcommand"),
    ];
    let closed = Devices { errors: 0, ..SOUND };
    for (line, said) in rows {
        let outcome = run_line(&rt, rt.alloc(), line, ace(), SOUND)?;
        assert!(rt; is_refused(&outcome, said), "{line}");
        let outcome = run_line(&rt, rt.alloc(), line, ace(), closed)?;
        assert!(rt; is_refused(&outcome, ""), "{line}");
    }
    Ok(())
}

#[test]
fn a_device_that_fails_is_named_and_the_run_ends_with_1(rt: HostRuntime) -> Result<(), Fail> {
    let no_read = Devices { calls: 0, ..SOUND };
    let one_read = Devices { calls: 1, ..SOUND };
    let short = Devices { output: 5, ..SOUND };
    let rows = [
        (
            "ddserve solve",
            no_read,
            Ending::ReadFailed,
            "",
            "ddserve: read failed\n",
        ),
        (
            "ddserve solve",
            one_read,
            Ending::ReadFailed,
            ace_reply(),
            "ddserve: read failed\n",
        ),
        (
            "ddserve solve",
            short,
            Ending::WriteFailed,
            "{\"car",
            "ddserve: write failed\n",
        ),
        (
            "ddserve --version",
            short,
            Ending::WriteFailed,
            "ddser",
            "ddserve: write failed\n",
        ),
    ];
    for (line, devices, ending, written, said) in rows {
        let outcome = run_line(&rt, rt.alloc(), line, ace(), devices)?;
        assert!(rt; has_failed(&outcome, ending, written, said), "{line}");
        let closed = Devices {
            errors: 0,
            ..devices
        };
        let outcome = run_line(&rt, rt.alloc(), line, ace(), closed)?;
        assert!(rt; has_failed(&outcome, ending, written, ""), "{line}");
    }
    Ok(())
}

#[test]
fn an_address_that_cannot_be_listened_at_is_said_why(rt: HostRuntime) -> Result<(), Fail> {
    let alloc = rt.alloc();
    let listener = TcpListener::bind(&rt, "127.0.0.1:0")?;
    let address = listener.local_addr()?;
    let taken = format!(in alloc; "ddserve serve --listen {address}")?;
    let rows = [
        (
            taken.as_str(),
            ListenFault::InUse,
            "ddserve: listen failed: the address is in use\n",
        ),
        (
            "ddserve serve --listen nowhere",
            ListenFault::NoAddress,
            "ddserve: listen failed: that is no address; give one as 127.0.0.1:4100 or [::1]:4100\n",
        ),
        (
            "ddserve serve --listen 192.0.2.1:0",
            ListenFault::Elsewhere,
            "ddserve: listen failed: the address is not one of this machine's\n",
        ),
    ];
    for (line, fault, said) in rows {
        let outcome = run_line(&rt, alloc, line, ace(), SOUND)?;
        let failed = has_failed(&outcome, Ending::CannotListen(fault), "", said);
        assert!(rt; failed && outcome.unread == ace().len(), "{line}");
    }
    Ok(())
}

#[test]
fn words_that_cannot_be_had_are_a_bad_line_or_out_of_memory(rt: HostRuntime) {
    let outcome = run_over(&rt, rt.alloc(), Err(ArgumentsFault::NotText), ace(), SOUND);
    assert!(rt; is_refused(&outcome, "a word of the command line is not UTF-8 text"));
    let outcome = run_over(
        &rt,
        rt.alloc(),
        Err(ArgumentsFault::OutOfMemory),
        ace(),
        SOUND,
    );
    let said = "ddserve: out of memory\n";
    assert!(rt; has_failed(&outcome, Ending::OutOfMemory, "", said));
    assert_eq!(rt; outcome.unread, ace().len());
}

// An environment with these words.
#[derive(Drop)]
struct Started<'a> {
    words: &'a [&'a [u8]],
}

impl Env for Started<'_> {
    fn arg(&self, i: usize, buf: &mut [u8]) -> Result<usize, FillError> {
        let word = self.words.get(i).ok_or(FillError::NotPresent)?;
        let place = buf.get_mut(..word.len()).ok_or(FillError::TooLong)?;
        place.copy_from_slice(word);
        Ok(word.len())
    }

    fn var(&self, _name: &str, _buf: &mut [u8]) -> Result<usize, FillError> {
        Err(FillError::NotPresent)
    }

    fn var_at(&self, _i: usize, _buf: &mut [u8]) -> Result<usize, FillError> {
        Err(FillError::NotPresent)
    }
}

// What the words of such an environment are read as.
fn read_words(alloc: Global, words: &[&[u8]]) -> Result<Vec<String>, ArgumentsFault> {
    given_arguments(&(Started { words }, alloc))
}

#[test]
fn the_words_are_those_of_the_environment(rt: HostRuntime) {
    let read = read_words(rt.alloc(), &[b"ddserve", b"solve", b"--budget", b"", b"7"]);
    let words = read.ok().expect(&rt, "words");
    assert_eq!(rt; words.len(), 5);
    for (word, want) in words.iter().zip("ddserve solve --budget  7".split(' ')) {
        assert_eq!(rt; word.as_str(), want);
    }
    let read = read_words(rt.alloc(), &[b"ddserve", b"\xff"]);
    assert_eq!(rt; read.err(), Some(ArgumentsFault::NotText));
}

// A position of three classes, of which two are best.
fn three_classes() -> &'static str {
    "{\"do\":\"solve\",\"deal\":\"N:A2.K.. K3.A.. Q4.Q.. J5.J..\",\"trump\":4,\"first\":0,\"solutions\":3}\n"
}

// Another, whose value no quick trick tells, asked for the first of the best and for all.
fn first_of_all() -> &'static str {
    "{\"do\":\"solve\",\"deal\":\"N:.64.J7. AJT..2. 2.5..T5 .7.K.74\",\"trump\":0,\"first\":0,\"solutions\":1}\n"
}

// The same with other low hearts, asked for all: what is known of the one holds, but the two aren't alike.
fn all() -> &'static str {
    "{\"do\":\"solve\",\"deal\":\"N:.65.J7. AJT..2. 2.4..T5 .7.K.74\",\"trump\":0,\"first\":0,\"solutions\":3}\n"
}

// Two tricks for the highest cards: of another shape, and answered within the budgets that those need.
fn ace_and_king() -> &'static str {
    "{\"do\":\"solve\",\"deal\":\"N:AK... QJ... T9... 87...\",\"trump\":4,\"first\":0,\"solutions\":3}\n"
}

// The least budget, below 100, with which the last of these lines is answered.
fn least_budget<
    W: Threads + Wait + Clock + Eprint + Net<Listener = TcpListener, Stream = TcpStream> + Sync,
>(rt: &W, alloc: Global, entries: u32, lines: &str) -> Result<Option<u32>, AllocError> {
    for budget in 0u32..100 {
        let line = format!(in alloc; "ddserve solve --entries {entries} --budget {budget}")?;
        let outcome = run_line(rt, alloc, line.as_str(), lines, SOUND)?;
        if !outcome.output.ends_with(spent_reply().as_bytes()) {
            return Ok(Some(budget));
        }
    }
    Ok(None)
}

#[test]
fn a_line_that_comes_again_needs_fewer_positions(rt: HostRuntime) -> Result<(), Fail> {
    let alloc = rt.alloc();
    let line = three_classes();
    let twice = format!(in alloc; "{line}{line}")?;
    let first = least_budget(&rt, alloc, 2, line)?.ok_or("a budget")?;
    let second = least_budget(&rt, alloc, 2, twice.as_str())?.ok_or("a budget")?;
    assert!(rt; second < first);
    Ok(())
}

#[test]
fn a_table_of_one_entry_forgets_the_shape_before(rt: HostRuntime) -> Result<(), Fail> {
    let alloc = rt.alloc();
    let (first, other, last) = (first_of_all(), ace_and_king(), all());
    let lines = format!(in alloc; "{first}{other}{last}")?;
    let one = least_budget(&rt, alloc, 1, lines.as_str())?.ok_or("a budget")?;
    let two = least_budget(&rt, alloc, 2, lines.as_str())?.ok_or("a budget")?;
    assert!(rt; two < one);
    Ok(())
}
