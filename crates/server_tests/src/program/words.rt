use crate::program::devices::words_in;
use clap::Error;
use clap::error::ErrorKind;
use dd_command::{Args, not_text, read_args};
use std::alloc::Global;
use std::test::Fail;

/// Reads the words of a line.
fn read(alloc: Global, line: &str) -> Result<Args, Error> {
    read_args(alloc, words_in(alloc, line)?.as_slice())
}

/// Whether the line asks to solve with this budget and these entries.
fn asks(alloc: Global, line: &str, budget: Option<u64>, entries: u32) -> bool {
    match read(alloc, line) {
        Ok(args) => {
            args == Args::Solve {
                budget,
                entries,
                workers: 1,
                explain: false,
            }
        }
        Err(_) => false,
    }
}

/// Whether the line asks to solve by so many threads, with this budget and these entries.
fn asks_for(alloc: Global, line: &str, budget: Option<u64>, entries: u32, workers: u32) -> bool {
    match read(alloc, line) {
        Ok(args) => {
            args == Args::Solve {
                budget,
                entries,
                workers,
                explain: false,
            }
        }
        Err(_) => false,
    }
}

#[test]
fn the_options_of_solve_stand_in_any_order(rt: HostRuntime) {
    let alloc = rt.alloc();
    for line in [
        "x solve --budget 5 --entries 7 --workers 3",
        "x solve --budget 5 --workers 3 --entries 7 --",
        "x solve --entries=7 --budget 5 --workers=3",
        "x solve --entries 7 --workers 3 --budget=5",
        "x solve --workers 3 --budget 5 --entries 7",
        "x solve --workers=3 --entries=7 --budget=5 --",
    ] {
        assert!(rt; asks_for(alloc, line, Some(5), 7, 3), "{line}");
    }
    assert!(rt; asks_for(alloc, "x solve --workers 64", None, 4_096, 64));
    assert!(rt; asks_for(alloc, "x solve --workers +1 --budget 0", Some(0), 4_096, 1));
}

#[test]
fn each_option_has_the_number_that_follows_it(rt: HostRuntime) {
    let alloc = rt.alloc();
    let most = 1_000_000_000_000;
    let found = [
        asks(alloc, "ddserve solve --budget 5 --entries 7", Some(5), 7),
        asks(alloc, "ddserve solve --entries=7 --budget=5", Some(5), 7),
        asks(
            alloc,
            "x solve --budget 1000000000000 --entries 65536 --",
            Some(most),
            65_536,
        ),
        asks(alloc, "x solve --entries 1 --budget +0", Some(0), 1),
    ];
    assert_eq!(rt; found, [true; 4]);
}

#[test]
fn an_option_that_is_left_out_has_its_default(rt: HostRuntime) {
    let alloc = rt.alloc();
    let found = [
        asks(alloc, "ddserve solve", None, 4_096),
        asks(alloc, "ddserve solve --entries 7", None, 7),
        asks(alloc, "ddserve solve --budget 5", Some(5), 4_096),
    ];
    assert_eq!(rt; found, [true; 3]);
}

#[test]
fn a_line_of_serve_has_its_options_and_the_defaults_of_the_others(rt: HostRuntime) {
    let line = "ddserve serve --listen 127.0.0.1:0 --workers 2 --allow-stop";
    let found = match read(rt.alloc(), line) {
        Ok(
            Args::Serve {
                listen,
                workers: 2,
                shards: 16,
                entries: 4_096,
                budget: Some(50_000_000),
                events: 1_048_576,
                idle: Some(600),
                websocket: false,
                allow_stop: true,
                explain: false,
            },
        ) => listen.as_str() == "127.0.0.1:0",
        _ => false,
    };
    assert!(rt; found);
}

// Whether a server is to explain, by the options of this line. `None` stands for a line that is none.
fn explains(alloc: Global, options: &str) -> Result<Option<bool>, Fail> {
    let line = format!(in alloc; "ddserve serve --listen a {options}")?;
    match read(alloc, line.as_str()) {
        Ok(Args::Serve { explain, .. }) => Ok(Some(explain)),
        _ => Ok(None),
    }
}

#[test]
fn a_server_explains_where_the_flag_is_given(rt: HostRuntime) -> Result<(), Fail> {
    for (options, explain) in [
        ("--allow-stop", Some(false)),
        ("--explain", Some(true)),
        ("--explain --allow-stop", Some(true)),
        ("--websocket --workers 2", Some(false)),
        ("--explain=1", None),
    ] {
        let found = explains(rt.alloc(), options)?;
        assert_eq!(rt; found, explain, "at {options}");
    }
    Ok(())
}

#[test]
fn the_events_of_a_run_are_those_that_were_asked_for(rt: HostRuntime) {
    let line = "ddserve serve --listen 127.0.0.1:0 --events 1024";
    let found = match read(rt.alloc(), line) {
        Ok(Args::Serve { events, .. }) => events,
        _ => 0,
    };
    assert_eq!(rt; found, 1_024);
}

// For how many seconds a client may be silent, by the options of this line. 7 stands for a line that is none.
fn idle_of(alloc: Global, options: &str) -> Result<Option<u64>, Fail> {
    let line = format!(in alloc; "ddserve serve --listen a {options}")?;
    match read(alloc, line.as_str()) {
        Ok(Args::Serve { idle, .. }) => Ok(idle),
        _ => Ok(Some(7)),
    }
}

#[test]
fn a_client_may_be_silent_as_long_as_was_asked_for(rt: HostRuntime) -> Result<(), Fail> {
    for (options, idle) in [
        ("--idle 1", Some(1)),
        ("--idle=86400", Some(86_400)),
        ("--idle 0", None),
        ("--workers 2", Some(600)),
        ("--idle 86401", Some(7)),
        ("--idle 2s", Some(7)),
    ] {
        let found = idle_of(rt.alloc(), options)?;
        assert_eq!(rt; found, idle, "{options}");
    }
    Ok(())
}

// Does each of these lines, one a row, have an error of this kind, which ends with this status?
fn end_with(alloc: Global, lines: &str, kind: ErrorKind, status: i32) -> bool {
    for line in lines.split('\n') {
        let Err(error) = read(alloc, line) else {
            return false;
        };
        if error.kind() != kind || error.exit_code() != status {
            return false;
        }
        if error.use_stderr() != (status == 2) {
            return false;
        }
    }
    true
}

#[test]
fn a_bad_line_ends_with_status_2(rt: HostRuntime) {
    let rows = [
        ("ddserve", ErrorKind::MissingSubcommand),
        ("ddserve resolve", ErrorKind::InvalidSubcommand),
        (
            "ddserve --budget 5 solve\n\
            ddserve solve 5\n\
            ddserve solve --limit 5\n\
            ddserve solve --budget -1",
            ErrorKind::UnknownArgument,
        ),
        ("ddserve solve --budget", ErrorKind::InvalidValue),
        (
            "ddserve solve --budget x\n\
            ddserve solve --budget 1000000000001\n\
            ddserve solve --entries 0\n\
            ddserve solve --entries 65537\n\
            ddserve solve --entries 4294967297\n\
            ddserve solve --workers 0\n\
            ddserve solve --workers 65\n\
            ddserve serve --listen a --events 1023\n\
            ddserve serve --listen a --events 1048577\n\
            ddserve serve --listen a --idle 86401",
            ErrorKind::ValueValidation,
        ),
        (
            "ddserve solve --entries 7 --entries 7\n\
            ddserve solve --workers 2 --entries 7 --workers 2",
            ErrorKind::ArgumentConflict,
        ),
    ];
    for (lines, kind) in rows {
        assert!(rt; end_with(rt.alloc(), lines, kind, 2), "{lines}");
    }
    assert_eq!(rt; not_text(rt.alloc()).kind(), ErrorKind::InvalidValue);
}

#[test]
fn help_ends_with_status_0(rt: HostRuntime) {
    let lines = "ddserve --help\n\
        ddserve -h\n\
        ddserve help\n\
        ddserve help solve\n\
        ddserve solve -h\n\
        ddserve solve --budget 5 --help";
    assert!(rt; end_with(rt.alloc(), lines, ErrorKind::DisplayHelp, 0));
}

// A line that shows one of JSON stays whole.
#[test]
fn help_begins_with_examples_and_is_eighty_columns_wide(rt: HostRuntime) -> Result<(), Fail> {
    for line in [
        "ddserve --help",
        "ddserve solve --help",
        "ddserve serve --help",
        "ddserve pbn --help",
    ] {
        let help = read(rt.alloc(), line)
            .err()
            .ok_or("an error")?
            .to_string(rt.alloc())?;
        assert!(rt; help.starts_with("Examples:\n  ddserve "), "{line}");
        for text in help.lines() {
            assert!(rt; text.len() <= 80 || text.starts_with("  {"), "{text}");
        }
    }
    Ok(())
}

#[test]
fn the_texts_say_what_is_asked_and_what_is_wrong(rt: HostRuntime) -> Result<(), Fail> {
    let help = read(rt.alloc(), "ddserve solve --help")
        .err()
        .ok_or("an error")?
        .to_string(rt.alloc())?;
    for part in [
        "Usage: ddserve solve [OPTIONS]",
        "0 to 1000000000000 [default: no limit]",
        "1 to 65536 [default: 4096]",
        "share a table of 16 shards [default: 1]",
        "{\"do\":\"solve\",\"deal\":\"N:",
    ] {
        assert!(rt; help.contains(part), "{part}");
    }
    let error = read(rt.alloc(), "ddserve solve --entries 0")
        .err()
        .ok_or("an error")?
        .to_string(rt.alloc())?;
    assert_eq!(rt;
        error.as_str(),
        "error: invalid value '0' for '--entries <N>': 0 is not in 1..=65536\n\nFor more information, try '--help'.\n"
    );
    Ok(())
}
