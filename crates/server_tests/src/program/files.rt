//! Files of PBN: what comes out, what is said of their games, and how the run ends.
use crate::program::devices::{Devices, Outcome, SOUND, run_line};
use dd_streams::Ending;
use std::test::Fail;

// A game with a suit in each hand, and one without a deal.
fn games() -> &'static str {
    r#"[Board "1"]
[Deal "N:AKQJT98765432... .AKQJT98765432.. ..AKQJT98765432. ...AKQJT98765432"]
[Board "2"]
"#
}

// The first of them, with its tricks.
fn first_filled() -> &'static str {
    r#"[Board "1"]
[Deal "N:AKQJT98765432... .AKQJT98765432.. ..AKQJT98765432. ...AKQJT98765432"]
[DoubleDummyTricks "0d0d00d0d000d0d00d0d"]
"#
}

fn filled() -> &'static str {
    r#"[Board "1"]
[Deal "N:AKQJT98765432... .AKQJT98765432.. ..AKQJT98765432. ...AKQJT98765432"]
[DoubleDummyTricks "0d0d00d0d000d0d00d0d"]
[Board "2"]
"#
}

// What is said of them where all is found, and where nothing may be searched for.
fn note() -> &'static str {
    "ddserve: game 2 (board 2): no deal\n"
}

fn spent() -> &'static str {
    "ddserve: game 1 (board 1): spent\nddserve: game 2 (board 2): no deal\n"
}

fn no_game() -> &'static str {
    "ddserve: no game was found: the input has no tag of PBN\n"
}

// Did all of the input pass, so, and was this said?
fn has_filled(outcome: &Outcome, file: &str, said: &str) -> bool {
    outcome.ending == Ending::Filled
        && outcome.ending.status() == 0
        && outcome.output.as_slice() == file.as_bytes()
        && outcome.errors.as_slice() == said.as_bytes()
        && outcome.unread == 0
}

// Did the run end so, with status 1, once this beginning of the file was written?
fn has_failed(outcome: &Outcome, ending: Ending, file: &str, said: &str) -> bool {
    outcome.ending == ending
        && outcome.ending.status() == 1
        && file.as_bytes().starts_with(outcome.output.as_slice())
        && outcome.errors.as_slice() == said.as_bytes()
}

// A search for a result of the first game visits one position.
#[test]
fn a_file_gets_its_tricks_within_the_budget_and_its_games_are_noted(
    rt: HostRuntime,
) -> Result<(), Fail> {
    let rows = [
        (
            "ddserve pbn --tags DoubleDummyTricks",
            games(),
            filled(),
            note(),
        ),
        (
            "ddserve pbn --tags DoubleDummyTricks --workers 2",
            games(),
            filled(),
            note(),
        ),
        (
            "ddserve pbn --tags DoubleDummyTricks --budget 0",
            games(),
            games(),
            spent(),
        ),
        (
            "ddserve pbn --tags DoubleDummyTricks --budget 1",
            games(),
            filled(),
            note(),
        ),
        ("ddserve pbn", "", "", no_game()),
    ];
    for (line, file, want, said) in rows {
        let outcome = run_line(&rt, rt.alloc(), line, file, SOUND)?;
        assert!(rt; has_filled(&outcome, want, said), "{line}");
        let closed = Devices { errors: 0, ..SOUND };
        let outcome = run_line(&rt, rt.alloc(), line, file, closed)?;
        assert!(rt; has_filled(&outcome, want, ""), "{line}");
    }
    Ok(())
}

#[test]
fn a_device_that_fails_while_a_file_passes_is_named(rt: HostRuntime) -> Result<(), Fail> {
    let line = "ddserve pbn --tags DoubleDummyTricks";
    let no_read = Devices { calls: 0, ..SOUND };
    let one_read = Devices { calls: 1, ..SOUND };
    let short = Devices { output: 5, ..SOUND };
    let rows = [
        (no_read, Ending::ReadFailed, "ddserve: read failed\n"),
        (one_read, Ending::ReadFailed, "ddserve: read failed\n"),
        (short, Ending::WriteFailed, "ddserve: write failed\n"),
    ];
    for (devices, ending, said) in rows {
        let outcome = run_line(&rt, rt.alloc(), line, first_filled(), devices)?;
        assert!(rt;
            has_failed(&outcome, ending, first_filled(), said),
            "{said}"
        );
        let closed = Devices {
            errors: 0,
            ..devices
        };
        let outcome = run_line(&rt, rt.alloc(), line, first_filled(), closed)?;
        assert!(rt; has_failed(&outcome, ending, first_filled(), ""), "{said}");
    }
    Ok(())
}
