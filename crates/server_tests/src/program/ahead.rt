//! Lines that several threads answer.
use crate::program::devices::{Devices, Outcome, SOUND, run_line};
use dd_streams::Ending;
use std::alloc::AllocError;
use std::net::{Net, TcpListener, TcpStream};
use std::sync::Wait;
use std::test::Fail;
use std::thread::Threads;
use std::time::Clock;

// Recorded positions with the replies by DDS 2.9, two bad lines among them; the last line has no line feed.

fn recorded() -> &'static str {
    "\
{\"do\":\"solve\",\"deal\":\"W:5..J72. .K.K.AQ KT..T.T J2.52..\",\"trump\":4,\"first\":3,\"played\":[],\"solutions\":3}
{\"do\":\"solve\",\"deal\":\"W:T.KT.Q.9 J.J.T9.T KQ..K.QJ 9.Q9.J.K\",\"trump\":3,\"first\":1,\"solutions\":1}
{\"do\":\"solve\",\"deal\":\"E:97.7..KQ ..T52.95 T.A3.K.4 K.KJ.6.\",\"trump\":4,\"first\":0,\"played\":[[1,9]],\"solutions\":1}
{}
{\"do\":\"solve\",\"deal\":\"S:6..J.72 AT..75. Q9..K32. 83..A.Q3\",\"trump\":3,\"first\":2,\"played\":[[2,9],[2,4]],\"solutions\":1}
{\"do\":\"solve\",\"deal\":\"N:.A..7 84... ..9.K K5..A.\",\"trump\":4,\"first\":0,\"played\":[[3,8],[3,4],[3,10]],\"solutions\":3}

{\"do\":\"solve\",\"deal\":\"W:T.432.. 98.A6.. 32.Q9.. AJ654...\",\"trump\":1,\"first\":3,\"played\":[[1,10],[1,11],[1,13]],\"solutions\":2}
{\"do\":\"solve\",\"deal\":\"S:AT.T.4. KQ9.K.. J.2.J.6 .Q.QT.3\",\"trump\":0,\"first\":0,\"solutions\":3}
{\"do\":\"solve\",\"deal\":\"W:5.A7.Q7. T.KT.8. 2.95.K5. ..A2.J73\",\"trump\":3,\"first\":0,\"played\":[[3,8]],\"solutions\":3}"
}

fn recorded_replies() -> &'static str {
    "\
{\"cards\":[{\"equals\":0,\"rank\":5,\"score\":1,\"suit\":0},{\"equals\":0,\"rank\":11,\"score\":0,\"suit\":2},{\"equals\":4,\"rank\":7,\"score\":0,\"suit\":2}]}
{\"cards\":[{\"equals\":4096,\"rank\":13,\"score\":4,\"suit\":0}]}
{\"cards\":[{\"equals\":0,\"rank\":7,\"score\":4,\"suit\":1}]}
{\"fault\":3}
{\"cards\":[{\"equals\":0,\"rank\":13,\"score\":1,\"suit\":2}]}
{\"cards\":[{\"equals\":0,\"rank\":13,\"score\":1,\"suit\":0},{\"equals\":0,\"rank\":5,\"score\":1,\"suit\":0},{\"equals\":0,\"rank\":14,\"score\":0,\"suit\":2}]}
{\"fault\":1}
{\"cards\":[{\"equals\":2048,\"rank\":14,\"score\":2,\"suit\":0},{\"equals\":48,\"rank\":6,\"score\":2,\"suit\":0}]}
{\"cards\":[{\"equals\":0,\"rank\":11,\"score\":1,\"suit\":0},{\"equals\":0,\"rank\":2,\"score\":1,\"suit\":1},{\"equals\":0,\"rank\":11,\"score\":1,\"suit\":2},{\"equals\":0,\"rank\":6,\"score\":1,\"suit\":3}]}
{\"cards\":[{\"equals\":0,\"rank\":2,\"score\":0,\"suit\":0},{\"equals\":0,\"rank\":9,\"score\":0,\"suit\":1},{\"equals\":0,\"rank\":5,\"score\":0,\"suit\":1},{\"equals\":0,\"rank\":13,\"score\":0,\"suit\":2},{\"equals\":0,\"rank\":5,\"score\":0,\"suit\":2}]}
"
}

// Was all of the input answered so?
fn has_answered(outcome: &Outcome, replies: &str) -> bool {
    outcome.ending == Ending::Answered
        && outcome.output.as_slice() == replies.as_bytes()
        && outcome.errors.is_empty()
        && outcome.unread == 0
}

#[test]
fn several_threads_write_the_bytes_of_one(rt: HostRuntime) -> Result<(), Fail> {
    let lines = [
        "ddserve solve",
        "ddserve solve --workers 1",
        "ddserve solve --workers 2",
        "ddserve solve --workers=4 --entries 1",
    ];
    for line in lines {
        let outcome = run_line(&rt, rt.alloc(), line, recorded(), SOUND)?;
        assert!(rt; has_answered(&outcome, recorded_replies()), "{line}");
        let outcome = run_line(&rt, rt.alloc(), line, "", SOUND)?;
        assert!(rt; has_answered(&outcome, ""), "{line}");
    }
    Ok(())
}

// Was what was written a beginning of the replies, as much as the output took, and was that said?
fn has_failed_to_write(outcome: &Outcome, room: usize) -> bool {
    outcome.ending == Ending::WriteFailed
        && outcome.output.len() == room
        && recorded_replies().as_bytes().starts_with(&outcome.output)
        && outcome.errors.as_slice() == "ddserve: write failed\n".as_bytes()
}

#[test]
fn an_output_that_fails_ends_the_run_of_several_threads(rt: HostRuntime) -> Result<(), Fail> {
    for room in [0usize, 1, 134, 135, 136, 137, 700] {
        let short = Devices {
            output: room,
            ..SOUND
        };
        let outcome = run_line(
            &rt,
            rt.alloc(),
            "ddserve solve --workers 3",
            recorded(),
            short,
        )?;
        assert!(rt; has_failed_to_write(&outcome, room), "{room}");
    }
    Ok(())
}

#[test]
fn an_input_that_fails_ends_the_run_of_several_threads(rt: HostRuntime) -> Result<(), Fail> {
    for calls in 0usize..2 {
        let devices = Devices { calls, ..SOUND };
        let outcome = run_line(
            &rt,
            rt.alloc(),
            "ddserve solve --workers 2",
            recorded(),
            devices,
        )?;
        assert!(rt; outcome.ending == Ending::ReadFailed);
        assert!(rt; outcome.output.is_empty() == (calls == 0));
    }
    Ok(())
}

#[test]
fn several_threads_keep_to_the_budget(rt: HostRuntime) -> Result<(), Fail> {
    let position =
        "{\"do\":\"solve\",\"deal\":\"N:A... ... ... ...\",\"trump\":4,\"first\":1,\"played\":[[0,13],[0,12],[0,11]],\"solutions\":3}\n";
    let lines = format!(in rt.alloc(); "{position}{position}{position}")?;
    let spent = "{\"state\":\"spent\"}\n{\"state\":\"spent\"}\n{\"state\":\"spent\"}\n";
    let outcome = run_line(
        &rt,
        rt.alloc(),
        "ddserve solve --workers 3 --budget 0",
        lines.as_str(),
        SOUND,
    )?;
    assert!(rt; has_answered(&outcome, spent));
    Ok(())
}
