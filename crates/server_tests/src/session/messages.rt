//! What follows a message.
use crate::session::words::{plain, plainly};
use dd_session::Session;
use std::alloc::{AllocError, Global};
use std::test::Fail;
use tungstenite::{Bytes, Message};

// What follows a message, in a word.
fn follows(alloc: Global, message: &Message) -> Result<String, AllocError> {
    match Session::new(alloc, plainly(true)).on_message(message) {
        Some(step) => plain(alloc, &step),
        None => String::from_str(alloc, "nothing"),
    }
}

#[test]
fn a_text_or_a_binary_message_is_a_line(rt: HostRuntime) -> Result<(), Fail> {
    let stop = Message::text(rt.alloc(), r#"{"do":"stop"}"#)?;
    let fetch = Message::binary(rt.alloc(), br#"{"do":"fetch","job":3}"#)?;
    let empty = Message::text(rt.alloc(), "")?;
    let long = Message::binary(rt.alloc(), &[b' '; 4_097])?;
    for (message, step) in [
        (&stop, "stop"),
        (&fetch, "fetch 3"),
        (&empty, r#"{"fault":1}"#),
        (&long, r#"{"fault":2}"#),
    ] {
        let follows = follows(rt.alloc(), message)?;
        assert_eq!(rt; follows.as_str(), step);
    }
    Ok(())
}

#[test]
fn other_messages_are_no_lines(rt: HostRuntime) -> Result<(), Fail> {
    let bytes = Bytes::copy_from_slice(rt.alloc(), br#"{"do":"stop"}"#)?;
    let ping = follows(rt.alloc(), &Message::Ping(bytes.clone()?))?;
    let pong = follows(rt.alloc(), &Message::Pong(bytes))?;
    let close = follows(rt.alloc(), &Message::Close(None))?;
    assert_eq!(rt;
        (ping.as_str(), pong.as_str(), close.as_str()),
        ("nothing", "nothing", "nothing")
    );
    Ok(())
}
