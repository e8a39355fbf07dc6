//! One connection.
ghost use Rattle.std.specs.Prelude.{◌≡◌, IfSome, OnErr, OnOk, false};
ghost use Rattle.dd_server.specs.Callers.{IsClients};
ghost use Rattle.dd_session.specs.Leaving.{ThenLeaves};
ghost use Rattle.dd_session.specs.Ports.{AsksNoStop, port_of};
ghost use Rattle.dd_session.specs.Served.{ServesAll, ServesBeginning};
ghost use Rattle.dd_session.specs.Sockets.{ServesMessages};

use crate::opening::LineStream;
use crate::parting::part;
use crate::reply_stream::{CALL_WAIT, ReplyStream};
use crate::run_port::RunPort;
use crate::run_state::RunState;
use crate::session_stream::SessionStream;
use crate::socket_stream::SocketStream;
use crate::terms::RunNaming;
use dd_desk::{BlankPass, DeskFault, Pass};
use dd_lines::{CountedDevice, LineFault, write_whole};
use dd_session::{BookPort, serve_lines, serve_socket, write_refusal};
use dd_work::Gate;
use std::cell::Cell;
use std::io::{Read, Write};
use std::net::TcpStream;
use std::sync::Wait;
use std::time::{Clock, Duration};

/// Serves a connection to its end, by a pass of its own, which it has once it needs one. Where there is no memory for one the
/// client is told so, unless it is to shake hands first.
pub(crate) fn serve_connection<J: RunNaming, R: Wait + Clock + Eprint, G: Gate>(
    rt: &R,
    state: &RunState<'_, J>,
    stream: &TcpStream,
    gate: &G,
) {
    // Without these it is served too.
    let _ = stream.set_nodelay(true);
    let _ = stream.set_write_timeout(Some(Duration::from_secs(CALL_WAIT)));
    match state.blank_pass(rt) {
        Ok(blank) => match serve_session(rt, state, stream, blank, gate) {
            Some(pass) => state.take_back(rt, pass),
            None => {
                state.note_not_silent();
                state.expect_one_less(rt)
            }
        },
        Err(_) => {
            state.note_not_silent();
            refuse(state, stream)
        }
    }
}

// The session of a pass, which comes back, if there is one by then.
fn serve_session<J: RunNaming, R: Wait + Clock + Eprint, G: Gate>(
    rt: &R,
    state: &RunState<'_, J>,
    stream: &TcpStream,
    blank: BlankPass,
    gate: &G,
) -> Option<Pass<J>>
    ensures { IfSome result (IsClients J.limits J.terms) }
{
    let caller = Cell::new(None);
    let mut port = RunPort::new(rt, state, blank, &caller, gate);
    serve_port(rt, state, stream, &caller, &mut port);
    port.into_pass()
}

// The session over the port of a caller, whose number is told here once it has a pass, as the run was asked for: by lines or by
// messages, with leave to stop or without, explained or not.
fn serve_port<J: RunNaming, R: Wait + Clock, P: BookPort>(
    rt: &R,
    state: &RunState<'_, J>,
    stream: &TcpStream,
    caller: &Cell<Option<u64>>,
    port: &mut P,
)
    // Whatever came, the port was asked for just what some lines want that were answered in the manner that was asked for, and left.
    ensures asked { ThenLeaves (λ between. ServesMessages J.terms.manner
        (port_of (P.told port.old) (P.refusals port.old)) between)
        (P.saw port.new) (port_of (P.told port.new) (P.refusals port.new)) }
    ensures leave { J.terms.manner.allow_stop ≡ false
        → AsksNoStop (P.told port.old) (P.told port.new) }
{
    let alloc = state.server.alloc;
    let manner = state.terms.manner;
    if state.server.args.websocket {
        let socket = SocketStream::new(rt, state, stream, caller);
        let end = serve_socket(alloc, socket, port, manner);
        part(rt, stream, &state.stop, end);
    } else {
        let session = SessionStream::new(rt, state, stream, caller);
        // Without a limit it is served too.
        let _ = session.limit_reads();
        let mut reader = CountedDevice::new(LineStream::new(session));
        let mut writer = CountedDevice::new(ReplyStream::new(rt, stream, &state.stop));
        let _ = serve_streams(state, &mut reader, &mut writer, port);
    }
}

// The session over lines, whatever streams they come and go by: each reply is in the manner that the run was asked for, explained or
// not.
fn serve_streams<J: RunNaming, S: Read, W: Write, P: BookPort>(
    state: &RunState<'_, J>,
    reader: &mut CountedDevice<S>,
    writer: &mut CountedDevice<W>,
    port: &mut P,
) -> Result<(), LineFault>
    ensures ok { OnOk result (ThenLeaves
        (λ between. ServesAll S.remaining W.contents J.terms.manner
        (port_of (P.told port.old) (P.refusals port.old)) between
        reader.old reader.new writer.old writer.new)
        (P.saw port.new) (port_of (P.told port.new) (P.refusals port.new))) }
    ensures err { OnErr result (ThenLeaves
        (λ between. ServesBeginning S.remaining W.contents J.terms.manner
        (port_of (P.told port.old) (P.refusals port.old)) between
        reader.old reader.new writer.old writer.new)
        (P.saw port.new) (port_of (P.told port.new) (P.refusals port.new))) }
    ensures asked { ThenLeaves (λ between. ServesMessages J.terms.manner
        (port_of (P.told port.old) (P.refusals port.old)) between)
        (P.saw port.new) (port_of (P.told port.new) (P.refusals port.new)) }
    ensures leave { J.terms.manner.allow_stop ≡ false
        → AsksNoStop (P.told port.old) (P.told port.new) }
{
    serve_lines(state.server.alloc, reader, writer, port, state.terms.manner)
}

// The one line of a connection for whose pass there is no memory.
fn refuse<J: RunNaming>(state: &RunState<'_, J>, stream: &TcpStream) {
    if !state.server.args.websocket {
        let mut line = write_refusal(DeskFault::OutOfMemory, state.terms.manner.explain);
        line.push_str("\n");
        let _ = write_whole(&mut CountedDevice::new(stream), line.as_bytes());
    }
}
