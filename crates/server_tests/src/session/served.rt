//! Sessions at a desk of their own, over lines and over a WebSocket.
ghost use Rattle.std.specs.Prelude.{◌≡◌, map};
ghost use Rattle.once_cell.specs.Once.{cell_name};

use dd_book::Limits;
use dd_desk::{Desk, Naming, Row};
use dd_lines::{CountedDevice, LineFault};
use dd_session::{BookPort, DeskPort, Manner, SocketEnd, serve_lines, serve_socket};
use request_tests::devices::{Pieces, Taker};
use std::alloc::Global;
use std::marker::Brand;
use std::sync::Wait;
use std::sync::atomic::AtomicBool;
use std::time::Clock;
use tungstenite::Duplex;

/// How the bytes of a session come and go.
#[derive(Clone, Copy, Debug, PartialEq, Eq)]
pub enum Way {
    /// As lines.
    Lines,
    /// As a WebSocket.
    Socket,
}

/// What a client sends, in pieces of at most `most` bytes, and what its connection bears: so many reads, and so many
/// bytes written. The desk has memory for so many events.
#[derive(Drop)]
pub struct Client {
    pub way: Way,
    pub sent: Vec<u8>,
    pub most: usize,
    pub reads: usize,
    pub room: usize,
    pub events: u64,
    pub allow_stop: bool,
    pub explain: bool,
}

/// How a session ended.
#[derive(Clone, Copy, Debug, PartialEq, Eq)]
pub enum End {
    Lines(Result<(), LineFault>),
    Socket(SocketEnd),
}

/// How a session ended, what it wrote, and how many events the closed journal has.
#[derive(Drop)]
pub struct Served {
    pub end: End,
    pub written: Vec<u8>,
    pub events: usize,
}

/// A session over this port.
pub fn serve_port<P: BookPort>(alloc: Global, client: &Client, port: &mut P) -> (End, Vec<u8>) {
    let pieces = Pieces {
        bytes: &client.sent,
        most: client.most,
        calls: client.reads,
    };
    let mut taker = Taker {
        taken: Vec::new(alloc),
        most: usize::MAX,
        room: client.room,
    };
    let manner = Manner {
        allow_stop: client.allow_stop,
        explain: client.explain,
    };
    let end = match client.way {
        Way::Lines => {
            let mut reader = CountedDevice::new(pieces);
            let mut writer = CountedDevice::new(&mut taker);
            End::Lines(serve_lines(alloc, &mut reader, &mut writer, port, manner))
        }
        Way::Socket => {
            let stream = Duplex {
                reader: pieces,
                writer: &mut taker,
            };
            End::Socket(serve_socket(alloc, stream, port, manner))
        }
    };
    (end, taker.taken)
}

// A session at the desk of this row, which is closed when it has ended.
fn serve_row<J: Naming, R: Wait + Clock>(
    rt: &R,
    alloc: Global,
    row: Row,
    client: &Client,
) -> Option<Served>
    requires cells { (map cell_name row.cells.items ≡ J.cells) × (J.all ≡ J.parts) }
    requires limits { row.limits ≡ J.limits }
    requires count { (row.count.name ≡ J.counts) × (row.count.parts ≡ J.parts) }
    requires sum { (row.sum.name ≡ J.places) × (row.sum.parts ≡ J.parts) }
{
    let desk = Desk::<J>::new(row);
    let pass = desk.enrol(rt).ok()?;
    let stop = AtomicBool::new(false);
    let mut port = DeskPort::new(rt, &desk, pass, 4, &stop);
    let (end, written) = serve_port(alloc, client, &mut port);
    let mut passes = Vec::new(alloc);
    passes.push(port.into_pass()).ok()?;
    let closed = desk.close(passes).ok()?;
    Some(Served {
        end,
        written,
        events: closed.journal().len(),
    })
}

/// A session at a desk of its own; `None` where there is no memory for it.
pub fn serve<R: Wait + Clock>(rt: &R, alloc: Global, client: &Client) -> Option<Served> {
    let limits = Limits::new(64, 1_000, 1, client.events)?;
    let row = Row::new(alloc, limits).ok()?;
    serve_row::<Brand, R>(rt, alloc, row, client)
}
