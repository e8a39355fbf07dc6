//! What all runs of a server share.
ghost use Rattle.std.specs.Prelude.{◌≡◌, IfOk};
ghost use Rattle.dd_server.specs.ServeArgs.{HasTableSize};

use crate::args::{ServeArgs, ServeFault};
use crate::stop::Stop;
use dd_book::Limits;
use dd_table::SharedTable;
use std::alloc::Global;
use std::net::TcpListener;
use std::sync::atomic::AtomicBool;

/// What all runs of a server share.
#[derive(Drop)]
pub(crate) struct ServerState {
    pub(crate) alloc: Global,
    pub(crate) args: ServeArgs,
    // Those of each run.
    pub(crate) limits: Limits,
    pub(crate) listener: TcpListener,
    pub(crate) table: SharedTable,
    pub(crate) stop: Stop,
    // It was said that memory is short.
    pub(crate) told_short: AtomicBool,
    // A worker left since memory stays out.
    pub(crate) lacks_memory: AtomicBool,
}

impl ServerState {
    /// Works as it is asked to.
    pub(crate) fn new(
        alloc: Global,
        listener: TcpListener,
        limits: Limits,
        args: ServeArgs,
    ) -> Result<ServerState, ServeFault>
        requires table { HasTableSize args }
        ensures args { IfOk result (λ state. state.args ≡ args) }
        ensures limits { IfOk result (λ state. state.limits ≡ limits) }
    {
        let Ok(stop) = Stop::new(&listener) else {
            return Err(ServeFault::Listen);
        };
        let Ok(table) = SharedTable::new(alloc, args.shards, args.entries) else {
            return Err(ServeFault::OutOfMemory);
        };
        Ok(ServerState {
            alloc,
            args,
            limits,
            listener,
            table,
            stop,
            told_short: AtomicBool::new(false),
            lacks_memory: AtomicBool::new(false),
        })
    }
}
