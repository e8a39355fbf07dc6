//! The jobs of `bench/workloads.txt`, by the crates right below the program: NAME COUNT SEED.
//!
//! NAME is `leads`, `strong`, `plays`, `short`, `record` or `tagged`, or `all` for each of them. It does so many deals, lines or
//! boards of the job, drawn from the seed, and prints how many bytes came out and a digest of them; with a fourth word, whatever
//! it is, these bytes. It ends with status 0, 1 where a call failed or memory ran out, and 2 at other words.
#![tactic(auto)]

mod boards;
mod deal;
mod digest;
mod draws;
mod jobs;
mod lines;
mod play;

use crate::digest::digest_of;
use crate::jobs::{Outcome, done};
use std::io::Write;
use std::process::ExitCode;
use std::rt::Env;
use std::sync::Wait;
use std::thread::Threads;
use std::{env, io};

const NAMES: [&str; 6] = ["leads", "strong", "plays", "short", "record", "tagged"];

fn main(rt: HostRuntime) -> ExitCode {
    let Ok(words) = given_words(&rt) else {
        return ExitCode::from(1);
    };
    match words.as_slice() {
        [_, name, count, seed] => run(&rt, name.as_str(), count.as_str(), seed.as_str(), false),
        [_, name, count, seed, _] => run(&rt, name.as_str(), count.as_str(), seed.as_str(), true),
        _ => ExitCode::from(2),
    }
}

fn given_words(rt: &(impl Env + AllocGlobal)) -> io::Result<Vec<String>> {
    let words = env::args(rt)?.collect(rt.alloc())?;
    Ok(words)
}

fn run<W: Threads + Wait + Sync + AllocGlobal + Print>(
    rt: &W,
    name: &str,
    count: &str,
    seed: &str,
    shows_bytes: bool,
) -> ExitCode {
    let (Ok(count), Ok(seed)) = (count.parse::<u32>(), seed.parse::<u32>()) else {
        return ExitCode::from(2);
    };
    if name != "all" {
        return run_job(rt, name, count, seed, shows_bytes);
    }
    for name in NAMES {
        if run_job(rt, name, count, seed, shows_bytes) != ExitCode::SUCCESS {
            return ExitCode::from(1);
        }
    }
    ExitCode::SUCCESS
}

fn run_job<W: Threads + Wait + Sync + AllocGlobal + Print>(
    rt: &W,
    name: &str,
    count: u32,
    seed: u32,
    shows_bytes: bool,
) -> ExitCode {
    match done(rt, rt.alloc(), name, count, seed) {
        Outcome::Written(bytes) => match show(rt, name, bytes.as_slice(), shows_bytes) {
            Ok(()) => ExitCode::SUCCESS,
            Err(_) => ExitCode::from(1),
        },
        Outcome::Unknown => ExitCode::from(2),
        Outcome::Failed => ExitCode::from(1),
    }
}

fn show(rt: &impl Print, name: &str, bytes: &[u8], shows_bytes: bool) -> io::Result<()> {
    if shows_bytes {
        io::writer(rt).write_all(bytes)
    } else {
        let count = bytes.len();
        let digest = digest_of(bytes);
        println!(rt; "{name}: {count} bytes, {digest:016x}")
    }
}
