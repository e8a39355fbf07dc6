//! The arguments that the program is started with.
ghost use Rattle.std.specs.Prelude.{◌≡◌, ◌⊎◌, ◌≤◌, IfOk, IfErr, Some, codes, map, string_bytes};
ghost use Rattle.clap.specs.Words.{app_of, fault_of, found_of, kind_of, new_app, rows_of, HasKind};
ghost use Rattle.dd_command.specs.CommandLine.{Asks, HasDefaults, IsInRange, IsSame};
ghost use Rattle.dd_command.specs.FillWords.{limit_up_to, AsksToFillBy};
ghost use Rattle.dd_command.specs.Program.{allow_stop_rule, budget_rule, entries_rule, events_rule, explain_rule, fill_app, idle_rule, line_workers_rule, listen_rule, program_app, serve_app, shard_entries_rule, shards_rule, solve_app, tags_rule, websocket_rule, workers_rule, number_of, HasNumbers, IsOption, IsSubcommand};
ghost use Rattle.dd_command.specs.ServeWords.{is_set, limit_in, number_in, AsksToServeBy, IsGiven};

use crate::examples::{fill_examples, program_examples, serve_examples, solve_examples};
use crate::help::{files, requests};
use crate::jobs_help::jobs;
use clap::builder::ValueParser;
use clap::error::ErrorKind;
use clap::{Arg, ArgAction, ArgMatches, Command, Error, value_parser};
use dd_limits::{MOST_EVENTS, MOST_SHAPES, MOST_SHARDS};
use std::alloc::{AllocError, Global};
use std::rt::Env;
use std::{env, io};

/// The most positions of a budget.
const MOST_POSITIONS: i64 = 1_000_000_000_000;

/// The budget of a job or of a part of one where none is given: full deals don't come near it.
const JOB_POSITIONS: u64 = 50_000_000;

/// The most seconds for which a connection without an open job may be silent, where there is a limit: a day.
pub const MOST_IDLE: u64 = 86_400;

/// The same where none is given.
const IDLE: u64 = 600;

/// The most workers.
pub const MOST_WORKERS: u32 = 64;

/// The least that the most events of a run may be.
pub const LEAST_EVENTS: u32 = 1_024;

/// The program's version, as `CHANGELOG.md` has it.
pub const VERSION: &str = "0.2.0";

/// What the program is asked to do.
#[derive(Debug, Drop, PartialEq, Eq)]
pub enum Args {
    /// Answers the request lines of the standard input.
    Solve {
        /// The most positions that the search may visit for each line, 0 to 1,000,000,000,000. `None` is no limit.
        budget: Option<u64>,
        /// The entries of each shard of the transposition table, 1 to `MOST_SHAPES`.
        entries: u32,
        /// The threads that search, 1 to 64. One has a table of one shard, more have one of 16.
        workers: u32,
        /// Replies tell ids again and say why a line has a fault.
        explain: bool,
    },
    /// Answers the connections of an address.
    Serve {
        /// The address as it was given.
        listen: String,
        /// The threads that search, 1 to 64.
        workers: u32,
        /// The shards of the transposition table, 1 to 256.
        shards: u32,
        /// The entries of each shard, 1 to `MOST_SHAPES`.
        entries: u32,
        /// The most positions that the search may visit for each job or part of one, 1 to 1,000,000,000,000. `None` is no
        /// limit.
        budget: Option<u64>,
        /// The most events of each run, 1,024 to 1,048,576.
        events: u32,
        /// For how many seconds a connection without an open job may be silent, 1 to 86,400. `None` is no limit.
        idle: Option<u64>,
        /// Each connection is a WebSocket.
        websocket: bool,
        /// A client may stop the program.
        allow_stop: bool,
        /// A line may have an id, which its reply tells again, and a fault has its field and words.
        explain: bool,
    },
    /// Passes a file of PBN on, with the results and par of its deals.
    Fill {
        /// The names of the tags that are added, with commas between them. All four where it is empty.
        tags: String,
        /// The most positions that the search may visit for each result, 0 to 1,000,000,000,000. `None` is no limit.
        budget: Option<u64>,
        /// The entries of each shard of the transposition table, 1 to `MOST_SHAPES`.
        entries: u32,
        /// The threads that search, 1 to 64. One has a table of one shard, more have one of 16.
        workers: u32,
    },
}

/// Why the arguments of the command line can't be had.
#[derive(Clone, Copy, Debug, PartialEq, Eq)]
pub enum ArgumentsFault {
    /// A word is not UTF-8 text.
    NotText,
    /// Memory ran out.
    OutOfMemory,
}

/// The arguments that the program was started with, its own name first.
pub fn given_arguments(rt: &(impl Env + AllocGlobal)) -> Result<Vec<String>, ArgumentsFault> {
    match env::args(rt) {
        Ok(arguments) => arguments
            .collect(rt.alloc())
            .map_err(|_| ArgumentsFault::OutOfMemory),
        Err(error) if error.kind() == io::ErrorKind::OutOfMemory => Err(
            ArgumentsFault::OutOfMemory,
        ),
        Err(_) => Err(ArgumentsFault::NotText),
    }
}

/// Reads a command line, of which the first word is the program's name.
///
/// The error is a bad line, a call for help or for the version, or lack of memory.
pub fn read_args(alloc: Global, arguments: &[String]) -> Result<Args, Error>
    ensures asked { IfOk result (Asks (map string_bytes arguments.now)) }
    // The line asks for nothing else.
    ensures only { IfOk result (λ args. (other : Args) → Asks (map string_bytes arguments.now) other
        → IsSame other args) }
    // A line that asks for something is refused for lack of memory alone.
    ensures refused { IfErr result (λ error. (kind_of error ≡ ErrorKind.OutOfMemory)
        ⊎ ((args : Args) → ¬ Asks (map string_bytes arguments.now) args)) }
    // An error is one that the arguments have.
    ensures kinds { IfErr result (HasKind (fault_of program_app (map string_bytes arguments.now))) }
    ensures in_range { IfOk result IsInRange }
    ensures defaults { IfOk result (HasDefaults (map string_bytes arguments.now)) }
{
    let matches = program(alloc)?.try_get_matches_from(arguments)?;
    let (name, options) = matches.subcommand().unwrap();
    match name {
        "solve" => Ok(solve_args(options)),
        "serve" => Ok(serve_args(alloc, options)?),
        "pbn" => Ok(fill_args(alloc, options)?),
        _ => unreachable!(),
    }
}

/// The error of a command line with a word that is no text.
pub fn not_text(alloc: Global) -> Error
    ensures { (kind_of result ≡ ErrorKind.InvalidValue) ⊎ (kind_of result ≡ ErrorKind.OutOfMemory) }
{
    match not_text_error(alloc) {
        Ok(error) => error,
        Err(error) => Error::from(error),
    }
}

fn not_text_error(alloc: Global) -> Result<Error, AllocError>
    ensures { IfOk result (λ error. kind_of error ≡ ErrorKind.InvalidValue) }
{
    program(alloc)?.error(
        ErrorKind::InvalidValue,
        "a word of the command line is not UTF-8 text",
    )
}

/// What the options of `solve` ask for.
fn solve_args(options: &ArgMatches) -> Args
    requires { HasNumbers (rows_of (found_of options.now)) }
    ensures { let rows = rows_of (found_of options.now) in
        (entries : _) × (workers : _) × (number_of (codes "entries") rows ≡ Some entries)
        × (number_of (codes "workers") rows ≡ Some workers)
        × (result ≡ Args.Solve (number_of (codes "budget") rows) entries workers
        (is_set (codes "explain") rows)) }
{
    Args::Solve {
        budget: options.get_one("budget"),
        entries: options.get_one("entries").unwrap(),
        workers: options.get_one("workers").unwrap(),
        explain: is_set(options, "explain"),
    }
}

/// The number that the option's text writes.
fn number_of(options: &ArgMatches, option: &str) -> Option<u32>
    ensures { IsGiven 32 option.now (rows_of (found_of options.now)) result }
{
    options.get_one(option)
}

/// The limit that the option's text writes.
fn limit_of(options: &ArgMatches, option: &str) -> Option<u64>
    ensures { IsGiven 64 option.now (rows_of (found_of options.now)) result }
{
    options.get_one(option)
}

/// Whether the flag was given.
fn is_set(options: &ArgMatches, flag: &str) -> bool
    ensures { result ≡ is_set flag.now (rows_of (found_of options.now)) }
{
    match options.get_str(flag) {
        Some(text) => text == "true",
        None => false,
    }
}

/// The number that was given, which the parser of arguments has held to its range, or the default.
fn number_in(given: Option<u32>, least: u32, most: u32, default: u32) -> u32
    ensures { result ≡ number_in least most default given }
{
    match given {
        Some(number) if least <= number && number <= most => number,
        _ => default,
    }
}

/// The limit that was given, which the parser of arguments has held to its range, or the default; 0 is for none.
fn limit_in(given: Option<u64>, most: u64, default: u64) -> Option<u64>
    ensures { result ≡ limit_in most default given }
{
    match given {
        Some(0) => None,
        Some(number) if number <= most => Some(number),
        _ => Some(default),
    }
}

/// What the options of `serve` ask for.
fn serve_args(alloc: Global, options: &ArgMatches) -> Result<Args, AllocError>
    ensures { IfOk result (AsksToServeBy (rows_of (found_of options.now))) }
{
    let explain = is_set(options, "explain");
    Ok(Args::Serve {
        listen: String::from_str(alloc, options.get_str("listen").unwrap_or(""))?,
        workers: number_in(number_of(options, "workers"), 1, MOST_WORKERS, 4),
        shards: number_in(number_of(options, "shards"), 1, MOST_SHARDS, 16),
        entries: number_in(number_of(options, "entries"), 1, MOST_SHAPES, 4_096),
        budget: limit_in(
            limit_of(options, "budget"),
            MOST_POSITIONS as u64,
            JOB_POSITIONS,
        ),
        events: number_in(
            number_of(options, "events"),
            LEAST_EVENTS,
            MOST_EVENTS as u32,
            MOST_EVENTS as u32,
        ),
        idle: limit_in(limit_of(options, "idle"), MOST_IDLE, IDLE),
        websocket: is_set(options, "websocket"),
        allow_stop: is_set(options, "allow-stop"),
        explain,
    })
}

/// What the options of `pbn` ask for.
fn fill_args(alloc: Global, options: &ArgMatches) -> Result<Args, AllocError>
    ensures { IfOk result (AsksToFillBy (rows_of (found_of options.now))) }
{
    Ok(Args::Fill {
        tags: String::from_str(alloc, options.get_str("tags").unwrap_or(""))?,
        budget: limit_up_to(limit_of(options, "budget"), MOST_POSITIONS as u64),
        entries: number_in(number_of(options, "entries"), 1, MOST_SHAPES, 4_096),
        workers: number_in(number_of(options, "workers"), 1, MOST_WORKERS, 1),
    })
}

/// The limit that was given, which the parser of arguments has held to its range.
fn limit_up_to(given: Option<u64>, most: u64) -> Option<u64>
    ensures { result ≡ limit_up_to most given }
{
    match given {
        Some(number) if number <= most => given,
        _ => None,
    }
}

fn program<'a>(alloc: Global) -> Result<Command<'a>, AllocError>
    ensures { IfOk result (λ command. app_of command ≡ program_app) }
{
    Command::new(alloc, "ddserve")
        .before_help(program_examples())
        .about("Solves bridge deals double dummy: what each card wins with all hands seen")
        .version(VERSION)
        .after_help("'ddserve solve --help' says what a request and a reply are.")
        .subcommand_required(true)
        .subcommand(solve_command(alloc)?)?
        .subcommand(serve_command(alloc)?)?
        .subcommand(fill_command(alloc)?)
}

fn solve_command<'a>(alloc: Global) -> Result<Command<'a>, AllocError>
    ensures { IfOk result (λ command. IsSubcommand command solve_app.top) }
{
    Command::new(alloc, "solve")
        .before_help(solve_examples())
        .about("Answers the request lines of the standard input, a reply line each")
        .after_help(requests())
        .arg(budget_option(alloc))?
        .arg(entries_option(alloc))?
        .arg(line_workers_option(alloc))?
        .arg(explain_flag(alloc))
}

fn serve_command<'a>(alloc: Global) -> Result<Command<'a>, AllocError>
    ensures { IfOk result (λ command. IsSubcommand command serve_app.top) }
{
    bare_serve(alloc)
        .arg(listen_option(alloc))?
        .arg(workers_option(alloc))?
        .arg(shards_option(alloc))?
        .arg(shard_entries_option(alloc))?
        .arg(job_budget_option(alloc))?
        .arg(events_option(alloc))?
        .arg(idle_option(alloc))?
        .arg(websocket_flag(alloc))?
        .arg(allow_stop_flag(alloc))?
        .arg(explain_flag(alloc))
}

// The subcommand before it has options.
fn bare_serve<'a>(alloc: Global) -> Command<'a>
    ensures app { app_of result ≡ new_app (codes "serve") }
    ensures top { IsSubcommand result (new_app (codes "serve")).top }
{
    Command::new(alloc, "serve")
        .before_help(serve_examples())
        .about("Answers many clients over TCP or WebSocket, with threads that search")
        .after_help(jobs())
}

fn fill_command<'a>(alloc: Global) -> Result<Command<'a>, AllocError>
    ensures { IfOk result (λ command. IsSubcommand command fill_app.top) }
{
    Command::new(alloc, "pbn")
        .before_help(fill_examples())
        .about("Passes a file of PBN on with the twenty results and par of its deals")
        .after_help(files())
        .arg(tags_option(alloc))?
        .arg(result_budget_option(alloc))?
        .arg(file_entries_option(alloc))?
        .arg(file_workers_option(alloc))
}

fn budget_option<'a>(alloc: Global) -> Arg<'a>
    ensures { IsOption result budget_rule }
{
    Arg::new(alloc, "budget")
        .long("budget")
        .value_name("N")
        .value_parser(value_parser!(u64).range(0..=MOST_POSITIONS))
        .help("The most positions to visit for each line,\n0 to 1000000000000 [default: no limit]")
}

fn entries_option<'a>(alloc: Global) -> Arg<'a>
    ensures { IsOption result entries_rule }
{
    Arg::new(alloc, "entries")
        .long("entries")
        .value_name("N")
        .value_parser(value_parser!(u32).range(1..=MOST_SHAPES as i64))
        .default_value("4096")
        .help("The entries of the transposition table,\n1 to 65536")
}

fn line_workers_option<'a>(alloc: Global) -> Arg<'a>
    ensures { IsOption result line_workers_rule }
{
    Arg::new(alloc, "workers")
        .long("workers")
        .value_name("N")
        .value_parser(value_parser!(u32).range(1..=MOST_WORKERS as i64))
        .default_value("1")
        .help("The threads that search, 1 to 64; more than one\nshare a table of 16 shards")
}

fn explain_flag<'a>(alloc: Global) -> Arg<'a>
    ensures { IsOption result explain_rule }
{
    Arg::new(alloc, "explain")
        .long("explain")
        .action(ArgAction::SetTrue)
        .help(
            "A line may have an id, which its reply tells again,\nand a fault has its field and words",
        )
}

fn listen_option<'a>(alloc: Global) -> Arg<'a>
    ensures { IsOption result listen_rule }
{
    Arg::new(alloc, "listen")
        .long("listen")
        .value_name("ADDR")
        .required(true)
        .help("The address to listen at, as 127.0.0.1:4100;\nport 0 picks a free one")
}

fn workers_option<'a>(alloc: Global) -> Arg<'a>
    ensures { IsOption result workers_rule }
{
    Arg::new(alloc, "workers")
        .long("workers")
        .value_name("N")
        .value_parser(value_parser!(u32).range(1..=MOST_WORKERS as i64))
        .help("The threads that search, 1 to 64 [default: 4]")
}

fn shards_option<'a>(alloc: Global) -> Arg<'a>
    ensures { IsOption result shards_rule }
{
    Arg::new(alloc, "shards")
        .long("shards")
        .value_name("N")
        .value_parser(value_parser!(u32).range(1..=MOST_SHARDS as i64))
        .help("The shards of the transposition table,\n1 to 256 [default: 16]")
}

fn shard_entries_option<'a>(alloc: Global) -> Arg<'a>
    ensures { IsOption result shard_entries_rule }
{
    let most = MOST_SHAPES as i64;
    Arg::new(alloc, "entries")
        .long("entries")
        .value_name("N")
        .value_parser(value_parser!(u32).range(1..=most))
        .help("The entries of each shard, 1 to 65536 [default: 4096]")
}

fn job_budget_option<'a>(alloc: Global) -> Arg<'a>
    ensures { IsOption result budget_rule }
{
    Arg::new(alloc, "budget")
        .long("budget")
        .value_name("N")
        .value_parser(value_parser!(u64).range(0..=MOST_POSITIONS))
        .help(
            "The most positions for each job and each of a table's\ntwenty results, 0 to 1000000000000, 0 for no limit\n[default: 50000000]",
        )
}

fn events_option<'a>(alloc: Global) -> Arg<'a>
    ensures { IsOption result events_rule }
{
    Arg::new(alloc, "events")
        .long("events")
        .value_name("N")
        .value_parser(value_parser!(u32).range(LEAST_EVENTS as i64..=MOST_EVENTS as i64))
        .help("The most events of a run, 1024 to 1048576; the next\nrun follows [default: 1048576]")
}

fn idle_option<'a>(alloc: Global) -> Arg<'a>
    ensures { IsOption result idle_rule }
{
    Arg::new(alloc, "idle")
        .long("idle")
        .value_name("SECONDS")
        .value_parser(value_parser!(u64).range(0..=MOST_IDLE as i64))
        .help(
            "How long a connection without an open job may be\nsilent, 0 to 86400, 0 for no limit [default: 600]",
        )
}

fn websocket_flag<'a>(alloc: Global) -> Arg<'a>
    ensures { IsOption result websocket_rule }
{
    Arg::new(alloc, "websocket")
        .long("websocket")
        .action(ArgAction::SetTrue)
        .help("Each connection is a WebSocket: a message is a line")
}

fn allow_stop_flag<'a>(alloc: Global) -> Arg<'a>
    ensures { IsOption result allow_stop_rule }
{
    Arg::new(alloc, "allow-stop")
        .long("allow-stop")
        .action(ArgAction::SetTrue)
        .help("Clients may stop the program")
}

fn tags_option<'a>(alloc: Global) -> Arg<'a>
    ensures { IsOption result tags_rule }
{
    Arg::new(alloc, "tags")
        .long("tags")
        .value_name("NAME,..")
        .value_parser(ValueParser::NonEmptyString)
        .help(
            "The tags to add, of DoubleDummyTricks, OptimumScore,\nParContract and OptimumResultTable [default: all four]",
        )
}

fn result_budget_option<'a>(alloc: Global) -> Arg<'a>
    ensures { IsOption result budget_rule }
{
    Arg::new(alloc, "budget")
        .long("budget")
        .value_name("N")
        .value_parser(value_parser!(u64).range(0..=MOST_POSITIONS))
        .help(
            "The most positions to visit for each of a deal's\ntwenty results, 0 to 1000000000000 [default: no limit]",
        )
}

fn file_entries_option<'a>(alloc: Global) -> Arg<'a>
    ensures { IsOption result shard_entries_rule }
{
    let most = MOST_SHAPES as i64;
    Arg::new(alloc, "entries")
        .long("entries")
        .value_name("N")
        .value_parser(value_parser!(u32).range(1..=most))
        .help("The entries of the transposition table,\n1 to 65536 [default: 4096]")
}

fn file_workers_option<'a>(alloc: Global) -> Arg<'a>
    ensures { IsOption result workers_rule }
{
    Arg::new(alloc, "workers")
        .long("workers")
        .value_name("N")
        .value_parser(value_parser!(u32).range(1..=MOST_WORKERS as i64))
        .help(
            "The threads that search, 1 to 64; more than one\nshare a table of 16 shards [default: 1]",
        )
}
