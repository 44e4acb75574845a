//! What the words of a command line ask for.

ghost use Rattle.std.specs.Prelude.{◌≡◌, ◌≢◌, ℕ, List, map, IfOk, IfErr, string_bytes, Some, None, codes, unwrap_or};
ghost use Rattle.clap.specs.Words.{kind_of, found_of, rows_of};
ghost use Rattle.osb_cli.specs.Words.{AreTaken, HasNumber, found_by};
ghost use Rattle.osb_cli.specs.Inside.{Asks, one_text_of, option_texts_of};

use crate::grammar::osb_broker;
use crate::per_connection::PerConnection;
use clap::error::ErrorKind;
use clap::{ArgMatches, Error};
use osb_listen::ListenOptions;
use std::alloc::{AllocError, Global};
use std::time::Duration;

/// What is copied into one file.
#[derive(Clone, Copy, Debug)]
pub(crate) struct Backup<'a> {
    /// The path of the database file.
    pub(crate) database: &'a str,
    /// The path of the file that is made.
    pub(crate) to: &'a str,
}

/// What is checked.
#[derive(Clone, Copy, Debug)]
pub(crate) struct Check<'a> {
    /// The name of the settings file.
    pub(crate) settings: Option<&'a str>,
    /// Whether it is said where in the settings a fault is.
    pub(crate) explain: bool,
    /// The path of the database file.
    pub(crate) database: Option<&'a str>,
}

/// Where connections are taken, and how.
#[derive(Clone, Copy, Debug)]
pub(crate) struct Listen<'a> {
    /// The name of the settings file.
    pub(crate) settings: &'a str,
    pub(crate) place: ListenOptions<'a>,
    /// How many clients the words ask to have connected at the same time.
    pub(crate) wanted: Option<u32>,
    pub(crate) per_connection: PerConnection,
    /// Whether it is said why nothing is served.
    pub(crate) explain: bool,
}

/// Where an answer is waited for, and how long.
#[derive(Clone, Copy, Debug)]
pub(crate) struct Ready<'a> {
    /// An IP address and a port.
    pub(crate) address: &'a str,
    pub(crate) within: Duration,
    /// The number of the process whose end ends the wait.
    pub(crate) process: Option<u32>,
}

/// Which connections are replayed, and how.
#[derive(Debug, Drop)]
pub(crate) struct Replay<'a> {
    /// The name of the settings file; without it the built-in settings serve.
    pub(crate) settings: Option<&'a str>,
    pub(crate) per_connection: PerConnection,
    /// The names of the files, one for each connection. Without any it is standard input.
    pub(crate) connections: Vec<&'a str>,
}

/// What is trimmed.
#[derive(Clone, Copy, Debug)]
pub(crate) struct Trim<'a> {
    /// The path of the database file.
    pub(crate) database: &'a str,
}

/// What the words ask for.
#[derive(Debug, Drop)]
pub(crate) enum Job<'a> {
    /// Copy a database file and its log into one file.
    Backup(Backup<'a>),
    /// Check a settings file, a database file, or both.
    Check(Check<'a>),
    /// Wait until the program answers at an address.
    Ready(Ready<'a>),
    /// Serve connections whose bytes are all there.
    Replay(Replay<'a>),
    /// Serve TCP connections.
    Serve(Listen<'a>),
    /// Erase from a database file what no answer rests on.
    Trim(Trim<'a>),
}

/// The most connections that one run takes.
const MOST_CONNECTIONS: u32 = 1_000_000;

/// How many clients may be connected at the same time where nothing is asked for.
const TOGETHER: u32 = 1024;

/// How many seconds a request may take, or an answer is waited for, where nothing is asked for.
const SECONDS: u32 = 10;

/// How many seconds a client that was answered may send nothing, where nothing is asked for.
const IDLE_SECONDS: u32 = 60;

fn per_connection_of(found: &ArgMatches<'_>) -> PerConnection
    ensures { HasNumber 1000 1 (one_text_of (codes "per-connection") found.now) result.number }
{
    match found.get_one::<u32>("per-connection") {
        Some(number) => PerConnection::of(number).unwrap_or(PerConnection::ONE),
        None => PerConnection::ONE,
    }
}

fn connections_of(found: &ArgMatches<'_>) -> u32
    ensures { HasNumber 1000000 1000000 (one_text_of (codes "connections") found.now) result }
{
    found
        .get_one::<u32>("connections")
        .unwrap_or(MOST_CONNECTIONS)
}

/// The seconds of an option.
fn seconds_of(found: &ArgMatches<'_>, id: &str) -> u32
    ensures { HasNumber 86400 10 (one_text_of id.now found.now) result }
{
    found.get_one::<u32>(id).unwrap_or(SECONDS)
}

/// The number of a process.
fn process_of(found: &ArgMatches<'_>) -> Option<u32>
    ensures { HasNumber 4194304 0 (one_text_of (codes "pid") found.now) (unwrap_or result 0) }
{
    found.get_one::<u32>("pid")
}

fn idle_seconds_of(found: &ArgMatches<'_>) -> u32
    ensures { HasNumber 86400 60 (one_text_of (codes "idle-limit") found.now) result }
{
    found.get_one::<u32>("idle-limit").unwrap_or(IDLE_SECONDS)
}

fn together_of(found: &ArgMatches<'_>) -> u32
    ensures { HasNumber 1024 1024 (one_text_of (codes "together") found.now) result }
{
    found.get_one::<u32>("together").unwrap_or(TOGETHER)
}

/// The same, where the words say it.
fn wanted_of(found: &ArgMatches<'_>) -> Option<u32>
    ensures { HasNumber 1024 0 (one_text_of (codes "together") found.now) (unwrap_or result 0) }
{
    found.get_one::<u32>("together")
}

/// The files that the words after `replay` name.
fn files_of<'a>(alloc: Global, found: &ArgMatches<'a>) -> Result<Vec<&'a str>, AllocError>
    ensures { IfOk result (λ names.
        map (λ it. it.now) names.items ≡ option_texts_of (codes "connections") found.now) }
{
    let mut names = Vec::new(alloc);
    if let Some(words) = found.get_strs("connections") {
        names.extend_from_slice(words)?;
    }
    Ok(names)
}

/// The order to back up, as the words after `backup` say it.
fn backup_order<'a>(found: &ArgMatches<'a>) -> Job<'a>
    ensures { Asks (Some (codes "backup", rows_of (found_of found.now))) result }
{
    Job::Backup(Backup {
        database: found.get_str("database").unwrap_or(""),
        to: found.get_str("to").unwrap_or(""),
    })
}

/// The order to check, as the words after `check` say it.
fn check_order<'a>(found: &ArgMatches<'a>) -> Job<'a>
    ensures { Asks (Some (codes "check", rows_of (found_of found.now))) result }
{
    Job::Check(Check {
        settings: found.get_str("settings"),
        explain: found.get_flag("explain"),
        database: found.get_str("database"),
    })
}

/// The order to wait, as the words after `ready` say it.
fn ready_order<'a>(found: &ArgMatches<'a>) -> Job<'a>
    ensures { Asks (Some (codes "ready", rows_of (found_of found.now))) result }
{
    Job::Ready(Ready {
        address: found.get_str("address").unwrap_or(""),
        within: Duration::from_secs(u64::from(seconds_of(found, "within"))),
        process: process_of(found),
    })
}

/// The order to replay, as the words after `replay` say it.
fn replay_order<'a>(alloc: Global, found: &ArgMatches<'a>) -> Result<Job<'a>, AllocError>
    ensures { (name : List ℕ) → name ≢ codes "backup" → name ≢ codes "check" →
        name ≢ codes "ready" → name ≢ codes "serve" → name ≢ codes "trim" →
        IfOk result (Asks (Some (name, rows_of (found_of found.now)))) }
{
    Ok(Job::Replay(Replay {
        settings: found.get_str("settings"),
        per_connection: per_connection_of(found),
        connections: files_of(alloc, found)?,
    }))
}

/// The order to serve, as the words after `serve` say it.
fn serve_order<'a>(found: &ArgMatches<'a>) -> Job<'a>
    ensures { Asks (Some (codes "serve", rows_of (found_of found.now))) result }
{
    Job::Serve(Listen {
        settings: found.get_str("settings").unwrap_or(""),
        place: ListenOptions {
            database: found.get_str("database").unwrap_or(""),
            existing: found.get_flag("existing"),
            address: found.get_str("listen").unwrap_or(""),
            connections: connections_of(found),
            time_limit: Duration::from_secs(u64::from(seconds_of(found, "time-limit"))),
            idle_limit: Duration::from_secs(u64::from(idle_seconds_of(found))),
            together: together_of(found),
        },
        wanted: wanted_of(found),
        per_connection: per_connection_of(found),
        explain: found.get_flag("explain"),
    })
}

/// The order to trim, as the words after `trim` say it.
fn trim_order<'a>(found: &ArgMatches<'a>) -> Job<'a>
    ensures { Asks (Some (codes "trim", rows_of (found_of found.now))) result }
{
    let database = found.get_str("database").unwrap_or("");
    Job::Trim(Trim { database })
}

/// Reads the words that follow the program's name. Words that are those of a command fail only where
/// memory is refused; others, and those that ask for help or the version, have an error with its text.
pub(crate) fn read<'a>(alloc: Global, words: &'a [String]) -> Result<Job<'a>, Error>
    ensures ok { IfOk result (Asks (found_by (map string_bytes words.now))) }
    ensures err { AreTaken (map string_bytes words.now) →
        IfErr result (λ error. kind_of error ≡ ErrorKind.OutOfMemory) }
{
    let matches = osb_broker(alloc)?.try_get_matches_from(words)?;
    match matches.subcommand() {
        Some(("backup", found)) => Ok(backup_order(found)),
        Some(("check", found)) => Ok(check_order(found)),
        Some(("ready", found)) => Ok(ready_order(found)),
        Some(("serve", found)) => Ok(serve_order(found)),
        Some(("trim", found)) => Ok(trim_order(found)),
        Some((_, found)) => Ok(replay_order(alloc, found)?),
        None => Ok(Job::Replay(Replay {
            settings: None,
            per_connection: PerConnection::ONE,
            connections: Vec::new(alloc),
        })),
    }
}
