//! The commands, the words that each takes, and the texts of their help.

ghost use Rattle.std.specs.Prelude.{◌≡◌, false, IfOk, IfErr, codes};
ghost use Rattle.clap.specs.Words.{app_of, new_app, rule_of, kind_of};
ghost use Rattle.osb_cli.specs.Grammar.{backup_command, check_command, files_word, flag_option, number_option, osb_broker, ready_command, replay_command, required_option, required_word, serve_command, settings_word, text_option, trim_command};

use clap::error::ErrorKind;
use clap::{Arg, ArgAction, Command, Error, value_parser};
use std::alloc::Global;

/// The version that `--version` prints.
const VERSION: &str = "0.1.0";

const ABOUT: &str = "The broker end of the Open Service Broker API 2.17";

const STATUS: &str = "With no command it does `replay`.

Status:
  0  all went well, or help or the version was asked for
  1  a file can't be read or is too large, can't be made or is there already,
     the database is refused, isn't one of this broker or is missing, its file
     is taken away, memory is refused, standard output doesn't take what is
     written, connections can't be taken, or `ready` got no answer in time
  2  the words are not those of a command
  3  the settings are not accepted
  4  the settings lack a plan that the database has in use
With any status but 0 a line on standard error says why.";

const BACKUP: &str = "Copy a database file into one file that needs no log";

const BACKUP_MORE: &str =
    "It may be the file of a broker that runs: what was answered before is in the copy.
The file and its log are read as they are at one moment, and all rows are
looked at as a start does. Then the copy is made, a file that only its owner may
read, and is on the disk when the counts are printed, as `instances 2, bindings
1, running 0`. `serve` takes it as it is.
Otherwise a line on standard error says why, and no copy is made: what FILE
holds isn't a database of this broker, or none yet, as `check` would say; or TO
is there already, or can't be made. Until the copy is whole its name is TO with
`-new` behind.";

const CHECK: &str = "Check a settings file, a database file, or both";

const CHECK_MORE: &str = "Of a settings file it prints the number of services and of plans in the
catalog, as `services 1, plans 2`; or on standard error the first fault of the
settings, as `settings: 2 Missing id`. docs/SETTINGS.md lists the fields and
the faults. With `--explain` it also says where the fault is, as
`at catalog.services[0].plans[1]`, and what is wanted there. Of settings that
are accepted it then says how each plan's orders are carried out, which names
are read past, as `read past: modes.own.instance`, and more that is hardly meant.
Of a database file it prints what it has, as `instances 2, bindings 1, running
0`, or `new` where it has no tables yet; or on standard error why `serve`
wouldn't open it, as `database: 1 Refused` and behind it `in use`. It reads the
file and its log into memory and changes neither, so it may look at a backup, or
at the file of a broker that runs.
With both, a plan in use that the settings lack is reported as by a start, as
`plan in use: SERVICE PLAN`, with status 4.";

const READY: &str = "Wait until a broker answers at an address";

const READY_MORE: &str =
    "It sends the request `GET /`, which takes no login, and ends with status 0 once
the answer is that of this program. Until then it tries again, ten times a
second. Once the time is over it prints `osb-broker: not ready ADDR` on standard
error, and at once where the process PID isn't there any longer.";

const REPLAY: &str = "Answer the requests in files or on standard input";

const REPLAY_MORE: &str = "Each file is one connection; without any, standard input is one. They are
all read to their ends, at most 16777216 bytes each, before the first request.
Then they are served one after the other, and the replies are written to
standard output with nothing between. The broker keeps what it is told for as
long as it runs.";

const SERVE: &str = "Serve connections at an address";

const SERVE_MORE: &str =
    "Prints `listening on ADDR`, and then serves clients. Many are connected at the
same time, and each is served as soon as its request is whole. One that fails,
or isn't done in time, is a line on standard error, `connection: read` or
`connection: write`. With `--together 1` they are taken one after the other.
With `--per-connection` above 1 a client that was answered stays connected for
its next request. One that sends nothing is ended after the idle limit, or as
soon as another client wants its place. The broker keeps its orders in the
database: a change is there before its request is answered, and stays there
however the program ends. A file that isn't there is made, and only its owner
may read it. A database that is begun is a line on standard error, `database:
new`; with `--existing` none is begun, and the program ends with `database: 3
Missing`. What has not been copied into the file yet is in a second one, its
name with `-wal` behind. Once one of the two is taken away, no connection is
answered, and the program ends.";

const TRIM: &str = "Erase what no answer rests on from a database file";

const TRIM_MORE: &str =
    "Of the orders of an instance up to its last deletion that succeeded it erases
what they were asked with: service, plan, organization, space, parameters,
maintenance version and context. No answer changes. Then the file is written
anew, with nothing of them in it and as small as it can be, and what is printed
says how many orders were erased and how many bytes the file had with its log
and has now, as `trimmed 3, bytes 12288, now 8192`.
No broker may run over the file meanwhile. Whatever stops the command, the file
is the old one or the new one. Otherwise a line on standard error says why, and
the file stays as it was; only behind `cannot write` it was replaced. Until the
new file is whole its name is FILE with `-new` behind. Copies made before, as by
`backup`, keep what they have.";

const SERVE_USAGE: &str =
    "osb-broker serve --settings FILE --database FILE [--existing] --listen ADDR [--per-connection N] [--connections N] [--time-limit SECONDS] [--idle-limit SECONDS] [--together N] [--explain]";

/// `--ID VALUE`, which may be left out.
fn text_option<'a>(alloc: Global, id: &'a str, value: &'a str, help: &'a str) -> Arg<'a>
    ensures rule { rule_of result ≡ text_option id.now }
    ensures local { result.global ≡ false }
{
    Arg::new(alloc, id).long(id).value_name(value).help(help)
}

/// The settings file of `check`.
fn settings_word<'a>(alloc: Global) -> Arg<'a>
    ensures rule { rule_of result ≡ settings_word }
    ensures local { result.global ≡ false }
{
    Arg::new(alloc, "settings").value_name("FILE").help(
        "The settings file, a JSON object of at most 16777216 bytes",
    )
}

/// A word that has to be there.
fn required_word<'a>(alloc: Global, id: &'a str, value: &'a str, help: &'a str) -> Arg<'a>
    ensures rule { rule_of result ≡ required_word id.now }
    ensures local { result.global ≡ false }
{
    Arg::new(alloc, id)
        .value_name(value)
        .help(help)
        .required(true)
}

/// `--ID`.
fn flag_option<'a>(alloc: Global, id: &'a str, help: &'a str) -> Arg<'a>
    ensures rule { rule_of result ≡ flag_option id.now }
    ensures local { result.global ≡ false }
{
    Arg::new(alloc, id)
        .long(id)
        .action(ArgAction::SetTrue)
        .help(help)
}

/// `--ID VALUE`, which has to be there.
fn required_option<'a>(alloc: Global, id: &'a str, value: &'a str, help: &'a str) -> Arg<'a>
    ensures rule { rule_of result ≡ required_option id.now }
    ensures local { result.global ≡ false }
{
    text_option(alloc, id, value, help).required(true)
}

/// `--per-connection` and its number.
fn per_connection_option<'a>(alloc: Global) -> Arg<'a>
    ensures rule { rule_of result ≡ number_option (codes "per-connection") 1000 }
    ensures local { result.global ≡ false }
{
    Arg::new(alloc, "per-connection")
        .long("per-connection")
        .value_name("N")
        .help("How many requests of a connection are answered, 1 to 1000; without it 1")
        .value_parser(value_parser!(u32).range(1..=1000))
}

/// `--connections` and its number.
fn connections_option<'a>(alloc: Global) -> Arg<'a>
    ensures rule { rule_of result ≡ number_option (codes "connections") 1000000 }
    ensures local { result.global ≡ false }
{
    Arg::new(alloc, "connections")
        .long("connections")
        .value_name("N")
        .help("How many connections are served, 1 to 1000000; without it 1000000")
        .value_parser(value_parser!(u32).range(1..=1_000_000))
}

/// `--ID SECONDS`, a number from 1 to that of a day.
fn seconds_option<'a>(alloc: Global, id: &'a str, help: &'a str) -> Arg<'a>
    ensures rule { rule_of result ≡ number_option id.now 86400 }
    ensures local { result.global ≡ false }
{
    Arg::new(alloc, id)
        .long(id)
        .value_name("SECONDS")
        .help(help)
        .value_parser(value_parser!(u32).range(1..=86_400))
}

/// `--together` and its number.
fn together_option<'a>(alloc: Global) -> Arg<'a>
    ensures rule { rule_of result ≡ number_option (codes "together") 1024 }
    ensures local { result.global ≡ false }
{
    Arg::new(alloc, "together")
        .long("together")
        .value_name("N")
        .help("How many clients are connected at the same time, 1 to 1024; without it 1024")
        .value_parser(value_parser!(u32).range(1..=1024))
}

/// `--pid` and its number.
fn pid_option<'a>(alloc: Global) -> Arg<'a>
    ensures rule { rule_of result ≡ number_option (codes "pid") 4194304 }
    ensures local { result.global ≡ false }
{
    Arg::new(alloc, "pid")
        .long("pid")
        .value_name("PID")
        .help("The process that is to answer, 1 to 4194304")
        .value_parser(value_parser!(u32).range(1..=4_194_304))
}

/// The files of `replay`.
fn files_word<'a>(alloc: Global) -> Arg<'a>
    ensures rule { rule_of result ≡ files_word }
    ensures local { result.global ≡ false }
{
    Arg::new(alloc, "connections")
        .value_name("CONNECTION")
        .help("A file with the bytes of one connection")
        .num_args(0..)
        .action(ArgAction::Append)
}

/// A command with its texts, and no words yet.
fn begun<'a>(
    alloc: Global,
    name: &'a str,
    about: &'a str,
    more: &'a str,
    usage: &'a str,
) -> Command<'a>
    ensures { app_of result ≡ new_app name.now }
{
    Command::new(alloc, name)
        .about(about)
        .after_help(more)
        .override_usage(usage)
}

/// `backup` and its words.
fn backup_command<'a>(alloc: Global) -> Result<Command<'a>, Error>
    ensures app { IfOk result (λ command. app_of command ≡ backup_command) }
    ensures err { IfErr result (λ error. kind_of error ≡ ErrorKind.OutOfMemory) }
{
    let path = "The database file";
    let made = "The file that is made";
    Ok(
        begun(
            alloc,
            "backup",
            BACKUP,
            BACKUP_MORE,
            "osb-broker backup FILE TO",
        )
        .arg(required_word(alloc, "database", "FILE", path))?
        .arg(required_word(alloc, "to", "TO", made))?,
    )
}

/// `check` and its words.
fn check_command<'a>(alloc: Global) -> Result<Command<'a>, Error>
    ensures app { IfOk result (λ command. app_of command ≡ check_command) }
    ensures err { IfErr result (λ error. kind_of error ≡ ErrorKind.OutOfMemory) }
{
    let usage = "osb-broker check [--explain] [--database FILE] [FILE]";
    let place = "Says where a fault is and what is wanted, or what is hardly meant";
    let path = "A database file to look at";
    Ok(
        begun(alloc, "check", CHECK, CHECK_MORE, usage)
            .arg(settings_word(alloc))?
            .arg(flag_option(alloc, "explain", place))?
            .arg(text_option(alloc, "database", "FILE", path))?,
    )
}

/// `ready` and its words.
fn ready_command<'a>(alloc: Global) -> Result<Command<'a>, Error>
    ensures app { IfOk result (λ command. app_of command ≡ ready_command) }
    ensures err { IfErr result (λ error. kind_of error ≡ ErrorKind.OutOfMemory) }
{
    let usage = "osb-broker ready ADDR [--within SECONDS] [--pid PID]";
    let address = "An IP address and a port, as 127.0.0.1:8080";
    let within = "How long it waits, 1 to 86400 seconds; without it 10";
    Ok(
        begun(alloc, "ready", READY, READY_MORE, usage)
            .arg(required_word(alloc, "address", "ADDR", address))?
            .arg(seconds_option(alloc, "within", within))?
            .arg(pid_option(alloc))?,
    )
}

/// `replay` and its words.
fn replay_command<'a>(alloc: Global) -> Result<Command<'a>, Error>
    ensures app { IfOk result (λ command. app_of command ≡ replay_command) }
    ensures err { IfErr result (λ error. kind_of error ≡ ErrorKind.OutOfMemory) }
{
    let usage = "osb-broker replay [--settings FILE] [--per-connection N] [CONNECTION..]";
    let help = "The settings file; without it the built-in settings serve";
    Ok(
        begun(alloc, "replay", REPLAY, REPLAY_MORE, usage)
            .arg(text_option(alloc, "settings", "FILE", help))?
            .arg(per_connection_option(alloc))?
            .arg(files_word(alloc))?,
    )
}

/// `serve` and its words.
fn serve_command<'a>(alloc: Global) -> Result<Command<'a>, Error>
    ensures app { IfOk result (λ command. app_of command ≡ serve_command) }
    ensures err { IfErr result (λ error. kind_of error ≡ ErrorKind.OutOfMemory) }
{
    let made = "The database file; it is made where there is none";
    let existing = "Begins no database: one has to be there";
    let address = "An IP address and a port, as 127.0.0.1:8080 or [::1]:8080";
    let limit = "How long a request may take, 1 to 86400 seconds; without it 10";
    let idle = "How long a client may be idle, 1 to 86400 seconds; without it 60";
    let explain = "Says the cause in a second line if nothing can be served";
    Ok(
        begun(alloc, "serve", SERVE, SERVE_MORE, SERVE_USAGE)
            .arg(required_option(alloc, "settings", "FILE", "The settings file"))?
            .arg(required_option(alloc, "database", "FILE", made))?
            .arg(flag_option(alloc, "existing", existing))?
            .arg(required_option(alloc, "listen", "ADDR", address))?
            .arg(per_connection_option(alloc))?
            .arg(connections_option(alloc))?
            .arg(seconds_option(alloc, "time-limit", limit))?
            .arg(seconds_option(alloc, "idle-limit", idle))?
            .arg(together_option(alloc))?
            .arg(flag_option(alloc, "explain", explain))?,
    )
}

/// `trim` and its words.
fn trim_command<'a>(alloc: Global) -> Result<Command<'a>, Error>
    ensures app { IfOk result (λ command. app_of command ≡ trim_command) }
    ensures err { IfErr result (λ error. kind_of error ≡ ErrorKind.OutOfMemory) }
{
    let path = "The database file";
    Ok(begun(alloc, "trim", TRIM, TRIM_MORE, "osb-broker trim FILE").arg(required_word(
        alloc, "database", "FILE", path,
    ))?)
}

/// All commands and their words.
pub(crate) fn osb_broker<'a>(alloc: Global) -> Result<Command<'a>, Error>
    ensures app { IfOk result (λ command. app_of command ≡ osb_broker) }
    ensures err { IfErr result (λ error. kind_of error ≡ ErrorKind.OutOfMemory) }
{
    Ok(
        Command::new(alloc, "osb-broker")
            .version(VERSION)
            .about(ABOUT)
            .after_help(STATUS)
            .disable_help_subcommand(true)
            .no_binary_name(true)
            .subcommand(backup_command(alloc)?)?
            .subcommand(check_command(alloc)?)?
            .subcommand(ready_command(alloc)?)?
            .subcommand(replay_command(alloc)?)?
            .subcommand(serve_command(alloc)?)?
            .subcommand(trim_command(alloc)?)?,
    )
}
