//! What the words ask for, done.

ghost use Rattle.std.specs.Prelude.{◌≡◌, ◌≤◌, ℕ, List, [], codes, map, string_bytes, None, IfNone, IfSome, IsSome};
ghost use Rattle.std.specs.Prelude.{IsErr, IsErrAnd, IsOk, IfErr, OnOk, OnErr, option_map};
ghost use Rattle.clap.specs.Words.{kind_of};
ghost use Rattle.sqlite.specs.Tree.{Trees};
ghost use Rattle.sqlite.specs.Held.{state};
ghost use Rattle.osb_file.specs.File.{HasTrees};
ghost use Rattle.osb_broker.specs.BrokerState.{Works};
ghost use Rattle.osb_cli.specs.Done.{IsDone, IsReplayedBy};
ghost use Rattle.osb_cli.specs.Inside.{FindsInUse, IsOther, IsReplayedFor, IsPlan, NamesInUse};
ghost use Rattle.osb_cli.specs.Reported.{IsOfText, IsReported, IsSettingsText, IsStatusOf, IsTextOf, IsUnservedOf, Reports};
ghost use Rattle.osb_cli.specs.declared.fault.Unserved.TheVariants as Unserved;
ghost use Rattle.osb_listen.specs.Held.{Serving};
ghost use Rattle.osb_cli.specs.Serve.{FindsSome, HasServedAs, LeavesAs, MayFindPlans, NamesSome, settings_name};
ghost use Rattle.osb_cli.specs.Words.{AreTaken, Names, found_by, text_in};

use crate::backup::backup;
use crate::check::check;
use crate::fault::{Fault, Unserved};
use crate::files::NamedFiles;
use crate::listen::listen;
use crate::output::write;
use crate::ready::ready;
use crate::replay::{replay_files, replay_input};
use crate::settings::settings_or_built_in;
use crate::trim::trim;
use crate::words::{Job, Replay, read};
use clap::Error;
use clap::error::ErrorKind;
use osb_file::{Database, Opened};
use osb_frames::{Sink, Source};
use osb_listen::Entrance;
use std::alloc::Global;

/// The text of clap's answer to words that aren't those of a command: an error, or the help or the
/// version that was asked for.
fn answer_words<W: Sink>(alloc: Global, error: &Error, output: &mut W) -> Result<(), Fault<'static>>
    ensures memory { kind_of error.now ≡ ErrorKind.OutOfMemory → IsErr result }
    ensures other { IfErr result IsOther }
{
    if error.kind() == ErrorKind::OutOfMemory {
        return Err(Fault::OutOfMemory);
    }
    let text = format!(in alloc; "{error}")?;
    if error.use_stderr() {
        return Err(Fault::Words(text));
    }
    write(output, text.as_bytes())
}

/// Serves the connections that the words name, or standard input.
fn replay<'a, F: NamedFiles, R: Source, W: Sink>(
    alloc: Global,
    files: &F,
    asked: &Replay<'a>,
    input: &mut R,
    output: &mut W,
) -> Result<(), Fault<'a>>
    ensures replayed { OnOk result (IsReplayedFor (F.contents files.now) asked.now
        (R.rest input.old) (W.taken output.old) (W.taken output.new)) }
    ensures fault { IfErr result (IsOfText (IsTextOf (F.contents files.now)
        (option_map (λ it. it.now) asked.now.settings))) }
{
    let settings = settings_or_built_in(alloc, files, asked.settings)?;
    let names = asked.connections.as_slice();
    if names.is_empty() {
        replay_input(alloc, &settings, asked.per_connection, input, output)
    } else {
        replay_files(alloc, files, &settings, asked.per_connection, names, output)
    }
}

/// What was done without a database file.
fn without_file<'a, D: Database>(
    done: Result<(), Fault<'a>>,
) -> (Result<(), Unserved<'a>>, Opened<D::Store>)
    ensures none { result.1 ≡ None }
    ensures well { OnOk result.0 (IsOk done.entry) }
    ensures other { IfErr result.0 (λ fault. ¬ IsPlan fault) }
    ensures same { IfErr result.0 (λ told.
        IsErrAnd done.entry (λ fault. told ≡ Unserved.Fault fault)) }
{
    match done {
        Ok(()) => (Ok(()), None),
        Err(fault) => (Err(Unserved::Fault(fault)), None),
    }
}

/// Does what the words ask for, and hands out the connection to the database file that it opened.
fn perform<'a, D: Database, F: NamedFiles, L: Entrance, R: Source, W: Sink, E: Sink>(
    rt: &HostRuntime,
    files: &F,
    words: &'a [String],
    database: D,
    entrance: &mut L,
    input: &mut R,
    output: &mut W,
    errors: &mut E,
) -> (Result<(), Unserved<'a>>, Opened<D::Store>)
    ensures done { AreTaken (map string_bytes words.now) →
        OnOk result.0 (IsDone (F.contents files.now) (F.is_made files.now)
        (found_by (map string_bytes words.now)) (R.rest input.old)
        (W.taken output.old) (W.taken output.new)) }
    ensures served { IfSome result.1 (λ conn. (serving : Serving)
        × OnOk result.0 (IsOk serving.ended)
        × HasServedAs (found_by (map string_bytes words.now)) serving
        (L.journal entrance.old) (L.journal entrance.new) (E.taken errors.old) (E.taken errors.new)
        (E.failed_or_empty errors.old) (E.failed_or_empty errors.new)
        × ((db : Trees) → HasTrees (D.held database) db →
        LeavesAs (F.contents files.now) (found_by (map string_bytes words.now)) db serving
        (state D.Store.Store conn))) }
    ensures opened { AreTaken (map string_bytes words.now) →
        Names (codes "serve") (found_by (map string_bytes words.now)) →
        OnOk result.0 (IsSome result.1) }
    ensures untouched { IfNone result.1 (errors.new ≡ errors.old) }
    ensures unasked { IfNone result.1 (entrance.new ≡ entrance.old) }
    ensures fault { IfErr result.0 (IsUnservedOf
        (IsSettingsText (F.contents files.now) (found_by (map string_bytes words.now)))) }
    ensures unopened { ¬ Names (codes "serve") (found_by (map string_bytes words.now)) →
        result.1 ≡ None }
    ensures finds { IfErr result.0 (λ fault. IsPlan fault →
        MayFindPlans (found_by (map string_bytes words.now))) }
    ensures checks { IfErr result.0 (λ fault.
        Names (codes "check") (found_by (map string_bytes words.now)) →
        FindsInUse (F.contents files.now)
        (text_in (codes "settings") (found_by (map string_bytes words.now)))
        (text_in (codes "database") (found_by (map string_bytes words.now))) fault) }
    ensures lacks { IfErr result.0 (λ fault. IfSome result.1 (λ conn.
        Works (state D.Store.Store conn) →
        (db : Trees) → HasTrees (D.held database) db →
        NamesInUse (F.contents files.now) (settings_name (found_by (map string_bytes words.now)))
        db fault)) }
{
    let order = match read(rt.alloc(), words) {
        Ok(order) => order,
        Err(error) => return without_file::<D>(answer_words(rt.alloc(), &error, output)),
    };
    match order {
        Job::Backup(asked) => without_file::<D>(backup(rt.alloc(), files, &asked, output)),
        Job::Check(asked) => (check(rt.alloc(), files, &asked, output), None),
        Job::Ready(asked) => without_file::<D>(ready(rt, &asked)),
        Job::Replay(asked) => without_file::<D>(replay(rt.alloc(), files, &asked, input, output)),
        Job::Trim(asked) => without_file::<D>(trim(rt.alloc(), files, &asked, output)),
        Job::Serve(asked) => listen(rt, files, &asked, database, entrance, output, errors),
    }
}

/// The status of what was done. A fault has a line on `errors`.
fn status_of<E: Sink>(done: Result<(), Unserved<'_>>, errors: &mut E) -> u8
    ensures most { result ≤ 4 }
    ensures zero { OnOk done.entry (result ≡ 0) }
    ensures fails { OnErr done.entry (1 ≤ result) }
    ensures quiet { OnOk done.entry (E.taken errors.new ≡ E.taken errors.old) }
    ensures plan { result ≡ 4 → IfErr done.entry IsPlan }
    ensures reports { IfErr done.entry (λ fault. IsReported fault result
        (E.taken errors.old) (E.taken errors.new)
        (E.failed_or_empty errors.old) (E.failed_or_empty errors.new)) }
{
    let Err(fault) = done else {
        return 0;
    };
    fault.print_line(errors);
    fault.status()
}

/// Does what the words after the program's name ask for, and gives the status that the process ends
/// with and, of `serve`, the connection to its database file, where it was opened.
///
/// The status is 0 where all went well or help or the version was asked for, 1 where a file, memory or
/// standard output failed, a file that is to be made is there already, the database can't be used or its file is taken away, the address can't be
/// listened at, a connection can't be taken or nobody answers in time, 2 where the words aren't those of a command, 3 where
/// settings aren't accepted, and 4 where the catalog lacks a plan that the database has in use. A status
/// other than 0 has its line on `errors`, behind all that `serve` wrote there; a failed write there is
/// passed over. While `serve` goes on, a fault of a connection is a line there, and the next connection
/// is taken.
///
/// Where the words are those of a command, so no help was asked for, what was written with status 0 is
/// the lines of `check`, the line of `backup` or `trim`, which made its file before, the listening line of
/// `serve`, or exactly the replies of `replay`; `ready` writes nothing. Without any words it replays the whole input with the built-in
/// settings, one request.
///
/// `files` are the files that the words name, but for the database of `serve`, which is `database`: what
/// is said of lives is said of each database that it may have, of the connection to it, which is there
/// where the file was opened. `entrance` is where the clients of `serve` come from, and its journal has
/// what was said with them.
pub fn run<D: Database, F: NamedFiles, L: Entrance, R: Source, W: Sink, E: Sink>(
    rt: &HostRuntime,
    files: &F,
    words: &[String],
    database: D,
    entrance: &mut L,
    input: &mut R,
    output: &mut W,
    errors: &mut E,
) -> (u8, Opened<D::Store>)
    ensures most { result.0 ≤ 4 }
    ensures done { AreTaken (map string_bytes words.now) → result.0 ≡ 0 →
        IsDone (F.contents files.now) (F.is_made files.now) (found_by (map string_bytes words.now))
        (R.rest input.old) (W.taken output.old) (W.taken output.new) }
    ensures plain { words.now ≡ [] → result.0 ≡ 0 →
        IsReplayedBy (F.contents files.now) None 1 [] (R.rest input.old)
        (W.taken output.old) (W.taken output.new) }
    ensures served { IfSome result.1 (λ conn. (serving : Serving) × (said : List ℕ) × (failed : ℕ)
        × HasServedAs (found_by (map string_bytes words.now)) serving
        (L.journal entrance.old) (L.journal entrance.new) (E.taken errors.old) said
        (E.failed_or_empty errors.old) failed
        × IsStatusOf (F.contents files.now) (found_by (map string_bytes words.now)) serving.ended
        result.0 said (E.taken errors.new) failed (E.failed_or_empty errors.new)
        × ((db : Trees) → HasTrees (D.held database) db →
        LeavesAs (F.contents files.now) (found_by (map string_bytes words.now)) db serving
        (state D.Store.Store conn))) }
    ensures unasked { IfNone result.1 (entrance.new ≡ entrance.old) }
    ensures quiet { result.0 ≡ 0 → IfNone result.1 (E.taken errors.new ≡ E.taken errors.old) }
    ensures reports { 1 ≤ result.0 → IfNone result.1 (Reports
        (F.contents files.now) (found_by (map string_bytes words.now)) result.0
        (E.taken errors.old) (E.taken errors.new)
        (E.failed_or_empty errors.old) (E.failed_or_empty errors.new)) }
    ensures unopened { ¬ Names (codes "serve") (found_by (map string_bytes words.now)) →
        result.1 ≡ None }
    ensures opened { AreTaken (map string_bytes words.now) → result.0 ≡ 0 →
        Names (codes "serve") (found_by (map string_bytes words.now)) → IsSome result.1 }
    ensures finds { result.0 ≡ 4 → MayFindPlans (found_by (map string_bytes words.now)) }
    ensures checks { result.0 ≡ 4 → Names (codes "check") (found_by (map string_bytes words.now)) →
        FindsSome (F.contents files.now) (found_by (map string_bytes words.now)) }
    ensures lacks { result.0 ≡ 4 → IfSome result.1 (λ conn. Works (state D.Store.Store conn) →
        (db : Trees) → HasTrees (D.held database) db →
        NamesSome (F.contents files.now) (found_by (map string_bytes words.now)) db) }
{
    let (done, conn) = perform(rt, files, words, database, entrance, input, output, errors);
    (status_of(done, errors), conn)
}
