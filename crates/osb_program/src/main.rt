//! The program `osb-broker`.
#![tactic(auto)]

use osb_cli::{HostFiles, run, words_unread};
use osb_file::AtPath;
use osb_frames::{Counted, Sink};
use osb_listen::TcpEntrance;
use sqlite::{Start, Unknown};
use std::io;
use std::process::ExitCode;

/// The words after the program's name.
fn read_words(rt: &HostRuntime) -> io::Result<Vec<String>> {
    Ok(std::env::args(rt)?.skip(1).collect(rt.alloc())?)
}

/// The status of what the words ask for. What files hold isn't known: what `run` says holds of all that
/// they may hold, and `start` stands for what the database file holds.
fn run_over<S: Start, W: Sink, E: Sink>(
    rt: &HostRuntime,
    words: &[String],
    start: S,
    output: &mut W,
    errors: &mut E,
) -> u8 {
    let files = HostFiles::new(rt);
    let mut entrance = TcpEntrance::new(rt);
    let mut input = Counted::new(rt.stdin());
    let (status, _) = run(
        rt,
        &files,
        words,
        AtPath::new(start),
        &mut entrance,
        &mut input,
        output,
        errors,
    );
    // Replies that clients haven't taken yet.
    entrance.finish();
    status
}

fn main(rt: HostRuntime) -> ExitCode {
    let mut output = Counted::new(rt.stdout());
    let mut errors = Counted::new(rt.stderr());
    let words = match read_words(&rt) {
        Ok(words) => words,
        Err(error) => return ExitCode::from(words_unread(&error, &mut errors)),
    };
    let status = run_over(&rt, words.as_slice(), Unknown, &mut output, &mut errors);
    ExitCode::from(status)
}
