//! Whether a database file and its log were read at one moment.

use crate::database_file::{Node, node_of};
use std::fs;
use std::io::{Error, ErrorKind, Read};
use std::os::unix::fs::MetadataExt;

/// The bytes of a log's header (SQLite's file format, 4.1). It is written anew each time that the log begins
/// anew, and stays as it is otherwise.
const HEADER: usize = 32;

/// What is looked at before the two files are read, and again behind that. Where it is the same, the log has
/// all that was copied into the file meanwhile. What was appended to the log is no difference.
#[derive(Clone, Copy, Debug, PartialEq, Eq)]
pub(crate) struct Moment {
    node: Node,
    length: u64,
    seconds: i64,
    nanoseconds: i64,
    header: [u8; HEADER],
}

/// The header of a log; zeros where no log is there, or in place of what it lacks.
fn header_at(rt: &HostRuntime, log: &str) -> Result<[u8; HEADER], Error> {
    let mut header = [0; HEADER];
    match fs::open(rt, log) {
        Ok(mut file) => {
            let _ = file.read(&mut header)?;
            Ok(header)
        }
        Err(error) if error.kind() == ErrorKind::NotFound => Ok(header),
        Err(error) => Err(error),
    }
}

/// The moment at which a database file and its log are now.
pub(crate) fn moment_of(rt: &HostRuntime, path: &str, log: &str) -> Result<Moment, Error> {
    let header = header_at(rt, log)?;
    let found = fs::metadata(rt, path)?;
    Ok(Moment {
        node: node_of(&found),
        length: found.len(),
        seconds: found.mtime(),
        nanoseconds: found.mtime_nsec(),
        header,
    })
}
