//! The files beside a database file: its log, and the draft that it was made from.

use std::fs;
use std::io::{Error, ErrorKind};
use std::os::unix::fs::MetadataExt;
use std::path::Path;

/// The length of the shortest log with a change: its head of 32 bytes, and a frame of 24 bytes with a page
/// of 512 (SQLite's file format, 4.1).
pub(crate) const SHORTEST_LOG: usize = 568;

/// The most bytes of a database file's name: with `-journal` behind it is still one that a file can have.
const LONGEST_NAME: usize = 247;

/// The path of a file beside a database file. Where that is a link, the other file lies where the link
/// leads.
fn path_beside(rt: &HostRuntime, path: &str, ending: &str) -> Result<String, Error> {
    match fs::canonicalize(rt, path) {
        Ok(real) => Ok(format!(in rt.alloc(); "{}{ending}", real.display())?),
        Err(error) if error.kind() == ErrorKind::NotFound => {
            Ok(format!(in rt.alloc(); "{path}{ending}")?)
        }
        Err(error) => Err(error),
    }
}

/// The path of a database file. Where that is a link, it is the one to which the link leads.
pub(crate) fn real_path(rt: &HostRuntime, path: &str) -> Result<String, Error> {
    path_beside(rt, path, "")
}

/// Whether a database file of that path has too long a name for the files beside it.
pub(crate) fn has_long_name(rt: &HostRuntime, path: &str) -> bool {
    match real_path(rt, path) {
        Ok(real) => match Path::new(real.as_str()).file_name() {
            Some(name) => name.len() > LONGEST_NAME,
            None => false,
        },
        Err(error) => error.kind() == ErrorKind::InvalidFilename,
    }
}

/// Whether the folder of a path is there.
pub(crate) fn has_folder(rt: &HostRuntime, path: &str) -> bool {
    matches!(fs::metadata(rt, folder_of(path)), Ok(found) if found.is_dir())
}

/// The folder of a path.
pub(crate) fn folder_of(path: &str) -> &str {
    match Path::new(path).parent() {
        Some(folder) if !folder.as_str().is_empty() => folder.as_str(),
        _ => ".",
    }
}

/// The path of the log of a database file.
pub(crate) fn log_path(rt: &HostRuntime, path: &str) -> Result<String, Error> {
    path_beside(rt, path, "-wal")
}

/// The path of the draft of a database file.
pub(crate) fn draft_path(rt: &HostRuntime, path: &str) -> Result<String, Error> {
    path_beside(rt, path, "-new")
}

/// Whether no database is there: no file, or one of no bytes.
pub(crate) fn is_blank(rt: &HostRuntime, path: &str) -> Result<bool, Error> {
    match fs::metadata(rt, path) {
        Ok(found) => Ok(found.is_file() && found.len() == 0),
        Err(error) if error.kind() == ErrorKind::NotFound => Ok(true),
        Err(error) => Err(error),
    }
}

/// The length of a file; 0 where no file is there.
pub(crate) fn length_at(rt: &HostRuntime, path: &str) -> Result<u64, Error> {
    match fs::metadata(rt, path) {
        Ok(found) => Ok(found.len()),
        Err(error) if error.kind() == ErrorKind::NotFound => Ok(0),
        Err(error) => Err(error),
    }
}

/// Whether a log is there that lacks its database file: no file is at the path and the log has bytes, or
/// the file has no bytes and the log a change. A database that was begun there would cost what the log has,
/// since SQLite drops a log beside an empty file. No stop of the program leaves that: the file is there
/// before its log, and has its first page before the log gets a change.
pub(crate) fn is_log_without_file(rt: &HostRuntime, path: &str) -> Result<bool, Error> {
    if !is_blank(rt, path)? {
        return Ok(false);
    }
    let least = if fs::exists(rt, path)? {
        SHORTEST_LOG as u64
    } else {
        1
    };
    let log = log_path(rt, path)?;
    Ok(length_at(rt, log.as_str())? >= least)
}

/// Takes the draft away where it is a second name of the file: a start was stopped between the two calls
/// that put the file there. The store takes no file that has a second name.
pub(crate) fn drop_second_name(rt: &HostRuntime, path: &str) -> Result<(), Error> {
    let found = fs::metadata(rt, path)?;
    if found.nlink() == 1 {
        return Ok(());
    }
    let draft = draft_path(rt, path)?;
    let other = fs::symlink_metadata(rt, draft.as_str())?;
    if other.dev() == found.dev() && other.ino() == found.ino() {
        fs::remove_file(rt, draft.as_str())?;
    }
    Ok(())
}
