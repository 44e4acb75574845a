//! Why a start refused a database file, as far as that is seen behind it.

use crate::beside::draft_path;
use crate::copied::{Copied, check_file, check_mode, unread};
use crate::first_page::first_page;
use crate::holding::unheld;
use crate::placing::{fill, make};
use crate::unseen::Unseen;
use sqlite::Unknown;
use sqlite_std_file::OpenError;
use std::fs;
use std::io::{Error, ErrorKind, Read};

/// What every database file begins with, unless it has no bytes.
const MAGIC: [u8; 16] = *b"SQLite format 3\0";

/// What the making of a file in the database's folder has met.
fn unmade(error: Error) -> Unseen {
    match error.kind() {
        ErrorKind::OutOfMemory => Unseen::Memory,
        ErrorKind::NotFound | ErrorKind::NotADirectory => Unseen::NoFolder,
        ErrorKind::ReadOnlyFilesystem => Unseen::ReadOnlyDisk,
        ErrorKind::StorageFull | ErrorKind::QuotaExceeded => Unseen::DiskFull,
        ErrorKind::InvalidFilename => Unseen::LongName,
        _ => Unseen::ShutFolder,
    }
}

/// Writes a page into a new file of that path, and takes it away again.
fn try_page(rt: &HostRuntime, draft: &str) -> Result<(), Error> {
    let file = match make(rt, draft) {
        Ok(file) => file,
        // Another program has just made one.
        Err(error) if error.kind() == ErrorKind::AlreadyExists => return Ok(()),
        Err(error) => return Err(error),
    };
    let filled = fill(file, &first_page());
    let _ = fs::remove_file(rt, draft);
    filled
}

/// Refuses a path beside which no page can be written, as a start has to.
fn check_room(rt: &HostRuntime, path: &str) -> Result<(), Unseen> {
    let draft = match draft_path(rt, path) {
        Ok(draft) => draft,
        Err(error) => return Err(unmade(error)),
    };
    match try_page(rt, draft.as_str()) {
        Ok(()) => Ok(()),
        Err(error) => Err(unmade(error)),
    }
}

fn begins_as_a_database(rt: &HostRuntime, path: &str) -> Result<bool, Error> {
    let mut found = [0; MAGIC.len()];
    let mut file = fs::open(rt, path)?;
    let count = file.read(&mut found)?;
    Ok(count == 0 || found == MAGIC)
}

fn check_beginning(rt: &HostRuntime, path: &str) -> Result<(), Unseen> {
    match begins_as_a_database(rt, path) {
        Ok(true) => Ok(()),
        Ok(false) => Err(Unseen::NoDatabase),
        Err(error) => Err(unread(error)),
    }
}

/// Refuses a file that can't be locked with its log.
fn check_lock(rt: &HostRuntime, path: &str) -> Result<(), Unseen> {
    match sqlite_std_file::open(rt, path, Unknown) {
        Ok(files) => {
            drop(files);
            Ok(())
        }
        Err(OpenError::Io(error)) => Err(unmade(error)),
        Err(error) => Err(unheld(error)),
    }
}

/// Refuses a file whose database `serve` refuses.
fn check_content(rt: &HostRuntime, path: &str) -> Result<(), Unseen> {
    let copied = Copied::read(rt, path)?;
    match copied.look(rt.alloc()) {
        Ok(_) => Ok(()),
        Err(unseen) => Err(unseen),
    }
}

/// Refuses a file that a start couldn't open.
fn check_opening(rt: &HostRuntime, path: &str) -> Result<(), Unseen> {
    match check_file(rt, path) {
        Err(Unseen::NoFile) => {
            check_room(rt, path)?;
            return Err(Unseen::NoFile);
        }
        found => found?,
    }
    check_mode(rt, path)?;
    check_beginning(rt, path)
}

fn check_all(rt: &HostRuntime, path: &str, is_open: bool) -> Result<(), Unseen> {
    check_opening(rt, path)?;
    if !is_open {
        check_lock(rt, path)?;
    }
    check_content(rt, path)?;
    check_room(rt, path)
}

/// Why a start has refused the database file at a path; nothing if no cause is left. `is_open` says whether this
/// process has the file open.
///
/// The file stays as it is. Room is looked for by a page that is written beside it and taken away again.
pub fn cause_of(rt: &HostRuntime, path: &str, is_open: bool) -> Option<Unseen> {
    check_all(rt, path, is_open).err()
}
