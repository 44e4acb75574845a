//! A database file that no other program opens meanwhile, and the database that takes its place.

use crate::beside::{draft_path, log_path, real_path};
use crate::copied::{check_file, check_mode, unread};
use crate::database_file::{Node, node_at, node_of};
use crate::looking::unopened;
use crate::one_file::OneFile;
use crate::placing::{fill, make, sync_folder, unwritten};
use crate::unseen::Unseen;
use crate::unwritten::Unwritten;
use sqlite::{Connection, FileFrom, FileStore, Options, Unknown};
use sqlite_disk::Files;
use sqlite_std_file::OpenError;
use std::fs::{self, File, Permissions};
use std::io::{Error, ErrorKind};
use std::os::unix::fs::{MetadataExt, PermissionsExt, fchown};

/// A database file and its log, which are locked for as long as this is there. Neither `serve` nor SQLite
/// opens them meanwhile.
#[derive(Drop)]
pub struct Held {
    conn: Connection<FileStore<FileFrom<Unknown>>>,
}

/// Which file is at a path. One with nothing in it is refused: as it is opened, a database would be begun in it.
fn check_begun(rt: &HostRuntime, path: &str) -> Result<Node, Unseen> {
    match fs::metadata(rt, path) {
        Ok(found) if found.len() == 0 => Err(Unseen::NoTables),
        Ok(found) => Ok(node_of(&found)),
        Err(error) => Err(unread(error)),
    }
}

/// Why a database file wasn't locked.
pub(crate) fn unheld(error: OpenError) -> Unseen {
    match error {
        OpenError::Io(error) => unread(error),
        OpenError::OutOfMemory => Unseen::Memory,
        OpenError::Busy => Unseen::InUse,
        OpenError::HotJournal => Unseen::Journal,
    }
}

/// Copies the log into the database file, which stays locked.
fn settle(held: Held) -> Result<Files<FileFrom<Unknown>>, Unwritten> {
    match held.conn.close_files() {
        Ok(files) => Ok(files),
        Err((_, store)) => {
            drop(store);
            Err(Unwritten::Failed)
        }
    }
}

/// Gives a file the owner, the group and the mode of the one at the path.
fn own_like(rt: &HostRuntime, file: &File, path: &str) -> Result<(), Error> {
    let found = fs::metadata(rt, path)?;
    fchown(file, Some(found.uid()), Some(found.gid()))?;
    file.set_permissions(Permissions::from_mode(found.mode() & 0o777))
}

/// Fills a new file with the bytes. Whoever can open the file at the path can open this one, too.
fn fill_like(rt: &HostRuntime, file: File, path: &str, bytes: &[u8]) -> Result<(), Error> {
    own_like(rt, &file, path)?;
    fill(file, bytes)
}

/// Makes the draft of a file that is to take the place of the one at the path.
fn make_draft(rt: &HostRuntime, draft: &str, path: &str, bytes: &[u8]) -> Result<(), Unwritten> {
    let file = match make(rt, draft) {
        Ok(file) => file,
        Err(error) if error.kind() == ErrorKind::AlreadyExists => return Err(
            Unwritten::DraftExists,
        ),
        Err(error) => return Err(unwritten(error)),
    };
    match fill_like(rt, file, path, bytes) {
        Ok(()) => Ok(()),
        Err(error) => {
            let _ = fs::remove_file(rt, draft);
            Err(unwritten(error))
        }
    }
}

/// Takes the log away, whose pages are in the file, and gives the draft the name of the file. The log has to
/// be gone first: what it has would be taken for the new file's.
fn rename_over(rt: &HostRuntime, draft: &str, path: &str, log: &str) -> Result<(), Error> {
    fs::remove_file(rt, log)?;
    sync_folder(rt, path)?;
    fs::rename(rt, draft, path)?;
    sync_folder(rt, path)
}

/// Copies the log of a file into it, and gives the draft its name. The file is locked meanwhile.
fn replace_by(
    rt: &HostRuntime,
    held: Held,
    draft: &str,
    path: &str,
    log: &str,
) -> Result<(), Unwritten> {
    let files = settle(held)?;
    let renamed = rename_over(rt, draft, path, log);
    drop(files);
    match renamed {
        Ok(()) => Ok(()),
        Err(error) => Err(unwritten(error)),
    }
}

/// Locks the database file at a path, and its log, which is made where it isn't there. What is at the path has
/// to be a file that `serve` can open: see [`Unseen`]. One that a program has open is in use, and so is one in whose
/// place another was put before it was locked.
pub fn hold(rt: &HostRuntime, path: &str) -> Result<Held, Unseen> {
    check_file(rt, path)?;
    check_mode(rt, path)?;
    let node = check_begun(rt, path)?;
    let files = match sqlite_std_file::open(rt, path, Unknown) {
        Ok(files) => files,
        Err(error) => return Err(unheld(error)),
    };
    // Before it was locked, another one may have put a file there.
    if node_at(rt, path) != Some(node) {
        return Err(Unseen::InUse);
    }
    match Connection::open_files(rt.alloc(), files, Options::new(0)) {
        Ok(conn) => Ok(Held { conn }),
        Err((error, _)) => Err(unopened(error)),
    }
}

/// Puts the database in the place of the one that the file at the path and its log have, which are held. The
/// new file has the owner and the mode of the old one, and no log.
///
/// Whatever stops the program, the old database is there whole, or the new one. Until the new file is whole
/// its name has `-new` behind; a program that was stopped meanwhile leaves that.
pub fn replace(rt: &HostRuntime, held: Held, path: &str, with: &OneFile) -> Result<(), Unwritten> {
    let (Ok(real), Ok(draft), Ok(log)) = (
        real_path(rt, path),
        draft_path(rt, path),
        log_path(rt, path),
    ) else {
        return Err(Unwritten::Failed);
    };
    make_draft(rt, draft.as_str(), real.as_str(), with.bytes.as_slice())?;
    let replaced = replace_by(rt, held, draft.as_str(), real.as_str(), log.as_str());
    if replaced.is_err() {
        let _ = fs::remove_file(rt, draft.as_str());
    }
    replaced
}
