//! A new file that has all of its bytes, or isn't there.

use crate::beside::folder_of;
use crate::database_file::is_special;
use crate::unwritten::Unwritten;
use std::fs::{self, OpenOptions};
use std::io::{Error, ErrorKind, Write};
use std::os::unix::fs::OpenOptionsExt;

/// The permission bits of a file that is made: its owner reads and writes it.
const OWNER_ALONE: u32 = 0o600;

/// What a call that makes a file has met.
pub(crate) fn unwritten(error: Error) -> Unwritten {
    match error.kind() {
        ErrorKind::OutOfMemory => Unwritten::Memory,
        ErrorKind::AlreadyExists => Unwritten::Exists,
        _ => Unwritten::Failed,
    }
}

/// Refuses a path where something is, also a link that leads nowhere.
fn check_free(rt: &HostRuntime, path: &str) -> Result<(), Unwritten> {
    match fs::symlink_metadata(rt, path) {
        Ok(_) => Err(Unwritten::Exists),
        Err(error) if error.kind() == ErrorKind::NotFound => Ok(()),
        Err(error) => Err(unwritten(error)),
    }
}

/// Waits until what is in the folder of the path is on the disk.
pub(crate) fn sync_folder(rt: &HostRuntime, path: &str) -> Result<(), Error> {
    fs::open(rt, folder_of(path))?.sync_all()
}

/// Makes a file where none is, empty and for its owner only.
pub(crate) fn make(rt: &HostRuntime, path: &str) -> Result<fs::File, Error> {
    OpenOptions::new()
        .write(true)
        .create_new(true)
        .mode(OWNER_ALONE)
        .open(rt, path)
}

/// Writes the bytes into a new file and waits until they are on the disk.
pub(crate) fn fill(mut file: fs::File, bytes: &[u8]) -> Result<(), Error> {
    file.write_all(bytes)?;
    file.sync_all()
}

/// Gives the draft the name of the path, where nothing is there. On a file system without second names
/// what comes there at the last moment is lost.
fn rename_new(rt: &HostRuntime, draft: &str, path: &str) -> Result<(), Error> {
    match fs::hard_link(rt, draft, path) {
        Ok(()) => fs::remove_file(rt, draft),
        Err(error) if error.kind() == ErrorKind::AlreadyExists => Err(error),
        Err(_) => fs::rename(rt, draft, path),
    }
}

/// Fills the draft and gives it the name of the path.
fn place(
    rt: &HostRuntime,
    file: fs::File,
    draft: &str,
    path: &str,
    bytes: &[u8],
) -> Result<(), Unwritten> {
    if let Err(error) = fill(file, bytes) {
        return Err(unwritten(error));
    }
    if let Err(error) = rename_new(rt, draft, path) {
        return Err(unwritten(error));
    }
    let Err(error) = sync_folder(rt, path) else {
        return Ok(());
    };
    let _ = fs::remove_file(rt, path);
    Err(unwritten(error))
}

/// Makes a file of these bytes, by way of a draft that gets its name once it has all of them.
pub(crate) fn write_new(rt: &HostRuntime, path: &str, bytes: &[u8]) -> Result<(), Unwritten> {
    if is_special(path) {
        return Err(Unwritten::Failed);
    }
    check_free(rt, path)?;
    let Ok(draft) = format!(in rt.alloc(); "{path}-new") else {
        return Err(Unwritten::Memory);
    };
    let file = match make(rt, draft.as_str()) {
        Ok(file) => file,
        Err(error) if error.kind() == ErrorKind::AlreadyExists => return Err(
            Unwritten::DraftExists,
        ),
        Err(error) => return Err(unwritten(error)),
    };
    let placed = place(rt, file, draft.as_str(), path, bytes);
    if placed.is_err() {
        let _ = fs::remove_file(rt, draft.as_str());
    }
    placed
}
