//! A database file and its log, read into memory.

ghost use Rattle.std.specs.Prelude.{◌≡◌, [], Err, IfOk};
ghost use Rattle.sqlite_trees.specs.Tree.{Trees};
ghost use Rattle.osb_orders.specs.Lives.{Lives};
ghost use Rattle.osb_file.specs.declared.seen.Seen.TheVariants.{New};
ghost use Rattle.osb_file.specs.declared.unseen.Unseen.TheVariants.{NotOurs};
ghost use Rattle.osb_file.specs.File.{AreLivesOf, HasTrees};
ghost use Rattle.osb_file.specs.Looked.{IsSeenAs, image_in, length_of};

use crate::beside::{SHORTEST_LOG, has_folder, has_long_name, is_log_without_file, log_path};
use crate::database_file::is_special;
use crate::difference::{Difference, difference_in};
use crate::looking::{disk_of, look_into};
use crate::moment::{Moment, moment_of};
use crate::seen::Seen;
use crate::unseen::Unseen;
use sqlite_disk::Files;
use std::alloc::Global;
use std::fs::{self, OpenOptions};
use std::io::{Error, ErrorKind, Read};
use std::os::unix::fs::MetadataExt;

/// How often the two files are read, where each time something comes in between.
const MOST_TRIES: usize = 50;

/// The bytes of a database file and of its log.
#[derive(Debug, Drop)]
pub struct Copied {
    pub(crate) database: Vec<u8>,
    pub(crate) log: Vec<u8>,
}

/// What a call on a file that is there has met.
pub(crate) fn unread(error: Error) -> Unseen {
    match error.kind() {
        ErrorKind::OutOfMemory => Unseen::Memory,
        _ => Unseen::CannotRead,
    }
}

/// Why no file is at the path.
fn absent(rt: &HostRuntime, path: &str) -> Unseen {
    if fs::symlink_metadata(rt, path).is_ok() {
        return Unseen::DeadLink;
    }
    if has_folder(rt, path) {
        Unseen::NoFile
    } else {
        Unseen::NoFolder
    }
}

/// Refuses what is at the path unless it is a regular file with one name.
fn check_kind(rt: &HostRuntime, path: &str) -> Result<(), Unseen> {
    let found = match fs::metadata(rt, path) {
        Ok(found) => found,
        Err(error) if error.kind() == ErrorKind::NotFound => return Err(absent(rt, path)),
        Err(error) if error.kind() == ErrorKind::NotADirectory => return Err(Unseen::NoFolder),
        Err(error) => return Err(unread(error)),
    };
    if found.is_dir() {
        return Err(Unseen::Folder);
    }
    if !found.is_file() {
        return Err(Unseen::NotRegular);
    }
    if found.nlink() != 1 {
        return Err(Unseen::TwoNames);
    }
    Ok(())
}

/// Refuses a log that lacks its file.
fn check_log(rt: &HostRuntime, path: &str) -> Result<(), Unseen> {
    match is_log_without_file(rt, path) {
        Ok(false) => Ok(()),
        Ok(true) => Err(Unseen::LogOnly),
        Err(error) => Err(unread(error)),
    }
}

/// Whether the file at the path begins with a byte other than 0, as a journal does that is to be played back.
fn begins(rt: &HostRuntime, path: &str) -> Result<bool, Error> {
    let mut first = [0];
    let mut file = fs::open(rt, path)?;
    Ok(file.read(&mut first)? == 1 && first[0] != 0)
}

fn check_journal(rt: &HostRuntime, path: &str) -> Result<(), Unseen> {
    let Ok(journal) = format!(in rt.alloc(); "{path}-journal") else {
        return Err(Unseen::Memory);
    };
    match begins(rt, journal.as_str()) {
        Ok(false) => Ok(()),
        Err(error) if error.kind() == ErrorKind::NotFound => Ok(()),
        Ok(true) | Err(_) => Err(Unseen::Journal),
    }
}

/// Refuses a file that can't be opened for writing, as a start does. Nothing is written.
pub fn check_mode(rt: &HostRuntime, path: &str) -> Result<(), Unseen> {
    match OpenOptions::new().read(true).write(true).open(rt, path) {
        Ok(_) => Ok(()),
        Err(error) if error.kind() == ErrorKind::OutOfMemory => Err(Unseen::Memory),
        Err(error) if error.kind() == ErrorKind::ReadOnlyFilesystem => Err(Unseen::ReadOnlyDisk),
        Err(_) => match fs::open(rt, path) {
            Ok(_) => Err(Unseen::ReadOnly),
            Err(error) => Err(unreadable(rt, path, error)),
        },
    }
}

/// Whether the file belongs to another user than that of this process, as far as that is seen.
fn is_owned_by_another(rt: &HostRuntime, path: &str) -> bool {
    match (fs::metadata(rt, path), fs::metadata(rt, "/proc/self")) {
        (Ok(file), Ok(process)) => file.uid() != process.uid(),
        _ => false,
    }
}

/// What the opening of a file for reading has met.
fn unreadable(rt: &HostRuntime, path: &str, error: Error) -> Unseen {
    if error.kind() == ErrorKind::PermissionDenied && is_owned_by_another(rt, path) {
        return Unseen::NotOwned;
    }
    unread(error)
}

fn read_file(rt: &HostRuntime, path: &str) -> Result<Vec<u8>, Unseen> {
    match fs::read(rt, path) {
        Ok(bytes) => Ok(bytes),
        Err(error) => Err(unreadable(rt, path, error)),
    }
}

/// A log, empty where there is none.
fn read_log(rt: &HostRuntime, log: &str) -> Result<Vec<u8>, Unseen> {
    match fs::read(rt, log) {
        Ok(bytes) => Ok(bytes),
        Err(error) if error.kind() == ErrorKind::NotFound => Ok(Vec::new(rt.alloc())),
        Err(error) => Err(unread(error)),
    }
}

/// Reads the file, and behind it its log (docs/DECISIONS.md, 'A moment of the two files').
fn read_both(rt: &HostRuntime, path: &str, log: &str) -> Result<Copied, Unseen> {
    let database = read_file(rt, path)?;
    let log = read_log(rt, log)?;
    Ok(Copied { database, log })
}

fn moment_at(rt: &HostRuntime, path: &str, log: &str) -> Result<Moment, Unseen> {
    match moment_of(rt, path, log) {
        Ok(moment) => Ok(moment),
        Err(error) => Err(unread(error)),
    }
}

/// Reads both, and gives them where they belong to one moment.
fn read_once(rt: &HostRuntime, path: &str, log: &str) -> Result<Option<Copied>, Unseen> {
    let before = moment_at(rt, path, log)?;
    let copied = read_both(rt, path, log)?;
    let after = moment_at(rt, path, log)?;
    Ok(if before == after { Some(copied) } else { None })
}

/// Reads both, again where something came in between.
fn read_moment(rt: &HostRuntime, path: &str) -> Result<Copied, Unseen> {
    let log = match log_path(rt, path) {
        Ok(log) => log,
        Err(error) => return Err(unread(error)),
    };
    for _ in 0..MOST_TRIES {
        if let Some(copied) = read_once(rt, path, log.as_str())? {
            return Ok(copied);
        }
    }
    Err(Unseen::InUse)
}

/// Refuses a path where `serve` couldn't open a database file that is there, though it may be written to.
pub(crate) fn check_file(rt: &HostRuntime, path: &str) -> Result<(), Unseen> {
    if is_special(path) {
        return Err(Unseen::NoFile);
    }
    if has_long_name(rt, path) {
        return Err(Unseen::LongName);
    }
    check_log(rt, path)?;
    check_kind(rt, path)?;
    check_journal(rt, path)
}

impl Copied {
    /// Reads a database file and its log as they are at one moment, and writes nothing. A broker may run
    /// over them: what it has answered before is in what is read. Where its log begins anew meanwhile, they
    /// are read again, 50 times at most.
    ///
    /// What is at the path has to be a file that `serve` could open, but it may be one that can only be read, as of a
    /// snapshot: see [`Unseen`].
    pub fn read(rt: &HostRuntime, path: &str) -> Result<Copied, Unseen> {
        check_file(rt, path)?;
        read_moment(rt, path)
    }

    /// How many bytes the database file has, and its log, if there is a change in that.
    pub fn len(&self) -> usize
        ensures { result ≡ length_of self.now }
    {
        if self.log.len() < SHORTEST_LOG {
            self.database.len()
        } else {
            self.database.len() + self.log.len()
        }
    }

    /// What the database of these bytes has, opened and audited as `serve` would. All of it happens in
    /// memory, so the files stay as they are.
    pub fn look(&self, alloc: Global) -> Result<Seen, Unseen>
        ensures seen { IfOk result (λ seen. (db : Trees) →
            HasTrees (image_in self.now) db → IsSeenAs db seen) }
        ensures empty { self.now.database.items ≡ [] → IfOk result (λ seen. seen ≡ New) }
        ensures not_ours { result ≡ Err NotOurs → (db : Trees) →
            HasTrees (image_in self.now) db → (lives : Lives) → ¬ AreLivesOf db lives }
    {
        let (Ok(log), Ok(db)) = (disk_of(alloc, &self.log), disk_of(alloc, &self.database)) else {
            return Err(Unseen::Memory);
        };
        look_into(alloc, Files { log, db })
    }

    /// In what the database of these bytes differs from one of this broker, if it isn't one.
    pub fn difference(&self, alloc: Global) -> Result<Difference, Unseen> {
        difference_in(alloc, &self.log, &self.database)
    }
}
