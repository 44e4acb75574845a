//! Why a database file wasn't looked at.

ghost use Rattle.std.specs.Prelude.{◌≡◌};
ghost use Rattle.osb_file.specs.Faults.{unseen_fault_of, unseen_text};

use crate::fault::FileFault;
use std::error::Error;
use std::fmt;

/// Why a database file isn't looked at or served from, as far as the causes are told apart. `serve` refuses each of
/// these files.
#[derive(Clone, Copy, Debug, Drop, PartialEq, Eq)]
pub enum Unseen {
    /// Nothing is at the path, or SQLite has another meaning for it than a file's.
    NoFile,
    /// The folder of the path isn't there.
    NoFolder,
    /// A link is at the path, and nothing is where it leads.
    DeadLink,
    /// Its name is so long that no file beside it can have one.
    LongName,
    /// No file can be made in its folder.
    ShutFolder,
    /// Its file system can only be read.
    ReadOnlyDisk,
    DiskFull,
    /// Its log has changes, and it isn't there or has no bytes.
    LogOnly,
    Folder,
    /// It is a device, a socket or the like.
    NotRegular,
    TwoNames,
    CannotRead,
    /// It belongs to another user, and can't be read.
    NotOwned,
    ReadOnly,
    /// SQLite left a journal beside it, which it has to play back first.
    Journal,
    /// Another program has it open, or its bytes changed while they were read.
    InUse,
    /// It was removed, or another one was put in its place, while it was served from.
    TakenAway,
    NoDatabase,
    Damaged,
    Row,
    Memory,
    /// It is a database, and not one of this broker.
    NotOurs,
    /// No database is there yet, and only one that is there would do.
    NoTables,
}

impl Unseen {
    /// What the opening of such a file would answer.
    pub fn fault(self) -> FileFault
        ensures { result ≡ unseen_fault_of self }
    {
        match self {
            Unseen::NotOurs => FileFault::NotOurs,
            Unseen::NoTables => FileFault::Missing,
            _ => FileFault::Refused,
        }
    }

    /// The cause in words.
    pub fn text(self) -> &'static str
        ensures { result.now ≡ unseen_text self }
    {
        match self {
            Unseen::NoFile => "no such file",
            Unseen::NoFolder => "no such folder",
            Unseen::DeadLink => "a link that leads nowhere",
            Unseen::LongName => "its name is too long",
            Unseen::ShutFolder => "its folder can't be written to",
            Unseen::ReadOnlyDisk => "a read-only file system",
            Unseen::DiskFull => "disk full",
            Unseen::LogOnly => "a log without its file",
            Unseen::Folder => "a folder",
            Unseen::NotRegular => "no regular file",
            Unseen::TwoNames => "it has two names",
            Unseen::CannotRead => "it can't be read",
            Unseen::NotOwned => "it belongs to another user",
            Unseen::ReadOnly => "it can't be written to",
            Unseen::Journal => "a journal lies beside it",
            Unseen::InUse => "in use",
            Unseen::TakenAway => "it was taken away",
            Unseen::NoDatabase => "no database",
            Unseen::Damaged => "damaged",
            Unseen::Row => "a row that can't be read",
            Unseen::Memory => "out of memory",
            Unseen::NotOurs => "a database of another program",
            Unseen::NoTables => "no tables yet",
        }
    }
}

impl fmt::Display for Unseen {
    fn fmt<W: fmt::Write>(&self, f: &mut fmt::Formatter<W>) -> fmt::Result {
        f.write_str(self.text())
    }
}

impl Error for Unseen {}
