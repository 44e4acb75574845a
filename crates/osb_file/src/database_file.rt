//! Which file a database is kept in.

ghost use Rattle.std.specs.Prelude.{◌≡◌, ◌≢◌, true, Err, IfOk, IfErr};
ghost use Rattle.osb_file.specs.declared.fault.FileFault.TheVariants.{NotOurs, Missing};

use crate::beside::{
    SHORTEST_LOG, drop_second_name, has_long_name, is_blank, is_log_without_file, length_at,
    log_path,
};
use crate::fault::FileFault;
use crate::first_page::make_new;
use osb_records::StoreFault;
use std::fs::{self, Metadata};
use std::os::unix::fs::MetadataExt;

/// What a file differs from all others in, whatever its name: its device and its number there.
#[derive(Clone, Copy, Debug, PartialEq, Eq)]
pub(crate) struct Node {
    device: u64,
    number: u64,
}

/// Which file was found.
pub(crate) fn node_of(found: &Metadata) -> Node {
    Node {
        device: found.dev(),
        number: found.ino(),
    }
}

/// The file that is at a path; nothing where none is, or where it can't be looked at.
pub(crate) fn node_at(rt: &HostRuntime, path: &str) -> Option<Node> {
    match fs::metadata(rt, path) {
        Ok(found) => Some(node_of(&found)),
        Err(_) => None,
    }
}

/// Whether SQLite has another meaning for the path than a file's: a database in memory, or a URI.
pub(crate) fn is_special(path: &str) -> bool {
    path == ":memory:" || path.starts_with("file:")
}

/// A database file: its path and that of its log, and which file was there before the database was opened.
#[derive(Debug, Drop)]
pub struct DatabaseFile<'a> {
    path: &'a str,
    log: String,
    node: Node,
    existing: bool,
    /// Whether its log was there before the database was opened.
    had_log: bool,
}

impl<'a> DatabaseFile<'a> {
    /// The file at a path. Where there is none it is made, as a database without tables and with mode 600,
    /// so that only its owner reads what the database will hold. With `existing` none is made, and the
    /// fault is `Missing` where no file is there or one of no bytes.
    ///
    /// It is refused where there is none and it can't be made, where it can't be looked at, where its log
    /// is there without it, where its name has more than 247 bytes, and where SQLite has another meaning for the
    /// path: `:memory:`, or one that begins with `file:`.
    pub fn at(
        rt: &HostRuntime,
        path: &'a str,
        existing: bool,
    ) -> Result<DatabaseFile<'a>, FileFault>
        ensures path { IfOk result (λ file. file.path ≡ path.entry) }
        ensures existing { IfOk result (λ file. file.existing ≡ existing) }
        ensures ours { IfErr result (λ fault. fault ≢ NotOurs) }
        ensures missing { IfErr result (λ fault. fault ≡ Missing → existing ≡ true) }
    {
        if is_special(path)
            || has_long_name(rt, path)
            || !matches!(is_log_without_file(rt, path), Ok(false))
        {
            return Err(FileFault::Refused);
        }
        if existing && matches!(is_blank(rt, path), Ok(true)) {
            return Err(FileFault::Missing);
        }
        if !existing {
            make_new(rt, path);
        }
        // Where it can't be taken away, the opening reports the second name.
        let _ = drop_second_name(rt, path);
        let (Some(node), Ok(log)) = (node_at(rt, path), log_path(rt, path)) else {
            return Err(FileFault::Refused);
        };
        let had_log = node_at(rt, log.as_str()).is_some();
        Ok(DatabaseFile {
            path,
            log,
            node,
            existing,
            had_log,
        })
    }

    /// The path that it was looked for at.
    pub fn path(&self) -> &'a str
        ensures { result ≡ self.now.path }
    {
        self.path
    }

    /// Whether a database has to be there.
    pub fn is_existing(&self) -> bool
        ensures { result ≡ self.now.existing }
    {
        self.existing
    }

    /// Whether the file is at its path still. It isn't if another one was put there.
    pub(crate) fn is_at_its_path(&self, rt: &HostRuntime) -> bool {
        node_at(rt, self.path) == Some(self.node)
    }

    /// Takes the log away that the opening has made, as long as it has no change. The file has to be locked.
    pub(crate) fn drop_new_log(&self, rt: &HostRuntime) {
        let log = self.log.as_str();
        if !self.had_log
            && matches!(length_at(rt, log), Ok(length) if length < SHORTEST_LOG as u64)
        {
            let _ = fs::remove_file(rt, log);
        }
    }

    /// Leaves the file as it was found, if it is a database of another program.
    pub(crate) fn leave_others(&self, rt: &HostRuntime, fault: StoreFault) {
        if fault == StoreFault::NotOurs {
            self.drop_new_log(rt);
        }
    }

    /// The file with the log that is beside it now. The opening of the database makes a log that lacks, so
    /// this is called after it.
    pub fn watched(&self, rt: &HostRuntime) -> WatchedFile<'_> {
        WatchedFile {
            file: self,
            log: node_at(rt, self.log.as_str()),
        }
    }
}

/// A database file and its log, which make up one database.
#[derive(Clone, Copy, Debug)]
pub struct WatchedFile<'a> {
    file: &'a DatabaseFile<'a>,
    log: Option<Node>,
}

impl WatchedFile<'_> {
    /// Whether both files are at their paths still: none was removed, and none was put in the place of
    /// one. It is one look at each, and `false` also where that fails.
    pub fn is_there(&self, rt: &HostRuntime) -> bool {
        self.file.is_at_its_path(rt)
            && self.log.is_some()
            && node_at(rt, self.file.log.as_str()) == self.log
    }
}
