//! The files that a command names.

ghost use Rattle.std.specs.Prelude.{ℕ, List, IfOk, OnOk};
ghost use Rattle.osb_cli.specs.Files.{AreBytesOf, Contents, IsCopyOf, IsShared};

use crate::input::{ReadFault, read_whole};
use osb_file::{Copied, Held, OneFile, Unseen, Unwritten, cause_of, check_mode, hold, replace};
use osb_frames::Counted;
use std::alloc::Global;
use std::fs::{self, File};
use std::os::unix::fs::MetadataExt;

/// The bits of a file's mode by which every user may read or write it.
const FOR_ALL: u32 = 0o006;

/// The files that a command can name. What is said over `F: NamedFiles` is said of all that they may have.
pub trait NamedFiles {
    /// What each file has, where it is known.
    ghost contents: { Self → Contents };

    /// What is known once a file was made, by its name and its bytes.
    ghost is_made: { Self → List ℕ → List ℕ → Type 0 };

    /// Reads a file whole. One of more than 16,777,216 bytes is too large.
    fn read(&self, alloc: Global, name: &str) -> Result<Vec<u8>, ReadFault>
        ensures { IfOk result (λ bytes. AreBytesOf (contents self.now) name.now bytes.items) };

    /// Whether every user may read or write a file.
    fn is_shared(&self, name: &str) -> bool
        ensures { IsShared (contents self.now) name.now result };

    /// Reads a database file and its log, as `Copied::read` does.
    fn read_database(&self, path: &str) -> Result<Copied, Unseen>
        ensures { IfOk result (IsCopyOf (contents self.now) path.now) };

    /// Refuses a database file that can't be written to, as `check_mode` of osb_file does.
    fn check_mode(&self, path: &str) -> Result<(), Unseen>;

    /// Why a start has refused a database file, as `cause_of` of osb_file finds it.
    fn cause_of(&self, path: &str, is_open: bool) -> Option<Unseen>;

    /// Makes a file that has a database, as `OneFile::write` does.
    fn make(&self, name: &str, database: &OneFile) -> Result<(), Unwritten>
        ensures { OnOk result (is_made self.now name.now database.now.bytes.items) };

    /// Takes a file away that was made.
    fn take_away(&self, name: &str);

    /// Locks a database file and its log, as `hold` of osb_file does.
    fn hold(&self, path: &str) -> Result<Held, Unseen>;

    /// Puts a database in the place of the one that a file of that path and its log have, as `replace` of
    /// osb_file does.
    fn replace(&self, held: Held, path: &str, database: &OneFile) -> Result<(), Unwritten>
        ensures { OnOk result (is_made self.now path.now database.now.bytes.items) };
}

/// The files of the machine. No contract says what they have.
#[derive(Clone, Copy)]
pub struct HostFiles<'a> {
    rt: &'a HostRuntime,
}

impl<'a> HostFiles<'a> {
    /// The host's files, by their paths.
    pub fn new(rt: &'a HostRuntime) -> HostFiles<'a> {
        HostFiles { rt }
    }
}

impl NamedFiles for HostFiles<'_> {
    ghost use Rattle.std.specs.Prelude.{None, ⊤};

    ghost contents = { λ _. record { file = λ _. None; log = λ _. None; is_shared = λ _. None } };

    ghost is_made = { λ _ _ _. ⊤ };

    fn read(&self, alloc: Global, name: &str) -> Result<Vec<u8>, ReadFault> {
        let Ok(file) = File::open(self.rt, name) else {
            return Err(ReadFault::Failed);
        };
        read_whole(alloc, &mut Counted::new(file))
    }

    fn is_shared(&self, name: &str) -> bool {
        match fs::metadata(self.rt, name) {
            Ok(found) => found.mode() & FOR_ALL != 0,
            Err(_) => false,
        }
    }

    fn read_database(&self, path: &str) -> Result<Copied, Unseen> {
        Copied::read(self.rt, path)
    }

    fn check_mode(&self, path: &str) -> Result<(), Unseen> {
        check_mode(self.rt, path)
    }

    fn cause_of(&self, path: &str, is_open: bool) -> Option<Unseen> {
        cause_of(self.rt, path, is_open)
    }

    fn make(&self, name: &str, database: &OneFile) -> Result<(), Unwritten> {
        database.write(self.rt, name)
    }

    fn take_away(&self, name: &str) {
        let _ = fs::remove_file(self.rt, name);
    }

    fn hold(&self, path: &str) -> Result<Held, Unseen> {
        hold(self.rt, path)
    }

    fn replace(&self, held: Held, path: &str, database: &OneFile) -> Result<(), Unwritten> {
        replace(self.rt, held, path, database)
    }
}
