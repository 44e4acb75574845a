//! A database in one file that needs no log.

ghost use Rattle.std.specs.Prelude.{◌≡◌, Err, IfOk, length};
ghost use Rattle.sqlite_trees.specs.Tree.{Trees};
ghost use Rattle.osb_orders.specs.Lives.{Lives};
ghost use Rattle.osb_file.specs.declared.unseen.Unseen.TheVariants.{NotOurs, NoTables};
ghost use Rattle.osb_file.specs.File.{AreLivesOf, HasNoTables, HasTrees};
ghost use Rattle.osb_file.specs.Looked.{image_in};
ghost use Rattle.osb_file.specs.OneFile.{IsInOne};
ghost use Rattle.osb_file.specs.Trimmed.{IsTrimmedInOne};

use crate::copied::Copied;
use crate::merging::{count_alone, merged};
use crate::placing::write_new;
use crate::rewriting::rewritten;
use crate::unseen::Unseen;
use crate::unwritten::Unwritten;
use osb_audit::Counts;
use std::alloc::Global;

/// The bytes of one file that has a database without a log, and how much is in it.
#[derive(Debug, Drop)]
pub struct OneFile {
    pub(crate) bytes: Vec<u8>,
    pub(crate) counts: Counts,
}

impl OneFile {
    /// The database of both files in one. It is audited as `serve` would, in the bytes that the one file
    /// gets. A database of version 1 stays one.
    pub fn of(alloc: Global, copied: Copied) -> Result<OneFile, Unseen>
        ensures whole { IfOk result (λ one.
            IsInOne (image_in copied) one.bytes.items one.counts) }
        ensures new { result ≡ Err NoTables → (db : Trees) →
            HasTrees (image_in copied) db → HasNoTables db }
        ensures not_ours { result ≡ Err NotOurs → (db : Trees) →
            HasTrees (image_in copied) db → (lives : Lives) → ¬ AreLivesOf db lives }
    {
        let bytes = merged(alloc, &copied.log, &copied.database)?;
        drop(copied);
        let counts = count_alone(alloc, bytes.as_slice())?;
        Ok(OneFile { bytes, counts })
    }

    /// The database of both files in one, with each life trimmed; and how many orders that changed. It is
    /// audited as `serve` would, in the bytes that the one file gets. It is one of version 2.
    pub fn trimmed(alloc: Global, copied: Copied) -> Result<(OneFile, usize), Unseen>
        ensures whole { IfOk result (λ made.
            IsTrimmedInOne (image_in copied) made.0.bytes.items) }
        ensures new { result ≡ Err NoTables → (db : Trees) →
            HasTrees (image_in copied) db → HasNoTables db }
        ensures not_ours { result ≡ Err NotOurs → (db : Trees) →
            HasTrees (image_in copied) db → (lives : Lives) → ¬ AreLivesOf db lives }
    {
        let (bytes, count) = match rewritten(alloc, &copied.log, &copied.database) {
            Ok(made) => made,
            Err(unseen) => return Err(unseen),
        };
        drop(copied);
        // Bytes that were just made are refused only for memory.
        match count_alone(alloc, bytes.as_slice()) {
            Ok(counts) => Ok((OneFile { bytes, counts }, count)),
            Err(_) => Err(Unseen::Memory),
        }
    }

    /// How much of everything is in it.
    pub fn counts(&self) -> Counts
        ensures { result ≡ self.now.counts }
    {
        self.counts
    }

    /// How many bytes it has.
    pub fn len(&self) -> usize
        ensures { result ≡ length self.now.bytes.items }
    {
        self.bytes.len()
    }

    /// Makes the file, which only its owner may read, and waits until it is on the disk. What is there
    /// stays as it is, and where the file can't be made nothing of it is left.
    ///
    /// Until all of it is there its name has `-new` behind. A program that was stopped meanwhile leaves
    /// that, and it has to be taken away before the file can be made.
    pub fn write(&self, rt: &HostRuntime, path: &str) -> Result<(), Unwritten> {
        write_new(rt, path, self.bytes.as_slice())
    }
}
