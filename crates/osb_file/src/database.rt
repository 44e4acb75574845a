//! Where the database of a file is opened.

ghost use Rattle.std.specs.Prelude.{IfSome, ⊤};
ghost use Rattle.sqlite_wal.specs.Recovery.{Image};
ghost use Rattle.sqlite_wal.specs.Files.{image_at};
ghost use Rattle.sqlite.specs.Held.{IsNew, state};
ghost use Rattle.sqlite.specs.State.{HasCleanDisk};
ghost use Rattle.osb_file.specs.Database.{IsOpenedTo};

use crate::database_file::DatabaseFile;
use crate::first_page::PAGE_SIZE;
use sqlite::{Alter, Connection, Error, ErrorCode, FileFrom, FileStore, Options, Start};
use std::fs;
use std::hash::{BuildHasher, RandomState};

/// How many pages the log has before they are copied into the database file: 4 MB of pages of 1,024 bytes. A
/// creation writes some 28, so fewer than one of a hundred waits for a copy.
const PAGES_OF_LOG: usize = 4_000;

/// How many pages of the database file are kept in memory, at least and at most.
const LEAST_PAGES: u64 = 2_000;

const MOST_PAGES: u64 = 8_000;

/// How many pages of the file at the path are kept in memory: all, up to 8 MB. With fewer a start reads most
/// of them again and again, as it looks each row up in each index.
fn pages_to_keep(rt: &HostRuntime, path: &str) -> usize {
    let length = match fs::metadata(rt, path) {
        Ok(found) => found.len(),
        Err(_) => 0,
    };
    let pages = length / PAGE_SIZE as u64;
    pages.max(LEAST_PAGES).min(MOST_PAGES) as usize
}

/// How the file at the path is kept.
fn options_for(rt: &HostRuntime, path: &str) -> Option<Options> {
    let seed = RandomState::new(rt).ok()?.hash_one(&0u8);
    Some(Options {
        cache_pages: pages_to_keep(rt, path),
        checkpoint_frames: PAGES_OF_LOG,
        ..Options::new(seed)
    })
}

/// A database file with its log, before it is opened.
pub trait Database: Drop {
    /// Where its rows are kept.
    type Store: Alter;

    /// What the file and its log hold.
    ghost held: { Self → Image };

    /// Whether no byte that was written to it came back as another so far.
    ghost is_honest: { Self → Type 0 };

    /// Opens it. `file` says where it is, if it is one of the machine's.
    fn open(self, rt: &HostRuntime, file: &DatabaseFile<'_>) -> Option<Connection<Self::Store>>
        ensures fresh { IfSome result IsNew }
        ensures opened { IfSome result (λ conn. HasCleanDisk (state Self.Store.Store conn) →
            IsOpenedTo (held self) (state Self.Store.Store conn)) }
        ensures honest { IfSome result (λ conn. HasCleanDisk (state Self.Store.Store conn) →
            is_honest self) };
}

/// The file at the path that it is opened by. `S` is what the file holds, and no clause ties that to the
/// path. It isn't opened if another file is there once it is locked.
#[derive(Drop)]
pub struct AtPath<S: Start> {
    start: S,
}

impl<S: Start> AtPath<S> {
    /// A file with this content.
    pub fn new(start: S) -> AtPath<S> {
        AtPath { start }
    }
}

impl<S: Start> Database for AtPath<S> {
    type Store = FileStore<FileFrom<S>>;

    ghost held = { λ _. image_at S.Start };

    ghost is_honest = { λ _. ⊤ };

    fn open(self, rt: &HostRuntime, file: &DatabaseFile<'_>) -> Option<Connection<Self::Store>> {
        let Ok(files) = sqlite_std_file::open(rt, file.path(), self.start) else {
            return None;
        };
        // Before it was locked, a trim may have put another file there.
        if !file.is_at_its_path(rt) {
            return None;
        }
        let options = options_for(rt, file.path())?;
        match Connection::open_files(rt.alloc(), files, options) {
            Ok(conn) => Some(conn),
            Err((error, left)) => {
                if error == Error::SqliteFailure(ErrorCode::NotADatabase) {
                    file.drop_new_log(rt);
                }
                drop(left);
                None
            }
        }
    }
}
