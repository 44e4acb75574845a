//! A file that is made: a database without tables, whose pages are small.

ghost use Rattle.osb_file.specs.File.{HoldsNoTables};

use crate::beside::draft_path;
use crate::placing::{fill, make};
use std::fs;
use std::io::Error;

/// The bytes of a page. SQLite keeps the size that a file has, and each page that a change touches is
/// written whole.
pub(crate) const PAGE_SIZE: usize = 1024;

/// What an empty database begins with: its header of 100 bytes, which has the size of the pages, and
/// the header of a table without rows. Zeros follow (SQLite's file format, 1.3 and 1.6).
const BEGINNING: [u8; 108] = *b"SQLite format 3\0\
\x04\x00\x01\x01\x00\x40\x20\x20\x00\x00\x00\x01\x00\x00\x00\x01\
\x00\x00\x00\x00\x00\x00\x00\x00\x00\x00\x00\x01\x00\x00\x00\x00\
\x00\x00\x00\x00\x00\x00\x00\x00\x00\x00\x00\x00\x00\x00\x00\x00\
\x00\x00\x00\x00\x00\x00\x00\x00\x00\x00\x00\x00\x00\x00\x00\x00\
\x00\x00\x00\x00\x00\x00\x00\x00\x00\x00\x00\x00\x00\x00\x00\x01\
\x00\x2e\x63\x01\x0d\x00\x00\x00\x00\x04\x00\x00";

/// The page of a new file, which holds a database without tables by itself.
pub(crate) fn first_page() -> [u8; PAGE_SIZE]
    ensures { HoldsNoTables result }
{
    let mut page = [0u8; PAGE_SIZE];
    page[..BEGINNING.len()].copy_from_slice(&BEGINNING);
    page
}

/// Writes the page into a new file that only its owner may read, and waits until it is on the disk.
fn write_page(rt: &HostRuntime, path: &str) -> Result<(), Error> {
    fill(make(rt, path)?, &first_page())
}

/// Puts a new file with that page at the path, where none is there: it has all of the page or isn't
/// there, whatever stops the program.
fn place(rt: &HostRuntime, draft: &str, path: &str) -> Result<(), Error> {
    write_page(rt, draft)?;
    fs::hard_link(rt, draft, path)
}

/// Makes the file with small pages, from a draft that gets the file's name once it has all of its page.
fn make_small(rt: &HostRuntime, path: &str) -> Result<(), Error> {
    let draft = draft_path(rt, path)?;
    // What an earlier start left of it.
    let _ = fs::remove_file(rt, draft.as_str());
    let placed = place(rt, draft.as_str(), path);
    let _ = fs::remove_file(rt, draft.as_str());
    placed
}

/// Makes a database without tables where no file is there. A file that is there stays as it is, and so
/// does one that comes there meanwhile. Where small pages can't be had, the file is made empty, and gets
/// pages of 4,096 bytes.
pub(crate) fn make_new(rt: &HostRuntime, path: &str) {
    if matches!(fs::exists(rt, path), Ok(true)) {
        return;
    }
    let _ = make_small(rt, path);
    // Where it can't be made, the opening reports it.
    let _ = make(rt, path);
}
