//! Whether a database was there before it was opened.

ghost use Rattle.std.specs.Prelude.{◌≡◌, ◌≢◌, true, false};
ghost use Rattle.sqlite.specs.Held.{state};
ghost use Rattle.osb_tables.specs.Tables.{no_schema};
ghost use Rattle.osb_file.specs.declared.origin.Origin.TheVariants.{New, Kept};

use osb_tables::{FoundSchema, find};
use sqlite::{Alter, Connection};

/// Whether a database was there before it was opened.
#[derive(Clone, Copy, Debug, PartialEq, Eq)]
pub enum Origin {
    /// It has no tables yet.
    New,
    /// It has tables, whosever they are.
    Kept,
}

/// Where the database of a connection comes from.
#[tactic(auto, using(crate::proofs::FileLemmas::first_has_tables, crate::proofs::FileLemmas::second_has_tables))]
pub(crate) fn origin_of<S: Alter>(conn: &Connection<S>) -> Origin
    ensures new { result ≡ New → (state S.Store conn.now).now.schema ≡ no_schema }
    ensures kept { result ≡ Kept → (state S.Store conn.now).now.schema ≢ no_schema }
{
    match find(conn.schema()) {
        FoundSchema::Nothing => Origin::New,
        FoundSchema::First(_) | FoundSchema::Second(_) | FoundSchema::Others => Origin::Kept,
    }
}

/// Whether a database lacks that has to be there.
pub(crate) fn is_missing(existing: bool, origin: Origin) -> bool
    ensures asked { result ≡ true → existing ≡ true }
    ensures new { result ≡ true → origin ≡ New }
    ensures kept { result ≡ false → existing ≡ true → origin ≡ Kept }
{
    existing && origin == Origin::New
}
