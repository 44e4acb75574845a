//! In what a database differs from one of this broker.

use crate::looking::{disk_of, unopened};
use crate::unseen::Unseen;
use osb_tables::{FoundSchema, find};
use sqlite::{Alter, Connection, Options};
use sqlite_disk::Files;
use sqlite_schema::schema::Schema;
use sqlite_value::value::Bytes;
use std::alloc::Global;

/// In what a database differs from one of this broker.
#[derive(Debug, Drop, PartialEq, Eq)]
pub enum Difference {
    /// It lacks tables, or has others of their names.
    Tables,
    /// Only a newer program has databases of this version.
    Newer(u64),
    /// It has a table of this name more.
    TableMore(String),
    IndexMore(String),
    ViewMore(String),
    /// Its tables are right, and their rows aren't those of well-formed lives.
    Rows,
}

/// The newest version that this program knows.
const NEWEST: u64 = 2;

/// The tables of both versions. Those of version 1 come first.
const TABLES: [&str; 5] = ["format", "orders", "instances", "bindings", "contexts"];

const FIRST_TABLES: usize = 4;

const INDEXES: [&str; 6] = [
    "sqlite_autoindex_orders_1",
    "sqlite_autoindex_instances_1",
    "sqlite_autoindex_bindings_1",
    "sqlite_autoindex_contexts_1",
    "busy_instances",
    "subject_orders",
];

fn is_among(name: &Bytes, names: &[&str]) -> bool {
    names.iter().any(|it| it.as_bytes() == name.as_slice())
}

/// A name of the schema, empty if it is no text.
fn text_of(alloc: Global, name: &Bytes) -> Result<String, Unseen> {
    match String::from_str(alloc, str::from_utf8(name.as_slice()).unwrap_or("")) {
        Ok(text) => Ok(text),
        Err(_) => Err(Unseen::Memory),
    }
}

fn has_table(schema: &Schema, name: &str) -> bool {
    schema
        .tables
        .as_slice()
        .iter()
        .any(|it| it.name.as_slice() == name.as_bytes())
}

/// Whether it has all tables of version 1, by their names.
fn has_first_tables(schema: &Schema) -> bool {
    TABLES[..FIRST_TABLES]
        .iter()
        .all(|it| has_table(schema, it))
}

/// The first object that a schema has beside the tables and indexes of both versions.
fn object_more(alloc: Global, schema: &Schema) -> Result<Option<Difference>, Unseen> {
    if let Some(view) = schema.views.as_slice().first() {
        return Ok(Some(Difference::ViewMore(text_of(alloc, &view.name)?)));
    }
    let mut tables = schema.tables.as_slice().iter();
    if let Some(table) = tables.find(|it| !is_among(&it.name, &TABLES)) {
        return Ok(Some(Difference::TableMore(text_of(alloc, &table.name)?)));
    }
    let mut indexes = schema.indexes.as_slice().iter();
    match indexes.find(|it| !is_among(&it.name, &INDEXES)) {
        Some(index) => Ok(Some(Difference::IndexMore(text_of(alloc, &index.name)?))),
        None => Ok(None),
    }
}

/// The difference of a schema that isn't one of both versions.
fn difference_of(alloc: Global, schema: &Schema) -> Result<Difference, Unseen> {
    if !has_first_tables(schema) {
        return Ok(Difference::Tables);
    }
    Ok(object_more(alloc, schema)?.unwrap_or(Difference::Tables))
}

/// The version that a database says to have, if it says one.
fn version_in<S: Alter>(conn: &mut Connection<S>) -> Option<u64> {
    let row = conn
        .query_row(
            "SELECT version FROM format ORDER BY version DESC LIMIT 1",
            &[],
        )
        .ok()?;
    u64::try_from(row.get::<i64>(0).ok()?).ok()
}

fn difference_with<S: Alter + Drop>(
    alloc: Global,
    mut conn: Connection<S>,
) -> Result<Difference, Unseen> {
    match version_in(&mut conn) {
        Some(version) if version > NEWEST => return Ok(Difference::Newer(version)),
        _ => {}
    }
    match find(conn.schema()) {
        FoundSchema::Others => difference_of(alloc, conn.schema()),
        _ => Ok(Difference::Rows),
    }
}

/// In what the database of these bytes of two files differs from one of this broker.
pub(crate) fn difference_in(
    alloc: Global,
    log: &[u8],
    database: &[u8],
) -> Result<Difference, Unseen> {
    let (Ok(log), Ok(db)) = (disk_of(alloc, log), disk_of(alloc, database)) else {
        return Err(Unseen::Memory);
    };
    match Connection::open_files(alloc, Files { log, db }, Options::new(0)) {
        Ok(conn) => difference_with(alloc, conn),
        Err((error, _)) => Err(unopened(error)),
    }
}
