//! Databases of version 1, with their tables written out.

use sqlite::{Alter, Connection, Error, MemStore};
use std::alloc::Global;

/// The tables of version 1, in the order in which they were made.
const TABLES: [&str; 4] = [
    "CREATE TABLE format (version INTEGER NOT NULL) STRICT",
    "CREATE TABLE orders (instance_id TEXT NOT NULL, seq INTEGER NOT NULL, kind INTEGER NOT NULL, binding_id TEXT NOT NULL, service_id TEXT NOT NULL, plan_id TEXT NOT NULL, place TEXT NOT NULL, spot TEXT NOT NULL, params TEXT NOT NULL, maint TEXT NOT NULL, state INTEGER NOT NULL, note TEXT NOT NULL, credentials TEXT NOT NULL, PRIMARY KEY (instance_id, seq)) STRICT",
    "CREATE TABLE instances (instance_id TEXT NOT NULL, phase INTEGER NOT NULL, busy INTEGER NOT NULL, last_seq INTEGER NOT NULL, service_id TEXT NOT NULL, plan_id TEXT NOT NULL, organization TEXT NOT NULL, space TEXT NOT NULL, params TEXT NOT NULL, maint TEXT NOT NULL, PRIMARY KEY (instance_id)) STRICT",
    "CREATE TABLE bindings (instance_id TEXT NOT NULL, binding_id TEXT NOT NULL, phase INTEGER NOT NULL, service_id TEXT NOT NULL, plan_id TEXT NOT NULL, app_guid TEXT NOT NULL, bind_resource TEXT NOT NULL, params TEXT NOT NULL, credentials TEXT NOT NULL, PRIMARY KEY (instance_id, binding_id)) STRICT",
];

/// The indexes of version 1. A database has none of them, the first, or both.
pub const INDEXES: [&str; 2] = [
    "CREATE INDEX busy_instances ON instances (busy, instance_id)",
    "CREATE INDEX subject_orders ON orders (instance_id, binding_id, kind, seq)",
];

/// The version, the creation of the instance `i` that runs, and its row.
const ROWS: [&str; 3] = [
    "INSERT INTO format (version) VALUES (1)",
    "INSERT INTO orders VALUES ('i', 1, 1, '', 'svc', 'p-async', 'o', 's', '{}', '1.2.0', 0, '', '{}')",
    "INSERT INTO instances VALUES ('i', 1, 1, 1, 'svc', 'p-async', 'o', 's', '{}', '1.2.0')",
];

/// Runs these statements.
pub fn run<S: Alter>(conn: &mut Connection<S>, statements: &[&str]) -> Result<(), Error> {
    for statement in statements {
        conn.execute(statement, &[])?;
    }
    Ok(())
}

/// Makes a database of version 1, in which the instance `i` is being created, with these indexes.
pub fn make_first<S: Alter>(conn: &mut Connection<S>, indexes: &[&str]) -> Result<(), Error> {
    run(conn, &TABLES)?;
    run(conn, indexes)?;
    run(conn, &ROWS)
}

/// The same in memory.
pub fn first_in_memory(alloc: Global, indexes: &[&str]) -> Result<Connection<MemStore>, Error> {
    let mut conn = Connection::open_in_memory(alloc)?;
    make_first(&mut conn, indexes)?;
    Ok(conn)
}

/// The number that a query answers.
pub fn number_in<S: Alter>(conn: &mut Connection<S>, query: &str) -> Result<u32, Error> {
    conn.query_row(query, &[])?.get(0)
}
