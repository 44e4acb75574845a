//! The table of contexts: single statements over connections in memory.

ghost use Rattle.std.specs.Prelude.{◌≡◌, false, IfOk};
ghost use Rattle.sqlite.specs.Held.{state};
ghost use Rattle.osb_tables.specs.Tables.{made, five_tables, tables_schema};
ghost use Rattle.osb_joined.specs.Contexts.{context_entry, AreRising};
ghost use Rattle.osb_contexts.specs.Inside.{ShowsSchema};
ghost use Rattle.osb_contexts.specs.Steps.{HasContexts};
ghost use Rattle.osb_contexts.specs.Reads.{behind, Does};

use osb_contexts::{
    NamedTable, are_contexts_named, are_rows_named, insert_context, insert_contexts, read_context,
    read_contexts, reshape, update_context,
};
use osb_joined::ContextEntry;
use osb_tables::{FoundSchema, Indexes, find};
use osb_text::Text;
use sqlite::types::ValueRef;
use sqlite::{Alter, Connection, Error, MemStore, Transaction, params};
use std::alloc::{AllocError, Global};
use std::test::Fail;

static TABLES: [&str; 4] = [
    "CREATE TABLE format (version INTEGER NOT NULL) STRICT",
    "CREATE TABLE orders (instance_id TEXT NOT NULL, seq INTEGER NOT NULL, kind INTEGER NOT NULL, binding_id TEXT NOT NULL, service_id TEXT NOT NULL, plan_id TEXT NOT NULL, place TEXT NOT NULL, spot TEXT NOT NULL, params TEXT NOT NULL, maint TEXT NOT NULL, state INTEGER NOT NULL, note TEXT NOT NULL, credentials TEXT NOT NULL, PRIMARY KEY (instance_id, seq)) STRICT",
    "CREATE TABLE instances (instance_id TEXT NOT NULL, phase INTEGER NOT NULL, busy INTEGER NOT NULL, last_seq INTEGER NOT NULL, service_id TEXT NOT NULL, plan_id TEXT NOT NULL, organization TEXT NOT NULL, space TEXT NOT NULL, params TEXT NOT NULL, maint TEXT NOT NULL, PRIMARY KEY (instance_id)) STRICT",
    "CREATE TABLE bindings (instance_id TEXT NOT NULL, binding_id TEXT NOT NULL, phase INTEGER NOT NULL, service_id TEXT NOT NULL, plan_id TEXT NOT NULL, app_guid TEXT NOT NULL, bind_resource TEXT NOT NULL, params TEXT NOT NULL, credentials TEXT NOT NULL, PRIMARY KEY (instance_id, binding_id)) STRICT",
];

const CONTEXTS: &str =
    "CREATE TABLE contexts (instance_id TEXT NOT NULL, seq INTEGER NOT NULL, context TEXT NOT NULL, PRIMARY KEY (instance_id, seq)) STRICT";

const INSERT: &str = "INSERT INTO contexts VALUES (?1, ?2, '{}')";

const BUSY: &str = "CREATE INDEX busy_instances ON instances (busy, instance_id)";

const SUBJECT: &str = "CREATE INDEX subject_orders ON orders (instance_id, binding_id, kind, seq)";

static ROWS: [&str; 4] = [
    "INSERT INTO format (version) VALUES (1)",
    "INSERT INTO orders VALUES ('i', 1, 1, '', 's', 'p', 'o', 'q', '{}', '', 1, '', '{}')",
    "INSERT INTO instances VALUES ('i', 2, 0, 1, 's', 'p', 'o', 'q', '{}', '')",
    "INSERT INTO bindings VALUES ('i', 'b', 2, 's', 'p', 'a', '{}', '{}', '{}')",
];

fn run<S: Alter>(conn: &mut Connection<S>, statements: &[&str]) -> Result<(), Error> {
    for statement in statements {
        conn.execute(statement, &[])?;
    }
    Ok(())
}

/// Makes a database of version 1 with these indexes and a few rows.
fn make_first<S: Alter>(conn: &mut Connection<S>, indexes: &[&str]) -> Result<(), Error> {
    run(conn, &TABLES)?;
    run(conn, indexes)?;
    run(conn, &ROWS)
}

/// The same in memory.
fn first(alloc: Global, indexes: &[&str]) -> Result<Connection<MemStore>, Error> {
    let mut conn = Connection::open_in_memory(alloc)?;
    make_first(&mut conn, indexes)?;
    Ok(conn)
}

/// The indexes of a database of version 1 over which no transaction runs.
fn indexes_of<S: Alter>(conn: &Connection<S>) -> Result<Indexes, Error>
    ensures { IfOk result (λ indexes. ((state S.Store conn.now).in_transaction ≡ false)
        × ((state S.Store conn.now).now.schema ≡ made tables_schema indexes)) }
{
    if !conn.is_autocommit() {
        return Err(Error::InvalidQuery);
    }
    match find(conn.schema()) {
        FoundSchema::First(indexes) => Ok(indexes),
        _ => Err(Error::InvalidQuery),
    }
}

fn entry(
    alloc: Global,
    instance: &str,
    number: u32,
    context: &str,
) -> Result<ContextEntry, AllocError>
    ensures { IfOk result (λ entry. entry ≡ context_entry instance.now number context.now) }
{
    Ok(ContextEntry {
        number,
        instance: Text::from_str(alloc, instance)?,
        context: Text::from_str(alloc, context)?,
    })
}

/// Three contexts in the order of their keys.
fn three(alloc: Global) -> Result<Vec<ContextEntry>, Error>
    ensures { IfOk result (λ entries. AreRising entries.items) }
{
    let mut entries = Vec::new(alloc);
    entries.push(entry(alloc, "g", 1, "{}")?)?;
    entries.push(entry(alloc, "i", 0, "{\"b\":2}")?)?;
    entries.push(entry(alloc, "i", 1, "{\"a\":1}")?)?;
    Ok(entries)
}

/// The indexes of a database of version 2 over which no transaction runs.
fn second_indexes_of<S: Alter>(conn: &Connection<S>) -> Result<Indexes, Error>
    ensures { IfOk result (λ indexes. ((state S.Store conn.now).in_transaction ≡ false)
        × ((state S.Store conn.now).now.schema ≡ made five_tables indexes)) }
{
    if !conn.is_autocommit() {
        return Err(Error::InvalidQuery);
    }
    match find(conn.schema()) {
        FoundSchema::Second(indexes) => Ok(indexes),
        _ => Err(Error::InvalidQuery),
    }
}

/// Makes the table of contexts, with one context that is then another one.
fn change<S: Alter>(tx: &mut Transaction<'_, S>, indexes: Indexes) -> Result<(), Error>
    requires { ShowsSchema (made tables_schema indexes) (behind S.Store tx.old) }
    ensures { Does S.Store tx.old tx.new result (λ old new. HasContexts new.now) }
{
    reshape(tx, indexes)?;
    insert_context(tx, "i", 1, "{}")?;
    update_context(tx, "i", 1, "{\"a\":1}")?;
    Ok(())
}

/// The context of this key after that.
fn context_of<S: Alter>(
    conn: &mut Connection<S>,
    instance: &str,
    number: u32,
) -> Result<Text, Error> {
    let indexes = indexes_of(conn)?;
    let mut tx = conn.transaction();
    change(&mut tx, indexes)?;
    read_context(&mut tx, instance, number)
}

/// How many rows are written where the key gets this context after that.
fn written_by<S: Alter>(conn: &mut Connection<S>, context: &str) -> Result<usize, Error> {
    let indexes = indexes_of(conn)?;
    let mut tx = conn.transaction();
    change(&mut tx, indexes)?;
    update_context(&mut tx, "i", 1, context)
}

/// The contexts of these instances after a few went in at once.
fn contexts_of<S: Alter>(
    conn: &mut Connection<S>,
    alloc: Global,
    entries: &[ContextEntry],
    after: &str,
    to: ValueRef<'_>,
) -> Result<Vec<ContextEntry>, Error>
    requires { AreRising entries.now }
{
    let indexes = indexes_of(conn)?;
    let mut tx = conn.transaction();
    reshape(&mut tx, indexes)?;
    insert_contexts(&mut tx, entries)?;
    match read_contexts(&mut tx, alloc, after, to)? {
        Some(contexts) => Ok(contexts),
        None => Err(Error::InvalidQuery),
    }
}

fn is_context(alloc: Global, number: u32, context: &str) -> Result<bool, Error> {
    let mut conn = first(alloc, &[BUSY, SUBJECT])?;
    let found = context_of(&mut conn, "i", number);
    drop(conn);
    Ok(found?.as_str() == context)
}

fn written(alloc: Global, context: &str) -> Result<usize, Error> {
    let mut conn = first(alloc, &[BUSY, SUBJECT])?;
    let written = written_by(&mut conn, context);
    drop(conn);
    written
}

fn reads_what_went_in(alloc: Global) -> Result<bool, Error> {
    let entries = three(alloc)?;
    let mut conn = first(alloc, &[BUSY])?;
    let found = contexts_of(&mut conn, alloc, &entries, "", ValueRef::Blob(&[]));
    drop(conn);
    Ok(found? == entries)
}

/// How many of the three contexts are of these instances.
fn count_between(alloc: Global, after: &str, to: ValueRef<'_>) -> Result<usize, Error> {
    let entries = three(alloc)?;
    let mut conn = first(alloc, &[BUSY])?;
    let found = contexts_of(&mut conn, alloc, &entries, after, to);
    drop(conn);
    Ok(found?.len())
}

/// Whether each row of a context has an id, where one is of this instance.
fn are_named_in<S: Alter>(
    conn: &mut Connection<S>,
    alloc: Global,
    instance: &str,
) -> Result<bool, Error> {
    let indexes = indexes_of(conn)?;
    let mut tx = conn.transaction();
    reshape(&mut tx, indexes)?;
    insert_context(&mut tx, instance, 1, "{}")?;
    are_contexts_named(&mut tx, alloc)
}

fn are_named(alloc: Global, instance: &str) -> Result<bool, Error> {
    let mut conn = first(alloc, &[BUSY])?;
    let named = are_named_in(&mut conn, alloc, instance);
    drop(conn);
    named
}

/// Makes an empty database one of version 2 with so many contexts, the last of them of this instance.
fn fill<S: Alter>(conn: &mut Connection<S>, most: u32, last: &str) -> Result<(), Error> {
    run(conn, &TABLES)?;
    run(conn, &[CONTEXTS, BUSY, SUBJECT])?;
    for number in 1..most {
        conn.execute(INSERT, params!["i", number])?;
    }
    conn.execute(INSERT, params![last, most])?;
    Ok(())
}

/// Whether each row of the table has the id of an instance after that.
fn are_many_named_in<S: Alter>(
    conn: &mut Connection<S>,
    alloc: Global,
    most: u32,
    last: &str,
    table: NamedTable,
) -> Result<bool, Error> {
    fill(conn, most, last)?;
    match second_indexes_of(conn)? {
        Indexes::Both => {
            let mut tx = conn.transaction();
            are_rows_named(&mut tx, alloc, table)
        }
        _ => Err(Error::InvalidQuery),
    }
}

/// The same in memory.
fn are_many_named(alloc: Global, most: u32, last: &str, table: NamedTable) -> Result<bool, Error> {
    let mut conn = Connection::open_in_memory(alloc)?;
    let named = are_many_named_in(&mut conn, alloc, most, last, table);
    drop(conn);
    named
}

#[test]
fn a_context_becomes_another(rt: HostRuntime) -> Result<(), Fail> {
    assert!(rt; is_context(rt.alloc(), 1, "{\"a\":1}")?);
    assert!(rt; is_context(rt.alloc(), 0, "{}") == Err(Error::QueryReturnedNoRows));
    Ok(())
}

#[test]
fn a_context_that_is_there_is_not_written(rt: HostRuntime) -> Result<(), Fail> {
    assert!(rt; written(rt.alloc(), "{}")? == 1);
    assert!(rt; written(rt.alloc(), "{\"a\":1}")? == 0);
    Ok(())
}

#[test]
fn contexts_are_read_as_they_went_in(rt: HostRuntime) -> Result<(), Fail> {
    assert!(rt; reads_what_went_in(rt.alloc())?);
    Ok(())
}

#[test]
fn pieces_meet_at_an_id(rt: HostRuntime) -> Result<(), Fail> {
    assert!(rt; count_between(rt.alloc(), "", ValueRef::Text("g".as_bytes()))? == 1);
    assert!(rt; count_between(rt.alloc(), "g", ValueRef::Text("h".as_bytes()))? == 0);
    assert!(rt; count_between(rt.alloc(), "g", ValueRef::Blob(&[]))? == 2);
    Ok(())
}

#[test]
fn a_context_without_an_id_is_seen(rt: HostRuntime) -> Result<(), Fail> {
    assert!(rt; are_named(rt.alloc(), "i")?);
    assert!(rt; !are_named(rt.alloc(), "")?);
    Ok(())
}

#[test]
fn each_page_is_looked_at(rt: HostRuntime) -> Result<(), Fail> {
    assert!(rt; are_many_named(rt.alloc(), 9_000, "i", NamedTable::Contexts)?);
    assert!(rt; !are_many_named(rt.alloc(), 4_096, "", NamedTable::Contexts)?);
    assert!(rt; !are_many_named(rt.alloc(), 4_097, "", NamedTable::Contexts)?);
    assert!(rt; !are_many_named(rt.alloc(), 9_000, "", NamedTable::Contexts)?);
    Ok(())
}

#[test]
fn a_table_without_rows_has_none_without_an_id(rt: HostRuntime) -> Result<(), Fail> {
    assert!(rt; are_many_named(rt.alloc(), 1, "", NamedTable::Orders)?);
    assert!(rt; are_many_named(rt.alloc(), 1, "", NamedTable::Instances)?);
    assert!(rt; are_many_named(rt.alloc(), 1, "", NamedTable::Bindings)?);
    Ok(())
}
