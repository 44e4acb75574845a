//! What the tables hold: the rows after a conversation, and what no row may be.

use osb_catalog::Settings;
use osb_records::open_memory;
use sqlite::{Connection, Constraint, Error, ErrorCode, MemStore, Row};
use std::alloc::Global;
use std::test::Fail;
use tests_support::asks::{ASYNC, CREATE_1, SUCCEEDED, TO_ASYNC, UPDATE_TO_1};
use tests_support::catalogs::built_in;
use tests_support::exchange::Exchange;
use tests_support::replies::*;
use tests_support::serving::after_all;

const FAILED: &str = r#"{"state":"failed","description":"no disk"}"#;

const KEY: &str = r#"{"state":"succeeded","credentials":{"k":"v"}}"#;

const WITH_ALL: &str =
    r#"{"service_id":"svc","plan_id":"p-async","app_guid":"app","bind_resource":{"r":1},"context":{"q":2},"parameters":{"n":1}}"#;

const ASYNC_WITH_CONTEXT: &str =
    r#"{"service_id":"svc","plan_id":"p-async","organization_guid":"o","space_guid":"s","context":{"p":1}}"#;

const SYNC_WITH_CONTEXT: &str =
    r#"{"service_id":"svc","plan_id":"p-sync","organization_guid":"o","space_guid":"s","context":{"p":1}}"#;

/// Orders of each kind and in each state leave instances and bindings in each phase.
static EACH_PHASE: [Exchange; 23] = [
    (
        "PUT /v2/service_instances/a?accepts_incomplete=true",
        ASYNC,
        ACCEPTED,
        CREATE_1,
    ),
    (
        "PUT /v2/service_instances/b?accepts_incomplete=true",
        ASYNC_WITH_CONTEXT,
        ACCEPTED,
        CREATE_1,
    ),
    ("PUT /backend/v1/orders/b/1", SUCCEEDED, OK, "{}"),
    (
        "PUT /v2/service_instances/b/service_bindings/x?accepts_incomplete=true",
        WITH_ALL,
        ACCEPTED,
        r#"{"operation":"bind-2"}"#,
    ),
    ("PUT /backend/v1/orders/b/2", KEY, OK, "{}"),
    (
        "PUT /v2/service_instances/b/service_bindings/y?accepts_incomplete=true",
        TO_ASYNC,
        ACCEPTED,
        r#"{"operation":"bind-3"}"#,
    ),
    ("PUT /backend/v1/orders/b/3", FAILED, OK, "{}"),
    (
        "DELETE /v2/service_instances/b/service_bindings/x?service_id=svc&plan_id=p-async&accepts_incomplete=true",
        "",
        ACCEPTED,
        r#"{"operation":"unbind-4"}"#,
    ),
    (
        "PUT /v2/service_instances/c?accepts_incomplete=true",
        ASYNC,
        ACCEPTED,
        CREATE_1,
    ),
    ("PUT /backend/v1/orders/c/1", SUCCEEDED, OK, "{}"),
    (
        "PUT /v2/service_instances/c/service_bindings/w?accepts_incomplete=true",
        TO_ASYNC,
        ACCEPTED,
        r#"{"operation":"bind-2"}"#,
    ),
    (
        "PUT /v2/service_instances/d?accepts_incomplete=true",
        ASYNC_WITH_CONTEXT,
        ACCEPTED,
        CREATE_1,
    ),
    ("PUT /backend/v1/orders/d/1", SUCCEEDED, OK, "{}"),
    (
        "PUT /v2/service_instances/d/service_bindings/v?accepts_incomplete=true",
        TO_ASYNC,
        ACCEPTED,
        r#"{"operation":"bind-2"}"#,
    ),
    ("PUT /backend/v1/orders/d/2", SUCCEEDED, OK, "{}"),
    (
        "PATCH /v2/service_instances/d?accepts_incomplete=true",
        UPDATE_TO_1,
        ACCEPTED,
        r#"{"operation":"update-3"}"#,
    ),
    (
        "PUT /v2/service_instances/e?accepts_incomplete=true",
        ASYNC,
        ACCEPTED,
        CREATE_1,
    ),
    ("PUT /backend/v1/orders/e/1", FAILED, OK, "{}"),
    (
        "PUT /v2/service_instances/f?accepts_incomplete=true",
        ASYNC_WITH_CONTEXT,
        ACCEPTED,
        CREATE_1,
    ),
    ("PUT /backend/v1/orders/f/1", SUCCEEDED, OK, "{}"),
    (
        "DELETE /v2/service_instances/f?service_id=svc&plan_id=p-async&accepts_incomplete=true",
        "",
        ACCEPTED,
        r#"{"operation":"delete-2"}"#,
    ),
    (
        "PUT /v2/service_instances/g",
        SYNC_WITH_CONTEXT,
        CREATED,
        "{}",
    ),
    (
        "DELETE /v2/service_instances/g?service_id=svc&plan_id=p-sync",
        "",
        OK,
        "{}",
    ),
];

/// A query, what its columns hold, `t` a text and `n` a number, and the rows with bars between their
/// cells.
type Table = (&'static str, &'static str, &'static [&'static str]);

static TABLES: [Table; 5] = [
    ("SELECT version FROM format", "n", &["2"]),
    (
        "SELECT instance_id, seq, kind, binding_id, service_id, plan_id, place, spot, params, maint, state, note, credentials FROM orders ORDER BY instance_id, seq",
        "tnntttttttntt",
        &[
            "a|1|1||svc|p-async|o|s|{}|1.2.0|0||{}",
            "b|1|1||svc|p-async|o|s|{}|1.2.0|1||{}",
            r#"b|2|4|x|svc|p-async|app|{"r":1}|{"n":1}||1||{"k":"v"}"#,
            "b|3|4|y|svc|p-async||{}|{}||2|no disk|{}",
            r#"b|4|5|x|svc|p-async|app|{"r":1}|{"n":1}||0||{}"#,
            "c|1|1||svc|p-async|o|s|{}|1.2.0|1||{}",
            "c|2|4|w|svc|p-async||{}|{}||0||{}",
            "d|1|1||svc|p-async|o|s|{}|1.2.0|1||{}",
            "d|2|4|v|svc|p-async||{}|{}||1||{}",
            r#"d|3|2||svc|p-async|o|s|{"n":1}|1.2.0|0||{}"#,
            "e|1|1||svc|p-async|o|s|{}|1.2.0|2|no disk|{}",
            "f|1|1||svc|p-async|o|s|{}|1.2.0|1||{}",
            "f|2|3||svc|p-async|o|s|{}|1.2.0|0||{}",
            "g|1|1||svc|p-sync|o|s|{}||1||{}",
            "g|2|3||svc|p-sync|o|s|{}||1||{}",
        ],
    ),
    (
        "SELECT instance_id, phase, busy, last_seq, service_id, plan_id, organization, space, params, maint FROM instances ORDER BY instance_id",
        "tnnntttttt",
        &[
            "a|1|1|1|svc|p-async|o|s|{}|1.2.0",
            "b|2|1|4|svc|p-async|o|s|{}|1.2.0",
            "c|2|1|2|svc|p-async|o|s|{}|1.2.0",
            "d|4|1|3|svc|p-async|o|s|{}|1.2.0",
            "e|3|0|1|svc|p-async|o|s|{}|1.2.0",
            "f|5|1|2|svc|p-async|o|s|{}|1.2.0",
            "g|0|0|2||||||",
        ],
    ),
    (
        "SELECT instance_id, binding_id, phase, service_id, plan_id, app_guid, bind_resource, params, credentials FROM bindings ORDER BY instance_id, binding_id",
        "ttntttttt",
        &[
            r#"b|x|4|svc|p-async|app|{"r":1}|{"n":1}|{"k":"v"}"#,
            "b|y|3|svc|p-async||{}|{}|{}",
            "c|w|1|svc|p-async||{}|{}|{}",
            "d|v|2|svc|p-async||{}|{}|{}",
        ],
    ),
    (
        "SELECT instance_id, seq, context FROM contexts ORDER BY instance_id, seq",
        "tnt",
        &[
            "a|0|{}",
            "a|1|{}",
            r#"b|0|{"p":1}"#,
            r#"b|1|{"p":1}"#,
            r#"b|2|{"q":2}"#,
            "b|3|{}",
            "b|4|{}",
            "c|0|{}",
            "c|1|{}",
            "c|2|{}",
            r#"d|0|{"p":1}"#,
            r#"d|1|{"p":1}"#,
            "d|2|{}",
            r#"d|3|{"p":1}"#,
            "e|0|{}",
            "e|1|{}",
            r#"f|0|{"p":1}"#,
            r#"f|1|{"p":1}"#,
            r#"f|2|{"p":1}"#,
            "g|0|",
            r#"g|1|{"p":1}"#,
            r#"g|2|{"p":1}"#,
        ],
    ),
];

/// The database after the conversation over these settings.
fn database_over(alloc: Global, settings: &Settings) -> Result<Connection<MemStore>, Fail> {
    let records = after_all(alloc, settings, open_memory(alloc)?, &EACH_PHASE)?;
    Ok(records.into_connection())
}

/// The database after the conversation.
fn database(alloc: Global) -> Result<Connection<MemStore>, Fail> {
    let settings = built_in(alloc)?;
    let database = database_over(alloc, &settings);
    drop(settings);
    database
}

/// All rows of a query.
fn rows_of(conn: &mut Connection<MemStore>, query: &str) -> Result<Vec<Row>, Error> {
    let statement = conn.prepare(query)?;
    statement.query_all(conn, &[])
}

/// Appends the cell of a row.
fn add_cell(alloc: Global, line: &mut String, row: &Row, at: usize, kind: u8) -> Result<(), Error> {
    if kind == b'n' {
        let number: u32 = row.get(at)?;
        line.push_str(number.to_string(alloc)?.as_str())?;
    } else {
        let text: String = row.get(at)?;
        line.push_str(text.as_str())?;
    }
    Ok(())
}

/// The cells of a row of these kinds, with bars between them.
fn line_of(alloc: Global, row: &Row, kinds: &str) -> Result<String, Error> {
    let mut line = String::new(alloc);
    for (at, kind) in kinds.as_bytes().iter().enumerate() {
        if at > 0 {
            line.push('|')?;
        }
        add_cell(alloc, &mut line, row, at, *kind)?;
    }
    Ok(line)
}

/// Fails where this isn't that row.
fn is_row(alloc: Global, row: &Row, kinds: &str, line: &str) -> Result<(), Fail> {
    let found = line_of(alloc, row, kinds)?;
    if found.as_str() == line {
        return Ok(());
    }
    let told = format!(in alloc; "{found}, not {line}")?;
    Err(Fail::from(told))
}

/// Fails where these are other rows.
fn are_rows(alloc: Global, rows: &[Row], kinds: &str, lines: &[&str]) -> Result<(), Fail> {
    if rows.len() != lines.len() {
        return Err("another number of rows")?;
    }
    for (row, line) in rows.iter().zip(lines) {
        is_row(alloc, row, kinds, line)?;
    }
    Ok(())
}

/// Fails where a query has other rows.
fn has_rows(alloc: Global, conn: &mut Connection<MemStore>, table: &Table) -> Result<(), Fail> {
    let (query, kinds, lines) = *table;
    let rows = rows_of(conn, query)?;
    let same = are_rows(alloc, rows.as_slice(), kinds, lines);
    drop(rows);
    same
}

/// Fails where a query of the tables has other rows.
fn has_all_rows(alloc: Global, conn: &mut Connection<MemStore>) -> Result<(), Fail> {
    for table in &TABLES {
        has_rows(alloc, conn, table)?;
    }
    Ok(())
}

#[test]
fn each_phase(rt: HostRuntime) -> Result<(), Fail> {
    let mut conn = database(rt.alloc())?;
    let has_all_rows = has_all_rows(rt.alloc(), &mut conn);
    drop(conn);
    has_all_rows
}

static COLUMNS: [(&str, &str); 36] = [
    ("format", "version"),
    ("orders", "instance_id"),
    ("orders", "seq"),
    ("orders", "kind"),
    ("orders", "binding_id"),
    ("orders", "service_id"),
    ("orders", "plan_id"),
    ("orders", "place"),
    ("orders", "spot"),
    ("orders", "params"),
    ("orders", "maint"),
    ("orders", "state"),
    ("orders", "note"),
    ("orders", "credentials"),
    ("instances", "instance_id"),
    ("instances", "phase"),
    ("instances", "busy"),
    ("instances", "last_seq"),
    ("instances", "service_id"),
    ("instances", "plan_id"),
    ("instances", "organization"),
    ("instances", "space"),
    ("instances", "params"),
    ("instances", "maint"),
    ("bindings", "instance_id"),
    ("bindings", "binding_id"),
    ("bindings", "phase"),
    ("bindings", "service_id"),
    ("bindings", "plan_id"),
    ("bindings", "app_guid"),
    ("bindings", "bind_resource"),
    ("bindings", "params"),
    ("bindings", "credentials"),
    ("contexts", "instance_id"),
    ("contexts", "seq"),
    ("contexts", "context"),
];

/// Statements that break a key or put a text where a number belongs, and what refuses them.
static REFUSED: [(&str, Constraint); 11] = [
    (
        "INSERT INTO orders SELECT * FROM orders WHERE instance_id = 'a'",
        Constraint::Unique,
    ),
    (
        "INSERT INTO instances SELECT * FROM instances WHERE instance_id = 'a'",
        Constraint::Unique,
    ),
    (
        "INSERT INTO bindings SELECT * FROM bindings WHERE binding_id = 'v'",
        Constraint::Unique,
    ),
    (
        "INSERT INTO contexts SELECT * FROM contexts WHERE instance_id = 'a'",
        Constraint::Unique,
    ),
    ("UPDATE format SET version = 'x'", Constraint::Datatype),
    ("UPDATE orders SET seq = 'x'", Constraint::Datatype),
    ("UPDATE orders SET kind = 'x'", Constraint::Datatype),
    ("UPDATE orders SET state = 'x'", Constraint::Datatype),
    ("UPDATE instances SET phase = 'x'", Constraint::Datatype),
    ("UPDATE bindings SET phase = 'x'", Constraint::Datatype),
    ("UPDATE contexts SET seq = 'x'", Constraint::Datatype),
];

/// Fails where a statement is carried out, or refused for another reason.
fn is_refused(
    conn: &mut Connection<MemStore>,
    statement: &str,
    broken: Constraint,
) -> Result<(), Fail> {
    match conn.execute(statement, &[]) {
        Err(error) if error == Error::SqliteFailure(ErrorCode::ConstraintViolation(broken)) => {
            Ok(())
        }
        Ok(_) => Err("a row that no table may have")?,
        Err(_) => Err("refused for another reason")?,
    }
}

/// Fails where this column may be empty.
fn refuses_null(
    alloc: Global,
    conn: &mut Connection<MemStore>,
    table: &str,
    column: &str,
) -> Result<(), Fail> {
    let statement = format!(in alloc; "UPDATE {table} SET {column} = NULL")?;
    is_refused(conn, statement.as_str(), Constraint::NotNull)
}

/// Fails where a column may be empty.
fn refuses_nulls(alloc: Global, conn: &mut Connection<MemStore>) -> Result<(), Fail> {
    for (table, column) in &COLUMNS {
        refuses_null(alloc, conn, *table, *column)?;
    }
    Ok(())
}

/// Fails where one of the statements is carried out.
fn refuses_each(conn: &mut Connection<MemStore>) -> Result<(), Fail> {
    for (statement, broken) in &REFUSED {
        is_refused(conn, *statement, *broken)?;
    }
    Ok(())
}

/// Fails where the database takes other rows, or loses its own by a statement that it refuses.
fn keeps_to_its_rows(alloc: Global, conn: &mut Connection<MemStore>) -> Result<(), Fail> {
    refuses_nulls(alloc, conn)?;
    refuses_each(conn)?;
    has_all_rows(alloc, conn)
}

#[test]
fn no_other_rows(rt: HostRuntime) -> Result<(), Fail> {
    let mut conn = database(rt.alloc())?;
    let keeps = keeps_to_its_rows(rt.alloc(), &mut conn);
    drop(conn);
    keeps
}
