//! The tables and indexes of both versions, and which of them a schema has.

ghost use Rattle.std.specs.Prelude.{◌≡◌, ◌≢◌, ◌<◌, true, false, [], ◌∷◌, ◌++◌, None, IfSome};
ghost use Rattle.osb_tables.specs.Tables as spec;
ghost use Rattle.osb_tables.specs.Tables.{column_of, columns_of, plain_table, index_of, contexts_table, made, no_schema, tables_schema, five_tables};
ghost use Rattle.osb_tables.specs.Inside.{key_indexes, contexts_index, busy_at, subject_at, indexes_at};

use sqlite_items::Items;
use sqlite_schema::schema::{Column, Index, Kind, Schema, Table};
use sqlite_value::keys::{Collation, Order};
use sqlite_value::value::Value;

/// Which of the two indexes are there. The second is never there without the first.
#[derive(Clone, Copy, Debug, PartialEq, Eq)]
pub enum Indexes {
    None,
    /// The index of the listing.
    Listing,
    Both,
}

/// What a database has of the tables.
#[derive(Clone, Copy, Debug, PartialEq, Eq)]
pub enum FoundSchema {
    /// It is empty.
    Nothing,
    /// The four tables of version 1 with these indexes, and nothing else.
    First(Indexes),
    /// The five tables of version 2 with these indexes, and nothing else.
    Second(Indexes),
    Others,
}

const FORMAT: [(&str, Kind); 1] = [("version", Kind::Integer)];

const ORDERS: [(&str, Kind); 13] = [
    ("instance_id", Kind::Text),
    ("seq", Kind::Integer),
    ("kind", Kind::Integer),
    ("binding_id", Kind::Text),
    ("service_id", Kind::Text),
    ("plan_id", Kind::Text),
    ("place", Kind::Text),
    ("spot", Kind::Text),
    ("params", Kind::Text),
    ("maint", Kind::Text),
    ("state", Kind::Integer),
    ("note", Kind::Text),
    ("credentials", Kind::Text),
];

const INSTANCES: [(&str, Kind); 10] = [
    ("instance_id", Kind::Text),
    ("phase", Kind::Integer),
    ("busy", Kind::Integer),
    ("last_seq", Kind::Integer),
    ("service_id", Kind::Text),
    ("plan_id", Kind::Text),
    ("organization", Kind::Text),
    ("space", Kind::Text),
    ("params", Kind::Text),
    ("maint", Kind::Text),
];

const BINDINGS: [(&str, Kind); 9] = [
    ("instance_id", Kind::Text),
    ("binding_id", Kind::Text),
    ("phase", Kind::Integer),
    ("service_id", Kind::Text),
    ("plan_id", Kind::Text),
    ("app_guid", Kind::Text),
    ("bind_resource", Kind::Text),
    ("params", Kind::Text),
    ("credentials", Kind::Text),
];

const CONTEXTS: [(&str, Kind); 3] = [
    ("instance_id", Kind::Text),
    ("seq", Kind::Integer),
    ("context", Kind::Text),
];

fn is_column(column: &Column, name: &str, kind: Kind) -> bool
    ensures is { result ≡ true → column.now ≡ column_of name.now kind }
    ensures exact { column.now ≡ column_of name.now kind → result ≡ true }
{
    column.name.as_slice() == name.as_bytes()
        && column.kind == kind
        && column.is_strict
        && column.not_null
        && matches!(column.default, Value::Null)
        && column.collation == Collation::Binary
}

fn are_columns(columns: &[Column], expected: &[(&str, Kind)]) -> bool
    ensures is { result ≡ true → columns.now ≡ columns_of expected.now }
    ensures exact { columns.now ≡ columns_of expected.now → result ≡ true }
{
    if columns.len() != expected.len() {
        return false;
    }
    for (column, (name, kind)) in columns.iter().zip(expected) {
        if !is_column(column, name, *kind) {
            return false;
        }
    }
    true
}

/// The key, where there is one, has the one index of the table.
fn are_keys(keys: &[Items<usize>], key: &[usize]) -> bool
    ensures is { result ≡ true → keys.now ≡ spec.keys_of key.now }
    ensures exact { keys.now ≡ spec.keys_of key.now → result ≡ true }
{
    match keys {
        [] => key.is_empty(),
        [only] => !key.is_empty() && only.as_slice() == key,
        _ => false,
    }
}

fn are_plain(orders: &[Order], key: &[usize]) -> bool
    ensures is { result ≡ true → orders.now ≡ spec.sorts_of key.now }
    ensures exact { orders.now ≡ spec.sorts_of key.now → result ≡ true }
{
    match orders {
        [] => key.is_empty(),
        [only] => !key.is_empty() && only.digits == 0,
        _ => false,
    }
}

/// The table has no rule beside its key.
fn has_no_more(table: &Table) -> bool
    ensures is { result ≡ true → (table.now.key ≡ None) × (table.now.checks ≡ [])
        × (table.now.references ≡ []) × (table.now.computed ≡ [])
        × (table.now.stamps ≡ record { places = []; terms = []; formats = [] })
        × (table.now.is_counted ≡ false) }
    ensures exact { (table.now.key ≡ None) × (table.now.checks ≡ []) × (table.now.references ≡ [])
        × (table.now.computed ≡ [])
        × (table.now.stamps ≡ record { places = []; terms = []; formats = [] })
        × (table.now.is_counted ≡ false) → result ≡ true }
{
    table.key.is_none()
        && table.checks.roots.is_empty()
        && table.references.is_empty()
        && table.computed.is_empty()
        && table.stamps.places.is_empty()
        && table.stamps.terms.roots.is_empty()
        && table.stamps.formats.is_empty()
        && !table.is_counted
}

fn has_key(table: &Table, key: &[usize]) -> bool
    ensures is { result ≡ true → (table.now.primary ≡ key.now)
        × (table.now.uniques ≡ spec.keys_of key.now) × (table.now.orders ≡ spec.sorts_of key.now) }
    ensures exact { (table.now.primary ≡ key.now) × (table.now.uniques ≡ spec.keys_of key.now)
        × (table.now.orders ≡ spec.sorts_of key.now) → result ≡ true }
{
    table.primary.as_slice() == key
        && are_keys(table.uniques.as_slice(), key)
        && are_plain(table.orders.as_slice(), key)
}

fn is_table(table: &Table, name: &str, tree: u32, columns: &[(&str, Kind)], key: &[usize]) -> bool
    ensures is { result ≡ true →
        table.now ≡ plain_table name.now tree (columns_of columns.now) key.now (spec.keys_of
        key.now) }
    ensures exact { table.now ≡ plain_table name.now tree (columns_of columns.now) key.now
        (spec.keys_of key.now) →
        result ≡ true }
{
    table.name.as_slice() == name.as_bytes()
        && table.tree == tree
        && are_columns(table.columns.as_slice(), columns)
        && has_key(table, key)
        && has_no_more(table)
}

fn are_four_tables(format: &Table, orders: &Table, instances: &Table, bindings: &Table) -> bool
    ensures is { result ≡ true →
        format.now ∷ orders.now ∷ instances.now ∷ bindings.now ∷ [] ≡ (tables_schema).tables }
    ensures exact { format.now ∷ orders.now ∷ instances.now ∷ bindings.now ∷ [] ≡
        (tables_schema).tables →
        result ≡ true }
{
    is_table(format, "format", 0, &FORMAT, &[])
        && is_table(orders, "orders", 1, &ORDERS, &[1, 2])
        && is_table(instances, "instances", 3, &INSTANCES, &[1])
        && is_table(bindings, "bindings", 5, &BINDINGS, &[1, 2])
}

#[tactic(auto, using(crate::proofs::SchemaLemmas::four_items))]
fn are_first_tables(tables: &[Table]) -> bool
    ensures is { result ≡ true → tables.now ≡ (tables_schema).tables }
    ensures exact { tables.now ≡ (tables_schema).tables → result ≡ true }
{
    match tables {
        [format, orders, instances, bindings] => are_four_tables(
            format, orders, instances, bindings,
        ),
        _ => false,
    }
}

fn is_contexts_table(table: &Table) -> bool
    ensures is { result ≡ true → table.now ≡ contexts_table }
    ensures exact { table.now ≡ contexts_table → result ≡ true }
{
    is_table(table, "contexts", 7, &CONTEXTS, &[1, 2])
}

fn are_five_tables(
    format: &Table,
    orders: &Table,
    instances: &Table,
    bindings: &Table,
    contexts: &Table,
) -> bool
    ensures is { result ≡ true →
        format.now ∷ orders.now ∷ instances.now ∷ bindings.now ∷ contexts.now ∷ [] ≡
        (five_tables).tables }
    ensures exact { format.now ∷ orders.now ∷ instances.now ∷ bindings.now ∷ contexts.now ∷ [] ≡
        (five_tables).tables →
        result ≡ true }
{
    are_four_tables(format, orders, instances, bindings) && is_contexts_table(contexts)
}

#[tactic(auto, using(crate::proofs::SchemaLemmas::five_items))]
fn are_second_tables(tables: &[Table]) -> bool
    ensures is { result ≡ true → tables.now ≡ (five_tables).tables }
    ensures exact { tables.now ≡ (five_tables).tables → result ≡ true }
{
    match tables {
        [format, orders, instances, bindings, contexts] => are_five_tables(
            format, orders, instances, bindings, contexts,
        ),
        _ => false,
    }
}

fn is_index(
    index: &Index,
    name: &str,
    tree: u32,
    table: u32,
    columns: &[usize],
    is_unique: bool,
) -> bool
    ensures is { result ≡ true → index.now ≡ index_of name.now tree table columns.now is_unique }
    ensures exact { index.now ≡ index_of name.now tree table columns.now is_unique → result ≡ true }
{
    index.name.as_slice() == name.as_bytes()
        && index.tree == tree
        && index.table == table
        && index.columns.as_slice() == columns
        && index.order.digits == 0
        && index.is_unique == is_unique
}

/// The indexes of the keys.
fn are_key_indexes(orders: &Index, instances: &Index, bindings: &Index) -> bool
    ensures is { result ≡ true → orders.now ∷ instances.now ∷ bindings.now ∷ [] ≡ key_indexes }
    ensures exact { orders.now ∷ instances.now ∷ bindings.now ∷ [] ≡ key_indexes → result ≡ true }
{
    is_index(orders, "sqlite_autoindex_orders_1", 2, 1, &[1, 2], true)
        && is_index(instances, "sqlite_autoindex_instances_1", 4, 3, &[1], true)
        && is_index(bindings, "sqlite_autoindex_bindings_1", 6, 5, &[1, 2], true)
}

fn is_contexts_index(index: &Index) -> bool
    ensures is { result ≡ true → index.now ≡ contexts_index }
    ensures exact { index.now ≡ contexts_index → result ≡ true }
{
    is_index(index, "sqlite_autoindex_contexts_1", 8, 7, &[1, 2], true)
}

fn is_busy_index(index: &Index, tree: u32) -> bool
    ensures is { result ≡ true → index.now ≡ busy_at tree }
    ensures exact { index.now ≡ busy_at tree → result ≡ true }
{
    is_index(index, "busy_instances", tree, 3, &[3, 1], false)
}

fn is_subject_index(index: &Index, tree: u32) -> bool
    ensures is { result ≡ true → index.now ≡ subject_at tree }
    ensures exact { index.now ≡ subject_at tree → result ≡ true }
{
    is_index(index, "subject_orders", tree, 1, &[1, 4, 3, 2], false)
}

/// The indexes beside those of the keys, of which the first has this tree.
fn found_more(more: &[Index], tree: u32) -> Option<Indexes>
    requires { tree < 100 }
    ensures some { IfSome result (λ found. more.now ≡ indexes_at tree found) }
    ensures none { result ≡ None → (found : Indexes) → more.now ≢ indexes_at tree found }
{
    match more {
        [] => Some(Indexes::None),
        [busy] if is_busy_index(busy, tree) => Some(Indexes::Listing),
        [busy, subject] if is_busy_index(busy, tree) && is_subject_index(subject, tree + 1) => {
            Some(Indexes::Both)
        }
        _ => None,
    }
}

fn found_first(indexes: &[Index]) -> Option<Indexes>
    ensures some { IfSome result (λ found. indexes.now ≡ key_indexes ++ indexes_at 7 found) }
    ensures none { result ≡ None → (found : Indexes) →
        indexes.now ≢ key_indexes ++ indexes_at 7 found }
{
    match indexes {
        [orders, instances, bindings, more @ ..] if are_key_indexes(orders, instances, bindings) =>
            { found_more(more, 7) }
        _ => None,
    }
}

fn found_second(indexes: &[Index]) -> Option<Indexes>
    ensures some { IfSome result (λ found. indexes.now ≡ key_indexes ++ contexts_index ∷
        indexes_at 9 found) }
    ensures none { result ≡ None → (found : Indexes) →
        indexes.now ≢ key_indexes ++ contexts_index ∷ indexes_at 9 found }
{
    match indexes {
        [orders, instances, bindings, contexts, more @ ..]
            if are_key_indexes(orders, instances, bindings) && is_contexts_index(contexts) => {
            found_more(more, 9)
        }
        _ => None,
    }
}

/// What the schema has. Each table is compared column by column, with its key, its rules and its
/// place.
#[tactic(auto, using(crate::proofs::SchemaLemmas::first_made, crate::proofs::SchemaLemmas::second_made, crate::proofs::SchemaLemmas::first_back, crate::proofs::SchemaLemmas::second_back))]
pub fn find(schema: &Schema) -> FoundSchema
    ensures nothing { result ≡ FoundSchema.Nothing → schema.now ≡ no_schema }
    ensures first { (indexes : Indexes) → result ≡ FoundSchema.First indexes →
        schema.now ≡ made tables_schema indexes }
    ensures second { (indexes : Indexes) → result ≡ FoundSchema.Second indexes →
        schema.now ≡ made five_tables indexes }
    ensures others { result ≡ FoundSchema.Others → (schema.now ≢ no_schema)
        × ((indexes : Indexes) → schema.now ≢ made tables_schema indexes)
        × ((indexes : Indexes) → schema.now ≢ made five_tables indexes) }
{
    if !schema.views.is_empty() {
        return FoundSchema::Others;
    }
    if schema.tables.is_empty() && schema.indexes.is_empty() {
        return FoundSchema::Nothing;
    }
    if are_first_tables(schema.tables.as_slice()) {
        return match found_first(schema.indexes.as_slice()) {
            Some(indexes) => FoundSchema::First(indexes),
            None => FoundSchema::Others,
        };
    }
    if are_second_tables(schema.tables.as_slice()) {
        return match found_second(schema.indexes.as_slice()) {
            Some(indexes) => FoundSchema::Second(indexes),
            None => FoundSchema::Others,
        };
    }
    FoundSchema::Others
}
