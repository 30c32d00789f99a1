// Whether a schema is that of a history.

ghost use Rattle.std.specs.Prelude.{◌≡◌, ◌↔◌, [], IsTrue};
ghost use Rattle.history.specs.Tables.{empty_schema, history_schema, record_columns, record_table, strict_column, without_rules};

use sqlite_schema::code::Terms;
use sqlite_schema::schema::{Column, Kind, Schema, Table};
use sqlite_value::keys::Collation;
use sqlite_value::value::Value;

// Whether it is a strict column of this name and type, with no default.
fn is_column(column: &Column, name: &[u8], kind: Kind, not_null: bool) -> bool
    ensures { IsTrue result ↔ (column.now ≡ strict_column name.now kind not_null) }
{
    column.name.as_slice() == name
        && column.kind == kind
        && column.is_strict
        && column.not_null == not_null
        && matches!(column.default, Value::Null)
        && column.collation == Collation::Binary
}

fn are_record_columns(columns: &[Column]) -> bool
    ensures { IsTrue result ↔ (columns.now ≡ record_columns) }
{
    match columns {
        [number, kind, bytes] => {
            is_column(number, b"number", Kind::Integer, false)
                && is_column(kind, b"kind", Kind::Integer, true)
                && is_column(bytes, b"bytes", Kind::Blob, true)
        }
        _ => false,
    }
}

fn are_none(terms: &Terms) -> bool
    ensures { IsTrue result ↔ (terms.now ≡ []) }
{
    terms.roots.is_empty()
}

// Whether the first column is the key.
fn is_key(key: Option<usize>, primary: &[usize]) -> bool
    ensures { IsTrue result ↔ ((key ≡ record_table.key) × (primary.now ≡ record_table.primary)) }
{
    match (key, primary) {
        (Some(0), [place]) => *place == 0,
        _ => false,
    }
}

// Whether the table has no rule beyond those of its columns, and counts no rowids.
fn is_plain(table: &Table) -> bool
    ensures { IsTrue result ↔ (table.now ≡ without_rules table.now) }
{
    table.uniques.is_empty()
        && table.orders.is_empty()
        && are_none(&table.checks)
        && table.references.is_empty()
        && table.computed.is_empty()
        && table.stamps.places.is_empty()
        && are_none(&table.stamps.terms)
        && table.stamps.formats.is_empty()
        && !table.is_counted
}

fn is_record_table(table: &Table) -> bool
    ensures { IsTrue result ↔ (table.now ≡ record_table) }
{
    table.name.as_slice() == b"record".as_slice()
        && table.tree == 0
        && are_record_columns(table.columns.as_slice())
        && is_key(table.key, table.primary.as_slice())
        && is_plain(table)
}

// rule: Schema of a history
/// Whether the schema has the table of records, and nothing else.
pub(crate) fn is_ours(schema: &Schema) -> bool
    ensures { IsTrue result ↔ (schema.now ≡ history_schema) }
{
    match schema.tables.as_slice() {
        [table] => {
            is_record_table(table) && schema.indexes.is_empty() && schema.views.is_empty()
        }
        _ => false,
    }
}

/// Whether the schema is empty.
pub(crate) fn is_empty(schema: &Schema) -> bool
    ensures { IsTrue result ↔ (schema.now ≡ empty_schema) }
{
    schema.tables.is_empty() && schema.indexes.is_empty() && schema.views.is_empty()
}
