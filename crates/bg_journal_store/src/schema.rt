//! The tables of a journal.
ghost use Rattle.std.specs.Prelude.{◌≡◌, ◌↔◌, [], ◌∷◌, IsTrue};
ghost use Rattle.bg_journal_store.specs.Schema.{texts_table, number_column, text_column, journal_schema, no_schema};

use sqlite_schema::schema::{Column, Kind, Schema, Table};
use sqlite_value::keys::Collation;
use sqlite_value::value::Value;

/// Whether the schema is that of a journal.
pub(crate) fn is_journal(schema: &Schema) -> bool
    ensures { IsTrue result ↔ (schema.now ≡ journal_schema) }
{
    let [entries, settings] = schema.tables.as_slice() else {
        return false;
    };
    is_texts_table(entries, "entries", 0)
        && is_texts_table(settings, "settings", 1)
        && schema.indexes.is_empty()
        && schema.views.is_empty()
}

/// Whether the schema has no table, index, view or trigger.
pub(crate) fn is_empty(schema: &Schema) -> bool
    ensures { IsTrue result ↔ (schema.now ≡ no_schema) }
{
    schema.tables.is_empty() && schema.indexes.is_empty() && schema.views.is_empty()
}

fn is_texts_table(table: &Table, name: &str, tree: u32) -> bool
    ensures { IsTrue result ↔ (table.now ≡ texts_table name.now tree) }
{
    table.name.as_slice() == name.as_bytes()
        && table.tree == tree
        && has_columns(table)
        && is_plain(table)
}

fn has_columns(table: &Table) -> bool
    ensures { IsTrue result ↔ (table.now.columns ≡ number_column ∷ text_column ∷ []) }
{
    let [number, text] = table.columns.as_slice() else {
        return false;
    };
    is_number_column(number) && is_text_column(text)
}

fn is_number_column(column: &Column) -> bool
    ensures { IsTrue result ↔ (column.now ≡ number_column) }
{
    column.name.as_slice() == b"number".as_slice()
        && column.kind == Kind::Integer
        && column.is_strict
        && !column.not_null
        && matches!(column.default, Value::Null)
        && column.collation == Collation::Binary
}

fn is_text_column(column: &Column) -> bool
    ensures { IsTrue result ↔ (column.now ≡ text_column) }
{
    column.name.as_slice() == b"text".as_slice()
        && column.kind == Kind::Text
        && column.is_strict
        && column.not_null
        && matches!(column.default, Value::Null)
        && column.collation == Collation::Binary
}

/// Whether the rest of the table is as in a table of texts: no rule but NOT NULL, and no key but the number.
fn is_plain(table: &Table) -> bool
    ensures { IsTrue result ↔ (table.now
        ≡ record (texts_table table.now.name table.now.tree) { columns = table.now.columns }) }
{
    table.key == Some(0)
        && table.primary.as_slice() == [0].as_slice()
        && table.uniques.is_empty()
        && table.orders.is_empty()
        && table.checks.roots.is_empty()
        && table.references.is_empty()
        && table.computed.is_empty()
        && table.stamps.places.is_empty()
        && table.stamps.terms.roots.is_empty()
        && table.stamps.formats.is_empty()
        && !table.is_counted
}
