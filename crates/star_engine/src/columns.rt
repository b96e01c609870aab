// The columns of a new table.
ghost use Rattle.std.specs.Prelude.{◌≡◌, ◌<◌, ◌^◌, IfOk, map, length, position};
ghost use Rattle.std.specs.List.{list_any};
ghost use Rattle.std.specs.Str.{bytes_eq};
ghost use Rattle.blink_lists.specs.Lists.{are_distinct};
ghost use Rattle.star_engine.specs.Changes.{are_bad_columns, schema_of};

use blink_base::{Column, List, Schema};
use blink_lists::MOST_COLUMNS;
use star_sql::ColumnDef;
use std::alloc::{AllocError, Global};

// Whether a column has this name.
fn is_named(columns: &[ColumnDef], name: &str) -> bool
    ensures { result ≡ list_any (bytes_eq name.now) (map (λ column. column.name) columns.now) }
{
    for column in columns {
        if name == column.name.as_str() {
            return true;
        }
    }
    false
}

// Whether no two columns have one name.
fn are_named_apart(columns: &[ColumnDef]) -> bool
    ensures { result ≡ are_distinct bytes_eq (map (λ column. column.name) columns.now) }
{
    for (place, column) in columns.iter().enumerate() {
        if is_named(&columns[place + 1..], column.name.as_str()) {
            return false;
        }
    }
    true
}

// Whether there are more columns than a table may have, a name twice, or PRIMARY KEY twice.
pub(crate) fn are_bad_columns(columns: &[ColumnDef]) -> bool
    ensures { result ≡ are_bad_columns columns.now }
{
    columns.len() > MOST_COLUMNS
        || !are_named_apart(columns)
        || columns.iter().filter(|column| column.key).count() > 1
}

// The schema that columns make.
pub(crate) fn schema_of(alloc: Global, columns: &[ColumnDef]) -> Result<Schema, AllocError>
    requires { length columns.now < 2 ^ 32 }
    ensures { IfOk result (λ schema. schema ≡ schema_of columns.now) }
{
    let mut made = List::new(alloc);
    for column in columns {
        made.push(Column {
            name: column.name.copy(alloc)?,
            kind: column.kind,
        })?;
    }
    Ok(Schema {
        columns: made,
        key: key_of(columns),
    })
}

// The place of the first column with PRIMARY KEY.
fn key_place(columns: &[ColumnDef]) -> Option<usize>
    ensures { result ≡ position (λ column. column.key) columns.now }
{
    columns.iter().position(|column| column.key)
}

// The same as a schema keeps it.
fn key_of(columns: &[ColumnDef]) -> Option<u32>
    requires { length columns.now < 2 ^ 32 }
    ensures { result ≡ position (λ column. column.key) columns.now }
{
    match key_place(columns) {
        Some(place) => Some(place as u32),
        None => None,
    }
}
