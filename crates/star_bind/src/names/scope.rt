// FROM entries, and the columns that names mean in them.
ghost use Rattle.std.specs.Prelude.{◌≡◌, filter_map, option_map};
ghost use Rattle.std.specs.Str.{bytes_eq};
ghost use Rattle.blink_lists.specs.Lists.{numbered};
ghost use Rattle.star_meaning.specs.Names.{is_meant, place_if, places_in, places, place_of, kind_at};
ghost use Rattle.star_meaning.specs.NameRefusals.{is_unknown, is_ambiguous};
ghost use Rattle.star_bind.specs.Lookup.{entry_from, scope_from, place_in, found_and, found_more, found_of, is_nothing, are_several};

use blink_base::{Column, Kind, Schema, Word};
use star_sql::ColumnName;

// A FROM entry.
#[derive(Drop)]
pub(crate) struct Entry<'a> {
    pub(crate) name: &'a Word,
    pub(crate) schema: &'a Schema,
}

// A column of a FROM entry, both counted from 0.
#[derive(Clone, Copy)]
pub(crate) struct Place {
    pub(crate) table: usize,
    pub(crate) column: usize,
}

// How many columns a name fits, and which where it is one.
#[derive(Clone, Copy)]
pub(crate) enum Found {
    Nothing,
    One(Place),
    Several,
}

// What is found with one column more.
fn found_and(found: Found, place: Place) -> Found
    ensures { result ≡ found_and found (record { table = place.table; column = place.column }) }
{
    match found {
        Found::Nothing => Found::One(place),
        Found::One(_) | Found::Several => Found::Several,
    }
}

// What is found with those of an entry's columns that have this name.
fn found_in(found: Found, table: usize, columns: &[Column], name: &str) -> Found
    ensures { result ≡ found_more found (filter_map (λ at. place_if (bytes_eq name.now at.1.name) table at.0) (numbered columns.now)) }
{
    let mut all = found;
    for (at, column) in columns.iter().enumerate() {
        if name == column.name.as_str() {
            all = found_and(all, Place { table, column: at });
        }
    }
    all
}

// Whether a name may mean a column of an entry.
fn is_meant(name: &ColumnName, entry: &Entry) -> bool
    ensures { result ≡ is_meant name.now.table (entry_from entry.now) }
{
    match &name.table {
        None => true,
        Some(table) => {
            let table_name = entry.name;
            table.as_str() == table_name.as_str()
        }
    }
}

// What is found with the columns of an entry that a name fits.
fn found_at(found: Found, table: usize, entry: &Entry, name: &ColumnName) -> Found
    ensures { result ≡ found_more found (places_in name.now (table, entry_from entry.now)) }
{
    if !is_meant(name, entry) {
        return found;
    }
    let schema = entry.schema;
    found_in(
        found,
        table,
        schema.columns.as_slice(),
        name.column.as_str(),
    )
}

// How many columns a name fits.
pub(crate) fn find(scope: &[Entry], name: &ColumnName) -> Found
    ensures { result ≡ found_of (places (scope_from scope.now) name.now) }
{
    let mut found = Found::Nothing;
    for (table, entry) in scope.iter().enumerate() {
        if let Found::Several = found {
            return found;
        }
        found = found_at(found, table, entry, name);
    }
    found
}

// The one column that a name means.
pub(crate) fn place_of(scope: &[Entry], name: &ColumnName) -> Option<Place>
    ensures { result ≡ option_map place_in (place_of (scope_from scope.now) name.now) }
{
    match find(scope, name) {
        Found::One(place) => Some(place),
        Found::Nothing | Found::Several => None,
    }
}

// Whether nothing is found.
fn is_nothing(found: Found) -> bool
    ensures { result ≡ is_nothing found }
{
    match found {
        Found::Nothing => true,
        Found::One(_) | Found::Several => false,
    }
}

// Whether several are found.
fn are_several(found: Found) -> bool
    ensures { result ≡ are_several found }
{
    match found {
        Found::Several => true,
        Found::Nothing | Found::One(_) => false,
    }
}

// Whether a name fits no column.
pub(crate) fn is_unknown(scope: &[Entry], name: &ColumnName) -> bool
    ensures { result ≡ is_unknown (scope_from scope.now) name.now }
{
    is_nothing(find(scope, name))
}

// Whether a name fits several columns.
pub(crate) fn is_ambiguous(scope: &[Entry], name: &ColumnName) -> bool
    ensures { result ≡ is_ambiguous (scope_from scope.now) name.now }
{
    are_several(find(scope, name))
}

// The kind of the column at a place.
pub(crate) fn kind_at(scope: &[Entry], place: Place) -> Kind
    ensures { result ≡ kind_at (scope_from scope.now) (record { table = place.table; column = place.column }) }
{
    let Some(entry) = scope.get(place.table) else {
        return Kind::Int;
    };
    let schema = entry.schema;
    match schema.columns.get(place.column) {
        Some(column) => column.kind,
        None => Kind::Int,
    }
}
