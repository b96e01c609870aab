// The names of a query, and the first that is refused.
ghost use Rattle.std.specs.Prelude.{Some, ◌≡◌, ◌++◌, ◌∷◌, OnOk, IfOk, map, flat_map, filter, option_map, position};
ghost use Rattle.std.specs.Option.{option_copied, option_or};
ghost use Rattle.blink_lists.specs.Lists.{first_of};
ghost use Rattle.star_meaning.specs.Names.{name_text, place_of};
ghost use Rattle.star_meaning.specs.NameRefusals.{expr_names, item_names, test_names, names_in, column_keys, is_unknown, is_ambiguous, is_unknown_key, name_refusal};
ghost use Rattle.star_meaning.specs.Answer.{called_item, column_item, is_called, is_place, item_place};
ghost use Rattle.star_bind.specs.Lookup.{scope_from, place_in, is_same_place, index_of, is_lost};
ghost use Rattle.star_bind.specs.BindAnswer.{refusal_of};
ghost use Rattle.star_bind.specs.Checks.{IsChecked, is_why, names_told};

use crate::BindFault;
use crate::names::scope::{Entry, Place, is_ambiguous, is_unknown, place_of};
use crate::star::condition_tests::where_tests;
use blink_base::{Refusal, Word};
use star_sql::{ColumnName, Expr, Item, OrderKey, Select, TestWords, What};
use std::alloc::{AllocError, Global};

// Adds the names of an expression.
fn add_expr<'a>(expr: &'a Expr, names: &mut Vec<&'a ColumnName>) -> Result<(), AllocError>
    ensures { OnOk result (map (λ x. x.now) names.new.items ≡ map (λ x. x.now) names.old.items ++ expr_names expr.now) }
{
    match expr {
        Expr::One(a) => {
            names.push(a)?;
        }
        Expr::Times(a, b) | Expr::Plus(a, b) | Expr::Minus(a, b) => {
            names.push(a)?;
            names.push(b)?;
        }
    }
    Ok(())
}

// Adds the names of an item.
fn add_item<'a>(what: &'a What, names: &mut Vec<&'a ColumnName>) -> Result<(), AllocError>
    ensures { OnOk result (map (λ x. x.now) names.new.items ≡ map (λ x. x.now) names.old.items ++ item_names what.now) }
{
    match what {
        What::Column(c) | What::Min(c) | What::Max(c) => {
            names.push(c)?;
            Ok(())
        }
        What::Count => Ok(()),
        What::Sum(e) | What::Avg(e) => add_expr(e.get(), names),
    }
}

// Adds the names of a test.
fn add_test<'a>(words: &'a TestWords, names: &mut Vec<&'a ColumnName>) -> Result<(), AllocError>
    ensures { OnOk result (map (λ x. x.now) names.new.items ≡ map (λ x. x.now) names.old.items ++ test_names words.now) }
{
    match words {
        TestWords::Compare { column, .. }
        | TestWords::Between { column, .. }
        | TestWords::Among { column, .. }
        | TestWords::Like { column, .. } => {
            names.push(column)?;
        }
        TestWords::Columns { left, right, .. } => {
            names.push(left)?;
            names.push(right)?;
        }
    }
    Ok(())
}

// Adds the names of items.
fn add_items<'a>(items: &'a [Item], names: &mut Vec<&'a ColumnName>) -> Result<(), AllocError>
    ensures { OnOk result (map (λ x. x.now) names.new.items ≡ map (λ x. x.now) names.old.items ++ flat_map (λ i. item_names i.what) items.now) }
{
    for item in items {
        add_item(&item.what, names)?;
    }
    Ok(())
}

// Adds the names of tests.
fn add_tests<'a>(tests: &[&'a TestWords], names: &mut Vec<&'a ColumnName>) -> Result<(), AllocError>
    ensures { OnOk result (map (λ x. x.now) names.new.items ≡ map (λ x. x.now) names.old.items ++ flat_map test_names (map (λ x. x.now) tests.now)) }
{
    for words in tests {
        add_test(words, names)?;
    }
    Ok(())
}

// Adds names.
fn add_names<'a>(more: &'a [ColumnName], names: &mut Vec<&'a ColumnName>) -> Result<(), AllocError>
    ensures { OnOk result (map (λ x. x.now) names.new.items ≡ map (λ x. x.now) names.old.items ++ more.now) }
{
    for name in more {
        names.push(name)?;
    }
    Ok(())
}

// The names of items, WHERE and GROUP BY, in the order of the text.
fn names_in(alloc: Global, select: &Select) -> Result<Vec<&ColumnName>, AllocError>
    ensures { IfOk result (λ names. map (λ x. x.now) names.items ≡ names_in select.now) }
{
    let tests = where_tests(alloc, &select.condition)?;
    let mut names = Vec::new(alloc);
    add_items(select.items.as_slice(), &mut names)?;
    add_tests(&tests, &mut names)?;
    add_names(select.groups.as_slice(), &mut names)?;
    Ok(names)
}

// The first name that fits no column.
fn first_unknown<'a>(scope: &[Entry], names: &[&'a ColumnName]) -> Option<&'a ColumnName>
    ensures { option_copied result ≡ first_of (filter (is_unknown (scope_from scope.now)) (map (λ x. x.now) names.now)) }
{
    for name in names {
        if is_unknown(scope, name) {
            return Some(name);
        }
    }
    None
}

// The first name that fits several columns.
fn first_ambiguous<'a>(scope: &[Entry], names: &[&'a ColumnName]) -> Option<&'a ColumnName>
    ensures { option_copied result ≡ first_of (filter (is_ambiguous (scope_from scope.now)) (map (λ x. x.now) names.now)) }
{
    for name in names {
        if is_ambiguous(scope, name) {
            return Some(name);
        }
    }
    None
}

// Whether an item has this AS name.
fn is_called(name: &str, item: &Item) -> bool
    ensures { result ≡ is_called name.now item.now }
{
    match &item.name {
        Some(called) => name == called.as_str(),
        None => false,
    }
}

// The first item with this AS name.
fn called(items: &[Item], name: &str) -> Option<usize>
    ensures { result ≡ position (is_called name.now) items.now }
{
    items.iter().position(|item| is_called(name, item))
}

// The first item with the AS name that a key without a table is.
pub(crate) fn called_item(items: &[Item], name: &ColumnName) -> Option<usize>
    ensures { result ≡ called_item items.now name.now }
{
    match &name.table {
        Some(_) => None,
        None => called(items, name.column.as_str()),
    }
}

// The column that an item is, where it is a bare column that means one.
fn item_place(scope: &[Entry], item: &Item) -> Option<Place>
    ensures { result ≡ option_map place_in (item_place (scope_from scope.now) item.now) }
{
    match &item.what {
        What::Column(name) => place_of(scope, name),
        What::Count | What::Sum(_) | What::Avg(_) | What::Min(_) | What::Max(_) => None,
    }
}

// The columns that items are.
pub(crate) fn item_places(
    alloc: Global,
    scope: &[Entry],
    items: &[Item],
) -> Result<Vec<Option<Place>>, AllocError>
    ensures { IfOk result (λ places. places.items ≡ map (λ i. option_map place_in (item_place (scope_from scope.now) i)) items.now) }
{
    let mut places = Vec::with_capacity(alloc, items.len())?;
    for item in items {
        places.push(item_place(scope, item))?;
    }
    Ok(places)
}

// Whether a column that is there is this one.
pub(crate) fn is_place(place: Place, other: Option<Place>) -> bool
    ensures { result ≡ is_same_place place other }
{
    match other {
        Some(other) => place.table == other.table && place.column == other.column,
        None => false,
    }
}

// The first of these columns that is this one.
fn place_index(places: &[Option<Place>], place: Place) -> Option<usize>
    ensures { result ≡ position (is_same_place place) places.now }
{
    places.iter().position(|other| is_place(place, *other))
}

// The first item that is the bare column that a key means, by the columns that items are.
pub(crate) fn column_item(
    scope: &[Entry],
    places: &[Option<Place>],
    name: &ColumnName,
) -> Option<usize>
    ensures { result ≡ index_of places.now (option_map place_in (place_of (scope_from scope.now) name.now)) }
{
    match place_of(scope, name) {
        Some(place) => place_index(places, place),
        None => None,
    }
}

// The keys of ORDER BY that are no AS name of an item.
fn column_keys<'a>(alloc: Global, select: &'a Select) -> Result<Vec<&'a ColumnName>, AllocError>
    ensures { IfOk result (λ keys. map (λ x. x.now) keys.items ≡ column_keys select.now) }
{
    let items = select.items.as_slice();
    let order = select.order.as_slice();
    let mut keys = Vec::new(alloc);
    for key in order {
        let name = &key.column;
        if called_item(items, name).is_none() {
            keys.push(name)?;
        }
    }
    Ok(keys)
}

// Whether a key fits no column, or one that no item is.
fn is_unknown_key(scope: &[Entry], places: &[Option<Place>], name: &ColumnName) -> bool
    ensures { result ≡ is_lost (scope_from scope.now) places.now name.now }
{
    !is_ambiguous(scope, name) && column_item(scope, places, name).is_none()
}

// The first key that fits no column, or one that no item is.
fn first_unknown_key<'a>(
    scope: &[Entry],
    places: &[Option<Place>],
    keys: &[&'a ColumnName],
) -> Option<&'a ColumnName>
    ensures { option_copied result ≡ first_of (filter (is_lost (scope_from scope.now) places.now) (map (λ x. x.now) keys.now)) }
{
    for name in keys {
        if is_unknown_key(scope, places, name) {
            return Some(name);
        }
    }
    None
}

// A name as it is printed.
pub(crate) fn name_text(alloc: Global, name: &ColumnName) -> Result<Word, AllocError>
    ensures { IfOk result (λ word. word ≡ name_text name.now) }
{
    let Some(table) = &name.table else {
        return name.column.copy(alloc);
    };
    let mut text = String::from_str(alloc, table.as_str())?;
    text.push_str(".")?;
    text.push_str(name.column.as_str())?;
    Word::from_str(alloc, text.as_str())
}

// A refusal of a name that no column has.
fn unknown(alloc: Global, name: &ColumnName) -> BindFault
    ensures { is_why (refusal_of result) (Some (Refusal.UnknownColumn (name_text name.now))) }
{
    match name_text(alloc, name) {
        Ok(text) => BindFault::UnknownColumn(text),
        Err(_) => BindFault::Memory,
    }
}

// A refusal of a name that several columns have.
fn ambiguous(alloc: Global, name: &ColumnName) -> BindFault
    ensures { is_why (refusal_of result) (Some (Refusal.AmbiguousColumn (name_text name.now))) }
{
    match name_text(alloc, name) {
        Ok(text) => BindFault::Ambiguous(text),
        Err(_) => BindFault::Memory,
    }
}

// The first name that fits no column, or else the first key that fits no column or one that no item is.
fn first_lost<'a>(
    scope: &[Entry],
    places: &[Option<Place>],
    names: &[&'a ColumnName],
    keys: &[&'a ColumnName],
) -> Option<&'a ColumnName>
    ensures { option_copied result ≡ option_or (first_of (filter (is_unknown (scope_from scope.now)) (map (λ x. x.now) names.now))) (first_of (filter (is_lost (scope_from scope.now) places.now) (map (λ x. x.now) keys.now))) }
{
    match first_unknown(scope, names) {
        Some(name) => Some(name),
        None => first_unknown_key(scope, places, keys),
    }
}

// The first name, or else the first key, that fits several columns.
fn first_several<'a>(
    scope: &[Entry],
    names: &[&'a ColumnName],
    keys: &[&'a ColumnName],
) -> Option<&'a ColumnName>
    ensures { option_copied result ≡ option_or (first_of (filter (is_ambiguous (scope_from scope.now)) (map (λ x. x.now) names.now))) (first_of (filter (is_ambiguous (scope_from scope.now)) (map (λ x. x.now) keys.now))) }
{
    match first_ambiguous(scope, names) {
        Some(name) => Some(name),
        None => first_ambiguous(scope, keys),
    }
}

// Whether each of these names means one column, and each of these keys an item.
fn check_lists(
    alloc: Global,
    scope: &[Entry],
    places: &[Option<Place>],
    names: &[&ColumnName],
    keys: &[&ColumnName],
) -> Result<(), BindFault>
    ensures { IsChecked result (names_told (scope_from scope.now) places.now (map (λ x. x.now) names.now) (map (λ x. x.now) keys.now)) }
{
    if let Some(name) = first_lost(scope, places, names, keys) {
        return Err(unknown(alloc, name));
    }
    match first_several(scope, names, keys) {
        Some(name) => Err(ambiguous(alloc, name)),
        None => Ok(()),
    }
}

// Whether each name of a query means one column, and each key of ORDER BY an item.
pub(crate) fn check_names(alloc: Global, scope: &[Entry], select: &Select) -> Result<(), BindFault>
    ensures { IsChecked result (name_refusal (scope_from scope.now) select.now) }
{
    let names = names_in(alloc, select)?;
    let keys = column_keys(alloc, select)?;
    let places = item_places(alloc, scope, select.items.as_slice())?;
    check_lists(
        alloc,
        scope,
        places.as_slice(),
        names.as_slice(),
        keys.as_slice(),
    )
}
