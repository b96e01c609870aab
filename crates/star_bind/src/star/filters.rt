// The factors that are conditions on one table.
ghost use Rattle.std.specs.Prelude.{[], ◌∷◌, ◌++◌, cond, ◌≡◌, ◌==◌, ◌&&◌, ◌||◌, true, not, map, filter, filter_map, OnOk, IfOk, nat_le, length, Some, None};
ghost use Rattle.std.specs.List.{list_all, list_any};
ghost use Rattle.std.specs.Option.{option_map_or};
ghost use Rattle.star_sql.specs.Literals.{column_of};
ghost use Rattle.star_meaning.specs.Names.{place_of};
ghost use Rattle.star_bind.specs.StarForm.{compares_columns, is_pair_factor, tables_in, is_filter};
ghost use Rattle.blink_lists.specs.Lists.{once_each};
ghost use Rattle.star_bind.specs.Checks.{primary_is_good};
ghost use Rattle.star_bind.specs.FactorParts.{primary_of, table_named, tables_named, with_table};
ghost use Rattle.star_bind.specs.Lookup.{scope_from};

use crate::conditions::columns::add_column;
use crate::names::scope::{Entry, place_of};
use crate::star::condition_tests::{column_of, factor_tests};
use crate::star::factors::Factor;
use blink_base::List;
use star_sql::TestWords;
use std::alloc::{AllocError, Global};

// Whether a test compares two columns.
fn compares_columns(words: &TestWords) -> bool
    ensures { result ≡ compares_columns words.now }
{
    match words {
        TestWords::Columns { .. } => true,
        TestWords::Compare { .. }
        | TestWords::Between { .. }
        | TestWords::Among { .. }
        | TestWords::Like { .. } => false,
    }
}

// Whether some of these tests compares two columns.
fn some_compares(tests: &[&TestWords]) -> bool
    ensures { result ≡ list_any compares_columns (map (λ x. x.now) tests.now) }
{
    for words in tests {
        if compares_columns(words) {
            return true;
        }
    }
    false
}

// Whether a factor is a comparison of two columns.
fn is_pair_factor(factor: &Factor) -> bool
    ensures { result ≡ is_pair_factor (primary_of factor.now) }
{
    match factor {
        Factor::Words(words) => compares_columns(words),
        Factor::Whole(_) => false,
    }
}

// The table whose column a test names first.
fn table_of(scope: &[Entry], words: &TestWords) -> Option<usize>
    ensures { result ≡ table_named (scope_from scope.now) words.now }
{
    match place_of(scope, column_of(words)) {
        Some(place) => Some(place.table),
        None => None,
    }
}

// Adds a table where there is one and it isn't there yet.
fn add_table(tables: &mut List<usize>, table: Option<usize>) -> Result<(), AllocError>
    ensures { OnOk result (tables.new ≡ with_table tables.old table) }
{
    match table {
        Some(table) => add_column(tables, table),
        None => Ok(()),
    }
}

// The tables whose columns tests name first, each once.
fn tables_of(
    alloc: Global,
    scope: &[Entry],
    tests: &[&TestWords],
) -> Result<List<usize>, AllocError>
    ensures { IfOk result (λ tables. tables ≡ tables_named (scope_from scope.now) [] (map (λ x. x.now) tests.now)) }
{
    let mut tables = List::new(alloc);
    for words in tests {
        add_table(&mut tables, table_of(scope, words))?;
    }
    Ok(tables)
}

// Whether tables are at most one and no test compares two columns.
fn is_of_one_table(tables: &[usize], tests: &[&TestWords]) -> bool
    ensures { result ≡ (nat_le (length tables.now) 1 && not (list_any compares_columns (map (λ x. x.now) tests.now))) }
{
    tables.len() <= 1 && !some_compares(tests)
}

// The tables whose columns a factor names.
fn tables_in(
    alloc: Global,
    scope: &[Entry],
    tests: &[&TestWords],
) -> Result<List<usize>, AllocError>
    ensures { IfOk result (λ tables. tables ≡ once_each (λ x y. x == y) (filter_map (table_named (scope_from scope.now)) (map (λ x. x.now) tests.now))) }
{
    tables_of(alloc, scope, tests)
}

// Whether a factor names one table's columns and holds no comparison of two columns.
fn is_filter(alloc: Global, scope: &[Entry], factor: &Factor) -> Result<bool, AllocError>
    ensures { IfOk result (λ is. is ≡ is_filter (scope_from scope.now) (primary_of factor.now)) }
{
    let tests = factor_tests(alloc, factor)?;
    let tables = tables_in(alloc, scope, tests.as_slice())?;
    Ok(is_of_one_table(tables.as_slice(), tests.as_slice()))
}

// Whether a factor is a comparison of two columns or a filter.
fn is_star_factor(alloc: Global, scope: &[Entry], factor: &Factor) -> Result<bool, AllocError>
    ensures { IfOk result (λ is. is ≡ (is_pair_factor (primary_of factor.now) || is_filter (scope_from scope.now) (primary_of factor.now))) }
{
    if is_pair_factor(factor) {
        return Ok(true);
    }
    is_filter(alloc, scope, factor)
}

// Whether each factor is a comparison of two columns or a filter.
pub(crate) fn are_star_factors(
    alloc: Global,
    scope: &[Entry],
    factors: &[Factor],
) -> Result<bool, AllocError>
    ensures { IfOk result (λ are. are ≡ list_all (λ f. is_pair_factor f || is_filter (scope_from scope.now) f) (map primary_of factors.now)) }
{
    for factor in factors {
        if !is_star_factor(alloc, scope, factor)? {
            return Ok(false);
        }
    }
    Ok(true)
}

// Whether each of these tables is this one.
fn are_all(tables: &[usize], table: usize) -> bool
    ensures { result ≡ list_all (λ t. t == table) tables.now }
{
    tables.iter().all(|t| *t == table)
}

// Whether a factor is a condition on a table.
fn is_filter_of(
    alloc: Global,
    scope: &[Entry],
    table: usize,
    factor: &Factor,
) -> Result<bool, AllocError>
    ensures { IfOk result (λ is. is ≡ (not (is_pair_factor (primary_of factor.now)) && list_all (λ t. t == table) (tables_in (scope_from scope.now) (primary_of factor.now)))) }
{
    if is_pair_factor(factor) {
        return Ok(false);
    }
    let tests = factor_tests(alloc, factor)?;
    let tables = tables_in(alloc, scope, tests.as_slice())?;
    Ok(are_all(tables.as_slice(), table))
}

// Adds a factor where it is to be added.
fn add_if<'a>(filters: &mut Vec<Factor<'a>>, factor: Factor<'a>, is: bool) -> Result<(), AllocError>
    ensures { OnOk result (filters.new.items ≡ cond is (filters.old.items ++ factor.entry ∷ []) filters.old.items) }
{
    if is {
        filters.push(factor)?;
    }
    Ok(())
}

// The factors that are conditions on a table.
pub(crate) fn filters_of<'a>(
    alloc: Global,
    scope: &[Entry],
    table: usize,
    factors: &[Factor<'a>],
) -> Result<Vec<Factor<'a>>, AllocError>
    requires { list_all (λ f. primary_is_good (primary_of f)) factors.now ≡ true }
    ensures filters { IfOk result (λ filters. map primary_of filters.items ≡ filter (λ f. not (is_pair_factor f) && list_all (λ t. t == table) (tables_in (scope_from scope.now) f)) (map primary_of factors.now)) }
    ensures good { IfOk result (λ filters. list_all (λ f. primary_is_good (primary_of f)) filters.items ≡ true) }
{
    let mut filters = Vec::new(alloc);
    for factor in factors {
        let wanted = is_filter_of(alloc, scope, table, factor)?;
        add_if(&mut filters, *factor, wanted)?;
    }
    Ok(filters)
}
