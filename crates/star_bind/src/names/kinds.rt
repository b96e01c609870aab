// Kinds that a query puts together.
ghost use Rattle.std.specs.Prelude.{◌≡◌, ◌<◌, ◌||◌, ◌&&◌, not, length, is_none, option_map, map, IfOk};
ghost use Rattle.std.specs.List.{list_any, list_all};
ghost use Rattle.blink_base.specs.Values.{same_kind};
ghost use Rattle.blink_base.specs.Dates.{date_of};
ghost use Rattle.star_sql.specs.Literals.{literal_value, literal_values, is_prefix_pattern, is_wildcard, front_of, test_of};
ghost use Rattle.star_meaning.specs.Names.{kind_at, place_of};
ghost use Rattle.star_bind.specs.WrongKind.{kind_named, kinds_differ, refuses_words, is_wrong_test, is_no_number, is_wrong_expr, is_wrong_item, is_wrong_condition, has_wrong_kind};
ghost use Rattle.star_bind.specs.Lookup.{scope_from};
ghost use Rattle.star_bind.specs.Checks.{where_tests};

use crate::names::scope::{Entry, kind_at, place_of};
use crate::star::condition_tests::where_tests;
use blink_base::{Kind, LONGEST_TEXT, Value, Word};
use star_sql::{ColumnName, Expr, Item, Literal, Select, TestWords, What};
use std::alloc::{AllocError, Global};

// The kind of the column that a name means.
pub(crate) fn kind_named(scope: &[Entry], name: &ColumnName) -> Option<Kind>
    ensures { result ≡ kind_named (scope_from scope.now) name.now }
{
    match place_of(scope, name) {
        Some(place) => Some(kind_at(scope, place)),
        None => None,
    }
}

// Whether two kinds are one.
fn is_same(one: Kind, other: Kind) -> bool
    ensures { result ≡ same_kind one other }
{
    match (one, other) {
        (Kind::Int, Kind::Int) | (Kind::Text, Kind::Text) | (Kind::Date, Kind::Date) => true,
        _ => false,
    }
}

// Whether two columns are of different kinds.
fn kinds_differ(one: Option<Kind>, other: Option<Kind>) -> bool
    ensures { result ≡ kinds_differ one other }
{
    match (one, other) {
        (Some(x), Some(y)) => !is_same(x, y),
        _ => false,
    }
}

// Whether a text is a date.
fn is_date(alloc: Global, word: &Word) -> bool
    ensures { result ≡ not (is_none (literal_value Kind.Date (Literal.Date word.now))) }
{
    Value::read(alloc, Kind::Date, word.as_str().as_bytes()).is_ok()
}

// Whether a literal may stand at a column of a kind.
fn may_stand(alloc: Global, kind: Kind, literal: &Literal) -> bool
    ensures { result ≡ not (is_none (literal_value kind literal.now)) }
{
    match literal {
        Literal::Number { .. } => match kind {
            Kind::Int => true,
            Kind::Text | Kind::Date => false,
        },
        Literal::Text(word) => match kind {
            Kind::Int => false,
            Kind::Text => word.as_str().len() <= LONGEST_TEXT,
            Kind::Date => is_date(alloc, word),
        },
        Literal::Date(word) => match kind {
            Kind::Date => is_date(alloc, word),
            Kind::Int | Kind::Text => false,
        },
    }
}

// Whether each of these literals may stand at a column of a kind.
fn may_all_stand(alloc: Global, kind: Kind, literals: &[Literal]) -> bool
    ensures { result ≡ list_all (λ l. not (is_none (literal_value kind l))) literals.now }
{
    for literal in literals {
        if !may_stand(alloc, kind, literal) {
            return false;
        }
    }
    true
}

// Whether two literals may stand at a column of a kind.
fn may_both_stand(alloc: Global, kind: Kind, low: &Literal, high: &Literal) -> bool
    ensures { result ≡ (not (is_none (literal_value kind low.now)) && not (is_none (literal_value kind high.now))) }
{
    may_stand(alloc, kind, low) && may_stand(alloc, kind, high)
}

// Whether no byte is % or _.
pub(crate) fn has_no_wildcard(bytes: &[u8]) -> bool
    ensures { result ≡ list_all (λ c. not (is_wildcard c)) bytes.now }
{
    bytes.iter().all(|b| *b != b'%' && *b != b'_')
}

// Whether a pattern is a prefix without wildcards, short enough, and one %.
pub(crate) fn is_prefix_pattern(pattern: &[u8]) -> bool
    ensures { result ≡ is_prefix_pattern pattern.now }
{
    match pattern {
        [front @ .., last] => {
            *last == b'%' && has_no_wildcard(front) && front.len() <= LONGEST_TEXT
        }
        [] => false,
    }
}

// Whether a column of a kind can't take the literals or the pattern of a test.
pub(crate) fn refuses(alloc: Global, kind: Kind, words: &TestWords) -> bool
    ensures { result ≡ is_none (test_of kind words.now) }
{
    match words {
        TestWords::Compare { literal, .. } => !may_stand(alloc, kind, literal),
        TestWords::Columns { .. } => true,
        TestWords::Between { low, high, .. } => !may_both_stand(alloc, kind, low, high),
        TestWords::Among { list, .. } => !may_all_stand(alloc, kind, list.as_slice()),
        TestWords::Like { pattern, .. } => match kind {
            Kind::Text => !is_prefix_pattern(pattern.as_str().as_bytes()),
            Kind::Int | Kind::Date => true,
        },
    }
}

// Whether a column, where it is there, can't take the literals or the pattern of a test.
fn refuses_words(alloc: Global, kind: Option<Kind>, words: &TestWords) -> bool
    ensures { result ≡ refuses_words kind words.now }
{
    match kind {
        Some(kind) => refuses(alloc, kind, words),
        None => false,
    }
}

// Whether a test puts wrong kinds together.
fn is_wrong_test(alloc: Global, scope: &[Entry], words: &TestWords) -> bool
    ensures { result ≡ is_wrong_test (scope_from scope.now) words.now }
{
    match words {
        TestWords::Columns { left, right, .. } => {
            kinds_differ(kind_named(scope, left), kind_named(scope, right))
        }
        TestWords::Compare { column, .. }
        | TestWords::Between { column, .. }
        | TestWords::Among { column, .. }
        | TestWords::Like { column, .. } => {
            refuses_words(alloc, kind_named(scope, column), words)
        }
    }
}

// Whether some of these tests does.
fn is_some_wrong(alloc: Global, scope: &[Entry], tests: &[&TestWords]) -> bool
    ensures { result ≡ list_any (is_wrong_test (scope_from scope.now)) (map (λ x. x.now) tests.now) }
{
    for words in tests {
        if is_wrong_test(alloc, scope, words) {
            return true;
        }
    }
    false
}

// Whether a column is no whole number.
fn is_no_number(scope: &[Entry], name: &ColumnName) -> bool
    ensures { result ≡ is_no_number (scope_from scope.now) name.now }
{
    kinds_differ(kind_named(scope, name), Some(Kind::Int))
}

// Whether an expression takes a column that is no whole number.
fn is_wrong_expr(scope: &[Entry], expr: &Expr) -> bool
    ensures { result ≡ is_wrong_expr (scope_from scope.now) expr.now }
{
    match expr {
        Expr::One(a) => is_no_number(scope, a),
        Expr::Times(a, b) | Expr::Plus(a, b) | Expr::Minus(a, b) => {
            is_no_number(scope, a) || is_no_number(scope, b)
        }
    }
}

// Whether an item takes a sum or an average of other than whole numbers.
fn is_wrong_item(scope: &[Entry], item: &Item) -> bool
    ensures { result ≡ is_wrong_item (scope_from scope.now) item.now.what }
{
    match &item.what {
        What::Sum(expr) | What::Avg(expr) => is_wrong_expr(scope, expr.get()),
        What::Column(_) | What::Count | What::Min(_) | What::Max(_) => false,
    }
}

// Whether some of these items does.
fn is_some_item_wrong(scope: &[Entry], items: &[Item]) -> bool
    ensures { result ≡ list_any (λ i. is_wrong_item (scope_from scope.now) i.what) items.now }
{
    items.iter().any(|item| is_wrong_item(scope, item))
}

// Whether a query puts wrong kinds together, in its items or its condition.
pub(crate) fn has_wrong_kind(
    alloc: Global,
    scope: &[Entry],
    select: &Select,
) -> Result<bool, AllocError>
    ensures { IfOk result (λ wrong. wrong ≡ has_wrong_kind (scope_from scope.now) select.now) }
{
    if is_some_item_wrong(scope, select.items.as_slice()) {
        return Ok(true);
    }
    let tests = where_tests(alloc, &select.condition)?;
    Ok(is_some_wrong(alloc, scope, tests.as_slice()))
}
