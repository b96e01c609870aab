// The line of names of an answer.
ghost use Rattle.std.specs.Prelude.{◌≡◌, ◌∷◌, ◌++◌, [], map, IfOk};
ghost use Rattle.star_sql.specs.Spelling.{what_spelled, expr_spelled};
ghost use Rattle.star_meaning.specs.Names.{name_text};
ghost use Rattle.star_meaning.specs.Answer.{printed_name};
ghost use Rattle.star_bind.specs.QueryParts.{printed};

use crate::names::name_checks::name_text;
use blink_base::{List, Word};
use star_sql::{ColumnName, Expr, Item, What};
use std::alloc::{AllocError, Global};

// Two names and a mark between them.
fn pair_text(
    alloc: Global,
    left: &ColumnName,
    mark: &str,
    right: &ColumnName,
) -> Result<Word, AllocError>
    ensures { IfOk result (λ word. word ≡ name_text left.now ++ mark.now ++ name_text right.now) }
{
    let first = name_text(alloc, left)?;
    let last = name_text(alloc, right)?;
    let mut text = String::from_str(alloc, first.as_str())?;
    text.push_str(mark)?;
    text.push_str(last.as_str())?;
    Word::from_str(alloc, text.as_str())
}

// What a sum or an average is taken of, as it is printed.
fn expr_text(alloc: Global, expr: &Expr) -> Result<Word, AllocError>
    ensures { IfOk result (λ word. word ≡ printed (expr_spelled expr.now)) }
{
    match expr {
        Expr::One(a) => name_text(alloc, a),
        Expr::Times(a, b) => pair_text(alloc, a, "*", b),
        Expr::Plus(a, b) => pair_text(alloc, a, "+", b),
        Expr::Minus(a, b) => pair_text(alloc, a, "-", b),
    }
}

// An aggregate of something, as it is printed.
fn call_text(alloc: Global, function: &str, inside: &Word) -> Result<Word, AllocError>
    ensures { IfOk result (λ word. word ≡ function.now ++ 40 ∷ inside.now ++ 41 ∷ []) }
{
    let mut text = String::from_str(alloc, function)?;
    text.push_str("(")?;
    text.push_str(inside.as_str())?;
    text.push_str(")")?;
    Word::from_str(alloc, text.as_str())
}

// An aggregate of a column or of two, as it is printed.
fn expr_call(alloc: Global, function: &str, expr: &Expr) -> Result<Word, AllocError>
    ensures { IfOk result (λ word. word ≡ function.now ++ 40 ∷ printed (expr_spelled expr.now) ++ 41 ∷ []) }
{
    let inside = expr_text(alloc, expr)?;
    call_text(alloc, function, &inside)
}

// An aggregate of a column, as it is printed.
fn column_call(alloc: Global, function: &str, name: &ColumnName) -> Result<Word, AllocError>
    ensures { IfOk result (λ word. word ≡ function.now ++ 40 ∷ name_text name.now ++ 41 ∷ []) }
{
    let inside = name_text(alloc, name)?;
    call_text(alloc, function, &inside)
}

// The words of an item without spaces.
fn what_text(alloc: Global, what: &What) -> Result<Word, AllocError>
    ensures { IfOk result (λ word. word ≡ printed (what_spelled what.now)) }
{
    match what {
        What::Column(name) => name_text(alloc, name),
        What::Count => Word::from_str(alloc, "count(*)"),
        What::Sum(expr) => expr_call(alloc, "sum", expr.get()),
        What::Avg(expr) => expr_call(alloc, "avg", expr.get()),
        What::Min(name) => column_call(alloc, "min", name),
        What::Max(name) => column_call(alloc, "max", name),
    }
}

// An item's printed name: its AS name, or else its words without spaces.
fn printed_name(alloc: Global, item: &Item) -> Result<Word, AllocError>
    ensures { IfOk result (λ word. word ≡ printed_name item.now) }
{
    match &item.name {
        Some(name) => name.copy(alloc),
        None => what_text(alloc, &item.what),
    }
}

// The line of names.
pub(crate) fn printed_names(alloc: Global, items: &[Item]) -> Result<List<Word>, AllocError>
    ensures { IfOk result (λ names. names ≡ map printed_name items.now) }
{
    let mut names = Vec::with_capacity(alloc, items.len())?;
    for item in items {
        names.push(printed_name(alloc, item)?)?;
    }
    Ok(List::from_vec(names))
}
