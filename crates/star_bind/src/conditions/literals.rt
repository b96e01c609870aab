// The values that written literals are, and the tests that they make.
ghost use Rattle.std.specs.Prelude.{◌≡◌, true, IsTrue, IfOk, IfSome, Some, None, option_map, option_and_then, if◌then◌else◌};
ghost use Rattle.std.specs.List.{list_all};
ghost use Rattle.std.specs.Option.{option_copied};
ghost use Rattle.blink_base.specs.RowFits.{is_entry};
ghost use Rattle.star_sql.specs.Literals.{literal_value, literal_values, signed, text_if_short, is_prefix_pattern, front_of, like_test, test_of};
ghost use Rattle.star_sql.specs.WellFormed.{is_literal, is_written_number, is_test};

use crate::names::kinds::has_no_wildcard;
use blink_base::{Kind, LONGEST_TEXT, List, Op, Test, Value, Word};
use star_sql::{Literal, TestWords};
use std::alloc::{AllocError, Global};

// A written number, as a value.
fn number_value(minus: bool, number: i64) -> Value
    requires { IsTrue (is_written_number number) }
    ensures value { result ≡ Value.Int (signed minus number) }
    ensures entry { IsTrue (is_entry Kind.Int result) }
{
    Value::Int(if minus { -number } else { number })
}

// A written text, as a value, where it is short enough.
fn text_value(alloc: Global, word: &Word) -> Result<Option<Value>, AllocError>
    ensures value { IfOk result (λ value. value ≡ text_if_short word.now) }
    ensures entry { IfOk result (λ value. IfSome value (λ v. IsTrue (is_entry Kind.Text v))) }
{
    Ok(Value::of_text(word.copy(alloc)?))
}

// A written date, as a value, where it is one.
fn date_value(alloc: Global, word: &Word) -> Option<Value>
    ensures value { result ≡ literal_value Kind.Date (Literal.Date word.now) }
    ensures entry { IfSome result (λ v. IsTrue (is_entry Kind.Date v)) }
{
    Value::read(alloc, Kind::Date, word.as_str().as_bytes()).ok()
}

/// The value that a literal is at a column of a kind: None exactly where it may not stand there.
///
/// A number may stand at a column of whole numbers, a text of at most 255 bytes at one of texts, and a date, or a text that
/// says one, at one of dates. The literal is well formed, and the value may stand in a column of the kind. Source: ISO/IEC
/// 9075 (literals), in this project's own profile.
pub fn literal_value(
    alloc: Global,
    kind: Kind,
    literal: &Literal,
) -> Result<Option<Value>, AllocError>
    requires { IsTrue (is_literal literal.now) }
    ensures value { IfOk result (λ value. value ≡ literal_value kind literal.now) }
    ensures entry { IfOk result (λ value. IfSome value (λ v. IsTrue (is_entry kind v))) }
{
    match literal {
        Literal::Number { minus, value } => match kind {
            Kind::Int => Ok(Some(number_value(*minus, *value))),
            _ => Ok(None),
        },
        Literal::Text(word) => match kind {
            Kind::Int => Ok(None),
            Kind::Text => text_value(alloc, word),
            Kind::Date => Ok(date_value(alloc, word)),
        },
        Literal::Date(word) => match kind {
            Kind::Date => Ok(date_value(alloc, word)),
            _ => Ok(None),
        },
    }
}

// The values that literals are, where each may stand there.
fn literal_values(
    alloc: Global,
    kind: Kind,
    literals: &[Literal],
) -> Result<Option<List<Value>>, AllocError>
    requires { list_all is_literal literals.now ≡ true }
    ensures { IfOk result (λ values. values ≡ literal_values kind literals.now) }
{
    let mut values = Vec::with_capacity(alloc, literals.len())?;
    for literal in literals {
        let Some(value) = literal_value(alloc, kind, literal)? else {
            return Ok(None);
        };
        values.push(value)?;
    }
    Ok(Some(List::from_vec(values)))
}

// The test that compares with a literal.
fn compare_test(
    alloc: Global,
    kind: Kind,
    op: Op,
    literal: &Literal,
) -> Result<Option<Test>, AllocError>
    requires { IsTrue (is_literal literal.now) }
    ensures { IfOk result (λ test. test ≡ option_map (λ value. Test.Is op value) (literal_value kind literal.now)) }
{
    match literal_value(alloc, kind, literal)? {
        Some(value) => Ok(Some(Test::Is(op, value))),
        None => Ok(None),
    }
}

// The test that asks whether a value lies between two literals.
fn between_test(
    alloc: Global,
    kind: Kind,
    low: &Literal,
    high: &Literal,
) -> Result<Option<Test>, AllocError>
    requires low { IsTrue (is_literal low.now) }
    requires high { IsTrue (is_literal high.now) }
    ensures { IfOk result (λ test. test ≡ option_and_then (λ first. option_map (λ last. Test.Between first last) (literal_value kind high.now)) (literal_value kind low.now)) }
{
    let Some(first) = literal_value(alloc, kind, low)? else {
        return Ok(None);
    };
    match literal_value(alloc, kind, high)? {
        Some(last) => Ok(Some(Test::Between(first, last))),
        None => Ok(None),
    }
}

// The test that asks whether a value is one of some literals.
fn among_test(alloc: Global, kind: Kind, literals: &[Literal]) -> Result<Option<Test>, AllocError>
    requires { list_all is_literal literals.now ≡ true }
    ensures { IfOk result (λ test. test ≡ option_map (λ values. Test.Among values) (literal_values kind literals.now)) }
{
    match literal_values(alloc, kind, literals)? {
        Some(values) => Ok(Some(Test::Among(values))),
        None => Ok(None),
    }
}

// The prefix that a pattern asks for, where it is a prefix without wildcards, short enough, and one %.
pub(crate) fn pattern_front(pattern: &str) -> Option<&str>
    ensures { option_copied result ≡ (if is_prefix_pattern pattern.now then Some (front_of pattern.now) else None) }
{
    let front = pattern.strip_suffix('%')?;
    if has_no_wildcard(front.as_bytes()) && front.len() <= LONGEST_TEXT {
        Some(front)
    } else {
        None
    }
}

// The test of a text for a prefix.
fn prefix_test(alloc: Global, pattern: &Word) -> Result<Option<Test>, AllocError>
    ensures { IfOk result (λ test. test ≡ like_test Kind.Text pattern.now) }
{
    match pattern_front(pattern.as_str()) {
        Some(front) => Ok(Some(Test::Prefix(Word::from_str(alloc, front)?))),
        None => Ok(None),
    }
}

// The test that words put to a column of a kind, where they may be put to it.
pub(crate) fn test_of(
    alloc: Global,
    kind: Kind,
    words: &TestWords,
) -> Result<Option<Test>, AllocError>
    requires { is_test words.now ≡ true }
    ensures { IfOk result (λ test. test ≡ test_of kind words.now) }
{
    match words {
        TestWords::Compare { op, literal, .. } => compare_test(alloc, kind, *op, literal),
        TestWords::Columns { .. } => Ok(None),
        TestWords::Between { low, high, .. } => between_test(alloc, kind, low, high),
        TestWords::Among { list, .. } => among_test(alloc, kind, list.as_slice()),
        TestWords::Like { pattern, .. } => match kind {
            Kind::Text => prefix_test(alloc, pattern),
            Kind::Int | Kind::Date => Ok(None),
        },
    }
}
