// The codes of a class whose values pass a test.
ghost use Rattle.std.specs.Prelude.{◌≡◌, ◌<◌, ◌&&◌, IfOk, IsTrue, length, map};
ghost use Rattle.std.specs.List.{list_all, list_any};
ghost use Rattle.std.specs.Ordering.{is_le};
ghost use Rattle.blink_base.specs.RowFits.{is_good};
ghost use Rattle.blink_base.specs.Tests.{begins_with, op_holds, test_holds};
ghost use Rattle.blink_base.specs.Values.{same_value, value_cmp};
ghost use Rattle.order_codes.specs.Dictionary.{class_at};
ghost use Rattle.cell_predicates.specs.Prefixes.{behind_front};

use crate::cuts::{code_of, lesser, not_greater};
use blink_base::{Op, Test, Value, Word};
use order_codes::Dict;
use page_synopsis::CodeBits;
use std::alloc::{AllocError, Global};
use word_pool::Ledger;

// A bit for each code of a class: whether its value passes a test. The values are good.
pub(crate) fn test_bits<M: Ledger>(
    alloc: Global,
    dict: &Dict<M>,
    class: u32,
    test: &Test,
) -> Result<CodeBits, AllocError>
    requires class { class < length dict.now }
    requires good { IsTrue (list_all is_good (class_at dict.now class)) }
    ensures { IfOk result (λ bits. bits ≡ map (test_holds test.now) (class_at dict.now class)) }
{
    match test {
        Test::Is(op, value) => compared(alloc, dict, class, *op, value),
        Test::Between(low, high) => between(alloc, dict, class, low, high),
        Test::Among(values) => among(alloc, dict, class, values.as_slice()),
        Test::Prefix(front) => prefixed(alloc, dict, class, front),
    }
}

// Whether a value compares so with another.
fn compared<M: Ledger>(
    alloc: Global,
    dict: &Dict<M>,
    class: u32,
    op: Op,
    value: &Value,
) -> Result<CodeBits, AllocError>
    requires { class < length dict.now }
    ensures { IfOk result (λ bits. bits ≡ map (λ v. op_holds op (value_cmp v value.now)) (class_at dict.now class)) }
{
    let size = dict.size(class);
    let low = lesser(dict, class, value);
    let high = not_greater(dict, class, value);
    let mut bits = CodeBits::new(alloc, size)?;
    match op {
        Op::Equal => bits.set_range(low, high),
        Op::Unequal => {
            bits.set_range(0, low);
            bits.set_range(high, size);
        }
        Op::Less => bits.set_range(0, low),
        Op::LessEqual => bits.set_range(0, high),
        Op::Greater => bits.set_range(high, size),
        Op::GreaterEqual => bits.set_range(low, size),
    }
    Ok(bits)
}

// Whether a value lies between two others, or is one of them.
fn between<M: Ledger>(
    alloc: Global,
    dict: &Dict<M>,
    class: u32,
    low: &Value,
    high: &Value,
) -> Result<CodeBits, AllocError>
    requires { class < length dict.now }
    ensures { IfOk result (λ bits. bits ≡ map (λ v. is_le (value_cmp low.now v) && is_le (value_cmp v high.now)) (class_at dict.now class)) }
{
    let mut bits = CodeBits::new(alloc, dict.size(class))?;
    bits.set_range(lesser(dict, class, low), not_greater(dict, class, high));
    Ok(bits)
}

// Whether a value is one of others.
fn among<M: Ledger>(
    alloc: Global,
    dict: &Dict<M>,
    class: u32,
    values: &[Value],
) -> Result<CodeBits, AllocError>
    requires { class < length dict.now }
    ensures { IfOk result (λ bits. bits ≡ map (λ v. list_any (same_value v) values.now) (class_at dict.now class)) }
{
    let mut bits = CodeBits::new(alloc, dict.size(class))?;
    for value in values {
        if let Some(code) = code_of(dict, class, value) {
            bits.set(code);
        }
    }
    Ok(bits)
}

// Whether a value is a text that begins with another. The values are good.
fn prefixed<M: Ledger>(
    alloc: Global,
    dict: &Dict<M>,
    class: u32,
    front: &Word,
) -> Result<CodeBits, AllocError>
    requires class { class < length dict.now }
    requires good { IsTrue (list_all is_good (class_at dict.now class)) }
    ensures { IfOk result (λ bits. bits ≡ map (begins_with front.now) (class_at dict.now class)) }
{
    let first = Value::Text(Word::from_str(alloc, front.as_str())?);
    let behind = Value::Text(behind_front(alloc, front.as_str())?);
    let mut bits = CodeBits::new(alloc, dict.size(class))?;
    bits.set_range(lesser(dict, class, &first), lesser(dict, class, &behind));
    Ok(bits)
}

// A text, and 64 times the last character behind it.
fn behind_front(alloc: Global, front: &str) -> Result<Word, AllocError>
    ensures { IfOk result (λ word. word ≡ behind_front front.now) }
{
    let mut word = Word::from_str(alloc, front)?;
    for _letter in 0..64u32 {
        word.push('\u{10FFFF}')?;
    }
    Ok(word)
}
