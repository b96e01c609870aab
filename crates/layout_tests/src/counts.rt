// Values numbered, counted and ranked.
use blink_base::{Value, Word};
use blink_histogram::Interner;
use std::alloc::{AllocError, Global};
use std::test::Fail;

fn value_of(alloc: Global, text: &str) -> Result<Value, AllocError> {
    match text {
        "-1" => Ok(Value::Int(-1)),
        "5" => Ok(Value::Int(5)),
        "day" => Ok(Value::Date(20_240_229)),
        _ => Ok(Value::Text(Word::from_str(alloc, text)?)),
    }
}

// The values, the number that each gets with its count so far, and the numbers by rank.
type Row = (
    &'static [&'static str],
    &'static [(u32, u64)],
    &'static [u32],
);

const ROWS: [Row; 4] = [
    (&[], &[], &[]),
    (
        &["b", "a", "b", "5", "-1", "5"],
        &[(0, 1), (1, 1), (0, 2), (2, 1), (3, 1), (2, 2)],
        &[2, 0, 3, 1],
    ),
    (
        &["day", "-1", "5", "b", "a"],
        &[(0, 1), (1, 1), (2, 1), (3, 1), (4, 1)],
        &[1, 2, 4, 3, 0],
    ),
    (
        &["ab", "a", "ab", "a", "a", "b"],
        &[(0, 1), (1, 1), (0, 2), (1, 2), (1, 3), (2, 1)],
        &[1, 0, 2],
    ),
];

// Whether the values get these numbers and counts, and these ranks.
fn are_ranked(
    alloc: Global,
    texts: &[&str],
    numbers: &[(u32, u64)],
    ranked: &[u32],
) -> Result<bool, AllocError> {
    let mut interner = Interner::new(alloc);
    let mut same = texts.len() == numbers.len();
    for at in 0..texts.len().min(numbers.len()).min(10) {
        let value = value_of(alloc, texts[at])?;
        let number = interner.number(&value)?;
        same = same && *interner.value(number) == value;
        same = same && (number, interner.count(number)) == numbers[at];
    }
    Ok(same && interner.ranked(alloc)?.as_slice() == ranked)
}

#[test]
fn values_are_numbered_and_ranked(rt: HostRuntime) -> Result<(), Fail> {
    for (texts, numbers, ranked) in &ROWS {
        assert!(rt; are_ranked(rt.alloc(), texts, numbers, ranked)?);
    }
    Ok(())
}
