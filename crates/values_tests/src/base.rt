// Words, lists and values.
use blink_base::{
    Boxed, Column, Copied, Kind, List, Op, Roomy, Row, Schema, Test, Tree, Value, ValueFault, Word,
};
use std::alloc::{AllocError, Global};
use std::cmp::Ordering;
use std::test::Fail;

// Letters, the word that they make, its bytes, and its byte at a place.
const WORDS: [(&[char], &str, usize, usize, Option<u8>); 3] = [
    (&[], "", 0, 0, None),
    (&['a', 'ö', '€'], "aö€", 6, 0, Some(b'a')),
    (&['a', 'ö', '€'], "aö€", 6, 6, None),
];

// The word of some letters: its text, its bytes, and its byte at a place.
fn word_facts(
    alloc: Global,
    letters: &[char],
    at: usize,
) -> Result<(String, usize, Option<u8>), AllocError> {
    let mut word = Word::new(alloc);
    for letter in letters {
        word.push(*letter)?;
    }
    let text = word.as_str().to_string(alloc)?;
    Ok((text, word.len(), word.get(at)))
}

#[test]
fn words_grow(rt: HostRuntime) -> Result<(), Fail> {
    for (letters, text, bytes, at, byte) in &WORDS {
        let facts = word_facts(rt.alloc(), letters, *at)?;
        assert_eq!(rt; facts.0.as_str(), *text);
        assert_eq!(rt; (facts.1, facts.2), (*bytes, *byte));
    }
    Ok(())
}

fn words_of(alloc: Global, texts: &[&str]) -> Result<List<Word>, AllocError> {
    let mut words = List::new(alloc);
    for text in texts {
        words.push(Word::from_str(alloc, text)?)?;
    }
    Ok(words)
}

// A copy of some words of which one was emptied first.
fn emptied(alloc: Global, texts: &[&str], at: usize) -> Result<List<Word>, AllocError> {
    let mut words = words_of(alloc, texts)?;
    if let Some(word) = words.get_mut(at) {
        *word = Word::new(alloc);
    }
    words.copied(alloc)
}

// The words of a list, with a bar behind each.
fn barred(alloc: Global, words: List<Word>) -> Result<String, AllocError> {
    let again = List::from_vec(words.into_vec());
    let mut text = String::new(alloc);
    for word in again.as_slice() {
        text.push_str(word.as_str())?;
        text.push('|')?;
    }
    Ok(text)
}

#[test]
fn lists_are_changed_and_copied(rt: HostRuntime) -> Result<(), Fail> {
    let rows: [(&[&str], usize, &str); 3] = [
        (&[], 0, ""),
        (&["a", "b"], 0, "|b|"),
        (&["a", "b"], 2, "a|b|"),
    ];
    for (texts, at, wanted) in rows {
        let words = emptied(rt.alloc(), texts, at)?;
        assert_eq!(rt; barred(rt.alloc(), words)?.as_str(), wanted);
    }
    Ok(())
}

#[test]
fn boxes_give_what_they_hold(rt: HostRuntime) -> Result<(), Fail> {
    assert_eq!(rt; *Boxed::new(rt.alloc(), 7)?.get(), 7);
    assert_eq!(rt; Boxed::new(rt.alloc(), 7)?.into_inner(), 7);
    Ok(())
}

// The number that a text says, and 0 where it is a text.
fn number_read(alloc: Global, kind: Kind, text: &str) -> Result<i64, ValueFault> {
    match Value::read(alloc, kind, text.as_bytes())? {
        Value::Int(number) | Value::Date(number) => Ok(number),
        Value::Text(_) => Ok(0),
    }
}

#[test]
fn numbers_and_dates_are_read(rt: HostRuntime) -> Result<(), Fail> {
    let rows: [(Kind, &str, Result<i64, ValueFault>); 20] = [
        (Kind::Int, "-0", Ok(0)),
        (Kind::Int, "007", Ok(7)),
        (Kind::Int, "-12", Ok(-12)),
        (Kind::Int, "-", Err(ValueFault::NotNumber)),
        (Kind::Int, "", Err(ValueFault::NotNumber)),
        (Kind::Int, "+1", Err(ValueFault::NotNumber)),
        (Kind::Int, "12a", Err(ValueFault::NotNumber)),
        (Kind::Int, "999999999999999", Ok(999_999_999_999_999)),
        (Kind::Int, "-000999999999999999", Ok(-999_999_999_999_999)),
        (Kind::Int, "1000000000000000", Err(ValueFault::TooLong)),
        (Kind::Date, "2023-02-29", Err(ValueFault::NotDate)),
        (Kind::Date, "2024-02-29", Ok(20_240_229)),
        (Kind::Date, "1900-02-29", Err(ValueFault::NotDate)),
        (Kind::Date, "2000-02-29", Ok(20_000_229)),
        (Kind::Date, "0000-01-01", Err(ValueFault::NotDate)),
        (Kind::Date, "0001-01-01", Ok(10_101)),
        (Kind::Date, "9999-12-31", Ok(99_991_231)),
        (Kind::Date, "2024-04-31", Err(ValueFault::NotDate)),
        (Kind::Date, "2024-13-01", Err(ValueFault::NotDate)),
        (Kind::Date, "2024-2-29", Err(ValueFault::NotDate)),
    ];
    for (kind, text, wanted) in rows {
        assert_eq!(rt; number_read(rt.alloc(), kind, text), wanted);
    }
    Ok(())
}

// How many bytes the text of a piece has that stands so many times.
fn text_read(alloc: Global, piece: &[u8], times: usize) -> Result<usize, ValueFault> {
    let mut bytes = Vec::new(alloc);
    for _ in 0..times {
        for byte in piece {
            let Ok(()) = bytes.push(*byte) else {
                return Err(ValueFault::Memory);
            };
        }
    }
    match Value::read(alloc, Kind::Text, &bytes)? {
        Value::Text(word) => Ok(word.len()),
        Value::Int(_) | Value::Date(_) => Ok(0),
    }
}

#[test]
fn texts_are_read(rt: HostRuntime) -> Result<(), Fail> {
    let rows: [(&[u8], usize, Result<usize, ValueFault>); 5] = [
        (b"a", 255, Ok(255)),
        (b"a", 256, Err(ValueFault::LongText)),
        (b"\xff", 1, Err(ValueFault::NotUtf8)),
        (b"", 1, Ok(0)),
        (b"\xc3\xb6", 1, Ok(2)),
    ];
    for (piece, times, wanted) in rows {
        assert_eq!(rt; text_read(rt.alloc(), piece, times), wanted);
    }
    Ok(())
}

// The date or the number that the text says, else the text.
fn value_of(alloc: Global, text: &str) -> Result<Value, AllocError> {
    match text {
        "-9" => Ok(Value::Int(-9)),
        "9" => Ok(Value::Int(9)),
        "2024-02-29" => Ok(Value::Date(20_240_229)),
        "1000000000000000" => Ok(Value::Int(1_000_000_000_000_000)),
        _ => Ok(Value::Text(Word::from_str(alloc, text)?)),
    }
}

// How two values stand in order, and how their copies do.
fn order_of(alloc: Global, left: &str, right: &str) -> Result<(Ordering, Ordering), AllocError> {
    let left = value_of(alloc, left)?;
    let right = value_of(alloc, right)?;
    let copies = left.copy(alloc)?.compare(&right.copied(alloc)?);
    Ok((left.compare(&right), copies))
}

#[test]
fn values_are_in_one_order(rt: HostRuntime) -> Result<(), Fail> {
    let rows = [
        ("ab", "b", Ordering::Less),
        ("b", "2024-02-29", Ordering::Less),
        ("9", "-9", Ordering::Greater),
        ("9", "b", Ordering::Less),
        ("b", "b", Ordering::Equal),
    ];
    for (left, right, wanted) in rows {
        assert_eq!(rt; order_of(rt.alloc(), left, right)?, (wanted, wanted));
    }
    Ok(())
}

fn row_of(alloc: Global, texts: &[&str]) -> Result<Row, AllocError> {
    let mut row = List::new(alloc);
    for text in texts {
        row.push(value_of(alloc, text)?)?;
    }
    Ok(row)
}

// Whether a row of these values fits columns of these kinds.
fn is_fit(alloc: Global, kinds: &[Kind], texts: &[&str]) -> Result<bool, AllocError> {
    let mut columns = List::new(alloc);
    for kind in kinds {
        let name = Word::from_str(alloc, "a")?;
        columns.push(Column { name, kind: *kind })?;
    }
    let schema = Schema { columns, key: None };
    Ok(schema.fits(&row_of(alloc, texts)?))
}

// The kinds of columns, the values of a row, and whether it fits.
const FITS: [(&[Kind], &[&str], bool); 6] = [
    (&[], &[], true),
    (&[Kind::Date], &[], false),
    (&[Kind::Date], &["2024-02-29"], true),
    (&[Kind::Date], &["2024-02-29", "b"], false),
    (&[Kind::Date], &["b"], false),
    (&[Kind::Int], &["1000000000000000"], false),
];

#[test]
fn rows_fit_their_columns(rt: HostRuntime) -> Result<(), Fail> {
    for (kinds, texts, wanted) in &FITS {
        assert_eq!(rt; is_fit(rt.alloc(), kinds, texts)?, *wanted);
    }
    Ok(())
}

fn leaf(test: Test) -> Tree {
    Tree::Leaf(test)
}

// A condition by its number.
fn tree_of(alloc: Global, number: u8) -> Result<Tree, AllocError> {
    let mut parts = List::new(alloc);
    if number > 1 {
        parts.push(leaf(Test::Is(Op::Greater, value_of(alloc, "a")?)))?;
        parts.push(leaf(Test::Prefix(Word::from_str(alloc, "b")?)))?;
    }
    Ok(match number % 2 {
        0 => Tree::All(parts),
        _ => Tree::Any(parts),
    })
}

#[test]
fn conditions_hold_of_values(rt: HostRuntime) -> Result<(), Fail> {
    let rows = [
        (0, "b", true),
        (1, "b", false),
        (2, "b", true),
        (2, "ab", false),
        (3, "ab", true),
        (3, "9", false),
        (3, "2024-02-29", true),
    ];
    for (number, text, wanted) in rows {
        let value = value_of(rt.alloc(), text)?;
        assert_eq!(rt; tree_of(rt.alloc(), number)?.holds(&value), wanted);
    }
    Ok(())
}

// A roomy list of 3, 5 and 8, made in the room for two and by a push.
fn roomy(alloc: Global) -> Result<Roomy<u32>, AllocError> {
    let mut numbers = Roomy::new(alloc);
    numbers.reserve(2)?;
    numbers.put(5);
    numbers.put_at(0, 3);
    numbers.push(9)?;
    if let Some(last) = numbers.get_mut(2) {
        *last = 8;
    }
    Ok(numbers)
}

#[test]
fn roomy_lists_take_what_they_have_room_for(rt: HostRuntime) -> Result<(), Fail> {
    let numbers = roomy(rt.alloc())?;
    assert_eq!(rt; numbers.get(0), Some(&3));
    assert_eq!(rt; numbers.as_slice(), [3, 5, 8].as_slice());
    assert_eq!(rt; Roomy::from_vec(numbers.into_vec()).len(), 3);
    Ok(())
}
