// Dictionaries.
ghost use Rattle.std.specs.Prelude.{◌≡◌, ◌<◌};

use blink_base::{List, Value};
use order_codes::{CodePlace, Dict};
use std::alloc::{AllocError, Global};
use std::cmp::Ordering;
use std::marker::Brand;
use std::sync::ledger;
use std::sync::ledger::Blank;
use std::test::Fail;
use word_pool::{Ledger, Steps, Tally};

// Classes of whole numbers.
fn classes_of(alloc: Global, classes: &[&[i64]]) -> Result<List<List<Value>>, AllocError> {
    let mut made = List::new(alloc);
    for numbers in classes {
        let mut class = List::new(alloc);
        for number in *numbers {
            class.push(Value::Int(*number))?;
        }
        made.push(class)?;
    }
    Ok(made)
}

// The place of a value that decodes to it.
fn place_back<M: Ledger>(
    dict: &Dict<M>,
    value: &Value,
    decodes: &mut Steps<M>,
) -> Option<CodePlace> {
    let place = dict.find(value)?;
    let back = dict.decode(place.class, place.code, decodes);
    if back.compare(value) == Ordering::Equal {
        Some(place)
    } else {
        None
    }
}

// The place of a number in these classes.
fn place_in<N: ledger::Ledger>(
    alloc: Global,
    blank: Blank,
    classes: &[&[i64]],
    number: i64,
) -> Result<Option<CodePlace>, AllocError>
    requires name { blank.name ≡ N.name }
    requires parts { blank.parts ≡ N.parts }
    requires some { 0 < blank.parts }
{
    let mut steps: Steps<Tally<N>> = Steps::new(Tally::new(blank));
    match Dict::of(classes_of(alloc, classes)?) {
        Some(dict) => Ok(place_back(&dict, &Value::Int(number), &mut steps)),
        None => Ok(None),
    }
}

const PLACES: [(i64, Option<CodePlace>); 5] = [
    (1, Some(CodePlace { class: 0, code: 0 })),
    (5, Some(CodePlace { class: 0, code: 1 })),
    (4, Some(CodePlace { class: 1, code: 2 })),
    (6, None),
    (0, None),
];

#[test]
fn values_have_codes(rt: HostRuntime) -> Result<(), Fail> {
    for (number, wanted) in &PLACES {
        let place = place_in::<Brand>(rt.alloc(), Blank::new(1), &[&[1, 5], &[2, 3, 4]], *number)?;
        assert_eq!(rt; place, *wanted);
    }
    Ok(())
}

// The size and the width of each class, and how many of its values are less than 4.
fn sizes_of<N: ledger::Ledger>(
    alloc: Global,
    classes: &[&[i64]],
) -> Result<Option<Vec<(u32, u8, u32)>>, AllocError> {
    let Some(dict) = Dict::<Tally<N>>::of(classes_of(alloc, classes)?) else {
        return Ok(None);
    };
    let mut sizes = Vec::new(alloc);
    for class in 0..dict.classes() {
        let below = dict.below(class, &Value::Int(4));
        sizes.push((dict.size(class), dict.width(class), below))?;
    }
    Ok(Some(sizes))
}

// Classes, and the size, the width and the values below 4 of each, where they are a dictionary's.
const CLASSES: [(&[&[i64]], Option<&[(u32, u8, u32)]>); 8] = [
    (&[], Some(&[])),
    (&[&[1, 5], &[2, 3, 4]], Some(&[(2, 1, 1), (3, 2, 2)])),
    (
        &[&[1], &[2], &[3], &[4]],
        Some(&[(1, 1, 1), (1, 1, 1), (1, 1, 1), (1, 1, 0)]),
    ),
    (&[&[1], &[2], &[3], &[4], &[5]], None),
    (&[&[1], &[]], None),
    (&[&[1, 1]], None),
    (&[&[2, 1]], None),
    (&[&[1, 5], &[2, 5]], None),
];

#[test]
fn classes_rise_apart(rt: HostRuntime) -> Result<(), Fail> {
    for (classes, wanted) in &CLASSES {
        let sizes = sizes_of::<Brand>(rt.alloc(), classes)?;
        assert_eq!(rt; sizes.as_ref().map(|sizes| sizes.as_slice()), *wanted);
    }
    Ok(())
}
