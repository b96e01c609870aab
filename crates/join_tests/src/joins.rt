// Keys of chosen rows of a dimension, their codes and their places.
ghost use Rattle.std.specs.Prelude.{◌≡◌, ◌<◌, length};

use crate::dimension::{Choice, all_fit, chosen_keys, first_rows, further_rows, schema_of};
use blink_base::{List, Value};
use cell_layout::LayoutError;
use code_join::{KeyMap, codes_of_keys, payload};
use order_codes::Dict;
use std::alloc::{AllocError, Global};
use std::marker::Brand;
use std::sync::ledger::Blank;
use std::test::Fail;
use word_pool::{Ledger, Tally};

// A choice of rows, and what comes of it: each key with its wanted values, and for each class of the fact's column the codes
// that are keys and each code's place.
struct Case {
    choice: Choice,
    entries: &'static [i64],
    codes: &'static [(u32, u32)],
    places: &'static [(u32, Option<u32>)],
}

// The classes of the fact's column.
const CLASSES: [&[i64]; 3] = [&[90, 103, 104, 143], &[140, 150, 200], &[1, 2]];

const CASES: [Case; 3] = [
    Case {
        choice: Choice {
            first: &[3, 40],
            second: &[0, 2],
            rest: &[1],
            wanted: &[2, 0],
        },
        entries: &[103, 1, 5, 140, 2, 1, 141, 0, 2, 143, 2, 4, 150, 1, 9],
        codes: &[(0, 1), (0, 3), (1, 0), (1, 1)],
        places: &[
            (0, None),
            (0, Some(0)),
            (0, None),
            (0, Some(3)),
            (1, Some(1)),
            (1, Some(4)),
            (1, None),
            (2, None),
            (2, None),
        ],
    },
    Case {
        choice: Choice {
            first: &[],
            second: &[1],
            rest: &[1, 0],
            wanted: &[],
        },
        entries: &[142, 150, 90],
        codes: &[(0, 0), (1, 1)],
        places: &[
            (0, Some(2)),
            (0, None),
            (0, None),
            (0, None),
            (1, None),
            (1, Some(1)),
            (1, None),
            (2, None),
            (2, None),
        ],
    },
    Case {
        choice: Choice {
            first: &[],
            second: &[],
            rest: &[],
            wanted: &[0, 1],
        },
        entries: &[],
        codes: &[],
        places: &[
            (0, None),
            (0, None),
            (0, None),
            (0, None),
            (1, None),
            (1, None),
            (1, None),
            (2, None),
            (2, None),
        ],
    },
];

fn number_in(value: &Value) -> i64 {
    match value {
        Value::Int(number) => *number,
        _ => -1,
    }
}

// Each key with its wanted values, one after another.
fn entries_of(alloc: Global, keys: &KeyMap) -> Result<Vec<i64>, AllocError> {
    let mut numbers = Vec::new(alloc);
    for at in 0..keys.len() {
        numbers.push(number_in(keys.key(at as u32)))?;
        for value in keys.payload(at as u32).as_slice() {
            numbers.push(number_in(value))?;
        }
    }
    Ok(numbers)
}

fn numbers_of(alloc: Global, numbers: &[i64]) -> Result<List<Value>, AllocError> {
    let mut values = List::new(alloc);
    for number in numbers {
        values.push(Value::Int(*number))?;
    }
    Ok(values)
}

// The dictionary of the fact's column.
fn dict_of<M: Ledger>(alloc: Global) -> Result<Option<Dict<M>>, AllocError> {
    let mut classes = List::new(alloc);
    for numbers in &CLASSES {
        classes.push(numbers_of(alloc, numbers)?)?;
    }
    Ok(Dict::of(classes))
}

// Per class the codes of values that are keys.
fn codes_of<M: Ledger>(
    alloc: Global,
    dict: &Dict<M>,
    keys: &KeyMap,
) -> Result<Vec<(u32, u32)>, AllocError> {
    let mut codes = Vec::new(alloc);
    for class in 0..dict.classes() {
        let Some(set) = codes_of_keys(alloc, dict, class, keys)? else {
            continue;
        };
        for code in 0..dict.size(class) {
            if set.holds(code) {
                codes.push((class, code))?;
            }
        }
    }
    Ok(codes)
}

// Per class and code the place of its value among the keys.
fn places_of<M: Ledger>(
    alloc: Global,
    dict: &Dict<M>,
    keys: &KeyMap,
) -> Result<Vec<(u32, Option<u32>)>, AllocError> {
    let mut places = Vec::new(alloc);
    for class in 0..dict.classes() {
        let map = payload(alloc, dict, class, keys)?;
        for code in 0..dict.size(class) {
            places.push((class, map.get(code)))?;
        }
    }
    Ok(places)
}

// The keys of a choice.
fn keys_of(alloc: Global, choice: &Choice) -> Result<Option<KeyMap>, LayoutError> {
    let schema = schema_of(alloc)?;
    let first = first_rows(alloc)?;
    let further = further_rows(alloc)?;
    if !all_fit(&schema, first.as_slice()) || !all_fit(&schema, further.as_slice()) {
        return Ok(None);
    }
    chosen_keys::<Brand>(alloc, Blank::new(1), schema, &first, &further, choice)
}

// What comes of a choice.
#[derive(Drop)]
struct Outcome {
    entries: Vec<i64>,
    codes: Vec<(u32, u32)>,
    places: Vec<(u32, Option<u32>)>,
}

fn outcome_of(alloc: Global, choice: &Choice) -> Result<Option<Outcome>, LayoutError> {
    let Some(keys) = keys_of(alloc, choice)? else {
        return Ok(None);
    };
    let Some(dict) = dict_of::<Tally<Brand>>(alloc)? else {
        return Ok(None);
    };
    Ok(Some(Outcome {
        entries: entries_of(alloc, &keys)?,
        codes: codes_of(alloc, &dict, &keys)?,
        places: places_of(alloc, &dict, &keys)?,
    }))
}

#[test]
fn chosen_rows_give_keys_codes_and_places(rt: HostRuntime) -> Result<(), Fail> {
    for case in &CASES {
        let outcome = outcome_of(rt.alloc(), &case.choice)?;
        assert!(rt; outcome.is_some());
        if let Some(outcome) = outcome {
            assert_eq!(rt; outcome.entries.as_slice(), case.entries);
            assert_eq!(rt; outcome.codes.as_slice(), case.codes);
            assert_eq!(rt; outcome.places.as_slice(), case.places);
        }
    }
    Ok(())
}
