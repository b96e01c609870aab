// Conditions on one column as sets of codes.
ghost use Rattle.std.specs.Prelude.{◌≡◌, ◌<◌, IfOk, IfSome, IsTrue, length};
ghost use Rattle.std.specs.List.{list_all};
ghost use Rattle.blink_base.specs.RowFits.{is_good};
ghost use Rattle.order_codes.specs.Dictionary.{class_at};

use blink_base::{List, Op, Test, Tree, Value, Word};
use cell_predicates::ranges;
use order_codes::Dict;
use page_synopsis::Ranges;
use std::alloc::{AllocError, Global};
use std::marker::Brand;
use std::sync::ledger;
use std::test::Fail;
use word_pool::{Ledger, Tally};

// A value, as a table may hold it.
#[derive(Clone, Copy)]
enum Plain {
    Int(i64),
    Text(&'static str),
    // 254 letters x, and this behind them.
    Long(&'static str),
    Date(i64),
}

use Plain::{Date, Int, Long, Text};

// A test of one value, as a table may hold it.
#[derive(Clone, Copy)]
enum Asked {
    Is(Op, Plain),
    Between(Plain, Plain),
    Among(&'static [Plain]),
    Prefix(&'static str),
    // 254 letters x, and this behind them.
    LongPrefix(&'static str),
}

use Asked::{Among, Between, Is, LongPrefix, Prefix};

// The values of a class, whether all tests are asked or some, the tests, and the codes that pass.
struct Case {
    class: &'static [Plain],
    all: bool,
    asked: &'static [Asked],
    codes: &'static [u32],
}

const NUMBERS: &[Plain] = &[Int(-3), Int(0), Int(5), Int(9)];

const DATES: &[Plain] = &[Date(19991231), Date(20000101), Date(20240229)];

const WORDS: &[Plain] = &[
    Text(""),
    Text("a"),
    Text("ab"),
    Text("abc"),
    Text("b"),
    Text("\u{10FFFF}"),
    Text("\u{10FFFF}z"),
];

// Three texts of 255 bytes, and what they have in common.
const LONG: &[Plain] = &[Long(""), Long("w"), Long("x"), Long("y")];

const CASES: [Case; 39] = [
    Case {
        class: NUMBERS,
        all: true,
        asked: &[Is(Op::Equal, Int(5))],
        codes: &[2],
    },
    Case {
        class: NUMBERS,
        all: true,
        asked: &[Is(Op::Equal, Int(4))],
        codes: &[],
    },
    Case {
        class: NUMBERS,
        all: true,
        asked: &[Is(Op::Unequal, Int(5))],
        codes: &[0, 1, 3],
    },
    Case {
        class: NUMBERS,
        all: true,
        asked: &[Is(Op::Unequal, Int(4))],
        codes: &[0, 1, 2, 3],
    },
    Case {
        class: NUMBERS,
        all: true,
        asked: &[Is(Op::Less, Int(5))],
        codes: &[0, 1],
    },
    Case {
        class: NUMBERS,
        all: true,
        asked: &[Is(Op::Less, Int(4))],
        codes: &[0, 1],
    },
    Case {
        class: NUMBERS,
        all: true,
        asked: &[Is(Op::Less, Int(-3))],
        codes: &[],
    },
    Case {
        class: NUMBERS,
        all: true,
        asked: &[Is(Op::LessEqual, Int(5))],
        codes: &[0, 1, 2],
    },
    Case {
        class: NUMBERS,
        all: true,
        asked: &[Is(Op::LessEqual, Int(4))],
        codes: &[0, 1],
    },
    Case {
        class: NUMBERS,
        all: true,
        asked: &[Is(Op::Greater, Int(5))],
        codes: &[3],
    },
    Case {
        class: NUMBERS,
        all: true,
        asked: &[Is(Op::Greater, Int(9))],
        codes: &[],
    },
    Case {
        class: NUMBERS,
        all: true,
        asked: &[Is(Op::GreaterEqual, Int(5))],
        codes: &[2, 3],
    },
    Case {
        class: NUMBERS,
        all: true,
        asked: &[Is(Op::GreaterEqual, Int(-10))],
        codes: &[0, 1, 2, 3],
    },
    Case {
        class: NUMBERS,
        all: true,
        asked: &[Is(Op::GreaterEqual, Int(10))],
        codes: &[],
    },
    Case {
        class: NUMBERS,
        all: true,
        asked: &[Between(Int(0), Int(9))],
        codes: &[1, 2, 3],
    },
    Case {
        class: NUMBERS,
        all: true,
        asked: &[Between(Int(1), Int(4))],
        codes: &[],
    },
    Case {
        class: NUMBERS,
        all: true,
        asked: &[Between(Int(9), Int(0))],
        codes: &[],
    },
    Case {
        class: NUMBERS,
        all: true,
        asked: &[Between(Int(-9), Int(99))],
        codes: &[0, 1, 2, 3],
    },
    Case {
        class: NUMBERS,
        all: true,
        asked: &[Among(&[Int(9), Int(4), Int(-3), Int(9)])],
        codes: &[0, 3],
    },
    Case {
        class: NUMBERS,
        all: true,
        asked: &[Among(&[])],
        codes: &[],
    },
    Case {
        class: NUMBERS,
        all: true,
        asked: &[Prefix("")],
        codes: &[],
    },
    Case {
        class: NUMBERS,
        all: true,
        asked: &[],
        codes: &[0, 1, 2, 3],
    },
    Case {
        class: NUMBERS,
        all: false,
        asked: &[],
        codes: &[],
    },
    Case {
        class: NUMBERS,
        all: true,
        asked: &[Is(Op::Greater, Int(-3)), Is(Op::Less, Int(9))],
        codes: &[1, 2],
    },
    Case {
        class: NUMBERS,
        all: false,
        asked: &[Is(Op::Equal, Int(-3)), Is(Op::Equal, Int(9))],
        codes: &[0, 3],
    },
    Case {
        class: DATES,
        all: true,
        asked: &[Is(Op::GreaterEqual, Date(20000101))],
        codes: &[1, 2],
    },
    Case {
        class: DATES,
        all: true,
        asked: &[Between(Date(19990101), Date(20000102))],
        codes: &[0, 1],
    },
    Case {
        class: DATES,
        all: true,
        asked: &[Among(&[Date(20240229), Date(20240228)])],
        codes: &[2],
    },
    Case {
        class: WORDS,
        all: true,
        asked: &[Prefix("")],
        codes: &[0, 1, 2, 3, 4, 5, 6],
    },
    Case {
        class: WORDS,
        all: true,
        asked: &[Prefix("a")],
        codes: &[1, 2, 3],
    },
    Case {
        class: WORDS,
        all: true,
        asked: &[Prefix("ab")],
        codes: &[2, 3],
    },
    Case {
        class: WORDS,
        all: true,
        asked: &[Prefix("aa")],
        codes: &[],
    },
    Case {
        class: WORDS,
        all: true,
        asked: &[Prefix("c")],
        codes: &[],
    },
    Case {
        class: WORDS,
        all: true,
        asked: &[Prefix("\u{10FFFF}")],
        codes: &[5, 6],
    },
    Case {
        class: WORDS,
        all: true,
        asked: &[Is(Op::LessEqual, Text("aa"))],
        codes: &[0, 1],
    },
    Case {
        class: WORDS,
        all: true,
        asked: &[Is(Op::Equal, Text("abc"))],
        codes: &[3],
    },
    Case {
        class: WORDS,
        all: false,
        asked: &[Prefix("ab"), Is(Op::Equal, Text(""))],
        codes: &[0, 2, 3],
    },
    Case {
        class: LONG,
        all: true,
        asked: &[LongPrefix("x")],
        codes: &[2],
    },
    Case {
        class: LONG,
        all: true,
        asked: &[LongPrefix("")],
        codes: &[0, 1, 2, 3],
    },
];

// 254 letters x, and a text behind them.
fn long_word(alloc: Global, end: &str) -> Result<Word, AllocError> {
    let mut word = Word::new(alloc);
    for _letter in 0..254u32 {
        word.push('x')?;
    }
    for letter in end.chars() {
        word.push(letter)?;
    }
    Ok(word)
}

fn value_of(alloc: Global, plain: Plain) -> Result<Value, AllocError> {
    match plain {
        Plain::Int(number) => Ok(Value::Int(number)),
        Plain::Text(text) => Ok(Value::Text(Word::from_str(alloc, text)?)),
        Plain::Long(end) => Ok(Value::Text(long_word(alloc, end)?)),
        Plain::Date(date) => Ok(Value::Date(date)),
    }
}

fn values_of(alloc: Global, plains: &[Plain]) -> Result<List<Value>, AllocError> {
    let mut values = List::new(alloc);
    for plain in plains {
        values.push(value_of(alloc, *plain)?)?;
    }
    Ok(values)
}

fn test_of(alloc: Global, asked: Asked) -> Result<Test, AllocError> {
    match asked {
        Asked::Is(op, plain) => Ok(Test::Is(op, value_of(alloc, plain)?)),
        Asked::Between(low, high) => {
            let first = value_of(alloc, low)?;
            Ok(Test::Between(first, value_of(alloc, high)?))
        }
        Asked::Among(plains) => Ok(Test::Among(values_of(alloc, plains)?)),
        Asked::Prefix(front) => Ok(Test::Prefix(Word::from_str(alloc, front)?)),
        Asked::LongPrefix(end) => Ok(Test::Prefix(long_word(alloc, end)?)),
    }
}

fn tree_of(alloc: Global, all: bool, asked: &[Asked]) -> Result<Tree, AllocError> {
    let mut trees = List::new(alloc);
    for test in asked {
        trees.push(Tree::Leaf(test_of(alloc, *test)?))?;
    }
    Ok(if all {
        Tree::All(trees)
    } else {
        Tree::Any(trees)
    })
}

// Whether all values are good.
fn are_good(values: &[Value]) -> bool
    ensures { result ≡ list_all is_good values.now }
{
    values.iter().all(|value| value.is_good())
}

// The dictionary of one class, where these are one and good.
fn one_class<M: Ledger>(alloc: Global, values: List<Value>) -> Result<Option<Dict<M>>, AllocError>
    ensures { IfOk result (λ dict. IfSome dict (λ dict. (0 < length dict) × IsTrue (list_all is_good (class_at dict 0)))) }
{
    if !are_good(values.as_slice()) {
        return Ok(None);
    }
    let mut classes = List::new(alloc);
    classes.push(values)?;
    Ok(Dict::of(classes))
}

// The codes of a set below a size.
fn codes_of(alloc: Global, size: u32, set: &Ranges) -> Result<Vec<u32>, AllocError> {
    let mut codes = Vec::new(alloc);
    for code in 0..size {
        if set.holds(code) {
            codes.push(code)?;
        }
    }
    Ok(codes)
}

// The codes that pass a case; none where its values are no class.
fn passing<N: ledger::Ledger>(alloc: Global, case: &Case) -> Result<Vec<u32>, AllocError> {
    let values = values_of(alloc, case.class)?;
    let tree = tree_of(alloc, case.all, case.asked)?;
    let Some(dict) = one_class::<Tally<N>>(alloc, values)? else {
        return Ok(Vec::new(alloc));
    };
    match ranges(alloc, &dict, 0, &tree)? {
        Some(set) => codes_of(alloc, dict.size(0), &set),
        None => Ok(Vec::new(alloc)),
    }
}

#[test]
fn conditions_are_sets_of_codes(rt: HostRuntime) -> Result<(), Fail> {
    for case in &CASES {
        let codes = passing::<Brand>(rt.alloc(), case)?;
        assert_eq!(rt; codes.as_slice(), case.codes);
    }
    Ok(())
}
