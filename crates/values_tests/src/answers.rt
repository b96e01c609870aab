// The printed answers.
ghost use Rattle.std.specs.Prelude.{◌≡◌};
ghost use Rattle.std.specs.List.{list_all};
ghost use Rattle.report_text.specs.AnswerText.{are_good_lines, is_good_field};

use blink_base::{Answer, Field, List, Value, Word};
use report_text::answer_text;
use std::alloc::{AllocError, Global};
use std::test::Fail;

// A field of an answer, as a table may hold it.
#[derive(Clone, Copy)]
enum Plain {
    Null,
    Number(i128),
    Text(&'static str),
    Date(i64),
}

use Plain::{Date, Null, Number, Text};

fn field_of(alloc: Global, plain: Plain) -> Result<Field, AllocError> {
    match plain {
        Plain::Null => Ok(Field::Null),
        Plain::Number(number) => Ok(Field::Number(number)),
        Plain::Text(text) => Ok(Field::Text(Word::from_str(alloc, text)?)),
        Plain::Date(date) => Ok(Field::Date(date)),
    }
}

fn line_of(alloc: Global, plains: &[Plain]) -> Result<List<Field>, AllocError> {
    let mut line = List::new(alloc);
    for plain in plains {
        line.push(field_of(alloc, *plain)?)?;
    }
    Ok(line)
}

// The answer of these names and lines.
fn answer_of(alloc: Global, names: &[&str], lines: &[&[Plain]]) -> Result<Answer, AllocError> {
    let mut words = List::new(alloc);
    for name in names {
        words.push(Word::from_str(alloc, name)?)?;
    }
    let mut answer = Answer {
        names: words,
        lines: List::new(alloc),
    };
    for line in lines {
        answer.lines.push(line_of(alloc, line)?)?;
    }
    Ok(answer)
}

// Whether a field that is a date is one of the calendar.
fn is_good(field: &Field) -> bool
    ensures { result ≡ is_good_field field.now }
{
    match field {
        Field::Date(date) => Value::Date(*date).is_good(),
        _ => true,
    }
}

// Whether all fields of a line are good.
fn is_good_line(line: &[Field]) -> bool
    ensures { result ≡ list_all is_good_field line.now }
{
    line.iter().all(|field| is_good(field))
}

// Whether all fields of some lines are good.
fn are_good(lines: &[List<Field>]) -> bool
    ensures { result ≡ are_good_lines lines.now }
{
    lines.iter().all(|line| is_good_line(line.as_slice()))
}

// The text of an answer; None where a date in it is none.
fn printed(
    alloc: Global,
    names: &[&str],
    lines: &[&[Plain]],
) -> Result<Option<List<u8>>, AllocError> {
    let answer = answer_of(alloc, names, lines)?;
    if are_good(answer.lines.as_slice()) {
        Ok(Some(answer_text(alloc, &answer)?))
    } else {
        Ok(None)
    }
}

// Names, lines, and the text that is printed.
type Case = (
    &'static [&'static str],
    &'static [&'static [Plain]],
    &'static str,
);

const CASES: [Case; 8] = [
    (&["a"], &[], "a\n0 rows\n"),
    (
        &["a", "t.a", "count(*)"],
        &[
            &[Number(1), Text("x_1"), Null],
            &[Number(-20), Text("y z"), Number(0)],
        ],
        "a,t.a,count(*)\n1,x_1,NULL\n-20,y z,0\n2 rows\n",
    ),
    (
        &["a"],
        &[&[Number(-170141183460469231731687303715884105728)]],
        "a\n-170141183460469231731687303715884105728\n1 rows\n",
    ),
    (
        &["d", "e"],
        &[&[Date(20240229), Date(10101)], &[Date(99991231), Null]],
        "d,e\n2024-02-29,0001-01-01\n9999-12-31,NULL\n2 rows\n",
    ),
    (
        &["a,b", "c"],
        &[&[Text("x,\"y\""), Text("")], &[Text(""), Text("\"")]],
        "\"a,b\",c\n\"x,\"\"y\"\"\",\n,\"\"\"\"\n2 rows\n",
    ),
    (&["a"], &[&[Text("")]], "a\n\"\"\n1 rows\n"),
    (
        &["a"],
        &[&[Text("x\ny")], &[Text("x\ry")], &[Text("NULL")]],
        "a\n\"x\ny\"\n\"x\ry\"\nNULL\n3 rows\n",
    ),
    (&["ö"], &[&[Text("€ 5")]], "ö\n€ 5\n1 rows\n"),
];

#[test]
fn answers_are_printed(rt: HostRuntime) -> Result<(), Fail> {
    for (names, lines, text) in &CASES {
        let answer = printed(rt.alloc(), names, lines)?;
        assert!(rt; answer.is_some_and(|answer| answer.as_slice() == text.as_bytes()));
    }
    Ok(())
}
