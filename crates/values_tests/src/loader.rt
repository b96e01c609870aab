// CSV texts as the rows of a table.
use blink_base::{Column, Kind, List, Row, Schema, Value, ValueFault, Word};
use blink_loader::{LoadFault, load};
use std::alloc::{AllocError, Global};
use std::test::Fail;

const CASES: [(&[u8], Result<&str, LoadFault>); 16] = [
    (b"", Ok("")),
    (b"\n\n", Ok("")),
    (b"A,b,C\n", Ok("")),
    (b"\n\xef\xbb\xbfa,b,c\n", Err(LoadFault::Header)),
    (
        b"\xef\xbb\xbfa,b,c\n1,x,2024-02-29\n",
        Ok("int 1;text x;date 20240229;\n"),
    ),
    (
        b"a,B,c\r\n-007,\"x,\"\"y\"\"\r\n\",0001-01-01\r\n\r\n\n0,,9999-12-31",
        Ok("int -7;text x,\"y\"\r\n;date 10101;\nint 0;text ;date 99991231;\n"),
    ),
    (b"a,c,b\n", Err(LoadFault::Header)),
    (b"a,b\n1\n", Err(LoadFault::Header)),
    (b"a,b,c,d\n", Err(LoadFault::Header)),
    (b"a,b,c\n1,x\n", Err(LoadFault::Arity { at: 1 })),
    (
        b"a,b,c\n1,x,2024-01-31\n\n2,y,2024-01-31,\nz,z,z\n",
        Err(LoadFault::Arity { at: 2 }),
    ),
    (b"a,b,c\nx\n", Err(LoadFault::Arity { at: 1 })),
    (
        b"a,b,c\n1,x,2024-01-31\n2,y,2023-02-29\n3\n",
        Err(LoadFault::BadValue {
            at: 2,
            field: 3,
            fault: ValueFault::NotDate,
        }),
    ),
    (
        b"a,b,c\n1000000000000000,\xff,x\n",
        Err(LoadFault::BadValue {
            at: 1,
            field: 1,
            fault: ValueFault::TooLong,
        }),
    ),
    (
        b"a,b,c\n1,\xff,x\n",
        Err(LoadFault::BadValue {
            at: 1,
            field: 2,
            fault: ValueFault::NotUtf8,
        }),
    ),
    (
        b"a,b,c\n 1,x,2024-01-31\n",
        Err(LoadFault::BadValue {
            at: 1,
            field: 1,
            fault: ValueFault::NotNumber,
        }),
    ),
];

fn column(alloc: Global, name: &str, kind: Kind) -> Result<Column, AllocError> {
    Ok(Column {
        name: Word::from_str(alloc, name)?,
        kind,
    })
}

// A line a row, a value with its kind behind the other.
fn shown(alloc: Global, rows: &List<Row>) -> Result<String, AllocError> {
    let mut text = String::new(alloc);
    for row in rows.as_slice() {
        for value in row.as_slice() {
            let field = match value {
                Value::Int(number) => format!(in alloc; "int {number};")?,
                Value::Text(word) => format!(in alloc; "text {};", word.as_str())?,
                Value::Date(date) => format!(in alloc; "date {date};")?,
            };
            text.push_str(&field)?;
        }
        text.push('\n')?;
    }
    Ok(text)
}

// The rows of a text for the columns a, B and c, one of each kind, shown; or its fault.
fn loaded(alloc: Global, text: &[u8]) -> Result<Result<String, LoadFault>, AllocError> {
    let mut columns = List::new(alloc);
    columns.push(column(alloc, "a", Kind::Int)?)?;
    columns.push(column(alloc, "B", Kind::Text)?)?;
    columns.push(column(alloc, "c", Kind::Date)?)?;
    let schema = Schema { columns, key: None };
    match load(alloc, &schema, text) {
        Ok(rows) => Ok(Ok(shown(alloc, &rows)?)),
        Err(fault) => Ok(Err(fault)),
    }
}

#[test]
fn texts_are_loaded(rt: HostRuntime) -> Result<(), Fail> {
    for (text, wanted) in &CASES {
        match loaded(rt.alloc(), text)? {
            Ok(rows) => assert_eq!(rt; *wanted, Ok(rows.as_str())),
            Err(fault) => assert_eq!(rt; *wanted, Err(fault)),
        }
    }
    Ok(())
}
