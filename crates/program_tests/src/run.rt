use blink_edge::{BytesIn, BytesOut, Shelf};
use blink_run::{Status, run};
use std::alloc::{AllocError, Global};
use std::process::Abort;
use std::test::Fail;

const USAGE: &str =
    "usage: blink run [--rows N] [--blocks N] | blink range COLUMN LOW HIGH | blink demo SEED ROWS\n";

// The arguments, the input, the status, and what is printed.
type Row = (&'static str, &'static str, Status, &'static str);

// Counts of a column.
const COUNTS: [Row; 22] = [
    ("range a 2 5", "a\n1\n2\n5\n6\n", Status::Done, "2\n"),
    (
        "range a 1 1",
        "",
        Status::Refused,
        "refused: unknown column a\n",
    ),
    (
        "range a 2 5",
        "a\nx\n",
        Status::Refused,
        "refused: bad value 1 1\n",
    ),
    ("", "a\n1\n", Status::Usage, USAGE),
    ("range a x 2", "a\n1\n", Status::Usage, USAGE),
    ("demo 1 0", "", Status::Usage, USAGE),
    ("range a 1 2 3", "a\n1\n", Status::Usage, USAGE),
    ("RANGE a 1 2", "a\n1\n", Status::Usage, USAGE),
    ("range a 1 1000000000000000", "a\n1\n", Status::Usage, USAGE),
    // The column's name in other letters, and the first of two equal names.
    (
        "range TWO 2 2",
        "one,Two,two\n2,2,3\n2,1,2\n",
        Status::Done,
        "1\n",
    ),
    (
        "range Nö_Z 1 1",
        "nÖ_z\n1\n",
        Status::Refused,
        "refused: unknown column nö_z\n",
    ),
    // Quotes, the ends of lines, empty lines, a byte order mark, and a last line without an end.
    (
        "range a 1 9",
        "a,b\n\"1\",2\n\"\"\"1\",2\n",
        Status::Refused,
        "refused: bad value 2 1\n",
    ),
    (
        "range b 1 9",
        "\u{feff}\"a\",\"b\"\r\n\r\n\"1\",\"2\"\r\n\n3,4",
        Status::Done,
        "2\n",
    ),
    // Numbers: a minus, zeros that lead, fifteen digits and sixteen, blanks, and no digit.
    ("range a -1 0", "a\n-0\n-1\n-2\n000\n", Status::Done, "3\n"),
    ("range a 007 7", "a\n7\n007\n8\n", Status::Done, "2\n"),
    (
        "range a 999999999999999 0999999999999999",
        "a\n999999999999999\n",
        Status::Done,
        "1\n",
    ),
    (
        "range a 1 1",
        "a\n1000000000000000\n",
        Status::Refused,
        "refused: bad value 1 1\n",
    ),
    (
        "range a 1 1",
        "a\n 1\n",
        Status::Refused,
        "refused: bad value 1 1\n",
    ),
    ("range a 5 2", "a\n3\n", Status::Done, "0\n"),
    // A record of another length, and a bad field in a column that isn't asked for.
    (
        "range a 1 1",
        "a,b\n1,1\n1\n",
        Status::Refused,
        "refused: arity 2\n",
    ),
    (
        "range a 1 1",
        "a,b\n1,x\n",
        Status::Refused,
        "refused: bad value 1 2\n",
    ),
    ("range a 1 1", "a\n", Status::Done, "0\n"),
];

// Scripts: without a token, refused by their texts, and of several statements, of which the last needs no semicolon.
const SCRIPTS: [Row; 15] = [
    ("run", "", Status::Done, ""),
    ("run", ";;", Status::Done, ""),
    ("run", " -- a comment; \n\t", Status::Done, ""),
    (
        "run",
        "SELECT a FROM t;",
        Status::Refused,
        "refused: unknown table t\n",
    ),
    (
        "run",
        "SELECT a FROM t WHERE ((((((((((((((((((((((((((((((((a = 1))))))))))))))))))))))))))))))));",
        Status::Refused,
        "refused: unknown table t\n",
    ),
    (
        "run",
        "SELECT a FROM t WHERE (((((((((((((((((((((((((((((((((a = 1)))))))))))))))))))))))))))))))));",
        Status::Refused,
        "refused: too deep\n",
    ),
    ("run", "SELECT;", Status::Refused, "refused: syntax\n"),
    ("run", "SELECT 'a;", Status::Refused, "refused: syntax\n"),
    (
        "run",
        "SELECT 1000000000000000",
        Status::Refused,
        "refused: number too long\n",
    ),
    (
        "run",
        "? 1000000000000000; 1000000000000000 ?",
        Status::Refused,
        "refused: syntax\nrefused: number too long\n",
    ),
    (
        "run",
        "((((((((((((((((((((((((((((((((( ?; (((((((((((((((((((((((((((((((((",
        Status::Refused,
        "refused: syntax\nrefused: too deep\n",
    ),
    (
        "run",
        "EXPLAIN SELECT a FROM t; EXPORT TABLE t TO 'f'; IMPORT TABLE t FROM 'f'",
        Status::Refused,
        "refused: not built\nrefused: not built\nrefused: not built\n",
    ),
    (
        "run",
        "DROP TABLE t; SELECT; ;INSERT INTO t VALUES (1), ('a;b');\nDESCRIBE t",
        Status::Refused,
        "refused: unknown table t\nrefused: syntax\nrefused: unknown table t\nrefused: unknown table t\n",
    ),
    (
        "run --rows 5 --blocks 7",
        "DROP TABLE t",
        Status::Refused,
        "refused: unknown table t\n",
    ),
    (
        "run --blocks 000000001 --rows 8388608",
        ";",
        Status::Done,
        "",
    ),
];

// The files of a script: names, and the lines of each with how often they stand.
pub(crate) type Files = &'static [(&'static str, &'static [(&'static str, usize)])];

// The arguments, the script, its files, the status, and what is printed.
pub(crate) type TableRow<'a> = (&'a str, &'a str, Files, Status, &'a str);

// Two rows of 1.
const ONES: (&str, &[(&str, usize)]) = ("l.csv", &[("a", 1), ("1", 2)]);

// A row of 7.
const SEVEN: (&str, &[(&str, usize)]) = ("m.csv", &[("a", 1), ("7", 1)]);

// No files.
pub(crate) const NO_FILES: Files = &[];

// Both files.
const LINES: Files = &[ONES, SEVEN];

// Scripts that make, fill, describe and drop tables.
const TABLES: [TableRow<'static>; 23] = [
    (
        "run",
        "CREATE TABLE t (a INT); INSERT INTO t VALUES (3),(1),(3);",
        &[],
        Status::Done,
        "created t\nadded 3\n",
    ),
    // 100 rows of one value and 10 each of four others: the first class takes two values, the second three.
    (
        "run",
        "CREATE TABLE t (a INT); LOAD INTO t FROM 'c.csv'; DESCRIBE t",
        &[(
            "c.csv",
            &[
                ("a", 1),
                ("5", 100),
                ("4", 10),
                ("3", 10),
                ("2", 10),
                ("1", 10),
            ],
        )],
        Status::Done,
        "created t\nadded 140\ntable t rows 140 blocks 2\ncolumn a int classes 2 1:2 2:3\ncell 0 rows 110 pages 1 banks 8\ncell 1 rows 30 pages 1 banks 8\nrest 0\n",
    ),
    (
        "run",
        "CREATE TABLE t (a INT); LOAD INTO t FROM 'c.csv'; DESCRIBE t",
        &[("c.csv", &[("a", 1), ("4", 1025)])],
        Status::Done,
        "created t\nadded 1025\ntable t rows 1025 blocks 2\ncolumn a int classes 1 1:1\ncell 0 rows 1025 pages 2 banks 8\nrest 0\n",
    ),
    // Appended rows keep the layout; laid out anew, none is in rest.
    (
        "run",
        "CREATE TABLE t (a INT); LOAD INTO t FROM 'l.csv'; APPEND INTO t FROM 'm.csv'; DESCRIBE t; REORGANIZE TABLE t; DESCRIBE t",
        &[ONES, SEVEN],
        Status::Done,
        "created t\nadded 2\nadded 1\ntable t rows 3 blocks 1\ncolumn a int classes 1 1:1\ncell 0 rows 2 pages 1 banks 8\nrest 1\nreorganized t\ntable t rows 3 blocks 1\ncolumn a int classes 1 1:2\ncell 0 rows 3 pages 1 banks 8\nrest 0\n",
    ),
    // A key that stands twice adds no row.
    (
        "run",
        "CREATE TABLE d (k INT PRIMARY KEY); INSERT INTO d VALUES (1),(2),(1); DESCRIBE d",
        &[],
        Status::Refused,
        "created d\nrefused: duplicate key 3\ntable d rows 0 blocks 0\ncolumn k int classes 0 key\nrest 0\n",
    ),
    // A key is found in the first cell, in the second, in rest and in the batch.
    (
        "run",
        "CREATE TABLE d (k INT PRIMARY KEY, g INT); \
         INSERT INTO d VALUES (1,0),(2,0),(3,0),(4,0),(5,0),(6,0),(7,0),(8,0),(9,0),(10,0), \
         (11,0),(12,0),(13,0),(14,0),(15,0),(16,0),(17,0),(18,0),(19,0),(20,0), \
         (21,1),(22,2),(23,3),(24,4),(25,5),(26,6),(27,7),(28,8),(29,9),(30,10), \
         (31,11),(32,12),(33,13),(34,14),(35,15),(36,16),(37,17),(38,18),(39,19),(40,20); \
         REORGANIZE TABLE d; INSERT INTO d VALUES (41,0),(3,0); \
         INSERT INTO d VALUES (41,1),(42,2),(30,0); INSERT INTO d VALUES (50,0); \
         INSERT INTO d VALUES (51,7),(50,7); INSERT INTO d VALUES (60,0),(61,0),(60,9); DESCRIBE d",
        &[],
        Status::Refused,
        "created d\nadded 40\nreorganized d\nrefused: duplicate key 2\nrefused: duplicate key 3\nadded 1\n\
         refused: duplicate key 2\nrefused: duplicate key 3\ntable d rows 41 blocks 4\n\
         column k int classes 1 6:40 key\ncolumn g int classes 2 1:2 5:19\n\
         cell 0.0 rows 21 pages 1 banks 16\ncell 0.1 rows 19 pages 1 banks 16\nrest 1\n",
    ),
    (
        "run --rows 2",
        "CREATE TABLE d (k INT PRIMARY KEY); INSERT INTO d VALUES (1),(2),(1); INSERT INTO d VALUES (1),(2)",
        &[],
        Status::Refused,
        "created d\nrefused: too many rows\nadded 2\n",
    ),
    // Quoted fields, an empty line and an empty field; a header, and a record that is too short.
    (
        "run",
        "CREATE TABLE t (a INT, b TEXT); LOAD INTO t FROM 'q.csv'",
        &[(
            "q.csv",
            &[("A,b", 1), ("1,\"x,\"\"y\"\"\"", 1), ("", 1), ("2,", 1)],
        )],
        Status::Done,
        "created t\nadded 2\n",
    ),
    (
        "run",
        "CREATE TABLE t (a INT, b TEXT); LOAD INTO t FROM 'q.csv'; LOAD INTO t FROM 'r.csv'",
        &[
            ("q.csv", &[("b,a", 1)]),
            ("r.csv", &[("a,b", 1), ("1,x", 1), ("2", 1)]),
        ],
        Status::Refused,
        "created t\nrefused: header\nrefused: arity 2\n",
    ),
    // Fifteen digits and sixteen.
    (
        "run",
        "CREATE TABLE t (a INT); LOAD INTO t FROM 'i.csv'; LOAD INTO t FROM 'j.csv'",
        &[
            ("i.csv", &[("a", 1), ("999999999999999", 1)]),
            ("j.csv", &[("a", 1), ("1000000000000000", 1)]),
        ],
        Status::Refused,
        "created t\nadded 1\nrefused: bad value 1 1\n",
    ),
    // A year of 365 days and one of 366.
    (
        "run",
        "CREATE TABLE t (d DATE); LOAD INTO t FROM 'i.csv'; APPEND INTO t FROM 'j.csv'",
        &[
            ("i.csv", &[("d", 1), ("2023-02-29", 1)]),
            ("j.csv", &[("d", 1), ("2024-02-29", 1)]),
        ],
        Status::Refused,
        "created t\nrefused: bad value 1 1\nadded 1\n",
    ),
    // The table is asked for before the file.
    (
        "run",
        "CREATE TABLE t (a INT); LOAD INTO t FROM 'm.csv'; APPEND INTO u FROM 'l.csv'",
        &[ONES],
        Status::Refused,
        "created t\nrefused: no file\nrefused: unknown table u\n",
    ),
    (
        "run",
        "CREATE TABLE t (a INT, d DATE); INSERT INTO t VALUES (1, '2024-02-29'), ('x', DATE '2024-01-01'); INSERT INTO t VALUES (1)",
        &[],
        Status::Refused,
        "created t\nrefused: bad value 2 1\nrefused: arity 1\n",
    ),
    (
        "run",
        "CREATE TABLE t (a INT, a INT); CREATE TABLE t (a INT); CREATE TABLE t (b INT)",
        &[],
        Status::Refused,
        "refused: bad columns\ncreated t\nrefused: table exists t\n",
    ),
    (
        "run",
        "CREATE TABLE t (c1 INT,c2 INT,c3 INT,c4 INT,c5 INT,c6 INT,c7 INT,c8 INT,c9 INT,c10 INT,c11 INT,c12 INT,c13 INT,c14 INT,c15 INT,c16 INT,c17 INT,c18 INT,c19 INT,c20 INT,c21 INT,c22 INT,c23 INT,c24 INT,c25 INT,c26 INT,c27 INT,c28 INT,c29 INT,c30 INT,c31 INT,c32 INT,c33 INT)",
        &[],
        Status::Refused,
        "refused: bad columns\n",
    ),
    (
        "run",
        "CREATE TABLE t (a INT PRIMARY KEY, b INT PRIMARY KEY)",
        &[],
        Status::Refused,
        "refused: bad columns\n",
    ),
    // A dropped table is gone, and its name may be taken again.
    (
        "run",
        "CREATE TABLE t (a INT); DROP TABLE t; DESCRIBE t; CREATE TABLE t (b DATE PRIMARY KEY, c TEXT); DESCRIBE t",
        &[],
        Status::Refused,
        "created t\ndropped t\nrefused: unknown table t\ncreated t\ntable t rows 0 blocks 0\ncolumn b date classes 0 key\ncolumn c text classes 0\nrest 0\n",
    ),
    // Without a layout, every row is in rest.
    (
        "run",
        "CREATE TABLE t (a INT); INSERT INTO t VALUES (1); DESCRIBE t",
        &[],
        Status::Done,
        "created t\nadded 1\ntable t rows 1 blocks 0\ncolumn a int classes 0\nrest 1\n",
    ),
    // Two columns of two bits and three bits share a tuplet of eight.
    (
        "run",
        "CREATE TABLE t (a INT, b INT); LOAD INTO t FROM 'p.csv'; DESCRIBE t",
        &[("p.csv", &[("a,b", 1), ("1,1", 1), ("2,2", 1), ("1,3", 1)])],
        Status::Done,
        "created t\nadded 3\ntable t rows 3 blocks 1\ncolumn a int classes 1 1:2\ncolumn b int classes 1 2:3\ncell 0.0 rows 3 pages 1 banks 8\nrest 0\n",
    ),
    // A file without a record, and a header alone.
    (
        "run",
        "CREATE TABLE t (a INT); LOAD INTO t FROM 'e.csv'; LOAD INTO t FROM 'h.csv'; DESCRIBE t",
        &[("e.csv", &[]), ("h.csv", &[("A", 1)])],
        Status::Done,
        "created t\nadded 0\nadded 0\ntable t rows 0 blocks 0\ncolumn a int classes 0\nrest 0\n",
    ),
    // The empty name has no file.
    (
        "run",
        "CREATE TABLE t (a INT); LOAD INTO t FROM ''",
        &[],
        Status::Refused,
        "created t\nrefused: no file\n",
    ),
    // Rows held count, and so do keys.
    (
        "run --rows 3",
        "CREATE TABLE d (a INT PRIMARY KEY); APPEND INTO d FROM 'm.csv'; INSERT INTO d VALUES (8),(7); INSERT INTO d VALUES (8),(9),(7); INSERT INTO d VALUES (8)",
        &[SEVEN],
        Status::Refused,
        "created d\nadded 1\nrefused: duplicate key 2\nrefused: too many rows\nadded 1\n",
    ),
    // A refused statement keeps the rows that were there.
    (
        "run",
        "CREATE TABLE t (a INT); LOAD INTO t FROM 'l.csv'; LOAD INTO t FROM 'x.csv'; DESCRIBE t; REORGANIZE TABLE u",
        &[ONES, ("x.csv", &[("a", 1), ("1", 1), ("x", 1)])],
        Status::Refused,
        "created t\nadded 2\nrefused: bad value 2 1\ntable t rows 2 blocks 1\ncolumn a int classes 1 1:1\ncell 0 rows 2 pages 1 banks 8\nrest 0\nrefused: unknown table u\n",
    ),
];

// Arguments in no stated form.
const UNKNOWN: [&str; 20] = [
    "run --rows 0",
    "run --rows 5 --rows 6",
    "run --rows=5",
    "run --rows",
    "run --rows 8388609",
    "run --blocks 2097153",
    "run --rows 0000000001",
    "run --rows +5",
    "run --rows -5",
    "run --blocks 5 --rows",
    "run --rows 5 6",
    "run 5",
    "run --rows 1 --blocks 1 --rows 1",
    "RUN",
    "demo 1",
    "demo 1 2 3",
    "demo 2147483648 1",
    "demo 1 1000001",
    "demo -0 1",
    "demo 00000000001 1",
];

// The arguments that a text has, split at its spaces.
fn args_of(alloc: Global, text: &str) -> Result<Vec<String>, AllocError> {
    let mut args = Vec::new(alloc);
    for arg in text.split_whitespace() {
        args.push(String::from_str(alloc, arg)?)?;
    }
    Ok(args)
}

// The text of lines, each as often as it stands.
fn text_of(alloc: Global, lines: &[(&str, usize)]) -> Result<Vec<u8>, AllocError> {
    let mut text = Vec::new(alloc);
    for (line, times) in lines {
        for _ in 0..*times {
            text.extend_from_slice(line.as_bytes())?;
            text.push(b'\n')?;
        }
    }
    Ok(text)
}

// A store with these files, whose call of this number fails; none where it is 0.
fn shelf_of(
    alloc: Global,
    files: &[(&str, &[(&str, usize)])],
    fails: u64,
) -> Result<Shelf, AllocError> {
    let mut shelf = Shelf::new(alloc, vec![in alloc; fails]?);
    for (name, lines) in files {
        shelf.set(name, text_of(alloc, lines)?)?;
    }
    Ok(shelf)
}

// How the source and the sink are: the most bytes of a piece that is taken, the room, and the numbers of the calls that
// fail; none where it is 0.
#[derive(Clone, Copy)]
pub(crate) struct Streams {
    pub(crate) piece: usize,
    pub(crate) source_fails: u64,
    pub(crate) room: usize,
    pub(crate) sink_fails: u64,
}

// Small pieces, much room, and no call that fails.
pub(crate) const CALM: Streams = Streams {
    piece: 3,
    source_fails: 0,
    room: 1_048_576,
    sink_fails: 0,
};

// The status and the printed bytes of a run.
fn run_end(
    alloc: Global,
    args: &str,
    input: Vec<u8>,
    streams: Streams,
    store: &mut Shelf,
) -> Result<(Status, Vec<u8>), AllocError> {
    let args = args_of(alloc, args)?;
    let source_fails = vec![in alloc; streams.source_fails]?;
    let mut source = BytesIn::new(input, streams.piece.max(1), source_fails);
    let mut sink = BytesOut::new(alloc, streams.room, vec![in alloc; streams.sink_fails]?)?;
    let status = run(alloc, args.as_slice(), &mut source, &mut sink, store);
    Ok((status, sink.bytes().to_vec(alloc)?))
}

// Runs a row over its files, and asserts the status, what is printed, and that the files stand.
pub(crate) fn expect_row(
    rt: &impl Abort,
    alloc: Global,
    row: &TableRow,
    streams: Streams,
    store_fails: u64,
) -> Result<(), AllocError> {
    let (args, input, files, status, printed) = row;
    let mut store = shelf_of(alloc, files, store_fails)?;
    let bytes = input.as_bytes().to_vec(alloc)?;
    let (ended, output) = run_end(alloc, args, bytes, streams, &mut store)?;
    assert_eq!(rt; ended, *status, "{args}: {input}");
    assert_eq!(rt; output.as_slice(), printed.as_bytes(), "{args}: {input}");
    for (name, lines) in *files {
        let text = text_of(alloc, lines)?;
        assert_eq!(rt; store.file(name), Some(text.as_slice()), "{input}");
    }
    Ok(())
}

#[test]
fn each_row_prints_its_lines(rt: HostRuntime) -> Result<(), Fail> {
    let alloc = rt.alloc();
    for (args, input, status, printed) in COUNTS {
        expect_row(&rt, alloc, &(args, input, &[], status, printed), CALM, 0)?;
    }
    for (args, input, status, printed) in SCRIPTS {
        expect_row(&rt, alloc, &(args, input, &[], status, printed), CALM, 0)?;
    }
    for args in UNKNOWN {
        let row = (args, "DROP TABLE t;", NO_FILES, Status::Usage, USAGE);
        expect_row(&rt, alloc, &row, CALM, 0)?;
    }
    Ok(())
}

#[test]
fn tables_are_kept(rt: HostRuntime) -> Result<(), Fail> {
    let alloc = rt.alloc();
    for row in &TABLES {
        expect_row(&rt, alloc, row, Streams { piece: 16, ..CALM }, 0)?;
    }
    Ok(())
}

// One table more than there may be.
#[test]
fn there_are_64_tables_at_most(rt: HostRuntime) -> Result<(), Fail> {
    let alloc = rt.alloc();
    let mut script = String::new(alloc);
    let mut printed = String::new(alloc);
    for number in 0..64u32 {
        script.push_str(format!(in alloc; "CREATE TABLE t{number} (a INT);")?.as_str())?;
        printed.push_str(format!(in alloc; "created t{number}\n")?.as_str())?;
    }
    script.push_str(
        "CREATE TABLE u (a INT); CREATE TABLE t7 (a INT); DROP TABLE t7; CREATE TABLE u (a INT)",
    )?;
    printed.push_str(
        "refused: too many tables\nrefused: table exists t7\ndropped t7\ncreated u\n",
    )?;
    let streams = Streams {
        piece: 64,
        room: 4096,
        ..CALM
    };
    let mut store = Shelf::new(alloc, Vec::new(alloc));
    let input = script.as_bytes().to_vec(alloc)?;
    let (ended, output) = run_end(alloc, "run", input, streams, &mut store)?;
    assert_eq!(rt; ended, Status::Refused);
    assert_eq!(rt; output.as_slice(), printed.as_bytes());
    Ok(())
}

// The store is asked by the third and the fourth statement alone.
const ASKING: &str =
    "CREATE TABLE t (a INT); LOAD INTO u FROM 'l.csv'; LOAD INTO t FROM 'l.csv'; APPEND INTO t FROM 'm.csv'; DROP TABLE t";

// The store's call that fails, the sink's, the status, and what is printed. A statement that doesn't ask the store counts
// as no call of it.
const STORE_FAULTS: [(u64, u64, Status, &str); 5] = [
    (
        1,
        0,
        Status::StoreFault,
        "created t\nrefused: unknown table u\n",
    ),
    (
        2,
        0,
        Status::StoreFault,
        "created t\nrefused: unknown table u\nadded 2\n",
    ),
    (
        3,
        0,
        Status::Refused,
        "created t\nrefused: unknown table u\nadded 2\nadded 1\ndropped t\n",
    ),
    (1, 2, Status::WriteFault, "created t\n"),
    (
        2,
        3,
        Status::WriteFault,
        "created t\nrefused: unknown table u\n",
    ),
];

#[test]
fn a_fault_of_the_store_ends_a_run(rt: HostRuntime) -> Result<(), Fail> {
    let alloc = rt.alloc();
    for (store_fails, sink_fails, status, printed) in STORE_FAULTS {
        let streams = Streams {
            piece: 64,
            room: 4096,
            sink_fails,
            ..CALM
        };
        let row = ("run", ASKING, LINES, status, printed);
        expect_row(&rt, alloc, &row, streams, store_fails)?;
    }
    Ok(())
}

const COUNT: &str = "range a 2 5";

const NUMBERS: &str = "a\n1\n2\n5\n6\n";

const DROPS: &str = "DROP TABLE t; SELECT; DROP TABLE u";

// The arguments, the input, the source's call that fails, the sink's room, its call that fails, the status, and what is
// printed. In the last row a table is dropped before its line is given.
const FAULTS: [(&str, &str, u64, usize, u64, Status, &str); 10] = [
    (COUNT, NUMBERS, 2, 9, 0, Status::ReadFault, ""),
    (COUNT, NUMBERS, 0, 1, 0, Status::WriteFault, ""),
    (COUNT, NUMBERS, 0, 9, 1, Status::WriteFault, ""),
    (COUNT, NUMBERS, 0, 2, 2, Status::Done, "2\n"),
    ("run", DROPS, 2, 99, 0, Status::ReadFault, ""),
    (
        "run",
        DROPS,
        0,
        40,
        0,
        Status::WriteFault,
        "refused: unknown table t\n",
    ),
    ("run", DROPS, 0, 99, 1, Status::WriteFault, ""),
    (
        "run",
        DROPS,
        0,
        99,
        2,
        Status::WriteFault,
        "refused: unknown table t\n",
    ),
    (
        "run",
        DROPS,
        0,
        66,
        4,
        Status::Refused,
        "refused: unknown table t\nrefused: syntax\nrefused: unknown table u\n",
    ),
    (
        "run",
        "CREATE TABLE t (a INT); DROP TABLE t;",
        0,
        4096,
        2,
        Status::WriteFault,
        "created t\n",
    ),
];

#[test]
fn faults_end_a_run(rt: HostRuntime) -> Result<(), Fail> {
    let alloc = rt.alloc();
    for (args, input, source_fails, room, sink_fails, status, printed) in FAULTS {
        let streams = Streams {
            piece: 4,
            source_fails,
            room,
            sink_fails,
        };
        expect_row(
            &rt,
            alloc,
            &(args, input, NO_FILES, status, printed),
            streams,
            0,
        )?;
    }
    Ok(())
}

// A file of one byte more than may be fetched.
#[test]
fn a_file_past_the_limit_is_too_long(rt: HostRuntime) -> Result<(), Fail> {
    let alloc = rt.alloc();
    let mut store = Shelf::new(alloc, Vec::new(alloc));
    store.set("f", vec![in alloc; b' '; 134_217_729]?)?;
    let input = b"CREATE TABLE t (a INT); LOAD INTO t FROM 'f'".to_vec(alloc)?;
    let (ended, output) = run_end(alloc, "run", input, CALM, &mut store)?;
    assert_eq!(rt; ended, Status::Refused);
    assert_eq!(rt;
        output.as_slice(),
        b"created t\nrefused: file too long\n".as_slice()
    );
    Ok(())
}

#[test]
fn an_input_past_the_limit_is_long(rt: HostRuntime) -> Result<(), Fail> {
    let alloc = rt.alloc();
    let mut store = Shelf::new(alloc, Vec::new(alloc));
    let input = vec![in alloc; b' '; 67_108_865]?;
    let streams = Streams {
        piece: 1_000_000,
        room: 100,
        ..CALM
    };
    let (ended, output) = run_end(alloc, COUNT, input, streams, &mut store)?;
    assert_eq!(rt; ended, Status::Long);
    assert_eq!(rt; output.len(), 0);
    Ok(())
}
