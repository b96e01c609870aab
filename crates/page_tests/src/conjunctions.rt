// The rows of a page that pass a conjunction.
ghost use Rattle.std.specs.Prelude.{◌≡◌, ◌<◌, ◌≤◌, IfOk, IfSome, IsTrue, None as Nothing, length};
ghost use Rattle.std.specs.List.{list_all};
ghost use Rattle.blink_base.specs.RowFits.{fits, is_schema};
ghost use Rattle.page_synopsis.specs.Sets.{is_fair};
ghost use Rattle.cell_layout.specs.Image.{cell_at};
ghost use Rattle.cell_layout.specs.Valid.{MayHold};
ghost use Rattle.cell_scan.specs.CodeTests.{are_within, columns_apart, is_within};

use blink_base::{Column, Kind, List, Row, Schema, Value, Word};
use cell_layout::{Image, LayoutError};
use cell_scan::{CodeTest, scan_conjunction};
use page_synopsis::{CodeBits, Ranges};
use std::alloc::{AllocError, Global};
use std::marker::Brand;
use std::sync::ledger;
use std::test::Fail;
use word_pool::{Ledger, Tally};

// A column of whole numbers.
fn numbers(alloc: Global, name: &str) -> Result<Column, AllocError>
    ensures { IfOk result (λ column. column.name ≡ name.now) }
{
    Ok(Column {
        name: Word::from_str(alloc, name)?,
        kind: Kind::Int,
    })
}

// A table of two columns.
fn two_columns(alloc: Global) -> Result<Schema, AllocError>
    ensures allowed { IfOk result (λ schema. IsTrue (is_schema schema)) }
    ensures plain { IfOk result (λ schema. schema.key ≡ Nothing) }
{
    let mut columns = List::new(alloc);
    columns.push(numbers(alloc, "a")?)?;
    columns.push(numbers(alloc, "b")?)?;
    Ok(Schema { columns, key: None })
}

// Pairs of numbers, and how often each stands one behind the other.
type Pairs = &'static [(u32, i64, i64)];

// The rows of pairs.
fn rows_of(alloc: Global, pairs: Pairs) -> Result<List<Row>, AllocError> {
    let mut rows = List::new(alloc);
    for (times, a, b) in pairs {
        for _time in 0..*times {
            let row = vec![in alloc; Value::Int(*a), Value::Int(*b)]?;
            rows.push(List::from_vec(row))?;
        }
    }
    Ok(rows)
}

// Whether rows are such as a table of two columns may hold.
fn may_hold(schema: &Schema, rows: &[Row]) -> bool
    ensures { result ≡ list_all (fits schema.now) rows.now }
{
    rows.iter().all(|row| schema.fits(row))
}

// A column, and the codes that qualify: from one up to, but without, another, as far as its class in a cell goes.
type Asked = (usize, &'static [(u32, u32)]);

// Those of the codes that are below a size.
fn codes_below(alloc: Global, size: u32, ranges: &[(u32, u32)]) -> Result<CodeBits, AllocError>
    ensures { IfOk result (λ bits. length bits ≡ size) }
{
    let mut bits = CodeBits::new(alloc, size)?;
    for range in ranges {
        bits.set_range(range.0, size.min(range.1));
    }
    Ok(bits)
}

// The test that is asked of a cell; None where no code qualifies.
fn test_in<M: Ledger>(
    alloc: Global,
    image: &Image<M>,
    cell: usize,
    asked: &Asked,
) -> Result<Option<CodeTest>, AllocError>
    requires { cell < length image.now.cells }
    ensures fair { IfOk result (λ test. IfSome test (λ t. IsTrue (is_fair t.ranges))) }
    ensures within { IfOk result (λ test. IfSome test (λ t. IsTrue (is_within image.now.columns (cell_at image.now cell).classes t))) }
{
    let (column, ranges) = *asked;
    let dicts = image.dictionaries();
    let classes = image.cell_classes(cell);
    if column >= dicts.len() || column >= classes.len() || column >= 32 {
        return Ok(None);
    }
    let class = classes[column];
    if class >= dicts[column].classes() {
        return Ok(None);
    }
    let bits = codes_below(alloc, dicts[column].size(class), ranges)?;
    match Ranges::of(bits) {
        Some(ranges) => Ok(Some(CodeTest {
            column: column as u32,
            ranges,
        })),
        None => Ok(None),
    }
}

// Of each page, how many rows pass, and the first of them.
type Pages = Vec<(usize, Option<usize>)>;

// Adds what passes of each page of a cell.
fn add_pages<M: Ledger>(
    image: &Image<M>,
    cell: usize,
    tests: &[CodeTest],
    pages: &mut Pages,
) -> Result<(), AllocError>
    requires cell { cell < length image.now.cells }
    requires fair { IsTrue (list_all (λ t. is_fair t.ranges) tests.now) }
    requires apart { IsTrue (columns_apart tests.now) }
    requires within { IsTrue (are_within image.now.columns (cell_at image.now cell).classes tests.now) }
{
    for page in 0..image.cell_pages(cell) {
        let bits = scan_conjunction(image, cell, tests, page);
        pages.push((bits.count(), bits.next_set(0)))?;
    }
    Ok(())
}

// Adds what passes one test.
fn add_one<M: Ledger>(
    image: &Image<M>,
    cell: usize,
    test: Option<CodeTest>,
    pages: &mut Pages,
) -> Result<(), AllocError>
    requires cell { cell < length image.now.cells }
    requires fair { IfSome test (λ t. IsTrue (is_fair t.ranges)) }
    requires within { IfSome test (λ t. IsTrue (is_within image.now.columns (cell_at image.now cell).classes t)) }
{
    match test {
        Some(test) => add_pages(image, cell, &[test], pages),
        None => Ok(()),
    }
}

// Adds what passes two tests.
fn add_both<M: Ledger>(
    image: &Image<M>,
    cell: usize,
    first: Option<CodeTest>,
    second: Option<CodeTest>,
    pages: &mut Pages,
) -> Result<(), AllocError>
    requires cell { cell < length image.now.cells }
    requires fair { IfSome first (λ t. IsTrue (is_fair t.ranges)) }
    requires second_fair { IfSome second (λ t. IsTrue (is_fair t.ranges)) }
    requires within { IfSome first (λ t. IsTrue (is_within image.now.columns (cell_at image.now cell).classes t)) }
    requires second_within { IfSome second (λ t. IsTrue (is_within image.now.columns (cell_at image.now cell).classes t)) }
{
    match (first, second) {
        (Some(first), Some(second)) if first.column != second.column => {
            add_pages(image, cell, &[first, second], pages)
        }
        _ => Ok(()),
    }
}

// What passes of each page of the cells of an image, a cell without a qualifying code left out.
fn pages_of<M: Ledger>(
    alloc: Global,
    image: &Image<M>,
    asked: &[Asked],
) -> Result<Pages, AllocError> {
    let mut pages = Vec::new(alloc);
    for cell in 0..image.cell_count() {
        match asked {
            [] => add_pages(image, cell, &[], &mut pages)?,
            [one] => {
                let test = test_in(alloc, image, cell, one)?;
                add_one(image, cell, test, &mut pages)?;
            }
            [one, other, ..] => {
                let first = test_in(alloc, image, cell, one)?;
                let second = test_in(alloc, image, cell, other)?;
                add_both(image, cell, first, second, &mut pages)?;
            }
        }
    }
    Ok(pages)
}

// What passes of each page of the image of some rows.
fn built_pages<N: ledger::Ledger>(
    alloc: Global,
    schema: &Schema,
    rows: &List<Row>,
    asked: &[Asked],
) -> Result<Pages, LayoutError>
    requires { MayHold schema.now rows.now }
{
    let image: Image<Tally<N>> = Image::build(alloc, schema, rows)?;
    Ok(pages_of(alloc, &image, asked)?)
}

// What one case shows.
fn passing(alloc: Global, case: &Case) -> Result<Option<Pages>, LayoutError> {
    let schema = two_columns(alloc)?;
    let rows = rows_of(alloc, case.pairs)?;
    if rows.len() > 8192 || !may_hold(&schema, rows.as_slice()) {
        return Ok(None);
    }
    Ok(Some(built_pages::<Brand>(alloc, &schema, &rows, case.asked)?))
}

// Rows, the codes that are asked for, and what passes of each page.
struct Case {
    pairs: Pairs,
    asked: &'static [Asked],
    pages: &'static [(usize, Option<usize>)],
}

// Twenty rows of twenty values.
const TWENTY: Pairs = &[
    (1, 1, 0),
    (1, 2, 0),
    (1, 3, 0),
    (1, 4, 0),
    (1, 5, 0),
    (1, 6, 0),
    (1, 7, 0),
    (1, 8, 0),
    (1, 9, 0),
    (1, 10, 0),
    (1, 11, 0),
    (1, 12, 0),
    (1, 13, 0),
    (1, 14, 0),
    (1, 15, 0),
    (1, 16, 0),
    (1, 17, 0),
    (1, 18, 0),
    (1, 19, 0),
    (1, 20, 0),
];

// Six rows, each pair of three values and two.
const SIX: Pairs = &[
    (1, 1, 1),
    (1, 1, 2),
    (1, 2, 1),
    (1, 2, 2),
    (1, 3, 1),
    (1, 3, 2),
];

// A frequent value, and four that aren't, in two cells.
const DIVIDED: Pairs = &[(100, 5, 0), (10, 1, 0), (10, 2, 0), (10, 3, 0), (10, 4, 0)];

const CASES: [Case; 14] = [
    Case {
        pairs: TWENTY,
        asked: &[],
        pages: &[(20, Some(0))],
    },
    Case {
        pairs: TWENTY,
        asked: &[(0, &[(3, 6)])],
        pages: &[(3, Some(3))],
    },
    Case {
        pairs: TWENTY,
        asked: &[(
            0,
            &[
                (0, 1),
                (2, 3),
                (4, 5),
                (6, 7),
                (8, 9),
                (10, 11),
                (12, 13),
                (14, 15),
            ],
        )],
        pages: &[(8, Some(0))],
    },
    Case {
        pairs: TWENTY,
        asked: &[(
            0,
            &[
                (1, 2),
                (3, 4),
                (5, 6),
                (7, 8),
                (9, 10),
                (11, 12),
                (13, 14),
                (15, 16),
                (17, 18),
            ],
        )],
        pages: &[(9, Some(1))],
    },
    Case {
        pairs: TWENTY,
        asked: &[(0, &[(19, 20)]), (1, &[(0, 1)])],
        pages: &[(1, Some(19))],
    },
    Case {
        pairs: SIX,
        asked: &[(0, &[(1, 3)]), (1, &[(0, 1)])],
        pages: &[(2, Some(2))],
    },
    Case {
        pairs: SIX,
        asked: &[(1, &[(1, 2)]), (0, &[(0, 1), (2, 3)])],
        pages: &[(2, Some(1))],
    },
    Case {
        pairs: &[(1, 1, 1), (1, 2, 2)],
        asked: &[(0, &[(0, 1)]), (1, &[(1, 2)])],
        pages: &[(0, None)],
    },
    Case {
        pairs: &[(1025, 4, 0)],
        asked: &[],
        pages: &[(1024, Some(0)), (1, Some(0))],
    },
    Case {
        pairs: &[(1000, 4, 0), (30, 9, 0)],
        asked: &[(0, &[(1, 2)])],
        pages: &[(24, Some(1000)), (6, Some(0))],
    },
    Case {
        pairs: &[(1024, 4, 0), (1024, 9, 0)],
        asked: &[(0, &[(1, 2)]), (1, &[(0, 1)])],
        pages: &[(0, None), (1024, Some(0))],
    },
    Case {
        pairs: DIVIDED,
        asked: &[(0, &[(1, 2)])],
        pages: &[(100, Some(0)), (10, Some(10))],
    },
    Case {
        pairs: DIVIDED,
        asked: &[(0, &[(2, 3)])],
        pages: &[(10, Some(20))],
    },
    Case {
        pairs: &[],
        asked: &[(0, &[(0, 1)])],
        pages: &[],
    },
];

#[test]
fn conjunctions_select_rows(rt: HostRuntime) -> Result<(), Fail> {
    for case in &CASES {
        let pages = passing(rt.alloc(), case)?;
        assert_eq!(rt; pages.as_deref(), Some(case.pages));
    }
    Ok(())
}
