// Images.
ghost use Rattle.std.specs.Prelude.{◌≡◌, ◌<◌, ◌≤◌, IfOk, IsTrue, None as Nothing};
ghost use Rattle.std.specs.List.{list_all};
ghost use Rattle.blink_base.specs.RowFits.{fits, is_schema};
ghost use Rattle.cell_layout.specs.Valid.{MayHold};

use bank_pack::BankPlan;
use blink_base::{Column, Kind, List, Row, Schema, Value, Word};
use cell_layout::{Cell, Image, LayoutError};
use std::alloc::{AllocError, Global};
use std::marker::Brand;
use std::sync::ledger;
use std::sync::ledger::Blank;
use std::test::Fail;
use word_pool::{Ledger, Steps, Tally};

/// How many rows a table may have.
const MOST: u64 = 8_388_608;

// A column of whole numbers.
fn number_column(alloc: Global, name: &str) -> Result<Column, AllocError>
    ensures { IfOk result (λ column. column.name ≡ name.now) }
{
    Ok(Column {
        name: Word::from_str(alloc, name)?,
        kind: Kind::Int,
    })
}

fn plain_schema(alloc: Global) -> Result<Schema, AllocError>
    ensures allowed { IfOk result (λ schema. IsTrue (is_schema schema)) }
    ensures plain { IfOk result (λ schema. schema.key ≡ Nothing) }
{
    let mut columns = List::new(alloc);
    columns.push(number_column(alloc, "a")?)?;
    Ok(Schema { columns, key: None })
}

fn keyed_schema(alloc: Global) -> Result<Schema, AllocError>
    ensures { IfOk result (λ schema. IsTrue (is_schema schema)) }
{
    let mut columns = List::new(alloc);
    columns.push(number_column(alloc, "a")?)?;
    Ok(Schema {
        columns,
        key: Some(0),
    })
}

fn wide_schema(alloc: Global) -> Result<Schema, AllocError>
    ensures { IfOk result (λ schema. IsTrue (is_schema schema)) }
{
    let mut columns = List::new(alloc);
    columns.push(number_column(alloc, "a")?)?;
    columns.push(number_column(alloc, "b")?)?;
    columns.push(number_column(alloc, "c")?)?;
    columns.push(number_column(alloc, "d")?)?;
    Ok(Schema { columns, key: None })
}

// A table of one column, one whose column is the key, and one of four columns.
#[derive(Clone, Copy)]
enum Form {
    Plain,
    Keyed,
    Wide,
}

fn schema_of(alloc: Global, form: Form) -> Result<Schema, AllocError>
    ensures { IfOk result (λ schema. IsTrue (is_schema schema)) }
{
    match form {
        Form::Plain => plain_schema(alloc),
        Form::Keyed => keyed_schema(alloc),
        Form::Wide => wide_schema(alloc),
    }
}

// Rows, by how often each stands one behind the other.
type Runs = &'static [(u32, &'static [i64])];

fn row_of(alloc: Global, numbers: &[i64]) -> Result<Row, AllocError> {
    let mut row = List::new(alloc);
    for number in numbers {
        row.push(Value::Int(*number))?;
    }
    Ok(row)
}

fn rows_of(alloc: Global, runs: Runs) -> Result<List<Row>, AllocError> {
    let mut rows = List::new(alloc);
    for (times, numbers) in runs {
        for _time in 0..*times {
            rows.push(row_of(alloc, numbers)?)?;
        }
    }
    Ok(rows)
}

fn all_fit(schema: &Schema, rows: &[Row]) -> bool
    ensures { result ≡ list_all (fits schema.now) rows.now }
{
    rows.iter().all(|row| schema.fits(row))
}

// The sizes of each column's classes.
fn push_sizes<M: Ledger>(image: &Image<M>, numbers: &mut Vec<u64>) -> Result<(), AllocError> {
    for dict in image.dictionaries() {
        for class in 0..dict.classes() {
            numbers.push(u64::from(dict.size(class)))?;
        }
    }
    Ok(())
}

// The class numbers and the rows of each cell.
fn push_cells<M: Ledger>(image: &Image<M>, numbers: &mut Vec<u64>) -> Result<(), AllocError> {
    for cell in 0..image.cell_count() {
        for class in image.cell_classes(cell) {
            numbers.push(u64::from(*class))?;
        }
        numbers.push(image.cell_rows(cell))?;
    }
    Ok(())
}

// The sizes of each column's classes, the class numbers and the rows of each cell, the rows of rest, and the blocks.
fn numbers_of<M: Ledger>(alloc: Global, image: &Image<M>) -> Result<Vec<u64>, AllocError> {
    let mut numbers = Vec::new(alloc);
    push_sizes(image, &mut numbers)?;
    push_cells(image, &mut numbers)?;
    numbers.push(image.rest_count() as u64)?;
    numbers.push(image.blocks())?;
    Ok(numbers)
}

// What an image shows whose rows were laid out anew, once others were added.
fn grown_image<N: ledger::Ledger>(
    alloc: Global,
    blank: Blank,
    schema: Schema,
    limit: u64,
    first: &List<Row>,
    further: &List<Row>,
) -> Result<Vec<u64>, LayoutError>
    requires name { blank.name ≡ N.name }
    requires parts { blank.parts ≡ N.parts }
    requires some { 0 < blank.parts }
    requires allowed { IsTrue (is_schema schema) }
    requires limit { limit ≤ 8388608 }
    requires first { IsTrue (list_all (fits schema) first.now) }
    requires further { IsTrue (list_all (fits schema) further.now) }
{
    let mut decodes: Steps<Tally<N>> = Steps::new(Tally::new(blank));
    let empty = Image::empty(alloc, schema)?;
    let mut image = empty.relaid(alloc, limit, first, &mut decodes)?;
    image.append(alloc, limit, further, &mut decodes)?;
    Ok(numbers_of(alloc, &image)?)
}

// What one case shows: rows that are laid out anew, and rows that are added.
fn shown(
    alloc: Global,
    form: Form,
    limit: u64,
    first: Runs,
    further: Runs,
) -> Result<Option<Vec<u64>>, LayoutError> {
    let limit = limit.min(MOST);
    let schema = schema_of(alloc, form)?;
    let first = rows_of(alloc, first)?;
    let further = rows_of(alloc, further)?;
    if !all_fit(&schema, first.as_slice()) || !all_fit(&schema, further.as_slice()) {
        return Ok(None);
    }
    let numbers = grown_image::<Brand>(alloc, Blank::new(1), schema, limit, &first, &further)?;
    Ok(Some(numbers))
}

// A table, rows that are laid out anew, rows that are added, and what the image shows.
type Case = (Form, Runs, Runs, &'static [u64]);

const CASES: [Case; 6] = [
    (
        Form::Plain,
        &[(100, &[5]), (10, &[1]), (10, &[2]), (10, &[3]), (10, &[4])],
        &[],
        &[2, 3, 0, 110, 1, 30, 0, 2],
    ),
    (
        Form::Plain,
        &[(2, &[1])],
        &[(1, &[7]), (1, &[1])],
        &[1, 0, 3, 1, 1],
    ),
    (Form::Plain, &[(1025, &[4])], &[], &[1, 0, 1025, 0, 2]),
    (Form::Plain, &[], &[(1, &[3])], &[1, 0]),
    (
        Form::Wide,
        &[
            (80, &[5, 5, 5, 0]),
            (20, &[5, 5, 5, 1]),
            (10, &[1, 1, 1, 2]),
            (10, &[2, 2, 2, 2]),
            (10, &[3, 3, 3, 3]),
            (10, &[4, 4, 4, 4]),
        ],
        &[(1, &[2, 2, 2, 0]), (1, &[2, 5, 2, 0])],
        &[
            2, 3, 2, 3, 2, 3, 5, 0, 0, 0, 0, 110, 1, 0, 1, 0, 1, 1, 1, 1, 0, 31, 0, 6,
        ],
    ),
    (
        Form::Keyed,
        &[(1, &[1]), (1, &[2])],
        &[(1, &[3])],
        &[2, 0, 2, 1, 1],
    ),
];

// Rows that are laid out anew, rows that are added, the limit, and why they are refused.
type Refusal = (Runs, Runs, u64, LayoutError);

const REFUSED: [Refusal; 6] = [
    (
        &[(1, &[1]), (1, &[2])],
        &[(1, &[3]), (1, &[2])],
        MOST,
        LayoutError::DuplicateKey { at: 2 },
    ),
    (&[(2, &[1])], &[], MOST, LayoutError::DuplicateKey { at: 2 }),
    (
        &[(1, &[1])],
        &[(1, &[3]), (1, &[4]), (1, &[3])],
        MOST,
        LayoutError::DuplicateKey { at: 3 },
    ),
    (
        &[],
        &[(1, &[3]), (1, &[3])],
        MOST,
        LayoutError::DuplicateKey { at: 2 },
    ),
    (&[(1, &[1])], &[(2, &[1])], 2, LayoutError::Rows),
    (&[(3, &[1])], &[], 2, LayoutError::Rows),
];

#[test]
fn rows_are_laid_out_and_added(rt: HostRuntime) -> Result<(), Fail> {
    for (form, first, further, wanted) in &CASES {
        let numbers = shown(rt.alloc(), *form, MOST, first, further)?;
        assert_eq!(rt; numbers.as_deref(), Some(*wanted));
    }
    Ok(())
}

#[test]
fn keys_and_rows_are_refused(rt: HostRuntime) -> Result<(), Fail> {
    for (first, further, limit, why) in &REFUSED {
        let answer = shown(rt.alloc(), Form::Keyed, *limit, first, further);
        assert_eq!(rt; answer.err(), Some(*why));
    }
    Ok(())
}

// The first row of an image that is built.
fn first_row<N: ledger::Ledger>(
    alloc: Global,
    blank: Blank,
    schema: &Schema,
    rows: &List<Row>,
) -> Result<Option<Row>, LayoutError>
    requires name { blank.name ≡ N.name }
    requires parts { blank.parts ≡ N.parts }
    requires some { 0 < blank.parts }
    requires held { MayHold schema.now rows.now }
{
    let mut decodes: Steps<Tally<N>> = Steps::new(Tally::new(blank));
    let image = Image::build(alloc, schema, rows)?;
    if image.row_count() == 0 {
        return Ok(None);
    }
    Ok(Some(image.row(alloc, 0, &mut decodes)?))
}

#[test]
fn rows_are_read(rt: HostRuntime) -> Result<(), Fail> {
    let alloc = rt.alloc();
    let schema = plain_schema(alloc)?;
    let rows = rows_of(alloc, &[(1, &[7]), (1, &[-4])])?;
    if all_fit(&schema, rows.as_slice()) && rows.len() as u64 <= MOST {
        let row = first_row::<Brand>(alloc, Blank::new(1), &schema, &rows)?;
        assert!(rt; row.is_some_and(|row| matches!(row.as_slice(), [Value::Int(7)])));
    }
    Ok(())
}

// The banks of twenty columns of 23 bits, and the blocks that so many rows of them take.
fn blocks_of(alloc: Global, rows: u64) -> Result<(usize, u64), AllocError> {
    let plan = BankPlan::of(alloc, &[23; 20])?;
    let banks = plan.banks();
    let cell = Cell {
        classes: List::new(alloc),
        plan,
        codes: List::new(alloc),
        rows: rows.min(MOST),
    };
    if cell.plan.banks() <= 32 {
        Ok((banks, cell.blocks()))
    } else {
        Ok((banks, 0))
    }
}

#[test]
fn wide_columns_take_a_bank_each(rt: HostRuntime) -> Result<(), Fail> {
    assert_eq!(rt; blocks_of(rt.alloc(), 1025)?, (20, 160));
    Ok(())
}
