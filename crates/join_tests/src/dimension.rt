// A dimension of two cells and rest, and the keys of chosen rows.
ghost use Rattle.std.specs.Prelude.{◌≡◌, ◌<◌, ◌≤◌, ℕ, All, IfOk, IfSome, IsSome, IsTrue, false, drop, length, nat_lt, slice_index_or};
ghost use Rattle.std.specs.List.{list_all};
ghost use Rattle.blink_base.specs.RowFits.{fits, is_schema};
ghost use Rattle.blink_lists.specs.Lists.{any_true};
ghost use Rattle.cell_layout.specs.Image.{cell_at};
ghost use Rattle.cell_layout.specs.Valid.{is_valid};
ghost use Rattle.cell_scan.specs.Match.{rows_of_page};

use blink_base::{Column, Kind, List, Row, Schema, Value, Word};
use blink_lists::{MOST_ROWS, PAGE_ROWS};
use cell_layout::{Image, LayoutError};
use code_join::{KeyMap, MOST_KEYS};
use dim_filter::{collect, collect_rest};
use row_bits::PageBits;
use std::alloc::{AllocError, Global};
use std::sync::ledger;
use std::sync::ledger::Blank;
use word_pool::{Ledger, Steps, Tally};

// Which rows are chosen, by their places in the cells and in rest, and which columns are wanted beside the key.
#[derive(Clone, Copy)]
pub(crate) struct Choice {
    pub first: &'static [usize],
    pub second: &'static [usize],
    pub rest: &'static [usize],
    pub wanted: &'static [u32],
}

fn number_column(alloc: Global, name: &str) -> Result<Column, AllocError>
    ensures { IfOk result (λ column. column.name ≡ name.now) }
{
    Ok(Column {
        name: Word::from_str(alloc, name)?,
        kind: Kind::Int,
    })
}

// Three columns of whole numbers, the second the key.
pub(crate) fn schema_of(alloc: Global) -> Result<Schema, AllocError>
    ensures { IfOk result (λ schema. IsTrue (is_schema schema)) }
{
    let mut columns = List::new(alloc);
    columns.push(number_column(alloc, "a")?)?;
    columns.push(number_column(alloc, "k")?)?;
    columns.push(number_column(alloc, "b")?)?;
    Ok(Schema {
        columns,
        key: Some(1),
    })
}

fn push_row(
    alloc: Global,
    rows: &mut List<Row>,
    a: i64,
    key: i64,
    b: i64,
) -> Result<(), AllocError> {
    let mut row = List::new(alloc);
    row.push(Value::Int(a))?;
    row.push(Value::Int(key))?;
    row.push(Value::Int(b))?;
    rows.push(row)
}

// 40 rows of 5, and one each of 1 to 4, whose keys count up from 100: the values 1 and 5 make one class, the others another.
pub(crate) fn first_rows(alloc: Global) -> Result<List<Row>, AllocError> {
    let mut rows = List::new(alloc);
    for key in 100..140 {
        push_row(alloc, &mut rows, 5, key, key % 3)?;
    }
    push_row(alloc, &mut rows, 1, 140, 2)?;
    push_row(alloc, &mut rows, 2, 141, 0)?;
    push_row(alloc, &mut rows, 3, 142, 1)?;
    push_row(alloc, &mut rows, 4, 143, 2)?;
    Ok(rows)
}

// Two rows with new keys, which have no class.
pub(crate) fn further_rows(alloc: Global) -> Result<List<Row>, AllocError> {
    let mut rows = List::new(alloc);
    push_row(alloc, &mut rows, 5, 90, 0)?;
    push_row(alloc, &mut rows, 9, 150, 1)?;
    Ok(rows)
}

pub(crate) fn all_fit(schema: &Schema, rows: &[Row]) -> bool
    ensures { result ≡ list_all (fits schema.now) rows.now }
{
    rows.iter().all(|row| schema.fits(row))
}

// Whether these are columns of a row of so many.
fn are_columns(columns: &[u32], count: usize) -> bool
    ensures { result ≡ list_all (λ column. nat_lt column count) columns.now }
{
    columns.iter().all(|column| (*column as usize) < count)
}

// The truth values of a page of so many rows, those at these places true; None where one lies behind the rows.
fn bits_of(rows: u64, places: &[usize]) -> Option<PageBits>
    ensures { IfSome result (λ bits. (k : ℕ) → rows ≤ k → slice_index_or bits k false ≡ false) }
{
    let mut bits = PageBits::none();
    for place in places {
        if (*place as u64) < PAGE_ROWS {
            bits.set(*place, true);
        }
    }
    match bits.next_set(rows as usize) {
        None => Some(bits),
        Some(_) => None,
    }
}

// The keys of the chosen rows of two cells of one page each.
fn page_keys<M: Ledger>(
    alloc: Global,
    image: &Image<M>,
    first: &PageBits,
    second: &PageBits,
    wanted: &[u32],
    decodes: &mut Steps<M>,
) -> Result<KeyMap, AllocError>
    requires valid { IsTrue (is_valid image.now) }
    requires two { length image.now.cells ≡ 2 }
    requires key { IsSome image.now.schema.key }
    requires some { 0 < length (cell_at image.now 0).rows }
    requires more { 0 < length (cell_at image.now 1).rows }
    requires first { any_true (drop (length (rows_of_page (cell_at image.now 0).rows 0)) first.now) ≡ false }
    requires second { any_true (drop (length (rows_of_page (cell_at image.now 1).rows 0)) second.now) ≡ false }
    requires wanted { All (λ column. column < length image.now.columns) wanted.now }
{
    let mut keys = KeyMap::new(alloc);
    collect(alloc, image, 0, 0, first, wanted, &mut keys, decodes)?;
    collect(alloc, image, 1, 0, second, wanted, &mut keys, decodes)?;
    Ok(keys)
}

// The keys of the chosen rows of two cells; None where there are others, or several pages, or no such rows.
fn cell_keys<M: Ledger>(
    alloc: Global,
    image: &Image<M>,
    choice: &Choice,
    decodes: &mut Steps<M>,
) -> Result<Option<KeyMap>, AllocError>
    requires { IsTrue (is_valid image.now) }
{
    let Some(_key) = image.schema().key else {
        return Ok(None);
    };
    if image.cell_count() != 2 || !are_columns(choice.wanted, image.dictionaries().len()) {
        return Ok(None);
    }
    let rows = image.cell_rows(0);
    let more = image.cell_rows(1);
    if rows == 0 || rows > PAGE_ROWS || more == 0 || more > PAGE_ROWS {
        return Ok(None);
    }
    let Some(first) = bits_of(rows, choice.first) else {
        return Ok(None);
    };
    let Some(second) = bits_of(more, choice.second) else {
        return Ok(None);
    };
    let keys = page_keys(alloc, image, &first, &second, choice.wanted, decodes)?;
    Ok(Some(keys))
}

// Puts the key of a row of rest, where it is new, with its wanted values behind the others.
fn put_rest(
    alloc: Global,
    row: &Row,
    key: u32,
    wanted: &[u32],
    keys: &mut KeyMap,
) -> Result<(), AllocError> {
    if key as usize >= row.len() || !are_columns(wanted, row.len()) {
        return Ok(());
    }
    match keys.place(&row.as_slice()[key as usize]) {
        None if (keys.len() as u64) < MOST_KEYS => collect_rest(alloc, row, key, wanted, keys),
        _ => Ok(()),
    }
}

// Puts the keys of the chosen rows of rest behind the others.
fn put_others<M: Ledger>(
    alloc: Global,
    image: &Image<M>,
    choice: &Choice,
    keys: &mut KeyMap,
) -> Result<(), AllocError> {
    let rest = image.rest.as_slice();
    for place in choice.rest {
        if *place < rest.len() {
            put_rest(alloc, &rest[*place], 1, choice.wanted, keys)?;
        }
    }
    Ok(())
}

// The keys of the chosen rows of a table whose rows were laid out anew, once others were added.
pub(crate) fn chosen_keys<N: ledger::Ledger>(
    alloc: Global,
    blank: Blank,
    schema: Schema,
    first: &List<Row>,
    further: &List<Row>,
    choice: &Choice,
) -> Result<Option<KeyMap>, LayoutError>
    requires name { blank.name ≡ N.name }
    requires parts { blank.parts ≡ N.parts }
    requires some { 0 < blank.parts }
    requires allowed { IsTrue (is_schema schema) }
    requires first { IsTrue (list_all (fits schema) first.now) }
    requires further { IsTrue (list_all (fits schema) further.now) }
{
    let mut decodes: Steps<Tally<N>> = Steps::new(Tally::new(blank));
    let empty = Image::empty(alloc, schema)?;
    let mut image = empty.relaid(alloc, MOST_ROWS, first, &mut decodes)?;
    image.append(alloc, MOST_ROWS, further, &mut decodes)?;
    let Some(mut keys) = cell_keys(alloc, &image, choice, &mut decodes)? else {
        return Ok(None);
    };
    put_others(alloc, &image, choice, &mut keys)?;
    Ok(Some(keys))
}
