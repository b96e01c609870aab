// The cells of a table, in the order of their class numbers: a row is put into its cell, and rows that were placed apart are
// added.
ghost use Rattle.std.specs.Prelude.{◌≡◌, ◌<◌, ◌≤◌, ◌+◌, ◌++◌, ℕ, All, IsTrue, IfOk, OnOk, List as Listed, length, slice_index_or as get_or, ◌≢◌, [], ◌∷◌, OnErr};
ghost use Rattle.blink_base.specs.Values.{Row as Values};
ghost use Rattle.blink_lists.specs.Lists.{rises};
ghost use Rattle.cell_layout.specs.Layout.{cell_cmp};
ghost use Rattle.blink_lists.specs.declared.limits.TheConstants.{MOST_ROWS, MOST_COLUMNS};
ghost use Rattle.cell_layout.specs.CellRepr.{IsCellRepr, most_image_rows};
ghost use Rattle.cell_layout.specs.CellIndex.{AreWithin, keys_of_cells, IsCellIndex};
ghost use Rattle.cell_layout.specs.InsertRowRepr.{IsPushed, IsPut, rows_in_all};
ghost use Rattle.cell_layout.specs.RowPartition.{ArePlaced};
ghost use Rattle.cell_layout.specs.Places.{HavePlaces};
ghost use Rattle.order_codes.specs.Dictionary.{Classes};
ghost use Rattle.cell_layout.specs.MergeCells.{AreBothPlaced, IsSameButRoom, AreAlike, AreMerged, IsMergedIn, IsAbsorbedAt, HaveRoomFor, HasRoomFor, IsRoomier, AreRoomierCells, HaveRoom};

use crate::Cell;
use crate::cell::{absorb, reserve_columns};
use crate::row_codes::RowCodes;
use blink_base::{Roomy, Row};
use column_classes::CodedColumn;
use order_codes::Dict;
use std::alloc::{AllocError, Global};
use word_pool::Ledger;

// Rows in cells, and those that are in none.
#[derive(Drop)]
pub(crate) struct PlacedRows {
    pub(crate) cells: Roomy<Cell>,
    pub(crate) rest: Roomy<Row>,
}

// Places rows in cells of these classes, in the order of their coming, by their values. Rows with a value that no class holds
// are placed in none.
pub(crate) fn place_rows<M: Ledger>(
    alloc: Global,
    dicts: &[Dict<M>],
    rows: &[Row],
) -> Result<PlacedRows, AllocError>
    requires columns { length dicts.now ≤ MOST_COLUMNS }
    requires full { All (λ row. length row ≡ length dicts.now) rows.now }
    requires few { length rows.now ≤ MOST_ROWS }
    ensures { IfOk result (λ placed. ArePlaced dicts.now rows.now placed.cells.0 placed.rest.0) }
{
    let mut placed = PlacedRows {
        cells: Roomy::new(alloc),
        rest: Roomy::new(alloc),
    };
    let mut codes = RowCodes::new(alloc, dicts.len())?;
    for (place, row) in rows.iter().enumerate() {
        if codes.read(dicts, row.as_slice())? {
            let at = put_row(alloc, dicts, &mut placed.cells, &codes)?;
            codes.found(at);
        } else {
            placed.rest.push(row.copy(alloc)?)?;
        }
    }
    Ok(placed)
}

// Places held rows and a batch behind them in cells of these classes, in the order of their coming, by the places that their
// values have: no row is read.
pub(crate) fn place_coded<M: Ledger>(
    alloc: Global,
    dicts: &[Dict<M>],
    places: &[CodedColumn],
    held: &[Row],
    batch: &[Row],
) -> Result<PlacedRows, AllocError>
    requires columns { length dicts.now ≤ MOST_COLUMNS }
    requires full { All (λ row. length row ≡ length dicts.now) (held.now ++ batch.now) }
    requires places { HavePlaces dicts.now places.now (held.now ++ batch.now) }
    requires few { length held.now + length batch.now ≤ MOST_ROWS }
    ensures { IfOk result (λ placed. ArePlaced dicts.now (held.now ++ batch.now) placed.cells.0 placed.rest.0) }
{
    let mut placed = PlacedRows {
        cells: Roomy::new(alloc),
        rest: Roomy::new(alloc),
    };
    let mut codes = RowCodes::new(alloc, dicts.len())?;
    for number in 0..held.len() + batch.len() {
        codes.take(dicts, places, number);
        let at = put_row(alloc, dicts, &mut placed.cells, &codes)?;
        codes.found(at);
    }
    Ok(placed)
}

// Puts a row behind those of its cell, or into a new one, and gives the place of the cell. Where memory is wanting the cells
// are given up.
fn put_row<M: Ledger>(
    alloc: Global,
    dicts: &[Dict<M>],
    cells: &mut Roomy<Cell>,
    row: &RowCodes,
) -> Result<usize, AllocError>
    requires columns { length dicts.now ≤ MOST_COLUMNS }
    requires repr { All (IsCellRepr dicts.now) cells.old.0 }
    requires order { IsTrue (rises cell_cmp (keys_of_cells cells.old.0)) }
    requires few { rows_in_all cells.old.0 < MOST_ROWS }
    requires within { AreWithin dicts.now row.now.classes.items row.now.codes.items (length dicts.now) }
    ensures { OnOk result (IsPut dicts.now cells.old.0 cells.new.0 row.now.classes.items row.now.codes.items) }
{
    match find_cell_near(cells.as_slice(), row.classes.as_slice(), row.hint()) {
        Ok(at) => {
            push_at(cells, at, row.codes.as_slice())?;
            Ok(at)
        }
        Err(at) => {
            let cell = Cell::of(alloc, dicts, row)?;
            cells.reserve(1)?;
            cells.put_at(at, cell);
            Ok(at)
        }
    }
}

// Puts a row behind those of the cell at a place.
fn push_at(cells: &mut Roomy<Cell>, at: usize, codes: &[u32]) -> Result<(), AllocError>
    requires within { at < length cells.old.0 }
    requires few { (d : Cell) → (get_or cells.old.0 at d).rows < most_image_rows }
    requires codes { (d : Cell) → length codes.now ≡ length (get_or cells.old.0 at d).codes }
    ensures { OnOk result (IsPushed cells.old.0 cells.new.0 at codes.now) }
{
    match cells.get_mut(at) {
        Some(cell) => cell.push(codes),
        None => unreachable!(),
    }
}

// The place of the cell of these class numbers, else where it would stand. One place is tried before the others.
fn find_cell_near(cells: &[Cell], classes: &[u32], near: usize) -> Result<usize, usize>
    requires { IsTrue (rises cell_cmp (keys_of_cells cells.now)) }
    ensures { IsCellIndex cells.now classes.now result }
{
    if near < cells.len() && cells[near].classes.as_slice() == classes {
        return Ok(near);
    }
    find_cell(cells, classes)
}

// The place of the cell of these class numbers, else where it would stand.
fn find_cell(cells: &[Cell], classes: &[u32]) -> Result<usize, usize>
    requires { IsTrue (rises cell_cmp (keys_of_cells cells.now)) }
    ensures { IsCellIndex cells.now classes.now result }
{
    cells.binary_search_by(|cell| cell.classes.as_slice().cmp(classes))
}

// Adds rows that were placed apart behind those that stand: all room is got before the first write.
pub(crate) fn add_placed(
    cells: &mut Roomy<Cell>,
    rest: &mut Roomy<Row>,
    more: PlacedRows,
) -> Result<(), AllocError>
    requires { AreBothPlaced cells.old.0 rest.old.0 more.cells.0 more.rest.0 }
    ensures ok { OnOk result ((columns : Listed Classes) (rows batch : Listed Values) → ArePlaced columns rows cells.old.0 rest.old.0 → ArePlaced columns batch more.cells.0 more.rest.0 → ArePlaced columns (rows ++ batch) cells.new.0 rest.new.0) }
    ensures err { OnErr result (IsSameButRoom cells.old.0 rest.old.0 cells.new.0 rest.new.0) }
{
    make_room(cells, rest, &more)?;
    let PlacedRows {
        cells: more_cells,
        rest: more_rest,
    } = more;
    merge(cells, more_cells.into_vec());
    put_rows(rest, more_rest.into_vec());
    Ok(())
}

// Adds the rows of cells behind those with their class numbers, or as new cells. There must be room.
fn merge(cells: &mut Roomy<Cell>, more: Vec<Cell>)
    requires alike { AreAlike cells.old.0 more.items }
    requires order { IsTrue (rises cell_cmp (keys_of_cells cells.old.0)) }
    requires order_more { IsTrue (rises cell_cmp (keys_of_cells more.items)) }
    requires few { rows_in_all cells.old.0 + rows_in_all more.items ≤ MOST_ROWS }
    requires room { HaveRoomFor cells.old.0 more.items }
    requires spare { length more.items ≤ cells.old.1 }
    ensures { AreMerged cells.old.0 more.items cells.new.0 [] }
{
    for cell in more {
        merge_cell(cells, cell);
    }
}

// Adds the rows of a cell behind those with its class numbers, or as a new cell. There must be room.
fn merge_cell(cells: &mut Roomy<Cell>, cell: Cell)
    requires alike { AreAlike cells.old.0 (cell ∷ []) }
    requires order { IsTrue (rises cell_cmp (keys_of_cells cells.old.0)) }
    requires few { rows_in_all cells.old.0 + cell.rows ≤ MOST_ROWS }
    requires room { HasRoomFor cells.old.0 cell.classes cell.rows }
    requires spare { 1 ≤ cells.old.1 }
    ensures merged { IsMergedIn cells.old.0 cells.new.0 cell }
    ensures spare { cells.old.1 ≤ cells.new.1 + 1 }
{
    match find_cell(cells.as_slice(), cell.classes.as_slice()) {
        Ok(at) => absorb_at(cells, at, &cell),
        Err(at) => cells.put_at(at, cell),
    }
}

// Adds the rows of a cell behind those of the cell at a place.
fn absorb_at(cells: &mut Roomy<Cell>, at: usize, more: &Cell)
    requires within { at < length cells.old.0 }
    requires columns { (d : Cell) → length more.now.codes ≡ length (get_or cells.old.0 at d).codes }
    requires room { (d : Cell) (k : ℕ) (e : Listed ℕ × ℕ) → k < length more.now.codes → length (get_or more.now.codes k e).0 ≤ (get_or (get_or cells.old.0 at d).codes k e).1 }
    requires few { (d : Cell) → (get_or cells.old.0 at d).rows + more.now.rows ≤ MOST_ROWS }
    ensures absorbed { IsAbsorbedAt cells.old.0 cells.new.0 at more.now }
    ensures spare { cells.new.1 ≡ cells.old.1 }
{
    match cells.get_mut(at) {
        Some(cell) => absorb(cell, more),
        None => unreachable!(),
    }
}

// Puts rows behind others. It takes no memory.
fn put_rows(rest: &mut Roomy<Row>, more: Vec<Row>)
    requires { length more.items ≤ rest.old.1 }
    ensures { rest.new.0 ≡ rest.old.0 ++ more.items }
{
    for row in more {
        rest.put(row);
    }
}

// Makes room for rows that were placed apart. Whether or not there is memory, cells and rows stay as they were.
fn make_room(
    cells: &mut Roomy<Cell>,
    rest: &mut Roomy<Row>,
    more: &PlacedRows,
) -> Result<(), AllocError>
    requires { IsTrue (rises cell_cmp (keys_of_cells cells.old.0)) }
    ensures same { IsSameButRoom cells.old.0 rest.old.0 cells.new.0 rest.new.0 }
    ensures room { OnOk result (HaveRoomFor cells.new.0 more.now.cells.0) }
    ensures cells { OnOk result (length more.now.cells.0 ≤ cells.new.1) }
    ensures rest { OnOk result (length more.now.rest.0 ≤ rest.new.1) }
{
    reserve_cells(cells, more.cells.as_slice())?;
    cells.reserve(more.cells.len())?;
    rest.reserve(more.rest.len())
}

// Makes room in the cells for the rows of others with their class numbers.
fn reserve_cells(cells: &mut Roomy<Cell>, more: &[Cell]) -> Result<(), AllocError>
    requires { IsTrue (rises cell_cmp (keys_of_cells cells.old.0)) }
    ensures same { AreRoomierCells cells.old.0 cells.new.0 }
    ensures room { OnOk result (HaveRoomFor cells.new.0 more.now) }
{
    for cell in more {
        reserve_for(cells, cell.classes.as_slice(), cell.rows as usize)?;
    }
    Ok(())
}

// Makes room for so many rows in the cell of these class numbers, where it stands.
fn reserve_for(cells: &mut Roomy<Cell>, classes: &[u32], rows: usize) -> Result<(), AllocError>
    requires { IsTrue (rises cell_cmp (keys_of_cells cells.old.0)) }
    ensures same { AreRoomierCells cells.old.0 cells.new.0 }
    ensures room { OnOk result (HasRoomFor cells.new.0 classes.now rows) }
{
    match find_cell(cells.as_slice(), classes) {
        Ok(at) => reserve_at(cells, at, rows),
        Err(_) => Ok(()),
    }
}

// Makes room for so many rows in the cell at a place.
fn reserve_at(cells: &mut Roomy<Cell>, at: usize, rows: usize) -> Result<(), AllocError>
    requires { at < length cells.old.0 }
    ensures count { length cells.new.0 ≡ length cells.old.0 }
    ensures others { (k : ℕ) (d : Cell) → k ≢ at → get_or cells.new.0 k d ≡ get_or cells.old.0 k d }
    ensures here { (d : Cell) → IsRoomier (get_or cells.old.0 at d) (get_or cells.new.0 at d) }
    ensures room { OnOk result ((d : Cell) → HaveRoom (get_or cells.new.0 at d).codes rows) }
{
    match cells.get_mut(at) {
        Some(cell) => reserve_columns(&mut cell.codes, rows),
        None => unreachable!(),
    }
}
