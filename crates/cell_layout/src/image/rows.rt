// The rows of an image.
ghost use Rattle.std.specs.Prelude.{◌≡◌, ◌<◌, ◌≤◌, ◌+◌, ◌++◌, IfOk, OnOk, Some, [], length, slice_get, slice_index_or as get_or};
ghost use Rattle.cell_layout.specs.Image.{rows_of, row_count, cell_at, decoded_row};
ghost use Rattle.cell_layout.specs.CellRepr.{IsCellRepr, row_of_codes, rows_in};

use crate::{Cell, Image};
use blink_base::{List, Row};
use order_codes::Dict;
use std::alloc::{AllocError, Global};
use word_pool::{Ledger, Steps};

impl<M: Ledger> Image<M> {
    /// The code of a row of a cell in a column. It takes no memory.
    pub fn code(&self, cell: usize, row: u64, column: usize) -> u32
        requires cell { cell < length self.now.cells }
        requires row { row < length (cell_at self.now cell).rows }
        requires column { column < length self.now.columns }
        ensures { result ≡ get_or (get_or (cell_at self.now cell).rows row []) column 0 }
    {
        self.cells.as_slice()[cell].code(row, column)
    }

    /// A row by its number: the rows of the cells in order, then those that are in no cell.
    pub fn row(&self, alloc: Global, number: u64, decodes: &mut Steps<M>) -> Result<Row, AllocError>
        requires { number < row_count self.now }
        ensures row { IfOk result (λ row. slice_get (rows_of self.now) number ≡ Some row) }
        // At most as many values are decoded as there are columns.
        ensures decodes { decodes.new ≤ decodes.old + length self.now.columns }
    {
        let mut left = number;
        for cell in self.cells.as_slice() {
            if left < cell.rows {
                return decoded(alloc, self.dicts.as_slice(), cell, left, decodes);
            }
            left -= cell.rows;
        }
        self.rest.as_slice()[left as usize].copy(alloc)
    }

    // All rows: those of the cells in order, then those that are in no cell.
    pub(crate) fn all_rows(
        &self,
        alloc: Global,
        decodes: &mut Steps<M>,
    ) -> Result<Vec<Row>, AllocError>
        ensures { IfOk result (λ rows. rows.items ≡ rows_of self.now) }
    {
        let mut rows = Vec::with_capacity(alloc, self.rows as usize)?;
        for cell in self.cells.as_slice() {
            push_rows(alloc, self.dicts.as_slice(), cell, &mut rows, decodes)?;
        }
        push_copies(alloc, self.rest.as_slice(), &mut rows)?;
        Ok(rows)
    }
}

// Puts the rows of a cell behind others.
fn push_rows<M: Ledger>(
    alloc: Global,
    dicts: &[Dict<M>],
    cell: &Cell,
    rows: &mut Vec<Row>,
    decodes: &mut Steps<M>,
) -> Result<(), AllocError>
    requires { IsCellRepr dicts.now cell.now }
    ensures { OnOk result (rows.new.items ≡ rows.old.items ++ rows_in dicts.now cell.now) }
{
    for row in 0..cell.rows {
        rows.push(decoded(alloc, dicts, cell, row, decodes)?)?;
    }
    Ok(())
}

// Puts copies of rows behind others.
fn push_copies(alloc: Global, more: &[Row], rows: &mut Vec<Row>) -> Result<(), AllocError>
    ensures { OnOk result (rows.new.items ≡ rows.old.items ++ more.now) }
{
    for row in more {
        rows.push(row.copy(alloc)?)?;
    }
    Ok(())
}

// A row of a cell.
fn decoded<M: Ledger>(
    alloc: Global,
    dicts: &[Dict<M>],
    cell: &Cell,
    row: u64,
    decodes: &mut Steps<M>,
) -> Result<Row, AllocError>
    requires repr { IsCellRepr dicts.now cell.now }
    requires row { row < cell.now.rows }
    ensures row { IfOk result (λ values. values ≡ decoded_row dicts.now cell.now.classes (row_of_codes cell.now.codes row)) }
    ensures decodes { decodes.new ≤ decodes.old + length dicts.now }
{
    let mut values = Vec::with_capacity(alloc, dicts.len())?;
    for column in 0..dicts.len() {
        let class = cell.classes.as_slice()[column];
        let value = dicts[column].decode(class, cell.code(row, column), decodes);
        values.push(value.copy(alloc)?)?;
    }
    Ok(List::from_vec(values))
}
