// Values of the rows of a cell.
ghost use Rattle.std.specs.Prelude.{◌≡◌, ◌<◌, ◌≤◌, ◌+◌, pos, IfOk, IsTrue, All, length, map, slice_index_or};
ghost use Rattle.blink_base.specs.declared.value.Value.TheVariants.{Int};
ghost use Rattle.cell_layout.specs.Image.{cell_at};
ghost use Rattle.cell_layout.specs.Valid.{is_valid};
ghost use Rattle.dim_filter.specs.Entries.{cell_row};

use blink_base::{List, Row, Value};
use cell_layout::Image;
use std::alloc::{AllocError, Global};
use word_pool::{Ledger, Steps};

// The value of a row of a cell in a column.
pub(crate) fn row_value<M: Ledger>(
    alloc: Global,
    image: &Image<M>,
    cell: usize,
    row: u64,
    column: u32,
    decodes: &mut Steps<M>,
) -> Result<Value, AllocError>
    requires valid { IsTrue (is_valid image.now) }
    requires cell { cell < length image.now.cells }
    requires row { row < length (cell_at image.now cell).rows }
    requires column { column < length image.now.columns }
    ensures value { IfOk result (λ value. value ≡ slice_index_or (cell_row image.now cell row) column (Int (pos 0))) }
    ensures decodes { decodes.new ≡ decodes.old + 1 }
{
    let column = column as usize;
    let class = image.cell_classes(cell)[column];
    let code = image.code(cell, row, column);
    let dict = &image.dictionaries()[column];
    dict.decode(class, code, decodes).copy(alloc)
}

// The values of a row of a cell in these columns.
pub(crate) fn row_values<M: Ledger>(
    alloc: Global,
    image: &Image<M>,
    cell: usize,
    row: u64,
    columns: &[u32],
    decodes: &mut Steps<M>,
) -> Result<Row, AllocError>
    requires valid { IsTrue (is_valid image.now) }
    requires cell { cell < length image.now.cells }
    requires row { row < length (cell_at image.now cell).rows }
    requires columns { All (λ column. column < length image.now.columns) columns.now }
    ensures values { IfOk result (λ values. values ≡ map (λ column. slice_index_or (cell_row image.now cell row) column (Int (pos 0))) columns.now) }
    ensures decodes { decodes.new ≤ decodes.old + length columns.now }
{
    let mut values = Vec::with_capacity(alloc, columns.len())?;
    for column in columns {
        values.push(row_value(alloc, image, cell, row, *column, decodes)?)?;
    }
    Ok(List::from_vec(values))
}
