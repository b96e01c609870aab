// Keys that stand before.
ghost use Rattle.std.specs.Prelude.{◌≡◌, ◌<◌, ◌≤◌, ◌+◌, ◌++◌, All, IfSome, List as Listed, length};
ghost use Rattle.std.specs.List.{flat_map, list_any};
ghost use Rattle.blink_base.specs.declared.value.Value.{Value as Held};
ghost use Rattle.blink_base.specs.Values.{same_value};
ghost use Rattle.blink_histogram.specs.Ranks.{counted};
ghost use Rattle.blink_histogram.specs.InternerRepr.{numbered_values};
ghost use Rattle.column_classes.specs.ColumnClasses.{column_values};
ghost use Rattle.cell_layout.specs.CellRepr.{IsCellRepr, all_rows, rows_in};
ghost use Rattle.cell_layout.specs.InsertRowRepr.{rows_in_all};
ghost use Rattle.cell_layout.specs.Refusals.{duplicate_in, duplicate_of, repeated_key, IsRefusal};
ghost use Rattle.blink_lists.specs.declared.limits.TheConstants.{MOST_ROWS};

use crate::{Cell, LayoutError};
use blink_base::{Row, Value};
use blink_histogram::{Digest, Interner};
use column_classes::{digest_column, number_column};
use order_codes::Dict;
use std::alloc::Global;
use word_pool::Ledger;

// Whether each key of a batch is new behind the rows of cells and of rest; else the first row whose key stands before it. A
// key that a class holds is looked for by its code, in the cells of that class, and each among those of rest and of the batch.
pub(crate) fn keys_apart<M: Ledger>(
    alloc: Global,
    key: Option<u32>,
    dicts: &[Dict<M>],
    cells: &[Cell],
    rest: &[Row],
    batch: &[Row],
) -> Result<(), LayoutError>
    requires repr { All (IsCellRepr dicts.now) cells.now }
    requires key { IfSome key (λ k. k < length dicts.now) }
    requires rest { IfSome key (λ k. All (λ row. k < length row) rest.now) }
    requires batch { IfSome key (λ k. All (λ row. k < length row) batch.now) }
    requires few { rows_in_all cells.now + length rest.now + length batch.now ≤ MOST_ROWS }
    ensures { IsRefusal result (duplicate_in key (all_rows dicts.now cells.now rest.now) batch.now) }
{
    let Some(key) = key else { return Ok(()) };
    if batch.is_empty() {
        return Ok(());
    }
    let mut digest = Digest::new();
    digest_column(&mut digest, rest, key as usize);
    digest_column(&mut digest, batch, key as usize);
    let mut keys = Interner::keyed(alloc, digest);
    number_column(&mut keys, rest, key as usize)?;
    new_keys(&mut keys, dicts, cells, batch, key as usize)
}

// Numbers the keys of a batch; the first row whose key is in a cell, or was numbered before, is refused.
fn new_keys<M: Ledger>(
    keys: &mut Interner,
    dicts: &[Dict<M>],
    cells: &[Cell],
    batch: &[Row],
    key: usize,
) -> Result<(), LayoutError>
    requires repr { All (IsCellRepr dicts.now) cells.now }
    requires column { key < length dicts.now }
    requires within { All (λ row. key < length row) batch.now }
    requires few { numbered_values keys.old + length batch.now ≤ MOST_ROWS }
    ensures { (rest : Listed Held) → keys.old ≡ counted rest → IsRefusal result (duplicate_of (repeated_key (column_values (flat_map (rows_in dicts.now) cells.now) key ++ rest) (column_values batch.now key))) }
{
    for row in 0..batch.len() {
        let value = &batch[row].as_slice()[key];
        let held = is_in_cells(dicts, cells, key, value);
        let number = keys.number(value)?;
        if held || keys.count(number) > 1 {
            return Err(LayoutError::DuplicateKey { at: row as u64 + 1 });
        }
    }
    Ok(())
}

// Whether a value stands in a column of cells: only a cell of the value's class can hold it, by its code.
fn is_in_cells<M: Ledger>(dicts: &[Dict<M>], cells: &[Cell], column: usize, value: &Value) -> bool
    requires repr { All (IsCellRepr dicts.now) cells.now }
    requires column { column < length dicts.now }
    ensures { result ≡ list_any (same_value value.now) (column_values (flat_map (rows_in dicts.now) cells.now) column) }
{
    let Some(place) = dicts[column].find(value) else {
        return false;
    };
    for cell in cells {
        if cell.classes.as_slice()[column] == place.class && cell.has_code(column, place.code) {
            return true;
        }
    }
    false
}
