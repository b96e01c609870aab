// The values of a column.
ghost use Rattle.std.specs.Prelude.{◌≡◌, ◌<◌, ◌≤◌, ◌+◌, ◌++◌, ◌∷◌, [], All, IfOk, OnOk, List as Listed, length};
ghost use Rattle.blink_base.specs.declared.value.Value.{Value as Held};
ghost use Rattle.blink_histogram.specs.Ranks.{counted};
ghost use Rattle.blink_histogram.specs.InternerRepr.{numbered_values};
ghost use Rattle.column_classes.specs.ColumnClasses.{column_values};
ghost use Rattle.column_classes.specs.ColumnStats.{AreColumns, AreColumnsTo};
ghost use Rattle.blink_base.specs.Values.{Row as Values};
ghost use Rattle.blink_lists.specs.declared.limits.TheConstants.{MOST_ROWS};

use blink_base::{Row, Value};
use blink_histogram::{Digest, Interner, NumberedColumn};
use std::alloc::{AllocError, Global};

// The columns of held rows and a batch behind them, by one walk over the rows, since they lie apart in memory. The digest is
// of all values that may come.
pub(crate) fn numbered(
    alloc: Global,
    held: &[Row],
    batch: &[Row],
    columns: usize,
    values: Digest,
) -> Result<Vec<NumberedColumn>, AllocError>
    requires held { All (λ row. columns ≤ length row) held.now }
    requires batch { All (λ row. columns ≤ length row) batch.now }
    requires few { length held.now + length batch.now ≤ MOST_ROWS }
    ensures { IfOk result (λ all. AreColumns (held.now ++ batch.now) columns all.items) }
{
    let mut all = columns_of(alloc, columns, values, held.len() + batch.len())?;
    number_rows(&mut all, held)?;
    number_rows(&mut all, batch)?;
    Ok(all)
}

// So many columns without values, with room for so many rows.
fn columns_of(
    alloc: Global,
    columns: usize,
    values: Digest,
    rows: usize,
) -> Result<Vec<NumberedColumn>, AllocError>
    ensures { IfOk result (λ all. AreColumns [] columns all.items) }
{
    let mut all = Vec::with_capacity(alloc, columns)?;
    for _column in 0..columns {
        all.push(NumberedColumn::keyed(alloc, values, rows)?)?;
    }
    Ok(all)
}

// Puts the values of further rows behind those of their columns.
fn number_rows(columns: &mut [NumberedColumn], rows: &[Row]) -> Result<(), AllocError>
    requires within { All (λ row. length columns.old ≤ length row) rows.now }
    requires few { (before : Listed Values) × (length before + length rows.now ≤ MOST_ROWS) × AreColumns before (length columns.old) columns.old }
    ensures { OnOk result ((before : Listed Values) → AreColumns before (length columns.old) columns.old → AreColumns (before ++ rows.now) (length columns.old) columns.new) }
{
    for row in rows {
        number_row(columns, row.as_slice())?;
    }
    Ok(())
}

// Puts the values of one more row behind those of their columns.
fn number_row(columns: &mut [NumberedColumn], row: &[Value]) -> Result<(), AllocError>
    requires within { length columns.old ≤ length row.now }
    requires few { (before : Listed Values) × (length before < MOST_ROWS) × AreColumns before (length columns.old) columns.old }
    ensures { OnOk result ((before : Listed Values) → AreColumns before (length columns.old) columns.old → AreColumns (before ++ row.now ∷ []) (length columns.old) columns.new) }
{
    for column in 0..columns.len() {
        number_value(columns, row, column)?;
    }
    Ok(())
}

// Puts the value of one more row behind those of a column; those of the columns before it are put.
fn number_value(
    columns: &mut [NumberedColumn],
    row: &[Value],
    column: usize,
) -> Result<(), AllocError>
    requires column { column < length columns.old }
    requires within { column < length row.now }
    requires few { (before : Listed Values) × (length before < MOST_ROWS) × AreColumnsTo column before row.now columns.old }
    ensures { OnOk result ((before : Listed Values) → AreColumnsTo column before row.now columns.old → AreColumnsTo (column + 1) before row.now columns.new) }
{
    columns[column].push(&row[column])?;
    Ok(())
}

// Adds all values of rows to a digest: one walk for all columns, since rows lie apart in memory.
pub(crate) fn digest_rows(digest: &mut Digest, rows: &[Row]) {
    for row in rows {
        digest_row(digest, row.as_slice());
    }
}

// Adds the values of a row to a digest.
fn digest_row(digest: &mut Digest, row: &[Value]) {
    for value in row {
        digest.add(value);
    }
}

/// Adds the values of a column of further rows to a digest. Every row has the column. It takes no memory. Source: this
/// project's own.
pub fn digest_column(digest: &mut Digest, rows: &[Row], column: usize)
    requires { All (λ row. column < length row) rows.now }
{
    for row in rows {
        digest.add(&row.as_slice()[column]);
    }
}

/// Numbers the values of a column of further rows. Every row has the column, and the rows that are numbered are at most
/// 8,388,608 in all. Source: this project's own.
pub fn number_column(interner: &mut Interner, rows: &[Row], column: usize) -> Result<(), AllocError>
    requires within { All (λ row. column < length row) rows.now }
    requires few { numbered_values interner.old + length rows.now ≤ MOST_ROWS }
    ensures values { OnOk result ((before : Listed Held) → interner.old ≡ counted before → interner.new ≡ counted (before ++ column_values rows.now column)) }
    ensures number { OnOk result (numbered_values interner.new ≡ numbered_values interner.old + length rows.now) }
{
    for row in rows {
        interner.number(&row.as_slice()[column])?;
    }
    Ok(())
}
