// How many records of a text have a column within bounds.
ghost use Rattle.std.specs.Prelude.{◌≡◌, ◌≢◌, ◌≤◌, ◌<◌, ◌^◌, Err, length, option_map};
ghost use Rattle.csv.specs.Records.{fields_of};
ghost use Rattle.blink_base.specs.ReadValue.{whole_number};
ghost use Rattle.blink_loader.specs.RangeCount.{range_of, range_over, count_below, told_fault, told_range, record_fault, bad_field, width_of, is_counted, column_place};
ghost use Rattle.blink_base.specs.declared.limits.TheConstants.{LONGEST_INPUT};

use crate::records::{Records, field_of, same_name};
use blink_base::whole_number;
use csv::ByteRecord;
use std::alloc::Global;
use thiserror::Error;

/// Why there is no count. Source: this project's own.
#[derive(Clone, Copy, Debug, PartialEq, Eq, Error)]
pub enum RangeFault {
    /// The header lacks the column, or there is no header.
    #[error("the header lacks the column")]
    UnknownColumn,
    /// A record has another number of fields than the header.
    #[error("record {at} has another number of fields than the header")]
    Arity {
        /// The number of the record, counted from 1 behind the header.
        at: u64,
    },
    /// A field says no whole number.
    #[error("field {field} of record {at} is no whole number")]
    BadValue {
        /// The number of the record, counted from 1 behind the header.
        at: u64,
        /// The number of the field in its record, counted from 1.
        field: u32,
    },
    /// There was not enough memory.
    #[error("not enough memory")]
    Memory,
}

// The place of a column in a header.
fn column_place(header: &ByteRecord, column: &str) -> Option<usize>
    ensures { result ≡ column_place column.now (fields_of header.now) }
{
    for at in 0..header.len() {
        if same_name(column, field_of(header, at)) {
            return Some(at);
        }
    }
    None
}

// The first field of a record that says no whole number, counted from 1.
fn bad_field(row: &ByteRecord) -> Option<u32>
    requires { length (fields_of row.now) < 2 ^ 32 }
    ensures { result ≡ bad_field (fields_of row.now) }
{
    for at in 0..row.len() {
        if whole_number(field_of(row, at)).is_none() {
            return Some(at as u32 + 1);
        }
    }
    None
}

// The fault of the record of this number below a header of this length, where it has one.
fn record_fault(width: usize, at: u64, row: &ByteRecord) -> Option<RangeFault>
    requires { width < 2 ^ 32 }
    ensures { result ≡ option_map told_fault (record_fault width at (fields_of row.now)) }
{
    if row.len() != width {
        return Some(RangeFault::Arity { at });
    }
    let field = bad_field(row)?;
    Some(RangeFault::BadValue { at, field })
}

// Whether the field of a column lies within the bounds.
fn is_counted(column: usize, low: i64, high: i64, row: &ByteRecord) -> bool
    ensures { result ≡ is_counted column low high (fields_of row.now) }
{
    match whole_number(field_of(row, column)) {
        Some(number) => low <= number && number <= high,
        None => false,
    }
}

// The count over the records that are left below a header of this length, each read into `row`.
fn count_below(
    rows: &mut Records<'_>,
    row: &mut ByteRecord,
    width: usize,
    column: usize,
    low: i64,
    high: i64,
) -> Result<u64, RangeFault>
    requires width { width < 2 ^ 32 }
    requires rows { length rows.old < 2 ^ 64 }
    ensures { result ≢ Err RangeFault.Memory → result ≡ told_range (count_below width column low high rows.old) }
{
    let mut count = 0u64;
    let mut at = 0u64;
    loop {
        let Ok(found) = rows.next(row) else {
            return Err(RangeFault::Memory);
        };
        if !found {
            return Ok(count);
        }
        at += 1;
        if let Some(fault) = record_fault(width, at, row) {
            return Err(fault);
        }
        if is_counted(column, low, high, row) {
            count += 1;
        }
    }
}

// The count over the records that are left, the first of them the header, each read into `row`.
fn range_over(
    rows: &mut Records<'_>,
    row: &mut ByteRecord,
    column: &str,
    low: i64,
    high: i64,
) -> Result<u64, RangeFault>
    requires width { width_of rows.old < 2 ^ 32 }
    requires rows { length rows.old < 2 ^ 64 }
    ensures { result ≢ Err RangeFault.Memory → result ≡ told_range (range_over rows.old column.now low high) }
{
    let Ok(found) = rows.next(row) else {
        return Err(RangeFault::Memory);
    };
    if !found {
        return Err(RangeFault::UnknownColumn);
    }
    let Some(at) = column_place(row, column) else {
        return Err(RangeFault::UnknownColumn);
    };
    let width = row.len();
    count_below(rows, row, width, at, low, high)
}

/// How many records of a CSV text of at most 67,108,864 bytes have `low <= COLUMN <= high`, where every column is of whole
/// numbers.
///
/// The first record is the header; the column is the first of its fields that equals `column`, the case of ASCII letters
/// apart. [`RangeFault::UnknownColumn`] comes exactly where there is none. Else the first record at fault decides:
/// [`RangeFault::Arity`] where it has another number of fields than the header, and else [`RangeFault::BadValue`] at the
/// first of its fields that says no whole number. [`RangeFault::Memory`] comes where there isn't enough memory. Bounds in
/// the wrong order give 0.
///
/// The records are those that the crate `csv` reads (RFC 4180); one is held at a time. The faults are this project's own.
pub fn range_count(
    alloc: Global,
    bytes: &[u8],
    column: &str,
    low: i64,
    high: i64,
) -> Result<u64, RangeFault>
    requires { length bytes.now ≤ LONGEST_INPUT }
    ensures { result ≢ Err RangeFault.Memory → result ≡ told_range (range_of bytes.now column.now low high) }
{
    let mut rows = Records::new(alloc, bytes);
    let mut row = ByteRecord::new(alloc);
    range_over(&mut rows, &mut row, column, low, high)
}
