// The rows of a text for a table.
ghost use Rattle.std.specs.Prelude.{◌≡◌, ◌≢◌, ◌≤◌, ◌<◌, ◌+◌, ◌^◌, Err, IfOk, IsTrue, length};
ghost use Rattle.std.specs.List.{list_all, zip};
ghost use Rattle.csv.specs.Records.{fields_of};
ghost use Rattle.blink_base.specs.RowFits.{fits, is_entry};
ghost use Rattle.blink_loader.specs.Records.{same_name};
ghost use Rattle.blink_loader.specs.Batch.{value_of, values_from, row_of, rows_from, is_header, batch_over, batch};

use crate::records::{Records, field_of, same_name};
use blink_base::{Column, List, Row, Schema, Value, ValueFault};
use csv::ByteRecord;
use std::alloc::Global;
use thiserror::Error;

/// Why a CSV text gives no rows. Source: this project's own.
#[derive(Clone, Copy, Debug, PartialEq, Eq, Error)]
pub enum LoadFault {
    /// The first record isn't the names of the schema's columns in order, the case of ASCII letters apart.
    #[error("the header has other names than the table")]
    Header,
    /// A record has another number of fields than the schema has columns.
    #[error("record {at} has another number of fields than the table has columns")]
    Arity {
        /// The number of the record, counted from 1 behind the header.
        at: u64,
    },
    /// A field says no value of its column's kind.
    #[error("field {field} of record {at}: {fault}")]
    BadValue {
        /// The number of the record, counted from 1 behind the header.
        at: u64,
        /// The number of the field in its record, counted from 1.
        field: u32,
        /// The first form of the kind that the field breaks.
        fault: ValueFault,
    },
    /// There was not enough memory.
    #[error("not enough memory")]
    Memory,
}

// Whether each field is the name of the column of its place.
fn are_names(columns: &[Column], header: &ByteRecord) -> bool
    requires { length (fields_of header.now) ≡ length columns.now }
    ensures { result ≡ list_all (λ p. same_name p.0.name p.1) (zip columns.now (fields_of header.now)) }
{
    for (place, column) in columns.iter().enumerate() {
        if !same_name(column.name.as_str(), field_of(header, place)) {
            return false;
        }
    }
    true
}

fn is_header(columns: &[Column], header: &ByteRecord) -> bool
    ensures { result ≡ is_header columns.now (fields_of header.now) }
{
    header.len() == columns.len() && are_names(columns, header)
}

// The refusal of a fault in the field of this number in the record of this number.
fn fault_of(at: u64, field: u32, fault: ValueFault) -> LoadFault
    ensures told { result ≢ LoadFault.Memory → Err result ≡ value_of at field (Err fault) }
    ensures memory { result ≢ LoadFault.Memory → fault ≢ ValueFault.Memory }
{
    match fault {
        ValueFault::Memory => LoadFault::Memory,
        fault => LoadFault::BadValue { at, field, fault },
    }
}

// The values of the fields of the record of this number, which are as many as the columns.
fn values_of(
    alloc: Global,
    columns: &[Column],
    at: u64,
    fields: &ByteRecord,
) -> Result<Row, LoadFault>
    requires columns { length columns.now < 2 ^ 32 }
    requires fields { length (fields_of fields.now) ≡ length columns.now }
    ensures row { result ≢ Err LoadFault.Memory → result ≡ values_from at 1 (zip columns.now (fields_of fields.now)) }
    ensures long { IfOk result (λ row. length row ≡ length columns.now) }
    ensures entries { IfOk result (λ row. IsTrue (list_all (λ p. is_entry p.0.kind p.1) (zip columns.now row))) }
{
    let Ok(mut values) = Vec::with_capacity(alloc, columns.len()) else {
        return Err(LoadFault::Memory);
    };
    for (place, column) in columns.iter().enumerate() {
        let bytes = field_of(fields, place);
        match Value::read(alloc, column.kind, bytes) {
            Ok(value) => values.push_reserved(value),
            Err(fault) => return Err(fault_of(at, place as u32 + 1, fault)),
        }
    }
    Ok(List::from_vec(values))
}

// The row of the record of this number.
fn row_of(alloc: Global, schema: &Schema, at: u64, fields: &ByteRecord) -> Result<Row, LoadFault>
    requires { length schema.now.columns < 2 ^ 32 }
    ensures row { result ≢ Err LoadFault.Memory → result ≡ row_of schema.now.columns at (fields_of fields.now) }
    ensures fit { IfOk result (λ row. IsTrue (fits schema.now row)) }
{
    if fields.len() != schema.columns.len() {
        return Err(LoadFault::Arity { at });
    }
    values_of(alloc, schema.columns.as_slice(), at, fields)
}

// The rows of the records that are left, counted from 1, each read into `record`.
fn rows_of(
    alloc: Global,
    schema: &Schema,
    records: &mut Records<'_>,
    record: &mut ByteRecord,
) -> Result<List<Row>, LoadFault>
    requires columns { length schema.now.columns < 2 ^ 32 }
    requires records { length records.old + 1 < 2 ^ 64 }
    ensures rows { result ≢ Err LoadFault.Memory → result ≡ rows_from schema.now.columns 1 records.old }
    ensures fit { IfOk result (λ rows. IsTrue (list_all (fits schema.now) rows)) }
{
    let mut rows = List::new(alloc);
    let mut at = 1u64;
    loop {
        let Ok(found) = records.next(record) else {
            return Err(LoadFault::Memory);
        };
        if !found {
            return Ok(rows);
        }
        let row = row_of(alloc, schema, at, record)?;
        let Ok(()) = rows.push(row) else {
            return Err(LoadFault::Memory);
        };
        at += 1;
    }
}

// The rows of the records that are left, the first of them the header.
fn batch_over(
    alloc: Global,
    schema: &Schema,
    records: &mut Records<'_>,
) -> Result<List<Row>, LoadFault>
    requires columns { length schema.now.columns < 2 ^ 32 }
    requires records { length records.old + 1 < 2 ^ 64 }
    ensures rows { result ≢ Err LoadFault.Memory → result ≡ batch_over schema.now.columns records.old }
    ensures fit { IfOk result (λ rows. IsTrue (list_all (fits schema.now) rows)) }
{
    let mut record = ByteRecord::new(alloc);
    let Ok(found) = records.next(&mut record) else {
        return Err(LoadFault::Memory);
    };
    if !found {
        return Ok(List::new(alloc));
    }
    if !is_header(schema.columns.as_slice(), &record) {
        return Err(LoadFault::Header);
    }
    rows_of(alloc, schema, records, &mut record)
}

/// The rows of a CSV text for a table of at most 4,294,967,295 columns.
///
/// The first record is the header, and each further one is a row, in the order of the text. A field is read as
/// [`Value::read`] reads it for the kind of its column. A text without a record has no rows. Each row that is read fits
/// the schema.
///
/// [`LoadFault::Header`] comes exactly where there is a first record and it isn't the names of the columns in order, the
/// case of ASCII letters apart. Else the first record at fault decides: [`LoadFault::Arity`] where it has another number
/// of fields than there are columns, and else [`LoadFault::BadValue`] at the first of its fields that says no value of
/// its column's kind, with the fault that [`Value::read`] gives. [`LoadFault::Memory`] comes where there isn't enough
/// memory.
///
/// The records are those that the crate `csv` reads (RFC 4180); one is held at a time. The header and the faults are this
/// project's own.
pub fn load(alloc: Global, schema: &Schema, bytes: &[u8]) -> Result<List<Row>, LoadFault>
    requires { length schema.now.columns ≤ 4294967295 }
    ensures batch { result ≢ Err LoadFault.Memory → result ≡ batch schema.now bytes.now }
    ensures fit { IfOk result (λ rows. IsTrue (list_all (fits schema.now) rows)) }
{
    let mut records = Records::new(alloc, bytes);
    batch_over(alloc, schema, &mut records)
}
