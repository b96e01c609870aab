// The rows that an INSERT writes.
ghost use Rattle.std.specs.Prelude.{◌≡◌, ◌≢◌, ◌≤◌, ◌<◌, ◌+◌, ◌^◌, Err, IsTrue, IfOk, IfSome, length, pos, nat_lt};
ghost use Rattle.std.specs.List.{list_all, zip};
ghost use Rattle.blink_base.specs.Values.{Row as Values};
ghost use Rattle.blink_base.specs.RowFits.{fits, is_entry};
ghost use Rattle.star_sql.specs.WellFormed.{is_literal, some_and_all};
ghost use Rattle.star_engine.specs.Causes.{IsAnswer};
ghost use Rattle.star_engine.specs.LoadedRows.{are_written};
ghost use Rattle.star_engine.specs.InsertedRows.{written_values, written_row, written_from};

use crate::EngineError;
use blink_base::{Column, List, Refusal, Row, Schema};
use star_bind::literal_value;
use star_sql::Literal;
use std::alloc::Global;

// The values of the literals of the row of this number, which are as many as the columns.
fn values_of(
    alloc: Global,
    columns: &[Column],
    at: u64,
    literals: &[Literal],
) -> Result<Row, EngineError>
    requires columns { length columns.now < 2 ^ 32 }
    requires fields { length literals.now ≡ length columns.now }
    requires good { IsTrue (list_all is_literal literals.now) }
    ensures row { IsAnswer result (written_values at 1 (zip columns.now literals.now)) }
    ensures long { IfOk result (λ row. length row ≡ length columns.now) }
    ensures entries { IfOk result (λ row. IsTrue (list_all (λ p. is_entry p.0.kind p.1) (zip columns.now row))) }
{
    let mut values = Vec::with_capacity(alloc, columns.len())?;
    for (place, column) in columns.iter().enumerate() {
        match literal_value(alloc, column.kind, &literals[place])? {
            Some(value) => {
                let Ok(()) = values.push(value) else {
                    return Err(EngineError::Memory);
                };
            }
            None => {
                let field = place as u32 + 1;
                return Err(EngineError::Refused(Refusal::BadValue { at, field }));
            }
        }
    }
    Ok(List::from_vec(values))
}

// The row of this number.
fn written_row(
    alloc: Global,
    schema: &Schema,
    at: u64,
    literals: &[Literal],
) -> Result<Row, EngineError>
    requires columns { length schema.now.columns < 2 ^ 32 }
    requires good { IsTrue (list_all is_literal literals.now) }
    ensures row { IsAnswer result (written_row schema.now.columns at literals.now) }
    ensures fit { IfOk result (λ row. IsTrue (fits schema.now row)) }
{
    if literals.len() != schema.columns.len() {
        return Err(EngineError::Refused(Refusal::Arity { at }));
    }
    values_of(alloc, schema.columns.as_slice(), at, literals)
}

// The rows that an INSERT writes into a table of this schema.
pub(crate) fn written_rows(
    alloc: Global,
    schema: &Schema,
    written: &[List<Literal>],
) -> Result<List<Row>, EngineError>
    requires columns { length schema.now.columns < 2 ^ 32 }
    requires good { IsTrue (list_all (some_and_all is_literal) written.now) }
    ensures rows { IsAnswer result (written_from schema.now.columns 1 written.now) }
    ensures fit { IfOk result (λ rows. IsTrue (list_all (fits schema.now) rows)) }
{
    let mut rows = Vec::with_capacity(alloc, written.len())?;
    for (place, literals) in written.iter().enumerate() {
        let row = written_row(alloc, schema, place as u64 + 1, literals.as_slice())?;
        let Ok(()) = rows.push(row) else {
            return Err(EngineError::Memory);
        };
    }
    Ok(List::from_vec(rows))
}
