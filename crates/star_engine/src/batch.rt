// The rows that a CSV text or an INSERT adds to a table.
ghost use Rattle.std.specs.Prelude.{◌≤◌, IsTrue, IfOk, length};
ghost use Rattle.std.specs.List.{list_all};
ghost use Rattle.blink_base.specs.RowFits.{fits};
ghost use Rattle.star_engine.specs.Causes.{IsAnswer};
ghost use Rattle.star_engine.specs.LoadedRows.{loaded, batch_in, IsGood};

use crate::EngineError;
use crate::inserted_rows::written_rows;
use blink_base::{List, Row, Schema};
use blink_loader::load;
use star_sql::Literal;
use std::alloc::Global;

// Where rows come from: a CSV text, one that is given up when its rows are read, or an INSERT.
#[derive(Drop)]
pub(crate) enum Source<'a> {
    Text(&'a [u8]),
    Taken(Vec<u8>),
    Written(&'a List<List<Literal>>),
}

// The rows of a CSV text.
fn loaded_rows(alloc: Global, schema: &Schema, bytes: &[u8]) -> Result<List<Row>, EngineError>
    requires { length schema.now.columns ≤ 4294967295 }
    ensures rows { IsAnswer result (loaded bytes.now schema.now) }
    ensures fit { IfOk result (λ rows. IsTrue (list_all (fits schema.now) rows)) }
{
    Ok(load(alloc, schema, bytes)?)
}

// The rows of a source for a table of this schema.
pub(crate) fn rows_from(
    alloc: Global,
    schema: &Schema,
    source: Source<'_>,
) -> Result<List<Row>, EngineError>
    requires columns { length schema.now.columns ≤ 4294967295 }
    requires good { IsGood source }
    ensures rows { IsAnswer result (batch_in source.entry schema.now) }
    ensures fit { IfOk result (λ rows. IsTrue (list_all (fits schema.now) rows)) }
{
    match source {
        Source::Text(bytes) => loaded_rows(alloc, schema, bytes),
        Source::Taken(bytes) => loaded_rows(alloc, schema, bytes.as_slice()),
        Source::Written(rows) => written_rows(alloc, schema, rows.as_slice()),
    }
}
