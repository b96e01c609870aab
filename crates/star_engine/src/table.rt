// A table of the engine, and the rows that are added to it.
ghost use Rattle.std.specs.Prelude.{◌≡◌, ◌<◌, ◌≤◌, ◌++◌, IsTrue, OnOk, OnErr, None, length, position, slice_index_or as get_or, slice_set};
ghost use Rattle.std.specs.List.{list_all, remove};
ghost use Rattle.std.specs.Str.{bytes_eq};
ghost use Rattle.blink_base.specs.RowFits.{fits};
ghost use Rattle.cell_layout.specs.Refusals.{refusal_of, IsRefusal};
ghost use Rattle.cell_layout.specs.Valid.{is_valid};
ghost use Rattle.blink_lists.specs.declared.limits.TheConstants.{MOST_ROWS};
ghost use Rattle.star_engine.specs.AddRows.{IsAdded, IsAddedAt};

use crate::Growth;
use blink_base::{List, Row, Word};
use cell_layout::{Image, LayoutError};
use std::alloc::Global;
use word_pool::{Ledger, Steps};

/// A table: its name, and the image of its rows. Source: ISO/IEC 9075 (tables); the image is this project's own.
#[derive(Drop)]
pub struct Table<M: Ledger> {
    /// Its name, in lower case.
    pub name: Word,
    /// Its columns and rows.
    pub image: Image<M>,
}

// The place of the first table of this name.
pub(crate) fn place_of<M: Ledger>(tables: &[Table<M>], name: &str) -> Option<usize>
    ensures { result ≡ position (λ table. bytes_eq name.now table.name) tables.now }
{
    tables.iter().position(|table| name == table.name.as_str())
}

// Adds a batch to a table: all laid out anew, or the batch added to the standing layout.
fn add<M: Ledger>(
    alloc: Global,
    table: &mut Table<M>,
    growth: Growth,
    limit: u64,
    batch: &List<Row>,
    decodes: &mut Steps<M>,
) -> Result<(), LayoutError>
    requires valid { IsTrue (is_valid table.old.image) }
    requires limit { limit ≤ MOST_ROWS }
    requires fit { IsTrue (list_all (fits table.old.image.schema) batch.now) }
    ensures added { OnOk result (IsAdded growth table.old table.new batch.now) }
    ensures refused { IsRefusal result (refusal_of limit table.old.image batch.now) }
    ensures kept { OnErr result (table.new ≡ table.old) }
    ensures decodes { growth ≡ Growth.Standing → table.old.image.schema.key ≡ None → decodes.new ≡ decodes.old }
{
    match growth {
        Growth::Anew => {
            table.image = table.image.relaid(alloc, limit, batch, decodes)?;
            Ok(())
        }
        Growth::Standing => table.image.append(alloc, limit, batch, decodes),
    }
}

// Adds a batch to the table at a place.
pub(crate) fn add_at<M: Ledger>(
    alloc: Global,
    tables: &mut List<Table<M>>,
    at: usize,
    growth: Growth,
    limit: u64,
    batch: &List<Row>,
    decodes: &mut Steps<M>,
) -> Result<(), LayoutError>
    requires within { at < length tables.old }
    requires valid { (d : Table M) → IsTrue (is_valid (get_or tables.old at d).image) }
    requires limit { limit ≤ MOST_ROWS }
    requires fit { (d : Table M) → IsTrue (list_all (fits (get_or tables.old at d).image.schema) batch.now) }
    ensures added { OnOk result ((d : Table M) → IsAddedAt growth tables.old tables.new at batch.now d) }
    ensures refused { (d : Table M) → IsRefusal result (refusal_of limit (get_or tables.old at d).image batch.now) }
    ensures kept { OnErr result (tables.new ≡ tables.old) }
    ensures decodes { growth ≡ Growth.Standing → ((d : Table M) → (get_or tables.old at d).image.schema.key ≡ None) → decodes.new ≡ decodes.old }
{
    match tables.get_mut(at) {
        Some(table) => add(alloc, table, growth, limit, batch, decodes),
        None => unreachable!(),
    }
}

// Takes the table at a place out.
pub(crate) fn remove_at<M: Ledger>(alloc: Global, tables: &mut List<Table<M>>, at: usize)
    requires { at < length tables.old }
    ensures { tables.new ≡ remove tables.old at }
{
    let mut left = std::mem::replace(tables, List::new(alloc)).into_vec();
    left.remove(at);
    *tables = List::from_vec(left);
}
