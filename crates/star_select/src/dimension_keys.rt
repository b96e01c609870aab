// The keys of a dimension.
ghost use Rattle.std.specs.Prelude.{◌≡◌, ◌<◌, ◌≤◌, ◌+◌, ◌*◌, [], true, IsTrue, IsSome, IfOk, All, length};
ghost use Rattle.blink_lists.specs.declared.limits.TheConstants.{MOST_ROWS};
ghost use Rattle.cell_layout.specs.Image.{row_count};
ghost use Rattle.cell_layout.specs.Valid.{is_valid};
ghost use Rattle.code_join.specs.Keys.{are_keys};
ghost use Rattle.dim_filter.specs.Entries.{collected, key_column};
ghost use Rattle.star_bind.specs.Joins.{filters_at};
ghost use Rattle.star_bind.specs.QueryShape.{is_condition_on};
ghost use Rattle.star_select.specs.CodeSelection.{image_wanted};

use crate::dimension_cells::collect_cells;
use crate::dimension_rest::collect_all_rest;
use cell_layout::Image;
use code_join::KeyMap;
use code_join::laws::first_keys_are_keys;
use star_bind::{Conjunction, Query};
use std::alloc::{AllocError, Global};
use word_pool::{Ledger, Steps};

// The keys of the rows of a dimension on which its own condition is true, each with its wanted values: of the cells, page by
// page, and then of the rows that are in no cell. `table` is its place in FROM.
pub(crate) fn dimension_keys<M: Ledger>(
    alloc: Global,
    image: &Image<M>,
    query: &Query,
    table: usize,
    wanted: &[u32],
    decodes: &mut Steps<M>,
) -> Result<KeyMap, AllocError>
    requires valid { IsTrue (is_valid image.now) }
    requires few { row_count image.now ≤ MOST_ROWS }
    requires table { table < length query.now.filters }
    requires condition { is_condition_on (length image.now.columns) (filters_at query.now table) ≡ true }
    requires key { IsSome image.now.schema.key }
    requires wanted { All (λ column. column < length image.now.columns) wanted.now }
    requires once { IsTrue (are_keys (collected (key_column image.now) wanted.now [] (image_wanted image.now query.now table))) }
    ensures keys { IfOk result (λ keys. keys ≡ collected (key_column image.now) wanted.now [] (image_wanted image.now query.now table)) }
    ensures decodes { decodes.new ≤ decodes.old + length (image_wanted image.now query.now table) * (1 + length wanted.now) }
{
    first_keys_are_keys();
    let conjunctions = conjunctions_of(query, table);
    let key = match image.schema().key {
        Some(key) => key,
        None => unreachable!(),
    };
    let mut keys = KeyMap::new(alloc);
    collect_cells(alloc, image, conjunctions, wanted, &mut keys, decodes)?;
    collect_all_rest(alloc, image, conjunctions, key, wanted, &mut keys)?;
    Ok(keys)
}

// The conjunctions of the table at a place.
fn conjunctions_of(query: &Query, table: usize) -> &[Conjunction]
    requires { table < length query.now.filters }
    ensures { result.now ≡ filters_at query.now table }
{
    query.filters.as_slice()[table].as_slice()
}
