// Rows of a page of a dimension.
ghost use Rattle.std.specs.Prelude.{◌≡◌, ◌<◌, ◌≤◌, ◌+◌, ◌*◌, [], ◌∷◌, pos, None, IsTrue, IsSome, OnOk, All, length, drop, slice_index_or, false};
ghost use Rattle.blink_base.specs.declared.value.Value.TheVariants.{Int};
ghost use Rattle.blink_lists.specs.Lists.{any_true};
ghost use Rattle.cell_layout.specs.Image.{cell_at};
ghost use Rattle.cell_layout.specs.Valid.{is_valid};
ghost use Rattle.cell_scan.specs.Match.{rows_of_page};
ghost use Rattle.code_join.specs.Keys.{are_keys, place_of_key};
ghost use Rattle.dim_filter.specs.Entries.{collected, key_column, cell_row, chosen_rows};

use crate::row_values::{row_value, row_values};
use blink_lists::PAGE_ROWS;
use cell_layout::Image;
use code_join::laws::later_keys_are_new;
use code_join::{KeyMap, MOST_KEYS};
use row_bits::PageBits;
use std::alloc::{AllocError, Global};
use word_pool::{Ledger, Steps};

/// Puts the key of each row of a page at whose place the truth value is true, in the order of the rows, with its wanted
/// values, in the order in which they are asked for, behind the others.
///
/// The cell has the page, the table has a key, no truth value is true behind the page's last row, the keys aren't there yet,
/// and there are at most 4,294,967,296 in all. Where memory is wanting `into` may hold some of them, and is given up. Source:
/// after Raman et al., ICDE 2008 (dimensions are filtered first).
pub fn collect<M: Ledger>(
    alloc: Global,
    image: &Image<M>,
    cell: usize,
    page: u64,
    bits: &PageBits,
    wanted: &[u32],
    into: &mut KeyMap,
    decodes: &mut Steps<M>,
) -> Result<(), AllocError>
    requires valid { IsTrue (is_valid image.now) }
    requires cell { cell < length image.now.cells }
    requires page { page * PAGE_ROWS < length (cell_at image.now cell).rows }
    requires bits { any_true (drop (length (rows_of_page (cell_at image.now cell).rows page)) bits.now) ≡ false }
    requires key { IsSome image.now.schema.key }
    requires wanted { All (λ column. column < length image.now.columns) wanted.now }
    requires absent { IsTrue (are_keys (collected (key_column image.now) wanted.now into.old (chosen_rows image.now cell page bits.now))) }
    requires few { length into.old + length (chosen_rows image.now cell page bits.now) ≤ MOST_KEYS }
    ensures keys { OnOk result (into.new ≡ collected (key_column image.now) wanted.now into.old (chosen_rows image.now cell page bits.now)) }
    // At most one value is decoded per selected row and column among the key and the wanted, also where memory is wanting.
    ensures decodes { decodes.new ≤ decodes.old + length (chosen_rows image.now cell page bits.now) * (1 + length wanted.now) }
{
    later_keys_are_new();
    let key = match image.schema().key {
        Some(key) => key,
        None => unreachable!(),
    };
    let mut from = 0;
    while let Some(place) = bits.next_set(from) {
        let row = page * PAGE_ROWS + place as u64;
        put_row(alloc, image, cell, row, key, wanted, into, decodes)?;
        from = place + 1;
    }
    Ok(())
}

// Puts the key of a row of a cell with its wanted values behind the others.
fn put_row<M: Ledger>(
    alloc: Global,
    image: &Image<M>,
    cell: usize,
    row: u64,
    key: u32,
    wanted: &[u32],
    into: &mut KeyMap,
    decodes: &mut Steps<M>,
) -> Result<(), AllocError>
    requires valid { IsTrue (is_valid image.now) }
    requires cell { cell < length image.now.cells }
    requires row { row < length (cell_at image.now cell).rows }
    requires key { key < length image.now.columns }
    requires wanted { All (λ column. column < length image.now.columns) wanted.now }
    requires absent { place_of_key into.old (slice_index_or (cell_row image.now cell row) key (Int (pos 0))) ≡ None }
    requires few { length into.old < MOST_KEYS }
    ensures keys { OnOk result (into.new ≡ collected key wanted.now into.old (cell_row image.now cell row ∷ [])) }
    ensures decodes { decodes.new ≤ decodes.old + (1 + length wanted.now) }
{
    let payload = row_values(alloc, image, cell, row, wanted, decodes)?;
    let key = row_value(alloc, image, cell, row, key, decodes)?;
    into.put(key, payload)
}
