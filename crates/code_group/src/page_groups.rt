// The selected rows of a page, added to the groups of their cell.
ghost use Rattle.std.specs.Prelude.{◌≡◌, ◌<◌, ◌≤◌, ◌+◌, ◌*◌, IsTrue, OnOk, length, count_by, nat_lt};
ghost use Rattle.std.specs.List.{list_all};
ghost use Rattle.blink_lists.specs.declared.limits.TheConstants.{MOST_ROWS};
ghost use Rattle.cell_layout.specs.Image.{cell_at, decoded_row};
ghost use Rattle.cell_layout.specs.Valid.{is_valid};
ghost use Rattle.cell_scan.specs.Match.{rows_of_page, selected_rows};
ghost use Rattle.code_group.specs.Entries.{has_keys, maps_in};
ghost use Rattle.code_group.specs.GroupRows.{cell_rows_added, picked_of};
ghost use Rattle.code_group.specs.Plans.{are_of_plan, entries_within, fact_value_picks, none_behind, plan_there, sums_numbers};
ghost use Rattle.late_decode.specs.Bounds.{combinations_in};

use crate::CellGroups;
use crate::page_rows::PageRows;
use cell_layout::Image;
use code_join::{KeyMap, PayloadMap};
use late_decode::GroupPlan;
use row_bits::PageBits;
use std::alloc::{AllocError, Global};
use word_pool::{Ledger, Steps};

/// Adds the parts of each selected row of a page to the group of its tuple: of its codes and of the places of its tied values.
/// `keys` has a map per tie, and `maps` what `payload` gives for it and the tied column's class in this cell. A row whose
/// group is there takes no memory, but for a text that becomes a least or greatest value. Where memory is wanting `into` may
/// hold some of the rows, and is given up. Source: after Raman et al., ICDE 2008 (aggregation on codes).
pub fn group_page<M: Ledger>(
    alloc: Global,
    image: &Image<M>,
    cell: usize,
    page: u64,
    bits: &PageBits,
    maps: &[PayloadMap],
    keys: &[KeyMap],
    plan: &GroupPlan,
    into: &mut CellGroups,
    decodes: &mut Steps<M>,
) -> Result<(), AllocError>
    requires valid { IsTrue (is_valid image.now) }
    requires cell { cell < length image.now.cells }
    requires bits { IsTrue (none_behind bits.now (length (rows_of_page (cell_at image.now cell).rows page))) }
    requires ties { length keys.now ≡ length plan.now.ties }
    requires tied { IsTrue (list_all (λ k. nat_lt k (length image.now.columns)) plan.now.ties) }
    requires maps { maps.now ≡ maps_in image.now.columns (cell_at image.now cell).classes plan.now.ties keys.now }
    requires plan { IsTrue (plan_there (length image.now.columns) keys.now plan.now) }
    requires joined { IsTrue (list_all (λ codes. has_keys plan.now.ties keys.now (decoded_row image.now.columns (cell_at image.now cell).classes codes)) (selected_rows bits.now (rows_of_page (cell_at image.now cell).rows page))) }
    requires numbers { IsTrue (list_all (λ codes. sums_numbers plan.now (picked_of image.now (cell_at image.now cell) plan.now keys.now codes)) (selected_rows bits.now (rows_of_page (cell_at image.now cell).rows page))) }
    requires groups { IsTrue (are_of_plan plan.now into.old) }
    requires few { combinations_in plan.now.measures into.old + count_by (λ b. b) bits.now ≤ MOST_ROWS }
    ensures added { OnOk result (into.new ≡ cell_rows_added image.now (cell_at image.now cell) plan.now keys.now (selected_rows bits.now (rows_of_page (cell_at image.now cell).rows page)) into.old) }
    ensures groups { OnOk result (IsTrue (are_of_plan plan.now into.new)) }
    ensures within { OnOk result (IsTrue (entries_within image.now.columns (cell_at image.now cell).classes keys.now plan.now into.old) → IsTrue (entries_within image.now.columns (cell_at image.now cell).classes keys.now plan.now into.new)) }
    ensures few { OnOk result (combinations_in plan.now.measures into.new ≤ combinations_in plan.now.measures into.old + count_by (λ b. b) bits.now) }
    // At most one group a selected row is new.
    ensures grown { OnOk result (length into.new ≤ length into.old + count_by (λ b. b) bits.now) }
    // Of each selected row only the values of the fact that are measured are decoded.
    ensures decodes { decodes.new ≤ decodes.old + count_by (λ b. b) bits.now * fact_value_picks plan.now }
{
    let rows = PageRows {
        image,
        cell,
        page,
        bits,
        maps,
        keys,
        plan,
    };
    into.groups.prepare(alloc, rows.sizes(alloc)?)?;
    if rows.are_counted() {
        return rows.count_into(alloc, &mut into.groups);
    }
    rows.add_into(alloc, &mut into.groups, decodes)
}
