// The keys of the rows of a dimension that are in no cell.
ghost use Rattle.std.specs.Prelude.{◌≡◌, ◌<◌, ◌≤◌, ◌+◌, [], ◌∷◌, IsTrue, OnOk, All, length};
ghost use Rattle.std.specs.List.{list_all};
ghost use Rattle.cell_layout.specs.Valid.{is_valid};
ghost use Rattle.code_join.specs.Keys.{are_keys};
ghost use Rattle.dim_filter.specs.Entries.{collected};
ghost use Rattle.star_select.specs.CodeSelection.{is_of_columns};
ghost use Rattle.star_select.specs.WantedRows.{rest_wanted};

use crate::row_tests::is_wanted;
use blink_base::Row;
use cell_layout::Image;
use code_join::laws::{first_keys_are_keys, later_keys_are_new};
use code_join::{KeyMap, MOST_KEYS};
use dim_filter::collect_rest;
use star_bind::Conjunction;
use std::alloc::{AllocError, Global};
use word_pool::Ledger;

// Puts the keys of the rows that are in no cell and pass some conjunction behind the others.
pub(crate) fn collect_all_rest<M: Ledger>(
    alloc: Global,
    image: &Image<M>,
    conjunctions: &[Conjunction],
    key: u32,
    wanted: &[u32],
    into: &mut KeyMap,
) -> Result<(), AllocError>
    requires valid { IsTrue (is_valid image.now) }
    requires columns { IsTrue (list_all (is_of_columns (length image.now.columns)) conjunctions.now) }
    requires key { key < length image.now.columns }
    requires wanted { All (λ column. column < length image.now.columns) wanted.now }
    requires absent { IsTrue (are_keys (collected key wanted.now into.old (rest_wanted conjunctions.now image.now.rest))) }
    requires few { length into.old + length (rest_wanted conjunctions.now image.now.rest) ≤ MOST_KEYS }
    ensures { OnOk result (into.new ≡ collected key wanted.now into.old (rest_wanted conjunctions.now image.now.rest)) }
{
    first_keys_are_keys();
    for row in image.rest() {
        collect_row(alloc, row, conjunctions, key, wanted, into)?;
    }
    Ok(())
}

// Puts the key of a row that is in no cell behind the others, where it passes some conjunction.
fn collect_row(
    alloc: Global,
    row: &Row,
    conjunctions: &[Conjunction],
    key: u32,
    wanted: &[u32],
    into: &mut KeyMap,
) -> Result<(), AllocError>
    requires columns { IsTrue (list_all (is_of_columns (length row.now)) conjunctions.now) }
    requires key { key < length row.now }
    requires wanted { All (λ column. column < length row.now) wanted.now }
    requires absent { IsTrue (are_keys (collected key wanted.now into.old (rest_wanted conjunctions.now (row.now ∷ [])))) }
    requires few { length into.old + length (rest_wanted conjunctions.now (row.now ∷ [])) ≤ MOST_KEYS }
    ensures { OnOk result (into.new ≡ collected key wanted.now into.old (rest_wanted conjunctions.now (row.now ∷ []))) }
{
    later_keys_are_new();
    if is_wanted(conjunctions, row) {
        return collect_rest(alloc, row, key, wanted, into);
    }
    Ok(())
}
