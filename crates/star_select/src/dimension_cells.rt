// The keys of the rows of a dimension's cells.
ghost use Rattle.std.specs.Prelude.{◌≡◌, ◌<◌, ◌≤◌, ◌+◌, ◌*◌, [], IsTrue, IsSome, OnOk, All, length};
ghost use Rattle.std.specs.List.{list_all};
ghost use Rattle.cell_layout.specs.Blocks.{page_count};
ghost use Rattle.cell_layout.specs.Image.{cell_at};
ghost use Rattle.cell_layout.specs.Valid.{is_valid};
ghost use Rattle.code_join.specs.Keys.{are_keys};
ghost use Rattle.dim_filter.specs.Entries.{collected, key_column};
ghost use Rattle.star_select.specs.CellTests.{are_apart, may_be_asked, passes_some};
ghost use Rattle.star_select.specs.CodeSelection.{is_of_columns};
ghost use Rattle.star_select.specs.WantedRows.{cell_wanted, cells_wanted, page_where, rows_where};

use crate::cell_tests::{cell_tests, page_bits};
use blink_base::List;
use cell_layout::Image;
use cell_scan::CodeTest;
use cell_scan::laws::{pages_are_rows, selected_rows_pass};
use code_join::laws::first_keys_are_keys;
use code_join::{KeyMap, MOST_KEYS};
use star_bind::Conjunction;
use std::alloc::{AllocError, Global};
use word_pool::{Ledger, Steps};

// Puts the keys of the rows of all cells that pass some conjunction behind the others, cell by cell.
pub(crate) fn collect_cells<M: Ledger>(
    alloc: Global,
    image: &Image<M>,
    conjunctions: &[Conjunction],
    wanted: &[u32],
    into: &mut KeyMap,
    decodes: &mut Steps<M>,
) -> Result<(), AllocError>
    requires valid { IsTrue (is_valid image.now) }
    requires columns { IsTrue (list_all (is_of_columns (length image.now.columns)) conjunctions.now) }
    requires apart { IsTrue (are_apart [] [] conjunctions.now) }
    requires key { IsSome image.now.schema.key }
    requires wanted { All (λ column. column < length image.now.columns) wanted.now }
    requires absent { IsTrue (are_keys (collected (key_column image.now) wanted.now into.old (cells_wanted image.now conjunctions.now))) }
    requires few { length into.old + length (cells_wanted image.now conjunctions.now) ≤ MOST_KEYS }
    ensures keys { OnOk result (into.new ≡ collected (key_column image.now) wanted.now into.old (cells_wanted image.now conjunctions.now)) }
    ensures decodes { decodes.new ≤ decodes.old + length (cells_wanted image.now conjunctions.now) * (1 + length wanted.now) }
{
    first_keys_are_keys();
    for cell in 0..image.cell_count() {
        collect_cell(alloc, image, cell, conjunctions, wanted, into, decodes)?;
    }
    Ok(())
}

// Puts the keys of the rows of a cell that pass some conjunction behind the others.
fn collect_cell<M: Ledger>(
    alloc: Global,
    image: &Image<M>,
    cell: usize,
    conjunctions: &[Conjunction],
    wanted: &[u32],
    into: &mut KeyMap,
    decodes: &mut Steps<M>,
) -> Result<(), AllocError>
    requires valid { IsTrue (is_valid image.now) }
    requires cell { cell < length image.now.cells }
    requires columns { IsTrue (list_all (is_of_columns (length image.now.columns)) conjunctions.now) }
    requires apart { IsTrue (are_apart [] [] conjunctions.now) }
    requires key { IsSome image.now.schema.key }
    requires wanted { All (λ column. column < length image.now.columns) wanted.now }
    requires absent { IsTrue (are_keys (collected (key_column image.now) wanted.now into.old (cell_wanted image.now conjunctions.now (cell_at image.now cell)))) }
    requires few { length into.old + length (cell_wanted image.now conjunctions.now (cell_at image.now cell)) ≤ MOST_KEYS }
    ensures keys { OnOk result (into.new ≡ collected (key_column image.now) wanted.now into.old (cell_wanted image.now conjunctions.now (cell_at image.now cell))) }
    ensures decodes { decodes.new ≤ decodes.old + length (cell_wanted image.now conjunctions.now (cell_at image.now cell)) * (1 + length wanted.now) }
{
    let tests = cell_tests(alloc, image, cell, conjunctions, &[], &[])?;
    collect_passing(alloc, image, cell, tests.as_slice(), wanted, into, decodes)
}

// Puts the keys of the rows of a cell that pass some list of tests behind the others, page by page.
fn collect_passing<M: Ledger>(
    alloc: Global,
    image: &Image<M>,
    cell: usize,
    tests: &[List<CodeTest>],
    wanted: &[u32],
    into: &mut KeyMap,
    decodes: &mut Steps<M>,
) -> Result<(), AllocError>
    requires valid { IsTrue (is_valid image.now) }
    requires cell { cell < length image.now.cells }
    requires asked { IsTrue (list_all (may_be_asked image.now cell) tests.now) }
    requires key { IsSome image.now.schema.key }
    requires wanted { All (λ column. column < length image.now.columns) wanted.now }
    requires absent { IsTrue (are_keys (collected (key_column image.now) wanted.now into.old (rows_where image.now (cell_at image.now cell) (passes_some tests.now) (cell_at image.now cell).rows))) }
    requires few { length into.old + length (rows_where image.now (cell_at image.now cell) (passes_some tests.now) (cell_at image.now cell).rows) ≤ MOST_KEYS }
    ensures keys { OnOk result (into.new ≡ collected (key_column image.now) wanted.now into.old (rows_where image.now (cell_at image.now cell) (passes_some tests.now) (cell_at image.now cell).rows)) }
    ensures decodes { decodes.new ≤ decodes.old + length (rows_where image.now (cell_at image.now cell) (passes_some tests.now) (cell_at image.now cell).rows) * (1 + length wanted.now) }
{
    first_keys_are_keys();
    pages_are_rows();
    if tests.is_empty() {
        return Ok(());
    }
    for page in 0..image.cell_pages(cell) {
        collect_page(alloc, image, cell, tests, page, wanted, into, decodes)?;
    }
    Ok(())
}

// Puts the keys of the rows of a page that pass some list of tests behind the others.
fn collect_page<M: Ledger>(
    alloc: Global,
    image: &Image<M>,
    cell: usize,
    tests: &[List<CodeTest>],
    page: u64,
    wanted: &[u32],
    into: &mut KeyMap,
    decodes: &mut Steps<M>,
) -> Result<(), AllocError>
    requires valid { IsTrue (is_valid image.now) }
    requires cell { cell < length image.now.cells }
    requires page { page < page_count (cell_at image.now cell) }
    requires asked { IsTrue (list_all (may_be_asked image.now cell) tests.now) }
    requires key { IsSome image.now.schema.key }
    requires wanted { All (λ column. column < length image.now.columns) wanted.now }
    requires absent { IsTrue (are_keys (collected (key_column image.now) wanted.now into.old (page_where image.now cell (passes_some tests.now) page))) }
    requires few { length into.old + length (page_where image.now cell (passes_some tests.now) page) ≤ MOST_KEYS }
    ensures keys { OnOk result (into.new ≡ collected (key_column image.now) wanted.now into.old (page_where image.now cell (passes_some tests.now) page)) }
    ensures decodes { decodes.new ≤ decodes.old + length (page_where image.now cell (passes_some tests.now) page) * (1 + length wanted.now) }
{
    selected_rows_pass();
    let bits = page_bits(image, cell, tests, page);
    dim_filter::collect(alloc, image, cell, page, &bits, wanted, into, decodes)
}
