// Conditions as tests of the codes of a cell.
ghost use Rattle.std.specs.Prelude.{◌≡◌, ◌<◌, ℕ, List as Listed, IsTrue, IfOk, OnOk, length, nat_lt};
ghost use Rattle.std.specs.List.{list_all};
ghost use Rattle.cell_layout.specs.Blocks.{page_count};
ghost use Rattle.cell_layout.specs.Image.{cell_at};
ghost use Rattle.cell_layout.specs.Valid.{is_valid};
ghost use Rattle.cell_scan.specs.CodeTests.{code_sets};
ghost use Rattle.cell_scan.specs.Match.{bits_where, rows_of_page};
ghost use Rattle.cell_scan.specs.ValueTests.{sets_in};
ghost use Rattle.code_group.specs.CellRow.{HaveClasses};
ghost use Rattle.star_select.specs.CellTests.{are_apart, is_passed, may_be_asked, passes_some};
ghost use Rattle.star_select.specs.CodeSelection.{conjunction_tests, is_of_columns};
ghost use Rattle.star_select.specs.CodeSets.{are_good_columns, are_tests_of, is_good_test, put_sets, with_some};

use crate::code_tests::codes_of_tests;
use crate::tied_codes::{codes_of_ties, with_ties};
use blink_base::List;
use cell_layout::Image;
use cell_scan::laws::{nothing_passes, or_is_either};
use cell_scan::{CodeTest, scan_conjunction};
use code_group::laws::cells_have_classes;
use code_join::KeyMap;
use order_codes::Dict;
use row_bits::PageBits;
use star_bind::Conjunction;
use std::alloc::{AllocError, Global};
use word_pool::Ledger;

// The tests of codes of a conjunction, with those of the ties among them. None where no code of some column is left.
fn conjunction_codes<M: Ledger>(
    alloc: Global,
    dicts: &[Dict<M>],
    classes: &[u32],
    conjunction: &Conjunction,
    tied: &[CodeTest],
) -> Result<Option<List<CodeTest>>, AllocError>
    requires classes { HaveClasses dicts.now classes.now }
    requires good { IsTrue (are_good_columns dicts.now) }
    requires columns { IsTrue (is_of_columns (length dicts.now) conjunction.now) }
    requires tied { IsTrue (list_all (is_good_test dicts.now classes.now) tied.now) }
    ensures { IfOk result (λ made. are_tests_of dicts.now classes.now made (put_sets (sets_in dicts.now classes.now (conjunction_tests conjunction.now)) (code_sets tied.now))) }
{
    let tests = conjunction.tests.as_slice();
    match codes_of_tests(alloc, dicts, classes, tests)? {
        Some(made) => with_ties(alloc, dicts, classes, made, tied),
        None => Ok(None),
    }
}

// Adds tests, where there are any.
fn add_some(all: &mut List<List<CodeTest>>, tests: Option<List<CodeTest>>) -> Result<(), AllocError>
    ensures { OnOk result (all.new ≡ with_some all.old tests) }
{
    match tests {
        Some(tests) => all.push(tests),
        None => Ok(()),
    }
}

// The tests of codes of each conjunction that a row of a cell may pass, with those of the ties among them.
pub(crate) fn cell_tests<M: Ledger>(
    alloc: Global,
    image: &Image<M>,
    cell: usize,
    conjunctions: &[Conjunction],
    ties: &[u32],
    keys: &[KeyMap],
) -> Result<List<List<CodeTest>>, AllocError>
    requires valid { IsTrue (is_valid image.now) }
    requires cell { cell < length image.now.cells }
    requires columns { IsTrue (list_all (is_of_columns (length image.now.columns)) conjunctions.now) }
    requires tied { IsTrue (list_all (λ k. nat_lt k (length image.now.columns)) ties.now) }
    requires as_many { length keys.now ≡ length ties.now }
    requires apart { IsTrue (are_apart ties.now keys.now conjunctions.now) }
    ensures asked { IfOk result (λ tests. IsTrue (list_all (may_be_asked image.now cell) tests)) }
    ensures passed { IfOk result (λ tests. (codes : Listed ℕ) → passes_some tests codes ≡ is_passed image.now.columns (cell_at image.now cell).classes ties.now keys.now conjunctions.now codes) }
{
    cells_have_classes();
    let dicts = image.dictionaries();
    let classes = image.cell_classes(cell);
    let Some(tied) = codes_of_ties(alloc, dicts, classes, ties, keys)? else {
        return Ok(List::new(alloc));
    };
    let tied = tied.as_slice();
    let mut all = List::from_vec(Vec::with_capacity(alloc, conjunctions.len())?);
    for conjunction in conjunctions {
        let tests = conjunction_codes(alloc, dicts, classes, conjunction, tied)?;
        add_some(&mut all, tests)?;
    }
    Ok(all)
}

// Which rows of a page of a cell pass some list of tests, and false behind its last row.
pub(crate) fn page_bits<M: Ledger>(
    image: &Image<M>,
    cell: usize,
    tests: &[List<CodeTest>],
    page: u64,
) -> PageBits
    requires cell { cell < length image.now.cells }
    requires page { page < page_count (cell_at image.now cell) }
    requires asked { IsTrue (list_all (may_be_asked image.now cell) tests.now) }
    ensures { result ≡ bits_where (passes_some tests.now) (rows_of_page (cell_at image.now cell).rows page) }
{
    or_is_either();
    nothing_passes();
    let mut bits = PageBits::none();
    for list in tests {
        bits = bits.or(scan_conjunction(image, cell, list.as_slice(), page));
    }
    bits
}
