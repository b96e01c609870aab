// The keys of ties among the tests of the codes of a cell.
ghost use Rattle.std.specs.Prelude.{◌≡◌, ◌==◌, ◌<◌, ◌++◌, ◌∷◌, [], None, IsTrue, IfOk, IfSome, length, nat_lt, position, slice_set};
ghost use Rattle.std.specs.List.{list_all};
ghost use Rattle.page_synopsis.specs.BitSets.{all_below};
ghost use Rattle.page_synopsis.specs.Runs.{in_both};
ghost use Rattle.page_synopsis.specs.Sets.{codes_in, is_set_of};
ghost use Rattle.cell_scan.specs.CodeTests.{code_set, code_sets};
ghost use Rattle.cell_scan.specs.ValueTests.{cell_class, sets_in};
ghost use Rattle.code_group.specs.CellRow.{HaveClasses};
ghost use Rattle.star_select.specs.CellTests.{tie_tests};
ghost use Rattle.star_select.specs.CodeSets.{are_tests_of, is_good_test, is_test_of, key_test, put_set, put_sets, set_in};

use blink_base::List;
use cell_scan::CodeTest;
use code_join::{KeyMap, codes_of_keys};
use order_codes::Dict;
use page_synopsis::Ranges;
use std::alloc::{AllocError, Global};
use word_pool::Ledger;

// The first test of a column.
fn place_of(tests: &[CodeTest], column: u32) -> Option<usize>
    ensures { result ≡ position (λ t. t.column == column) tests.now }
{
    tests.iter().position(|test| test.column == column)
}

// Puts a test in the place of another.
fn put(tests: List<CodeTest>, at: usize, test: CodeTest) -> List<CodeTest>
    requires { at < length tests }
    ensures { result ≡ slice_set tests at test }
{
    let mut all = tests.into_vec();
    all[at] = test;
    List::from_vec(all)
}

// Puts a test behind the others.
fn added(tests: List<CodeTest>, test: CodeTest) -> Result<List<CodeTest>, AllocError>
    ensures { IfOk result (λ all. all ≡ tests ++ test ∷ []) }
{
    let mut all = tests;
    all.push(test)?;
    Ok(all)
}

// The codes that are in two sets of a column of a cell; None where there is none.
fn both<M: Ledger>(
    alloc: Global,
    dicts: &[Dict<M>],
    classes: &[u32],
    first: &CodeTest,
    last: &CodeTest,
) -> Result<Option<Ranges>, AllocError>
    requires classes { HaveClasses dicts.now classes.now }
    requires first { IsTrue (is_good_test dicts.now classes.now first.now) }
    requires last { IsTrue (is_good_test dicts.now classes.now last.now) }
    requires same { first.now.column ≡ last.now.column }
    ensures set { IfOk result (λ both. is_set_of both (in_both (codes_in first.now.ranges) (codes_in last.now.ranges))) }
    ensures below { IfOk result (λ both. IfSome both (λ ranges. IsTrue (all_below (length (cell_class dicts.now classes.now last.now.column)) (codes_in ranges)))) }
{
    let column = last.column as usize;
    let size = dicts[column].size(classes[column]);
    first.ranges.both(alloc, &last.ranges, size)
}

// A test of the same codes; None exactly where there is none.
fn copy<M: Ledger>(
    alloc: Global,
    dicts: &[Dict<M>],
    classes: &[u32],
    test: &CodeTest,
) -> Result<Option<CodeTest>, AllocError>
    requires classes { HaveClasses dicts.now classes.now }
    requires test { IsTrue (is_good_test dicts.now classes.now test.now) }
    ensures { IfOk result (λ copy. is_test_of dicts.now classes.now copy (code_set test.now)) }
{
    match both(alloc, dicts, classes, test, test)? {
        Some(ranges) => Ok(Some(CodeTest {
            column: test.column,
            ranges,
        })),
        None => Ok(None),
    }
}

// Tests with one behind them of a column that none is of. None where it has no code.
fn with_last<M: Ledger>(
    alloc: Global,
    dicts: &[Dict<M>],
    classes: &[u32],
    tests: List<CodeTest>,
    test: &CodeTest,
) -> Result<Option<List<CodeTest>>, AllocError>
    requires classes { HaveClasses dicts.now classes.now }
    requires tests { IsTrue (list_all (is_good_test dicts.now classes.now) tests) }
    requires test { IsTrue (is_good_test dicts.now classes.now test.now) }
    requires absent { position (λ t. t.column == test.now.column) tests ≡ None }
    ensures { IfOk result (λ all. are_tests_of dicts.now classes.now all (put_set (code_sets tests) (code_set test.now))) }
{
    match copy(alloc, dicts, classes, test)? {
        Some(copy) => Ok(Some(added(tests, copy)?)),
        None => Ok(None),
    }
}

// Tests with one more among them: joined by AND with the one of its column, and else behind them. None where no code is left.
fn with_test<M: Ledger>(
    alloc: Global,
    dicts: &[Dict<M>],
    classes: &[u32],
    tests: List<CodeTest>,
    test: &CodeTest,
) -> Result<Option<List<CodeTest>>, AllocError>
    requires classes { HaveClasses dicts.now classes.now }
    requires tests { IsTrue (list_all (is_good_test dicts.now classes.now) tests) }
    requires test { IsTrue (is_good_test dicts.now classes.now test.now) }
    ensures { IfOk result (λ all. are_tests_of dicts.now classes.now all (put_set (code_sets tests) (code_set test.now))) }
{
    let Some(at) = place_of(tests.as_slice(), test.column) else {
        return with_last(alloc, dicts, classes, tests, test);
    };
    match both(alloc, dicts, classes, &tests.as_slice()[at], test)? {
        Some(ranges) => {
            let column = test.column;
            Ok(Some(put(tests, at, CodeTest { column, ranges })))
        }
        None => Ok(None),
    }
}

// The codes of a cell's class whose values are keys; None exactly where there is none.
fn key_codes<M: Ledger>(
    alloc: Global,
    dicts: &[Dict<M>],
    classes: &[u32],
    column: u32,
    keys: &KeyMap,
) -> Result<Option<CodeTest>, AllocError>
    requires classes { HaveClasses dicts.now classes.now }
    requires column { column < length dicts.now }
    ensures { IfOk result (λ made. is_test_of dicts.now classes.now made (set_in dicts.now classes.now (key_test column keys.now))) }
{
    let at = column as usize;
    match codes_of_keys(alloc, &dicts[at], classes[at], keys)? {
        Some(ranges) => Ok(Some(CodeTest { column, ranges })),
        None => Ok(None),
    }
}

// The codes of a cell's classes whose values are keys, a test per tie; None where some tie has none.
pub(crate) fn codes_of_ties<M: Ledger>(
    alloc: Global,
    dicts: &[Dict<M>],
    classes: &[u32],
    ties: &[u32],
    keys: &[KeyMap],
) -> Result<Option<List<CodeTest>>, AllocError>
    requires classes { HaveClasses dicts.now classes.now }
    requires tied { IsTrue (list_all (λ k. nat_lt k (length dicts.now)) ties.now) }
    requires as_many { length keys.now ≡ length ties.now }
    ensures { IfOk result (λ made. are_tests_of dicts.now classes.now made (sets_in dicts.now classes.now (tie_tests ties.now keys.now))) }
{
    let mut made = Vec::with_capacity(alloc, ties.len())?;
    for tie in 0..ties.len() {
        match key_codes(alloc, dicts, classes, ties[tie], &keys[tie])? {
            Some(codes) => made.push(codes)?,
            None => return Ok(None),
        }
    }
    Ok(Some(List::from_vec(made)))
}

// Tests with those of all ties among them. None where no code of some column is left.
pub(crate) fn with_ties<M: Ledger>(
    alloc: Global,
    dicts: &[Dict<M>],
    classes: &[u32],
    tests: List<CodeTest>,
    tied: &[CodeTest],
) -> Result<Option<List<CodeTest>>, AllocError>
    requires classes { HaveClasses dicts.now classes.now }
    requires tests { IsTrue (list_all (is_good_test dicts.now classes.now) tests) }
    requires tied { IsTrue (list_all (is_good_test dicts.now classes.now) tied.now) }
    ensures { IfOk result (λ all. are_tests_of dicts.now classes.now all (put_sets (code_sets tests) (code_sets tied.now))) }
{
    let mut all = tests;
    for test in tied {
        match with_test(alloc, dicts, classes, all, test)? {
            Some(more) => all = more,
            None => return Ok(None),
        }
    }
    Ok(Some(all))
}
