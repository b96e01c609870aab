// Conditions on columns as tests of the codes of a cell.
ghost use Rattle.std.specs.Prelude.{◌<◌, IsTrue, IfOk, length, map, nat_lt};
ghost use Rattle.std.specs.List.{list_all};
ghost use Rattle.cell_scan.specs.ValueTests.{sets_in};
ghost use Rattle.code_group.specs.CellRow.{HaveClasses};
ghost use Rattle.star_select.specs.CodeSets.{are_good_columns, are_tests_of, column_test, is_test_of, set_in};

use blink_base::List;
use cell_predicates::ranges;
use cell_scan::CodeTest;
use order_codes::Dict;
use star_bind::ColumnTest;
use std::alloc::{AllocError, Global};
use word_pool::Ledger;

// The codes of a cell's class whose values make a test true; None exactly where there is none.
fn test_codes<M: Ledger>(
    alloc: Global,
    dicts: &[Dict<M>],
    classes: &[u32],
    test: &ColumnTest,
) -> Result<Option<CodeTest>, AllocError>
    requires classes { HaveClasses dicts.now classes.now }
    requires good { IsTrue (are_good_columns dicts.now) }
    requires column { test.now.column < length dicts.now }
    ensures { IfOk result (λ made. is_test_of dicts.now classes.now made (set_in dicts.now classes.now (column_test test.now))) }
{
    let column = test.column as usize;
    match ranges(alloc, &dicts[column], classes[column], &test.tree)? {
        Some(ranges) => Ok(Some(CodeTest {
            column: test.column,
            ranges,
        })),
        None => Ok(None),
    }
}

// The codes of a cell's classes whose values make tests true; None where some test has none.
pub(crate) fn codes_of_tests<M: Ledger>(
    alloc: Global,
    dicts: &[Dict<M>],
    classes: &[u32],
    tests: &[ColumnTest],
) -> Result<Option<List<CodeTest>>, AllocError>
    requires classes { HaveClasses dicts.now classes.now }
    requires good { IsTrue (are_good_columns dicts.now) }
    requires columns { IsTrue (list_all (λ t. nat_lt t.column (length dicts.now)) tests.now) }
    ensures { IfOk result (λ made. are_tests_of dicts.now classes.now made (sets_in dicts.now classes.now (map column_test tests.now))) }
{
    let mut made = Vec::with_capacity(alloc, tests.len())?;
    for test in tests {
        match test_codes(alloc, dicts, classes, test)? {
            Some(codes) => made.push(codes)?,
            None => return Ok(None),
        }
    }
    Ok(Some(List::from_vec(made)))
}
