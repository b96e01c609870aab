// Tests as a conjunction has them, one a column.
ghost use Rattle.std.specs.Prelude.{[], ◌≡◌, ◌∷◌, ◌++◌, ◌==◌, map, filter, IfOk, OnOk};
ghost use Rattle.std.specs.List.{list_any};
ghost use Rattle.blink_lists.specs.Lists.{once_each};
ghost use Rattle.star_bind.specs.Conjunctions.{anded, merged};
ghost use Rattle.star_bind.specs.CappedCounts.{with_column};

use crate::conditions::copies::tree_copy;
use crate::query::ColumnTest;
use blink_base::{Copied, List, Tree};
use std::alloc::{AllocError, Global};

impl Copied for ColumnTest {
    fn copied(&self, alloc: Global) -> Result<ColumnTest, AllocError> {
        Ok(ColumnTest {
            column: self.column,
            tree: tree_copy(alloc, &self.tree)?,
        })
    }
}

// Whether a number is among these.
fn has_number(numbers: &[u32], number: u32) -> bool
    ensures { result ≡ list_any (λ x. x == number) numbers.now }
{
    numbers.iter().any(|x| *x == number)
}

// Adds a number where it isn't there yet.
fn add_number(numbers: &mut List<u32>, number: u32) -> Result<(), AllocError>
    ensures { OnOk result (numbers.new ≡ with_column numbers.old number) }
{
    if has_number(numbers.as_slice(), number) {
        return Ok(());
    }
    numbers.push(number)
}

// The columns of tests, each once.
fn columns_of(alloc: Global, tests: &[ColumnTest]) -> Result<List<u32>, AllocError>
    ensures { IfOk result (λ columns. columns ≡ once_each (λ x y. x == y) (map (λ t. t.column) tests.now)) }
{
    let mut columns = List::new(alloc);
    for test in tests {
        add_number(&mut columns, test.column)?;
    }
    Ok(columns)
}

// Adds a copy of the tree of a test, where it is of this column.
fn add_tree(
    alloc: Global,
    column: u32,
    test: &ColumnTest,
    trees: &mut List<Tree>,
) -> Result<(), AllocError>
    ensures { OnOk result (trees.new ≡ trees.old ++ map (λ t. t.tree) (filter (λ t. column == t.column) (test.now ∷ []))) }
{
    if column == test.column {
        trees.push(tree_copy(alloc, &test.tree)?)?;
    }
    Ok(())
}

// The trees of the tests of a column.
fn trees_of(alloc: Global, column: u32, tests: &[ColumnTest]) -> Result<List<Tree>, AllocError>
    ensures { IfOk result (λ trees. trees ≡ map (λ t. t.tree) (filter (λ t. column == t.column) tests.now)) }
{
    let mut trees = List::new(alloc);
    for test in tests {
        add_tree(alloc, column, test, &mut trees)?;
    }
    Ok(trees)
}

// Trees joined by AND; one alone is itself.
fn anded(trees: List<Tree>) -> Tree
    ensures { result ≡ anded trees }
{
    let mut all = trees.into_vec();
    if all.len() != 1 {
        return Tree::All(List::from_vec(all));
    }
    match all.pop() {
        Some(tree) => tree,
        None => Tree::All(List::from_vec(all)),
    }
}

// The tests of a conjunction, those of one column joined by AND.
pub(crate) fn merged(alloc: Global, tests: &[ColumnTest]) -> Result<List<ColumnTest>, AllocError>
    ensures { IfOk result (λ all. all ≡ merged tests.now) }
{
    let columns = columns_of(alloc, tests)?;
    let numbers = columns.as_slice();
    let mut all = List::new(alloc);
    for column in numbers {
        let tree = anded(trees_of(alloc, *column, tests)?);
        all.push(ColumnTest {
            column: *column,
            tree,
        })?;
    }
    Ok(all)
}
