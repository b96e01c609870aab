// The conjunctions of a condition on one table.
ghost use Rattle.std.specs.Prelude.{[], ◌≡◌, ◌∷◌, ◌++◌, map, IfOk, OnOk};
ghost use Rattle.blink_base.specs.declared.tree.Tree.{Leaf, All, Any};
ghost use Rattle.blink_lists.specs.Lists.{joined};
ghost use Rattle.star_bind.specs.Branches.{number_of, made_over, made_of, branch_columns, spread, if_several, branch_test, branch_every, branch_some};
ghost use Rattle.star_bind.specs.Conjunctions.{merged};

use crate::conditions::columns::{HasColumns, columns_in};
use crate::conditions::copies::tree_copy;
use crate::conditions::fold::Part;
use crate::conditions::literals::test_of;
use crate::conditions::spread::{Tests, all_merged, followed};
use crate::names::scope::{Entry, kind_at, place_of};
use crate::query::ColumnTest;
use crate::star::condition_tests::column_of;
use blink_base::{List, Test, Tree};
use star_sql::TestWords;
use std::alloc::{AllocError, Global};

// A part of a condition: the columns that it names, the tree as if they were one, and its conjunctions, which are left
// out where the columns are one.
#[derive(Drop)]
pub(crate) struct Branch {
    pub(crate) columns: List<usize>,
    pub(crate) tree: Tree,
    pub(crate) conjunctions: List<Tests>,
}

// The trees of branches, and their conjunctions.
#[derive(Drop)]
struct Branches {
    trees: List<Tree>,
    conjunctions: List<Tests>,
}

// A column's number in 32 bits, in which each column of a table has one.
fn number_of(column: usize) -> u32
    ensures { result ≡ number_of column }
{
    u32::try_from(column).unwrap_or(u32::MAX)
}

// The one conjunction over a column.
fn one_over(alloc: Global, column: usize, tree: Tree) -> Result<List<Tests>, AllocError>
    ensures { IfOk result (λ made. made ≡ (record { column = number_of column; tree = tree } ∷ []) ∷ []) }
{
    let mut tests = List::new(alloc);
    tests.push(ColumnTest {
        column: number_of(column),
        tree,
    })?;
    let mut made = List::new(alloc);
    made.push(tests)?;
    Ok(made)
}

// The conjunctions over these columns.
fn made_over(
    alloc: Global,
    columns: &[usize],
    tree: &Tree,
    conjunctions: List<Tests>,
) -> Result<List<Tests>, AllocError>
    ensures { IfOk result (λ made. made ≡ made_over columns.now tree.now conjunctions) }
{
    match columns {
        [column] => one_over(alloc, *column, tree_copy(alloc, tree)?),
        _ => Ok(conjunctions),
    }
}

// The conjunctions of a branch.
pub(crate) fn made_of(alloc: Global, branch: Branch) -> Result<List<Tests>, AllocError>
    ensures { IfOk result (λ made. made ≡ made_of branch) }
{
    let Branch {
        columns,
        tree,
        conjunctions,
    } = branch;
    made_over(alloc, columns.as_slice(), &tree, conjunctions)
}

// One row without tests.
fn one_row(alloc: Global) -> Result<List<Tests>, AllocError>
    ensures { IfOk result (λ rows. rows ≡ [] ∷ []) }
{
    let mut rows = List::new(alloc);
    rows.push(List::new(alloc))?;
    Ok(rows)
}

// The trees of branches.
fn trees_in(alloc: Global, parts: Vec<Branch>) -> Result<List<Tree>, AllocError>
    ensures { IfOk result (λ trees. trees ≡ map (λ p. p.tree) parts.items) }
{
    let mut trees = Vec::with_capacity(alloc, parts.len())?;
    for part in parts {
        trees.push(part.tree)?;
    }
    Ok(List::from_vec(trees))
}

// The trees of branches, and each choice of one conjunction per branch.
fn choices_in(alloc: Global, parts: Vec<Branch>) -> Result<Branches, AllocError>
    ensures trees { IfOk result (λ all. all.trees ≡ map (λ p. p.tree) parts.items) }
    ensures rows { IfOk result (λ all. all.conjunctions ≡ spread ([] ∷ []) (map made_of parts.items)) }
{
    let mut trees = List::new(alloc);
    let mut rows = one_row(alloc)?;
    for part in parts {
        let Branch {
            columns,
            tree,
            conjunctions,
        } = part;
        let made = made_over(alloc, columns.as_slice(), &tree, conjunctions)?;
        rows = followed(alloc, rows, made.as_slice())?;
        trees.push(tree)?;
    }
    Ok(Branches {
        trees,
        conjunctions: rows,
    })
}

// Adds conjunctions.
fn add_all(all: &mut List<Tests>, more: List<Tests>) -> Result<(), AllocError>
    ensures { OnOk result (all.new ≡ all.old ++ more) }
{
    for tests in more.into_vec() {
        all.push(tests)?;
    }
    Ok(())
}

// The trees of branches, and their conjunctions, one branch's behind another's.
fn conjunctions_in(alloc: Global, parts: Vec<Branch>) -> Result<Branches, AllocError>
    ensures trees { IfOk result (λ all. all.trees ≡ map (λ p. p.tree) parts.items) }
    ensures rows { IfOk result (λ all. all.conjunctions ≡ joined (map made_of parts.items)) }
{
    let mut trees = List::new(alloc);
    let mut rows = List::new(alloc);
    for part in parts {
        let Branch {
            columns,
            tree,
            conjunctions,
        } = part;
        let made = made_over(alloc, columns.as_slice(), &tree, conjunctions)?;
        add_all(&mut rows, made)?;
        trees.push(tree)?;
    }
    Ok(Branches {
        trees,
        conjunctions: rows,
    })
}

// The AND of branches over several columns.
fn several_every(
    alloc: Global,
    columns: List<usize>,
    parts: Vec<Branch>,
) -> Result<Branch, AllocError>
    ensures { IfOk result (λ part. part ≡ record { columns = columns; tree = All (map (λ p. p.tree) parts.items); conjunctions = map merged (spread ([] ∷ []) (map made_of parts.items)) }) }
{
    let all = choices_in(alloc, parts)?;
    let Branches {
        trees,
        conjunctions,
    } = all;
    let merged = all_merged(alloc, conjunctions.as_slice())?;
    Ok(Branch {
        columns,
        tree: Tree::All(trees),
        conjunctions: merged,
    })
}

// The OR of branches over several columns.
fn several_some(
    alloc: Global,
    columns: List<usize>,
    parts: Vec<Branch>,
) -> Result<Branch, AllocError>
    ensures { IfOk result (λ part. part ≡ record { columns = columns; tree = Any (map (λ p. p.tree) parts.items); conjunctions = joined (map made_of parts.items) }) }
{
    let all = conjunctions_in(alloc, parts)?;
    let Branches {
        trees,
        conjunctions,
    } = all;
    Ok(Branch {
        columns,
        tree: Tree::Any(trees),
        conjunctions,
    })
}

// What no row makes true: a test that no accepted query has.
fn nothing(alloc: Global) -> Branch
    ensures { result ≡ record { columns = []; tree = Any []; conjunctions = [] } }
{
    Branch {
        columns: List::new(alloc),
        tree: Tree::Any(List::new(alloc)),
        conjunctions: List::new(alloc),
    }
}

// A test of a column.
fn leaf(alloc: Global, column: usize, test: Test) -> Result<Branch, AllocError>
    ensures { IfOk result (λ part. part ≡ record { columns = column ∷ []; tree = Leaf test; conjunctions = [] }) }
{
    let mut columns = List::new(alloc);
    columns.push(column)?;
    Ok(Branch {
        columns,
        tree: Tree::Leaf(test),
        conjunctions: List::new(alloc),
    })
}

impl HasColumns for Branch {
    ghost names = { λ b. b.columns };

    fn columns(&self) -> &List<usize> {
        &self.columns
    }
}

impl Part for Branch {
    ghost use Rattle.std.specs.Prelude.{◌≡◌, IfOk};
    ghost use Rattle.star_bind.specs.Branches.{branch_test, branch_every, branch_some};

    ghost of_test = { branch_test };

    ghost of_every = { branch_every };

    ghost of_some = { branch_some };

    fn test(alloc: Global, scope: &[Entry], words: &TestWords) -> Result<Branch, AllocError> {
        let Some(place) = place_of(scope, column_of(words)) else {
            return Ok(nothing(alloc));
        };
        match test_of(alloc, kind_at(scope, place), words)? {
            Some(test) => leaf(alloc, place.column, test),
            None => Ok(nothing(alloc)),
        }
    }

    fn every(alloc: Global, parts: Vec<Branch>) -> Result<Branch, AllocError>
        ensures { IfOk result (λ part. part ≡ branch_every parts.items) }
    {
        let columns = columns_in(alloc, parts.as_slice())?;
        if columns.len() != 1 {
            return several_every(alloc, columns, parts);
        }
        Ok(Branch {
            columns,
            tree: Tree::All(trees_in(alloc, parts)?),
            conjunctions: List::new(alloc),
        })
    }

    fn some(alloc: Global, parts: Vec<Branch>) -> Result<Branch, AllocError>
        ensures { IfOk result (λ part. part ≡ branch_some parts.items) }
    {
        let columns = columns_in(alloc, parts.as_slice())?;
        if columns.len() != 1 {
            return several_some(alloc, columns, parts);
        }
        Ok(Branch {
            columns,
            tree: Tree::Any(trees_in(alloc, parts)?),
            conjunctions: List::new(alloc),
        })
    }
}
