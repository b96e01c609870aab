// Copies of conditions on a column.
ghost use Rattle.std.specs.Prelude.{◌≡◌, IfOk};

use blink_base::{List, Test, Tree};
use std::alloc::{AllocError, Global};

// An equal test.
fn test_copy(alloc: Global, test: &Test) -> Result<Test, AllocError>
    ensures { IfOk result (λ copy. copy ≡ test.now) }
{
    match test {
        Test::Is(op, value) => Ok(Test::Is(*op, value.copy(alloc)?)),
        Test::Between(low, high) => {
            let first = low.copy(alloc)?;
            Ok(Test::Between(first, high.copy(alloc)?))
        }
        Test::Among(values) => Ok(Test::Among(values.copy(alloc)?)),
        Test::Prefix(front) => Ok(Test::Prefix(front.copy(alloc)?)),
    }
}

// An equal tree.
#[cycle(copying)]
pub(crate) fn tree_copy(alloc: Global, tree: &Tree) -> Result<Tree, AllocError>
    ensures { IfOk result (λ copy. copy ≡ tree.now) }
{
    match tree {
        Tree::Leaf(test) => Ok(Tree::Leaf(test_copy(alloc, test)?)),
        Tree::All(trees) => Ok(Tree::All(trees_copy(alloc, trees.as_slice())?)),
        Tree::Any(trees) => Ok(Tree::Any(trees_copy(alloc, trees.as_slice())?)),
    }
}

// Equal trees.
#[cycle(copying)]
fn trees_copy(alloc: Global, trees: &[Tree]) -> Result<List<Tree>, AllocError>
    ensures { IfOk result (λ copies. copies ≡ trees.now) }
{
    let mut copies = Vec::with_capacity(alloc, trees.len())?;
    for tree in trees {
        copies.push(tree_copy(alloc, tree)?)?;
    }
    Ok(List::from_vec(copies))
}
