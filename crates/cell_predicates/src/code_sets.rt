// The codes of a class whose values make a condition true.
ghost use Rattle.std.specs.Prelude.{◌≡◌, ◌<◌, IfOk, IfSome, IsTrue, length, map};
ghost use Rattle.std.specs.List.{list_all, list_any};
ghost use Rattle.blink_base.specs.RowFits.{is_good};
ghost use Rattle.blink_base.specs.Tests.{tree_holds};
ghost use Rattle.order_codes.specs.Dictionary.{class_at, codes_where};
ghost use Rattle.page_synopsis.specs.BitSets.{all_below};
ghost use Rattle.page_synopsis.specs.Sets.{codes_in, is_set_of};

use crate::leaf_bits::test_bits;
use blink_base::Tree;
use order_codes::Dict;
use page_synopsis::{CodeBits, Ranges};
use std::alloc::{AllocError, Global};
use word_pool::Ledger;

/// The codes of a class whose values make the condition true, each below the size of the class; None exactly where there
/// is none. The class is one of the dictionary's, and its values are good. No value is decoded. Source: after Raman et al.,
/// ICDE 2008 (predicates on order-preserving codes).
pub fn ranges<M: Ledger>(
    alloc: Global,
    dict: &Dict<M>,
    class: u32,
    tree: &Tree,
) -> Result<Option<Ranges>, AllocError>
    requires class { class < length dict.now }
    requires good { IsTrue (list_all is_good (class_at dict.now class)) }
    ensures set { IfOk result (λ ranges. is_set_of ranges (codes_where (λ v. tree_holds v tree.now) (class_at dict.now class))) }
    ensures below { IfOk result (λ ranges. IfSome ranges (λ set. IsTrue (all_below (length (class_at dict.now class)) (codes_in set)))) }
{
    Ok(Ranges::of(tree_bits(alloc, dict, class, tree)?))
}

// A bit for each code of a class: whether its value makes the condition true. The values are good.
#[cycle(bits)]
fn tree_bits<M: Ledger>(
    alloc: Global,
    dict: &Dict<M>,
    class: u32,
    tree: &Tree,
) -> Result<CodeBits, AllocError>
    requires class { class < length dict.now }
    requires good { IsTrue (list_all is_good (class_at dict.now class)) }
    ensures { IfOk result (λ bits. bits ≡ map (λ v. tree_holds v tree.now) (class_at dict.now class)) }
{
    match tree {
        Tree::Leaf(test) => test_bits(alloc, dict, class, test),
        Tree::All(trees) => all_bits(alloc, dict, class, trees.as_slice()),
        Tree::Any(trees) => any_bits(alloc, dict, class, trees.as_slice()),
    }
}

// Whether each of these is true.
#[cycle(bits)]
fn all_bits<M: Ledger>(
    alloc: Global,
    dict: &Dict<M>,
    class: u32,
    trees: &[Tree],
) -> Result<CodeBits, AllocError>
    requires class { class < length dict.now }
    requires good { IsTrue (list_all is_good (class_at dict.now class)) }
    ensures { IfOk result (λ bits. bits ≡ map (λ v. list_all (tree_holds v) trees.now) (class_at dict.now class)) }
{
    let size = dict.size(class);
    let mut bits = CodeBits::new(alloc, size)?;
    bits.set_range(0, size);
    for tree in trees {
        let passed = tree_bits(alloc, dict, class, tree)?;
        bits.and_with(&passed);
    }
    Ok(bits)
}

// Whether one of these is true.
#[cycle(bits)]
fn any_bits<M: Ledger>(
    alloc: Global,
    dict: &Dict<M>,
    class: u32,
    trees: &[Tree],
) -> Result<CodeBits, AllocError>
    requires class { class < length dict.now }
    requires good { IsTrue (list_all is_good (class_at dict.now class)) }
    ensures { IfOk result (λ bits. bits ≡ map (λ v. list_any (tree_holds v) trees.now) (class_at dict.now class)) }
{
    let mut bits = CodeBits::new(alloc, dict.size(class))?;
    for tree in trees {
        let passed = tree_bits(alloc, dict, class, tree)?;
        bits.or_with(&passed);
    }
    Ok(bits)
}
