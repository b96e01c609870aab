// A condition on one column.
ghost use Rattle.std.specs.Prelude.{◌≡◌};
ghost use Rattle.std.specs.List.{list_any, list_all};
ghost use Rattle.blink_base.specs.Values.{same_value};
ghost use Rattle.blink_base.specs.Tests.{op_holds, begins_with, test_holds, tree_holds};

use crate::{List, Op, Test, Value};
use std::cmp::Ordering;

/// A condition on one column. Source: ISO/IEC 9075 (search conditions).
#[derive(Debug, Drop)]
pub enum Tree {
    /// The test is true of the value.
    Leaf(Test),
    /// Each of these is true of it; without parts it is true.
    All(List<Tree>),
    /// Some of these is true of it; without parts it is false.
    Any(List<Tree>),
}

impl Tree {
    /// Whether the condition is true of a value. It takes no memory. Source: ISO/IEC 9075 (predicates).
    #[cycle(truth)]
    #[tactic(auto, using(crate::proofs::TreeLemmas::tree_all, crate::proofs::TreeLemmas::tree_any))]
    pub fn holds(&self, value: &Value) -> bool
        ensures { result ≡ tree_holds value.now self.now }
    {
        match self {
            Tree::Leaf(test) => test_holds(test, value),
            Tree::All(trees) => all_hold(trees.as_slice(), value),
            Tree::Any(trees) => any_holds(trees.as_slice(), value),
        }
    }
}

// Whether each of these is true of a value.
#[cycle(truth)]
fn all_hold(trees: &[Tree], value: &Value) -> bool
    ensures { result ≡ list_all (tree_holds value.now) trees.now }
{
    for tree in trees {
        if !tree.holds(value) {
            return false;
        }
    }
    true
}

// Whether one of these is true of a value.
#[cycle(truth)]
fn any_holds(trees: &[Tree], value: &Value) -> bool
    ensures { result ≡ list_any (tree_holds value.now) trees.now }
{
    for tree in trees {
        if tree.holds(value) {
            return true;
        }
    }
    false
}

// Whether a test is true of a value.
fn test_holds(test: &Test, value: &Value) -> bool
    ensures { result ≡ test_holds test.now value.now }
{
    match test {
        Test::Is(op, other) => op_holds(*op, value.compare(other)),
        Test::Between(low, high) => low.compare(value).is_le() && value.compare(high).is_le(),
        Test::Among(values) => is_among(value, values.as_slice()),
        Test::Prefix(front) => begins_with(front.as_str(), value),
    }
}

// Whether a comparison holds of two values in this order.
fn op_holds(op: Op, order: Ordering) -> bool
    ensures { result ≡ op_holds op order }
{
    match op {
        Op::Equal => order.is_eq(),
        Op::Unequal => order.is_ne(),
        Op::Less => order.is_lt(),
        Op::LessEqual => order.is_le(),
        Op::Greater => order.is_gt(),
        Op::GreaterEqual => order.is_ge(),
    }
}

// Whether the value is one of these.
fn is_among(value: &Value, values: &[Value]) -> bool
    ensures { result ≡ list_any (same_value value.now) values.now }
{
    for other in values {
        if value.compare(other).is_eq() {
            return true;
        }
    }
    false
}

// Whether a value is a text with this front.
fn begins_with(front: &str, value: &Value) -> bool
    ensures { result ≡ begins_with front.now value.now }
{
    match value {
        Value::Text(word) => word.as_str().as_bytes().starts_with(front.as_bytes()),
        Value::Int(_) | Value::Date(_) => false,
    }
}
