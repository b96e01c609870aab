// The star form of a query.
ghost use Rattle.std.specs.Prelude.{◌≡◌, ◌==◌, ◌||◌, true, not, length, map, IfOk, count_by, find};
ghost use Rattle.std.specs.List.{list_all, list_any};
ghost use Rattle.std.specs.Str.{bytes_eq};
ghost use Rattle.blink_lists.specs.Lists.{joined, numbers_from, are_distinct};
ghost use Rattle.star_meaning.specs.Names.{place_of};
ghost use Rattle.star_bind.specs.StarForm.{pair_of, is_equality, pairs_in, is_pair_factor, is_key, tie_read, tie_from, ties_in, needs_one_table, has_star_parts, fact_of};
ghost use Rattle.star_bind.specs.Factors.{factors};
ghost use Rattle.star_bind.specs.FactorParts.{primary_of};
ghost use Rattle.star_bind.specs.Joints.{place_from, pair_from, is_joint, pairs_of, tie_list, tie_from_tied, ties_of_joints, joint_ties, joints_fact};
ghost use Rattle.star_bind.specs.Lookup.{scope_from};

use crate::names::scope::{Entry, Place, place_of};
use crate::star::factors::Factor;
use crate::star::filters::are_star_factors;
use blink_base::{Op, Word};
use star_sql::{ColumnName, Item, Select, TestWords, What};
use std::alloc::{AllocError, Global};

// A comparison of two columns that each mean one.
#[derive(Clone, Copy)]
pub(crate) struct Pair {
    pub(crate) left: Place,
    pub(crate) op: Op,
    pub(crate) right: Place,
}

// A factor by the columns that it compares: it compares no two, or names that mean no column, or two columns.
#[derive(Clone, Copy)]
pub(crate) enum Joint {
    Other,
    Lost,
    Both(Pair),
}

// A dimension, by its place in FROM, and the column of the fact that names its key.
#[derive(Clone, Copy)]
pub(crate) struct Tied {
    pub(crate) dimension: usize,
    pub(crate) column: usize,
}

// A comparison of two named columns.
fn joint_of_names(scope: &[Entry], left: &ColumnName, op: Op, right: &ColumnName) -> Joint
    ensures joint { is_joint result ≡ true }
    ensures pairs { pairs_of result ≡ pair_of (place_of (scope_from scope.now) left.now) op (place_of (scope_from scope.now) right.now) }
{
    let (Some(left), Some(right)) = (place_of(scope, left), place_of(scope, right)) else {
        return Joint::Lost;
    };
    Joint::Both(Pair { left, op, right })
}

// A factor by the columns that it compares.
pub(crate) fn joint_of(scope: &[Entry], factor: &Factor) -> Joint
    ensures joint { is_joint result ≡ is_pair_factor (primary_of factor.now) }
    ensures pairs { pairs_of result ≡ pairs_in (scope_from scope.now) (primary_of factor.now) }
{
    let Factor::Words(words) = factor else {
        return Joint::Other;
    };
    match words {
        TestWords::Columns { left, op, right } => joint_of_names(scope, left, *op, right),
        TestWords::Compare { .. }
        | TestWords::Between { .. }
        | TestWords::Among { .. }
        | TestWords::Like { .. } => Joint::Other,
    }
}

// Whether a place is its table's primary key.
fn is_key(scope: &[Entry], place: Place) -> bool
    ensures { result ≡ is_key (scope_from scope.now) (place_from place) }
{
    let Some(entry) = scope.get(place.table) else {
        return false;
    };
    let schema = entry.schema;
    match schema.key {
        Some(key) => key as usize == place.column,
        None => false,
    }
}

// Whether a comparison asks for equality.
fn is_equality(op: Op) -> bool
    ensures { result ≡ is_equality op }
{
    match op {
        Op::Equal => true,
        Op::Unequal | Op::Less | Op::LessEqual | Op::Greater | Op::GreaterEqual => false,
    }
}

// The tie of this fact that two places are, the fact's read first.
fn tie_read(scope: &[Entry], fact: usize, op: Op, mine: Place, other: Place) -> Option<Tied>
    ensures { tie_list result ≡ tie_read (scope_from scope.now) fact op (place_from mine) (place_from other) }
{
    if mine.table == fact && other.table != fact && is_key(scope, other) && is_equality(op) {
        Some(Tied {
            dimension: other.table,
            column: mine.column,
        })
    } else {
        None
    }
}

// The tie of this fact that a pair is, written either way.
fn tie_of_pair(scope: &[Entry], fact: usize, pair: Pair) -> Option<Tied>
    ensures { tie_list result ≡ tie_from (scope_from scope.now) fact (pair_from pair) }
{
    match tie_read(scope, fact, pair.op, pair.left, pair.right) {
        Some(tie) => Some(tie),
        None => tie_read(scope, fact, pair.op, pair.right, pair.left),
    }
}

// The tie of this fact that a factor is.
fn tie_of(scope: &[Entry], fact: usize, joint: Joint) -> Option<Tied>
    ensures { tie_list result ≡ joined (map (tie_from (scope_from scope.now) fact) (pairs_of joint)) }
{
    match joint {
        Joint::Both(pair) => tie_of_pair(scope, fact, pair),
        Joint::Other | Joint::Lost => None,
    }
}

// The factors of a query by the columns that they compare.
pub(crate) fn joints_of(
    alloc: Global,
    scope: &[Entry],
    factors: &[Factor],
) -> Result<Vec<Joint>, AllocError>
    ensures joints { IfOk result (λ joints. map is_joint joints.items ≡ map is_pair_factor (map primary_of factors.now)) }
    ensures pairs { IfOk result (λ joints. map pairs_of joints.items ≡ map (pairs_in (scope_from scope.now)) (map primary_of factors.now)) }
{
    let mut joints = Vec::with_capacity(alloc, factors.len())?;
    for factor in factors {
        joints.push(joint_of(scope, factor))?;
    }
    Ok(joints)
}

// The ties of this fact, in the order of their factors.
pub(crate) fn ties_of(
    alloc: Global,
    scope: &[Entry],
    joints: &[Joint],
    fact: usize,
) -> Result<Vec<Tied>, AllocError>
    ensures { IfOk result (λ ties. map tie_from_tied ties.items ≡ ties_of_joints (scope_from scope.now) fact joints.now) }
{
    let mut ties = Vec::new(alloc);
    for joint in joints {
        if let Some(tie) = tie_of(scope, fact, *joint) {
            ties.push(tie)?;
        }
    }
    Ok(ties)
}

// Whether a factor compares no two columns, or is a tie of this fact.
fn is_tie(scope: &[Entry], fact: usize, joint: Joint) -> bool
    ensures { result ≡ joint_ties (scope_from scope.now) fact joint }
{
    match joint {
        Joint::Other => true,
        Joint::Lost => false,
        Joint::Both(pair) => tie_of_pair(scope, fact, pair).is_some(),
    }
}

// Whether each factor that compares two columns is a tie of this fact.
fn are_ties(scope: &[Entry], fact: usize, joints: &[Joint]) -> bool
    ensures { result ≡ list_all (joint_ties (scope_from scope.now) fact) joints.now }
{
    joints.iter().all(|joint| is_tie(scope, fact, *joint))
}

// How many ties a dimension stands in.
fn tie_count(ties: &[Tied], dimension: usize) -> usize
    ensures { result ≡ count_by (λ t. t.dimension == dimension) ties.now }
{
    ties.iter().filter(|tie| tie.dimension == dimension).count()
}

// Whether a table is the fact or stands in exactly one tie.
fn is_tied_once(fact: usize, ties: &[Tied], table: usize) -> bool
    ensures { result ≡ (table == fact || count_by (λ t. t.dimension == table) ties.now == 1) }
{
    table == fact || tie_count(ties, table) == 1
}

// Whether each table but the fact stands in exactly one tie.
fn are_tied_once(count: usize, fact: usize, ties: &[Tied]) -> bool
    ensures { result ≡ list_all (λ k. k == fact || count_by (λ t. t.dimension == k) ties.now == 1) (numbers_from 0 count) }
{
    for table in 0..count {
        if !is_tied_once(fact, ties, table) {
            return false;
        }
    }
    true
}

// Whether a table is the fact of a star.
fn is_fact(
    alloc: Global,
    scope: &[Entry],
    joints: &[Joint],
    fact: usize,
) -> Result<bool, AllocError>
    ensures { IfOk result (λ is. is ≡ joints_fact (scope_from scope.now) joints.now fact) }
{
    if !are_ties(scope, fact, joints) {
        return Ok(false);
    }
    let ties = ties_of(alloc, scope, joints, fact)?;
    Ok(are_tied_once(scope.len(), fact, ties.as_slice()))
}

// The first table that is the fact of a star.
fn first_fact(alloc: Global, scope: &[Entry], joints: &[Joint]) -> Result<Option<usize>, AllocError>
    ensures { IfOk result (λ fact. fact ≡ find (joints_fact (scope_from scope.now) joints.now) (numbers_from 0 (length scope.now))) }
{
    let count = scope.len();
    for table in 0..count {
        if is_fact(alloc, scope, joints, table)? {
            return Ok(Some(table));
        }
    }
    Ok(None)
}

// Whether a name is among these.
fn has_name(names: &[Word], name: &Word) -> bool
    ensures { result ≡ list_any (bytes_eq name.now) names.now }
{
    names.iter().any(|other| name.as_str() == other.as_str())
}

// Whether no name stands twice.
fn are_distinct(names: &[Word]) -> bool
    ensures { result ≡ are_distinct bytes_eq names.now }
{
    let mut rest = names;
    while let [name, behind @ ..] = rest {
        if has_name(behind, name) {
            return false;
        }
        rest = behind;
    }
    true
}

// Whether an item is COUNT or AVG.
fn needs_one_table(item: &Item) -> bool
    ensures { result ≡ needs_one_table item.now.what }
{
    match &item.what {
        What::Count | What::Avg(_) => true,
        What::Column(_) | What::Sum(_) | What::Min(_) | What::Max(_) => false,
    }
}

// Whether some item is COUNT or AVG.
fn some_needs_one_table(items: &[Item]) -> bool
    ensures { result ≡ list_any (λ i. needs_one_table i.what) items.now }
{
    items.iter().any(|item| needs_one_table(item))
}

// Whether a query has the parts of a star: no table twice, no COUNT and no AVG over several, and each factor a comparison
// of two columns or a filter.
fn has_star_parts(
    alloc: Global,
    scope: &[Entry],
    select: &Select,
    all: &[Factor],
) -> Result<bool, AllocError>
    requires { map primary_of all.now ≡ factors select.now.condition }
    ensures { IfOk result (λ has. has ≡ has_star_parts (scope_from scope.now) select.now) }
{
    let tables = select.tables.as_slice();
    if !are_distinct(tables) {
        return Ok(false);
    }
    if tables.len() > 1 && some_needs_one_table(select.items.as_slice()) {
        return Ok(false);
    }
    are_star_factors(alloc, scope, all)
}

// The fact of a query; None where the query is no star.
pub(crate) fn fact_of(
    alloc: Global,
    scope: &[Entry],
    select: &Select,
    all: &[Factor],
) -> Result<Option<usize>, AllocError>
    requires { map primary_of all.now ≡ factors select.now.condition }
    ensures { IfOk result (λ fact. fact ≡ fact_of (scope_from scope.now) select.now) }
{
    if !has_star_parts(alloc, scope, select, all)? {
        return Ok(None);
    }
    let joints = joints_of(alloc, scope, all)?;
    first_fact(alloc, scope, joints.as_slice())
}
