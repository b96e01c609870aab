// How a query is grouped and measured.
ghost use Rattle.std.specs.Prelude.{◌≡◌, IfOk, map};
ghost use Rattle.std.specs.List.{list_any};
ghost use Rattle.star_bind.specs.BoundAnswer.{is_total};
ghost use Rattle.star_select.specs.Picks.{pick_of, tied_columns};
ghost use Rattle.star_select.specs.QueryPlan.{formula_of, is_plain, item_pick, keys_if, measure_of, measures_if, plan_of};

use crate::picks::pick_of;
use blink_base::List;
use late_decode::{Formula, GroupPlan, Measure, Pick};
use star_bind::{BoundExpr, BoundItem, Query};
use std::alloc::{AllocError, Global};

// Whether an item is an aggregate.
fn is_total(item: BoundItem) -> bool
    ensures { result ≡ is_total item }
{
    match item {
        BoundItem::Column(_) => false,
        BoundItem::Count => true,
        BoundItem::Sum(_) => true,
        BoundItem::Average(_) => true,
        BoundItem::Least(_) => true,
        BoundItem::Greatest(_) => true,
    }
}

// Whether some item is an aggregate.
pub(crate) fn has_total(items: &[BoundItem]) -> bool
    ensures { result ≡ list_any is_total items.now }
{
    for item in items {
        if is_total(*item) {
            return true;
        }
    }
    false
}

// Whether a line stands for a row.
pub(crate) fn is_plain(query: &Query) -> bool
    ensures { result ≡ is_plain query.now }
{
    !(query.grouped || has_total(query.items.as_slice()))
}

// An expression over picks.
fn formula_of(alloc: Global, query: &Query, expr: BoundExpr) -> Result<Formula, AllocError>
    ensures { IfOk result (λ formula. formula ≡ formula_of query.now expr) }
{
    match expr {
        BoundExpr::One(a) => Ok(Formula::One(pick_of(alloc, query, a)?)),
        BoundExpr::Times(a, b) => {
            let left = pick_of(alloc, query, a)?;
            Ok(Formula::Times(left, pick_of(alloc, query, b)?))
        }
        BoundExpr::Plus(a, b) => {
            let left = pick_of(alloc, query, a)?;
            Ok(Formula::Plus(left, pick_of(alloc, query, b)?))
        }
        BoundExpr::Minus(a, b) => {
            let left = pick_of(alloc, query, a)?;
            Ok(Formula::Minus(left, pick_of(alloc, query, b)?))
        }
    }
}

// What is measured for an item.
fn measure_of(alloc: Global, query: &Query, item: BoundItem) -> Result<Measure, AllocError>
    ensures { IfOk result (λ measure. measure ≡ measure_of query.now item) }
{
    match item {
        BoundItem::Column(_) => Ok(Measure::Count),
        BoundItem::Count => Ok(Measure::Count),
        BoundItem::Sum(expr) => Ok(Measure::Sum(formula_of(alloc, query, expr)?)),
        BoundItem::Average(expr) => Ok(Measure::Average(formula_of(alloc, query, expr)?)),
        BoundItem::Least(r) => Ok(Measure::Least(pick_of(alloc, query, r)?)),
        BoundItem::Greatest(r) => Ok(Measure::Greatest(pick_of(alloc, query, r)?)),
    }
}

// The pick of an item that is a bare column.
fn item_pick(alloc: Global, query: &Query, item: BoundItem) -> Result<Pick, AllocError>
    ensures { IfOk result (λ pick. pick ≡ item_pick query.now item) }
{
    match item {
        BoundItem::Column(r) => pick_of(alloc, query, r),
        BoundItem::Count => Ok(Pick::Fact(0)),
        BoundItem::Sum(_) => Ok(Pick::Fact(0)),
        BoundItem::Average(_) => Ok(Pick::Fact(0)),
        BoundItem::Least(_) => Ok(Pick::Fact(0)),
        BoundItem::Greatest(_) => Ok(Pick::Fact(0)),
    }
}

// The picks of the items of a plain query.
fn item_picks(alloc: Global, query: &Query) -> Result<List<Pick>, AllocError>
    ensures { IfOk result (λ picks. picks ≡ map (item_pick query.now) query.now.items) }
{
    let items = query.items.as_slice();
    let mut picks = Vec::with_capacity(alloc, items.len())?;
    for item in items {
        picks.push(item_pick(alloc, query, *item)?)?;
    }
    Ok(List::from_vec(picks))
}

// The picks of the grouping columns.
fn group_picks(alloc: Global, query: &Query) -> Result<List<Pick>, AllocError>
    ensures { IfOk result (λ picks. picks ≡ map (pick_of query.now) query.now.groups) }
{
    let groups = query.groups.as_slice();
    let mut picks = Vec::with_capacity(alloc, groups.len())?;
    for r in groups {
        picks.push(pick_of(alloc, query, *r)?)?;
    }
    Ok(List::from_vec(picks))
}

// The keys of groups.
fn keys_of(alloc: Global, query: &Query, plain: bool) -> Result<List<Pick>, AllocError>
    ensures { IfOk result (λ keys. keys ≡ keys_if plain query.now) }
{
    if plain {
        item_picks(alloc, query)
    } else {
        group_picks(alloc, query)
    }
}

// The measures of groups: the count first.
fn measures_of(alloc: Global, query: &Query, plain: bool) -> Result<List<Measure>, AllocError>
    ensures { IfOk result (λ measures. measures ≡ measures_if plain query.now) }
{
    let items = query.items.as_slice();
    let mut measures = Vec::new(alloc);
    measures.push(Measure::Count)?;
    if plain {
        return Ok(List::from_vec(measures));
    }
    for item in items {
        measures.push(measure_of(alloc, query, *item)?)?;
    }
    Ok(List::from_vec(measures))
}

// The tied columns of the fact.
fn tied_columns(alloc: Global, query: &Query) -> Result<List<u32>, AllocError>
    ensures { IfOk result (λ columns. columns ≡ tied_columns query.now) }
{
    let ties = query.ties.as_slice();
    let mut columns = Vec::with_capacity(alloc, ties.len())?;
    for tie in ties {
        columns.push(tie.column)?;
    }
    Ok(List::from_vec(columns))
}

// How a query is grouped and measured.
pub(crate) fn plan_of(alloc: Global, query: &Query) -> Result<GroupPlan, AllocError>
    ensures { IfOk result (λ plan. plan ≡ plan_of query.now) }
{
    let plain = is_plain(query);
    let keys = keys_of(alloc, query, plain)?;
    let measures = measures_of(alloc, query, plain)?;
    let ties = tied_columns(alloc, query)?;
    Ok(GroupPlan {
        keys,
        measures,
        ties,
    })
}
