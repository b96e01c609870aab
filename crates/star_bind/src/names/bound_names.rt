// The parts of a query whose names are resolved.
ghost use Rattle.std.specs.Prelude.{◌≡◌, ◌<◌, ◌^◌, true, map, filter_map, option_map, IfOk, length};
ghost use Rattle.star_meaning.specs.Answer.{is_falling, item_place, item_meant};
ghost use Rattle.star_bind.specs.BoundQuery.{meant, bound_expr_of, bound_item_of};
ghost use Rattle.star_bind.specs.Lookup.{scope_from, place_in};
ghost use Rattle.star_bind.specs.QueryParts.{is_addressable, order_of};

use crate::names::name_checks::{called_item, column_item, item_places};
use crate::names::scope::{Entry, Place, place_of};
use crate::query::{BoundExpr, BoundItem, BoundOrder, ColumnRef};
use blink_base::List;
use star_sql::{ColumnName, Expr, Item, OrderKey, Way, What};
use std::alloc::{AllocError, Global};

// The column that a name means.
fn meant(scope: &[Entry], name: &ColumnName) -> ColumnRef
    requires { is_addressable (scope_from scope.now) ≡ true }
    ensures { result ≡ meant (scope_from scope.now) name.now }
{
    match place_of(scope, name) {
        Some(place) => ColumnRef {
            table: place.table as u32,
            column: place.column as u32,
        },
        None => ColumnRef {
            table: 0,
            column: 0,
        },
    }
}

// An expression over the columns that are meant.
fn bound_expr(scope: &[Entry], expr: &Expr) -> BoundExpr
    requires { is_addressable (scope_from scope.now) ≡ true }
    ensures { result ≡ bound_expr_of (scope_from scope.now) expr.now }
{
    match expr {
        Expr::One(a) => BoundExpr::One(meant(scope, a)),
        Expr::Times(a, b) => BoundExpr::Times(meant(scope, a), meant(scope, b)),
        Expr::Plus(a, b) => BoundExpr::Plus(meant(scope, a), meant(scope, b)),
        Expr::Minus(a, b) => BoundExpr::Minus(meant(scope, a), meant(scope, b)),
    }
}

// An item over the columns that are meant.
fn bound_item(scope: &[Entry], item: &Item) -> BoundItem
    requires { is_addressable (scope_from scope.now) ≡ true }
    ensures { result ≡ bound_item_of (scope_from scope.now) item.now.what }
{
    match &item.what {
        What::Column(name) => BoundItem::Column(meant(scope, name)),
        What::Count => BoundItem::Count,
        What::Sum(expr) => BoundItem::Sum(bound_expr(scope, expr.get())),
        What::Avg(expr) => BoundItem::Average(bound_expr(scope, expr.get())),
        What::Min(name) => BoundItem::Least(meant(scope, name)),
        What::Max(name) => BoundItem::Greatest(meant(scope, name)),
    }
}

// The items over the columns that are meant.
pub(crate) fn bound_items(
    alloc: Global,
    scope: &[Entry],
    items: &[Item],
) -> Result<List<BoundItem>, AllocError>
    requires { is_addressable (scope_from scope.now) ≡ true }
    ensures { IfOk result (λ all. all ≡ map (λ i. bound_item_of (scope_from scope.now) i.what) items.now) }
{
    let mut all = Vec::with_capacity(alloc, items.len())?;
    for item in items {
        all.push(bound_item(scope, item))?;
    }
    Ok(List::from_vec(all))
}

// The columns that the names of GROUP BY mean.
pub(crate) fn bound_groups(
    alloc: Global,
    scope: &[Entry],
    groups: &[ColumnName],
) -> Result<List<ColumnRef>, AllocError>
    requires { is_addressable (scope_from scope.now) ≡ true }
    ensures { IfOk result (λ all. all ≡ map (meant (scope_from scope.now)) groups.now) }
{
    let mut all = Vec::with_capacity(alloc, groups.len())?;
    for name in groups {
        all.push(meant(scope, name))?;
    }
    Ok(List::from_vec(all))
}

// Whether a key falls.
fn is_falling(way: Way) -> bool
    ensures { result ≡ is_falling way }
{
    match way {
        Way::Desc => true,
        Way::Plain | Way::Asc => false,
    }
}

// The item that a key of ORDER BY means, by the columns that items are.
fn item_meant(
    scope: &[Entry],
    items: &[Item],
    places: &[Option<Place>],
    name: &ColumnName,
) -> Option<usize>
    requires { places.now ≡ map (λ i. option_map place_in (item_place (scope_from scope.now) i)) items.now }
    ensures { result ≡ item_meant (scope_from scope.now) items.now name.now }
{
    match called_item(items, name) {
        Some(at) => Some(at),
        None => column_item(scope, places, name),
    }
}

// A key of ORDER BY, where it means an item.
fn order_of(
    scope: &[Entry],
    items: &[Item],
    places: &[Option<Place>],
    key: &OrderKey,
) -> Option<BoundOrder>
    requires places { places.now ≡ map (λ i. option_map place_in (item_place (scope_from scope.now) i)) items.now }
    requires few { length items.now < 2 ^ 32 }
    ensures { result ≡ order_of (scope_from scope.now) items.now key.now }
{
    let at = item_meant(scope, items, places, &key.column)?;
    Some(BoundOrder {
        item: at as u32,
        falling: is_falling(key.way),
    })
}

// The keys of the lines' order.
pub(crate) fn bound_order(
    alloc: Global,
    scope: &[Entry],
    items: &[Item],
    keys: &[OrderKey],
) -> Result<List<BoundOrder>, AllocError>
    requires few { length items.now < 2 ^ 32 }
    ensures { IfOk result (λ all. all ≡ filter_map (order_of (scope_from scope.now) items.now) keys.now) }
{
    let columns = item_places(alloc, scope, items)?;
    let places = columns.as_slice();
    let mut all = Vec::new(alloc);
    for key in keys {
        if let Some(order) = order_of(scope, items, places, key) {
            all.push(order)?;
        }
    }
    Ok(List::from_vec(all))
}
