// Whether a query is grouped as SQL asks.
ghost use Rattle.std.specs.Prelude.{◌≡◌, ◌||◌, map, option_map, IfOk};
ghost use Rattle.std.specs.List.{list_all, list_any};
ghost use Rattle.star_meaning.specs.Names.{place_of};
ghost use Rattle.star_meaning.specs.Groups.{is_aggregate, has_aggregate};
ghost use Rattle.star_bind.specs.GroupRule.{has_groups, is_grouped};
ghost use Rattle.star_bind.specs.Lookup.{scope_from, place_in, is_same_place, item_stands};

use crate::names::name_checks::is_place;
use crate::names::scope::{Entry, Place, place_of};
use star_sql::{ColumnName, Item, Select, What};
use std::alloc::{AllocError, Global};

// Whether an item is an aggregate.
fn is_aggregate(item: &Item) -> bool
    ensures { result ≡ is_aggregate item.now.what }
{
    match &item.what {
        What::Column(_) => false,
        What::Count | What::Sum(_) | What::Avg(_) | What::Min(_) | What::Max(_) => true,
    }
}

// Whether some item is an aggregate.
fn has_aggregate(items: &[Item]) -> bool
    ensures { result ≡ has_aggregate items.now }
{
    items.iter().any(|item| is_aggregate(item))
}

// Whether GROUP BY stands there.
pub(crate) fn has_groups(select: &Select) -> bool
    ensures { result ≡ has_groups select.now }
{
    select.groups.len() > 0
}

// Whether GROUP BY or an aggregate stands there.
fn needs_groups(select: &Select) -> bool
    ensures { result ≡ (has_groups select.now || has_aggregate select.now.items) }
{
    has_groups(select) || has_aggregate(select.items.as_slice())
}

// The columns that the names of GROUP BY mean.
fn group_places(
    alloc: Global,
    scope: &[Entry],
    groups: &[ColumnName],
) -> Result<Vec<Option<Place>>, AllocError>
    ensures { IfOk result (λ places. places.items ≡ map (λ g. option_map place_in (place_of (scope_from scope.now) g)) groups.now) }
{
    let mut places = Vec::with_capacity(alloc, groups.len())?;
    for name in groups {
        places.push(place_of(scope, name))?;
    }
    Ok(places)
}

// Whether a column is among these.
fn is_among(place: Place, places: &[Option<Place>]) -> bool
    ensures { result ≡ list_any (is_same_place place) places.now }
{
    places.iter().any(|other| is_place(place, *other))
}

// Whether an item is no bare column, or is one of the grouping columns.
fn stands(scope: &[Entry], places: &[Option<Place>], item: &Item) -> bool
    ensures { result ≡ item_stands (scope_from scope.now) places.now item.now.what }
{
    let What::Column(name) = &item.what else {
        return true;
    };
    match place_of(scope, name) {
        Some(place) => is_among(place, places),
        None => false,
    }
}

// Whether each item is no bare column, or is one of the grouping columns.
fn all_stand(scope: &[Entry], places: &[Option<Place>], items: &[Item]) -> bool
    ensures { result ≡ list_all (λ i. item_stands (scope_from scope.now) places.now i.what) items.now }
{
    items.iter().all(|item| stands(scope, places, item))
}

// Whether a query is grouped as SQL asks.
pub(crate) fn is_grouped(
    alloc: Global,
    scope: &[Entry],
    select: &Select,
) -> Result<bool, AllocError>
    ensures { IfOk result (λ is. is ≡ is_grouped (scope_from scope.now) select.now) }
{
    if !needs_groups(select) {
        return Ok(true);
    }
    let places = group_places(alloc, scope, select.groups.as_slice())?;
    Ok(all_stand(scope, places.as_slice(), select.items.as_slice()))
}
