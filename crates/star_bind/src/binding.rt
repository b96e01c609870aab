// The query that a SELECT is, or its first refusal.
ghost use Rattle.std.specs.Prelude.{◌≡◌, ◌<◌, ◌^◌, true, map, unwrap_or, IfOk, IsTrue};
ghost use Rattle.std.specs.List.{list_all};
ghost use Rattle.star_sql.specs.Spelling.{HasFewTokens};
ghost use Rattle.star_sql.specs.WellFormed.{is_select};
ghost use Rattle.star_bind.specs.BindAnswer.{IsBound};
ghost use Rattle.star_bind.specs.BoundQuery.{query_in, scope_refusal, bound_of};
ghost use Rattle.star_bind.specs.Checks.{IsChecked, where_formed, primary_is_good};
ghost use Rattle.star_bind.specs.FactorParts.{primary_of};
ghost use Rattle.star_bind.specs.Factors.{factors};
ghost use Rattle.star_bind.specs.Lookup.{scope_from};
ghost use Rattle.star_bind.specs.Preconditions.{AreAllowed};
ghost use Rattle.star_bind.specs.QueryParts.{is_addressable};
ghost use Rattle.star_bind.specs.StarForm.{fact_of};

use crate::catalog::entries;
use crate::checks::check_scope;
use crate::conditions::conjunctions::all_conjunctions;
use crate::names::bound_names::{bound_groups, bound_items, bound_order};
use crate::names::groups::has_groups;
use crate::names::printed_names::printed_names;
use crate::names::scope::Entry;
use crate::star::factors::{Factor, where_factors};
use crate::star::ties::bound_ties;
use crate::{BindFault, Catalog, Query};
use star_sql::{Select, Statement};
use std::alloc::{AllocError, Global};

// The query over these FROM entries with this fact, by the factors of its condition.
fn query_of_factors(
    alloc: Global,
    scope: &[Entry],
    select: &Select,
    fact: usize,
    all: &[Factor],
) -> Result<Query, AllocError>
    requires addressable { is_addressable (scope_from scope.now) ≡ true }
    requires few { HasFewTokens (Statement.Select select.now) }
    requires fact { fact < 2 ^ 32 }
    requires factors { map primary_of all.now ≡ factors select.now.condition }
    requires good { list_all (λ f. primary_is_good (primary_of f)) all.now ≡ true }
    ensures { IfOk result (λ query. query ≡ query_in (scope_from scope.now) select.now fact) }
{
    let items = select.items.as_slice();
    let tables = select.tables.copy(alloc)?;
    let ties = bound_ties(alloc, scope, all, fact)?;
    let filters = all_conjunctions(alloc, scope, all)?;
    let bound = bound_items(alloc, scope, items)?;
    let names = printed_names(alloc, items)?;
    let groups = bound_groups(alloc, scope, select.groups.as_slice())?;
    let order = bound_order(alloc, scope, items, select.order.as_slice())?;
    Ok(Query {
        tables,
        fact: fact as u32,
        ties,
        filters,
        items: bound,
        names,
        groups,
        grouped: has_groups(select),
        order,
        limit: select.limit,
    })
}

// The query over these FROM entries with this fact.
fn query_in(
    alloc: Global,
    scope: &[Entry],
    select: &Select,
    fact: usize,
) -> Result<Query, AllocError>
    requires addressable { is_addressable (scope_from scope.now) ≡ true }
    requires few { HasFewTokens (Statement.Select select.now) }
    requires fact { fact < 2 ^ 32 }
    requires formed { where_formed select.now.condition ≡ true }
    ensures { IfOk result (λ query. query ≡ query_in (scope_from scope.now) select.now fact) }
{
    let all = where_factors(alloc, &select.condition)?;
    query_of_factors(alloc, scope, select, fact, all.as_slice())
}

// The query over these FROM entries, or its first refusal.
fn bind_scope(alloc: Global, scope: &[Entry], select: &Select) -> Result<Query, BindFault>
    requires addressable { is_addressable (scope_from scope.now) ≡ true }
    requires few { HasFewTokens (Statement.Select select.now) }
    requires formed { where_formed select.now.condition ≡ true }
    ensures checked { IsChecked result (scope_refusal (scope_from scope.now) select.now) }
    ensures query { IfOk result (λ query. query ≡ query_in (scope_from scope.now) select.now (unwrap_or (fact_of (scope_from scope.now) select.now) 0)) }
{
    let fact = check_scope(alloc, scope, select)?;
    let query = query_in(alloc, scope, select, fact)?;
    Ok(query)
}

/// The query that a SELECT is over the tables that are there, or its first refusal.
///
/// The refusals are asked for in this order: a table of FROM that isn't there, the first in the order of the text; a name
/// that fits no column, or a key of ORDER BY that is no item, and else a name or key that fits several columns; kinds that
/// don't go together; a query that is no star; items that aren't grouped; and a table's condition of more than
/// [`MOST_CONJUNCTIONS`](crate::MOST_CONJUNCTIONS) conjunctions, which are counted before any is made. Each comes exactly
/// where it is the first; [`BindFault::Memory`] alone is free.
///
/// The statement is well formed and is written with fewer than 4,294,967,296 tokens, and each schema is one that a table
/// may have. Source: ISO/IEC 9075 (query expressions, name scoping); the star form, the bound on conjunctions and the order
/// of refusals are this project's own.
pub fn bind<C: Catalog>(alloc: Global, catalog: &C, select: &Select) -> Result<Query, BindFault>
    requires formed { IsTrue (is_select select.now) }
    requires few { HasFewTokens (Statement.Select select.now) }
    requires allowed { AreAllowed (C.schemas catalog.now) }
    ensures { IsBound result (bound_of (C.schemas catalog.now) select.now) }
{
    match entries(alloc, catalog, select.tables.as_slice()) {
        Ok(scope) => bind_scope(alloc, scope.as_slice(), select),
        Err(why) => Err(why),
    }
}
