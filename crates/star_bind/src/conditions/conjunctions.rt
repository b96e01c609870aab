// The conditions on the tables of a query, as conjunctions.
ghost use Rattle.std.specs.Prelude.{◌≡◌, true, map, IfOk, length};
ghost use Rattle.std.specs.List.{list_all};
ghost use Rattle.blink_lists.specs.Lists.{numbers_from};
ghost use Rattle.star_bind.specs.Checks.{primary_is_good};
ghost use Rattle.star_bind.specs.FactorParts.{primary_of};
ghost use Rattle.star_bind.specs.Lookup.{scope_from};
ghost use Rattle.star_bind.specs.QueryParts.{is_addressable, conjunctions_among};

use crate::conditions::branch::{Branch, made_of};
use crate::conditions::fold::of_factors;
use crate::conditions::spread::Tests;
use crate::names::scope::Entry;
use crate::query::Conjunction;
use crate::star::factors::Factor;
use crate::star::filters::filters_of;
use blink_base::List;
use std::alloc::{AllocError, Global};

// Tests as conjunctions.
fn conjunctions_of(alloc: Global, made: List<Tests>) -> Result<List<Conjunction>, AllocError>
    ensures { IfOk result (λ all. all ≡ map (λ tests. record { tests = tests }) made) }
{
    let mut all = Vec::with_capacity(alloc, made.len())?;
    for tests in made.into_vec() {
        all.push(Conjunction { tests })?;
    }
    Ok(List::from_vec(all))
}

// The conjunctions of the condition on a table.
fn table_conjunctions(
    alloc: Global,
    scope: &[Entry],
    all: &[Factor],
    table: usize,
) -> Result<List<Conjunction>, AllocError>
    requires addressable { is_addressable (scope_from scope.now) ≡ true }
    requires good { list_all (λ f. primary_is_good (primary_of f)) all.now ≡ true }
    ensures { IfOk result (λ made. made ≡ conjunctions_among (scope_from scope.now) (map primary_of all.now) table) }
{
    let filters = filters_of(alloc, scope, table, all)?;
    let branch: Branch = of_factors(alloc, scope, filters.as_slice())?;
    conjunctions_of(alloc, made_of(alloc, branch)?)
}

// The conjunctions of the condition on each table.
pub(crate) fn all_conjunctions(
    alloc: Global,
    scope: &[Entry],
    all: &[Factor],
) -> Result<List<List<Conjunction>>, AllocError>
    requires addressable { is_addressable (scope_from scope.now) ≡ true }
    requires good { list_all (λ f. primary_is_good (primary_of f)) all.now ≡ true }
    ensures { IfOk result (λ made. made ≡ map (conjunctions_among (scope_from scope.now) (map primary_of all.now)) (numbers_from 0 (length scope.now))) }
{
    let count = scope.len();
    let mut made = Vec::with_capacity(alloc, count)?;
    for table in 0..count {
        made.push(table_conjunctions(alloc, scope, all, table)?)?;
    }
    Ok(List::from_vec(made))
}
