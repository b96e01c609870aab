// Whether a table's condition has more conjunctions than it may.
ghost use Rattle.std.specs.Prelude.{◌≡◌, true, map, nat_lt, IfOk, length};
ghost use Rattle.std.specs.List.{list_all, list_any};
ghost use Rattle.blink_lists.specs.Lists.{numbers_from};
ghost use Rattle.star_bind.specs.Checks.{primary_is_good};
ghost use Rattle.star_bind.specs.CappedCounts.{count_in};
ghost use Rattle.star_bind.specs.FactorParts.{primary_of};
ghost use Rattle.star_bind.specs.Lookup.{scope_from};

use crate::MOST_CONJUNCTIONS;
use crate::conditions::count::factors_count;
use crate::names::scope::Entry;
use crate::star::factors::Factor;
use crate::star::filters::filters_of;
use std::alloc::{AllocError, Global};

// Whether the condition on a table has more conjunctions than it may.
fn is_table_wide(
    alloc: Global,
    scope: &[Entry],
    all: &[Factor],
    table: usize,
) -> Result<bool, AllocError>
    requires { list_all (λ f. primary_is_good (primary_of f)) all.now ≡ true }
    ensures { IfOk result (λ wide. wide ≡ nat_lt MOST_CONJUNCTIONS (count_in (scope_from scope.now) (map primary_of all.now) table)) }
{
    let filters = filters_of(alloc, scope, table, all)?;
    let number = factors_count(alloc, scope, filters.as_slice())?;
    Ok(MOST_CONJUNCTIONS < number)
}

// Whether the condition on some table has, among these factors.
pub(crate) fn is_wide(alloc: Global, scope: &[Entry], all: &[Factor]) -> Result<bool, AllocError>
    requires { list_all (λ f. primary_is_good (primary_of f)) all.now ≡ true }
    ensures { IfOk result (λ wide. wide ≡ list_any (λ k. nat_lt MOST_CONJUNCTIONS (count_in (scope_from scope.now) (map primary_of all.now) k)) (numbers_from 0 (length scope.now))) }
{
    let count = scope.len();
    for table in 0..count {
        if is_table_wide(alloc, scope, all, table)? {
            return Ok(true);
        }
    }
    Ok(false)
}
