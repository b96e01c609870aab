// The refusals of a query whose tables are all there, in their order.
ghost use Rattle.std.specs.Prelude.{[], ◌∷◌, ◌≡◌, true, not, map, IfOk, IsTrue, Some};
ghost use Rattle.std.specs.List.{list_all};
ghost use Rattle.star_sql.specs.WellFormed.{is_select};
ghost use Rattle.star_bind.specs.WrongKind.{has_wrong_kind};
ghost use Rattle.star_bind.specs.StarForm.{is_star, fact_of};
ghost use Rattle.star_bind.specs.GroupRule.{is_grouped};
ghost use Rattle.star_bind.specs.BoundQuery.{first_some, refused_if, is_wide, scope_refusal, first_refusal};
ghost use Rattle.star_bind.specs.Checks.{IsChecked, where_formed, primary_is_good};
ghost use Rattle.star_bind.specs.FactorParts.{primary_of};
ghost use Rattle.star_bind.specs.Factors.{factors};
ghost use Rattle.star_bind.specs.Lookup.{scope_from};

use crate::BindFault;
use crate::conditions::width::is_wide;
use crate::names::groups::is_grouped;
use crate::names::kinds::has_wrong_kind;
use crate::names::name_checks::check_names;
use crate::names::scope::Entry;
use crate::star::factors::{Factor, where_factors};
use crate::star::star_form::fact_of;
use blink_base::Refusal;
use star_sql::Select;
use std::alloc::{AllocError, Global};

// Refuses kinds that don't go together.
fn check_kinds(alloc: Global, scope: &[Entry], select: &Select) -> Result<(), BindFault>
    ensures { IsChecked result (refused_if (has_wrong_kind (scope_from scope.now) select.now) Refusal.WrongKind) }
{
    if has_wrong_kind(alloc, scope, select)? {
        return Err(BindFault::WrongKind);
    }
    Ok(())
}

// The fact of a star; other queries are refused.
fn check_star(
    alloc: Global,
    scope: &[Entry],
    select: &Select,
    all: &[Factor],
) -> Result<usize, BindFault>
    requires { map primary_of all.now ≡ factors select.now.condition }
    ensures checked { IsChecked result (refused_if (not (is_star (scope_from scope.now) select.now)) Refusal.NotStar) }
    ensures fact { IfOk result (λ fact. fact_of (scope_from scope.now) select.now ≡ Some fact) }
{
    match fact_of(alloc, scope, select, all)? {
        Some(fact) => Ok(fact),
        None => Err(BindFault::NotStar),
    }
}

// Refuses items that are neither grouped nor aggregates.
fn check_groups(alloc: Global, scope: &[Entry], select: &Select) -> Result<(), BindFault>
    ensures { IsChecked result (refused_if (not (is_grouped (scope_from scope.now) select.now)) Refusal.NotGrouped) }
{
    if !is_grouped(alloc, scope, select)? {
        return Err(BindFault::NotGrouped);
    }
    Ok(())
}

// Refuses more conjunctions than there may be.
fn check_width(
    alloc: Global,
    scope: &[Entry],
    select: &Select,
    all: &[Factor],
) -> Result<(), BindFault>
    requires factors { map primary_of all.now ≡ factors select.now.condition }
    requires good { list_all (λ f. primary_is_good (primary_of f)) all.now ≡ true }
    ensures { IsChecked result (refused_if (is_wide (scope_from scope.now) select.now) Refusal.TooManyConjunctions) }
{
    if is_wide(alloc, scope, all)? {
        return Err(BindFault::Wide);
    }
    Ok(())
}

// Refuses what is wrong with the groups or the conjunctions.
fn check_last(
    alloc: Global,
    scope: &[Entry],
    select: &Select,
    all: &[Factor],
) -> Result<(), BindFault>
    requires factors { map primary_of all.now ≡ factors select.now.condition }
    requires good { list_all (λ f. primary_is_good (primary_of f)) all.now ≡ true }
    ensures { IsChecked result (first_some (refused_if (not (is_grouped (scope_from scope.now) select.now)) Refusal.NotGrouped ∷ refused_if (is_wide (scope_from scope.now) select.now) Refusal.TooManyConjunctions ∷ [])) }
{
    check_groups(alloc, scope, select)?;
    check_width(alloc, scope, select, all)
}

// The fact of a query that is a star, is grouped as SQL asks, and has no more conjunctions than it may.
fn check_form(
    alloc: Global,
    scope: &[Entry],
    select: &Select,
    all: &[Factor],
) -> Result<usize, BindFault>
    requires factors { map primary_of all.now ≡ factors select.now.condition }
    requires good { list_all (λ f. primary_is_good (primary_of f)) all.now ≡ true }
    ensures checked { IsChecked result (first_some (refused_if (not (is_star (scope_from scope.now) select.now)) Refusal.NotStar ∷ refused_if (not (is_grouped (scope_from scope.now) select.now)) Refusal.NotGrouped ∷ refused_if (is_wide (scope_from scope.now) select.now) Refusal.TooManyConjunctions ∷ [])) }
    ensures fact { IfOk result (λ fact. fact_of (scope_from scope.now) select.now ≡ Some fact) }
{
    let fact = check_star(alloc, scope, select, all)?;
    check_last(alloc, scope, select, all)?;
    Ok(fact)
}

// The fact of a query over these FROM entries, or its first refusal.
pub(crate) fn check_scope(
    alloc: Global,
    scope: &[Entry],
    select: &Select,
) -> Result<usize, BindFault>
    requires { where_formed select.now.condition ≡ true }
    ensures checked { IsChecked result (scope_refusal (scope_from scope.now) select.now) }
    ensures fact { IfOk result (λ fact. fact_of (scope_from scope.now) select.now ≡ Some fact) }
{
    check_names(alloc, scope, select)?;
    check_kinds(alloc, scope, select)?;
    let all = where_factors(alloc, &select.condition)?;
    check_form(alloc, scope, select, all.as_slice())
}
