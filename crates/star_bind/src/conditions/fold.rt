// What a condition gives, part by part.
ghost use Rattle.std.specs.Prelude.{◌≡◌, true, IfOk, map};
ghost use Rattle.std.specs.List.{list_all};
ghost use Rattle.star_sql.specs.Conditions.{of_prim, of_cond};
ghost use Rattle.star_sql.specs.WellFormed.{is_test};
ghost use Rattle.star_bind.specs.Lookup.{scope_from};
ghost use Rattle.star_bind.specs.FactorParts.{primary_of};
ghost use Rattle.star_bind.specs.Checks.{primary_is_good, conj_is_good, cond_is_good};

use crate::names::scope::Entry;
use crate::star::factors::Factor;
use blink_base::Boxed;
use star_sql::{Cond, Conj, Primary, TestWords};
use std::alloc::{AllocError, Global};

// What a part of a condition gives: a test, an AND of parts, and an OR of parts.
pub(crate) trait Part: Sized {
    ghost use Rattle.std.specs.Prelude.{◌≡◌, true, IfOk, List};
    ghost use Rattle.star_sql.specs.declared.ast.TestWords.{TestWords};
    ghost use Rattle.star_sql.specs.WellFormed.{is_test};
    ghost use Rattle.star_meaning.specs.Names.{Scope};
    ghost use Rattle.star_bind.specs.Lookup.{scope_from};

    // What a test gives.
    ghost of_test: { Scope → TestWords → Self };

    // What an AND gives.
    ghost of_every: { List Self → Self };

    // What an OR gives.
    ghost of_some: { List Self → Self };

    fn test(alloc: Global, scope: &[Entry], words: &TestWords) -> Result<Self, AllocError>
        requires { is_test words.now ≡ true }
        ensures { IfOk result (λ part. part ≡ of_test (scope_from scope.now) words.now) };

    fn every(alloc: Global, parts: Vec<Self>) -> Result<Self, AllocError>
        ensures { IfOk result (λ part. part ≡ of_every parts.items) };

    fn some(alloc: Global, parts: Vec<Self>) -> Result<Self, AllocError>
        ensures { IfOk result (λ part. part ≡ of_some parts.items) };
}

// The condition of a group; its tests are well formed where the group's are.
fn inside(cond: &Boxed<Cond>) -> &Cond
    ensures value { result.now ≡ cond.now }
    ensures good { primary_is_good (Primary.Group cond.now) ≡ cond_is_good result.now }
{
    cond.get()
}

// What a test or a group gives.
#[cycle(folding)]
fn of_primary<P: Part + Drop>(
    alloc: Global,
    scope: &[Entry],
    primary: &Primary,
) -> Result<P, AllocError>
    requires { primary_is_good primary.now ≡ true }
    ensures { IfOk result (λ part. part ≡ of_prim (P.of_test (scope_from scope.now)) (λ x. x) P.of_every P.of_some primary.now) }
{
    match primary {
        Primary::Test(words) => P::test(alloc, scope, words),
        Primary::Group(cond) => of_cond(alloc, scope, inside(cond)),
    }
}

// What a conjunction gives.
#[cycle(folding)]
fn of_conj<P: Part + Drop>(alloc: Global, scope: &[Entry], conj: &Conj) -> Result<P, AllocError>
    requires { conj_is_good conj.now ≡ true }
    ensures { IfOk result (λ part. part ≡ P.of_every (map (of_prim (P.of_test (scope_from scope.now)) (λ x. x) P.of_every P.of_some) conj.now.all)) }
{
    let primaries = conj.all.as_slice();
    let mut parts = Vec::with_capacity(alloc, primaries.len())?;
    for primary in primaries {
        parts.push(of_primary(alloc, scope, primary)?)?;
    }
    P::every(alloc, parts)
}

// What a condition gives.
#[cycle(folding)]
pub(crate) fn of_cond<P: Part + Drop>(
    alloc: Global,
    scope: &[Entry],
    cond: &Cond,
) -> Result<P, AllocError>
    requires { cond_is_good cond.now ≡ true }
    ensures { IfOk result (λ part. part ≡ of_cond (P.of_test (scope_from scope.now)) (λ x. x) P.of_every P.of_some cond.now) }
{
    let conjunctions = cond.any.as_slice();
    let mut parts = Vec::with_capacity(alloc, conjunctions.len())?;
    for conj in conjunctions {
        parts.push(of_conj(alloc, scope, conj)?)?;
    }
    P::some(alloc, parts)
}

// What a factor gives.
pub(crate) fn of_factor<P: Part + Drop>(
    alloc: Global,
    scope: &[Entry],
    factor: &Factor,
) -> Result<P, AllocError>
    requires { primary_is_good (primary_of factor.now) ≡ true }
    ensures { IfOk result (λ part. part ≡ of_prim (P.of_test (scope_from scope.now)) (λ x. x) P.of_every P.of_some (primary_of factor.now)) }
{
    match factor {
        Factor::Words(words) => P::test(alloc, scope, words),
        Factor::Whole(cond) => of_cond(alloc, scope, cond),
    }
}

// What the AND of some factors gives.
pub(crate) fn of_factors<P: Part + Drop>(
    alloc: Global,
    scope: &[Entry],
    factors: &[Factor],
) -> Result<P, AllocError>
    requires { list_all (λ f. primary_is_good (primary_of f)) factors.now ≡ true }
    ensures { IfOk result (λ part. part ≡ P.of_every (map (of_prim (P.of_test (scope_from scope.now)) (λ x. x) P.of_every P.of_some) (map primary_of factors.now))) }
{
    let mut parts = Vec::with_capacity(alloc, factors.len())?;
    for factor in factors {
        parts.push(of_factor(alloc, scope, factor)?)?;
    }
    P::every(alloc, parts)
}
