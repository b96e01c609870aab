// The factors of a condition.
ghost use Rattle.std.specs.Prelude.{true, ◌≡◌, ◌++◌, OnOk, IfOk, map};
ghost use Rattle.blink_lists.specs.Lists.{joined};
ghost use Rattle.star_bind.specs.Factors.{factors_of, of_primary, factors};
ghost use Rattle.std.specs.List.{list_all};
ghost use Rattle.star_bind.specs.FactorParts.{primary_of};
ghost use Rattle.star_bind.specs.Checks.{primary_is_good, where_formed};

use star_sql::{Cond, Primary, TestWords};
use std::alloc::{AllocError, Global};

// A factor: a test, or a condition that is one as a whole.
#[derive(Clone, Copy)]
pub(crate) enum Factor<'a> {
    Words(&'a TestWords),
    Whole(&'a Cond),
}

// Adds the factors of a test or a group.
#[cycle(factoring)]
fn add_primary<'a>(primary: &'a Primary, factors: &mut Vec<Factor<'a>>) -> Result<(), AllocError>
    ensures { OnOk result (map primary_of factors.new.items ≡ map primary_of factors.old.items ++ of_primary primary.now) }
{
    match primary {
        Primary::Test(words) => {
            factors.push(Factor::Words(words))?;
            Ok(())
        }
        Primary::Group(cond) => add_cond(cond.get(), factors),
    }
}

// Adds the factors of a conjunction.
#[cycle(factoring)]
fn add_primaries<'a>(
    primaries: &'a [Primary],
    factors: &mut Vec<Factor<'a>>,
) -> Result<(), AllocError>
    ensures { OnOk result (map primary_of factors.new.items ≡ map primary_of factors.old.items ++ joined (map of_primary primaries.now)) }
{
    for primary in primaries {
        add_primary(primary, factors)?;
    }
    Ok(())
}

// Adds the factors of a condition.
#[cycle(factoring)]
fn add_cond<'a>(cond: &'a Cond, factors: &mut Vec<Factor<'a>>) -> Result<(), AllocError>
    ensures { OnOk result (map primary_of factors.new.items ≡ map primary_of factors.old.items ++ factors_of cond.now) }
{
    let conjunctions = cond.any.as_slice();
    if conjunctions.len() != 1 {
        factors.push(Factor::Whole(cond))?;
        return Ok(());
    }
    let conj = &conjunctions[0];
    add_primaries(conj.all.as_slice(), factors)
}

// The factors of a WHERE, in order.
fn gathered(alloc: Global, condition: &Option<Cond>) -> Result<Vec<Factor<'_>>, AllocError>
    ensures { IfOk result (λ all. map primary_of all.items ≡ factors condition.now) }
{
    let mut all = Vec::new(alloc);
    if let Some(cond) = condition {
        add_cond(cond, &mut all)?;
    }
    Ok(all)
}

// The factors of a WHERE that is well formed, in order.
pub(crate) fn where_factors(
    alloc: Global,
    condition: &Option<Cond>,
) -> Result<Vec<Factor<'_>>, AllocError>
    requires { where_formed condition.now ≡ true }
    ensures factors { IfOk result (λ all. map primary_of all.items ≡ factors condition.now) }
    ensures good { IfOk result (λ all. list_all (λ f. primary_is_good (primary_of f)) all.items ≡ true) }
{
    gathered(alloc, condition)
}
