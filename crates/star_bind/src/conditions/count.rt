// How many conjunctions a condition has, before any is made.
ghost use Rattle.std.specs.Prelude.{true, ◌≡◌, ◌+◌, ◌*◌, ◌==◌, OnOk, IfOk, map};
ghost use Rattle.std.specs.List.{list_any, list_all};
ghost use Rattle.blink_lists.specs.Lists.{joined, once_each};
ghost use Rattle.star_bind.specs.Caps.{capped};
ghost use Rattle.star_bind.specs.Counts.{and_count, factor_count};
ghost use Rattle.star_bind.specs.Checks.{primary_is_good};
ghost use Rattle.star_bind.specs.FactorParts.{primary_of};
ghost use Rattle.star_bind.specs.Lookup.{scope_from};
ghost use Rattle.star_bind.specs.CappedCounts.{with_column, add_once, sum_from, product_from, count_of, count_test};

use crate::MOST_CONJUNCTIONS;
use crate::conditions::columns::{HasColumns, columns_in};
use crate::conditions::fold::{Part, of_factors};
use crate::names::kinds::refuses;
use crate::names::scope::{Entry, kind_at, place_of};
use crate::star::condition_tests::column_of;
use crate::star::factors::Factor;
use blink_base::List;
use star_sql::TestWords;
use std::alloc::{AllocError, Global};

// The columns that a part of a condition names, and how many conjunctions it has: one more than the most where it has
// more.
#[derive(Drop)]
pub(crate) struct Count {
    pub(crate) columns: List<usize>,
    pub(crate) number: usize,
}

// A sum, capped.
fn capped_sum(a: usize, b: usize) -> usize
    ensures { result ≡ capped (a + b) }
{
    a.saturating_add(b).min(MOST_CONJUNCTIONS + 1)
}

// A product, capped.
fn capped_product(a: usize, b: usize) -> usize
    ensures { result ≡ capped (a * b) }
{
    a.saturating_mul(b).min(MOST_CONJUNCTIONS + 1)
}

// The numbers of parts, added up.
fn sum_of(parts: &[Count]) -> usize
    ensures { result ≡ sum_from 0 (map (λ p. p.number) parts.now) }
{
    let mut sum = 0;
    for part in parts {
        sum = capped_sum(sum, part.number);
    }
    sum
}

// The numbers of parts, multiplied.
fn product_of(parts: &[Count]) -> usize
    ensures { result ≡ product_from 1 (map (λ p. p.number) parts.now) }
{
    let mut product = 1;
    for part in parts {
        product = capped_product(product, part.number);
    }
    product
}

// Over one column a part is one conjunction.
fn count_of(columns: List<usize>, number: usize) -> Count
    ensures { result ≡ count_of columns number }
{
    let number = if columns.len() == 1 { 1 } else { number };
    Count { columns, number }
}

impl HasColumns for Count {
    ghost names = { λ c. c.columns };

    fn columns(&self) -> &List<usize> {
        &self.columns
    }
}

impl Part for Count {
    ghost use Rattle.std.specs.Prelude.{◌≡◌, IfOk};
    ghost use Rattle.star_bind.specs.CappedCounts.{count_test, count_every, count_some};

    ghost of_test = { count_test };

    ghost of_every = { count_every };

    ghost of_some = { count_some };

    fn test(alloc: Global, scope: &[Entry], words: &TestWords) -> Result<Count, AllocError> {
        let mut columns = List::new(alloc);
        let Some(place) = place_of(scope, column_of(words)) else {
            return Ok(Count { columns, number: 0 });
        };
        if refuses(alloc, kind_at(scope, place), words) {
            return Ok(Count { columns, number: 0 });
        }
        columns.push(place.column)?;
        Ok(Count { columns, number: 1 })
    }

    fn every(alloc: Global, parts: Vec<Count>) -> Result<Count, AllocError>
        ensures { IfOk result (λ part. part ≡ count_every parts.items) }
    {
        let columns = columns_in(alloc, parts.as_slice())?;
        Ok(count_of(columns, product_of(parts.as_slice())))
    }

    fn some(alloc: Global, parts: Vec<Count>) -> Result<Count, AllocError>
        ensures { IfOk result (λ part. part ≡ count_some parts.items) }
    {
        let columns = columns_in(alloc, parts.as_slice())?;
        Ok(count_of(columns, sum_of(parts.as_slice())))
    }
}

// How many conjunctions the AND of some factors has: one more than the most where it has more.
pub(crate) fn factors_count(
    alloc: Global,
    scope: &[Entry],
    factors: &[Factor],
) -> Result<usize, AllocError>
    requires { list_all (λ f. primary_is_good (primary_of f)) factors.now ≡ true }
    ensures { IfOk result (λ number. number ≡ capped (and_count (map (factor_count (scope_from scope.now)) (map primary_of factors.now))).count) }
{
    let count: Count = of_factors(alloc, scope, factors)?;
    Ok(count.number)
}
