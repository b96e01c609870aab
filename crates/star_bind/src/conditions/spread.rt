// Choices of one conjunction per part of an AND.
ghost use Rattle.std.specs.Prelude.{[], ◌≡◌, ◌∷◌, ◌++◌, map, IfOk, OnOk};
ghost use Rattle.star_bind.specs.Branches.{followed};
ghost use Rattle.star_bind.specs.Conjunctions.{merged};

use crate::conditions::merged::merged;
use crate::query::ColumnTest;
use blink_base::{Copied, List};
use std::alloc::{AllocError, Global};

// The tests of a conjunction.
pub(crate) type Tests = List<ColumnTest>;

// Puts copies of tests behind others.
fn add_tests(alloc: Global, row: &mut Tests, more: &[ColumnTest]) -> Result<(), AllocError>
    ensures { OnOk result (row.new ≡ row.old ++ more.now) }
{
    for test in more {
        row.push(test.copied(alloc)?)?;
    }
    Ok(())
}

// Each row with the same tests behind it.
fn followed_by_one(
    alloc: Global,
    rows: List<Tests>,
    tests: &[ColumnTest],
) -> Result<List<Tests>, AllocError>
    ensures { IfOk result (λ all. all ≡ map (λ row. row ++ tests.now) rows) }
{
    let mut all = Vec::with_capacity(alloc, rows.len())?;
    for row in rows.into_vec() {
        let mut longer = row;
        add_tests(alloc, &mut longer, tests)?;
        all.push(longer)?;
    }
    Ok(List::from_vec(all))
}

// Adds a row with each of some conjunctions behind it.
fn add_followed(
    alloc: Global,
    row: &Tests,
    made: &[Tests],
    all: &mut List<Tests>,
) -> Result<(), AllocError>
    ensures { OnOk result (all.new ≡ all.old ++ map (λ tests. row.now ++ tests) made.now) }
{
    for tests in made {
        let mut longer = row.copy(alloc)?;
        add_tests(alloc, &mut longer, tests.as_slice())?;
        all.push(longer)?;
    }
    Ok(())
}

// Each row with each of some conjunctions behind it.
fn followed_by_each(
    alloc: Global,
    rows: &[Tests],
    made: &[Tests],
) -> Result<List<Tests>, AllocError>
    ensures { IfOk result (λ all. all ≡ followed rows.now made.now) }
{
    let mut all = List::new(alloc);
    for row in rows {
        add_followed(alloc, row, made, &mut all)?;
    }
    Ok(all)
}

// Each row with each of some conjunctions behind it; where that is one, no row is copied.
pub(crate) fn followed(
    alloc: Global,
    rows: List<Tests>,
    made: &[Tests],
) -> Result<List<Tests>, AllocError>
    ensures { IfOk result (λ all. all ≡ followed rows made.now) }
{
    match made {
        [tests] => followed_by_one(alloc, rows, tests.as_slice()),
        _ => followed_by_each(alloc, rows.as_slice(), made),
    }
}

// Rows of tests, those of one column joined by AND.
pub(crate) fn all_merged(alloc: Global, rows: &[Tests]) -> Result<List<Tests>, AllocError>
    ensures { IfOk result (λ all. all ≡ map merged rows.now) }
{
    let mut all = Vec::with_capacity(alloc, rows.len())?;
    for row in rows {
        all.push(merged(alloc, row.as_slice())?)?;
    }
    Ok(List::from_vec(all))
}
