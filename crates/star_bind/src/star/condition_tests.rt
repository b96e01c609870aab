// The tests of a condition, in the order of the text.
ghost use Rattle.std.specs.Prelude.{◌≡◌, ◌++◌, OnOk, IfOk, map};
ghost use Rattle.blink_lists.specs.Lists.{joined};
ghost use Rattle.star_sql.specs.Literals.{column_of};
ghost use Rattle.star_bind.specs.Factors.{tests_in};
ghost use Rattle.star_bind.specs.FactorParts.{primary_of};
ghost use Rattle.star_bind.specs.Checks.{tests_of, where_tests};

use crate::star::factors::Factor;
use star_sql::{ColumnName, Cond, Conj, Primary, TestWords};
use std::alloc::{AllocError, Global};

// Adds the tests of a test or a group.
#[cycle(gathering)]
fn add_primary<'a>(primary: &'a Primary, tests: &mut Vec<&'a TestWords>) -> Result<(), AllocError>
    ensures { OnOk result (map (λ x. x.now) tests.new.items ≡ map (λ x. x.now) tests.old.items ++ tests_in primary.now) }
{
    match primary {
        Primary::Test(words) => {
            tests.push(words)?;
            Ok(())
        }
        Primary::Group(cond) => add_cond(cond.get(), tests),
    }
}

// Adds the tests of a conjunction.
#[cycle(gathering)]
fn add_conj<'a>(conj: &'a Conj, tests: &mut Vec<&'a TestWords>) -> Result<(), AllocError>
    ensures { OnOk result (map (λ x. x.now) tests.new.items ≡ map (λ x. x.now) tests.old.items ++ joined (map tests_in conj.now.all)) }
{
    let primaries = conj.all.as_slice();
    for primary in primaries {
        add_primary(primary, tests)?;
    }
    Ok(())
}

// Adds the tests of a condition.
#[cycle(gathering)]
fn add_cond<'a>(cond: &'a Cond, tests: &mut Vec<&'a TestWords>) -> Result<(), AllocError>
    ensures { OnOk result (map (λ x. x.now) tests.new.items ≡ map (λ x. x.now) tests.old.items ++ tests_of cond.now) }
{
    let conjunctions = cond.any.as_slice();
    for conj in conjunctions {
        add_conj(conj, tests)?;
    }
    Ok(())
}

// The tests of a WHERE.
pub(crate) fn where_tests(
    alloc: Global,
    condition: &Option<Cond>,
) -> Result<Vec<&TestWords>, AllocError>
    ensures { IfOk result (λ tests. map (λ x. x.now) tests.items ≡ where_tests condition.now) }
{
    let mut tests = Vec::new(alloc);
    if let Some(cond) = condition {
        add_cond(cond, &mut tests)?;
    }
    Ok(tests)
}

// The column that a test names first.
pub(crate) fn column_of(words: &TestWords) -> &ColumnName
    ensures { result.now ≡ column_of words.now }
{
    match words {
        TestWords::Compare { column, .. }
        | TestWords::Between { column, .. }
        | TestWords::Among { column, .. }
        | TestWords::Like { column, .. } => column,
        TestWords::Columns { left, .. } => left,
    }
}

// The tests of a factor.
pub(crate) fn factor_tests<'a>(
    alloc: Global,
    factor: &Factor<'a>,
) -> Result<Vec<&'a TestWords>, AllocError>
    ensures { IfOk result (λ tests. map (λ x. x.now) tests.items ≡ tests_in (primary_of factor.now)) }
{
    let mut tests = Vec::new(alloc);
    match factor {
        Factor::Words(words) => {
            tests.push(*words)?;
        }
        Factor::Whole(cond) => add_cond(cond, &mut tests)?,
    }
    Ok(tests)
}
