// Conditions on rows that are in no cell.
ghost use Rattle.std.specs.Prelude.{◌≡◌, ◌<◌, IsTrue, length};
ghost use Rattle.std.specs.List.{list_all, list_any};
ghost use Rattle.star_bind.specs.Conjunctions.{passes};
ghost use Rattle.star_select.specs.CodeSelection.{is_of_columns};

use blink_base::Row;
use star_bind::Conjunction;

// Whether a row passes some conjunction.
pub(crate) fn is_wanted(conjunctions: &[Conjunction], row: &Row) -> bool
    requires { IsTrue (list_all (is_of_columns (length row.now)) conjunctions.now) }
    ensures { result ≡ list_any (passes row.now) conjunctions.now }
{
    for conjunction in conjunctions {
        if passes(conjunction, row) {
            return true;
        }
    }
    false
}

// Whether a row passes all tests of a conjunction.
fn passes(conjunction: &Conjunction, row: &Row) -> bool
    requires { IsTrue (is_of_columns (length row.now) conjunction.now) }
    ensures { result ≡ passes row.now conjunction.now }
{
    let values = row.as_slice();
    let tests = conjunction.tests.as_slice();
    for test in tests {
        if !test.tree.holds(&values[test.column as usize]) {
            return false;
        }
    }
    true
}
