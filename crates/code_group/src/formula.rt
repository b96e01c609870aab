// The number of a formula.
ghost use Rattle.std.specs.Prelude.{◌≡◌, ◌≤◌, ◌<◌, ◌^◌, IsTrue, nat_abs};
ghost use Rattle.blink_base.specs.Values.{number_in};
ghost use Rattle.code_group.specs.Formulas.{combined};
ghost use Rattle.code_group.specs.Plans.{is_good_number};

use blink_base::Value;
use late_decode::Formula;

// The number of a value that is a good whole number.
fn number_in(value: &Value) -> i64
    requires { IsTrue (is_good_number value.now) }
    ensures number { result ≡ number_in value.now }
    ensures small { nat_abs result < 10 ^ 15 }
{
    match value {
        Value::Int(number) => *number,
        _ => 0,
    }
}

// The number that a formula makes of the values of its picks; the second counts only where the formula has two.
pub(crate) fn combined(formula: Formula, first: &Value, second: &Value) -> i128
    requires first { IsTrue (is_good_number first.now) }
    requires second { IsTrue (is_good_number second.now) }
    ensures number { result ≡ combined formula (number_in first.now) (number_in second.now) }
    ensures bounded { nat_abs result ≤ 10 ^ 30 }
{
    let x = i128::from(number_in(first));
    let y = i128::from(number_in(second));
    match formula {
        Formula::One(_) => x,
        Formula::Times(_, _) => x * y,
        Formula::Plus(_, _) => x + y,
        Formula::Minus(_, _) => x - y,
    }
}
