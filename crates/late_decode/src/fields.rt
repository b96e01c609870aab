// Fields of lines: of values, of measures, and their order.
ghost use Rattle.std.specs.Prelude.{◌≡◌, IfOk, int_div, pos};
ghost use Rattle.blink_base.specs.Lines.{field_cmp, field_of, field_if_some, field_rank};
ghost use Rattle.late_decode.specs.GroupLines.{measure_field, number_over};

use crate::{Measure, Part};
use blink_base::{Field, Value};
use std::alloc::{AllocError, Global};
use std::cmp::Ordering;

// A value as a field. It moves the value.
pub(crate) fn field_of(value: Value) -> Field
    ensures { result ≡ field_of value }
{
    match value {
        Value::Int(number) => Field::Number(number as i128),
        Value::Text(word) => Field::Text(word),
        Value::Date(date) => Field::Date(date),
    }
}

// The field of a measure. It moves the bound.
pub(crate) fn measure_field(measure: Measure, part: Part) -> Field
    ensures { result ≡ measure_field measure part }
{
    let Part { count, sum, bound } = part;
    match measure {
        Measure::Count => Field::Number(count as i128),
        Measure::Sum(_) => number_over(count, sum),
        Measure::Average(_) => average_field(count, sum),
        Measure::Least(_) => bound_field(bound),
        Measure::Greatest(_) => bound_field(bound),
    }
}

// A number, and NULL where there is no row.
fn number_over(count: u64, number: i128) -> Field
    ensures { result ≡ number_over count number }
{
    if count == 0 {
        return Field::Null;
    }
    Field::Number(number)
}

// The sum by the count, truncated towards zero, and NULL where there is no row.
fn average_field(count: u64, sum: i128) -> Field
    ensures { result ≡ number_over count (int_div sum (pos count)) }
{
    if count == 0 {
        return Field::Null;
    }
    Field::Number(sum / count as i128)
}

// The bound, and NULL where there is none.
fn bound_field(bound: Option<Value>) -> Field
    ensures { result ≡ field_if_some bound }
{
    match bound {
        Some(value) => field_of(value),
        None => Field::Null,
    }
}

// An equal field.
pub(crate) fn copy_field(alloc: Global, field: &Field) -> Result<Field, AllocError>
    ensures { IfOk result (λ copy. copy ≡ field.now) }
{
    match field {
        Field::Null => Ok(Field::Null),
        Field::Number(number) => Ok(Field::Number(*number)),
        Field::Text(word) => Ok(Field::Text(word.copy(alloc)?)),
        Field::Date(date) => Ok(Field::Date(*date)),
    }
}

// The order of fields: as values go, and NULL last.
pub(crate) fn compare_fields(x: &Field, y: &Field) -> Ordering
    ensures { result ≡ field_cmp x.now y.now }
{
    match (x, y) {
        (Field::Number(m), Field::Number(n)) => m.cmp(n),
        (Field::Text(t), Field::Text(u)) => t.as_str().cmp(u.as_str()),
        (Field::Date(c), Field::Date(d)) => c.cmp(d),
        _ => rank(x).cmp(&rank(y)),
    }
}

// The place of a field's kind in the order.
fn rank(field: &Field) -> u8
    ensures { result ≡ field_rank field.now }
{
    match field {
        Field::Number(_) => 0,
        Field::Text(_) => 1,
        Field::Date(_) => 2,
        Field::Null => 3,
    }
}
