// A class of a column.
ghost use Rattle.std.specs.Prelude.{◌≡◌, ◌≤◌, IfOk, Some, List as Listed, map, slice_get, sum, length};
ghost use Rattle.column_classes.specs.ColumnClasses.{classes_by};
ghost use Rattle.blink_lists.specs.Lists.{in_order};
ghost use Rattle.blink_base.specs.Values.{value_cmp};
ghost use Rattle.blink_histogram.specs.Ranks.{Counted};
ghost use Rattle.column_classes.specs.ColumnStats.{HasValues};

use blink_base::{List, Value};
use blink_histogram::Interner;
use std::alloc::{AllocError, Global};

// The values of these numbers in rising order.
pub(crate) fn class_of(
    alloc: Global,
    interner: &Interner,
    numbers: &[u32],
) -> Result<List<Value>, AllocError>
    // Each is the number of a value.
    requires { HasValues interner.now numbers.now }
    ensures { IfOk result (λ class. (values : Listed Counted) → map (slice_get interner.now) numbers.now ≡ map Some values → class ≡ in_order value_cmp (map (λ c. c.0) values)) }
{
    let mut values = values_of(alloc, interner, numbers)?;
    values.sort_by(|first, second| first.compare(second))?;
    Ok(List::from_vec(values))
}

// The values of these numbers.
fn values_of(alloc: Global, interner: &Interner, numbers: &[u32]) -> Result<Vec<Value>, AllocError>
    requires { HasValues interner.now numbers.now }
    ensures { IfOk result (λ copies. (values : Listed Counted) → map (slice_get interner.now) numbers.now ≡ map Some values → copies.items ≡ map (λ c. c.0) values) }
{
    let mut values = Vec::with_capacity(alloc, numbers.len())?;
    for number in numbers {
        values.push(interner.value(*number).copy(alloc)?)?;
    }
    Ok(values)
}

// The values of these numbers in classes of these sizes, from the front on.
pub(crate) fn classes_in(
    alloc: Global,
    interner: &Interner,
    numbers: &[u32],
    sizes: &[u32],
) -> Result<List<List<Value>>, AllocError>
    requires found { HasValues interner.now numbers.now }
    requires sizes { sum sizes.now ≤ length numbers.now }
    ensures { IfOk result (λ classes. (values : Listed Counted) → map (slice_get interner.now) numbers.now ≡ map Some values → classes ≡ classes_by values sizes.now) }
{
    let mut classes = List::new(alloc);
    let mut rest = numbers;
    for size in sizes {
        let (piece, behind) = rest.split_at(*size as usize);
        classes.push(class_of(alloc, interner, piece)?)?;
        rest = behind;
    }
    Ok(classes)
}
