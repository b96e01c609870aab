// Parts of groups, and how they are merged.
ghost use Rattle.std.specs.Prelude.{◌≡◌, ◌≤◌, ◌+◌, IsTrue, IfOk};
ghost use Rattle.std.specs.Ordering.{flip_args};
ghost use Rattle.blink_base.specs.Values.{value_cmp};
ghost use Rattle.late_decode.specs.Bounds.{are_parts, is_bounded, most_combinations};
ghost use Rattle.late_decode.specs.Parts.{lesser, merged_bound, merged_part, merged_parts, no_part, no_parts};
ghost use Rattle.late_decode.specs.PartSteps.{AreFew};

use crate::{Measure, Part};
use blink_base::{List, Value};
use std::alloc::{AllocError, Global};
use std::cmp::Ordering;

/// The parts of a group without rows, one a measure. Source: this project's own.
pub fn no_parts(alloc: Global, measures: &[Measure]) -> Result<List<Part>, AllocError>
    ensures { IfOk result (λ parts. parts ≡ no_parts measures.now) }
{
    let mut parts = Vec::with_capacity(alloc, measures.len())?;
    for _ in measures {
        parts.push(Part {
            count: 0,
            sum: 0,
            bound: None,
        })?;
    }
    Ok(List::from_vec(parts))
}

// Adds the parts of further rows to those of a group, measure by measure. It takes no memory.
pub(crate) fn merge_parts(measures: &[Measure], own: &mut List<Part>, parts: List<Part>)
    requires own { IsTrue (are_parts measures.now own.old) }
    requires parts { IsTrue (are_parts measures.now parts) }
    requires few { AreFew own.old parts }
    ensures { own.new ≡ merged_parts measures.now own.old parts }
{
    let mut rest = parts.into_vec();
    while let Some(part) = rest.pop() {
        let at = rest.len();
        match own.get_mut(at) {
            Some(held) => merge_part(measures[at], held, part),
            None => unreachable!(),
        }
    }
}

// Adds the part of further rows to that of a group.
fn merge_part(measure: Measure, own: &mut Part, part: Part)
    requires own { IsTrue (is_bounded own.old) }
    requires part { IsTrue (is_bounded part) }
    requires few { own.old.count + part.count ≤ most_combinations }
    ensures { own.new ≡ merged_part measure own.old part }
{
    let Part { count, sum, bound } = part;
    own.count += count;
    own.sum += sum;
    merge_bound(measure, &mut own.bound, bound);
}

// Keeps the bound of both that the measure asks for.
fn merge_bound(measure: Measure, own: &mut Option<Value>, bound: Option<Value>)
    ensures { own.new ≡ merged_bound measure own.old bound }
{
    match measure {
        Measure::Least(_) => keep_least(own, bound),
        Measure::Greatest(_) => keep_greatest(own, bound),
        _ => *own = None,
    }
}

// Keeps the lesser of two values, where they are there.
fn keep_least(own: &mut Option<Value>, bound: Option<Value>)
    ensures { own.new ≡ lesser value_cmp own.old bound }
{
    let replaces = match (&*own, &bound) {
        (Some(x), Some(y)) => x.compare(y) == Ordering::Greater,
        (None, _) => true,
        (_, None) => false,
    };
    if replaces {
        *own = bound;
    }
}

// Keeps the greater of two values, where they are there.
fn keep_greatest(own: &mut Option<Value>, bound: Option<Value>)
    ensures { own.new ≡ lesser (flip_args value_cmp) own.old bound }
{
    let replaces = match (&*own, &bound) {
        (Some(x), Some(y)) => y.compare(x) == Ordering::Greater,
        (None, _) => true,
        (_, None) => false,
    };
    if replaces {
        *own = bound;
    }
}
