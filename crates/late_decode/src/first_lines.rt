// The first lines of an answer, where few are asked for.
ghost use Rattle.std.specs.Prelude.{◌≡◌, ◌≤◌, IfOk, OnOk, length, take};
ghost use Rattle.std.specs.List.{position_or_len};
ghost use Rattle.std.specs.Ordering.{is_le};
ghost use Rattle.blink_base.specs.Lines.{line_cmp};
ghost use Rattle.blink_lists.specs.Lists.{in_order, put_in_order};
ghost use Rattle.late_decode.specs.GroupLines.{keys_of};

use crate::LineOrder;
use crate::order::compare_lines;
use blink_base::{Field, List};
use std::alloc::{AllocError, Global};
use std::cmp::Ordering;

/// How many lines are few: each further line is compared with all of them.
pub(crate) const MOST_FIRST_LINES: u64 = 16;

// The first lines in their order, so many. Each line is put among the first ones, or given up.
pub(crate) fn first_lines(
    alloc: Global,
    order: &[LineOrder],
    most: usize,
    mut lines: Vec<List<Field>>,
) -> Result<Vec<List<Field>>, AllocError>
    ensures { IfOk result (λ first. first.items ≡ take most (in_order (line_cmp (keys_of order.now)) lines.items)) }
{
    let mut first = Vec::new(alloc);
    while let Some(line) = lines.pop() {
        put_line(order, most, &mut first, line)?;
    }
    Ok(first)
}

// Puts a line before the first that it isn't above, and keeps so many.
fn put_line(
    order: &[LineOrder],
    most: usize,
    first: &mut Vec<List<Field>>,
    line: List<Field>,
) -> Result<(), AllocError>
    requires { length first.old.items ≤ most }
    ensures { OnOk result (first.new.items ≡ take most (put_in_order (line_cmp (keys_of order.now)) line first.old.items)) }
{
    let at = place(order, first.as_slice(), &line);
    if at < most {
        first.insert(at, line)?;
        first.truncate(most);
    }
    Ok(())
}

// The place of the first line that this one isn't above; their number where it is above all.
fn place(order: &[LineOrder], lines: &[List<Field>], line: &List<Field>) -> usize
    ensures { result ≡ position_or_len (λ y. is_le (line_cmp (keys_of order.now) line.now y)) lines.now }
{
    for at in 0..lines.len() {
        if is_not_above(order, line, &lines[at]) {
            return at;
        }
    }
    lines.len()
}

// Whether a line isn't above another.
fn is_not_above(order: &[LineOrder], line: &List<Field>, other: &List<Field>) -> bool
    ensures { result ≡ is_le (line_cmp (keys_of order.now) line.now other.now) }
{
    compare_lines(order, line, other) != Ordering::Greater
}
