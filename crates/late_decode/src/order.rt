// The order of lines.
ghost use Rattle.std.specs.Prelude.{◌≡◌};
ghost use Rattle.std.specs.Cmp.Lexicographic.{slice_cmp};
ghost use Rattle.blink_base.specs.Lines.{by_item, directed, field_cmp, line_cmp};
ghost use Rattle.late_decode.specs.GroupLines.{keys_of};

use crate::LineOrder;
use crate::fields::compare_fields;
use blink_base::{Field, List};
use std::cmp::Ordering;

// The order of two lines: by the keys, and then by all items from left to right.
pub(crate) fn compare_lines(order: &[LineOrder], x: &List<Field>, y: &List<Field>) -> Ordering
    ensures { result ≡ line_cmp (keys_of order.now) x.now y.now }
{
    for key in order {
        let by_key = compare_by(*key, x.as_slice(), y.as_slice());
        if by_key != Ordering::Equal {
            return by_key;
        }
    }
    compare_items(x.as_slice(), y.as_slice())
}

// The order of two lines by one key.
fn compare_by(key: LineOrder, x: &[Field], y: &[Field]) -> Ordering
    ensures { result ≡ directed key.falling (by_item key.slot) x.now y.now }
{
    let at = key.slot as usize;
    if key.falling {
        return compare_item(at, y, x);
    }
    compare_item(at, x, y)
}

// The order of two lines by the item at a place.
fn compare_item(at: usize, x: &[Field], y: &[Field]) -> Ordering
    ensures { result ≡ by_item at x.now y.now }
{
    let first = x.get(at).unwrap_or(&Field::Null);
    let second = y.get(at).unwrap_or(&Field::Null);
    compare_fields(first, second)
}

// The order of two lines by all items from left to right.
fn compare_items(x: &[Field], y: &[Field]) -> Ordering
    ensures { result ≡ slice_cmp field_cmp x.now y.now }
{
    let mut left = x;
    let mut right = y;
    while let (Some((first, left_rest)), Some((second, right_rest))) = (
        left.split_first(),
        right.split_first(),
    ) {
        let by_item = compare_fields(first, second);
        if by_item != Ordering::Equal {
            return by_item;
        }
        left = left_rest;
        right = right_rest;
    }
    left.len().cmp(&right.len())
}
