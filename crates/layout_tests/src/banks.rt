// Shapes of fields, and banks of columns.
ghost use Rattle.std.specs.Prelude.{◌≡◌, ◌≤◌, true, length};
ghost use Rattle.std.specs.List.{list_all};
ghost use Rattle.blink_lists.specs.declared.limits.TheConstants.{MOST_COLUMNS};
ghost use Rattle.masked_compare.specs.Fields.{is_width};

use bank_pack::BankPlan;
use masked_compare::Shape;
use std::alloc::{AllocError, Global};
use std::test::Fail;

// The widths of fields, the bits of a lane, and how many lanes a word has; 0 where they are no shape's.
const SHAPES: [(&[u8], u32, usize); 14] = [
    (&[], 0, 0),
    (&[0], 0, 0),
    (&[1], 8, 8),
    (&[7], 8, 8),
    (&[8], 16, 4),
    (&[3, 4], 16, 4),
    (&[7, 7], 16, 4),
    (&[7, 8], 32, 2),
    (&[23], 32, 2),
    (&[24], 0, 0),
    (&[22, 8], 32, 2),
    (&[23, 8], 0, 0),
    (&[1, 1, 1, 1, 1, 1, 1, 1, 1, 1, 1, 1, 1, 1, 1, 1], 32, 2),
    (&[1, 1, 1, 1, 1, 1, 1, 1, 1, 1, 1, 1, 1, 1, 1, 1, 1], 0, 0),
];

// The bits and the number of the lanes of fields of these widths.
fn lanes_of(widths: &[u8]) -> (u32, usize) {
    match Shape::new(widths) {
        Some(shape) => (shape.bits(), shape.lanes()),
        None => (0, 0),
    }
}

// The same, where each field but the first is put behind the others.
fn lanes_behind(widths: &[u8]) -> (u32, usize) {
    let [first, others @ ..] = widths else {
        return (0, 0);
    };
    let mut shape = Shape::new(&[*first]);
    for width in others {
        shape = shape.and_then(|shape| shape.with(*width));
    }
    match shape {
        Some(shape) => (shape.bits(), shape.lanes()),
        None => (0, 0),
    }
}

#[test]
fn lanes_hold_their_fields(rt: HostRuntime) -> Result<(), Fail> {
    for (widths, bits, lanes) in &SHAPES {
        assert_eq!(rt; lanes_of(widths), (*bits, *lanes));
        assert_eq!(rt; lanes_behind(widths), (*bits, *lanes));
    }
    Ok(())
}

// The widths of columns, the columns of each bank, and the bits of its lanes.
type Row = (&'static [u8], &'static [&'static [u32]], &'static [u32]);

const PLANS: [Row; 5] = [
    (&[1], &[&[0]], &[8]),
    (&[3, 4], &[&[0, 1]], &[16]),
    (
        &[20, 10, 9, 23, 7],
        &[&[0, 1], &[2, 4], &[3]],
        &[32, 32, 32],
    ),
    (&[15, 15, 1], &[&[0, 1], &[2]], &[32, 8]),
    (&[23, 23, 8, 7], &[&[0, 3], &[1], &[2]], &[32, 32, 16]),
];

// Whether the banks of these widths have these columns and lanes of these bits.
fn are_banks(
    alloc: Global,
    widths: &[u8],
    banks: &[&[u32]],
    bits: &[u32],
) -> Result<bool, AllocError>
    requires few { length widths.now ≤ MOST_COLUMNS }
    requires widths { list_all is_width widths.now ≡ true }
{
    let plan = BankPlan::of(alloc, widths)?;
    let mut same = plan.banks() == banks.len() && banks.len() == bits.len();
    for at in 0..plan.banks().min(banks.len()).min(bits.len()) {
        same = same && plan.columns(at) == banks[at] && plan.shape(at).bits() == bits[at];
    }
    Ok(same)
}

#[test]
fn columns_go_into_the_first_bank_with_room(rt: HostRuntime) -> Result<(), Fail> {
    for (widths, banks, bits) in &PLANS {
        assert!(rt; are_banks(rt.alloc(), widths, banks, bits)?);
    }
    Ok(())
}
