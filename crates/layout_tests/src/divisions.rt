// Divisions of ranked values.
ghost use Rattle.std.specs.Prelude.{◌≤◌, All, sum, IfOk, IsTrue};
ghost use Rattle.blink_lists.specs.declared.limits.TheConstants.{MOST_ROWS};
ghost use Rattle.freq_partition.specs.Division.{never_rises};

use freq_partition::{Chosen, Cut, choose_columns, cut, single};
use std::alloc::{AllocError, Global};
use std::test::Fail;

// The best division of counts, and the cost of one class.
fn divided(alloc: Global, counts: &[u64]) -> Result<(Cut, u64), AllocError>
    requires positive { All (λ count. 1 ≤ count) counts.now }
    requires ranked { IsTrue (never_rises counts.now) }
    requires few { sum counts.now ≤ MOST_ROWS }
{
    Ok((cut(alloc, counts)?, single(counts)))
}

#[test]
fn one_value_that_stands_often(rt: HostRuntime) -> Result<(), Fail> {
    let (found, whole) = divided(rt.alloc(), &[100, 10, 10, 10, 10])?;
    let wanted = Cut {
        count: 2,
        sizes: [2, 3, 0, 0],
        cost: 298,
    };
    assert_eq!(rt; (found, whole), (wanted, 484));
    Ok(())
}

// So many values of one row each.
fn ones(alloc: Global, n: usize) -> Result<Vec<u64>, AllocError>
    requires { n ≤ MOST_ROWS }
    ensures positive { IfOk result (λ counts. All (λ count. 1 ≤ count) counts.items) }
    ensures ranked { IfOk result (λ counts. IsTrue (never_rises counts.items)) }
    ensures few { IfOk result (λ counts. sum counts.items ≤ MOST_ROWS) }
{
    let counts = vec![in alloc; 1; n]?;
    Ok(counts)
}

#[test]
fn values_of_one_row_each(rt: HostRuntime) -> Result<(), Fail> {
    let counts = ones(rt.alloc(), 8_388_608)?;
    let even = Cut {
        count: 4,
        sizes: [2_097_152; 4],
        cost: 21 * 8_388_608 + 4 * 64,
    };
    assert_eq!(rt; cut(rt.alloc(), &counts)?, even);
    Ok(())
}

#[test]
fn columns_that_save_most(rt: HostRuntime) -> Result<(), Fail> {
    let three = Chosen {
        count: 3,
        columns: [1, 2, 3],
    };
    assert_eq!(rt; choose_columns(&[0, 7, 9, 7, 7]), three);
    Ok(())
}
