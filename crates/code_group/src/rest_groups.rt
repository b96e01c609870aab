// A row that is in no cell, added to groups of values.
ghost use Rattle.std.specs.Prelude.{◌≡◌, ◌≤◌, ◌+◌, ◌∷◌, [], true, IsTrue, OnOk, filter, length, nat_lt};
ghost use Rattle.std.specs.List.{list_all};
ghost use Rattle.blink_lists.specs.declared.limits.TheConstants.{MOST_ROWS};
ghost use Rattle.code_group.specs.Entries.{has_keys, picked_beside};
ghost use Rattle.code_group.specs.GroupRows.{rest_added};
ghost use Rattle.code_group.specs.Plans.{are_of_plan, plan_there, sums_numbers};
ghost use Rattle.late_decode.specs.Bounds.{combinations_in};

use crate::rest_row::RestRow;
use blink_base::Row;
use code_join::KeyMap;
use late_decode::laws::{
    added_are_groups, combinations_added, combinations_together, rows_are_parts,
};
use late_decode::{GroupPlan, Groups};
use std::alloc::{AllocError, Global};

/// Adds the parts of a row that is in no cell to the group of its key; one with a tied value that is no key adds nothing.
/// `keys` has a map per tie. Where memory is wanting `into` may hold it or not. Source: ISO/IEC 9075 (GROUP BY clause).
pub fn group_rest(
    alloc: Global,
    row: &Row,
    keys: &[KeyMap],
    plan: &GroupPlan,
    into: &mut Groups,
) -> Result<(), AllocError>
    requires plan { IsTrue (plan_there (length row.now) keys.now plan.now) }
    requires ties { length keys.now ≡ length plan.now.ties }
    requires tied { IsTrue (list_all (λ k. nat_lt k (length row.now)) plan.now.ties) }
    requires numbers { has_keys plan.now.ties keys.now row.now ≡ true → IsTrue (sums_numbers plan.now (picked_beside plan.now.ties keys.now row.now)) }
    requires groups { IsTrue (are_of_plan plan.now into.old.1) }
    requires measures { into.old.0 ≡ plan.now.measures }
    requires few { combinations_in plan.now.measures into.old.1 + 1 ≤ MOST_ROWS }
    ensures measures { into.new.0 ≡ into.old.0 }
    ensures added { OnOk result (into.new.1 ≡ rest_added plan.now keys.now (filter (has_keys plan.now.ties keys.now) (row.now ∷ [])) into.old.1) }
    ensures groups { OnOk result (IsTrue (are_of_plan plan.now into.new.1)) }
    ensures few { OnOk result (combinations_in plan.now.measures into.new.1 ≤ combinations_in plan.now.measures into.old.1 + 1) }
{
    added_are_groups();
    combinations_added();
    combinations_together();
    rows_are_parts();
    match RestRow::of(row, plan.ties.as_slice(), keys) {
        Some(rest) => {
            let key = rest.key(alloc, plan.keys.as_slice())?;
            let parts = rest.parts(alloc, plan.measures.as_slice())?;
            into.add(alloc, key, parts)
        }
        None => Ok(()),
    }
}
