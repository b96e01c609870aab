// The groups of a cell, added to groups of values.
ghost use Rattle.std.specs.Prelude.{◌≡◌, ◌<◌, ◌≤◌, ◌+◌, ◌*◌, true, IsTrue, IfOk, OnOk, length};
ghost use Rattle.std.specs.List.{list_all};
ghost use Rattle.blink_lists.specs.declared.limits.TheConstants.{MOST_ROWS};
ghost use Rattle.cell_layout.specs.Image.{cell_at};
ghost use Rattle.cell_layout.specs.Valid.{is_valid};
ghost use Rattle.code_group.specs.CellRow.{HaveClasses};
ghost use Rattle.code_group.specs.Entries.{key_of_entries, sizes_in};
ghost use Rattle.code_group.specs.GroupRows.{spilled};
ghost use Rattle.code_group.specs.Plans.{are_of_plan, entries_within, fact_key_picks, fact_picks, pick_there};
ghost use Rattle.code_group.specs.Slots.{is_within};
ghost use Rattle.late_decode.specs.Bounds.{combinations_in};

use crate::CellGroups;
use crate::cell_row::entry_value;
use blink_base::{List, Row};
use cell_layout::Image;
use code_join::KeyMap;
use late_decode::laws::{added_are_groups, counts_added, counts_bounded};
use late_decode::{GroupPlan, Groups, Pick};
use order_codes::Dict;
use std::alloc::{AllocError, Global};
use word_pool::{Ledger, Steps};

impl CellGroups {
    /// Adds each group's parts to the group of the key that its tuple stands for: groups of two cells with equal keys become
    /// one. Where memory is wanting `into` may hold some of them, and is given up. Source: after Raman et al., ICDE 2008
    /// (aggregation on codes, decoded late).
    pub fn spill<M: Ledger>(
        self,
        alloc: Global,
        image: &Image<M>,
        cell: usize,
        keys: &[KeyMap],
        plan: &GroupPlan,
        into: &mut Groups,
        decodes: &mut Steps<M>,
    ) -> Result<(), AllocError>
        requires valid { IsTrue (is_valid image.now) }
        requires cell { cell < length image.now.cells }
        requires picks { IsTrue (list_all (pick_there (length image.now.columns) keys.now) plan.now.keys) }
        requires entries { IsTrue (entries_within image.now.columns (cell_at image.now cell).classes keys.now plan.now self) }
        requires mine { IsTrue (are_of_plan plan.now self) }
        requires theirs { IsTrue (are_of_plan plan.now into.old.1) }
        requires measures { into.old.0 ≡ plan.now.measures }
        requires few { combinations_in plan.now.measures self + combinations_in plan.now.measures into.old.1 ≤ MOST_ROWS }
        ensures measures { into.new.0 ≡ into.old.0 }
        ensures added { OnOk result (into.new.1 ≡ spilled image.now (cell_at image.now cell) plan.now keys.now self into.old.1) }
        ensures groups { OnOk result (IsTrue (are_of_plan plan.now into.new.1)) }
        ensures few { OnOk result (combinations_in plan.now.measures into.new.1 ≤ combinations_in plan.now.measures self + combinations_in plan.now.measures into.old.1) }
        // Each value of the fact in a group's key is decoded at most once.
        ensures decodes { decodes.new ≤ decodes.old + length self * fact_key_picks plan.now }
    {
        added_are_groups();
        counts_added();
        counts_bounded();
        let dicts = image.dictionaries();
        let classes = image.cell_classes(cell);
        let picks = plan.keys.as_slice();
        let mut groups = self.groups.into_reversed();
        while let Some((tuple, parts)) = groups.pop() {
            let key = key_of(alloc, dicts, classes, keys, picks, tuple.entries(), decodes)?;
            into.add(alloc, key, parts)?;
        }
        Ok(())
    }
}

// The key that a tuple stands for.
fn key_of<M: Ledger>(
    alloc: Global,
    dicts: &[Dict<M>],
    classes: &[u32],
    keys: &[KeyMap],
    picks: &[Pick],
    entries: &[u32],
    decodes: &mut Steps<M>,
) -> Result<Row, AllocError>
    requires classes { HaveClasses dicts.now classes.now }
    requires picks { IsTrue (list_all (pick_there (length dicts.now) keys.now) picks.now) }
    requires within { is_within (sizes_in dicts.now classes.now keys.now picks.now) entries.now ≡ true }
    ensures key { IfOk result (λ key. key ≡ key_of_entries dicts.now classes.now keys.now picks.now entries.now) }
    ensures decodes { decodes.new ≤ decodes.old + fact_picks picks.now }
{
    let mut values = Vec::with_capacity(alloc, picks.len())?;
    for at in 0..picks.len() {
        let value = entry_value(dicts, classes, keys, picks[at], entries[at], decodes);
        values.push(value.copy(alloc)?)?;
    }
    Ok(List::from_vec(values))
}
