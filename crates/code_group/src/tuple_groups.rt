// Groups by tuple.
ghost use Rattle.std.specs.Prelude.{◌≡◌, ◌<◌, ◌≤◌, ◌+◌, ◌++◌, [], ◌∷◌, true, Some, None, IsTrue, IfOk, OnOk, length, position, reverse};
ghost use Rattle.std.specs.List.{list_all, flat_map};
ghost use Rattle.std.specs.Map.{keys_of};
ghost use Rattle.blink_lists.specs.declared.limits.TheConstants.{MOST_ROWS};
ghost use Rattle.code_group.specs.CellRow.{picked_by, pick_by};
ghost use Rattle.code_group.specs.Plans.{fact_picks, measure_picks, measure_sums};
ghost use Rattle.code_group.specs.RowParts.{rows_counted};
ghost use Rattle.code_group.specs.Slots.{is_within};
ghost use Rattle.code_group.specs.TupleGroups.{with_group};
ghost use Rattle.code_group.specs.Tuples.{same_tuple};
ghost use Rattle.late_decode.specs.Bounds.{are_groups, combinations_in};
ghost use Rattle.late_decode.specs.Groups.{added};
ghost use Rattle.late_decode.specs.Parts.{no_parts, parts_over};
ghost use Rattle.late_decode.specs.declared.plan.Measure.TheVariants.{Count};

use crate::cell_row::CellRow;
use crate::row_parts::{count_rows, merge_row};
use crate::slots::{Slots, empty_slots};
use crate::tuple::Tuple;
use blink_base::List;
use indexmap::IndexMap;
use late_decode::laws::coded_parts_within;
use late_decode::{Measure, Part, no_parts};
use std::alloc::{AllocError, Global};
use std::marker::Model;
use word_pool::{Ledger, Steps};

// Groups by tuple, seen as the list of tuples with their parts, in the order in which they first came, and beside it how many
// entries there are at each place of the tuples that come. Where these make few tuples, a slot tells the place of each; else
// the hash table does.
#[derive(Drop)]
pub(crate) struct TupleGroups {
    groups: IndexMap<Tuple, List<Part>>,
    slots: Slots,
}

impl Model for TupleGroups {
    ghost use Rattle.std.specs.Prelude.{List, ℕ};
    ghost use Rattle.std.specs.Map.{keys_of};
    ghost use Rattle.late_decode.specs.Groups.{Grouped};
    ghost use Rattle.code_group.specs.Slots.{AreSlots};

    ghost Value = { Grouped (List ℕ) × List ℕ };

    ghost view = { λ g. (g.groups.entries, g.slots.sizes.items) };

    ghost invariant = { λ g. AreSlots g.slots.sizes.items g.slots.slots.items (keys_of g.groups.entries) };
}

impl TupleGroups {
    // No groups.
    pub(crate) fn new(alloc: Global) -> TupleGroups
        ensures { result.0 ≡ [] }
    {
        TupleGroups {
            groups: IndexMap::new(alloc),
            slots: Slots {
                sizes: Vec::new(alloc),
                slots: Vec::new(alloc),
            },
        }
    }

    // Makes ready for tuples within these sizes. Slots are made once, before the first group; where groups of other sizes are
    // there, the hash table finds them.
    pub(crate) fn prepare(&mut self, alloc: Global, sizes: Vec<u64>) -> Result<(), AllocError>
        ensures groups { self.new.0 ≡ self.old.0 }
        ensures sizes { OnOk result (self.new.1 ≡ sizes.items) }
    {
        if self.slots.serve(sizes.as_slice()) {
            return Ok(());
        }
        let slots = if self.groups.is_empty() {
            empty_slots(alloc, sizes.as_slice())?
        } else {
            Vec::new(alloc)
        };
        self.slots = Slots { sizes, slots };
        Ok(())
    }

    // Where the group of a tuple stands.
    fn find(&self, tuple: &Tuple) -> Option<usize>
        requires { is_within self.now.1 tuple.now ≡ true }
        ensures { result ≡ position (same_tuple tuple.now) (keys_of self.now.0) }
    {
        match self.slots.told(tuple) {
            Some(0) => None,
            Some(slot) => Some(slot as usize - 1),
            None => self.groups.get_index_of(tuple),
        }
    }

    // Puts the group of a new tuple behind the others, without rows, and tells where it stands.
    fn push(
        &mut self,
        alloc: Global,
        measures: &[Measure],
        tuple: &Tuple,
    ) -> Result<usize, AllocError>
        requires within { is_within self.old.1 tuple.now ≡ true }
        requires absent { position (same_tuple tuple.now) (keys_of self.old.0) ≡ None }
        ensures place { IfOk result (λ at. at ≡ length self.old.0) }
        ensures groups { OnOk result (self.new.0 ≡ self.old.0 ++ (tuple.now, no_parts measures.now) ∷ []) }
        ensures sizes { self.new.1 ≡ self.old.1 }
    {
        let at = self.groups.len();
        let parts = no_parts(alloc, measures)?;
        self.groups.insert(tuple.copy(alloc)?, parts)?;
        self.slots.note(tuple, at);
        Ok(at)
    }

    // Where the group of a tuple stands; one that isn't there is put behind the others.
    fn place(
        &mut self,
        alloc: Global,
        measures: &[Measure],
        tuple: &Tuple,
    ) -> Result<usize, AllocError>
        requires within { is_within self.old.1 tuple.now ≡ true }
        ensures place { IfOk result (λ at. position (same_tuple tuple.now) (keys_of self.new.0) ≡ Some at) }
        ensures groups { OnOk result (self.new.0 ≡ with_group measures.now tuple.now self.old.0) }
        ensures sizes { self.new.1 ≡ self.old.1 }
    {
        match self.find(tuple) {
            Some(at) => Ok(at),
            None => self.push(alloc, measures, tuple),
        }
    }

    // Adds a row to the group of its tuple. It takes memory only for a new group, and for a text that becomes a bound.
    pub(crate) fn add<M: Ledger>(
        &mut self,
        alloc: Global,
        row: &CellRow<M>,
        tuple: &Tuple,
        measures: &[Measure],
        decodes: &mut Steps<M>,
    ) -> Result<(), AllocError>
        requires within { is_within self.old.1 tuple.now ≡ true }
        requires groups { IsTrue (are_groups measures.now self.old.0) }
        requires few { combinations_in measures.now self.old.0 < MOST_ROWS }
        requires picks { IsTrue (list_all (λ m. list_all (pick_by row.now) (measure_picks m)) measures.now) }
        requires numbers { IsTrue (list_all (measure_sums (picked_by row.now)) measures.now) }
        ensures groups { OnOk result (self.new.0 ≡ added same_tuple measures.now tuple.now (parts_over measures.now (picked_by row.now ∷ [])) self.old.0) }
        ensures sizes { self.new.1 ≡ self.old.1 }
        ensures decodes { decodes.new ≤ decodes.old + fact_picks (flat_map measure_picks measures.now) }
    {
        coded_parts_within();
        let at = self.place(alloc, measures, tuple)?;
        match self.groups.get_index_mut(at) {
            Some(own) => merge_row(alloc, row, measures, own, decodes),
            None => unreachable!(),
        }
    }

    // Adds so many rows to the group of a tuple, where only rows are counted.
    pub(crate) fn count(
        &mut self,
        alloc: Global,
        measures: &[Measure],
        tuple: &Tuple,
        rows: u64,
    ) -> Result<(), AllocError>
        requires within { is_within self.old.1 tuple.now ≡ true }
        requires groups { IsTrue (are_groups measures.now self.old.0) }
        requires few { combinations_in measures.now self.old.0 + rows ≤ MOST_ROWS }
        requires measures { measures.now ≡ Count ∷ [] }
        ensures groups { OnOk result (self.new.0 ≡ added same_tuple measures.now tuple.now (rows_counted rows) self.old.0) }
        ensures sizes { self.new.1 ≡ self.old.1 }
    {
        coded_parts_within();
        let at = self.place(alloc, measures, tuple)?;
        match self.groups.get_index_mut(at) {
            Some(own) => count_rows(own, rows),
            None => unreachable!(),
        }
        Ok(())
    }

    // The groups, the last one first.
    pub(crate) fn into_reversed(self) -> IndexMap<Tuple, List<Part>>
        ensures { result.entries ≡ reverse self.0 }
    {
        let TupleGroups { mut groups, .. } = self;
        groups.reverse();
        groups
    }
}
