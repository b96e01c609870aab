// The selected rows of a page.
ghost use Rattle.std.specs.Prelude.{◌≡◌, ◌<◌, ◌≤◌, ◌+◌, ◌*◌, ◌∷◌, [], true, false, IsTrue, IfOk, OnOk, length, slice_index_or};
ghost use Rattle.blink_lists.specs.declared.limits.TheConstants.{PAGE_ROWS};
ghost use Rattle.cell_layout.specs.Image.{cell_at};
ghost use Rattle.code_group.specs.CellRow.{HaveClasses};
ghost use Rattle.code_group.specs.Entries.{size_in};
ghost use Rattle.code_group.specs.PageGroups.{AreReady, HaveAll, codes_at, count_from, page_sizes, row_at, row_joined};
ghost use Rattle.code_group.specs.Plans.{fact_value_picks, pick_there};
ghost use Rattle.late_decode.specs.declared.plan.Measure.TheVariants.{Count};

use crate::cell_row::CellRow;
use crate::tuple::Tuple;
use crate::tuple_groups::TupleGroups;
use blink_lists::PAGE_ROWS;
use cell_layout::Image;
use code_join::{KeyMap, PayloadMap};
use late_decode::laws::{added_are_coded, coded_combinations_added, rows_are_parts};
use late_decode::{GroupPlan, Measure, Pick};
use row_bits::PageBits;
use std::alloc::{AllocError, Global};
use std::marker::Model;
use word_pool::{Ledger, Steps};

// The selected rows of a page of a cell, and what they are grouped by.
#[derive(Drop)]
pub(crate) struct PageRows<'a, M: Ledger> {
    pub(crate) image: &'a Image<M>,
    pub(crate) cell: usize,
    pub(crate) page: u64,
    pub(crate) bits: &'a PageBits,
    pub(crate) maps: &'a [PayloadMap],
    pub(crate) keys: &'a [KeyMap],
    pub(crate) plan: &'a GroupPlan,
}

impl<'a, M: Ledger> Model for PageRows<'a, M> {
    ghost use Rattle.code_group.specs.PageGroups.{SelectedPage, page_of, MayGroup};

    ghost Value = { SelectedPage };

    ghost view = { λ p. page_of p.image.now p.cell p.page p.bits.now p.keys.now p.plan.now };

    ghost invariant = { λ p. MayGroup (page_of p.image.now p.cell p.page p.bits.now p.keys.now p.plan.now) p.maps.now };
}

impl<'a, M: Ledger> PageRows<'a, M> {
    // How many entries each pick of the plan's keys may have in the cell.
    pub(crate) fn sizes(&self, alloc: Global) -> Result<Vec<u64>, AllocError>
        ensures { IfOk result (λ sizes. sizes.items ≡ page_sizes self.now) }
    {
        let picks = self.plan.keys.as_slice();
        let mut sizes = Vec::with_capacity(alloc, picks.len())?;
        for pick in picks {
            sizes.push(size_of(self.image, self.cell, self.keys, *pick))?;
        }
        Ok(sizes)
    }

    // Whether rows are counted and nothing else: there is one group, which a page's count is added to.
    pub(crate) fn are_counted(&self) -> bool
        ensures keys { result ≡ true → self.now.plan.keys ≡ [] }
        ensures measures { result ≡ true → self.now.plan.measures ≡ Count ∷ [] }
    {
        match self.plan.measures.as_slice() {
            [Measure::Count] => self.plan.keys.len() == 0,
            _ => false,
        }
    }

    // Adds how many rows are selected to the one group of a plan that only counts rows.
    pub(crate) fn count_into(&self, alloc: Global, into: &mut TupleGroups) -> Result<(), AllocError>
        requires keys { self.now.plan.keys ≡ [] }
        requires measures { self.now.plan.measures ≡ Count ∷ [] }
        requires ready { AreReady self.now into.old.0 }
        requires sizes { into.old.1 ≡ page_sizes self.now }
        ensures { OnOk result (HaveAll self.now into.old.0 into.new.0) }
    {
        added_are_coded();
        coded_combinations_added();
        let rows = self.bits.count() as u64;
        if rows == 0 {
            return Ok(());
        }
        into.count(
            alloc,
            self.plan.measures.as_slice(),
            &Tuple::new(alloc),
            rows,
        )
    }

    // Adds the selected rows, one after another.
    pub(crate) fn add_into(
        &self,
        alloc: Global,
        into: &mut TupleGroups,
        decodes: &mut Steps<M>,
    ) -> Result<(), AllocError>
        requires ready { AreReady self.now into.old.0 }
        requires sizes { into.old.1 ≡ page_sizes self.now }
        ensures all { OnOk result (HaveAll self.now into.old.0 into.new.0) }
        ensures decodes { decodes.new ≤ decodes.old + count_from self.now 0 * fact_value_picks self.now.plan }
    {
        added_are_coded();
        coded_combinations_added();
        rows_are_parts();
        let plan = self.plan;
        let mut tuple = Tuple::new(alloc);
        let mut from = 0;
        while let Some(at) = self.bits.next_set(from) {
            let row = self.row(at);
            row.fill(plan.keys.as_slice(), &mut tuple)?;
            into.add(alloc, &row, &tuple, plan.measures.as_slice(), decodes)?;
            from = at + 1;
        }
        Ok(())
    }

    // A selected row.
    fn row(&self, at: usize) -> CellRow<'a, M>
        requires within { at < PAGE_ROWS }
        requires selected { slice_index_or self.now.bits at false ≡ true }
        requires joined { IsTrue (row_joined self.now (codes_at self.now at)) }
        ensures { result ≡ row_at self.now at }
    {
        CellRow {
            image: self.image,
            cell: self.cell,
            row: self.page * PAGE_ROWS + at as u64,
            ties: self.plan.ties.as_slice(),
            maps: self.maps,
            keys: self.keys,
        }
    }
}

// How many entries a pick may have in a cell: the size of the column's class, or the number of the tie's keys.
fn size_of<M: Ledger>(image: &Image<M>, cell: usize, keys: &[KeyMap], pick: Pick) -> u64
    requires cell { cell < length image.now.cells }
    requires classes { HaveClasses image.now.columns (cell_at image.now cell).classes }
    requires pick { IsTrue (pick_there (length image.now.columns) keys.now pick) }
    ensures { result ≡ size_in image.now.columns (cell_at image.now cell).classes keys.now pick }
{
    match pick {
        Pick::Fact(column) => {
            let dict = &image.dictionaries()[column as usize];
            u64::from(dict.size(image.cell_classes(cell)[column as usize]))
        }
        Pick::Dimension { tie, .. } => keys[tie as usize].len() as u64,
    }
}
