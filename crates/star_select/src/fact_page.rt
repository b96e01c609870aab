// The selected rows of a cell of a fact, page by page.
ghost use Rattle.std.specs.Prelude.{◌≡◌, ◌<◌, ◌≤◌, ◌+◌, ◌*◌, [], IfOk, OnOk, length};
ghost use Rattle.cell_layout.specs.Blocks.{page_count};
ghost use Rattle.cell_layout.specs.Image.{cell_at};
ghost use Rattle.code_group.specs.Entries.{maps_in};
ghost use Rattle.code_group.specs.Plans.{fact_value_picks};
ghost use Rattle.star_select.specs.FactRows.{AreGrouped, AreTestsOf, MayGrow, chosen_in, fact_plan};
ghost use Rattle.star_select.specs.FactView.{fact_of};
ghost use Rattle.star_select.specs.Picks.{tied_columns};
ghost use Rattle.star_select.specs.Preconditions.{page_selected};

use crate::cell_tests::page_bits;
use crate::fact::Fact;
use blink_base::List;
use cell_scan::CodeTest;
use cell_scan::laws::selected_rows_pass;
use code_group::{CellGroups, group_page};
use code_join::PayloadMap;
use late_decode::laws::counts_bounded;
use std::alloc::{AllocError, Global};
use word_pool::{Ledger, Steps};

impl<'a, M: Ledger> Fact<'a, M> {
    // Adds the selected rows of a page to the groups of its cell. A page of which no row is selected is passed over.
    fn add_page(
        &self,
        alloc: Global,
        cell: usize,
        page: u64,
        tests: &[List<CodeTest>],
        maps: &[PayloadMap],
        into: &mut CellGroups,
        decodes: &mut Steps<M>,
    ) -> Result<(), AllocError>
        requires cell { cell < length self.now.image.now.cells }
        requires page { page < page_count (cell_at self.now.image.now cell) }
        requires tests { AreTestsOf (fact_of self.now) cell tests.now }
        requires maps { maps.now ≡ maps_in self.now.image.now.columns (cell_at self.now.image.now cell).classes (tied_columns self.now.query.now) self.now.keys.now }
        requires room { MayGrow (fact_of self.now) cell into.old (length (page_selected self.now.image.now self.now.query.now self.now.keys.now cell page)) }
        ensures grouped { OnOk result (AreGrouped (fact_of self.now) cell (page_selected self.now.image.now self.now.query.now self.now.keys.now cell page) into.old into.new) }
        ensures decodes { decodes.new ≤ decodes.old + length (page_selected self.now.image.now self.now.query.now self.now.keys.now cell page) * fact_value_picks (fact_plan (fact_of self.now)) }
    {
        selected_rows_pass();
        let bits = page_bits(self.image, cell, tests, page);
        if bits.count() == 0 {
            return Ok(());
        }
        group_page(
            alloc, self.image, cell, page, &bits, maps, self.keys, self.plan, into, decodes,
        )
    }

    // The groups of the selected rows of a cell.
    pub(crate) fn cell_groups(
        &self,
        alloc: Global,
        cell: usize,
        tests: &[List<CodeTest>],
        decodes: &mut Steps<M>,
    ) -> Result<CellGroups, AllocError>
        requires cell { cell < length self.now.image.now.cells }
        requires tests { AreTestsOf (fact_of self.now) cell tests.now }
        ensures grouped { IfOk result (λ groups. AreGrouped (fact_of self.now) cell (chosen_in (fact_of self.now) cell) [] groups) }
        ensures decodes { decodes.new ≤ decodes.old + length (chosen_in (fact_of self.now) cell) * fact_value_picks (fact_plan (fact_of self.now)) }
    {
        counts_bounded();
        let maps = self.maps(alloc, cell)?;
        let maps = maps.as_slice();
        let mut groups = CellGroups::new(alloc);
        for page in 0..self.image.cell_pages(cell) {
            self.add_page(alloc, cell, page, tests, maps, &mut groups, decodes)?;
        }
        Ok(groups)
    }
}
