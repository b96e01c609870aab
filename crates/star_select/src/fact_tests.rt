// The tests of a fact's cells, and the places of its keys in them.
ghost use Rattle.std.specs.Prelude.{◌≡◌, ◌<◌, IfOk, length};
ghost use Rattle.cell_layout.specs.Image.{cell_at};
ghost use Rattle.code_group.specs.Entries.{maps_in};
ghost use Rattle.star_bind.specs.Joins.{filters_at};
ghost use Rattle.star_select.specs.FactRows.{AreTestsOf};
ghost use Rattle.star_select.specs.FactView.{fact_of};
ghost use Rattle.star_select.specs.Picks.{tied_columns};

use crate::cell_tests::cell_tests;
use crate::fact::Fact;
use blink_base::List;
use cell_scan::CodeTest;
use code_group::laws::cells_have_classes;
use code_join::{PayloadMap, payload};
use star_bind::Conjunction;
use std::alloc::{AllocError, Global};
use word_pool::Ledger;

impl<'a, M: Ledger> Fact<'a, M> {
    // The condition on the fact, as conjunctions.
    pub(crate) fn conjunctions(&self) -> &'a [Conjunction]
        ensures { result.now ≡ filters_at self.now.query.now self.now.query.now.fact }
    {
        self.query.filters.as_slice()[self.query.fact as usize].as_slice()
    }

    // The tests of codes that select the rows of a cell.
    pub(crate) fn tests(
        &self,
        alloc: Global,
        cell: usize,
    ) -> Result<List<List<CodeTest>>, AllocError>
        requires { cell < length self.now.image.now.cells }
        ensures { IfOk result (λ tests. AreTestsOf (fact_of self.now) cell tests) }
    {
        let ties = self.plan.ties.as_slice();
        cell_tests(
            alloc,
            self.image,
            cell,
            self.conjunctions(),
            ties,
            self.keys,
        )
    }

    // Per tie the places of its keys by the codes of a cell.
    pub(crate) fn maps(&self, alloc: Global, cell: usize) -> Result<Vec<PayloadMap>, AllocError>
        requires { cell < length self.now.image.now.cells }
        ensures { IfOk result (λ maps. maps.items ≡ maps_in self.now.image.now.columns (cell_at self.now.image.now cell).classes (tied_columns self.now.query.now) self.now.keys.now) }
    {
        cells_have_classes();
        let ties = self.plan.ties.as_slice();
        let dicts = self.image.dictionaries();
        let classes = self.image.cell_classes(cell);
        let mut maps = Vec::with_capacity(alloc, ties.len())?;
        for tie in 0..ties.len() {
            let column = ties[tie] as usize;
            maps.push(payload(alloc, &dicts[column], classes[column], &self.keys[tie])?)?;
        }
        Ok(maps)
    }
}
