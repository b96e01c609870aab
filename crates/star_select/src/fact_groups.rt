// The groups of the selected rows of a fact.
ghost use Rattle.std.specs.Prelude.{◌≡◌, ◌<◌, ◌≤◌, ◌+◌, ◌*◌, [], ◌∷◌, IsTrue, IfOk, OnOk, length};
ghost use Rattle.blink_lists.specs.declared.limits.TheConstants.{MOST_ROWS};
ghost use Rattle.cell_layout.specs.Image.{cell_at, row_count};
ghost use Rattle.cell_layout.specs.Valid.{is_valid};
ghost use Rattle.code_group.specs.GroupRows.{cells_added, rest_added};
ghost use Rattle.code_group.specs.Plans.{are_of_plan};
ghost use Rattle.star_select.specs.CodeSelection.{fact_cells, fact_rest};
ghost use Rattle.star_select.specs.Decodes.{group_decodes};
ghost use Rattle.star_select.specs.FactRows.{HaveTaken, MayTake, chosen_before, chosen_in, fact_plan, picks_of, rest_at};
ghost use Rattle.star_select.specs.FactView.{fact_of};
ghost use Rattle.star_select.specs.ImageAnswer.{fact_groups};
ghost use Rattle.star_select.specs.QueryImages.{IsFact};
ghost use Rattle.star_select.specs.QueryPlan.{plan_of};

use crate::fact::Fact;
use crate::row_tests::is_wanted;
use blink_base::List;
use cell_layout::Image;
use code_group::group_rest;
use code_join::KeyMap;
use late_decode::laws::counts_bounded;
use late_decode::{GroupPlan, Groups, Measure};
use star_bind::Query;
use std::alloc::{AllocError, Global};
use word_pool::{Ledger, Steps};

impl<'a, M: Ledger> Fact<'a, M> {
    // Adds the selected rows of a cell. A cell of which no row can be selected is passed over.
    fn add_cell(
        &self,
        alloc: Global,
        cell: usize,
        into: &mut Groups,
        decodes: &mut Steps<M>,
    ) -> Result<(), AllocError>
        requires cell { cell < length self.now.image.now.cells }
        requires room { MayTake (fact_of self.now) into.old (length (chosen_in (fact_of self.now) cell)) }
        ensures taken { OnOk result (HaveTaken (fact_of self.now) into.old into.new (cells_added self.now.image.now (fact_plan (fact_of self.now)) self.now.keys.now ((cell_at self.now.image.now cell, chosen_in (fact_of self.now) cell) ∷ []) into.old.1) (length (chosen_in (fact_of self.now) cell))) }
        ensures decodes { decodes.new ≤ decodes.old + length (chosen_in (fact_of self.now) cell) * picks_of (fact_of self.now) }
    {
        counts_bounded();
        let tests = self.tests(alloc, cell)?;
        if tests.len() == 0 {
            return Ok(());
        }
        let groups = self.cell_groups(alloc, cell, tests.as_slice(), decodes)?;
        groups.spill(alloc, self.image, cell, self.keys, self.plan, into, decodes)
    }

    // Adds the selected rows of all cells.
    fn add_cells(
        &self,
        alloc: Global,
        into: &mut Groups,
        decodes: &mut Steps<M>,
    ) -> Result<(), AllocError>
        requires room { MayTake (fact_of self.now) into.old (chosen_before (fact_of self.now) (length self.now.image.now.cells)) }
        ensures taken { OnOk result (HaveTaken (fact_of self.now) into.old into.new (cells_added self.now.image.now (fact_plan (fact_of self.now)) self.now.keys.now (fact_cells self.now.image.now self.now.query.now self.now.keys.now) into.old.1) (chosen_before (fact_of self.now) (length self.now.image.now.cells))) }
        ensures decodes { decodes.new ≤ decodes.old + chosen_before (fact_of self.now) (length self.now.image.now.cells) * picks_of (fact_of self.now) }
    {
        for cell in 0..self.image.cell_count() {
            self.add_cell(alloc, cell, into, decodes)?;
        }
        Ok(())
    }

    // Adds a row that is in no cell, where it is selected.
    fn add_row(&self, alloc: Global, at: usize, into: &mut Groups) -> Result<(), AllocError>
        requires at { at < length self.now.image.now.rest }
        requires room { MayTake (fact_of self.now) into.old 1 }
        ensures taken { OnOk result (HaveTaken (fact_of self.now) into.old into.new (rest_added (fact_plan (fact_of self.now)) self.now.keys.now (rest_at (fact_of self.now) at) into.old.1) 1) }
    {
        let row = &self.image.rest()[at];
        if is_wanted(self.conjunctions(), row) {
            return group_rest(alloc, row, self.keys, self.plan, into);
        }
        Ok(())
    }

    // Adds the selected rows that are in no cell.
    fn add_rest(&self, alloc: Global, into: &mut Groups) -> Result<(), AllocError>
        requires room { MayTake (fact_of self.now) into.old (length self.now.image.now.rest) }
        ensures taken { OnOk result (HaveTaken (fact_of self.now) into.old into.new (rest_added (fact_plan (fact_of self.now)) self.now.keys.now (fact_rest self.now.image.now self.now.query.now self.now.keys.now) into.old.1) (length self.now.image.now.rest)) }
    {
        for at in 0..self.image.rest_count() {
            self.add_row(alloc, at, into)?;
        }
        Ok(())
    }
}

// The measures of a plan.
fn measures_of(alloc: Global, plan: &GroupPlan) -> Result<List<Measure>, AllocError>
    ensures { IfOk result (λ measures. measures ≡ plan.now.measures) }
{
    Ok(List::from_vec(Vec::from_slice(alloc, plan.measures.as_slice())?))
}

// The groups of the selected rows of the fact: of the cells, page by page, and then of the rows that are in no cell.
pub(crate) fn fact_groups<M: Ledger>(
    alloc: Global,
    image: &Image<M>,
    query: &Query,
    plan: &GroupPlan,
    keys: &[KeyMap],
    decodes: &mut Steps<M>,
) -> Result<Groups, AllocError>
    requires valid { IsTrue (is_valid image.now) }
    requires few { row_count image.now ≤ MOST_ROWS }
    requires plan { plan.now ≡ plan_of query.now }
    requires fact { IsFact image.now query.now keys.now }
    ensures measures { IfOk result (λ groups. groups.0 ≡ plan.now.measures) }
    ensures groups { IfOk result (λ groups. groups.1 ≡ fact_groups image.now query.now keys.now) }
    ensures of_plan { IfOk result (λ groups. IsTrue (are_of_plan plan.now groups.1)) }
    ensures decodes { decodes.new ≤ decodes.old + group_decodes image.now query.now keys.now }
{
    counts_bounded();
    let fact = Fact {
        image,
        query,
        plan,
        keys,
    };
    let mut groups = Groups::new(alloc, measures_of(alloc, plan)?);
    fact.add_cells(alloc, &mut groups, decodes)?;
    fact.add_rest(alloc, &mut groups)?;
    Ok(groups)
}
