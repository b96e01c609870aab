// Rows added to an image.
ghost use Rattle.std.specs.Prelude.{◌≡◌, ◌≤◌, ◌++◌, IsTrue, OnOk, OnErr, None, ◌<◌, ◌+◌, All, nat_lt};
ghost use Rattle.std.specs.List.{list_all};
ghost use Rattle.blink_base.specs.RowFits.{fits};
ghost use Rattle.blink_lists.specs.Rearrangement.{Rearranged};
ghost use Rattle.cell_layout.specs.Image.{rows_of};
ghost use Rattle.cell_layout.specs.Layout.{grown};
ghost use Rattle.cell_layout.specs.Refusals.{refusal_of, IsRefusal};
ghost use Rattle.cell_layout.specs.Valid.{is_valid};
ghost use Rattle.blink_lists.specs.declared.limits.TheConstants.{MOST_ROWS};

use crate::cells::{add_placed, place_rows};
use crate::laws::{rows_added_are_kept, standing_rows_keep_their_places};
use crate::{Image, LayoutError};
use blink_base::{List, Row};
use std::alloc::Global;
use word_pool::{Ledger, Steps};

impl<M: Ledger> Image<M> {
    /// Adds a batch of rows to the standing layout: a row whose values have classes goes behind those of its cell, any other
    /// into rest.
    ///
    /// The image is valid, the batch's rows fit its schema, and the limit is at most 8,388,608 rows.
    /// [`LayoutError::Rows`] comes exactly where the rows held and the batch are more than the limit, and else
    /// [`LayoutError::DuplicateKey`] exactly where the key of a batch row stands before it in the table or the batch, with the
    /// first such row. All room is got before the first row is added, so a refused call keeps the image. The counter rises
    /// only where there is a primary key. Source: after Raman et al., ICDE 2008; the limit and the order of refusals are this
    /// project's own.
    pub fn append(
        &mut self,
        alloc: Global,
        limit: u64,
        batch: &List<Row>,
        decodes: &mut Steps<M>,
    ) -> Result<(), LayoutError>
        requires valid { IsTrue (is_valid self.old) }
        requires limit { limit ≤ MOST_ROWS }
        requires fit { IsTrue (list_all (fits self.old.schema) batch.now) }
        ensures grown { OnOk result (self.new ≡ grown self.old batch.now) }
        ensures valid { OnOk result (IsTrue (is_valid self.new)) }
        ensures rows { OnOk result (Rearranged (rows_of self.old ++ batch.now) (rows_of self.new)) }
        ensures refused { IsRefusal result (refusal_of limit self.old batch.now) }
        ensures kept { OnErr result (self.new ≡ self.old) }
        // A table without a primary key is asked nothing.
        ensures decodes { self.old.schema.key ≡ None → decodes.new ≡ decodes.old }
    {
        self.admit(alloc, limit, batch)?;
        rows_added_are_kept();
        standing_rows_keep_their_places();
        let placed = place_rows(alloc, self.dicts.as_slice(), batch.as_slice())?;
        add_placed(&mut self.cells, &mut self.rest, placed)?;
        self.rows += batch.len() as u64;
        Ok(())
    }
}
