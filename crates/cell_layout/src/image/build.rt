// Rows laid out anew.
ghost use Rattle.std.specs.Prelude.{◌≡◌, ◌≤◌, ◌+◌, ◌++◌, All, IsTrue, IfErr, IfOk, length};
ghost use Rattle.std.specs.List.{list_all};
ghost use Rattle.blink_base.specs.RowFits.{fits};
ghost use Rattle.blink_lists.specs.Rearrangement.{Rearranged};
ghost use Rattle.cell_layout.specs.Image.{rows_of};
ghost use Rattle.cell_layout.specs.Layout.{laid};
ghost use Rattle.cell_layout.specs.Refusals.{refusal_of, IsRefusal};
ghost use Rattle.cell_layout.specs.Valid.{is_valid, MayHold};
ghost use Rattle.blink_lists.specs.declared.limits.TheConstants.{MOST_ROWS, MOST_COLUMNS};

use crate::cells::{PlacedRows, place_coded};
use crate::laws::rows_laid_out_anew_are_kept;
use crate::{Image, LayoutError};
use blink_base::{Copied, List, Row, Schema};
use column_classes::{ColumnCodes, column_codes};
use std::alloc::{AllocError, Global};
use word_pool::{Ledger, Steps};

impl<M: Ledger> Image<M> {
    /// Rows laid out anew: each column's values in classes by how often they come, each row in the cell of its values'
    /// classes.
    ///
    /// The rows are such as a table of this schema may hold: at most 8,388,608, each with one good value of its kind per
    /// column, and no key twice. The one error is [`LayoutError::Memory`]. Source: after Raman et al., ICDE 2008 (frequency
    /// partitioning).
    pub fn build(alloc: Global, schema: &Schema, rows: &List<Row>) -> Result<Image<M>, LayoutError>
        requires { MayHold schema.now rows.now }
        ensures laid { IfOk result (λ image. image ≡ laid schema.now rows.now) }
        ensures valid { IfOk result (λ image. IsTrue (is_valid image)) }
        ensures rows { IfOk result (λ image. Rearranged rows.now (rows_of image)) }
        ensures memory { IfErr result (λ why. why ≡ LayoutError.Memory) }
    {
        rows_laid_out_anew_are_kept();
        Ok(Image::lay_out(alloc, schema, &[], rows.as_slice())?)
    }

    /// The image's rows and a batch behind them, laid out anew beside the image.
    ///
    /// The image is valid, the batch's rows fit its schema, and the limit is at most 8,388,608 rows.
    /// [`LayoutError::Rows`] comes exactly where the rows held and the batch are more than the limit, and else
    /// [`LayoutError::DuplicateKey`] exactly where the key of a batch row stands before it in the table or the batch, with the
    /// first such row. Source: after Raman et al., ICDE 2008 (frequency partitioning); the limit and the order of refusals are
    /// this project's own.
    pub fn relaid(
        &self,
        alloc: Global,
        limit: u64,
        batch: &List<Row>,
        decodes: &mut Steps<M>,
    ) -> Result<Image<M>, LayoutError>
        requires valid { IsTrue (is_valid self.now) }
        requires limit { limit ≤ MOST_ROWS }
        requires fit { IsTrue (list_all (fits self.now.schema) batch.now) }
        ensures laid { IfOk result (λ image. image ≡ laid self.now.schema (rows_of self.now ++ batch.now)) }
        ensures valid { IfOk result (λ image. IsTrue (is_valid image)) }
        ensures rows { IfOk result (λ image. Rearranged (rows_of self.now ++ batch.now) (rows_of image)) }
        ensures refused { IsRefusal result (refusal_of limit self.now batch.now) }
    {
        self.admit(alloc, limit, batch)?;
        let held = self.all_rows(alloc, decodes)?;
        rows_laid_out_anew_are_kept();
        Ok(Image::lay_out(alloc, &self.schema, held.as_slice(), batch.as_slice())?)
    }

    // Held rows, and a batch behind them, laid out anew.
    pub(crate) fn lay_out(
        alloc: Global,
        schema: &Schema,
        held: &[Row],
        batch: &[Row],
    ) -> Result<Image<M>, AllocError>
        requires columns { length schema.now.columns ≤ MOST_COLUMNS }
        requires held { All (λ row. length row ≡ length schema.now.columns) held.now }
        requires batch { All (λ row. length row ≡ length schema.now.columns) batch.now }
        requires few { length held.now + length batch.now ≤ MOST_ROWS }
        ensures { IfOk result (λ image. image ≡ laid schema.now (held.now ++ batch.now)) }
    {
        let ColumnCodes { dicts, places } = column_codes(alloc, held, batch, schema.columns.len())?;
        let PlacedRows { cells, rest } = place_coded(
            alloc,
            dicts.as_slice(),
            places.as_slice(),
            held,
            batch,
        )?;
        Ok(Image {
            schema: schema.copied(alloc)?,
            dicts,
            cells,
            rest,
            rows: (held.len() + batch.len()) as u64,
        })
    }
}
