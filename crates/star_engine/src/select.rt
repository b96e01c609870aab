// The answer to a SELECT.
ghost use Rattle.std.specs.Prelude.{◌≡◌, ◌≤◌, ◌+◌, IsTrue, IfOk, map, filter_map};
ghost use Rattle.report_text.specs.AnswerText.{are_good_lines};
ghost use Rattle.star_sql.specs.Spelling.{HasFewTokens};
ghost use Rattle.star_sql.specs.WellFormed.{is_select};
ghost use Rattle.star_sql.specs.declared.ast.Statement.TheVariants as statement;
ghost use Rattle.star_engine.specs.Causes.{IsAnswer};
ghost use Rattle.star_engine.specs.EngineRepr.{HasTables, IsEngineOf, image_named};
ghost use Rattle.star_engine.specs.Queries.{selected, most_decoded};
ghost use Rattle.star_engine.specs.State.{Tables};

use crate::{Engine, EngineError};
use blink_base::{Answer, Word};
use cell_layout::Image;
use star_bind::bind;
use star_meaning::laws::rows_in_any_order;
use star_select::answer_query;
use star_sql::Select;
use std::alloc::{AllocError, Global};
use word_pool::{Ledger, Steps};

impl<M: Ledger> Engine<M> {
    // The images of the tables of these names, one behind the other.
    fn images(&self, alloc: Global, names: &[Word]) -> Result<Vec<&Image<M>>, AllocError>
        ensures { IfOk result (λ images. map (λ image. image.now) images.items ≡ filter_map (image_named self.now) names.now) }
    {
        let mut images = Vec::with_capacity(alloc, names.len())?;
        for name in names {
            if let Some(image) = self.image(name.as_str()) {
                images.push(image)?;
            }
        }
        Ok(images)
    }

    /// The answer to a SELECT over the tables that are there. The statement is well formed and is written with fewer than
    /// 4,294,967,296 tokens.
    ///
    /// It is refused exactly where [`bind`] is, with the refusal of that fault. [`EngineError::Memory`] comes where there
    /// isn't enough memory. The counter rises by no more than the query may decode: nothing where it is refused, and else a
    /// value for each selected row of a table and place at which the query names a column of it, and one more for a
    /// dimension's key. Source: ISO/IEC 9075 (query expressions); the star form, the bound and the order of refusals are this
    /// project's own.
    pub fn select(
        &self,
        alloc: Global,
        select: &Select,
        decodes: &mut Steps<M>,
    ) -> Result<Answer, EngineError>
        requires sound { HasTables self.now }
        requires formed { IsTrue (is_select select.now) }
        requires few { HasFewTokens (statement.Select select.now) }
        ensures answer { (tables : Tables) → IsEngineOf tables self.now → IsAnswer result (selected tables select.now) }
        // Each date in it is one of the calendar.
        ensures dates { IfOk result (λ answer. IsTrue (are_good_lines answer.lines)) }
        ensures decodes { (tables : Tables) → IsEngineOf tables self.now → decodes.new ≤ decodes.old + most_decoded tables select.now }
    {
        rows_in_any_order();
        let query = bind(alloc, self, select)?;
        let images = self.images(alloc, select.tables.as_slice())?;
        let answer = answer_query(alloc, &query, &images, decodes)?;
        Ok(answer)
    }
}
