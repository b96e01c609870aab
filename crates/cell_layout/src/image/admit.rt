// Whether a batch may be added to an image.
ghost use Rattle.std.specs.Prelude.{◌≡◌, ◌≤◌, ◌+◌, IsTrue, OnOk, length, nat_lt};
ghost use Rattle.std.specs.List.{list_all};
ghost use Rattle.blink_base.specs.RowFits.{fits};
ghost use Rattle.cell_layout.specs.Image.{row_count};
ghost use Rattle.cell_layout.specs.Refusals.{refusal_of, IsRefusal};
ghost use Rattle.cell_layout.specs.Valid.{is_valid};
ghost use Rattle.blink_lists.specs.declared.limits.TheConstants.{MOST_ROWS};

use crate::duplicate_keys::keys_apart;
use crate::{Image, LayoutError};
use blink_base::{List, Row};
use std::alloc::Global;
use word_pool::Ledger;

impl<M: Ledger> Image<M> {
    // Whether a batch may stand behind the image's rows: they are together within the limit, and each key is new.
    pub(crate) fn admit(
        &self,
        alloc: Global,
        limit: u64,
        batch: &List<Row>,
    ) -> Result<(), LayoutError>
        requires valid { IsTrue (is_valid self.now) }
        requires limit { limit ≤ MOST_ROWS }
        requires fit { IsTrue (list_all (fits self.now.schema) batch.now) }
        ensures refused { IsRefusal result (refusal_of limit self.now batch.now) }
        ensures few { OnOk result (row_count self.now + length batch.now ≤ limit) }
    {
        if exceed(self.rows, batch.len(), limit) {
            return Err(LayoutError::Rows);
        }
        keys_apart(
            alloc,
            self.schema.key,
            self.dicts.as_slice(),
            self.cells.as_slice(),
            self.rest.as_slice(),
            batch.as_slice(),
        )
    }
}

// Whether held rows and further ones are more than a limit.
fn exceed(held: u64, more: usize, limit: u64) -> bool
    ensures { result ≡ nat_lt limit (held + more) }
{
    match held.checked_add(more as u64) {
        Some(all) => all > limit,
        None => true,
    }
}
