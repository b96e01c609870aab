// A column's values by rank.
ghost use Rattle.std.specs.Prelude.{◌≡◌, ◌≤◌, ◌+◌, ◌++◌, All, length, IfOk, Some, map, slice_get};
ghost use Rattle.column_classes.specs.ColumnStats.{AreRanked};
ghost use Rattle.blink_lists.specs.declared.limits.TheConstants.{MOST_ROWS};
ghost use Rattle.blink_lists.specs.Lists.{in_order};
ghost use Rattle.blink_histogram.specs.Ranks.{rank_cmp};
ghost use Rattle.column_classes.specs.ColumnClasses.{counts_of};

use crate::CodedColumn;
use crate::class::classes_in;
use crate::column::{digest_rows, numbered};
use blink_base::{List, Row, Value};
use blink_histogram::{Digest, Interner, NumberedColumn};
use freq_partition::{Cut, cut, single};
use order_codes::Dict;
use std::alloc::{AllocError, Global};
use word_pool::Ledger;

// A column; the numbers and the counts of its distinct values by rank; their best division, and what it saves.
#[derive(Drop)]
pub(crate) struct RankedColumn {
    pub(crate) column: NumberedColumn,
    pub(crate) numbers: List<u32>,
    pub(crate) counts: Vec<u64>,
    pub(crate) cut: Cut,
    pub(crate) saving: u64,
}

impl RankedColumn {
    ghost use Rattle.std.specs.Prelude.{◌≡◌, ◌≤◌, IfOk, List as Listed};
    ghost use Rattle.blink_lists.specs.declared.limits.TheConstants.{MOST_ROWS};
    ghost use Rattle.column_classes.specs.ColumnClasses.{classes_if};
    ghost use Rattle.blink_lists.specs.Lists.{in_order};
    ghost use Rattle.blink_histogram.specs.Ranks.{counted, rank_cmp, ranked};
    ghost use Rattle.blink_histogram.specs.InternerRepr.{numbered_values};
    ghost use Rattle.blink_base.specs.declared.value.Value.{Value as Held};
    ghost use Rattle.column_classes.specs.ColumnStats.{IsColumn, IsRanked};
    ghost use Rattle.column_classes.specs.CodedColumn.{ArePlacesIn};

    // Of a column.
    pub(crate) fn of(alloc: Global, column: NumberedColumn) -> Result<RankedColumn, AllocError>
        requires { length column ≤ MOST_ROWS }
        ensures ranked { IfOk result (λ it. IsRanked (ranked column) it) }
        ensures column { IfOk result (λ it. it.column ≡ column) }
    {
        let interner = column.interner();
        let numbers = interner.ranked(alloc)?;
        let counts = counts_by_rank(alloc, interner, numbers.as_slice())?;
        let cut = cut(alloc, counts.as_slice())?;
        let saving = single(counts.as_slice()).saturating_sub(cut.cost);
        Ok(RankedColumn {
            column,
            numbers,
            counts,
            cut,
            saving,
        })
    }

    // Its dictionary: the classes of its best division, or one class; and the places of its values.
    pub(crate) fn coded<M: Ledger>(
        self,
        alloc: Global,
        divided: bool,
    ) -> Result<(Dict<M>, CodedColumn), AllocError>
        requires { IsColumn self }
        ensures dict { IfOk result (λ coded. (column : Listed Held) → IsRanked (ranked column) self → coded.0 ≡ classes_if divided (ranked column)) }
        ensures places { IfOk result (λ coded. ArePlacesIn coded.0 self.column coded.1) }
    {
        let classes = self.classes(alloc, divided)?;
        let RankedColumn { column, .. } = self;
        let coded = CodedColumn::of(alloc, column, classes.as_slice())?;
        match Dict::of(classes) {
            Some(dict) => Ok((dict, coded)),
            None => unreachable!(),
        }
    }

    // Its values in the classes of its best division, or in one class.
    fn classes(&self, alloc: Global, divided: bool) -> Result<List<List<Value>>, AllocError>
        requires { IsColumn self.now }
        ensures { IfOk result (λ classes. (column : Listed Held) → IsRanked (ranked column) self.now → classes ≡ classes_if divided (ranked column)) }
    {
        let numbers = self.numbers.as_slice();
        if divided {
            let sizes = &self.cut.sizes[..usize::from(self.cut.count)];
            classes_in(alloc, self.column.interner(), numbers, sizes)
        } else if numbers.is_empty() {
            classes_in(alloc, self.column.interner(), numbers, &[])
        } else {
            classes_in(
                alloc,
                self.column.interner(),
                numbers,
                &[numbers.len() as u32],
            )
        }
    }
}

// Each column of rows of so many values.
pub(crate) fn ranked_columns(
    alloc: Global,
    held: &[Row],
    batch: &[Row],
    columns: usize,
) -> Result<Vec<RankedColumn>, AllocError>
    requires held { All (λ row. length row ≡ columns) held.now }
    requires batch { All (λ row. length row ≡ columns) batch.now }
    requires few { length held.now + length batch.now ≤ MOST_ROWS }
    ensures { IfOk result (λ all. AreRanked (held.now ++ batch.now) columns all.items) }
{
    let mut values = Digest::new();
    digest_rows(&mut values, held);
    digest_rows(&mut values, batch);
    let numbered = numbered(alloc, held, batch, columns, values)?;
    let mut all = Vec::with_capacity(alloc, columns)?;
    for column in numbered {
        all.push(RankedColumn::of(alloc, column)?)?;
    }
    Ok(all)
}

// The counts of the values of these numbers.
fn counts_by_rank(
    alloc: Global,
    interner: &Interner,
    numbers: &[u32],
) -> Result<Vec<u64>, AllocError>
    requires { map (slice_get interner.now) numbers.now ≡ map Some (in_order rank_cmp interner.now) }
    ensures { IfOk result (λ counts. counts.items ≡ counts_of (in_order rank_cmp interner.now)) }
{
    let mut counts = Vec::with_capacity(alloc, numbers.len())?;
    for number in numbers {
        counts.push(interner.count(*number))?;
    }
    Ok(counts)
}
