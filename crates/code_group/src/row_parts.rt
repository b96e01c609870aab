// The parts of a group, and a row more.
ghost use Rattle.std.specs.Prelude.{◌≡◌, ◌<◌, ◌≤◌, ◌+◌, ◌^◌, [], ◌∷◌, Some, IsTrue, OnOk, nat_abs, slice_index_or};
ghost use Rattle.std.specs.List.{list_all, flat_map};
ghost use Rattle.std.specs.Ordering.{flip_args};
ghost use Rattle.blink_base.specs.Values.{value_cmp};
ghost use Rattle.blink_lists.specs.declared.limits.TheConstants.{MOST_ROWS};
ghost use Rattle.code_group.specs.CellRow.{picked_by, pick_by};
ghost use Rattle.code_group.specs.Plans.{fact_picks, formula_picks, is_good_number, measure_picks, measure_sums, summed_picks};
ghost use Rattle.code_group.specs.RowParts.{HaveRoom, rows_counted};
ghost use Rattle.late_decode.specs.Bounds.{are_parts, is_bounded};
ghost use Rattle.late_decode.specs.declared.plan.Measure.TheVariants.{Count};
ghost use Rattle.late_decode.specs.Parts.{formula_number, lesser, measure_bound, measure_sum, merged_bound, merged_part, merged_parts, no_part, part_over, parts_over};

use crate::cell_row::CellRow;
use crate::formula::combined;
use blink_base::{List, Value};
use late_decode::{Formula, Measure, Part, Pick};
use std::alloc::{AllocError, Global};
use std::cmp::Ordering;
use word_pool::{Ledger, Steps};

// Adds a row to the parts of a group, measure by measure. It takes memory only for a text that becomes a bound.
pub(crate) fn merge_row<M: Ledger>(
    alloc: Global,
    row: &CellRow<M>,
    measures: &[Measure],
    own: &mut List<Part>,
    decodes: &mut Steps<M>,
) -> Result<(), AllocError>
    requires own { IsTrue (are_parts measures.now own.old) }
    requires room { HaveRoom own.old }
    requires picks { IsTrue (list_all (λ m. list_all (pick_by row.now) (measure_picks m)) measures.now) }
    requires numbers { IsTrue (list_all (measure_sums (picked_by row.now)) measures.now) }
    ensures parts { OnOk result (own.new ≡ merged_parts measures.now own.old (parts_over measures.now (picked_by row.now ∷ []))) }
    ensures decodes { decodes.new ≤ decodes.old + fact_picks (flat_map measure_picks measures.now) }
{
    for at in 0..measures.len() {
        match own.get_mut(at) {
            Some(part) => merge_measure(alloc, row, measures[at], part, decodes)?,
            None => unreachable!(),
        }
    }
    Ok(())
}

// Adds a row to the part of a measure.
fn merge_measure<M: Ledger>(
    alloc: Global,
    row: &CellRow<M>,
    measure: Measure,
    own: &mut Part,
    decodes: &mut Steps<M>,
) -> Result<(), AllocError>
    requires own { IsTrue (is_bounded own.old) }
    requires room { own.old.count < MOST_ROWS }
    requires picks { IsTrue (list_all (pick_by row.now) (measure_picks measure)) }
    requires numbers { IsTrue (measure_sums (picked_by row.now) measure) }
    ensures part { OnOk result (own.new ≡ merged_part measure own.old (part_over measure (picked_by row.now ∷ []))) }
    ensures decodes { decodes.new ≤ decodes.old + fact_picks (measure_picks measure) }
{
    own.count += 1;
    own.sum += sum_of(row, measure, decodes);
    merge_bound(alloc, row, measure, &mut own.bound, decodes)
}

// What a measure sums of a row: the number of its formula, or 0.
fn sum_of<M: Ledger>(row: &CellRow<M>, measure: Measure, decodes: &mut Steps<M>) -> i128
    requires picks { IsTrue (list_all (pick_by row.now) (measure_picks measure)) }
    requires numbers { IsTrue (measure_sums (picked_by row.now) measure) }
    ensures sum { result ≡ measure_sum measure (picked_by row.now ∷ []) }
    ensures bounded { nat_abs result ≤ 10 ^ 30 }
    ensures decodes { decodes.new ≤ decodes.old + fact_picks (summed_picks measure) }
{
    match measure {
        Measure::Sum(formula) => number_of(row, formula, decodes),
        Measure::Average(formula) => number_of(row, formula, decodes),
        _ => 0,
    }
}

// The number of a formula.
fn number_of<M: Ledger>(row: &CellRow<M>, formula: Formula, decodes: &mut Steps<M>) -> i128
    requires picks { IsTrue (list_all (pick_by row.now) (formula_picks formula)) }
    requires numbers { IsTrue (list_all (λ p. is_good_number (picked_by row.now p)) (formula_picks formula)) }
    ensures number { result ≡ formula_number formula (picked_by row.now) }
    ensures bounded { nat_abs result ≤ 10 ^ 30 }
    ensures decodes { decodes.new ≤ decodes.old + fact_picks (formula_picks formula) }
{
    match formula {
        Formula::One(pick) => {
            let value = row.value(pick, decodes);
            combined(formula, value, value)
        }
        Formula::Times(first, last) => {
            let value = row.value(first, decodes);
            combined(formula, value, row.value(last, decodes))
        }
        Formula::Plus(first, last) => {
            let value = row.value(first, decodes);
            combined(formula, value, row.value(last, decodes))
        }
        Formula::Minus(first, last) => {
            let value = row.value(first, decodes);
            combined(formula, value, row.value(last, decodes))
        }
    }
}

// Keeps the bound of both that a measure asks for.
fn merge_bound<M: Ledger>(
    alloc: Global,
    row: &CellRow<M>,
    measure: Measure,
    own: &mut Option<Value>,
    decodes: &mut Steps<M>,
) -> Result<(), AllocError>
    requires picks { IsTrue (list_all (pick_by row.now) (measure_picks measure)) }
    ensures bound { OnOk result (own.new ≡ merged_bound measure own.old (measure_bound measure (picked_by row.now ∷ []))) }
    ensures decodes { decodes.new + fact_picks (summed_picks measure) ≤ decodes.old + fact_picks (measure_picks measure) }
{
    match measure {
        Measure::Least(pick) => keep_least(alloc, own, row.value(pick, decodes)),
        Measure::Greatest(pick) => keep_greatest(alloc, own, row.value(pick, decodes)),
        _ => {
            *own = None;
            Ok(())
        }
    }
}

// Keeps the lesser of a bound and a value.
fn keep_least(alloc: Global, own: &mut Option<Value>, value: &Value) -> Result<(), AllocError>
    ensures { OnOk result (own.new ≡ lesser value_cmp own.old (Some value.now)) }
{
    let replaces = match &*own {
        Some(bound) => bound.compare(value) == Ordering::Greater,
        None => true,
    };
    if replaces {
        *own = Some(value.copy(alloc)?);
    }
    Ok(())
}

// Keeps the greater of a bound and a value.
fn keep_greatest(alloc: Global, own: &mut Option<Value>, value: &Value) -> Result<(), AllocError>
    ensures { OnOk result (own.new ≡ lesser (flip_args value_cmp) own.old (Some value.now)) }
{
    let replaces = match &*own {
        Some(bound) => value.compare(bound) == Ordering::Greater,
        None => true,
    };
    if replaces {
        *own = Some(value.copy(alloc)?);
    }
    Ok(())
}

// Adds so many rows to the part of the one measure, where it counts rows.
pub(crate) fn count_rows(own: &mut List<Part>, rows: u64)
    requires own { IsTrue (are_parts (Count ∷ []) own.old) }
    requires room { (slice_index_or own.old 0 no_part).count + rows ≤ MOST_ROWS }
    ensures { own.new ≡ merged_parts (Count ∷ []) own.old (rows_counted rows) }
{
    if let Some(part) = own.get_mut(0) {
        part.count += rows;
        part.bound = None;
    }
}
