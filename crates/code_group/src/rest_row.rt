// A row that is in no cell, beside the keys of its ties.
ghost use Rattle.std.specs.Prelude.{◌≡◌, ◌<◌, [], ◌∷◌, ℕ, true, IsTrue, IfOk, IfSome, is_some, length, nat_lt, slice_index_or};
ghost use Rattle.std.specs.List.{list_all};
ghost use Rattle.code_group.specs.Entries.{has_keys, picked_beside, value_at};
ghost use Rattle.code_group.specs.Plans.{formula_picks, is_good_number, measure_sums, measure_there, pick_there};
ghost use Rattle.code_join.specs.Keys.{entry_at, payload_of};
ghost use Rattle.late_decode.specs.Parts.{formula_number, measure_bound, measure_sum, part_over, parts_over};
ghost use Rattle.late_decode.specs.PlannedRows.{key_of};

use crate::formula::combined;
use blink_base::{List, Row, Value};
use code_join::KeyMap;
use code_join::laws::payloads_by_place;
use late_decode::{Formula, Measure, Part, Pick};
use std::alloc::{AllocError, Global};

// A row that is in no cell, each tied value of which is a key.
#[derive(Drop)]
pub(crate) struct RestRow<'a> {
    pub(crate) row: &'a Row,
    pub(crate) ties: &'a [u32],
    pub(crate) keys: &'a [KeyMap],
    ghost many: { length keys.now ≡ length ties.now },
    ghost within: { list_all (λ k. nat_lt k (length row.now)) ties.now ≡ true },
    ghost joined: { has_keys ties.now keys.now row.now ≡ true },
}

impl<'a> RestRow<'a> {
    // The row with these ties, where each tied value is a key.
    pub(crate) fn of(row: &'a Row, ties: &'a [u32], keys: &'a [KeyMap]) -> Option<RestRow<'a>>
        requires many { length keys.now ≡ length ties.now }
        requires within { IsTrue (list_all (λ k. nat_lt k (length row.now)) ties.now) }
        ensures some { is_some result ≡ has_keys ties.now keys.now row.now }
        ensures row { IfSome result (λ rest. (rest.row.now ≡ row.now) × (rest.ties.now ≡ ties.now) × (rest.keys.now ≡ keys.now)) }
    {
        if !has_keys(row.as_slice(), ties, keys) {
            return None;
        }
        Some(RestRow { row, ties, keys })
    }

    // The value of a pick.
    fn value(&self, pick: Pick) -> &'a Value
        requires { IsTrue (pick_there (length self.now.row.now) self.now.keys.now pick) }
        ensures { result.now ≡ picked_beside self.now.ties.now self.now.keys.now self.now.row.now pick }
    {
        match pick {
            Pick::Fact(column) => &self.row.as_slice()[column as usize],
            Pick::Dimension { tie, place } => &self
                .payload(tie as usize)
                .as_slice()[place as usize],
        }
    }

    // The payload of the key that a tie leads to.
    fn payload(&self, tie: usize) -> &'a Row
        requires { tie < length self.now.keys.now }
        ensures payload { result.now ≡ payload_of (entry_at (slice_index_or self.now.keys.now tie []) (value_at self.now.row.now (slice_index_or self.now.ties.now tie 0))) }
        ensures kept { (place : ℕ) → list_all (λ entry. nat_lt place (length entry.1)) (slice_index_or self.now.keys.now tie []) ≡ true → place < length result.now }
    {
        payloads_by_place();
        let keys = &self.keys[tie];
        match keys.place(&self.row.as_slice()[self.ties[tie] as usize]) {
            Some(place) => keys.payload(place),
            None => unreachable!(),
        }
    }

    // The key of its group.
    pub(crate) fn key(&self, alloc: Global, picks: &[Pick]) -> Result<Row, AllocError>
        requires { IsTrue (list_all (pick_there (length self.now.row.now) self.now.keys.now) picks.now) }
        ensures { IfOk result (λ key. key ≡ key_of picks.now (picked_beside self.now.ties.now self.now.keys.now self.now.row.now)) }
    {
        let mut values = Vec::with_capacity(alloc, picks.len())?;
        for pick in picks {
            values.push(self.value(*pick).copy(alloc)?)?;
        }
        Ok(List::from_vec(values))
    }

    // Its parts, one a measure.
    pub(crate) fn parts(
        &self,
        alloc: Global,
        measures: &[Measure],
    ) -> Result<List<Part>, AllocError>
        requires picks { IsTrue (list_all (measure_there (length self.now.row.now) self.now.keys.now) measures.now) }
        requires numbers { IsTrue (list_all (measure_sums (picked_beside self.now.ties.now self.now.keys.now self.now.row.now)) measures.now) }
        ensures { IfOk result (λ parts. parts ≡ parts_over measures.now (picked_beside self.now.ties.now self.now.keys.now self.now.row.now ∷ [])) }
    {
        let mut parts = Vec::with_capacity(alloc, measures.len())?;
        for measure in measures {
            parts.push(self.part(alloc, *measure)?)?;
        }
        Ok(List::from_vec(parts))
    }

    // The part of a measure.
    fn part(&self, alloc: Global, measure: Measure) -> Result<Part, AllocError>
        requires picks { IsTrue (measure_there (length self.now.row.now) self.now.keys.now measure) }
        requires numbers { IsTrue (measure_sums (picked_beside self.now.ties.now self.now.keys.now self.now.row.now) measure) }
        ensures { IfOk result (λ part. part ≡ part_over measure (picked_beside self.now.ties.now self.now.keys.now self.now.row.now ∷ [])) }
    {
        Ok(Part {
            count: 1,
            sum: self.sum_of(measure),
            bound: self.bound_of(alloc, measure)?,
        })
    }

    // What a measure sums: the number of its formula, or 0.
    fn sum_of(&self, measure: Measure) -> i128
        requires picks { IsTrue (measure_there (length self.now.row.now) self.now.keys.now measure) }
        requires numbers { IsTrue (measure_sums (picked_beside self.now.ties.now self.now.keys.now self.now.row.now) measure) }
        ensures { result ≡ measure_sum measure (picked_beside self.now.ties.now self.now.keys.now self.now.row.now ∷ []) }
    {
        match measure {
            Measure::Sum(formula) => self.number_of(formula),
            Measure::Average(formula) => self.number_of(formula),
            _ => 0,
        }
    }

    // The number of a formula.
    fn number_of(&self, formula: Formula) -> i128
        requires picks { IsTrue (list_all (pick_there (length self.now.row.now) self.now.keys.now) (formula_picks formula)) }
        requires numbers { IsTrue (list_all (λ p. is_good_number (picked_beside self.now.ties.now self.now.keys.now self.now.row.now p)) (formula_picks formula)) }
        ensures { result ≡ formula_number formula (picked_beside self.now.ties.now self.now.keys.now self.now.row.now) }
    {
        match formula {
            Formula::One(pick) => combined(formula, self.value(pick), self.value(pick)),
            Formula::Times(first, last) => combined(formula, self.value(first), self.value(last)),
            Formula::Plus(first, last) => combined(formula, self.value(first), self.value(last)),
            Formula::Minus(first, last) => combined(formula, self.value(first), self.value(last)),
        }
    }

    // The value that a measure bounds, where it asks for one.
    fn bound_of(&self, alloc: Global, measure: Measure) -> Result<Option<Value>, AllocError>
        requires { IsTrue (measure_there (length self.now.row.now) self.now.keys.now measure) }
        ensures { IfOk result (λ bound. bound ≡ measure_bound measure (picked_beside self.now.ties.now self.now.keys.now self.now.row.now ∷ [])) }
    {
        match measure {
            Measure::Least(pick) => Ok(Some(self.value(pick).copy(alloc)?)),
            Measure::Greatest(pick) => Ok(Some(self.value(pick).copy(alloc)?)),
            _ => Ok(None),
        }
    }
}

// Whether each tied value of a row is a key.
fn has_keys(row: &[Value], ties: &[u32], keys: &[KeyMap]) -> bool
    requires many { length keys.now ≡ length ties.now }
    requires within { IsTrue (list_all (λ k. nat_lt k (length row.now)) ties.now) }
    ensures { result ≡ has_keys ties.now keys.now row.now }
{
    for tie in 0..ties.len() {
        if keys[tie].place(&row[ties[tie] as usize]).is_none() {
            return false;
        }
    }
    true
}
