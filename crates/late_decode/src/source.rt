// Fields of a group that move into a line, each once; a further slot of the same field copies it.
ghost use Rattle.std.specs.Prelude.{◌≡◌, ◌<◌, ◌≤◌, ◌+◌, IfOk, OnOk, IsTrue, length, map, Some, None, ◌≢◌, slice_get, slice_set, slice_index_or, ◌++◌, reverse};
ghost use Rattle.blink_base.specs.Lines.{field_of};
ghost use Rattle.late_decode.specs.Bounds.{are_parts};
ghost use Rattle.late_decode.specs.LineSteps.{group_fields, measure_fields, source_field};

use crate::fields::{copy_field, field_of, measure_field};
use crate::{Measure, Part};
use blink_base::{Field, List, Row};
use std::alloc::{AllocError, Global};

/// Where a field of a group stands.
#[derive(Drop)]
pub enum Source {
    /// It stands here.
    Here(Field),
    /// It went to this place of the line.
    Moved(usize),
}

// All fields of a group: those of its measures, and those of its key behind them. Values move.
pub(crate) fn sources(
    alloc: Global,
    measures: &[Measure],
    key: Row,
    parts: List<Part>,
) -> Result<Vec<Source>, AllocError>
    requires { IsTrue (are_parts measures.now parts) }
    ensures { IfOk result (λ all. all.items ≡ map (λ field. Source.Here field) (group_fields measures.now (key, parts))) }
{
    let mut all = Vec::with_capacity(alloc, key.len())?;
    push_key(&mut all, key)?;
    push_parts(&mut all, measures, parts)?;
    all.reverse();
    Ok(all)
}

// Adds the fields of a key, the last one first.
fn push_key(all: &mut Vec<Source>, key: Row) -> Result<(), AllocError>
    ensures { OnOk result (all.new.items ≡ all.old.items ++ reverse (map (λ value. Source.Here (field_of value)) key)) }
{
    let mut values = key.into_vec();
    while let Some(value) = values.pop() {
        all.push(Source::Here(field_of(value)))?;
    }
    Ok(())
}

// Adds the fields of measures, the last one first.
fn push_parts(
    all: &mut Vec<Source>,
    measures: &[Measure],
    parts: List<Part>,
) -> Result<(), AllocError>
    requires { length parts ≤ length measures.now }
    ensures { OnOk result (all.new.items ≡ all.old.items ++ reverse (map (λ field. Source.Here field) (measure_fields measures.now parts))) }
{
    let mut rest = parts.into_vec();
    while let Some(part) = rest.pop() {
        let measure = measures[rest.len()];
        all.push(Source::Here(measure_field(measure, part)))?;
    }
    Ok(())
}

// The field at a place: moved, or copied out of the line where it was moved already.
pub(crate) fn take_field(
    alloc: Global,
    sources: &mut Vec<Source>,
    place: usize,
    line: &[Field],
) -> Result<Field, AllocError>
    requires there { place < length sources.old.items }
    requires within { source_field line.now (slice_index_or sources.old.items place (Source.Moved 0)) ≢ None }
    ensures value { IfOk result (λ field. Some field ≡ source_field line.now (slice_index_or sources.old.items place (Source.Moved 0))) }
    ensures moved { OnOk result (sources.new.items ≡ slice_set sources.old.items place (Source.Moved (length line.now))) }
{
    match std::mem::replace(&mut sources[place], Source::Moved(line.len())) {
        Source::Here(field) => Ok(field),
        Source::Moved(at) => copy_field(alloc, &line[at]),
    }
}
