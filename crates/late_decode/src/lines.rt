// The lines that groups give.
ghost use Rattle.std.specs.Prelude.{◌≡◌, ◌<◌, ◌^◌, ◌++◌, IfOk, OnOk, IsTrue, length, replicate};
ghost use Rattle.std.specs.List.{list_all};
ghost use Rattle.late_decode.specs.Bounds.{are_parts, are_groups, slot_within, slots_within};
ghost use Rattle.late_decode.specs.GroupLines.{group_line, line_count, lines_of};
ghost use Rattle.late_decode.specs.LineSteps.{place_of};
ghost use Rattle.blink_lists.specs.Rearrangement.{Rearranged};

use crate::fields::copy_field;
use crate::key::Key;
use crate::source::{sources, take_field};
use crate::{Finish, Measure, Part, Slot};
use blink_base::{Field, List, Row};
use indexmap::IndexMap;
use std::alloc::{AllocError, Global};

// The lines of groups, in some order.
pub(crate) fn group_lines(
    alloc: Global,
    measures: &[Measure],
    mut groups: IndexMap<Key, List<Part>>,
    finish: &Finish,
) -> Result<Vec<List<Field>>, AllocError>
    requires groups { IsTrue (are_groups measures.now groups.entries) }
    requires slots { IsTrue (slots_within measures.now finish.now.slots groups.entries) }
    ensures { IfOk result (λ lines. Rearranged lines.items (lines_of measures.now finish.now.slots finish.now.repeat groups.entries)) }
{
    let mut lines = Vec::new(alloc);
    while let Some((key, parts)) = groups.pop() {
        push_group(alloc, &mut lines, measures, finish, key.into_row(), parts)?;
    }
    Ok(lines)
}

// Adds the lines of a group.
pub(crate) fn push_group(
    alloc: Global,
    lines: &mut Vec<List<Field>>,
    measures: &[Measure],
    finish: &Finish,
    key: Row,
    parts: List<Part>,
) -> Result<(), AllocError>
    requires parts { IsTrue (are_parts measures.now parts) }
    requires slots { IsTrue (list_all (slot_within measures.now key) finish.now.slots) }
    ensures { OnOk result (lines.new.items ≡ lines.old.items ++ replicate (line_count finish.now.repeat parts) (group_line measures.now finish.now.slots (key, parts))) }
{
    let times = line_count(finish.repeat, &parts);
    let line = line_of(alloc, measures, finish.slots.as_slice(), key, parts)?;
    push_times(alloc, lines, line, times)
}

// How many lines a group gives: one, or as many as its first measure counts.
fn line_count(repeat: bool, parts: &List<Part>) -> u64
    ensures { result ≡ line_count repeat parts.now }
{
    if !repeat {
        return 1;
    }
    match parts.get(0) {
        Some(part) => part.count,
        None => 0,
    }
}

// The line of a group: the fields of its slots.
fn line_of(
    alloc: Global,
    measures: &[Measure],
    slots: &[Slot],
    key: Row,
    parts: List<Part>,
) -> Result<List<Field>, AllocError>
    requires parts { IsTrue (are_parts measures.now parts) }
    requires slots { IsTrue (list_all (slot_within measures.now key) slots.now) }
    ensures { IfOk result (λ line. line ≡ group_line measures.now slots.now (key, parts)) }
{
    let mut sources = sources(alloc, measures, key, parts)?;
    let mut line = Vec::with_capacity(alloc, slots.len())?;
    for slot in slots {
        let place = place_of(measures.len(), *slot);
        let field = take_field(alloc, &mut sources, place, line.as_slice())?;
        line.push(field)?;
    }
    Ok(List::from_vec(line))
}

// The place of a slot among the fields of a group with so many measures.
fn place_of(measures: usize, slot: Slot) -> usize
    requires { place_of measures slot < 2 ^ 64 }
    ensures { result ≡ place_of measures slot }
{
    match slot {
        Slot::Key(at) => measures + at as usize,
        Slot::Measure(at) => at as usize,
    }
}

// Adds a line so many times; the last time it moves.
fn push_times(
    alloc: Global,
    lines: &mut Vec<List<Field>>,
    line: List<Field>,
    times: u64,
) -> Result<(), AllocError>
    ensures { OnOk result (lines.new.items ≡ lines.old.items ++ replicate times line) }
{
    if times == 0 {
        return Ok(());
    }
    for _ in 0..times - 1 {
        lines.push(copy_line(alloc, line.as_slice())?)?;
    }
    lines.push(line)?;
    Ok(())
}

// An equal line.
fn copy_line(alloc: Global, line: &[Field]) -> Result<List<Field>, AllocError>
    ensures { IfOk result (λ copy. copy ≡ line.now) }
{
    let mut fields = Vec::with_capacity(alloc, line.len())?;
    for field in line {
        fields.push(copy_field(alloc, field)?)?;
    }
    Ok(List::from_vec(fields))
}
