// Uncoded rows of a dimension.
ghost use Rattle.std.specs.Prelude.{◌≡◌, ◌<◌, [], ◌∷◌, pos, None, IfOk, OnOk, OnErr, All, length, map, slice_index_or};
ghost use Rattle.blink_base.specs.declared.value.Value.TheVariants.{Int};
ghost use Rattle.code_join.specs.Keys.{place_of_key};
ghost use Rattle.dim_filter.specs.Entries.{collected};

use blink_base::{List, Row, Value};
use code_join::{KeyMap, MOST_KEYS};
use std::alloc::{AllocError, Global};

/// Puts the key of an uncoded row with its wanted values, in the order in which they are asked for, behind the others. The
/// key isn't there yet, and fewer than 4,294,967,296 keys are. Want of memory changes nothing. Source: after Raman et al.,
/// ICDE 2008 (dimensions are filtered first).
pub fn collect_rest(
    alloc: Global,
    row: &Row,
    key: u32,
    wanted: &[u32],
    into: &mut KeyMap,
) -> Result<(), AllocError>
    requires key { key < length row.now }
    requires wanted { All (λ column. column < length row.now) wanted.now }
    requires absent { place_of_key into.old (slice_index_or row.now key (Int (pos 0))) ≡ None }
    requires few { length into.old < MOST_KEYS }
    ensures keys { OnOk result (into.new ≡ collected key wanted.now into.old (row.now ∷ [])) }
    ensures err { OnErr result (into.new ≡ into.old) }
{
    let values = row.as_slice();
    let payload = copies(alloc, values, wanted)?;
    let key = values[key as usize].copy(alloc)?;
    into.put(key, payload)
}

// Copies of the values in these columns.
fn copies(alloc: Global, values: &[Value], columns: &[u32]) -> Result<Row, AllocError>
    requires { All (λ column. column < length values.now) columns.now }
    ensures { IfOk result (λ copies. copies ≡ map (λ column. slice_index_or values.now column (Int (pos 0))) columns.now) }
{
    let mut copies = Vec::with_capacity(alloc, columns.len())?;
    for column in columns {
        copies.push(values[*column as usize].copy(alloc)?)?;
    }
    Ok(List::from_vec(copies))
}
