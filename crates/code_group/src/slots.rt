// Slots that tell where tuples stand, by number.
ghost use Rattle.std.specs.Prelude.{◌≡◌, ◌<◌, ◌≤◌, ◌++◌, [], ◌∷◌, ℕ, List as Listed, true, None, IfSome, IfOk, length, position, replicate, slice_index_or};
ghost use Rattle.code_group.specs.declared.limits.TheConstants.{MOST_SLOTS};
ghost use Rattle.code_group.specs.Slots.{AreSlots, is_within, number_of, tuple_count};
ghost use Rattle.code_group.specs.Tuples.{same_tuple};

use crate::MOST_SLOTS;
use crate::tuple::Tuple;
use std::alloc::{AllocError, Global};

// How many entries a tuple may have at each place, and a slot per tuple, by its number: 0, or one more than where it stands.
// No slots at all tell nothing.
#[derive(Drop)]
pub(crate) struct Slots {
    pub(crate) sizes: Vec<u64>,
    pub(crate) slots: Vec<u32>,
}

impl Slots {
    // Whether there are slots, of these sizes.
    pub(crate) fn serve(&self, sizes: &[u64]) -> bool
        ensures { result ≡ true → self.now.sizes.items ≡ sizes.now }
    {
        !self.slots.is_empty() && self.sizes.as_slice() == sizes
    }

    // The slot of a tuple, where there is one.
    pub(crate) fn told(&self, tuple: &Tuple) -> Option<u32>
        requires full { 0 < length self.now.slots.items → tuple_count self.now.sizes.items ≡ length self.now.slots.items }
        requires few { length self.now.slots.items ≤ MOST_SLOTS }
        requires within { is_within self.now.sizes.items tuple.now ≡ true }
        ensures some { IfSome result (λ slot. 0 < length self.now.slots.items) }
        ensures slot { IfSome result (λ slot. slot ≡ slice_index_or self.now.slots.items (number_of self.now.sizes.items tuple.now) 0) }
    {
        if self.slots.is_empty() {
            return None;
        }
        let number = number_of(self.sizes.as_slice(), tuple.entries());
        Some(self.slots[number])
    }

    // Notes that a new tuple stands behind so many others. A place that no slot can tell gives the slots up.
    pub(crate) fn note(&mut self, tuple: &Tuple, at: usize)
        requires full { 0 < length self.old.slots.items → tuple_count self.old.sizes.items ≡ length self.old.slots.items }
        requires few { length self.old.slots.items ≤ MOST_SLOTS }
        requires within { is_within self.old.sizes.items tuple.now ≡ true }
        ensures sizes { self.new.sizes.items ≡ self.old.sizes.items }
        ensures noted { (tuples : Listed (Listed ℕ)) → AreSlots self.old.sizes.items self.old.slots.items tuples → at ≡ length tuples → position (same_tuple tuple.now) tuples ≡ None → AreSlots self.new.sizes.items self.new.slots.items (tuples ++ tuple.now ∷ []) }
    {
        if self.slots.is_empty() {
            return;
        }
        if at < u32::MAX as usize {
            let number = number_of(self.sizes.as_slice(), tuple.entries());
            self.slots[number] = at as u32 + 1;
        } else {
            self.slots.clear();
        }
    }
}

// The number of a tuple.
fn number_of(sizes: &[u64], entries: &[u32]) -> usize
    requires few { tuple_count sizes.now ≤ MOST_SLOTS }
    requires within { is_within sizes.now entries.now ≡ true }
    ensures number { result ≡ number_of sizes.now entries.now }
    ensures below { result < tuple_count sizes.now }
{
    let mut number = 0;
    let mut at = entries.len();
    while at > 0 {
        at -= 1;
        number = number * sizes[at] + u64::from(entries[at]);
    }
    number as usize
}

// How many tuples there are within sizes, where there may be a slot for each.
fn tuple_count(sizes: &[u64]) -> Option<usize>
    ensures count { IfSome result (λ count. count ≡ tuple_count sizes.now) }
    ensures few { IfSome result (λ count. count ≤ MOST_SLOTS) }
{
    let mut count: u64 = 1;
    let mut at = sizes.len();
    while at > 0 {
        at -= 1;
        match sizes[at].checked_mul(count) {
            Some(more) if more <= MOST_SLOTS => count = more,
            _ => return None,
        }
    }
    Some(count as usize)
}

// Slots where no tuple stands yet; none where too many tuples may come.
pub(crate) fn empty_slots(alloc: Global, sizes: &[u64]) -> Result<Vec<u32>, AllocError>
    ensures { IfOk result (λ slots. AreSlots sizes.now slots.items []) }
{
    match tuple_count(sizes) {
        Some(count) => zeros(alloc, count),
        None => Ok(Vec::new(alloc)),
    }
}

// So many zeros.
fn zeros(alloc: Global, count: usize) -> Result<Vec<u32>, AllocError>
    ensures { IfOk result (λ zeros. zeros.items ≡ replicate count 0) }
{
    let mut zeros = Vec::with_capacity(alloc, count)?;
    for _slot in 0..count {
        zeros.push(0)?;
    }
    Ok(zeros)
}
