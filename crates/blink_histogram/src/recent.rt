// Whole numbers that were seen last.
ghost use Rattle.std.specs.Prelude.{◌≡◌, Some, OnOk, slice_get, ℕ, List as Listed};
ghost use Rattle.blink_base.specs.declared.value.Value.{Value as Kept};
ghost use Rattle.blink_histogram.specs.Recent.{AreSeen};

use blink_base::Value;
use std::alloc::{AllocError, Global};

// How many numbers are kept: one for each value of their low bits.
const SLOTS: usize = 1024;

// A whole number with its place and one; 0 where none was seen.
#[derive(Clone, Copy)]
pub(crate) struct Seen {
    pub(crate) number: i64,
    pub(crate) next: u32,
}

// Whole numbers with their places, each at the slot of its low bits, where the last one stands.
#[derive(Drop)]
pub(crate) struct Recent {
    pub(crate) seen: Vec<Seen>,
}

impl Recent {
    // Of no number, and without room for any.
    pub(crate) fn new(alloc: Global) -> Recent
        ensures { (keys : Listed Kept) → AreSeen keys result.seen.items }
    {
        Recent {
            seen: Vec::new(alloc),
        }
    }

    // Gets room, where there is none yet.
    pub(crate) fn make_room(&mut self) -> Result<(), AllocError>
        ensures { (keys : Listed Kept) → AreSeen keys self.old.seen.items → AreSeen keys self.new.seen.items }
    {
        if self.seen.is_empty() {
            self.seen.resize(SLOTS, Seen { number: 0, next: 0 })?;
        }
        Ok(())
    }

    // Keeps a value with its place, where it is a whole number and there is room.
    pub(crate) fn keep(&mut self, value: &Value, place: u32)
        ensures { (keys : Listed Kept) → AreSeen keys self.old.seen.items → slice_get keys place ≡ Some value.now → AreSeen keys self.new.seen.items }
    {
        if let (Value::Int(number), Some(next)) = (value, place.checked_add(1)) {
            if let Some(slot) = self.seen.get_mut(slot_of(*number)) {
                *slot = Seen {
                    number: *number,
                    next,
                };
            }
        }
    }

    // The place of a value, where it is a whole number and the last of its slot.
    pub(crate) fn find(&self, value: &Value) -> Option<u32>
        ensures { (keys : Listed Kept) (place : ℕ) → AreSeen keys self.now.seen.items → result ≡ Some place → slice_get keys place ≡ Some value.now }
    {
        match value {
            Value::Int(number) => match self.seen.get(slot_of(*number)) {
                Some(slot) if slot.number == *number => slot.next.checked_sub(1),
                _ => None,
            },
            _ => None,
        }
    }
}

// The slot of a number: its low bits.
fn slot_of(number: i64) -> usize {
    (number.unsigned_abs() % SLOTS as u64) as usize
}
