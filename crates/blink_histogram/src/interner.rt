// Values by number, and how often each came.
ghost use Rattle.std.specs.Prelude.{◌≡◌, ◌<◌, ◌≤◌, ◌+◌, ◌++◌, [], ◌∷◌, List as Listed, length, slice_get, map, Some, option_map, IfOk, OnOk, OnErr, ℕ, position};
ghost use Rattle.blink_base.specs.declared.value.Value.{Value as Kept};
ghost use Rattle.std.specs.Map.{keys_of, values_of};
ghost use Rattle.blink_base.specs.Values.{same_value};
ghost use Rattle.blink_histogram.specs.Ranks.{counted};
ghost use Rattle.blink_histogram.specs.InternerRepr.{number_of, numbered_values, IsInterner};

use crate::digest::{Digest, KeyedHasher};
use crate::recent::Recent;
use blink_base::Value;
use indexmap::IndexMap;
use std::alloc::{AllocError, Global};
use std::marker::Model;

/// Values that are numbered from 0 in the order of first sight, and how often each came, seen as the list of values with
/// their counts. It stands for a column where it is that column's distinct values, counted; numbering the column's next
/// value keeps it so. Source: after Raman et al., ICDE 2008 (frequency partitioning).
#[derive(Drop)]
pub struct Interner {
    alloc: Global,
    counts: IndexMap<Value, u64, KeyedHasher>,
    // Whole numbers among the values, each with its number.
    recent: Recent,
}

impl Model for Interner {
    ghost use Rattle.std.specs.Prelude.{List};
    ghost use Rattle.blink_histogram.specs.Ranks.{Counted};
    ghost use Rattle.blink_histogram.specs.InternerRepr.{IsInterner};

    ghost Value = { List Counted };

    ghost view = { λ it. it.counts.entries };

    ghost invariant = { λ it. IsInterner it.counts.entries it.recent.seen.items };
}

impl Interner {
    /// Of a column without values. It takes no memory.
    pub fn new(alloc: Global) -> Interner
        ensures { result ≡ counted [] }
    {
        Interner::keyed(alloc, Digest::new())
    }

    /// The same, before values whose digest is known. The digest decides how values are hashed, and no answer. It takes no
    /// memory.
    pub fn keyed(alloc: Global, values: Digest) -> Interner
        ensures { result ≡ counted [] }
    {
        Interner {
            alloc,
            counts: IndexMap::with_hasher(alloc, KeyedHasher::new(values.number())),
            recent: Recent::new(alloc),
        }
    }

    /// The number of a value, counted once more: that of its first sight, or the next number where it is new.
    ///
    /// Fewer than 4,294,967,296 values were numbered before. Want of memory changes nothing.
    pub fn number(&mut self, value: &Value) -> Result<u32, AllocError>
        requires { numbered_values self.old < 4294967296 }
        ensures number { IfOk result (λ n. n ≡ number_of self.old value.now) }
        ensures there { IfOk result (λ n. slice_get (keys_of self.new) n ≡ Some value.now) }
        // What was numbered before keeps its number.
        ensures kept { OnOk result ((n : ℕ) (v : Kept) → slice_get (keys_of self.old) n ≡ Some v → slice_get (keys_of self.new) n ≡ Some v) }
        // One more value was numbered.
        ensures more { OnOk result (numbered_values self.new ≡ numbered_values self.old + 1) }
        // Where it stood for a column, it stands for the column with this value behind it.
        ensures counted { OnOk result ((column : Listed Kept) → self.old ≡ counted column → self.new ≡ counted (column ++ value.now ∷ [])) }
        ensures err { OnErr result (self.new ≡ self.old) }
    {
        match place(&self.counts, &self.recent, value) {
            Some(at) => {
                self.counts[at as usize] += 1;
                self.recent.keep(value, at);
                Ok(at)
            }
            None => {
                let key = value.copy(self.alloc)?;
                let number = self.counts.len() as u32;
                self.recent.make_room()?;
                self.counts.insert(key, 1)?;
                self.recent.keep(value, number);
                Ok(number)
            }
        }
    }

    /// How many distinct values came, at most 4,294,967,296. It takes no memory.
    pub fn len(&self) -> usize
        ensures length { result ≡ length self.now }
        ensures numbers { result ≤ 4294967296 }
    {
        self.counts.len()
    }

    /// The number of a value, where it came; None where it didn't. It takes no memory.
    pub fn find(&self, value: &Value) -> Option<u32>
        ensures number { result ≡ position (same_value value.now) (keys_of self.now) }
        ensures there { (n : ℕ) → slice_get (keys_of self.now) n ≡ Some value.now → result ≡ Some n }
    {
        place(&self.counts, &self.recent, value)
    }

    /// The value of a number. It takes no memory.
    pub fn value(&self, number: u32) -> &Value
        requires { number < length self.now }
        ensures { slice_get (keys_of self.now) number ≡ Some result.now }
    {
        match self.counts.get_index(number as usize) {
            Some((value, _)) => value,
            None => unreachable!(),
        }
    }

    /// How often the value of a number came. It takes no memory.
    pub fn count(&self, number: u32) -> u64
        requires { number < length self.now }
        ensures { slice_get (values_of self.now) number ≡ Some result }
    {
        match self.counts.get_index(number as usize) {
            Some((_, count)) => *count,
            None => unreachable!(),
        }
    }
}

// The number of a value, where it came: by the whole numbers that were seen last, else by its hash.
fn place(counts: &IndexMap<Value, u64, KeyedHasher>, recent: &Recent, value: &Value) -> Option<u32>
    requires { IsInterner counts.now.entries recent.now.seen.items }
    ensures { result ≡ position (same_value value.now) (keys_of counts.now.entries) }
{
    match recent.find(value) {
        Some(at) => Some(at),
        None => match counts.get_index_of(value) {
            Some(at) => Some(at as u32),
            None => None,
        },
    }
}
