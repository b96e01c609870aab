// A column's values, each by its number.
ghost use Rattle.std.specs.Prelude.{◌≡◌, ◌<◌, ◌++◌, ◌∷◌, [], IfOk, OnOk, OnErr, Some, length, map, slice_get};
ghost use Rattle.std.specs.Map.{keys_of};
ghost use Rattle.blink_histogram.specs.Ranks.{counted};
ghost use Rattle.blink_histogram.specs.InternerRepr.{numbered_values};

use crate::{Digest, Interner};
use blink_base::Value;
use std::alloc::{AllocError, Global};
use std::marker::Model;

/// The values of a column, of which each is kept once, and its number in each row, seen as the list of the values. Source:
/// after Raman et al., ICDE 2008 (frequency partitioning).
#[derive(Drop)]
pub struct NumberedColumn {
    interner: Interner,
    // By row.
    numbers: Vec<u32>,
}

impl Model for NumberedColumn {
    ghost use Rattle.std.specs.Prelude.{List};
    ghost use Rattle.std.specs.Map.{keys_of};
    ghost use Rattle.blink_base.specs.declared.value.Value.{Value as Held};
    ghost use Rattle.blink_histogram.specs.NumberedColumn.{values_of, IsNumbered};

    ghost Value = { List Held };

    ghost view = { λ c. values_of (keys_of c.interner) c.numbers.items };

    ghost invariant = { λ c. IsNumbered c.interner c.numbers.items };
}

impl NumberedColumn {
    /// Without values, and with room for the numbers of so many. The digest is of all values that may come; it decides how
    /// they are hashed, and no answer.
    pub fn keyed(alloc: Global, values: Digest, rows: usize) -> Result<NumberedColumn, AllocError>
        ensures { IfOk result (λ column. column ≡ []) }
    {
        Ok(NumberedColumn {
            interner: Interner::keyed(alloc, values),
            numbers: Vec::with_capacity(alloc, rows)?,
        })
    }

    /// Puts a value behind the others, which are fewer than 4,294,967,296. Want of memory changes nothing.
    pub fn push(&mut self, value: &Value) -> Result<(), AllocError>
        requires { length self.old < 4294967296 }
        ensures ok { OnOk result (self.new ≡ self.old ++ value.now ∷ []) }
        ensures err { OnErr result (self.new ≡ self.old) }
    {
        self.numbers.reserve(1)?;
        let number = self.interner.number(value)?;
        self.numbers.push_reserved(number);
        Ok(())
    }

    /// Its distinct values, counted. It takes no memory.
    pub fn interner(&self) -> &Interner
        ensures counted { result.now ≡ counted self.now }
        ensures many { numbered_values result.now ≡ length self.now }
    {
        &self.interner
    }

    /// The numbers of its values, row by row. It takes no memory.
    pub fn into_numbers(self) -> Vec<u32>
        ensures { map (slice_get (keys_of (counted self))) result.items ≡ map Some self }
    {
        let NumberedColumn { numbers, .. } = self;
        numbers
    }
}
