// A key of groups, which a hash table finds.
ghost use Rattle.std.specs.Prelude.{◌≡◌};
ghost use Rattle.std.specs.Cmp.{partial_equiv_from_equiv};
ghost use Rattle.blink_base.specs.Values.{same_row};
ghost use Rattle.late_decode.specs.KeyHash.{hashed_row, row_equiv, rows_hash_alike};

use blink_base::Row;
use std::hash::{Hash, Hasher};
use std::marker::Model;

/// The values that a group's rows have in common. Source: this project's own.
#[derive(Drop)]
pub struct Key {
    values: Row,
}

impl Model for Key {
    ghost use Rattle.blink_base.specs.Values.{Row as Values};

    ghost Value = { Values };

    ghost view = { λ k. k.values };
}

impl Key {
    // The key of these values.
    pub(crate) fn new(values: Row) -> Key
        ensures { result ≡ values }
    {
        Key { values }
    }

    // Its values.
    pub(crate) fn into_row(self) -> Row
        ensures { result ≡ self }
    {
        let Key { values } = self;
        values
    }
}

impl PartialEq for Key {
    ghost eq = { same_row };

    ghost laws = { partial_equiv_from_equiv row_equiv };

    fn eq(&self, other: &Key) -> bool {
        self.values.as_slice() == other.values.as_slice()
    }
}

impl Eq for Key {
    ghost laws = { row_equiv };
}

impl Hash for Key {
    ghost hash_input = { hashed_row };

    ghost respects_eq = { rows_hash_alike };

    fn hash<H: Hasher>(&self, state: &mut H) {
        self.values.as_slice().hash(state)
    }
}
