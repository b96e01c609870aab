// A tuple of entries, which a hash table finds.
ghost use Rattle.std.specs.Prelude.{◌≡◌, ◌++◌, ◌∷◌, [], IfOk, OnOk};
ghost use Rattle.std.specs.Cmp.{partial_equiv_from_equiv};
ghost use Rattle.std.specs.Cmp.Lexicographic.{nat_list_eq_equiv};
ghost use Rattle.code_group.specs.Tuples.{same_tuple};
ghost use Rattle.code_group.specs.TupleHash.{hashed_tuple, tuples_hash_alike};

use std::alloc::{AllocError, Global};
use std::hash::{Hash, Hasher};
use std::marker::Model;

/// What the rows of a group have in common: an entry per pick of the key, a code or the place of a key. Source: after Raman
/// et al., ICDE 2008 (aggregation on codes).
#[derive(Drop)]
pub struct Tuple {
    entries: Vec<u32>,
}

impl Model for Tuple {
    ghost use Rattle.std.specs.Prelude.{List, ℕ};

    ghost Value = { List ℕ };

    ghost view = { λ t. t.entries.items };
}

impl Tuple {
    // The tuple without entries.
    pub(crate) fn new(alloc: Global) -> Tuple
        ensures { result ≡ [] }
    {
        Tuple {
            entries: Vec::new(alloc),
        }
    }

    // Takes all entries out. The room for them stays.
    pub(crate) fn clear(&mut self)
        ensures { self.new ≡ [] }
    {
        self.entries.clear();
    }

    // Puts an entry behind the others.
    pub(crate) fn push(&mut self, entry: u32) -> Result<(), AllocError>
        ensures { OnOk result (self.new ≡ self.old ++ entry ∷ []) }
    {
        self.entries.push(entry)?;
        Ok(())
    }

    // Its entries.
    pub(crate) fn entries(&self) -> &[u32]
        ensures { result.now ≡ self.now }
    {
        self.entries.as_slice()
    }

    // An equal tuple.
    pub(crate) fn copy(&self, alloc: Global) -> Result<Tuple, AllocError>
        ensures { IfOk result (λ copy. copy ≡ self.now) }
    {
        Ok(Tuple {
            entries: Vec::from_slice(alloc, self.entries.as_slice())?,
        })
    }
}

impl PartialEq for Tuple {
    ghost eq = { same_tuple };

    ghost laws = { partial_equiv_from_equiv nat_list_eq_equiv };

    fn eq(&self, other: &Tuple) -> bool {
        self.entries.as_slice() == other.entries.as_slice()
    }
}

impl Eq for Tuple {
    ghost laws = { nat_list_eq_equiv };
}

impl Hash for Tuple {
    ghost hash_input = { hashed_tuple };

    ghost respects_eq = { tuples_hash_alike };

    fn hash<H: Hasher>(&self, state: &mut H) {
        self.entries.as_slice().hash(state);
    }
}
