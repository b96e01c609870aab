// Groups within a cell.
ghost use Rattle.std.specs.Prelude.{◌≡◌, []};

use crate::tuple_groups::TupleGroups;
use std::alloc::Global;
use std::marker::Model;

/// Groups of the rows of a cell, seen as a list of tuples, each with one part a measure, in the order in which they first
/// came. A tuple has an entry per pick of the plan's keys: the code of a column of the fact, or the place of a tied value
/// among the keys. Source: after Raman et al., ICDE 2008 (aggregation on codes).
#[derive(Drop)]
pub struct CellGroups {
    pub(crate) groups: TupleGroups,
}

impl Model for CellGroups {
    ghost use Rattle.std.specs.Prelude.{List, ℕ};
    ghost use Rattle.late_decode.specs.Groups.{Grouped};

    ghost Value = { Grouped (List ℕ) };

    ghost view = { λ g. g.groups.0 };
}

impl CellGroups {
    /// No groups. It takes no memory.
    pub fn new(alloc: Global) -> CellGroups
        ensures { result ≡ [] }
    {
        CellGroups {
            groups: TupleGroups::new(alloc),
        }
    }
}
