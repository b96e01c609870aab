//! Worked rows of a dimension, as facts that compute.

ghost use Rattle.dim_filter.specs.Examples.{RowsGiveEntries};

/// Selected rows, and what is kept of them.
pub fn rows_give_entries()
    ensures { RowsGiveEntries }
{}
