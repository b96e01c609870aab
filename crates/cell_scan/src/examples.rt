//! Worked scans, as facts that compute.

ghost use Rattle.cell_scan.specs.Examples.{RowsMatched, RowsPaged};

/// Rows that pass two sets, and rows that pass none.
pub fn rows_matched()
    ensures { RowsMatched }
{}

/// The rows of two pages.
pub fn rows_paged()
    ensures { RowsPaged }
{}
