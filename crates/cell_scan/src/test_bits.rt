// The rows of a page that pass one test.
ghost use Rattle.std.specs.Prelude.{◌≡◌, ◌<◌, ◌≤◌, ◌+◌, ◌&&◌, IsTrue, drop, length, nat_le, slice_index_or as get_or, take, ◌==◌};
ghost use Rattle.std.specs.List.{list_any};
ghost use Rattle.blink_lists.specs.declared.limits.TheConstants.{PAGE_ROWS};
ghost use Rattle.page_synopsis.specs.Sets.{codes_in, is_fair};
ghost use Rattle.cell_layout.specs.Image.{cell_at};
ghost use Rattle.cell_scan.specs.CodeTests.{code_set};
ghost use Rattle.cell_scan.specs.Match.{bits_where, is_in};

use crate::CodeTest;
use cell_layout::Image;
use page_synopsis::laws::codes_lie_in_runs;
use page_synopsis::{Range, Ranges};
use row_bits::PageBits;
use word_pool::Ledger;

// Which of so many rows, from one on, pass a test. A set of one range is two comparisons a row.
pub(crate) fn test_bits<M: Ledger>(
    image: &Image<M>,
    cell: usize,
    test: &CodeTest,
    first: u64,
    rows: usize,
) -> PageBits
    requires cell { cell < length image.now.cells }
    requires fair { IsTrue (is_fair test.now.ranges) }
    requires column { test.now.column < length image.now.columns }
    requires rows { first + rows ≤ length (cell_at image.now cell).rows }
    requires few { rows ≤ PAGE_ROWS }
    ensures { result ≡ bits_where (λ row. is_in row (code_set test.now)) (take rows (drop first (cell_at image.now cell).rows)) }
{
    codes_lie_in_runs();
    let column = test.column as usize;
    match &test.ranges {
        Ranges::Narrow(narrow) if narrow.len() == 1 => {
            range_bits(image, cell, column, narrow.range(0), first, rows)
        }
        ranges => set_bits(image, cell, column, ranges, first, rows),
    }
}

// Which of so many rows, from one on, have a code in a range.
fn range_bits<M: Ledger>(
    image: &Image<M>,
    cell: usize,
    column: usize,
    range: Range,
    first: u64,
    rows: usize,
) -> PageBits
    requires cell { cell < length image.now.cells }
    requires column { column < length image.now.columns }
    requires rows { first + rows ≤ length (cell_at image.now cell).rows }
    requires few { rows ≤ PAGE_ROWS }
    ensures { result ≡ bits_where (λ row. nat_le range.low (get_or row column 0) && nat_le (get_or row column 0) range.high) (take rows (drop first (cell_at image.now cell).rows)) }
{
    let _all = image.cell_rows(cell);
    let mut bits = PageBits::none();
    for row in 0..rows {
        let code = image.code(cell, first + row as u64, column);
        bits.set(row, (range.low <= code) & (code <= range.high));
    }
    bits
}

// Which of so many rows, from one on, have a code in a set.
fn set_bits<M: Ledger>(
    image: &Image<M>,
    cell: usize,
    column: usize,
    ranges: &Ranges,
    first: u64,
    rows: usize,
) -> PageBits
    requires cell { cell < length image.now.cells }
    requires column { column < length image.now.columns }
    requires rows { first + rows ≤ length (cell_at image.now cell).rows }
    requires few { rows ≤ PAGE_ROWS }
    ensures { result ≡ bits_where (λ row. list_any (λ code. code == get_or row column 0) (codes_in ranges.now)) (take rows (drop first (cell_at image.now cell).rows)) }
{
    let _all = image.cell_rows(cell);
    let mut bits = PageBits::none();
    for row in 0..rows {
        bits.set(
            row,
            ranges.holds(image.code(cell, first + row as u64, column)),
        );
    }
    bits
}
