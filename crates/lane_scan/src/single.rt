// Row by row.
ghost use Rattle.std.specs.Prelude.{◌≡◌, ◌<◌, ◌≤◌, ◌+◌, ◌*◌, ◌||◌, ◌⊎◌, ℕ, false, [], length, All, slice_index_or};
ghost use Rattle.blink_lists.specs.declared.limits.TheConstants.{PAGE_ROWS};
ghost use Rattle.masked_compare.specs.Fields.{lane_count};
ghost use Rattle.masked_compare.specs.Words.{rows_in, IsClean};
ghost use Rattle.lane_scan.specs.Scan.{IsSpreadRound, lies_in_one, row_lies};

use masked_compare::{Round, Shape};
use row_bits::PageBits;

// Makes true, from a place on, the place of each row that lies in one of the rounds.
pub(crate) fn add_rows(
    shape: Shape,
    rounds: &[Round],
    words: &[u64],
    first: usize,
    rows: usize,
    into: &mut PageBits,
)
    requires bounds { All (IsSpreadRound shape) rounds.now }
    requires clean { All (IsClean shape) words.now }
    requires enough { rows ≤ length words.now * lane_count shape }
    requires within { first + rows ≤ PAGE_ROWS }
    ensures inside { (i : ℕ) → i < rows → slice_index_or into.new (first + i) false ≡ (slice_index_or into.old (first + i) false || row_lies shape rounds.now words.now i) }
    ensures others { (k : ℕ) → (k < first) ⊎ (first + rows ≤ k) → slice_index_or into.new k false ≡ slice_index_or into.old k false }
{
    let lanes = shape.lanes();
    for row in 0..rows {
        let lies = lies_in_one(shape, rounds, words[row / lanes], row % lanes);
        into.add(first + row, lies);
    }
}

// Whether the row in a lane of a word lies in one of the rounds.
fn lies_in_one(shape: Shape, rounds: &[Round], word: u64, lane: usize) -> bool
    requires bounds { All (IsSpreadRound shape) rounds.now }
    requires clean { IsClean shape word }
    requires lane { lane < lane_count shape }
    ensures { result ≡ lies_in_one shape rounds.now (slice_index_or (rows_in shape word) lane []) }
{
    let outside = shape.outside_every_round_in(rounds, word);
    let bits = shape.bits() as usize;
    (outside >> (bits * lane + (bits - 1))) & 1 == 0
}
