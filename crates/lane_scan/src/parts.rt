// 64 rows at a time.
ghost use Rattle.std.specs.Prelude.{◌≡◌, ◌<◌, ◌≤◌, ◌+◌, ◌*◌, ◌%◌, ◌==◌, ◌||◌, ◌⊎◌, ℕ, false, length, All, slice_index_or};
ghost use Rattle.std.specs.Int.{bit_at};
ghost use Rattle.blink_lists.specs.declared.limits.TheConstants.{PAGE_ROWS};
ghost use Rattle.masked_compare.specs.Fields.{lane_bits, lane_count};
ghost use Rattle.masked_compare.specs.Words.{IsClean};
ghost use Rattle.lane_scan.specs.Scan.{IsSpreadRound, row_lies};

use crate::fours::outside_in;
use masked_compare::{Round, Shape};
use row_bits::PageBits;

// The same as `scan` for words in fours. As many words as a lane has bits hold 64 rows.
pub(crate) fn add_fours(
    shape: Shape,
    rounds: &[Round],
    words: &[u64],
    first: usize,
    rows: usize,
    into: &mut PageBits,
)
    requires bounds { All (IsSpreadRound shape) rounds.now }
    requires clean { All (IsClean shape) words.now }
    requires fours { length words.now % 4 ≡ 0 }
    requires enough { rows ≤ length words.now * lane_count shape }
    requires whole { first % 64 ≡ 0 }
    requires within { first + rows ≤ PAGE_ROWS }
    ensures inside { (i : ℕ) → i < rows → slice_index_or into.new (first + i) false ≡ (slice_index_or into.old (first + i) false || row_lies shape rounds.now words.now i) }
    ensures others { (k : ℕ) → (k < first) ⊎ (first + rows ≤ k) → slice_index_or into.new k false ≡ slice_index_or into.old k false }
{
    let part = shape.bits() as usize;
    for at in 0..(rows + 63) / 64 {
        let from = at * part;
        let to = (from + part).min(words.len());
        let truths = inside_in(shape, rounds, &words[from..to], (rows - at * 64).min(64));
        into.add_word(first / 64 + at, truths);
    }
}

// Bit by bit, whether each of the first so many rows lies in one of the rounds; no bit behind them is set.
#[inline(always)]
fn inside_in(shape: Shape, rounds: &[Round], words: &[u64], rows: usize) -> u64
    requires bounds { All (IsSpreadRound shape) rounds.now }
    requires clean { All (IsClean shape) words.now }
    requires fours { length words.now % 4 ≡ 0 }
    requires few { length words.now ≤ lane_bits shape }
    requires enough { rows ≤ length words.now * lane_count shape }
    requires some { 0 < rows }
    requires within { rows ≤ 64 }
    ensures inside { (i : ℕ) → i < rows → (bit_at result i == 1) ≡ row_lies shape rounds.now words.now i }
    ensures none { (i : ℕ) → rows ≤ i → (bit_at result i == 1) ≡ false }
{
    !outside_in(shape, rounds, words) & (u64::MAX >> (64 - rows))
}
