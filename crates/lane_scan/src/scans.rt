// The rows of words that lie in one of some rounds, put among the truth values of a page.
ghost use Rattle.std.specs.Prelude.{◌≡◌, ◌<◌, ◌≤◌, ◌+◌, ◌*◌, ◌%◌, ◌||◌, ◌⊎◌, ℕ, false, length, All, slice_index_or};
ghost use Rattle.blink_lists.specs.declared.limits.TheConstants.{PAGE_ROWS};
ghost use Rattle.masked_compare.specs.Fields.{lane_count};
ghost use Rattle.masked_compare.specs.Words.{IsClean};
ghost use Rattle.lane_scan.specs.Scan.{IsSpreadRound, row_lies};

use crate::parts::add_fours;
use crate::single::add_rows;
use masked_compare::{Round, Shape};
use row_bits::PageBits;

/// Makes true, from a place on, the place of each row of the words that lies in one of the rounds: of so many rows, word by
/// word, lane by lane. Other truth values stay. Four words at a time, and a word of 64 truth values at a time; at most three
/// words at the end row by row. It takes no memory. Source: after Johnson et al., VLDB 2008; the lanes are this project's own.
pub fn scan(
    shape: Shape,
    rounds: &[Round],
    words: &[u64],
    first: usize,
    rows: usize,
    into: &mut PageBits,
)
    requires some { 1 ≤ length rounds.now }
    requires few { length rounds.now ≤ 8 }
    requires bounds { All (IsSpreadRound shape) rounds.now }
    requires clean { All (IsClean shape) words.now }
    requires enough { rows ≤ length words.now * lane_count shape }
    requires whole { first % 64 ≡ 0 }
    requires within { first + rows ≤ PAGE_ROWS }
    ensures inside { (i : ℕ) → i < rows → slice_index_or into.new (first + i) false ≡ (slice_index_or into.old (first + i) false || row_lies shape rounds.now words.now i) }
    ensures others { (k : ℕ) → (k < first) ⊎ (first + rows ≤ k) → slice_index_or into.new k false ≡ slice_index_or into.old k false }
{
    let fours = words.len() / 4 * 4;
    let front = (fours * shape.lanes()).min(rows);
    add_fours(shape, rounds, &words[..fours], first, front, into);
    add_rows(
        shape,
        rounds,
        &words[fours..],
        first + front,
        rows - front,
        into,
    );
}

/// The same as `scan`, row by row. It takes no memory. Source: this project's own.
pub fn scan_plain(
    shape: Shape,
    rounds: &[Round],
    words: &[u64],
    first: usize,
    rows: usize,
    into: &mut PageBits,
)
    requires some { 1 ≤ length rounds.now }
    requires few { length rounds.now ≤ 8 }
    requires bounds { All (IsSpreadRound shape) rounds.now }
    requires clean { All (IsClean shape) words.now }
    requires enough { rows ≤ length words.now * lane_count shape }
    requires whole { first % 64 ≡ 0 }
    requires within { first + rows ≤ PAGE_ROWS }
    ensures inside { (i : ℕ) → i < rows → slice_index_or into.new (first + i) false ≡ (slice_index_or into.old (first + i) false || row_lies shape rounds.now words.now i) }
    ensures others { (k : ℕ) → (k < first) ⊎ (first + rows ≤ k) → slice_index_or into.new k false ≡ slice_index_or into.old k false }
{
    add_rows(shape, rounds, words, first, rows, into);
}
