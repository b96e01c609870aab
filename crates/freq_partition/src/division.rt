//! The best division of ranked values.

ghost use Rattle.std.specs.Prelude.{◌≡◌, ◌^◌, ◌≤◌, length, sum, All, IfOk, IsTrue};
ghost use Rattle.freq_partition.specs.Candidate.{division_in};
ghost use Rattle.freq_partition.specs.Division.{best_division, single_division, never_rises, IsLeastCost, padded};

use crate::best_cut::{Cut, cut_of};
use crate::candidate::{CLASS_COST, Candidate};
use crate::prefix_sums::{PrefixSums, rows_of};
use crate::search::{search_behind, with_rest};
use blink_lists::{MOST_ROWS, width_for};
use std::alloc::{AllocError, Global};

/// The best division of values with these counts into one to four classes; none for no counts.
///
/// The counts are in the order of rank, each at least 1 and none above the one before, and their sum is at most
/// [`MOST_ROWS`]. The division is the candidate of least cost, of equal cost the one with fewer classes, and then the one
/// with the lexicographically least widths. No list of one to four sizes costs less. Source: after Raman et al., ICDE
/// 2008; the candidates and their cost are this project's own.
#[tactic(auto, using(crate::proofs::LeastCostLemmas::costs_least, crate::proofs::PrefixSumLemmas::length_le_sum))]
pub fn cut(alloc: Global, counts: &[u64]) -> Result<Cut, AllocError>
    requires positive { All (λ count. 1 ≤ count) counts.now }
    requires ranked { IsTrue (never_rises counts.now) }
    requires few { sum counts.now ≤ MOST_ROWS }
    ensures count { IfOk result (λ cut. cut.count ≡ length (best_division counts.now).sizes) }
    ensures sizes { IfOk result (λ cut. cut.sizes ≡ padded 4 (best_division counts.now).sizes) }
    ensures cost { IfOk result (λ cut. cut.cost ≡ (best_division counts.now).cost) }
    ensures least { IfOk result (λ cut. IsLeastCost counts.now cut.cost) }
{
    let ranked = PrefixSums::new(alloc, counts)?;
    Ok(cut_of(&best_of(&ranked)))
}

// The best division of these: up to three classes stand in front of the last.
fn best_of(ranked: &PrefixSums<'_>) -> Candidate
    ensures { division_in result ≡ best_division ranked.now.counts.now }
{
    let none = Candidate::none();
    if ranked.counts.is_empty() {
        return none;
    }
    let first = with_rest(ranked, &none, 0);
    search_behind(ranked, &none, 0, 1, 3, first)
}

/// What all values in one class cost, for counts of at most [`MOST_ROWS`] rows in all; 0 where there are none. It takes no
/// memory. Source: this project's own.
pub fn single(counts: &[u64]) -> u64
    requires { sum counts.now ≤ MOST_ROWS }
    ensures { result ≡ (single_division counts.now).cost }
{
    if counts.is_empty() {
        return 0;
    }
    u64::from(width_for(counts.len())) * rows_of(counts) + CLASS_COST
}
