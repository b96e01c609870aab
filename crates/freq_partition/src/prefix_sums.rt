// The rows of the values before a rank.
ghost use Rattle.std.specs.Prelude.{◌≡◌, ◌+◌, ◌-◌, ◌^◌, ◌≤◌, length, sum, take, drop, IfOk};
ghost use Rattle.blink_lists.specs.declared.limits.TheConstants.{MOST_ROWS};
ghost use Rattle.freq_partition.specs.PrefixSums.{AreSums};

use std::alloc::{AllocError, Global};

// The sum of all counts before a rank.
#[derive(Clone, Copy)]
pub(crate) struct PrefixSum {
    pub(crate) at: usize,
    pub(crate) sum: u64,
}

// Whether up to three full classes may end before this rank: it is a sum of so many powers of 2 above 1.
fn is_reached(rank: usize) -> bool {
    rank % 2 == 0 && rank.count_ones() <= 3
}

// The rows of all values.
pub(crate) fn rows_of(counts: &[u64]) -> u64
    requires { sum counts.now ≤ MOST_ROWS }
    ensures { result ≡ sum counts.now }
{
    counts.iter().sum()
}

// Counts in the order of rank, and the sums of them at the ranks where classes may end, in rising order.
#[derive(Drop)]
pub(crate) struct PrefixSums<'a> {
    pub(crate) counts: &'a [u64],
    sums: Vec<PrefixSum>,
    ghost right: { AreSums counts.now sums.items },
    ghost few: { length counts.now ≤ MOST_ROWS },
    ghost small: { sum counts.now ≤ MOST_ROWS },
}

impl<'a> PrefixSums<'a> {
    // Adds up the counts once.
    pub(crate) fn new(alloc: Global, counts: &'a [u64]) -> Result<Self, AllocError>
        requires few { length counts.now ≤ MOST_ROWS }
        requires small { sum counts.now ≤ MOST_ROWS }
        ensures { IfOk result (λ sums. sums.counts.now ≡ counts.now) }
    {
        let mut sums = Vec::new(alloc);
        let mut sum = 0;
        for (at, count) in counts.iter().enumerate() {
            if is_reached(at) {
                sums.push(PrefixSum { at, sum })?;
            }
            sum += *count;
        }
        sums.push(PrefixSum {
            at: counts.len(),
            sum,
        })?;
        Ok(PrefixSums { counts, sums })
    }

    // The rows of the values before a rank: the last sum up to it, and what stands between.
    #[tactic(auto, using(crate::proofs::PrefixSumLemmas::sum_between))]
    fn rows_before(&self, rank: usize) -> u64
        requires { rank ≤ length self.now.counts.now }
        ensures { result ≡ sum (take rank self.now.counts.now) }
    {
        let mut last = PrefixSum { at: 0, sum: 0 };
        let mut low = 0;
        let mut high = self.sums.len();
        while low < high {
            let middle = low + (high - low) / 2;
            let found = self.sums[middle];
            if found.at <= rank {
                last = found;
                low = middle + 1;
            } else {
                high = middle;
            }
        }
        last.sum + rows_of(&self.counts[last.at..rank])
    }

    // The rows of the values of so many ranks, from a rank on.
    #[tactic(auto, using(crate::proofs::PrefixSumLemmas::sum_between))]
    pub(crate) fn rows_between(&self, from: usize, to: usize) -> u64
        requires rises { from ≤ to }
        requires within { to ≤ length self.now.counts.now }
        ensures rows { result ≡ sum (take (to - from) (drop from self.now.counts.now)) }
        ensures small { result ≤ MOST_ROWS }
    {
        self.rows_before(to) - self.rows_before(from)
    }
}
