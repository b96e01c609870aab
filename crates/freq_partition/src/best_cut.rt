// The best division, as it is answered.
ghost use Rattle.std.specs.Prelude.{◌≡◌, length};
ghost use Rattle.freq_partition.specs.Candidate.{division_in};
ghost use Rattle.freq_partition.specs.Division.{padded};

use crate::candidate::Candidate;

/// A division of ranked values into classes. Source: after Raman et al., ICDE 2008; the cost is this project's own.
#[derive(Clone, Copy, Debug, PartialEq, Eq)]
pub struct Cut {
    /// How many classes there are: at most four, and none only where there are no values.
    pub count: u8,
    /// How many values each class has, in the order of rank; zeros behind the classes.
    pub sizes: [u32; 4],
    /// The sum over all values of count times width in bits, and 64 for each class.
    pub cost: u64,
}

// The sizes and the cost of a candidate.
#[tactic(auto, using(crate::proofs::PaddingLemmas::padded_take))]
pub(crate) fn cut_of(candidate: &Candidate) -> Cut
    ensures count { result.count ≡ length (division_in candidate.now).sizes }
    ensures sizes { result.sizes ≡ padded 4 (division_in candidate.now).sizes }
    ensures cost { result.cost ≡ (division_in candidate.now).cost }
{
    Cut {
        count: candidate.count as u8,
        sizes: candidate.sizes,
        cost: candidate.cost,
    }
}
