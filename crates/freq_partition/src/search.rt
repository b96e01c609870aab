// The search for the best candidate.
ghost use Rattle.std.specs.Prelude.{◌≡◌, ◌+◌, ◌-◌, ◌^◌, ◌<◌, ◌≤◌, ◌&&◌, nat_lt, nat_le, length, sum, take, drop};
ghost use Rattle.blink_lists.specs.Widths.{width_for};
ghost use Rattle.freq_partition.specs.Candidate.{division_in, with_class};
ghost use Rattle.freq_partition.specs.Division.{one_class, fronts};
ghost use Rattle.freq_partition.specs.Search.{behind, best_among};

use crate::candidate::Candidate;
use crate::prefix_sums::PrefixSums;
use blink_lists::{MOST_WIDTH, full_size, width_for};

// Whether a class of n values may be cut in front by a full class of this width.
fn is_front(n: usize, width: u8) -> bool
    requires { width ≤ MOST_WIDTH }
    ensures { result ≡ (nat_lt (2 ^ width) n && nat_le width (width_for (n - 2 ^ width))) }
{
    let size = full_size(width);
    size < n && width <= width_for(n - size)
}

// The classes of `front`, and one of so many of the next values behind them.
fn with_next(
    ranked: &PrefixSums<'_>,
    front: &Candidate,
    taken: usize,
    width: u8,
    size: usize,
) -> Candidate
    requires room { front.now.count < 4 }
    requires narrow { width ≤ MOST_WIDTH + 1 }
    requires within { taken + size ≤ length ranked.now.counts.now }
    ensures { division_in result ≡ with_class (division_in front.now) width size (sum (take size (drop taken ranked.now.counts.now))) }
{
    let rows = ranked.rows_between(taken, taken + size);
    front.with_class(width, size as u32, rows)
}

// The classes of `front`, and one of all other values behind them.
#[tactic(auto, using(crate::proofs::SearchLemmas::with_all))]
pub(crate) fn with_rest(ranked: &PrefixSums<'_>, front: &Candidate, taken: usize) -> Candidate
    requires room { front.now.count < 4 }
    requires within { taken ≤ length ranked.now.counts.now }
    ensures { division_in result ≡ behind (division_in front.now) (one_class (drop taken ranked.now.counts.now)) }
{
    let size = ranked.counts.len() - taken;
    with_next(ranked, front, taken, width_for(size), size)
}

// The best of `best` and of the candidates that begin with `front`.
pub(crate) fn search_behind(
    ranked: &PrefixSums<'_>,
    front: &Candidate,
    taken: usize,
    least: u8,
    more: u8,
    best: Candidate,
) -> Candidate
    requires room { front.now.count + more < 4 }
    requires wide { 1 ≤ least }
    requires left { taken < length ranked.now.counts.now }
    ensures { division_in result ≡ best_among (division_in best) (division_in front.now) (drop taken ranked.now.counts.now) (fronts more least (length ranked.now.counts.now - taken)) }
{
    let mut best = best.better(with_rest(ranked, front, taken));
    if more > 0 {
        for width in least..MOST_WIDTH + 1 {
            if is_front(ranked.counts.len() - taken, width) {
                let size = full_size(width);
                let next = with_next(ranked, front, taken, width, size);
                best = search_behind(ranked, &next, taken + size, width, more - 1, best);
            }
        }
    }
    best
}
