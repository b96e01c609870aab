// Values in the order of rank.
ghost use Rattle.std.specs.Prelude.{◌≡◌, map, slice_get, Some, IfOk, refl, All};
ghost use Rattle.std.specs.Ordering.{eq_by_cmp, as_partial_cmp};
ghost use Rattle.std.specs.Cmp.{partial_equiv_from_equiv, eq_by_cmp_equiv, partial_order_from_total};
ghost use Rattle.blink_lists.specs.Lists.{in_order};
ghost use Rattle.blink_histogram.specs.Ranks.{rank_cmp};
ghost use Rattle.blink_histogram.specs.RankEntry.{counted_in, ranking_cmp, ranking_total, HasPlace};

use crate::Interner;
use blink_base::{List, Value};
use std::alloc::{AllocError, Global};
use std::cmp::Ordering;

// A value, how often it came, and its number.
#[derive(Clone, Copy)]
pub(crate) struct Ranking<'a> {
    value: &'a Value,
    count: u64,
    number: u32,
}

impl<'a> PartialEq for Ranking<'a> {
    ghost eq = { eq_by_cmp ranking_cmp };

    ghost laws = { partial_equiv_from_equiv (eq_by_cmp_equiv ranking_total) };

    fn eq(&self, other: &Ranking<'a>) -> bool {
        self.cmp(other) == Ordering::Equal
    }
}

impl<'a> Eq for Ranking<'a> {
    ghost laws = { eq_by_cmp_equiv ranking_total };
}

impl<'a> PartialOrd for Ranking<'a> {
    ghost partial_cmp = { as_partial_cmp ranking_cmp };

    ghost laws = { partial_order_from_total ranking_total };

    fn partial_cmp(&self, other: &Ranking<'a>) -> Option<Ordering> {
        Some(self.cmp(other))
    }
}

impl<'a> Ord for Ranking<'a> {
    ghost cmp = { ranking_cmp };

    ghost total = { ranking_total };

    ghost matches_partial_cmp = { λ x y. refl };

    ghost matches_eq = { λ x y. refl };

    fn cmp(&self, other: &Ranking<'a>) -> Ordering {
        match other.count.cmp(&self.count) {
            Ordering::Equal => self.value.compare(other.value),
            by_count => by_count,
        }
    }
}

impl Interner {
    // Each value with its count and number, in the order of the numbers.
    fn rankings(&self, alloc: Global) -> Result<Vec<Ranking<'_>>, AllocError>
        ensures counts { IfOk result (λ rankings. map counted_in rankings.items ≡ self.now) }
        ensures places { IfOk result (λ rankings. All (HasPlace self.now) rankings.items) }
    {
        let mut rankings = Vec::with_capacity(alloc, self.len())?;
        for at in 0..self.len() {
            let number = at as u32;
            rankings.push(Ranking {
                value: self.value(number),
                count: self.count(number),
                number,
            })?;
        }
        Ok(rankings)
    }

    /// The numbers of the values by rank: by falling count, and equal counts by rising value.
    pub fn ranked(&self, alloc: Global) -> Result<List<u32>, AllocError>
        ensures { IfOk result (λ numbers. map (slice_get self.now) numbers ≡ map Some (in_order rank_cmp self.now)) }
    {
        let mut rankings = self.rankings(alloc)?;
        rankings.sort_unstable();
        let numbers = numbers_of(alloc, rankings.as_slice())?;
        Ok(numbers)
    }
}

// The numbers of values.
fn numbers_of(alloc: Global, rankings: &[Ranking<'_>]) -> Result<List<u32>, AllocError>
    ensures { IfOk result (λ numbers. numbers ≡ map (λ r. r.number) rankings.now) }
{
    let mut numbers = Vec::with_capacity(alloc, rankings.len())?;
    for ranking in rankings {
        numbers.push(ranking.number)?;
    }
    Ok(List::from_vec(numbers))
}
