// Few ranges of codes.
ghost use Rattle.std.specs.Prelude.{◌≡◌, ◌<◌, ◌≤◌, ◌==◌, IsTrue, Some, length, take, slice_get};
ghost use Rattle.std.specs.List.{list_any};
ghost use Rattle.page_synopsis.specs.Runs.{are_runs, lies_in, runs_codes};
ghost use Rattle.page_synopsis.specs.BitSets.{all_below, with_codes};

use crate::{CodeBits, MOST_RUNS};
use std::marker::Model;

/// The codes from `low` to `high`, both among them. Source: this project's own.
#[derive(Clone, Copy, Debug, PartialEq, Eq)]
pub struct Range {
    /// The least code.
    pub low: u32,
    /// The greatest code, not below the least.
    pub high: u32,
}

/// 1 to 8 rising ranges with a gap between each two, seen as the list of them. Source: this project's own.
#[derive(Drop)]
pub struct Narrow {
    ranges: [Range; MOST_RUNS],
    count: usize,
}

impl Model for Narrow {
    ghost use Rattle.std.specs.Prelude.{List, take};
    ghost use Rattle.page_synopsis.specs.declared.narrow.Range.{Range as OneRange};
    ghost use Rattle.page_synopsis.specs.Runs.{AreFewRuns};

    ghost Value = { List OneRange };

    ghost view = { λ narrow. take narrow.count narrow.ranges };

    ghost invariant = { λ narrow. AreFewRuns narrow.count narrow.ranges };
}

impl Narrow {
    // The first so many of these.
    pub(crate) fn of(ranges: [Range; MOST_RUNS], count: usize) -> Narrow
        requires few { count ≤ MOST_RUNS }
        requires runs { IsTrue (are_runs (take count ranges)) }
        ensures { result ≡ take count ranges }
    {
        Narrow { ranges, count }
    }

    /// How many ranges, 1 to 8. It takes no memory.
    pub fn len(&self) -> usize
        ensures { result ≡ length self.now }
    {
        self.count
    }

    /// The range at a place, in rising order. It takes no memory.
    pub fn range(&self, at: usize) -> Range
        requires { at < length self.now }
        ensures { slice_get self.now at ≡ Some result }
    {
        let ranges = &self.ranges[..self.count];
        ranges[at]
    }

    // Adds the codes of the ranges to bits.
    pub(crate) fn add_to(&self, bits: &mut CodeBits)
        requires { IsTrue (all_below (length bits.old) (runs_codes self.now)) }
        ensures { bits.new ≡ with_codes (runs_codes self.now) bits.old }
    {
        add_ranges(&self.ranges[..self.count], bits)
    }

    // Whether a code is in one of the ranges.
    pub(crate) fn holds(&self, code: u32) -> bool
        ensures { result ≡ list_any (λ c. c == code) (runs_codes self.now) }
    {
        lies_in(&self.ranges[..self.count], code)
    }
}

// Adds the codes of ranges to bits.
fn add_ranges(ranges: &[Range], bits: &mut CodeBits)
    requires runs { IsTrue (are_runs ranges.now) }
    requires below { IsTrue (all_below (length bits.old) (runs_codes ranges.now)) }
    ensures { bits.new ≡ with_codes (runs_codes ranges.now) bits.old }
{
    let _size = bits.size();
    for range in ranges {
        bits.set_range(range.low, range.high + 1);
    }
}

// Whether a code lies in one of the ranges.
fn lies_in(ranges: &[Range], code: u32) -> bool
    ensures { result ≡ lies_in code ranges.now }
{
    ranges
        .iter()
        .any(|range| range.low <= code && code <= range.high)
}
