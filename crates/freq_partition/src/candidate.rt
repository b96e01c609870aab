// A candidate for the division: classes with what they cost.
ghost use Rattle.std.specs.Prelude.{◌≡◌, ℕ, ◌+◌, ◌*◌, ◌^◌, ◌<◌, ◌≤◌, slice_index, Ok};

use std::cmp::Ordering;

// What a class costs beside its codes.
pub(crate) const CLASS_COST: u64 = 64;

// The first `count` widths and sizes are those of the classes.
#[derive(Drop)]
pub(crate) struct Candidate {
    pub(crate) count: usize,
    widths: [u8; 4],
    pub(crate) sizes: [u32; 4],
    pub(crate) cost: u64,
    ghost within: { count ≤ 4 },
    ghost unused: { (k : ℕ) → count ≤ k → slice_index sizes k ≡ 0 },
    ghost bounded: { cost ≤ count * 2 ^ 32 },
}

impl Candidate {
    ghost use Rattle.freq_partition.specs.Division.{no_classes, better, division_cmp};
    ghost use Rattle.freq_partition.specs.Candidate.{division_in, with_class};

    // No classes.
    pub(crate) fn none() -> Self
        ensures { division_in result ≡ no_classes }
    {
        Candidate {
            count: 0,
            widths: [0; 4],
            sizes: [0; 4],
            cost: 0,
        }
    }

    // The classes and one more behind them, with so many rows.
    pub(crate) fn with_class(&self, width: u8, size: u32, rows: u64) -> Self
        requires room { self.now.count < 4 }
        requires bounded { width * rows < 2 ^ 31 }
        ensures { division_in result ≡ with_class (division_in self.now) width size rows }
    {
        let mut widths = self.widths;
        let mut sizes = self.sizes;
        widths[self.count] = width;
        sizes[self.count] = size;
        Candidate {
            count: self.count + 1,
            widths,
            sizes,
            cost: self.cost + (width as u64 * rows + CLASS_COST),
        }
    }

    // By cost, then by the number of classes, then by the widths.
    fn compare(&self, other: &Self) -> Ordering
        ensures { result ≡ division_cmp (division_in self.now) (division_in other.now) }
    {
        let by_count = self.count.cmp(&other.count);
        let by_widths = self.widths[..self.count].cmp(&other.widths[..other.count]);
        self.cost.cmp(&other.cost).then(by_count.then(by_widths))
    }

    // The lesser of two, the first where they tie.
    pub(crate) fn better(self, other: Self) -> Self
        ensures { division_in result ≡ better (division_in self) (division_in other) }
    {
        if other.compare(&self).is_lt() {
            other
        } else {
            self
        }
    }
}
