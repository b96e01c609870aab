// Sets of codes.
ghost use Rattle.std.specs.Prelude.{◌≡◌, ◌==◌, IfOk, IfSome, IsTrue, length};
ghost use Rattle.std.specs.List.{list_any};
ghost use Rattle.page_synopsis.specs.Runs.{in_both};
ghost use Rattle.page_synopsis.specs.BitSets.{all_below, bits_of_codes, codes_set};
ghost use Rattle.page_synopsis.specs.Sets.{codes_in, is_fair, is_set_of};

use crate::{CodeBits, MOST_RUNS, Narrow, Range};
use std::alloc::{AllocError, Global};

/// A set of codes that isn't empty: as ranges where it has at most 8 maximal runs of successive codes, and else as bits.
/// Source: this project's own.
#[derive(Drop)]
pub enum Ranges {
    /// At most 8 runs.
    Narrow(Narrow),
    /// More than 8 runs.
    Wide(CodeBits),
}

impl Ranges {
    /// The same set, whose codes are below the size of the bits: None exactly for the empty one, Narrow exactly for at
    /// most 8 runs. It takes no memory.
    pub fn of(bits: CodeBits) -> Option<Ranges>
        ensures set { is_set_of result (codes_set bits) }
        ensures below { IfSome result (λ set. IsTrue (all_below (length bits) (codes_in set))) }
    {
        let mut ranges = [Range { low: 0, high: 0 }; MOST_RUNS];
        let mut from = 0;
        for count in 0..MOST_RUNS {
            match bits.next_run(from) {
                Some(run) => {
                    ranges[count] = run;
                    from = run.high + 1;
                }
                None if count == 0 => return None,
                None => return Some(Ranges::Narrow(Narrow::of(ranges, count))),
            }
        }
        match bits.next_run(from) {
            Some(_) => Some(Ranges::Wide(bits)),
            None => Some(Ranges::Narrow(Narrow::of(ranges, MOST_RUNS))),
        }
    }

    /// Whether a code is there. It takes no memory.
    pub fn holds(&self, code: u32) -> bool
        ensures { result ≡ list_any (λ c. c == code) (codes_in self.now) }
    {
        match self {
            Ranges::Narrow(narrow) => narrow.holds(code),
            Ranges::Wide(bits) => code < bits.size() && bits.test(code),
        }
    }

    /// The codes that are in both sets, all of them below a size: None exactly where there is none.
    pub fn both(
        &self,
        alloc: Global,
        other: &Ranges,
        size: u32,
    ) -> Result<Option<Ranges>, AllocError>
        requires fair { IsTrue (is_fair self.now) }
        requires other_fair { IsTrue (is_fair other.now) }
        requires below { IsTrue (all_below size (codes_in self.now)) }
        requires other_below { IsTrue (all_below size (codes_in other.now)) }
        ensures set { IfOk result (λ both. is_set_of both (in_both (codes_in self.now) (codes_in other.now))) }
        ensures both_below { IfOk result (λ both. IfSome both (λ set. IsTrue (all_below size (codes_in set)))) }
    {
        let mut bits = self.code_bits(alloc, size)?;
        let others = other.code_bits(alloc, size)?;
        bits.and_with(&others);
        Ok(Ranges::of(bits))
    }

    // A bit for each code below a size.
    fn code_bits(&self, alloc: Global, size: u32) -> Result<CodeBits, AllocError>
        requires { IsTrue (all_below size (codes_in self.now)) }
        ensures { IfOk result (λ bits. bits ≡ bits_of_codes size (codes_in self.now)) }
    {
        let mut bits = CodeBits::new(alloc, size)?;
        match self {
            Ranges::Narrow(narrow) => narrow.add_to(&mut bits),
            Ranges::Wide(wide) => wide.add_to(&mut bits),
        }
        Ok(bits)
    }
}
