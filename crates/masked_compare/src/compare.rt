// Comparison of all fields of a word at once.
ghost use Rattle.std.specs.Prelude.{◌≡◌, ◌<◌, ◌^◌, length, map, All};
ghost use Rattle.std.specs.Simd.Lanes.{Each1};
ghost use Rattle.masked_compare.specs.Words.{IsClean};
ghost use Rattle.masked_compare.specs.Marks.{marks_of, marked_in, IsMarked, inside_of, lacks, tops_where};
ghost use Rattle.masked_compare.specs.Rounds.{IsRound, outside_of, outside_rounds};

use crate::{Round, Shape};
use std::simd::prelude::*;

impl Shape {
    /// The guard bit of exactly those fields whose code lies from the low to the high field. A few operations on the whole
    /// word. It takes no memory. Source: after Johnson et al., VLDB 2008.
    #[inline(always)]
    pub fn within(self, word: u64, low: u64, high: u64) -> u64
        requires word_clean { IsClean self word }
        requires low_clean { IsClean self low }
        requires high_clean { IsClean self high }
        ensures value { result ≡ marks_of self (inside_of self word low high) }
        ensures marked { IsMarked self result }
        ensures reads { marked_in self result ≡ inside_of self word low high }
    {
        let guards = self.guards();
        ((high | guards) - word) & ((word | guards) - low) & guards
    }

    /// The top bit of exactly those lanes that lack a guard bit. It takes no memory. Source: after Johnson et al., VLDB 2008.
    #[inline(always)]
    pub fn failing(self, inside: u64) -> u64
        requires { IsMarked self inside }
        ensures { result ≡ tops_where self (map lacks (marked_in self inside)) }
    {
        let missing = inside ^ self.guards();
        let tops = self.tops();
        let rest = !tops;
        (((missing & rest) + rest) | missing) & tops
    }

    /// The top bit of exactly those lanes that have a code outside its bounds. It takes no memory. Source: after Johnson et
    /// al., VLDB 2008.
    #[inline(always)]
    pub fn outside(self, word: u64, low: u64, high: u64) -> u64
        requires word_clean { IsClean self word }
        requires low_clean { IsClean self low }
        requires high_clean { IsClean self high }
        ensures { result ≡ tops_where self (outside_of self word low high) }
    {
        self.failing(self.within(word, low, high))
    }

    /// The top bit of exactly those lanes that lie outside every round. It takes no memory. Source: this project's own.
    #[inline(always)]
    pub fn outside_every_round_in(self, rounds: &[Round], word: u64) -> u64
        requires word_clean { IsClean self word }
        requires rounds_clean { All (IsRound self) rounds.now }
        ensures { result ≡ tops_where self (outside_rounds self rounds.now word) }
    {
        let mut all = self.tops();
        for round in rounds {
            all &= self.outside(word, round.low, round.high);
        }
        all
    }

    /// The same for each of four words as `outside`: the top bit of exactly those lanes that have a code outside its bounds.
    /// It takes no memory. Source: after Johnson et al., VLDB 2008.
    #[inline(always)]
    pub fn outside_four(self, words: u64x4, low: u64, high: u64) -> u64x4
        requires four { length words ≡ 4 }
        requires fit { Each1 (λ word. word < 2 ^ 64) words }
        requires words_clean { Each1 (IsClean self) words }
        requires low_clean { IsClean self low }
        requires high_clean { IsClean self high }
        ensures { result ≡ map (λ word. tops_where self (outside_of self word low high)) words }
    {
        let guard = self.guards();
        let top = self.tops();
        let guards = u64x4::splat(guard);
        let rest = u64x4::splat(!top);
        let above = u64x4::splat(high | guard) - words;
        let below = (words | guards) - u64x4::splat(low);
        let missing = (above & below & guards) ^ guards;
        (((missing & rest) + rest) | missing) & u64x4::splat(top)
    }

    /// The same for each of four words as `outside_every_round_in`: the top bit of exactly those lanes that lie outside every
    /// round. It takes no memory. Source: this project's own.
    #[inline(always)]
    pub fn outside_every_round(self, rounds: &[Round], words: u64x4) -> u64x4
        requires four { length words ≡ 4 }
        requires fit { Each1 (λ word. word < 2 ^ 64) words }
        requires words_clean { Each1 (IsClean self) words }
        requires rounds_clean { All (IsRound self) rounds.now }
        ensures { result ≡ map (λ word. tops_where self (outside_rounds self rounds.now word)) words }
    {
        let mut all = u64x4::splat(self.tops());
        for round in rounds {
            all &= self.outside_four(words, round.low, round.high);
        }
        all
    }
}
