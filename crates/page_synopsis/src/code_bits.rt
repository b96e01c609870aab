// A bit per code.
ghost use Rattle.std.specs.Prelude.{◌≡◌, ◌<◌, ◌≤◌, ◌+◌, IfOk, IfSome, IfNone, IsTrue, true, false, [], ◌∷◌, length, replicate, slice_index_or, slice_set};
ghost use Rattle.row_bits.specs.Bits.{both_true, some_true};
ghost use Rattle.page_synopsis.specs.Runs.{runs_of};
ghost use Rattle.page_synopsis.specs.BitSets.{all_below, codes_set, codes_set_from, with_codes, with_range};

use crate::Range;
use row_bits::{and_with, fill, is_set, next_clear, next_set, or_with};
use std::alloc::{AllocError, Global};
use std::marker::Model;

/// A set of codes below a size, seen as one truth value per code. Source: this project's own.
#[derive(Drop)]
pub struct CodeBits {
    words: Vec<u64>,
    size: u32,
}

impl Model for CodeBits {
    ghost use Rattle.std.specs.Prelude.{List, Bool};
    ghost use Rattle.std.specs.Coded.{coded_list};
    ghost use Rattle.row_bits.specs.Bits.{bits_of};
    ghost use Rattle.page_synopsis.specs.BitSets.{AreCodeWords};

    ghost Value = { List Bool };

    ghost view = { λ bits. bits_of bits.size bits.words.items };

    ghost invariant = { λ bits. AreCodeWords bits.size bits.words.items };
}

impl CodeBits {
    /// The empty set of codes below a size.
    pub fn new(alloc: Global, size: u32) -> Result<CodeBits, AllocError>
        ensures { IfOk result (λ bits. bits ≡ replicate size false) }
    {
        let words = vec![in alloc; 0; (size as usize).div_ceil(64)]?;
        Ok(CodeBits { words, size })
    }

    /// How many codes there may be. It takes no memory.
    pub fn size(&self) -> u32
        ensures { result ≡ length self.now }
    {
        self.size
    }

    /// Adds a code. It takes no memory.
    pub fn set(&mut self, code: u32)
        requires { code < length self.old }
        ensures { self.new ≡ slice_set self.old code true }
    {
        fill(&mut self.words, code as usize, code as usize + 1);
    }

    /// Adds the codes from one up to, but without, another. It takes no memory.
    pub fn set_range(&mut self, low: u32, high: u32)
        requires { high ≤ length self.old }
        ensures { self.new ≡ with_range low high self.old }
    {
        fill(&mut self.words, low as usize, high as usize);
    }

    /// Whether a code is there. It takes no memory.
    pub fn test(&self, code: u32) -> bool
        requires { code < length self.now }
        ensures { result ≡ slice_index_or self.now code false }
    {
        is_set(&self.words, code as usize)
    }

    /// Keeps the codes of both sets, of one size. It takes no memory.
    pub fn and_with(&mut self, other: &CodeBits)
        requires { length other.now ≡ length self.old }
        ensures { self.new ≡ both_true self.old other.now }
    {
        and_with(&mut self.words, &other.words);
    }

    /// Adds the codes of the other set, of one size. It takes no memory.
    pub fn or_with(&mut self, other: &CodeBits)
        requires { length other.now ≡ length self.old }
        ensures { self.new ≡ some_true self.old other.now }
    {
        or_with(&mut self.words, &other.words);
    }

    // Adds the codes that are here to bits that have room for them.
    pub(crate) fn add_to(&self, bits: &mut CodeBits)
        requires { IsTrue (all_below (length bits.old) (codes_set self.now)) }
        ensures { bits.new ≡ with_codes (codes_set self.now) bits.old }
    {
        or_with(&mut bits.words, &self.words);
    }

    // The first maximal run of the codes from one on.
    pub(crate) fn next_run(&self, from: u32) -> Option<Range>
        requires { from ≤ length self.now }
        ensures run { IfSome result (λ run. runs_of (codes_set_from from self.now) ≡ run ∷ runs_of (codes_set_from (run.high + 1) self.now)) }
        ensures within { IfSome result (λ run. run.high < length self.now) }
        ensures none { IfNone result (codes_set_from from self.now ≡ []) }
    {
        match next_set(&self.words, from as usize) {
            None => None,
            Some(low) => {
                let behind = next_clear(&self.words, low);
                Some(Range {
                    low: low as u32,
                    high: (behind - 1) as u32,
                })
            }
        }
    }
}
