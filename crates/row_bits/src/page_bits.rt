// A truth value per row of a page.
ghost use Rattle.std.specs.Prelude.{◌≡◌, ◌≢◌, ◌<◌, ◌≤◌, ◌+◌, ◌*◌, ◌/◌, ◌==◌, ◌||◌, ℕ, true, false, IfSome, IfNone, replicate, slice_index_or, slice_set, count_by};
ghost use Rattle.std.specs.Int.{bit_at};
ghost use Rattle.row_bits.specs.Bits.{first_true, both_true, some_true};

use crate::words::{and_with, count_set, fill, is_set, next_set, or_with, put};
use blink_lists::PAGE_ROWS;
use std::marker::Model;

/// A truth value per row of a page, seen as a list of 1,024 of them. Source: this project's own.
#[derive(Drop)]
pub struct PageBits {
    words: [u64; 16],
}

impl Model for PageBits {
    ghost use Rattle.std.specs.Prelude.{List, Bool};
    ghost use Rattle.std.specs.Coded.{coded_list};
    ghost use Rattle.row_bits.specs.Bits.{bits_of};
    ghost use Rattle.blink_lists.specs.declared.limits.TheConstants.{PAGE_ROWS};

    ghost Value = { List Bool };

    ghost view = { λ bits. bits_of PAGE_ROWS bits.words };
}

impl PageBits {
    /// None is true. It takes no memory.
    #[tactic(auto, using(crate::proofs::PageLemmas::none_true))]
    pub fn none() -> PageBits
        ensures { result ≡ replicate PAGE_ROWS false }
    {
        PageBits { words: [0; 16] }
    }

    /// The first so many are true. It takes no memory.
    pub fn first(rows: usize) -> PageBits
        requires { rows ≤ PAGE_ROWS }
        ensures { result ≡ first_true rows }
    {
        let mut words = [0; 16];
        fill(&mut words, 0, rows);
        PageBits { words }
    }

    /// Place by place, whether both are true. It takes no memory.
    pub fn and(self, other: PageBits) -> PageBits
        ensures { result ≡ both_true self other }
    {
        let mut words = self.words;
        and_with(&mut words, &other.words);
        PageBits { words }
    }

    /// Place by place, whether one is true. It takes no memory.
    pub fn or(self, other: PageBits) -> PageBits
        ensures { result ≡ some_true self other }
    {
        let mut words = self.words;
        or_with(&mut words, &other.words);
        PageBits { words }
    }

    /// Puts a truth value at a place. It takes no memory.
    pub fn set(&mut self, place: usize, value: bool)
        requires { place < PAGE_ROWS }
        ensures { self.new ≡ slice_set self.old place value }
    {
        put(&mut self.words, place, value);
    }

    /// Makes the value at a place true where this one is, and leaves it as it was otherwise. It takes no memory.
    pub fn add(&mut self, place: usize, value: bool)
        requires { place < PAGE_ROWS }
        ensures here { slice_index_or self.new place false ≡ (slice_index_or self.old place false || value) }
        ensures others { (k : ℕ) → k ≢ place → slice_index_or self.new k false ≡ slice_index_or self.old k false }
    {
        if value {
            put(&mut self.words, place, true);
        }
    }

    /// Makes those of 64 places true whose bits of a word are set, the lowest bit first: the places from 64 times `at` on. The
    /// others stay. It takes no memory.
    pub fn add_word(&mut self, at: usize, truths: u64)
        requires { at < 16 }
        ensures here { (bit : ℕ) → bit < 64 → slice_index_or self.new (at * 64 + bit) false ≡ (slice_index_or self.old (at * 64 + bit) false || bit_at truths bit == 1) }
        ensures others { (k : ℕ) → k / 64 ≢ at → slice_index_or self.new k false ≡ slice_index_or self.old k false }
    {
        self.words[at] |= truths;
    }

    /// Whether the value at a place is true. It takes no memory.
    pub fn test(&self, place: usize) -> bool
        requires { place < PAGE_ROWS }
        ensures { result ≡ slice_index_or self.now place false }
    {
        is_set(&self.words, place)
    }

    /// How many are true. It takes no memory.
    pub fn count(&self) -> usize
        ensures { result ≡ count_by (λ b. b) self.now }
    {
        count_set(&self.words)
    }

    /// The least true place that isn't below this one; None exactly where there is none. It takes no memory.
    pub fn next_set(&self, from: usize) -> Option<usize>
        ensures place { IfSome result (λ place. (from ≤ place) × (place < PAGE_ROWS) × (slice_index_or self.now place false ≡ true)) }
        ensures least { IfSome result (λ place. (k : ℕ) → from ≤ k → k < place → slice_index_or self.now k false ≡ false) }
        ensures none { IfNone result ((k : ℕ) → from ≤ k → slice_index_or self.now k false ≡ false) }
    {
        next_set(&self.words, from)
    }
}
