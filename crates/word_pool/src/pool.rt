// The region of packed words.
ghost use Rattle.std.specs.Prelude.{◌≡◌, ◌≢◌, ◌<◌, ◌≤◌, ◌+◌, ◌*◌, ℕ, [], false, length, max, replicate, slice_index_or, take, Some, None, OnOk, MatchResult};
ghost use Rattle.word_pool.specs.Region.{Region, block_at, live_count, or_at, IsLive, tag_at, words_of};
ghost use Rattle.word_pool.specs.Reservation.{passes_limit, IsCause};
ghost use Rattle.word_pool.specs.declared.limits.TheConstants.{MOST_BLOCKS};

use crate::chunks::Chunks;
use crate::numbers::Numbers;
use crate::{Ledger, PoolError, Steps};
use std::alloc::Global;
use std::marker::{Model, PhantomData};

/// The number of a block. Source: this project's own.
#[derive(Debug, Clone, Copy, PartialEq, Eq)]
pub struct BlockId(pub u32);

/// The region from which every page of packed words is taken, seen as a map from the numbers of live blocks to a tag and 128
/// words, with the limit of live blocks and the number of blocks that may be taken before room is asked for.
///
/// A tag says whose words a block holds. The blocks stand in chunks of 1,024, each got from memory once; a block never moves,
/// and one that was given back is used again before a new chunk is asked for. Words are read on a counter of the type L.
/// Source: this project's own.
#[derive(Drop)]
pub struct Pool<L: Ledger> {
    blocks: Chunks,
    numbers: Numbers,
    limit: u64,
    ledger: PhantomData<L>,
}

impl<L: Ledger> Model for Pool<L> {
    ghost use Rattle.word_pool.specs.Region.{Region};
    ghost use Rattle.word_pool.specs.PoolParts.{region_of, AreParts};

    ghost Value = { Region };

    ghost view = { λ pool. region_of pool.limit pool.blocks pool.numbers };

    ghost invariant = { λ pool. AreParts pool.limit pool.blocks pool.numbers };
}

impl<L: Ledger> Pool<L> {
    /// A pool in which no block is live, and at most so many may be; the limit is at most 2,097,152. It takes no memory.
    pub fn new(alloc: Global, limit: u64) -> Pool<L>
        requires { limit ≤ MOST_BLOCKS }
        ensures slots { result.slots ≡ [] }
        ensures limit { result.limit ≡ limit }
        ensures spare { result.spare ≡ 0 }
    {
        Pool {
            blocks: Chunks::new(alloc),
            numbers: Numbers::new(alloc),
            limit,
            ledger: PhantomData,
        }
    }

    /// How many blocks are live. It takes no memory.
    pub fn live(&self) -> u64
        ensures number { result ≡ live_count self.now.slots }
        ensures within { result + self.now.spare ≤ self.now.limit }
    {
        self.numbers.live() as u64
    }

    /// How many blocks may be taken before room is asked for. It takes no memory.
    pub fn spare(&self) -> u64
        ensures { result ≡ self.now.spare }
    {
        self.limit.min(self.blocks.len() as u64) - self.numbers.live() as u64
    }

    /// Makes room for so many blocks beside the live ones; blocks that were given back count. [`PoolError::Full`] comes
    /// exactly where there would be more live blocks than the limit, and [`PoolError::Memory`] where there isn't enough
    /// memory. No block changes in any case, and room that there is stays.
    pub fn reserve(&mut self, blocks: u64) -> Result<(), PoolError>
        ensures full { MatchResult result (λ _. passes_limit self.old blocks ≡ false) (λ why. IsCause why (passes_limit self.old blocks)) }
        ensures room { OnOk result (blocks ≤ self.new.spare) }
        ensures slots { self.new.slots ≡ self.old.slots }
        ensures limit { self.new.limit ≡ self.old.limit }
        ensures spare { self.old.spare ≤ self.new.spare }
        // A chunk is asked for only where room is short.
        ensures tight { self.new.spare ≤ max self.old.spare (blocks + 1023) }
        ensures kept { blocks ≤ self.old.spare → self.new ≡ self.old }
    {
        if blocks > self.limit - self.live() {
            return Err(PoolError::Full);
        }
        while self.spare() < blocks {
            self.grow()?;
        }
        Ok(())
    }

    // Room for up to 1,024 blocks more.
    fn grow(&mut self) -> Result<(), PoolError>
        requires { live_count self.old.slots + self.old.spare < self.old.limit }
        ensures memory { MatchResult result (λ _. self.old.spare < self.new.spare) (λ why. IsCause why false) }
        ensures slots { self.new.slots ≡ self.old.slots }
        ensures limit { self.new.limit ≡ self.old.limit }
        ensures spare { self.old.spare ≤ self.new.spare }
        ensures chunk { self.new.spare ≤ self.old.spare + 1024 }
    {
        let room = self.limit.min(self.blocks.len() as u64 + 1024);
        self.numbers.grow(room as usize)?;
        self.blocks.grow()?;
        Ok(())
    }

    /// Takes a block of zeros under a tag; there is room for one. It takes no memory.
    pub fn take(&mut self, tag: u64) -> BlockId
        requires { 0 < self.old.spare }
        ensures fresh { block_at self.old.slots result.0 ≡ None }
        ensures slot { block_at self.new.slots result.0 ≡ Some (tag, replicate 128 0) }
        ensures others { (k : ℕ) → k ≢ result.0 → block_at self.new.slots k ≡ block_at self.old.slots k }
        ensures limit { self.new.limit ≡ self.old.limit }
        ensures spare { self.new.spare + 1 ≡ self.old.spare }
        ensures live { live_count self.new.slots ≡ live_count self.old.slots + 1 }
    {
        let number = self.numbers.take(tag);
        self.blocks.clear(number as usize);
        BlockId(number)
    }

    /// Gives a live block back. It takes no memory.
    pub fn give_back(&mut self, id: BlockId)
        requires { IsLive self.old.slots id.0 }
        ensures slot { block_at self.new.slots id.0 ≡ None }
        ensures others { (k : ℕ) → k ≢ id.0 → block_at self.new.slots k ≡ block_at self.old.slots k }
        ensures limit { self.new.limit ≡ self.old.limit }
        ensures spare { self.new.spare ≡ self.old.spare + 1 }
        ensures live { live_count self.new.slots + 1 ≡ live_count self.old.slots }
    {
        self.numbers.give(id.0);
    }

    /// Lends the first words of a live block, at most 128 of them. The counter rises by their number. It takes no memory.
    pub fn read(&self, id: BlockId, used: usize, words: &mut Steps<L>) -> &[u64]
        requires live { IsLive self.now.slots id.0 }
        requires used { used ≤ 128 }
        ensures words { result.now ≡ take used (words_of (block_at self.now.slots id.0)) }
        ensures whole { length (words_of (block_at self.now.slots id.0)) ≡ 128 }
        ensures counted { words.new ≡ words.old + used }
    {
        count_steps(words, used);
        self.blocks.read(id.0 as usize, used)
    }

    /// One word of a live block, one of its 128. The counter rises by one. It takes no memory.
    pub fn word(&self, id: BlockId, at: usize, words: &mut Steps<L>) -> u64
        requires live { IsLive self.now.slots id.0 }
        requires at { at < 128 }
        ensures value { result ≡ slice_index_or (words_of (block_at self.now.slots id.0)) at 0 }
        ensures counted { words.new ≡ words.old + 1 }
    {
        words.tick();
        let block = self.blocks.read(id.0 as usize, at + 1);
        block[at]
    }

    /// One word of a live block becomes its OR with these bits; the block has this tag, and the word is one of its 128. It
    /// takes no memory.
    pub fn add_bits(&mut self, id: BlockId, tag: u64, at: usize, bits: u64)
        requires live { IsLive self.old.slots id.0 }
        requires tag { tag_at (block_at self.old.slots id.0) ≡ tag }
        requires at { at < 128 }
        ensures slot { block_at self.new.slots id.0 ≡ Some (tag, or_at (words_of (block_at self.old.slots id.0)) at bits) }
        ensures others { (k : ℕ) → k ≢ id.0 → block_at self.new.slots k ≡ block_at self.old.slots k }
        ensures limit { self.new.limit ≡ self.old.limit }
        ensures spare { self.new.spare ≡ self.old.spare }
        ensures live { live_count self.new.slots ≡ live_count self.old.slots }
    {
        let _ = tag;
        self.blocks.add_bits(id.0 as usize, at, bits);
    }

    /// The tag of a live block. It takes no memory.
    pub fn tag(&self, id: BlockId) -> u64
        requires { IsLive self.now.slots id.0 }
        ensures { result ≡ tag_at (block_at self.now.slots id.0) }
    {
        self.numbers.tag(id.0)
    }
}

// Counts so many steps.
fn count_steps<L: Ledger>(steps: &mut Steps<L>, number: usize)
    ensures { steps.new ≡ steps.old + number }
{
    for _ in 0..number {
        steps.tick();
    }
}
