// A row more.
ghost use Rattle.std.specs.Prelude.{◌≡◌, ◌<◌, ◌≤◌, ◌+◌, ◌-◌, ◌*◌, ◌%◌, ◌^◌, ℕ, List, [], ◌∷◌, ◌++◌, length, take};
ghost use Rattle.masked_compare.specs.Fields.{lane_bits, lane_count};
ghost use Rattle.masked_compare.specs.Words.{lane_of, IsRow};
ghost use Rattle.word_pool.specs.Region.{block_at, IsLive};
ghost use Rattle.blink_lists.specs.declared.limits.TheConstants.{PAGE_ROWS};
ghost use Rattle.bank_pack.specs.BankRepr.{block_words, blocks_of_page, blocks_of_rows, IsPacked, IsOther, AreTagged};
ghost use Rattle.bank_pack.specs.BankRows.{ids_of, HasPages, room_of, StandsFor};
ghost use Rattle.bank_pack.specs.BankGrowth.{HasTaken};

use crate::Bank;
use crate::bank::{BLOCK_WORDS, lanes_of};
use blink_lists::PAGE_ROWS;
use word_pool::{Ledger, Pool};

impl Bank {
    /// Puts a row behind the others: one code for each field, within its width. Where the row begins a page, the blocks of
    /// the page are taken from the pool first. It takes no memory. Source: after Johnson et al., VLDB 2008 (packed fields);
    /// pages and blocks are this project's own.
    pub fn push<L: Ledger>(&mut self, pool: &mut Pool<L>, tag: u64, codes: &[u32])
        // The bank has the blocks of its pages.
        requires pages { HasPages self.old }
        // There is room for a row; `room` makes it.
        requires room { 1 ≤ room_of self.old }
        // A pool has at most 2,097,152 blocks, and a block at most 1,024 rows, so no bank of different blocks has more.
        requires few { self.old.rows < 2 ^ 32 }
        // The bank's blocks are live under this tag.
        requires live { AreTagged tag pool.old.slots (ids_of self.old) }
        // A row that begins a page takes the blocks of one.
        requires spare { self.old.rows % PAGE_ROWS ≡ 0 → blocks_of_page self.old.shape ≤ pool.old.spare }
        requires codes { IsRow self.old.shape codes.now }
        ensures stands { (rows : List (List ℕ)) → StandsFor self.old pool.old.slots rows → StandsFor self.new pool.new.slots (rows ++ codes.now ∷ []) }
        ensures rows { self.new.rows ≡ self.old.rows + 1 }
        ensures shape { self.new.shape ≡ self.old.shape }
        ensures pages { HasPages self.new }
        ensures room { room_of self.new + 1 ≡ room_of self.old }
        ensures begun { self.old.rows % PAGE_ROWS ≡ 0 → pool.new.spare + blocks_of_page self.old.shape ≡ pool.old.spare }
        ensures within { 0 < self.old.rows % PAGE_ROWS → pool.new.spare ≡ pool.old.spare }
        ensures limit { pool.new.limit ≡ pool.old.limit }
        ensures live { AreTagged tag pool.new.slots (ids_of self.new) }
        // Its blocks stay its first ones, those behind them were not live, and every other block stays.
        ensures front { take (length self.old.blocks.0) self.new.blocks.0 ≡ self.old.blocks.0 }
        ensures fresh { (k : ℕ) → IsLive pool.old.slots k → IsOther k (ids_of self.old) → IsOther k (ids_of self.new) }
        ensures others { (k : ℕ) → IsOther k (ids_of self.new) → block_at pool.new.slots k ≡ block_at pool.old.slots k }
    {
        let lane = self.shape.lane(codes);
        self.begin_page(pool, tag);
        self.put_lane(pool, tag, lane);
    }

    // Takes the blocks of a page where the next row begins one.
    fn begin_page<L: Ledger>(&mut self, pool: &mut Pool<L>, tag: u64)
        requires pages { HasPages self.old }
        requires room { 1 ≤ room_of self.old }
        requires few { self.old.rows < 2 ^ 32 }
        requires live { AreTagged tag pool.old.slots (ids_of self.old) }
        requires spare { self.old.rows % PAGE_ROWS ≡ 0 → blocks_of_page self.old.shape ≤ pool.old.spare }
        ensures { HasTaken tag pool.old pool.new self.old self.new (blocks_of_rows self.old.shape (self.old.rows + 1) - length self.old.blocks.0) }
    {
        if self.rows % PAGE_ROWS == 0 {
            let blocks = self.shape.bits() / 8;
            self.take_blocks(pool, tag, blocks);
        }
    }

    // Takes so many blocks of the pool.
    fn take_blocks<L: Ledger>(&mut self, pool: &mut Pool<L>, tag: u64, blocks: u32)
        requires room { blocks ≤ self.old.blocks.1 }
        requires spare { blocks ≤ pool.old.spare }
        requires live { AreTagged tag pool.old.slots (ids_of self.old) }
        ensures { HasTaken tag pool.old pool.new self.old self.new blocks }
    {
        for taken in 0..blocks {
            let _ = taken;
            let id = pool.take(tag);
            self.blocks.put(id);
        }
    }

    // Puts a lane behind those of the rows; there is a block for it.
    fn put_lane<L: Ledger>(&mut self, pool: &mut Pool<L>, tag: u64, lane: u64)
        requires within { self.old.rows < lane_count self.old.shape * (block_words * length self.old.blocks.0) }
        requires few { self.old.rows < 2 ^ 32 }
        requires live { AreTagged tag pool.old.slots (ids_of self.old) }
        requires small { lane < 2 ^ lane_bits self.old.shape }
        ensures packed { (rows : List (List ℕ)) (row : List ℕ) → length rows ≡ self.old.rows → IsPacked self.old.shape pool.old.slots (ids_of self.old) rows → IsRow self.old.shape row → lane ≡ lane_of self.old.shape row → IsPacked self.old.shape pool.new.slots (ids_of self.old) (rows ++ row ∷ []) }
        ensures shape { self.new.shape ≡ self.old.shape }
        ensures blocks { self.new.blocks ≡ self.old.blocks }
        ensures rows { self.new.rows ≡ self.old.rows + 1 }
        ensures spare { pool.new.spare ≡ pool.old.spare }
        ensures limit { pool.new.limit ≡ pool.old.limit }
        ensures live { AreTagged tag pool.new.slots (ids_of self.old) }
        ensures others { (k : ℕ) → IsOther k (ids_of self.old) → block_at pool.new.slots k ≡ block_at pool.old.slots k }
    {
        let lanes = lanes_of(self.shape);
        let shift = self.shape.bits() as u64 * (self.rows % lanes);
        let word = self.rows / lanes;
        let id = self.blocks.as_slice()[(word / BLOCK_WORDS) as usize];
        pool.add_bits(id, tag, (word % BLOCK_WORDS) as usize, lane << shift);
        self.rows += 1;
    }
}
