// A list of code rows in blocks of a pool.
ghost use Rattle.std.specs.Prelude.{◌≡◌, ◌<◌, ◌≤◌, ◌+◌, ◌-◌, ◌*◌, ◌%◌, ◌^◌, ℕ, List, [], ◌∷◌, ◌++◌, Option as Maybe, None as Nothing, IsTrue, IfOk, OnOk, length, take, drop, slice_index_or as get_or};
ghost use Rattle.masked_compare.specs.Fields.{is_shape, lane_count};
ghost use Rattle.masked_compare.specs.Words.{IsRow};
ghost use Rattle.word_pool.specs.Region.{block_at, IsLive};
ghost use Rattle.bank_pack.specs.BankRepr.{blocks_of_page, blocks_of_rows, rows_before, words_with_rows, packed, IsAmong, IsOther, AreApart, AreLive, AreClean};
ghost use Rattle.bank_pack.specs.Banks.{pages_for};
ghost use Rattle.blink_lists.specs.declared.limits.TheConstants.{PAGE_ROWS};
ghost use Rattle.bank_pack.specs.BankRows.{numbers_of, ids_of, HasPages, room_of, StandsFor};
ghost use Rattle.bank_pack.specs.BankGrowth.{HasReleased};

use blink_base::Roomy;
use blink_lists::{PAGE_ROWS, WORD_BITS};
use masked_compare::Shape;
use std::alloc::{AllocError, Global};
use word_pool::{BlockId, Ledger, Pool, Steps};

// How many words a block has.
pub(crate) const BLOCK_WORDS: u64 = 128;

/// A list of code rows in blocks of a pool: the lanes of one row behind those of the row before, a page of 1,024 rows in
/// whole blocks. Which rows it is, only the pool tells. Source: after Johnson et al., VLDB 2008 (packed fields); pages and
/// blocks are this project's own.
#[derive(Drop)]
pub struct Bank {
    /// How the codes of a row lie in a lane.
    pub shape: Shape,
    /// The blocks, a page's behind those of the page before.
    pub blocks: Roomy<BlockId>,
    /// How many rows there are.
    pub rows: u64,
}

impl Bank {
    /// A bank without rows. It takes no memory. Source: this project's own.
    pub fn new(alloc: Global, shape: Shape) -> Bank
        ensures shape { result.shape ≡ shape }
        ensures blocks { result.blocks.0 ≡ [] }
        ensures rows { result.rows ≡ 0 }
        ensures stands { (slots : List (Maybe (ℕ × List ℕ))) → StandsFor result slots [] }
    {
        Bank {
            shape,
            blocks: Roomy::new(alloc),
            rows: 0,
        }
    }

    /// Makes room for so many further rows, and answers how many further blocks of a pool they take. It takes memory for the
    /// numbers of the blocks: [`AllocError`] comes where there isn't enough. The bank's rows and blocks stay in every case,
    /// and the room that there is. Source: this project's own.
    pub fn room(&mut self, rows: u64) -> Result<u64, AllocError>
        // The bank has the blocks of its pages.
        requires pages { HasPages self.old }
        // So many rows take fewer than 2^25 blocks; a table has at most 8,388,608 rows.
        requires few { self.old.rows + rows ≤ 2 ^ 32 }
        ensures blocks { IfOk result (λ blocks. blocks ≡ blocks_of_rows self.old.shape (self.old.rows + rows) - blocks_of_rows self.old.shape self.old.rows) }
        ensures room { OnOk result (rows ≤ room_of self.new) }
        ensures roomier { room_of self.old ≤ room_of self.new }
        ensures shape { self.new.shape ≡ self.old.shape }
        ensures ids { self.new.blocks.0 ≡ self.old.blocks.0 }
        ensures rows { self.new.rows ≡ self.old.rows }
        ensures stands { (slots : List (Maybe (ℕ × List ℕ))) (rows : List (List ℕ)) → StandsFor self.old slots rows → StandsFor self.new slots rows }
    {
        let pages = pages_of(self.rows + rows) - pages_of(self.rows);
        let blocks = pages * (self.shape.bits() / 8) as u64;
        self.blocks.reserve(blocks as usize)?;
        Ok(blocks)
    }

    /// Lends the words of a block of a page that hold rows, the first row's first, without copying. The counter rises by
    /// their number. It takes no memory. Source: this project's own.
    pub fn words<'a, L: Ledger>(
        &self,
        pool: &'a Pool<L>,
        page: u64,
        block: u32,
        words: &mut Steps<L>,
    ) -> &'a [u64]
        // The bank has the blocks of its pages, and they are live.
        requires pages { HasPages self.now }
        requires live { AreLive pool.now.slots (ids_of self.now) }
        // There is this block of this page, and rows in it.
        requires block { block < blocks_of_page self.now.shape }
        requires page { PAGE_ROWS * page + rows_before self.now.shape block < self.now.rows }
        ensures words { (rows : List (List ℕ)) → StandsFor self.now pool.now.slots rows → result.now ≡ packed self.now.shape (lane_count self.now.shape) (words_with_rows self.now.shape self.now.rows page block) (drop (PAGE_ROWS * page + rows_before self.now.shape block) rows) }
        ensures clean { (rows : List (List ℕ)) → StandsFor self.now pool.now.slots rows → AreClean self.now.shape result.now }
        ensures number { length result.now ≡ words_with_rows self.now.shape self.now.rows page block }
        ensures counted { words.new ≡ words.old + words_with_rows self.now.shape self.now.rows page block }
    {
        let lanes = lanes_of(self.shape);
        let left = (self.rows - PAGE_ROWS * page).min(PAGE_ROWS)
            - BLOCK_WORDS * lanes * block as u64;
        let used = ((left + (lanes - 1)) / lanes).min(BLOCK_WORDS);
        let at = page * (self.shape.bits() / 8) as u64 + block as u64;
        let id = self.blocks.as_slice()[at as usize];
        pool.read(id, used as usize, words)
    }

    /// The code of a row in a field. The counter rises by one. It takes no memory. Source: this project's own.
    pub fn code_at<L: Ledger>(
        &self,
        pool: &Pool<L>,
        row: u64,
        field: usize,
        words: &mut Steps<L>,
    ) -> u32
        // The bank has the blocks of its pages, and they are live.
        requires pages { HasPages self.now }
        requires live { AreLive pool.now.slots (ids_of self.now) }
        requires row { row < self.now.rows }
        requires field { field < length self.now.shape }
        ensures code { (rows : List (List ℕ)) → StandsFor self.now pool.now.slots rows → result ≡ get_or (get_or rows row []) field 0 }
        ensures counted { words.new ≡ words.old + 1 }
    {
        let lanes = lanes_of(self.shape);
        let at = row / lanes;
        let id = self.blocks.as_slice()[(at / BLOCK_WORDS) as usize];
        let word = pool.word(id, (at % BLOCK_WORDS) as usize, words);
        self.shape.field(word, (row % lanes) as usize, field)
    }

    /// Gives the bank's blocks back to the pool, and no other. It takes no memory. Source: this project's own.
    pub fn release<L: Ledger>(self, pool: &mut Pool<L>)
        // The bank's blocks are live, and no two of them are one.
        requires live { AreLive pool.old.slots (ids_of self) }
        requires apart { AreApart (ids_of self) }
        ensures free { (k : ℕ) → IsAmong k (ids_of self) → block_at pool.new.slots k ≡ Nothing }
        ensures others { (k : ℕ) → IsOther k (ids_of self) → block_at pool.new.slots k ≡ block_at pool.old.slots k }
        ensures limit { pool.new.limit ≡ pool.old.limit }
        ensures spare { pool.new.spare ≡ pool.old.spare + length self.blocks.0 }
    {
        give_back_all(pool, self.blocks.as_slice());
    }
}

// Gives these blocks back to the pool.
fn give_back_all<L: Ledger>(pool: &mut Pool<L>, ids: &[BlockId])
    requires live { AreLive pool.old.slots (numbers_of ids.now) }
    requires apart { AreApart (numbers_of ids.now) }
    ensures { HasReleased pool.old pool.new (numbers_of ids.now) }
{
    for id in ids {
        pool.give_back(*id);
    }
}

// How many pages so many rows take.
fn pages_of(rows: u64) -> u64
    requires { rows ≤ 2 ^ 32 }
    ensures { result ≡ pages_for rows }
{
    rows.div_ceil(PAGE_ROWS)
}

// How many lanes a word has.
pub(crate) fn lanes_of(shape: Shape) -> u64
    ensures value { result ≡ lane_count shape }
    ensures shape { IsTrue (is_shape shape) }
{
    (WORD_BITS / shape.bits()) as u64
}
