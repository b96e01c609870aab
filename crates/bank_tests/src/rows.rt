// Rows pushed into a bank, and read back.
ghost use Rattle.std.specs.Prelude.{◌≡◌, ◌<◌, ◌+◌, [], ◌∷◌, true, OnOk};
ghost use Rattle.masked_compare.specs.Words.{IsRow};
ghost use Rattle.bank_tests.specs.BankState.{IsHeld};

use bank_pack::Bank;
use bank_pack::laws::banks_have_their_blocks;
use masked_compare::Shape;
use std::alloc::Global;
use std::marker::Brand;
use std::sync::ledger;
use std::sync::ledger::Blank;
use std::test::Fail;
use word_pool::{Ledger, Pool, PoolError, Steps, Tally};

// The tag of the blocks.
const TAG: u64 = 7;

// Whether these are the codes of a row of fields of these widths.
#[tactic(auto, using(std::proofs::lemmas::Nat::one_shl))]
fn is_row(widths: &[u8], codes: &[u32]) -> bool
    ensures { result ≡ true → IsRow widths.now codes.now }
{
    if widths.len() != codes.len() {
        return false;
    }
    for at in 0..widths.len() {
        if widths[at] >= 32 || codes[at] >= 1 << widths[at] {
            return false;
        }
    }
    true
}

// Puts a row behind those of a bank.
fn add<L: Ledger>(
    pool: &mut Pool<L>,
    bank: &mut Bank,
    widths: &[u8],
    codes: &[u32],
) -> Result<(), PoolError>
    requires { IsHeld widths.now bank.old pool.old.slots }
    ensures held { OnOk result (IsHeld widths.now bank.new pool.new.slots) }
    ensures rows { OnOk result (bank.new.rows ≡ bank.old.rows + 1) }
{
    if bank.rows >= 1_000_000 || !is_row(widths, codes) {
        return Err(PoolError::Full);
    }
    banks_have_their_blocks();
    let blocks = bank.room(1)?;
    pool.reserve(blocks)?;
    bank.push(pool, TAG, codes);
    Ok(())
}

// Widths, rows of codes, and the word that these rows make.
type Case = (&'static [u8], &'static [&'static [u32]], u64);

const CASES: [Case; 2] = [
    (
        &[3],
        &[&[0], &[1], &[2], &[3], &[4], &[5], &[6], &[7]],
        0x0706_0504_0302_0100,
    ),
    (
        &[3, 4],
        &[&[7, 0], &[0, 15], &[7, 15], &[3, 8]],
        0x0083_00F7_00F0_0007,
    ),
];

// Whether the rows of a case make its word, and no block is live once they are given back.
fn makes_word<N: ledger::Ledger>(
    alloc: Global,
    blank: Blank,
    case: &Case,
) -> Result<bool, PoolError>
    requires name { blank.name ≡ N.name }
    requires parts { blank.parts ≡ N.parts }
    requires some { 0 < blank.parts }
{
    let mut words: Steps<Tally<N>> = Steps::new(Tally::new(blank));
    let mut pool: Pool<Tally<N>> = Pool::new(alloc, 8);
    let (widths, rows, word) = *case;
    let Some(shape) = Shape::new(widths) else {
        return Ok(false);
    };
    let mut bank = Bank::new(alloc, shape);
    for codes in rows {
        add(&mut pool, &mut bank, widths, codes)?;
    }
    if bank.rows == 0 {
        return Ok(false);
    }
    banks_have_their_blocks();
    let same = bank.words(&pool, 0, 0, &mut words) == [word].as_slice();
    bank.release(&mut pool);
    Ok(same && pool.live() == 0)
}

#[test]
fn rows_make_words(rt: HostRuntime) -> Result<(), Fail> {
    for case in &CASES {
        assert!(rt; makes_word::<Brand>(rt.alloc(), Blank::new(1), case)?);
    }
    Ok(())
}

// How many rows there are: two whole pages, and a part of a third.
const ROWS: u64 = 2100;

// The codes of a row in fields of 3, 4 and 11 bits.
fn codes_of(row: u64) -> [u32; 3] {
    [
        (row % 8) as u32,
        (row / 8 % 16) as u32,
        (row.wrapping_mul(7) % 2048) as u32,
    ]
}

// The lane of a row, zero behind the last.
fn lane_of(row: u64) -> u64 {
    if row >= ROWS {
        return 0;
    }
    let codes = codes_of(row);
    codes[0] as u64 | (codes[1] as u64) << 4 | (codes[2] as u64) << 9
}

// Whether these are all the words of a block from a row on, two rows a word.
fn are_words(words: &[u64], first: u64) -> bool {
    let mut row = first;
    for word in words {
        if *word != (lane_of(row) | lane_of(row.wrapping_add(1)) << 32) {
            return false;
        }
        row = row.wrapping_add(2);
    }
    row == ROWS.min(first.saturating_add(256))
}

// Whether each code comes back.
fn codes_agree<L: Ledger>(pool: &Pool<L>, bank: &Bank, words: &mut Steps<L>) -> bool
    requires { IsHeld (3 ∷ 4 ∷ 11 ∷ []) bank.now pool.now.slots }
{
    banks_have_their_blocks();
    let mut same = bank.rows == ROWS;
    for row in 0..bank.rows {
        let codes = codes_of(row);
        for field in 0..3usize {
            same = bank.code_at(pool, row, field, words) == codes[field] && same;
        }
    }
    same
}

// Whether the words of each page are those of its rows.
fn words_agree<L: Ledger>(pool: &Pool<L>, bank: &Bank, words: &mut Steps<L>) -> bool
    requires { IsHeld (3 ∷ 4 ∷ 11 ∷ []) bank.now pool.now.slots }
{
    banks_have_their_blocks();
    let mut same = true;
    for page in 0..3u64 {
        for block in 0..4u32 {
            let first = 1024 * page + 256 * block as u64;
            if first < bank.rows {
                same = are_words(bank.words(pool, page, block, words), first) && same;
            }
        }
    }
    same
}

// Whether rows of three fields come back, and no block is live once they are given back.
fn rows_come_back<N: ledger::Ledger>(alloc: Global, blank: Blank) -> Result<bool, PoolError>
    requires name { blank.name ≡ N.name }
    requires parts { blank.parts ≡ N.parts }
    requires some { 0 < blank.parts }
{
    let mut words: Steps<Tally<N>> = Steps::new(Tally::new(blank));
    let mut pool: Pool<Tally<N>> = Pool::new(alloc, 12);
    let Some(shape) = Shape::new(&[3, 4, 11]) else {
        return Ok(false);
    };
    let mut bank = Bank::new(alloc, shape);
    for row in 0..ROWS {
        add(&mut pool, &mut bank, &[3, 4, 11], &codes_of(row))?;
    }
    let same = codes_agree(&pool, &bank, &mut words) && words_agree(&pool, &bank, &mut words);
    banks_have_their_blocks();
    bank.release(&mut pool);
    Ok(same && pool.live() == 0)
}

#[test]
fn rows_are_read_as_they_were_pushed(rt: HostRuntime) -> Result<(), Fail> {
    assert!(rt; rows_come_back::<Brand>(rt.alloc(), Blank::new(1))?);
    Ok(())
}
