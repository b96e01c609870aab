// Blocks that are taken and given back.
ghost use Rattle.std.specs.Prelude.{◌≡◌, ◌≢◌, ◌<◌, ◌≤◌, ◌+◌, ℕ, length, OnOk};
ghost use Rattle.word_pool.specs.Region.{IsLive};
ghost use Rattle.pool_tests.specs.Entries.{AreHeld};

use std::alloc::Global;
use std::marker::Brand;
use std::sync::ledger;
use std::sync::ledger::Blank;
use std::test::Fail;
use word_pool::{BlockId, Ledger, Pool, PoolError, Steps, Tally};

// A block as a test keeps it: all its words are zeros but one.
#[derive(Clone, Copy)]
struct Entry {
    id: BlockId,
    tag: u64,
    at: usize,
    bits: u64,
}

// Takes a block, and writes one of its words in two parts.
fn put<L: Ledger>(pool: &mut Pool<L>, entries: &mut Vec<Entry>, tag: u64) -> Result<(), PoolError>
    requires { AreHeld pool.old.slots entries.old.items (λ e. e.id.0) }
    ensures { OnOk result (AreHeld pool.new.slots entries.new.items (λ e. e.id.0)) }
{
    pool.reserve(1)?;
    let id = pool.take(tag);
    let at = (tag % 128) as usize;
    pool.add_bits(id, tag, at, tag);
    pool.add_bits(id, tag, at, 1 << 63);
    let bits = tag | 1 << 63;
    if entries.push(Entry { id, tag, at, bits }).is_err() {
        return Err(PoolError::Memory);
    }
    Ok(())
}

// Gives the block of an entry back.
fn give<L: Ledger>(pool: &mut Pool<L>, entries: &mut Vec<Entry>, at: usize)
    requires held { AreHeld pool.old.slots entries.old.items (λ e. e.id.0) }
    requires at { at < length entries.old.items }
    ensures { AreHeld pool.new.slots entries.new.items (λ e. e.id.0) }
{
    let entry = entries.swap_remove(at);
    pool.give_back(entry.id);
}

// Takes so many blocks.
fn put_all<L: Ledger>(
    pool: &mut Pool<L>,
    entries: &mut Vec<Entry>,
    number: u64,
) -> Result<(), PoolError>
    requires { AreHeld pool.old.slots entries.old.items (λ e. e.id.0) }
    ensures { OnOk result (AreHeld pool.new.slots entries.new.items (λ e. e.id.0)) }
{
    for tag in 0..number {
        put(pool, entries, tag)?;
    }
    Ok(())
}

// Gives so many blocks back, from places all over the list.
fn give_all<L: Ledger>(pool: &mut Pool<L>, entries: &mut Vec<Entry>, number: u64)
    requires { AreHeld pool.old.slots entries.old.items (λ e. e.id.0) }
    ensures { AreHeld pool.new.slots entries.new.items (λ e. e.id.0) }
{
    for step in 0..number {
        if entries.is_empty() {
            return;
        }
        let at = step.wrapping_mul(37) as usize % entries.len();
        give(pool, entries, at);
    }
}

// Whether a block has the tag and the words of its entry.
fn is_as_kept<L: Ledger>(pool: &Pool<L>, entry: &Entry, words: &mut Steps<L>) -> bool
    requires { IsLive pool.now.slots entry.now.id.0 }
{
    let mut wanted = [0u64; 128];
    wanted[entry.at % 128] = entry.bits;
    pool.tag(entry.id) == entry.tag
        && pool.word(entry.id, entry.at % 128, words) == entry.bits
        && pool.read(entry.id, 128, words) == wanted.as_slice()
}

// Whether each block has the tag and the words of its entry.
fn are_as_kept<L: Ledger>(pool: &Pool<L>, entries: &[Entry], words: &mut Steps<L>) -> bool
    requires { AreHeld pool.now.slots entries.now (λ e. e.id.0) }
{
    let mut same = true;
    for entry in entries {
        same = is_as_kept(pool, entry, words) && same;
    }
    same
}

// How many blocks are taken, how many are given back then, and how many are live after that.
const ROUNDS: [(u64, u64, u64); 4] = [
    (700, 300, 400),
    (1500, 600, 1300),
    (1300, 100, 2500),
    (0, 2500, 0),
];

// Whether the blocks of a pool are those of the list beside it, after each round.
fn rounds_agree<N: ledger::Ledger>(alloc: Global, blank: Blank) -> Result<bool, PoolError>
    requires name { blank.name ≡ N.name }
    requires parts { blank.parts ≡ N.parts }
    requires some { 0 < blank.parts }
{
    let mut words: Steps<Tally<N>> = Steps::new(Tally::new(blank));
    let mut pool: Pool<Tally<N>> = Pool::new(alloc, 2600);
    let mut entries = Vec::new(alloc);
    let mut agree = true;
    for (taken, given, live) in &ROUNDS {
        put_all(&mut pool, &mut entries, *taken)?;
        agree = are_as_kept(&pool, &entries, &mut words) && agree;
        give_all(&mut pool, &mut entries, *given);
        agree = are_as_kept(&pool, &entries, &mut words) && agree;
        agree = agree && pool.live() == *live && entries.len() as u64 == *live;
    }
    Ok(agree)
}

#[test]
fn blocks_are_as_a_list_keeps_them(rt: HostRuntime) -> Result<(), Fail> {
    assert!(rt; rounds_agree::<Brand>(rt.alloc(), Blank::new(1))?);
    Ok(())
}

// What a pool of one block answers: whether the first block is of zeros under its tag, whether a second is refused, and
// whether there is room again once the first is given back.
fn answers_of_one<N: ledger::Ledger>(
    alloc: Global,
    blank: Blank,
) -> Result<(bool, bool, bool), PoolError>
    requires name { blank.name ≡ N.name }
    requires parts { blank.parts ≡ N.parts }
    requires some { 0 < blank.parts }
{
    let mut words: Steps<Tally<N>> = Steps::new(Tally::new(blank));
    let mut pool: Pool<Tally<N>> = Pool::new(alloc, 1);
    pool.reserve(1)?;
    let id = pool.take(7);
    let zeros = pool.tag(id) == 7 && pool.read(id, 128, &mut words) == [0; 128].as_slice();
    let full = pool.reserve(1) == Err(PoolError::Full);
    pool.give_back(id);
    Ok((zeros, full, pool.reserve(1).is_ok() && pool.spare() == 1))
}

#[test]
fn one_block_is_taken_again(rt: HostRuntime) -> Result<(), Fail> {
    assert_eq!(rt;
        answers_of_one::<Brand>(rt.alloc(), Blank::new(1))?,
        (true, true, true)
    );
    Ok(())
}
