// Blocks in chunks.
ghost use Rattle.std.specs.Prelude.{◌≡◌, ◌<◌, ◌≤◌, ◌+◌, ◌*◌, ◌^◌, [], ◌++◌, length, replicate, take, slice_index_or, slice_set, OnOk, OnErr, IfOk};
ghost use Rattle.word_pool.specs.Region.{or_at};

use std::alloc::{AllocError, Global};
use std::marker::Model;

// Blocks of 128 words, seen as one list of them. They stand in chunks of 1,024, each got from memory once and never moved.
#[derive(Drop)]
pub(crate) struct Chunks {
    chunks: Vec<Vec<[u64; 128]>>,
}

impl Model for Chunks {
    ghost use Rattle.std.specs.Prelude.{List, ℕ, map};
    ghost use Rattle.word_pool.specs.ChunkList.{joined, AreWhole};

    ghost Value = { List (List ℕ) };

    ghost view = { λ a. joined (map (λ c. c.items) a.chunks.items) };

    ghost invariant = { λ a. AreWhole (map (λ c. c.items) a.chunks.items) };
}

// 1,024 blocks of zeros.
fn zeros(alloc: Global) -> Result<Vec<[u64; 128]>, AllocError>
    ensures { IfOk result (λ chunk. chunk.items ≡ replicate 1024 (replicate 128 0)) }
{
    let mut chunk = Vec::with_capacity(alloc, 1024)?;
    for i in 0..1024usize {
        let _ = i;
        chunk.push([0u64; 128])?;
    }
    Ok(chunk)
}

// The first words of a block.
fn first_words(block: &[u64; 128], used: usize) -> &[u64]
    requires { used ≤ 128 }
    ensures words { result.now ≡ take used block.now }
    ensures whole { length block.now ≡ 128 }
{
    &block[..used]
}

impl Chunks {
    // No blocks.
    pub(crate) fn new(alloc: Global) -> Chunks
        ensures { result ≡ [] }
    {
        Chunks {
            chunks: Vec::new(alloc),
        }
    }

    // How many blocks there are.
    pub(crate) fn len(&self) -> usize
        requires { length self.now < 2 ^ 64 }
        ensures { result ≡ length self.now }
    {
        self.chunks.len() * 1024
    }

    // The first words of a block.
    pub(crate) fn read(&self, number: usize, used: usize) -> &[u64]
        requires number { number < length self.now }
        requires used { used ≤ 128 }
        ensures words { result.now ≡ take used (slice_index_or self.now number []) }
        ensures whole { length (slice_index_or self.now number []) ≡ 128 }
    {
        first_words(&self.chunks[number / 1024][number % 1024], used)
    }

    // One word of a block becomes its OR with these bits.
    pub(crate) fn add_bits(&mut self, number: usize, at: usize, bits: u64)
        requires number { number < length self.old }
        requires at { at < 128 }
        ensures { self.new ≡ slice_set self.old number (or_at (slice_index_or self.old number []) at bits) }
    {
        let chunk = &mut self.chunks[number / 1024];
        let block = &mut chunk[number % 1024];
        block[at] |= bits;
    }

    // The words of a block become zeros.
    pub(crate) fn clear(&mut self, number: usize)
        requires { number < length self.old }
        ensures { self.new ≡ slice_set self.old number (replicate 128 0) }
    {
        let chunk = &mut self.chunks[number / 1024];
        chunk[number % 1024] = [0; 128];
    }

    // 1,024 blocks of zeros more.
    pub(crate) fn grow(&mut self) -> Result<(), AllocError>
        ensures ok { OnOk result (self.new ≡ self.old ++ replicate 1024 (replicate 128 0)) }
        ensures err { OnErr result (self.new ≡ self.old) }
    {
        let alloc = *self.chunks.allocator();
        let chunk = zeros(alloc)?;
        self.chunks.push(chunk)?;
        Ok(())
    }
}
