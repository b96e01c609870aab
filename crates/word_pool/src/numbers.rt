// The numbers of blocks.
ghost use Rattle.std.specs.Prelude.{◌≡◌, ◌≢◌, ◌<◌, ◌≤◌, ◌+◌, ◌^◌, ℕ, [], length, max, slice_index_or, Some, None, IsSome, OnOk};
ghost use Rattle.word_pool.specs.Region.{live_count};

use std::alloc::{AllocError, Global};
use std::marker::Model;

// Which numbers are live, and under which tag. A number that was given back is used again before a new one.
#[derive(Drop)]
pub(crate) struct Numbers {
    tags: Vec<Option<u64>>,
    free: Vec<u32>,
    room: usize,
}

impl Model for Numbers {
    ghost use Rattle.word_pool.specs.Numbering.{Numbering};

    ghost Value = { Numbering };

    ghost use Rattle.word_pool.specs.NumberTable.{numbering_of, IsTable};

    ghost view = { numbering_of };

    ghost invariant = { IsTable };
}

impl Numbers {
    // No numbers.
    pub(crate) fn new(alloc: Global) -> Numbers
        ensures tags { result.tags ≡ [] }
        ensures room { result.room ≡ 0 }
    {
        Numbers {
            tags: Vec::new(alloc),
            free: Vec::new(alloc),
            room: 0,
        }
    }

    // How many numbers are live.
    pub(crate) fn live(&self) -> usize
        ensures { result ≡ live_count self.now.tags }
    {
        self.tags.len() - self.free.len()
    }

    // The tag of a live number.
    pub(crate) fn tag(&self, number: u32) -> u64
        requires { IsSome (slice_index_or self.now.tags number None) }
        ensures { slice_index_or self.now.tags number None ≡ Some result }
    {
        match self.tags[number as usize] {
            Some(tag) => tag,
            None => unreachable!(),
        }
    }

    // Makes a number live: one that was given back, if there is one, and else the first that was never used.
    pub(crate) fn take(&mut self, tag: u64) -> u32
        requires { live_count self.old.tags < self.old.room }
        ensures fresh { slice_index_or self.old.tags result None ≡ None }
        ensures taken { slice_index_or self.new.tags result None ≡ Some tag }
        ensures others { (k : ℕ) → k ≢ result → slice_index_or self.new.tags k None ≡ slice_index_or self.old.tags k None }
        ensures live { live_count self.new.tags ≡ live_count self.old.tags + 1 }
        ensures room { self.new.room ≡ self.old.room }
        ensures within { result < length self.new.tags }
        ensures used { length self.new.tags ≤ max (length self.old.tags) (live_count self.new.tags) }
    {
        match self.free.pop() {
            Some(number) => {
                self.tags[number as usize] = Some(tag);
                number
            }
            None => {
                let number = self.tags.len() as u32;
                if self.tags.push(Some(tag)).is_err() {
                    unreachable!();
                }
                number
            }
        }
    }

    // Makes a live number free.
    pub(crate) fn give(&mut self, number: u32)
        requires { IsSome (slice_index_or self.old.tags number None) }
        ensures given { slice_index_or self.new.tags number None ≡ None }
        ensures others { (k : ℕ) → k ≢ number → slice_index_or self.new.tags k None ≡ slice_index_or self.old.tags k None }
        ensures live { live_count self.new.tags + 1 ≡ live_count self.old.tags }
        ensures room { self.new.room ≡ self.old.room }
        ensures used { length self.new.tags ≡ length self.old.tags }
    {
        self.tags[number as usize] = None;
        if self.free.push(number).is_err() {
            unreachable!();
        }
    }

    // Makes room for so many numbers in all.
    pub(crate) fn grow(&mut self, room: usize) -> Result<(), AllocError>
        requires { room ≤ 2 ^ 32 }
        ensures ok { OnOk result (room ≤ self.new.room) }
        ensures tags { self.new.tags ≡ self.old.tags }
        ensures room { self.old.room ≤ self.new.room }
    {
        if room <= self.room {
            return Ok(());
        }
        self.tags.reserve(room - self.tags.len())?;
        self.free.reserve(room - self.free.len())?;
        self.room = room;
        Ok(())
    }
}
