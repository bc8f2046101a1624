ghost use Rattle.std.specs.Prelude.{◌≡◌, ◌≤◌, IfOk};

use crate::block::Block;
use idx_outside::{Bytes, NoMemory};
use std::alloc::Global;
use std::marker::Model;
use std::mem::replace;
use std::sync::Arc;

/// Blocks that fell out of a cache, kept so that their memory is used again; seen as how many there is room for. All
/// memory for the list of them is taken at the start.
#[derive(Drop)]
pub(crate) struct Spare {
    blocks: Vec<Arc<Bytes>>,
    room: usize,
}

impl Model for Spare {
    ghost use Rattle.std.specs.Prelude.{ℕ, ◌≤◌, length, vec_capacity};

    ghost Value = { ℕ };

    ghost view = { λ s. s.room };

    ghost invariant = { λ s. (length s.blocks.items ≤ s.room) × (s.room ≤ vec_capacity s.blocks) };
}

/// How many spare blocks there are at most.
const MOST_SPARE: u64 = 4096;

/// How many bytes the spare blocks of a hall have at most, where one block alone has no more.
const SPARE_BYTES: u64 = 1 << 26;

impl Spare {
    /// No block, with room for so many, or for 4,096 where that is less.
    pub(crate) fn new(alloc: Global, blocks: u64) -> Result<Spare, NoMemory>
        ensures { IfOk result (λ spare. spare ≤ 4096) }
    {
        let room = blocks.min(MOST_SPARE) as usize;
        Ok(Spare {
            blocks: Vec::with_capacity(alloc, room)?,
            room,
        })
    }

    /// No block, with room for those of a hall: for as many as have 2^26 bytes, or for one where that has more, and for
    /// 4,096 at most. A block of each field has so many bytes. How many the cache keeps does not matter: while many worker
    /// threads load blocks, as many fall out as were loaded, and what is not kept would stay with the C library, for each
    /// thread by itself.
    pub(crate) fn of_hall(alloc: Global, lengths: &[u64]) -> Result<Spare, NoMemory>
        ensures { IfOk result (λ spare. spare ≤ 4096) }
    {
        let largest = lengths.iter().copied().max().unwrap_or(1).max(1);
        Spare::new(alloc, (SPARE_BYTES / largest).max(1))
    }

    /// Keeps a block, if one is given and there is room for it. Takes no memory.
    pub(crate) fn keep(&mut self, block: Option<Block>)
        ensures { self.new ≡ self.old }
    {
        if let Some(block) = block {
            if self.blocks.len() < self.room {
                let kept = self.blocks.push(block.into_bytes()).is_ok();
                prove!(kept);
            }
        }
    }

    /// Keeps a block of others for each that was not found, of those that nobody else holds any more. One that somebody
    /// still copies samples from stays with the others until it can be used.
    pub(crate) fn keep_of(&mut self, others: &mut Spare, found: &[Option<Block>])
        ensures room { self.new ≡ self.old }
        ensures others { others.new ≡ others.old }
    {
        let mut wanted = found.iter().filter(|block| block.is_none()).count();
        for place in (0..others.blocks.len()).rev() {
            if wanted == 0 {
                return;
            }
            let block = others.take_free(place);
            if block.is_some() {
                wanted -= 1;
            }
            self.keep(block);
        }
    }

    /// Takes out the block at this place, if there is one that nobody else holds. The last one takes its place.
    fn take_free(&mut self, place: usize) -> Option<Block>
        ensures { self.new ≡ self.old }
    {
        if place < self.blocks.len() && Arc::strong_count(&self.blocks[place]) == 1 {
            return Some(Block::new(self.blocks.swap_remove(place)));
        }
        None
    }

    /// Takes all blocks out, and the room with them. Takes no memory.
    pub(crate) fn take_all(&mut self) -> Vec<Arc<Bytes>>
        ensures { self.new ≡ 0 }
    {
        let none = Vec::new(*self.blocks.allocator());
        self.room = 0;
        replace(&mut self.blocks, none)
    }

    /// Drops all blocks, and keeps the room.
    pub(crate) fn clear(&mut self)
        ensures { self.new ≡ self.old }
    {
        self.blocks.clear();
    }
}
