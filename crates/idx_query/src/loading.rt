ghost use Rattle.std.specs.Prelude.{◌≡◌, ◌-◌, [], IfOk, OnOk, length};
ghost use Rattle.idx_hall.specs.Calls.{pairs_of};
ghost use Rattle.idx_query.specs.Steps.{LoadingValue, load_state, with_block};

use idx_hall::{Key, LEAST_BYTES};
use idx_outside::{Bytes, NoMemory};
use std::alloc::Global;
use std::marker::Model;
use std::mem::size_of;
use std::sync::Arc;

/// There is room for so many loaded blocks at least.
const LEAST_LOADED: usize = LEAST_BYTES / size_of::<(Key, Arc<Bytes>)>();

/// The blocks that a round loads, each in memory of its own. Those are kept which a cache of so many blocks still has
/// behind the last of them; the others share a buffer. Memory of spare blocks is used before fresh one is taken.
#[derive(Drop)]
pub(crate) struct Loading {
    alloc: Global,
    bytes: usize,
    shared: Option<Vec<u8>>,
    spare: Vec<Arc<Bytes>>,
    skip: u64,
    loaded: Vec<(Key, Arc<Bytes>)>,
}

impl Model for Loading {
    ghost use Rattle.idx_hall.specs.Calls.{pairs_of};
    ghost use Rattle.idx_query.specs.Steps.{LoadingValue, load_state};

    ghost Value = { LoadingValue };

    ghost view = { λ l. load_state l.skip (pairs_of l.loaded.items) l.bytes };
}

impl Loading {
    /// No block yet, of so many bytes each, with room in the list for so many blocks.
    pub(crate) fn new(alloc: Global, blocks: u64, bytes: usize) -> Result<Loading, NoMemory>
        ensures { IfOk result (λ l. l ≡ load_state 0 [] bytes) }
    {
        Ok(Loading {
            alloc,
            bytes,
            shared: None,
            spare: Vec::new(alloc),
            skip: 0,
            loaded: Vec::with_capacity(alloc, LEAST_LOADED.max(blocks as usize))?,
        })
    }

    /// Of so many blocks to come only the last are kept, as many as a cache has room for.
    pub(crate) fn keep_last(&mut self, blocks: u64, room: u64)
        ensures { self.new ≡ load_state (blocks - room) self.old.loaded self.old.bytes }
    {
        self.skip = blocks.saturating_sub(room);
    }

    /// Has the memory of these blocks used, of which nobody needs what they hold.
    pub(crate) fn reuse(&mut self, spare: Vec<Arc<Bytes>>)
        ensures { self.new ≡ self.old }
    {
        self.spare = spare;
    }

    /// A buffer for a block. What it holds is of no use.
    pub(crate) fn buffer(&mut self) -> Result<Vec<u8>, NoMemory>
        ensures many { IfOk result (λ buffer. length buffer.items ≡ self.old.bytes) }
        ensures same { self.new ≡ self.old }
    {
        let mut buffer = match self.shared.take() {
            Some(buffer) => buffer,
            None => self.used_again(),
        };
        buffer.resize(self.bytes, 0)?;
        Ok(buffer)
    }

    /// The memory of a spare block, where that has as many bytes and no other owner; else none.
    fn used_again(&mut self) -> Vec<u8>
        ensures { self.new ≡ self.old }
    {
        if let Some(block) = self.spare.pop() {
            if block.len() == self.bytes {
                if let Ok(bytes) = Arc::try_unwrap(block) {
                    return bytes.into_vec();
                }
            }
        }
        Vec::new(self.alloc)
    }

    /// Keeps a block in its buffer, unless it is to be skipped.
    pub(crate) fn keep(&mut self, key: Key, buffer: Vec<u8>) -> Result<(), NoMemory>
        ensures { OnOk result (self.new ≡ with_block (key, buffer.items) self.old) }
    {
        if self.skip > 0 {
            self.skip -= 1;
            self.shared = Some(buffer);
            return Ok(());
        }
        let bytes = Arc::new(self.alloc, Bytes::from_vec(buffer))?;
        self.loaded.push((key, bytes))?;
        Ok(())
    }

    /// The blocks that were kept, in order.
    pub(crate) fn into_loaded(self) -> Vec<(Key, Arc<Bytes>)>
        ensures { pairs_of result.items ≡ self.loaded }
    {
        let Loading { loaded, .. } = self;
        loaded
    }
}
