ghost use Rattle.std.specs.Prelude.{◌≡◌, ◌<◌, ◌≤◌, Some, IfOk, OnErr, OnOk, length, map, option_copied, slice_get, vec_capacity};
ghost use Rattle.std.specs.Option.{option_map};
ghost use Rattle.std.specs.Arc.{arc_value};
ghost use Rattle.idx_cache.specs.Cached.{found};
ghost use Rattle.idx_hall.specs.Hall.{name_eq, name_of};
ghost use Rattle.idx_hall.specs.Looked.{LookedValue, looked_up, not_looked};

use crate::block::Block;
use crate::caching::note_all;
use crate::published::Published;
use crate::spare::Spare;
use crate::{BlockName, Key, LEAST_BYTES};
use idx_cache::Cache;
use idx_outside::{Blocks, Bytes, NoMemory};
use std::alloc::Global;
use std::marker::Model;
use std::mem::size_of;
use std::sync::Arc;

/// A look has room for so many found blocks at least.
const LEAST_FOUND: usize = LEAST_BYTES / size_of::<Option<Block>>();

/// A look has room for so many spare blocks at least.
const LEAST_SPARE: u64 = (LEAST_BYTES / size_of::<Arc<Bytes>>()) as u64;

/// What a look finds: the step that it looked in, and for each key the cached block or nothing. It also brings spare
/// blocks, at most as many as keys were missed: blocks that fell out of the cache, whose memory may be used again.
#[derive(Drop)]
pub struct Looked<E: Blocks> {
    published: Option<Published<E>>,
    blocks: Vec<Option<Block>>,
    room: u64,
    spare: Spare,
}

impl<E: Blocks> Model for Looked<E> {
    ghost use Rattle.std.specs.Prelude.{◌≤◌, vec_capacity};
    ghost use Rattle.idx_hall.specs.Looked.{LookedValue};

    ghost Value = { LookedValue E };

    ghost view = { λ l. record { edition = l.published; found = l.blocks.items; room = l.room } };

    ghost invariant = { λ l. l.room ≤ vec_capacity l.blocks };
}

impl<E: Blocks + Drop> Looked<E> {
    /// Nothing found yet, with room for so many blocks.
    pub fn new(alloc: Global, room: u64) -> Result<Looked<E>, NoMemory>
        ensures { IfOk result (λ l. l ≡ not_looked room) }
    {
        Ok(Looked {
            published: None,
            blocks: Vec::with_capacity(alloc, LEAST_FOUND.max(room as usize))?,
            room,
            spare: Spare::new(alloc, LEAST_SPARE.max(room))?,
        })
    }

    /// Notes the step, which is the post of this number, and, for each key in order, the block that the cache has of it
    /// in that post, if it has one; for each that it has not, a spare block comes along, while there are any that nobody
    /// else holds. After `NoMemory` nothing is noted.
    pub(crate) fn note(
        &mut self,
        published: &Published<E>,
        cache: &Cache<BlockName, Block>,
        spare: &mut Spare,
        post: u64,
        keys: &[Key],
    ) -> Result<(), NoMemory>
        requires empty { self.old ≡ not_looked self.old.room }
        requires room { length keys.now ≤ self.old.room }
        ensures found { OnOk result (self.new ≡
            looked_up published.now (map (λ key. found name_eq (name_of post key) cache.now.pairs) keys.now)
            self.old.room) }
        ensures refused { OnErr result (self.new ≡ self.old) }
    {
        let published = published.share()?;
        if note_all(cache, post, keys, &mut self.blocks).is_err() {
            self.blocks.clear();
            return Err(NoMemory);
        }
        self.published = Some(published);
        self.spare.keep_of(spare, &self.blocks);
        Ok(())
    }

    /// Forgets what was found, and keeps the room.
    pub fn clear(&mut self)
        ensures { self.new ≡ not_looked self.old.room }
    {
        self.published = None;
        self.blocks.clear();
    }

    /// The step, if the last look found one.
    pub fn edition(&self) -> Option<&Arc<E>>
        ensures { option_map (λ edition. arc_value edition) (option_copied result) ≡ self.now.edition }
    {
        match &self.published {
            Some(published) => Some(published.edition()),
            None => None,
        }
    }

    /// How many keys were looked up.
    pub fn len(&self) -> u64
        ensures { result ≡ length self.now.found }
    {
        self.blocks.len() as u64
    }

    /// The block of the key of this number, counted from 0, if it was cached.
    pub fn found(&self, i: u64) -> Option<&Arc<Bytes>>
        requires { i < length self.now.found }
        ensures { Some (option_map (λ bytes. arc_value bytes) (option_copied result)) ≡ slice_get self.now.found i }
    {
        match &self.blocks[i as usize] {
            Some(block) => Some(block.bytes()),
            None => None,
        }
    }

    /// The spare blocks that the looks brought. What they hold is of no use. Takes no memory, and later looks bring none.
    pub fn take_spare(&mut self) -> Vec<Arc<Bytes>>
        ensures { self.new ≡ self.old }
    {
        self.spare.take_all()
    }
}
