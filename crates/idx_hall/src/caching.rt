//! What a hall does to its cache, name by name.
ghost use Rattle.std.specs.Prelude.{◌≡◌, ◌≤◌, ◌<◌, ◌++◌, IfOk, OnOk, map, vec_capacity};
ghost use Rattle.std.specs.Map.{keys_of};
ghost use Rattle.idx_cache.specs.Cached.{cached, found, put_all, raise_all};
ghost use Rattle.idx_hall.specs.Hall.{name_eq, name_of, named, named_pairs, of_other_times};
ghost use Rattle.idx_hall.specs.Calls.{pairs_of};

use crate::block::Block;
use crate::spare::Spare;
use crate::{BlockName, Key};
use idx_cache::Cache;
use idx_outside::{Bytes, NoMemory};
use std::alloc::Global;
use std::sync::Arc;

/// Appends, for each key in order, the block that is cached of it in a post, if there is one.
pub(crate) fn note_all(
    cache: &Cache<BlockName, Block>,
    post: u64,
    keys: &[Key],
    into: &mut Vec<Option<Block>>,
) -> Result<(), NoMemory>
    ensures found { OnOk result (into.new.items ≡
        into.old.items ++ map (λ key. found name_eq (name_of post key) cache.now.pairs) keys.now) }
    ensures room { vec_capacity into.old ≤ vec_capacity into.new }
{
    for key in keys {
        let block = share_found(cache, BlockName { post, key: *key })?;
        into.push(block)?;
    }
    Ok(())
}

/// The block that is cached of a name, if there is one.
fn share_found(cache: &Cache<BlockName, Block>, name: BlockName) -> Result<Option<Block>, NoMemory>
    ensures { IfOk result (λ block. block ≡ found name_eq name cache.now.pairs) }
{
    match cache.peek(name) {
        Some(block) => Ok(Some(block.share()?)),
        None => Ok(None),
    }
}

/// Moves the block of each key that is cached of a post to the front, in order.
pub(crate) fn touch_all(cache: &mut Cache<BlockName, Block>, post: u64, keys: &[Key])
    ensures { cache.new ≡ cached (raise_all name_eq (named post keys.now) cache.old.pairs) cache.old.cap }
{
    for key in keys {
        cache.touch(BlockName { post, key: *key });
    }
}

/// Puts blocks of a post, in order. What falls out becomes spare, while there is room.
pub(crate) fn put_blocks(
    cache: &mut Cache<BlockName, Block>,
    spare: &mut Spare,
    post: u64,
    loaded: Vec<(Key, Arc<Bytes>)>,
)
    ensures { cache.new ≡
        cached (put_all name_eq cache.old.cap (named_pairs post (pairs_of loaded.items)) cache.old.pairs) cache.old.cap }
{
    for (key, bytes) in loaded {
        spare.keep(cache.put(BlockName { post, key }, Block::new(bytes)));
    }
}

/// Drops the blocks of a time, and keeps the order of the others. The names are those of all cached blocks: from the
/// last to the first, the blocks of other times go to the front, so that those of the time are the last ones.
pub(crate) fn drop_time(cache: &mut Cache<BlockName, Block>, names: &[BlockName], time: u64)
    requires names { names.now ≡ keys_of cache.old.pairs }
    ensures { cache.new ≡ cached (of_other_times time cache.old.pairs) cache.old.cap }
{
    let _valid = cache.len();
    let mut gone = 0;
    for place in (0..names.len()).rev() {
        let name = names[place];
        if name.key.time == time {
            gone += 1;
        } else {
            cache.touch(name);
        }
    }
    cache.evict(gone);
}

/// A cache of as many blocks with the same pairs: from the last to the first, each is put in front.
pub(crate) fn copied(
    alloc: Global,
    cache: &Cache<BlockName, Block>,
) -> Result<Cache<BlockName, Block>, NoMemory>
    requires some { 0 < cache.now.cap }
    requires few { cache.now.cap ≤ 65536 }
    ensures { IfOk result (λ copy. copy ≡ cache.now) }
{
    let _valid = cache.len();
    let names = cache.keys(alloc)?;
    let mut copy = Cache::new(alloc, cache.capacity() as u32)?;
    for place in (0..names.len()).rev() {
        if let Some(block) = cache.peek(names[place]) {
            drop(copy.put(names[place], block.share()?));
        }
    }
    Ok(copy)
}
