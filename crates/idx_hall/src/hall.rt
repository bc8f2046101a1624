ghost use Rattle.std.specs.Prelude.{◌≡◌, ◌≢◌, ◌≤◌, ◌<◌, [], All, Err, None, Ok, Some, IfErr, IfOk, IfSome, IfNone, OnErr, OnOk, ℕ, length, map, min, slice_get};
ghost use Rattle.std.specs.Arc.{arc_value};
ghost use Rattle.idx_cache.specs.Cached.{cached};
ghost use Rattle.idx_hall.specs.Posts.{IsNewestOf, Lacks, Post, is_newest, newest, post_of};
ghost use Rattle.idx_hall.specs.Hall.{HallOk, HallValue, IsBlockOf, after_evict, after_fill, after_look, after_publish, hall, named, noted, stale_of};
ghost use Rattle.idx_hall.specs.Looked.{looked_up, not_looked};
ghost use Rattle.idx_hall.specs.Calls.{AreBlocksOf, IsAfter, IsRefused, IsStepOf, pairs_of};

use crate::block::Block;
use crate::board::{append, newest_of, share_all};
use crate::caching::{copied, drop_time, put_blocks, touch_all};
use crate::published::Published;
use crate::spare::Spare;
use crate::{BlockName, Key, Looked, PublishRefusal, Standing};
use idx_cache::Cache;
use idx_outside::{Blocks, Bytes, NoMemory};
use std::alloc::Global;
use std::marker::Model;
use std::sync::Arc;

/// The published steps of a dataset, numbered from 0, and the cache of their blocks. Seen as the shape of the steps,
/// the list of the steps, and the list of the cached blocks, the most recently used first. All memory that the cache
/// will ever need is taken at the start, and blocks are shared, not copied. Blocks that fell out of the cache are kept
/// aside, as many as have 2^26 bytes together and 4,096 at most, since a look brings some of them along
/// (`Looked::take_spare`), so that their memory is used again. Those that somebody still reads stay until nobody does.
#[derive(Drop)]
pub struct Hall<E: Blocks> {
    blocks: u64,
    lengths: Vec<u64>,
    board: Vec<Published<E>>,
    cache: Cache<BlockName, Block>,
    spare: Spare,
}

impl<E: Blocks> Model for Hall<E> {
    ghost use Rattle.std.specs.Prelude.{◌≡◌, ◌≤◌, All, map};
    ghost use Rattle.idx_hall.specs.Posts.{post_of};
    ghost use Rattle.idx_hall.specs.Hall.{HallOk, HallValue, hall};

    ghost Value = { HallValue };

    ghost view = { λ h. hall (record { blocks = h.blocks; lengths = h.lengths.items })
        (map (λ e. post_of (record { blocks = h.blocks; lengths = h.lengths.items })
        (E.time e) (E.has e) (E.stored e)) h.board.items)
        h.cache };

    ghost invariant = { λ h. HallOk (hall (record { blocks = h.blocks; lengths = h.lengths.items })
        (map (λ e. post_of (record { blocks = h.blocks; lengths = h.lengths.items })
        (E.time e) (E.has e) (E.stored e)) h.board.items)
        h.cache) × All (λ e. E.shape e ≡ record { blocks = h.blocks; lengths = h.lengths.items }) h.board.items
        × (h.cache.cap ≤ 65536) };
}

impl<E: Blocks> Standing for Hall<E> {
    ghost shape = { λ h. h.shape };

    ghost capacity = { λ h. h.cache.cap };

    ghost posts = { λ h. h.board };
}

impl<E: Blocks + Drop> Hall<E> {
    /// A hall without a step and without a block, for steps of so many blocks, a block of each field having so many
    /// bytes, and for at most `capacity` cached blocks (1 to 65,536). Answers `NoMemory` where there is no room for
    /// them.
    pub fn new(
        alloc: Global,
        capacity: u32,
        blocks: u64,
        lengths: Vec<u64>,
    ) -> Result<Hall<E>, NoMemory>
        requires some { 1 ≤ capacity }
        requires few { capacity ≤ 65536 }
        ensures { IfOk result (λ h. h ≡
            hall (record { blocks = blocks; lengths = lengths.items }) [] (cached [] capacity)) }
    {
        let cache = Cache::new(alloc, capacity)?;
        let spare = Spare::of_hall(alloc, &lengths)?;
        Ok(Hall {
            blocks,
            lengths,
            board: Vec::new(alloc),
            cache,
            spare,
        })
    }

    /// Adds a step behind the others, as the newest of its time, drops the cached blocks of that time, and answers its
    /// number. `after` is the number of the step of the time that it follows, or nothing where it is to be the first.
    /// `AlreadyPublished` exactly where the newest step of the time is there and is another one; it has the number of
    /// that one. After a refusal the hall is as it was, and the step comes back.
    pub fn publish(
        &mut self,
        edition: Arc<E>,
        after: Option<u64>,
    ) -> Result<u64, (Arc<E>, PublishRefusal)>
        requires shape { E.shape (arc_value edition) ≡ self.old.shape }
        requires after { IsAfter self.old.board (E.time (arc_value edition)) after }
        ensures number { IfOk result (λ number. number ≡ length self.old.board) }
        ensures published { OnOk result (self.new ≡ after_publish
            (post_of self.old.shape (E.time (arc_value edition)) (E.has (arc_value edition))
            (E.stored (arc_value edition)))
            self.old) }
        ensures follows { OnOk result (newest self.old.board (E.time (arc_value edition)) ≡ after) }
        ensures taken { (number : ℕ) → newest self.old.board (E.time (arc_value edition)) ≡ Some number →
            after ≢ Some number → result ≡ Err (edition, PublishRefusal.AlreadyPublished number) }
        ensures cause { IfErr result (λ refusal. (refusal.0 ≡ edition) ×
            IsRefused self.old.board (E.time (arc_value edition)) after refusal.1) }
        ensures kept { OnErr result (self.new ≡ self.old) }
    {
        let time = edition.time();
        if let Some(post) = self.newer_than(time, after) {
            return Err((edition, PublishRefusal::AlreadyPublished { post }));
        }
        let Ok(names) = self.cache.keys(*self.board.allocator()) else {
            return Err((edition, PublishRefusal::NoMemory));
        };
        match append(&mut self.board, edition) {
            Ok(number) => {
                drop_time(&mut self.cache, &names, time);
                Ok(number)
            }
            Err(edition) => Err((edition, PublishRefusal::NoMemory)),
        }
    }

    /// The number of the newest post of a time. `None` exactly where no step of the time was published. Takes no
    /// memory.
    pub fn newest(&self, time: u64) -> Option<u64>
        ensures { result ≡ newest self.now.board time }
    {
        match newest_of(&self.board, time) {
            Some(number) => Some(number as u64),
            None => None,
        }
    }

    /// Looks for the blocks of some keys of one time, in the newest post of that time. `None` exactly where no step of
    /// the time was published; then nothing changes. Else that post's number; `looked` gets the step and, for each key
    /// in order, the cached block or nothing, and the blocks that were found are now the most recently used ones, the
    /// last of them the most. After `NoMemory` nothing has changed.
    pub fn look(
        &mut self,
        time: u64,
        keys: &[Key],
        looked: &mut Looked<E>,
    ) -> Result<Option<u64>, NoMemory>
        requires keys { All (λ key. key.time ≡ time) keys.now }
        requires empty { looked.old ≡ not_looked looked.old.room }
        requires room { length keys.now ≤ looked.old.room }
        ensures post { IfOk result (λ found. IfSome found (λ number. (post : Post) ×
            IsNewestOf self.old.board time number post × AreBlocksOf self.old.shape post keys.now looked.new.found)) }
        ensures step { IfOk result (λ found. IfSome found (λ number.
            IfSome looked.new.edition (IsStepOf E.time E.shape E.has E.stored self.old number))) }
        ensures noted { IfOk result (λ found. IfSome found (λ number. (e : E) ×
            (looked.new ≡ looked_up e (noted (named number keys.now) self.old.cache.pairs) looked.old.room))) }
        ensures order { IfOk result (λ found. IfSome found (λ number. self.new ≡ after_look number keys.now self.old)) }
        ensures lacks { IfOk result (λ found. IfNone found (Lacks time self.old.board)) }
        ensures none { Lacks time self.old.board →
            (result ≡ Ok None) × (self.new ≡ self.old) × (looked.new ≡ looked.old) }
        ensures refused { OnErr result ((self.new ≡ self.old) × (looked.new ≡ looked.old)) }
        ensures shape { self.new.shape ≡ self.old.shape }
        ensures capacity { self.new.cache.cap ≡ self.old.cache.cap }
        ensures board { self.new.board ≡ self.old.board }
    {
        let Some(number) = self.newest(time) else {
            return Ok(None);
        };
        self.look_at(number, keys, looked)?;
        Ok(Some(number))
    }

    /// Looks as `look` does, in the post of this number, be it the newest of its time or not.
    pub fn look_at(
        &mut self,
        post: u64,
        keys: &[Key],
        looked: &mut Looked<E>,
    ) -> Result<(), NoMemory>
        requires post { (p : Post) × (slice_get self.old.board post ≡ Some p) × All (λ key. key.time ≡ p.time) keys.now }
        requires empty { looked.old ≡ not_looked looked.old.room }
        requires room { length keys.now ≤ looked.old.room }
        ensures blocks { OnOk result ((p : Post) → slice_get self.old.board post ≡ Some p →
            AreBlocksOf self.old.shape p keys.now looked.new.found) }
        ensures step { OnOk result (IfSome looked.new.edition
            (IsStepOf E.time E.shape E.has E.stored self.old post)) }
        ensures noted { OnOk result ((e : E) ×
            (looked.new ≡ looked_up e (noted (named post keys.now) self.old.cache.pairs) looked.old.room)) }
        ensures order { OnOk result (self.new ≡ after_look post keys.now self.old) }
        ensures refused { OnErr result ((self.new ≡ self.old) × (looked.new ≡ looked.old)) }
        ensures shape { self.new.shape ≡ self.old.shape }
        ensures capacity { self.new.cache.cap ≡ self.old.cache.cap }
        ensures board { self.new.board ≡ self.old.board }
    {
        looked.note(
            &self.board[post as usize],
            &self.cache,
            &mut self.spare,
            post,
            keys,
        )?;
        touch_all(&mut self.cache, post, keys);
        Ok(())
    }

    /// Puts loaded blocks of a post into the cache, in order, where that post is the newest of its time; else all of
    /// them are stale and are dropped. Answers how many were stale. The least recently used ones go where the capacity
    /// is passed, and are kept aside for their memory, while there is room. It is never refused, and takes no memory.
    pub fn fill(&mut self, post: u64, loaded: Vec<(Key, Arc<Bytes>)>) -> u64
        requires blocks { (p : Post) × ((slice_get self.old.board post ≡ Some p) ×
            All (IsBlockOf self.old.shape p) (pairs_of loaded.items)) }
        ensures filled { self.new ≡ after_fill post (pairs_of loaded.items) self.old }
        ensures stale { result ≡ stale_of post (length loaded.items) self.old }
    {
        if self.is_newest(post) {
            put_blocks(&mut self.cache, &mut self.spare, post, loaded);
            0
        } else {
            loaded.len() as u64
        }
    }

    /// The step that is the post of this number. Takes no memory.
    pub fn edition(&self, post: u64) -> &Arc<E>
        requires { post < length self.now.board }
        ensures { IsStepOf E.time E.shape E.has E.stored self.now post (arc_value result.now) }
    {
        self.board[post as usize].edition()
    }

    /// A hall with the same shape, posts and cached blocks, in their order. Steps and blocks are shared, not copied; no
    /// block is kept aside.
    /// Answers `NoMemory` where there is no room for it.
    pub fn copy(&self, alloc: Global) -> Result<Hall<E>, NoMemory>
        ensures { IfOk result (λ h. h ≡ self.now) }
    {
        let lengths = Vec::from_slice(alloc, &self.lengths)?;
        let board = share_all(alloc, &self.board)?;
        let cache = copied(alloc, &self.cache)?;
        let spare = Spare::of_hall(alloc, &self.lengths)?;
        Ok(Hall {
            blocks: self.blocks,
            lengths,
            board,
            cache,
            spare,
        })
    }

    /// Drops the n least recently used blocks, or all, and tells how many went. The blocks that were kept aside for
    /// their memory are dropped too.
    pub fn evict(&mut self, n: u64) -> u64
        ensures gone { result ≡ min n (length self.old.cache.pairs) }
        ensures kept { self.new ≡ after_evict n self.old }
    {
        self.spare.clear();
        self.cache.evict(n)
    }

    /// How many steps were published.
    pub fn board_len(&self) -> u64
        ensures { result ≡ length self.now.board }
    {
        self.board.len() as u64
    }

    /// How many blocks are cached.
    pub fn cache_len(&self) -> u64
        ensures len { result ≡ length self.now.cache.pairs }
        ensures valid { HallOk self.now }
    {
        self.cache.len()
    }

    /// How many blocks may be cached.
    pub fn capacity(&self) -> u64
        ensures capacity { result ≡ self.now.cache.cap }
        ensures some { 0 < result }
        ensures few { result ≤ 65536 }
    {
        self.cache.capacity()
    }

    /// The number of the newest post of a time, where that is not the one that a step of the time is to follow.
    fn newer_than(&self, time: u64, after: Option<u64>) -> Option<u64>
        requires { IsAfter self.now.board time after }
        ensures some { IfSome result (λ number. (newest self.now.board time ≡ Some number) × (after ≢ Some number)) }
        ensures none { IfNone result (newest self.now.board time ≡ after) }
    {
        let newest = self.newest(time);
        if newest == after { None } else { newest }
    }

    /// Whether the post of this number is the newest of its time.
    fn is_newest(&self, post: u64) -> bool
        requires { post < length self.now.board }
        ensures { result ≡ is_newest self.now.board post }
    {
        self.newest(self.board[post as usize].time()) == Some(post)
    }
}
