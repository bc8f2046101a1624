//! The slots: `lru` keeps their order, with every slot present, and an index finds the slot of a key.
ghost use Rattle.std.specs.Prelude.{◌≡◌, ◌+◌, ◌<◌, [], ◌∷◌, length, nat_eq, option_copied};
ghost use Rattle.std.specs.Prelude.{option_map, IsSome, Some, None, IfOk, IfSome};
ghost use Rattle.std.specs.List.{IsDistinct};
ghost use Rattle.std.specs.Option.{option_flatten};
ghost use Rattle.std.specs.Map.{lookup, remove_entry, keys_of};
ghost use Rattle.std.specs.NonZero.{non_zero_usize_get};
ghost use Rattle.lru.specs.LruCache.{last_entry, promoted};
ghost use Rattle.idx_cache.specs.Slotted.{homes, filled, placed, emptied, Holds, IsPacked, IsWithin};

use crate::index::{Index, content_of};
use idx_outside::NoMemory;
use lru::LruCache;
use std::alloc::Global;
use std::marker::Model;
use std::mem::replace;
use std::num::NonZeroUsize;

/// As many slots as there may be pairs, each empty or with a pair, in the order of their last use.
#[derive(Drop)]
pub struct Slots<K: Ord, V> {
    order: LruCache<u32, ()>,
    contents: Vec<Option<(K, V)>>,
    index: Index<K>,
}

impl<K: Ord, V> Model for Slots<K, V> {
    ghost use Rattle.std.specs.Prelude.{length};
    ghost use Rattle.idx_cache.specs.Slotted.{Slotted, placed, IsTied, IsWithin};

    ghost Value = { Slotted K V };

    ghost view = { λ s. placed s.contents.items s.order.entries };

    ghost invariant = { λ s. IsTied K.eq (placed s.contents.items s.order.entries) s.index
        × IsWithin (length s.contents.items) s.order.entries };
}

impl<K: Ord + Copy + Drop, V: Drop> Slots<K, V> {
    /// Takes all the memory: every slot is present from here on, and empty.
    pub fn new(alloc: Global, capacity: u32) -> Result<Slots<K, V>, NoMemory>
        requires { 0 < capacity }
        ensures len { IfOk result (λ s. length s ≡ capacity) }
        ensures vacant { IfOk result (λ s. filled s ≡ []) }
    {
        let index = Index::with_room(alloc, capacity as usize)?;
        let mut order = LruCache::new(alloc, slot_count(capacity))?;
        let mut contents = Vec::with_capacity(alloc, capacity as usize)?;
        for slot in 0..capacity {
            order.put(slot, ())?;
            contents.push(None)?;
        }
        Ok(Slots {
            order,
            contents,
            index,
        })
    }

    /// The number of filled slots.
    pub fn len(&self) -> usize
        ensures len { result ≡ length (filled self.now) }
        ensures keys_apart { IsDistinct K.eq (keys_of (homes self.now)) }
    {
        self.index.len()
    }

    /// The number of slots.
    pub fn capacity(&self) -> usize
        ensures { result ≡ length self.now }
    {
        self.order.len()
    }

    /// The keys of the filled slots, in the order of their last use.
    pub fn keys(&self, alloc: Global) -> Result<Vec<K>, NoMemory>
        ensures { IfOk result (λ keys. keys.items ≡ keys_of (filled self.now)) }
    {
        let mut keys = Vec::with_capacity(alloc, self.index.len())?;
        for (slot, _) in self.order.iter() {
            if let Some(pair) = content_of(&self.contents, *slot) {
                keys.push(pair.0)?;
            }
        }
        Ok(keys)
    }

    /// The value in the slot.
    pub fn peek(&self, slot: u32) -> Option<&V>
        requires { IsSome (lookup (nat_eq slot) self.now) }
        ensures { option_copied result ≡ option_map (λ p. p.1) (option_flatten (lookup (nat_eq slot) self.now)) }
    {
        match self.content(slot) {
            Some(pair) => Some(&pair.1),
            None => None,
        }
    }

    /// Makes the slot the most recently used.
    pub fn raise(&mut self, slot: u32)
        requires { IsSome (lookup (nat_eq slot) self.old) }
        ensures { self.new ≡ promoted (nat_eq slot) self.old }
    {
        self.order.promote(&slot);
    }

    /// Empties all slots but the first `kept`, each in its place, no further than the last filled one, and goes once
    /// through the index.
    pub fn keep(&mut self, kept: usize)
        requires { IsPacked self.old }
        ensures { self.new ≡ emptied kept self.old }
    {
        empty_behind(&self.order, &mut self.contents, kept);
        self.index.keep_filled(&self.contents);
    }

    /// The slot of the key.
    pub fn find(&self, key: K) -> Option<u32>
        ensures slot { result ≡ lookup (K.eq key) (homes self.now) }
        ensures slots_apart { IsDistinct nat_eq (keys_of self.now) }
        ensures keys_apart { IsDistinct K.eq (keys_of (homes self.now)) }
    {
        let _valid = self.order.len();
        self.index.get(key)
    }

    /// The key that the slot holds.
    pub fn key_in(&self, slot: u32) -> Option<K>
        requires { IsSome (lookup (nat_eq slot) self.now) }
        ensures { result ≡ option_map (λ p. p.0) (option_flatten (lookup (nat_eq slot) self.now)) }
    {
        match self.content(slot) {
            Some(pair) => Some(pair.0),
            None => None,
        }
    }

    // The pair in the slot.
    fn content(&self, slot: u32) -> Option<&(K, V)>
        requires { IsSome (lookup (nat_eq slot) self.now) }
        ensures { option_copied result ≡ option_flatten (lookup (nat_eq slot) self.now) }
    {
        content_of(&self.contents, slot)
    }

    /// The least recently used slot.
    pub fn last(&self) -> u32
        requires { 0 < length self.now }
        ensures last { option_map (λ e. e.0) (last_entry self.now) ≡ Some result }
        ensures slots_apart { IsDistinct nat_eq (keys_of self.now) }
        ensures keys_apart { IsDistinct K.eq (keys_of (homes self.now)) }
    {
        let _valid = self.order.len();
        match self.order.peek_lru() {
            Some((slot, _)) => *slot,
            None => {
                prove!(false);
                0
            }
        }
    }

    /// Replaces the value of the slot's key, and makes the slot the most recently used. The index stays. Answers the
    /// value that was there.
    pub fn renew(&mut self, slot: u32, key: K, value: V) -> Option<V>
        requires { Holds K.eq self.old slot key }
        ensures slots { self.new ≡ (slot, Some (key, value)) ∷ remove_entry (nat_eq slot) self.old }
        ensures value { result ≡ option_map (λ p. p.1) (option_flatten (lookup (nat_eq slot) self.old)) }
    {
        value_of(place(
            &mut self.order,
            &mut self.contents,
            slot,
            Some((key, value)),
        ))
    }

    /// Replaces what the slot holds, and makes it the most recently used. Answers the value that was there.
    pub fn write(&mut self, slot: u32, content: Option<(K, V)>) -> Option<V>
        requires present { IsSome (lookup (nat_eq slot) self.old) }
        requires fresh { IfSome content (λ p.
            lookup (K.eq p.0) (homes (remove_entry (nat_eq slot) self.old)) ≡ None) }
        ensures slots { self.new ≡ (slot, content) ∷ remove_entry (nat_eq slot) self.old }
        ensures value { result ≡ option_map (λ p. p.1) (option_flatten (lookup (nat_eq slot) self.old)) }
    {
        let old = self.key_in(slot);
        let new = key_of(&content);
        self.index.release(old);
        self.index.claim(new, slot);
        value_of(place(&mut self.order, &mut self.contents, slot, content))
    }
}

// The key of a slot's content.
fn key_of<K: Copy, V>(content: &Option<(K, V)>) -> Option<K>
    ensures { result ≡ option_map (λ p. p.0) content.now }
{
    match content {
        Some(pair) => Some(pair.0),
        None => None,
    }
}

// The value of a slot's content.
fn value_of<K: Drop, V>(content: Option<(K, V)>) -> Option<V>
    ensures { result ≡ option_map (λ p. p.1) content }
{
    match content {
        Some((_, value)) => Some(value),
        None => None,
    }
}

// Replaces what the slot holds, and makes it the most recently used. Answers what it held.
fn place<T: Drop>(
    order: &mut LruCache<u32, ()>,
    contents: &mut Vec<Option<T>>,
    slot: u32,
    content: Option<T>,
) -> Option<T>
    requires present { IsSome (lookup (nat_eq slot) order.old.entries) }
    requires within { IsWithin (length contents.old.items) order.old.entries }
    ensures front { placed contents.new.items order.new.entries ≡
        (slot, content) ∷ remove_entry (nat_eq slot) (placed contents.old.items order.old.entries) }
    ensures within { IsWithin (length contents.new.items) order.new.entries }
    ensures was { result ≡ option_flatten (lookup (nat_eq slot) (placed contents.old.items order.old.entries)) }
{
    let _valid = order.len();
    order.promote(&slot);
    replace(&mut contents[slot as usize], content)
}

// Empties the slots behind the first `kept` of the order, up to the first that is empty.
fn empty_behind<K: Drop, V: Drop>(
    order: &LruCache<u32, ()>,
    contents: &mut Vec<Option<(K, V)>>,
    kept: usize,
)
    requires within { IsWithin (length contents.old.items) order.now.entries }
    requires packed { IsPacked (placed contents.old.items order.now.entries) }
    ensures rest { placed contents.new.items order.now.entries ≡
        emptied kept (placed contents.old.items order.now.entries) }
    ensures len { length contents.new.items ≡ length contents.old.items }
{
    let _valid = order.len();
    let mut left = kept;
    for (slot, _) in order.iter() {
        if left > 0 {
            left -= 1;
        } else {
            if content_of(contents, *slot).is_none() {
                break;
            }
            contents[*slot as usize] = None;
        }
    }
}

// The number of slots, as `lru` takes it.
fn slot_count(capacity: u32) -> NonZeroUsize
    requires { 0 < capacity }
    ensures { non_zero_usize_get result ≡ capacity }
{
    match NonZeroUsize::new(capacity as usize) {
        Some(count) => count,
        None => {
            prove!(false);
            NonZeroUsize::MIN
        }
    }
}
