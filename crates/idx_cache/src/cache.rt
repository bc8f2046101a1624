//! The cache: at most as many pairs as its capacity, the most recently used first.
ghost use Rattle.std.specs.Prelude.{◌≡◌, ℕ, ◌<◌, ◌≤◌, [], length, min, is_some, option_copied, IfOk};
ghost use Rattle.std.specs.Map.{keys_of};
ghost use Rattle.idx_cache.specs.Cached.{cached, fallen_out, found, raised, put_pair, kept_after_evict, IsBounded};

use crate::slots::Slots;
use idx_outside::NoMemory;
use std::alloc::Global;
use std::marker::Model;

/// A bounded cache, seen as its list of pairs, the most recently used first, and its capacity in pairs. All memory that
/// there will ever be is taken at the start. A look and a put search an index in key order.
#[derive(Drop)]
pub struct Cache<K: Ord, V> {
    slots: Slots<K, V>,
}

impl<K: Ord, V> Model for Cache<K, V> {
    ghost use Rattle.std.specs.Prelude.{◌<◌, length};
    ghost use Rattle.idx_cache.specs.Slotted.{filled, IsPacked};
    ghost use Rattle.idx_cache.specs.Cached.{Cached, cached};

    ghost Value = { Cached K V };

    ghost view = { λ c. cached (filled c.slots) (length c.slots) };

    ghost invariant = { λ c. IsPacked c.slots × (0 < length c.slots) };
}

impl<K: Ord + Copy + Drop, V: Drop> Cache<K, V> {
    /// A cache without a pair, for at most `capacity` pairs (1 to 65,536), with all memory that it will ever need.
    /// Answers `NoMemory` where that cannot be had.
    pub fn new(alloc: Global, capacity: u32) -> Result<Cache<K, V>, NoMemory>
        requires some { 1 ≤ capacity }
        requires few { capacity ≤ 65536 }
        ensures { IfOk result (λ c. c ≡ cached [] capacity) }
    {
        let slots = Slots::new(alloc, capacity)?;
        Ok(Cache { slots })
    }

    /// The number of pairs. No two have the same key, and there are at most as many as the capacity.
    pub fn len(&self) -> u64
        ensures pairs { result ≡ length self.now.pairs }
        ensures valid { IsBounded K.eq self.now }
    {
        self.slots.len() as u64
    }

    /// How many pairs there may be.
    pub fn capacity(&self) -> u64
        ensures { result ≡ self.now.cap }
    {
        self.slots.capacity() as u64
    }

    /// The keys, the most recently used first.
    pub fn keys(&self, alloc: Global) -> Result<Vec<K>, NoMemory>
        ensures { IfOk result (λ keys. keys.items ≡ keys_of self.now.pairs) }
    {
        self.slots.keys(alloc)
    }

    /// The key's value, with the order as it is.
    pub fn peek(&self, key: K) -> Option<&V>
        ensures { option_copied result ≡ found K.eq key self.now.pairs }
    {
        match self.slots.find(key) {
            Some(slot) => self.slots.peek(slot),
            None => None,
        }
    }

    /// Moves the key's pair to the front, or changes nothing. Tells whether it was there.
    pub fn touch(&mut self, key: K) -> bool
        ensures present { result ≡ is_some (found K.eq key self.old.pairs) }
        ensures order { self.new ≡ cached (raised K.eq key self.old.pairs) self.old.cap }
    {
        match self.slots.find(key) {
            Some(slot) => {
                self.slots.raise(slot);
                true
            }
            None => false,
        }
    }

    /// Removes the key's pair if there is one, puts the new one in front, and keeps the first pairs up to the capacity.
    /// It is never refused, since all memory is there from the start. Answers the value that fell out, if one did: that
    /// of the key, else that of the last pair, where there was no room for it any more.
    pub fn put(&mut self, key: K, value: V) -> Option<V>
        ensures pairs { self.new ≡ cached (put_pair K.eq self.old.cap (key, value) self.old.pairs) self.old.cap }
        ensures fallen { result ≡ fallen_out K.eq self.old.cap (key, value) self.old.pairs }
    {
        match self.slots.find(key) {
            Some(slot) => self.slots.renew(slot, key, value),
            None => {
                let slot = self.slots.last();
                self.slots.write(slot, Some((key, value)))
            }
        }
    }

    /// Drops the last n pairs, or all, and tells how many went.
    pub fn evict(&mut self, n: u64) -> u64
        ensures gone { result ≡ min n (length self.old.pairs) }
        ensures kept { self.new ≡ cached (kept_after_evict n self.old.pairs) self.old.cap }
    {
        let len = self.slots.len();
        let gone = (len as u64).min(n);
        if gone > 0 {
            self.slots.keep(len - gone as usize);
        }
        gone
    }
}
