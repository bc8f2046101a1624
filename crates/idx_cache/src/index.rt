//! The index: a sorted vector of fixed room, from keys to slot numbers.
ghost use Rattle.std.specs.Prelude.{◌≡◌, ◌+◌, ◌<◌, [], cond, length, filter};
ghost use Rattle.std.specs.Prelude.{IsSome, Some, None, IfOk, IfErr, IfSome, is_some, option_copied};
ghost use Rattle.std.specs.List.{IsDistinct};
ghost use Rattle.std.specs.Option.{option_map_or, option_to_list};
ghost use Rattle.std.specs.Map.{lookup, keys_of};
ghost use Rattle.idx_cache.specs.Indexed.{Indexed, indexed, IsRising, IsAt, IsGapFor};
ghost use Rattle.idx_cache.specs.Slotted.{content_at};

use idx_outside::NoMemory;
use std::alloc::Global;
use std::marker::Model;

/// The slot of each key.
#[derive(Drop)]
pub struct Index<K: Ord> {
    sorted: Vec<(K, u32)>,
}

impl<K: Ord> Model for Index<K> {
    ghost use Rattle.std.specs.Vec.{vec_capacity};
    ghost use Rattle.idx_cache.specs.Indexed.{Indexed, indexed, IsRising};

    ghost Value = { Indexed K };

    ghost view = { λ x. indexed x.sorted.items (vec_capacity x.sorted) };

    ghost invariant = { λ x. IsRising K.cmp x.sorted.items };
}

impl<K: Ord + Copy + Drop> Index<K> {
    /// Takes the memory for `room` entries, all that there will ever be.
    pub fn with_room(alloc: Global, room: usize) -> Result<Index<K>, NoMemory>
        ensures { IfOk result (λ x. x ≡ indexed [] room) }
    {
        Ok(Index {
            sorted: Vec::with_capacity(alloc, room)?,
        })
    }

    /// The key's slot.
    pub fn get(&self, key: K) -> Option<u32>
        ensures { result ≡ lookup (K.eq key) self.now.entries }
    {
        match self.find(key) {
            Ok(at) => Some(self.sorted[at].1),
            Err(_) => None,
        }
    }

    /// Adds an absent key within the room.
    pub fn insert(&mut self, key: K, slot: u32)
        requires absent { lookup (K.eq key) self.old.entries ≡ None }
        requires has_room { length self.old.entries < self.old.room }
        ensures gets { (q : K) → lookup (K.eq q) self.new.entries ≡
            cond (K.eq key q) (Some slot) (lookup (K.eq q) self.old.entries) }
        ensures len { length self.new.entries ≡ length self.old.entries + 1 }
        ensures room { self.new.room ≡ self.old.room }
    {
        match self.find(key) {
            Ok(_) => prove!(false),
            Err(at) => {
                let added = self.sorted.insert(at, (key, slot)).is_ok();
                prove!(added);
            }
        }
    }

    /// Takes a present key out.
    pub fn remove(&mut self, key: K)
        requires present { IsSome (lookup (K.eq key) self.old.entries) }
        ensures gets { (q : K) → lookup (K.eq q) self.new.entries ≡
            cond (K.eq key q) None (lookup (K.eq q) self.old.entries) }
        ensures len { length self.new.entries + 1 ≡ length self.old.entries }
        ensures room { self.new.room ≡ self.old.room }
    {
        match self.find(key) {
            Ok(at) => {
                self.sorted.remove(at);
            }
            Err(_) => prove!(false),
        }
    }

    /// Keeps the entries of the slots that hold something, all in one pass.
    pub fn keep_filled<T>(&mut self, contents: &[Option<T>])
        ensures entries { self.new.entries ≡ filter (λ e. is_some (content_at contents.now e.1)) self.old.entries }
        ensures keys_apart { IsDistinct K.eq (keys_of self.old.entries) }
        ensures room { self.new.room ≡ self.old.room }
    {
        self.sorted
            .retain(|entry| content_of(contents, entry.1).is_some());
    }

    /// The number of keys.
    pub fn len(&self) -> usize
        ensures { result ≡ length self.now.entries }
    {
        self.sorted.len()
    }

    /// Takes the key out, if one is given.
    pub fn release(&mut self, key: Option<K>)
        requires present { IfSome key (λ k. IsSome (lookup (K.eq k) self.old.entries)) }
        ensures gets { (q : K) → lookup (K.eq q) self.new.entries ≡
            option_map_or (λ k. cond (K.eq k q) None (lookup (K.eq q) self.old.entries)) key
            (lookup (K.eq q) self.old.entries) }
        ensures len { length self.new.entries + length (option_to_list key) ≡ length self.old.entries }
        ensures room { self.new.room ≡ self.old.room }
    {
        if let Some(key) = key {
            self.remove(key);
        }
    }

    /// Adds the key, if one is given.
    pub fn claim(&mut self, key: Option<K>, slot: u32)
        requires absent { IfSome key (λ k. lookup (K.eq k) self.old.entries ≡ None) }
        requires has_room { length self.old.entries < self.old.room }
        ensures gets { (q : K) → lookup (K.eq q) self.new.entries ≡
            option_map_or (λ k. cond (K.eq k q) (Some slot) (lookup (K.eq q) self.old.entries)) key
            (lookup (K.eq q) self.old.entries) }
        ensures len { length self.new.entries ≡ length self.old.entries + length (option_to_list key) }
        ensures room { self.new.room ≡ self.old.room }
    {
        if let Some(key) = key {
            self.insert(key, slot);
        }
    }

    // Where the key is, or where it would go.
    fn find(&self, key: K) -> Result<usize, usize>
        ensures found { IfOk result (IsAt K.cmp self.now.entries key) }
        ensures absent { IfErr result (IsGapFor K.cmp self.now.entries key) }
        ensures rising { IsRising K.cmp self.now.entries }
    {
        self.sorted.binary_search_by_key(&key, |&(k, _)| k)
    }
}

/// What the slot holds.
pub fn content_of<T>(contents: &[Option<T>], slot: u32) -> Option<&T>
    ensures { option_copied result ≡ content_at contents.now slot }
{
    match contents.get(slot as usize) {
        Some(content) => content.as_ref(),
        None => None,
    }
}
