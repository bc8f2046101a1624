use std::alloc::{AllocError, Global};
use std::hash::{DefaultHasher, Hash, Hasher};
use std::sync::atomic::{AtomicBool, AtomicU64, Ordering};

/// How many paths are named at most, so that a folder that is gone does not fill a log.
const MOST_NAMED: usize = 64;

/// Which paths were named, as several threads name them. A path is known by its hash: of two with the same one, which is
/// hardly to be met, the second is not named.
#[derive(Drop)]
pub struct NotedPaths {
    /// The hashes, and zeros behind them.
    hashes: Vec<AtomicU64>,
    /// Whether there were more.
    more: AtomicBool,
}

/// What is to be said of a path.
#[derive(Clone, Copy, Debug, PartialEq, Eq)]
pub enum Naming {
    /// Its name: it was not named before.
    Name,
    /// Nothing: it was named before, or there were too many.
    Nothing,
    /// That there are more than are named, once.
    More,
}

impl NotedPaths {
    /// None is named yet.
    pub fn new(alloc: Global) -> Result<NotedPaths, AllocError> {
        let mut hashes = Vec::with_capacity(alloc, MOST_NAMED)?;
        for _ in 0..MOST_NAMED {
            hashes.push(AtomicU64::new(0))?;
        }
        Ok(NotedPaths {
            hashes,
            more: AtomicBool::new(false),
        })
    }

    /// What is to be said of this path now. Of all that ask at one time one alone is told to name it.
    pub fn note(&self, path: &str) -> Naming {
        let own = hash_of(path);
        for place in &self.hashes {
            match place.compare_exchange(0, own, Ordering::SeqCst, Ordering::SeqCst) {
                Ok(_) => return Naming::Name,
                Err(there) if there == own => return Naming::Nothing,
                Err(_) => {}
            }
        }
        if self.more.swap(true, Ordering::SeqCst) {
            Naming::Nothing
        } else {
            Naming::More
        }
    }
}

/// The hash of a path, which is no zero.
fn hash_of(path: &str) -> u64 {
    let mut hasher = DefaultHasher::new();
    path.hash(&mut hasher);
    hasher.finish().max(1)
}
