use std::sync::atomic::{AtomicU64, Ordering};

/// How much of a step is written or read, of how much, as all that do it tell it.
#[derive(Drop)]
pub struct Tally {
    files: AtomicU64,
    bytes: AtomicU64,
    sealed: AtomicU64,
    written: AtomicU64,
    /// How many milliseconds after the beginning it was last shown.
    shown: AtomicU64,
}

/// What a tally says at some moment.
#[derive(Clone, Copy, Debug, PartialEq, Eq)]
pub struct Progress {
    /// How many files there will be; 0 where that is not known.
    pub files: u64,
    /// How many bytes there will be in them.
    pub bytes: u64,
    /// How many files are sealed, or were found.
    pub sealed: u64,
    /// How many bytes are written or read.
    pub written: u64,
}

impl Tally {
    /// Nothing is done, and it is not known how much will be.
    pub fn new() -> Tally {
        Tally {
            files: AtomicU64::new(0),
            bytes: AtomicU64::new(0),
            sealed: AtomicU64::new(0),
            written: AtomicU64::new(0),
            shown: AtomicU64::new(0),
        }
    }

    /// So many files there are in all, with so many bytes.
    pub fn expect(&self, files: u64, bytes: u64) {
        self.bytes.store(bytes, Ordering::SeqCst);
        self.files.store(files, Ordering::SeqCst);
    }

    /// So many bytes more are written or read.
    pub fn add_bytes(&self, count: u64) {
        self.written.fetch_add(count, Ordering::SeqCst);
    }

    /// A file more is sealed, or was found.
    pub fn add_file(&self) {
        self.sealed.fetch_add(1, Ordering::SeqCst);
    }

    /// What is known now.
    pub fn progress(&self) -> Progress {
        Progress {
            files: self.files.load(Ordering::SeqCst),
            bytes: self.bytes.load(Ordering::SeqCst),
            sealed: self.sealed.load(Ordering::SeqCst),
            written: self.written.load(Ordering::SeqCst),
        }
    }

    /// Whether it is to be shown so many milliseconds after the beginning: where it was not shown in the tenth of a second
    /// before. Of all that ask at one time one alone is told so.
    pub fn is_due(&self, millis: u64) -> bool {
        let last = self.shown.load(Ordering::SeqCst);
        last.saturating_add(EVERY) <= millis
            && self
                .shown
                .compare_exchange(last, millis, Ordering::SeqCst, Ordering::SeqCst)
                .is_ok()
    }
}

/// How many milliseconds pass at least between two lines.
const EVERY: u64 = 100;
