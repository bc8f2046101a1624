//! Signs by which two threads meet.
use std::sync::atomic::{AtomicBool, Ordering};
use std::thread;

/// How often it is looked whether a sign is given, and how often it is looked away in between.
const TURNS: u32 = 1_000_000;

const PAUSES: u32 = 64;

/// Whether a sign is given within a million turns.
fn is_soon(sign: &AtomicBool) -> bool {
    for _ in 0..TURNS {
        if sign.load(Ordering::SeqCst) {
            return true;
        }
        for _ in 0..PAUSES {
            thread::yield_now();
        }
    }
    false
}

/// The signs of two threads, and the one that says that somebody's turns were over.
#[derive(Drop)]
pub(crate) struct Signs {
    first: AtomicBool,
    second: AtomicBool,
    met_limit: AtomicBool,
}

impl Signs {
    /// Signs none of which is given.
    pub(crate) fn new() -> Signs {
        Signs {
            first: AtomicBool::new(false),
            second: AtomicBool::new(false),
            met_limit: AtomicBool::new(false),
        }
    }

    /// The meeting of what gives the first sign, and waits for the second one or not.
    pub(crate) fn of_first(&self, waits: bool) -> Meeting<'_> {
        Meeting {
            waits_for: if waits { Some(&self.second) } else { None },
            gives: Some(&self.first),
            met_limit: &self.met_limit,
        }
    }

    /// The meeting of what gives the second sign, and waits for the first one or not.
    pub(crate) fn of_second(&self, waits: bool) -> Meeting<'_> {
        Meeting {
            waits_for: if waits { Some(&self.first) } else { None },
            gives: Some(&self.second),
            met_limit: &self.met_limit,
        }
    }

    /// The meeting of what waits for nothing and gives nothing.
    pub(crate) fn of_none(&self) -> Meeting<'_> {
        Meeting {
            waits_for: None,
            gives: None,
            met_limit: &self.met_limit,
        }
    }

    /// Whether somebody's turns were over.
    pub(crate) fn met_limit(&self) -> bool {
        self.met_limit.load(Ordering::SeqCst)
    }
}

/// What is waited for once, for at most a million turns, and the sign that is given.
#[derive(Drop)]
pub(crate) struct Meeting<'a> {
    waits_for: Option<&'a AtomicBool>,
    gives: Option<&'a AtomicBool>,
    met_limit: &'a AtomicBool,
}

impl Meeting<'_> {
    /// Waits, the first time.
    pub(crate) fn wait(&mut self) {
        if let Some(sign) = self.waits_for
            && !is_soon(sign)
        {
            self.met_limit.store(true, Ordering::SeqCst);
        }
        self.waits_for = None;
    }

    /// Gives the sign.
    pub(crate) fn give(&self) {
        if let Some(sign) = self.gives {
            sign.store(true, Ordering::SeqCst);
        }
    }
}
