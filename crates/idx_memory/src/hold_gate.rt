use idx_outside::{Gate, GatePlace};
use std::sync::atomic::{AtomicBool, Ordering};
use std::thread;

/// How often a worker that is held looks away before it looks again.
const PAUSES: u32 = 64;

/// A gate that holds one worker at one place until another worker has passed a place, for at most so many turns, and lets
/// every other one through at once. So a test can tell whether two workers are at work beside each other.
#[derive(Drop)]
pub struct HoldGate {
    held: u32,
    at: GatePlace,
    other: u32,
    passed: GatePlace,
    turns: u64,
    came: AtomicBool,
    has_passed: AtomicBool,
    met: AtomicBool,
}

impl HoldGate {
    /// The gate that holds worker `held` at the place `at` until worker `other` has passed the place `passed`, for at most
    /// so many turns.
    pub fn new(held: u32, at: GatePlace, other: u32, passed: GatePlace, turns: u64) -> HoldGate {
        HoldGate {
            held,
            at,
            other,
            passed,
            turns,
            came: AtomicBool::new(false),
            has_passed: AtomicBool::new(false),
            met: AtomicBool::new(false),
        }
    }

    /// Whether the worker was let through because its turns were over.
    pub fn met_limit(&self) -> bool {
        self.met.load(Ordering::SeqCst)
    }

    /// Whether both workers came: the one to the place where it is held, and the other one past its own.
    pub fn saw_both(&self) -> bool {
        self.came.load(Ordering::SeqCst) && self.has_passed.load(Ordering::SeqCst)
    }

    /// Whether the other worker passed its place within the turns.
    fn waits_for_other(&self) -> bool {
        for _ in 0..self.turns {
            if self.has_passed.load(Ordering::SeqCst) {
                return true;
            }
            look_away();
        }
        false
    }
}

impl Gate for HoldGate {
    fn pass(&self, place: GatePlace, worker: u32) {
        if worker == self.other && place == self.passed {
            self.has_passed.store(true, Ordering::SeqCst);
        }
        if worker == self.held && place == self.at {
            self.came.store(true, Ordering::SeqCst);
            if !self.waits_for_other() {
                self.met.store(true, Ordering::SeqCst);
            }
        }
    }
}

/// Gives other threads time.
fn look_away() {
    for _ in 0..PAUSES {
        thread::yield_now();
    }
}
