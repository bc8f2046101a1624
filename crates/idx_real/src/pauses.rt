//! Errors of `accept` that pass by themselves, and how long a door waits for that.
ghost use Rattle.std.specs.Prelude.{◌≡◌, ◌↔◌, ◌+◌, IsNone, IfSome};
ghost use Rattle.std.specs.Duration.{as_nanos};

use std::io;
use std::time::Duration;

/// The errors of Linux that pass by themselves: those that accept(2) says to take like "try again", since they are of a
/// connection that was about to come, and those where there are too many open files, no buffers or no memory.
const PASSING: [i32; 12] = [
    ENETDOWN,
    EPROTO,
    ENOPROTOOPT,
    EHOSTDOWN,
    ENONET,
    EHOSTUNREACH,
    EOPNOTSUPP,
    ENETUNREACH,
    EMFILE,
    ENFILE,
    ENOBUFS,
    ENOMEM,
];

const ENOMEM: i32 = 12;

const ENFILE: i32 = 23;

const EMFILE: i32 = 24;

const ENONET: i32 = 64;

const EPROTO: i32 = 71;

const ENOPROTOOPT: i32 = 92;

const EOPNOTSUPP: i32 = 95;

const ENETDOWN: i32 = 100;

const ENETUNREACH: i32 = 101;

const ENOBUFS: i32 = 105;

const EHOSTDOWN: i32 = 112;

const EHOSTUNREACH: i32 = 113;

/// Whether an error of `accept` passes by itself.
pub(crate) fn passes(error: &io::Error) -> bool {
    match error.raw_os_error() {
        Some(code) => PASSING.contains(&code),
        None => false,
    }
}

/// The first pause, in milliseconds.
const FIRST: u64 = 10;

/// The longest pause, in milliseconds.
const LONGEST: u64 = 1_000;

/// Pauses, each twice as long as the one before, up to a second, until all together they are as long as they may be.
#[derive(Drop)]
pub(crate) struct Pauses {
    next: Duration,
    left: Duration,
}

impl Pauses {
    /// No longer than this all together.
    pub(crate) fn within(all: Duration) -> Pauses
        ensures { result.left ≡ all }
    {
        Pauses {
            next: Duration::from_millis(FIRST),
            left: all,
        }
    }

    /// The next pause; `None` exactly where none is left.
    pub(crate) fn next(&mut self) -> Option<Duration>
        ensures none { IsNone result ↔ (as_nanos self.old.left ≡ 0) }
        ensures spent { IfSome result (λ pause. as_nanos pause + as_nanos self.new.left ≡ as_nanos self.old.left) }
    {
        if self.left.is_zero() {
            return None;
        }
        match self.left.checked_sub(self.next) {
            Some(left) => {
                let pause = self.next;
                self.left = left;
                self.next = longer(pause);
                Some(pause)
            }
            None => {
                let pause = self.left;
                self.left = Duration::from_millis(0);
                Some(pause)
            }
        }
    }
}

/// Twice as long, up to the longest.
fn longer(pause: Duration) -> Duration {
    pause.saturating_mul(2).min(Duration::from_millis(LONGEST))
}
