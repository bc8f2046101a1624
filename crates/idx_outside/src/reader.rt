ghost use Rattle.std.specs.Prelude.{◌≡◌, ℕ, ◌+◌, ◌≤◌, ◌%◌, ◌^◌, length, take, drop, IfSome, OnOk, OnErr};
ghost use Rattle.std.specs.Option.{ForSome};
ghost use Rattle.idx_outside.specs.Cause.{MeetsOnce, NeverFalls, Rose};

use crate::{Leaf, Outage};

/// Reads leaves by their places.
///
/// A call that answers `Outage` has counted a fault of this reader, and no other call has.
pub trait Reader<L: Leaf> {
    /// How many faults were counted. The count stands still at `u64::MAX`.
    ghost faults: { Self → ℕ };

    /// How many calls of `read_at` were made, modulo 2^64.
    ghost reads: { Self → ℕ };

    /// How many bytes were asked for, also by calls that failed, modulo 2^64.
    ghost asked: { Self → ℕ };

    /// Fills `into` with the leaf's bytes from place `at` on, counted from 0. After `Outage` nothing is known of the
    /// bytes of `into`.
    fn read_at(&mut self, leaf: &L, at: u64, into: &mut [u8]) -> Result<(), Outage>
        requires { ForSome (L.contents leaf.now) (λ bytes. at + length into.old ≤ length bytes) }
        ensures read { OnOk result (IfSome (L.contents leaf.now)
            (λ bytes. into.new ≡ take (length into.old) (drop at bytes))) }
        ensures reads { reads self.new ≡ (reads self.old + 1) % 2 ^ 64 }
        ensures asked { asked self.new ≡ (asked self.old + length into.old) % 2 ^ 64 }
        ensures count { NeverFalls (faults self.old) (faults self.new) }
        ensures once { MeetsOnce (faults self.old) (faults self.new) }
        ensures quiet { OnOk result (faults self.new ≡ faults self.old) }
        ensures cause { OnErr result (Rose (faults self.old) (faults self.new)) };

    /// How many faults were counted.
    fn faults(&self) -> u64
        ensures { result ≡ faults self.now };
}
