ghost use Rattle.std.specs.Prelude.{◌≡◌, ℕ, ◌+◌, ◌≤◌, ◌%◌, ◌^◌, List, Option, length, take, drop, IfSome, IfOk, OnOk, OnErr};
ghost use Rattle.std.specs.Option.{ForSome};
ghost use Rattle.idx_outside.specs.Cause.{MeetsOnce, NeverFalls, Rose};

use crate::Outage;

/// Bytes that are read by their places, as those of a file.
///
/// A call that answers `Outage` has counted a fault of this source, and no other call has. No call changes the bytes.
pub trait Source {
    /// The bytes, where they are known.
    ghost contents: { Self → Option (List ℕ) };

    /// How many bytes were asked for, also by calls that failed, modulo 2^64.
    ghost asked: { Self → ℕ };

    /// How many faults were counted. The count stands still at `u64::MAX`.
    ghost faults: { Self → ℕ };

    /// The number of bytes.
    fn len(&mut self) -> Result<u64, Outage>
        ensures length { IfOk result (λ n. IfSome (contents self.old) (λ bytes. n ≡ length bytes)) }
        ensures contents { contents self.new ≡ contents self.old }
        ensures asked { asked self.new ≡ asked self.old }
        ensures count { NeverFalls (faults self.old) (faults self.new) }
        ensures once { MeetsOnce (faults self.old) (faults self.new) }
        ensures quiet { OnOk result (faults self.new ≡ faults self.old) }
        ensures cause { OnErr result (Rose (faults self.old) (faults self.new)) };

    /// Fills `into` with the bytes from place `at` on, counted from 0. A source of unknown bytes answers `Outage`
    /// where the range passes its end. After `Outage` nothing is known of the bytes of `into`.
    fn read_at(&mut self, at: u64, into: &mut [u8]) -> Result<(), Outage>
        requires { ForSome (contents self.old) (λ bytes. at + length into.old ≤ length bytes) }
        ensures read { OnOk result (IfSome (contents self.old)
            (λ bytes. into.new ≡ take (length into.old) (drop at bytes))) }
        ensures contents { contents self.new ≡ contents self.old }
        ensures asked { asked self.new ≡ (asked self.old + length into.old) % 2 ^ 64 }
        ensures count { NeverFalls (faults self.old) (faults self.new) }
        ensures once { MeetsOnce (faults self.old) (faults self.new) }
        ensures quiet { OnOk result (faults self.new ≡ faults self.old) }
        ensures cause { OnErr result (Rose (faults self.old) (faults self.new)) };

    /// How many faults were counted.
    fn faults(&self) -> u64
        ensures { result ≡ faults self.now };
}
