ghost use Rattle.std.specs.Prelude.{◌≡◌, ℕ, ◌<◌, ◌≤◌, List, [], Option, length, take, IfSome, IfOk, OnOk, OnErr};
ghost use Rattle.idx_outside.specs.Cause.{MeetsOnce, NeverFalls, Rose};
ghost use Rattle.idx_outside.specs.Contents.{appended, AppendsPrefix};
ghost use Rattle.idx_outside.specs.Input.{Reading, behind, read_once_more};

use crate::Outage;

/// A connection: an input that comes in pieces, and an output.
///
/// A call that answers `Outage` has counted a fault of this link, and no other call has.
pub trait Link {
    /// The bytes that are still to come, where they are known.
    ghost incoming: { Self → Option (List ℕ) };

    /// The bytes that were written, where they are known.
    ghost written: { Self → Option (List ℕ) };

    /// For each `read` so far, also one that failed, in order: what was still to come when it was called, and what had been
    /// written by then. Known where these are.
    ghost readings: { Self → Option (List Reading) };

    /// How many faults were counted. The count stands still at `u64::MAX`.
    ghost faults: { Self → ℕ };

    /// Puts the next 1 to `into.len()` bytes to the front of `into`, or 0 exactly at the end of the input, and tells
    /// how many. After `Outage` nothing is known of the bytes of `into`, and what is still to come is as before.
    fn read(&mut self, into: &mut [u8]) -> Result<usize, Outage>
        requires { 0 < length into.old }
        ensures within { IfOk result (λ n. n ≤ length into.old) }
        ensures given { IfOk result (λ n. incoming self.old ≡ behind (take n into.new) (incoming self.new)) }
        ensures end { IfOk result (λ n. n ≡ 0 → IfSome (incoming self.old) (λ bytes. bytes ≡ [])) }
        ensures held { OnErr result (incoming self.new ≡ incoming self.old) }
        ensures written { written self.new ≡ written self.old }
        ensures readings { readings self.new
            ≡ read_once_more (readings self.old) (incoming self.old) (written self.old) }
        ensures count { NeverFalls (faults self.old) (faults self.new) }
        ensures once { MeetsOnce (faults self.old) (faults self.new) }
        ensures quiet { OnOk result (faults self.new ≡ faults self.old) }
        ensures cause { OnErr result (Rose (faults self.old) (faults self.new)) };

    /// Appends the piece. After `Outage` some first bytes of it were appended: none, some or all.
    fn write(&mut self, piece: &[u8]) -> Result<(), Outage>
        ensures written { OnOk result (written self.new ≡ appended (written self.old) piece.now) }
        ensures prefix { OnErr result (AppendsPrefix (written self.old) (written self.new) piece.now) }
        ensures incoming { incoming self.new ≡ incoming self.old }
        ensures readings { readings self.new ≡ readings self.old }
        ensures count { NeverFalls (faults self.old) (faults self.new) }
        ensures once { MeetsOnce (faults self.old) (faults self.new) }
        ensures quiet { OnOk result (faults self.new ≡ faults self.old) }
        ensures cause { OnErr result (Rose (faults self.old) (faults self.new)) };

    /// How many faults were counted.
    fn faults(&self) -> u64
        ensures { result ≡ faults self.now };
}
