ghost use Rattle.std.specs.Prelude.{◌≡◌, ℕ, List, Option, OnOk, OnErr};
ghost use Rattle.idx_outside.specs.Cause.{MeetsOnce, NeverFalls, Rose};
ghost use Rattle.idx_outside.specs.Contents.{appended, AppendsPrefix};

use crate::Outage;

/// Takes bytes in their order, as a file or standard output does.
///
/// A call that answers `Outage` has counted a fault of this sink, and no other call has.
pub trait Sink {
    /// The bytes that were written, where they are known.
    ghost contents: { Self → Option (List ℕ) };

    /// How many faults were counted. The count stands still at `u64::MAX`.
    ghost faults: { Self → ℕ };

    /// Appends the piece. After `Outage` some first bytes of it were appended: none, some or all.
    fn write(&mut self, piece: &[u8]) -> Result<(), Outage>
        ensures written { OnOk result (contents self.new ≡ appended (contents self.old) piece.now) }
        ensures prefix { OnErr result (AppendsPrefix (contents self.old) (contents self.new) piece.now) }
        ensures count { NeverFalls (faults self.old) (faults self.new) }
        ensures once { MeetsOnce (faults self.old) (faults self.new) }
        ensures quiet { OnOk result (faults self.new ≡ faults self.old) }
        ensures cause { OnErr result (Rose (faults self.old) (faults self.new)) };

    /// How many faults were counted.
    fn faults(&self) -> u64
        ensures { result ≡ faults self.now };
}
