ghost use Rattle.std.specs.Prelude.{◌≡◌, ℕ, Option, IfOk, OnOk, OnErr};
ghost use Rattle.idx_outside.specs.Cause.{MeetsOnce, NeverFalls, Rose};
ghost use Rattle.idx_outside.specs.Doors.{Accepts, DoorTold, finishing};

use crate::{Link, Outage, Served};

/// Hands out connections, one after another, and takes them back.
///
/// A call of `accept` that answers `Outage` has counted a fault of this door, and no other call has.
pub trait Door {
    type Link: Link;

    /// The links that are still to come, those that were handed out and those that came back, where they are known.
    ghost told: { Self → Option (DoorTold Self.Link) };

    /// How many faults were counted. The count stands still at `u64::MAX`.
    ghost faults: { Self → ℕ };

    /// The next connection; `None` exactly where no further one will come.
    fn accept(&mut self) -> Result<Option<Self::Link>, Outage>
        ensures next { IfOk result (λ next. Accepts (told self.old) next (told self.new)) }
        ensures refused { OnErr result (told self.new ≡ told self.old) }
        ensures count { NeverFalls (faults self.old) (faults self.new) }
        ensures once { MeetsOnce (faults self.old) (faults self.new) }
        ensures quiet { OnOk result (faults self.new ≡ faults self.old) }
        ensures cause { OnErr result (Rose (faults self.old) (faults self.new)) };

    /// Takes back a connection that was handed out, with an entry for each head that was answered on it. Takes no
    /// memory.
    fn finish(&mut self, link: Self::Link, served: Vec<Served>)
        ensures told { told self.new ≡ finishing link served.items (told self.old) }
        ensures count { faults self.new ≡ faults self.old };

    /// How many faults were counted.
    fn faults(&self) -> u64
        ensures { result ≡ faults self.now };
}
