ghost use Rattle.std.specs.Prelude.{◌≡◌, ℕ, List, Option, IfOk, IfErr, OnOk, OnErr};
ghost use Rattle.idx_outside.specs.Cause.{NeverFalls, Rose, counted};
ghost use Rattle.idx_outside.specs.Contents.{appended, AppendsPrefix};

use crate::{Leaf, Outage};

/// A file that is being written. It is sealed to a leaf, or given back to its bay by `Bay::retire`: a draft has no
/// `Drop`, so that code that lets one go does not compile.
///
/// A call that answers `Outage` has counted one fault of this draft, and no other call has.
pub trait Draft {
    /// What a draft becomes.
    type Leaf: Leaf;

    /// The bytes so far, where they are known.
    ghost contents: { Self → Option (List ℕ) };

    /// The path for which it was made, where it is known.
    ghost path: { Self → Option (List ℕ) };

    /// How many faults were counted. The count stands still at `u64::MAX`.
    ghost faults: { Self → ℕ };

    /// Appends the piece. After `Outage` some first bytes of it were appended: none, some or all.
    fn append(&mut self, piece: &[u8]) -> Result<(), Outage>
        ensures written { OnOk result (contents self.new ≡ appended (contents self.old) piece.now) }
        ensures prefix { OnErr result (AppendsPrefix (contents self.old) (contents self.new) piece.now) }
        ensures path { path self.new ≡ path self.old }
        ensures count { NeverFalls (faults self.old) (faults self.new) }
        ensures quiet { OnOk result (faults self.new ≡ faults self.old) }
        ensures once { OnErr result (faults self.new ≡ counted (faults self.old)) }
        ensures cause { OnErr result (Rose (faults self.old) (faults self.new)) };

    /// The leaf of these bytes, or the draft back, with the same bytes.
    fn seal(self) -> Result<Self::Leaf, (Self, Outage)>
        ensures sealed { IfOk result (λ leaf. Self.Leaf.contents leaf ≡ contents self) }
        ensures path { IfOk result (λ leaf. Self.Leaf.path leaf ≡ path self) }
        ensures unfailed { IfOk result (λ leaf. Self.Leaf.faults leaf ≡ faults self) }
        ensures same { IfErr result (λ back. contents back.0 ≡ contents self) }
        ensures same_path { IfErr result (λ back. path back.0 ≡ path self) }
        ensures once { IfErr result (λ back. faults back.0 ≡ counted (faults self)) }
        ensures cause { IfErr result (λ back. Rose (faults self) (faults back.0)) };

    /// How many faults were counted.
    fn faults(&self) -> u64
        ensures { result ≡ faults self.now };
}
