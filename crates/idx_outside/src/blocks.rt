ghost use Rattle.std.specs.Prelude.{◌≡◌, ◌↔◌, ℕ, ◌+◌, ◌<◌, ◌%◌, ◌^◌, List, Bool, false, Option, length, slice_index, replicate, IfSome, IfOk, OnOk, OnErr};
ghost use Rattle.idx_outside.specs.Cause.{MeetsOnce, NeverFalls, Rose};
ghost use Rattle.idx_outside.specs.Shape.{Shape};

use crate::{Leaf, Outage, Reader};

/// How a block came.
#[derive(Clone, Copy, Debug, PartialEq, Eq)]
pub enum Fetched {
    /// By one read.
    Read,
    /// By none: the step lacks the block, which is zeros.
    Absent,
}

/// A published step as blocks of samples, by field and number.
pub trait Blocks {
    /// A file of the step.
    type Leaf: Leaf;

    /// The step's number.
    ghost time: { Self → ℕ };

    /// How many blocks there are, and how many bytes a block of each field has.
    ghost shape: { Self → Shape };

    /// Whether the step has the block of this field and number.
    ghost has: { Self → ℕ → ℕ → Bool };

    /// The stored bytes of each field and block, where they are known. A block that the step lacks is zeros.
    ghost stored: { Self → Option (ℕ → ℕ → List ℕ) };

    /// The step's number.
    fn time(&self) -> u64
        ensures { result ≡ time self.now };

    /// Fills `into` with a block of a field, by one read of the block's length, or by none where the step lacks the block. After
    /// `Outage`, which is the reader's, nothing is known of the bytes of `into`. Takes no memory.
    fn fetch<R: Reader<Self::Leaf>>(
        &self,
        reader: &mut R,
        field: u32,
        block: u64,
        into: &mut [u8],
    ) -> Result<Fetched, Outage>
        requires field { field < length (shape self.now).lengths }
        requires block { block < (shape self.now).blocks }
        requires room { length into.old ≡ slice_index (shape self.now).lengths field }
        ensures bytes { OnOk result (IfSome (stored self.now) (λ stored. into.new ≡ stored field block)) }
        ensures absent { IfOk result (λ fetched. (fetched ≡ Fetched.Absent) ↔ (has self.now field block ≡ false)) }
        ensures zeros { IfOk result (λ fetched. fetched ≡ Fetched.Absent → into.new ≡ replicate (length into.old) 0) }
        ensures no_read { IfOk result (λ fetched. fetched ≡ Fetched.Absent → reader.new ≡ reader.old) }
        ensures one_read { IfOk result (λ fetched. fetched ≡ Fetched.Read
            → R.reads reader.new ≡ (R.reads reader.old + 1) % 2 ^ 64) }
        ensures asked { IfOk result (λ fetched. fetched ≡ Fetched.Read
            → R.asked reader.new ≡ (R.asked reader.old + length into.old) % 2 ^ 64) }
        ensures failed_asked { OnErr result (R.asked reader.new ≡ (R.asked reader.old + length into.old) % 2 ^ 64) }
        ensures failed_read { OnErr result (R.reads reader.new ≡ (R.reads reader.old + 1) % 2 ^ 64) }
        ensures count { NeverFalls (R.faults reader.old) (R.faults reader.new) }
        ensures once { MeetsOnce (R.faults reader.old) (R.faults reader.new) }
        ensures quiet { OnOk result (R.faults reader.new ≡ R.faults reader.old) }
        ensures cause { OnErr result (Rose (R.faults reader.old) (R.faults reader.new)) };
}
