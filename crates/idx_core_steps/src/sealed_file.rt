ghost use Rattle.std.specs.Prelude.{◌≡◌, IfOk};

use idx_core_forms::HeldLeaf;
use idx_outside::{Bytes, NoMemory};
use std::alloc::Global;
use std::marker::Model;

/// A file that was written: its name, and its bytes in memory. A contract sees both.
#[derive(Drop)]
pub struct SealedFile {
    name: Bytes,
    leaf: HeldLeaf,
}

impl Model for SealedFile {
    ghost use Rattle.std.specs.Prelude.{ℕ, List};

    ghost Value = { List ℕ × List ℕ };

    ghost view = { λ f. (f.name, f.leaf) };
}

impl SealedFile {
    /// The file of a name and its bytes. Takes no memory.
    pub fn new(name: Bytes, leaf: HeldLeaf) -> SealedFile
        ensures { result ≡ (name, leaf) }
    {
        SealedFile { name, leaf }
    }

    /// Its name.
    pub fn name(&self) -> &Bytes
        ensures { result.now ≡ self.now.0 }
    {
        &self.name
    }

    /// Its bytes.
    pub fn leaf(&self) -> &HeldLeaf
        ensures { result.now ≡ self.now.1 }
    {
        &self.leaf
    }

    /// The name copied, and the bytes once more in the same place.
    pub(crate) fn copy(&self, alloc: Global) -> Result<(Bytes, HeldLeaf), NoMemory>
        ensures { IfOk result (λ file. file ≡ self.now) }
    {
        let name = Bytes::from_slice(alloc, self.name.as_slice())?;
        Ok((name, self.leaf.share()?))
    }
}
