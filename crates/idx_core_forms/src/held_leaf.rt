ghost use Rattle.std.specs.Prelude.{◌≡◌, None, Some, IfOk, length};
ghost use Rattle.std.specs.Arc.{arc_value};

use idx_outside::{Bytes, Leaf, NoMemory};
use std::marker::Model;
use std::sync::Arc;

/// A finished file in memory, whose bytes are shared by its copies. A contract sees its bytes. Its draft had counted no
/// fault.
#[derive(Drop)]
pub struct HeldLeaf {
    bytes: Arc<Bytes>,
}

impl Model for HeldLeaf {
    ghost use Rattle.std.specs.Prelude.{ℕ, List};
    ghost use Rattle.std.specs.Arc.{arc_value};

    ghost Value = { List ℕ };

    ghost view = { λ leaf. arc_value leaf.bytes };
}

impl HeldLeaf {
    /// The file of these bytes. Takes no memory.
    pub(crate) fn new(bytes: Arc<Bytes>) -> HeldLeaf
        ensures { result ≡ arc_value bytes }
    {
        HeldLeaf { bytes }
    }

    /// An equal file, of the same bytes in the same place. `NoMemory` only where no more owners of them can be counted.
    pub fn share(&self) -> Result<HeldLeaf, NoMemory>
        ensures { IfOk result (λ leaf. leaf ≡ self.now) }
    {
        let bytes = Arc::try_clone(&self.bytes)?;
        Ok(HeldLeaf { bytes })
    }

    /// The bytes. Takes no memory.
    pub fn bytes(&self) -> &Bytes
        ensures { result.now ≡ self.now }
    {
        &self.bytes
    }
}

impl Leaf for HeldLeaf {
    ghost contents = { λ leaf. Some leaf };

    ghost path = { λ _. None };

    ghost faults = { λ _. 0 };

    fn len(&self) -> u64
        ensures { result ≡ length self.now }
    {
        self.bytes.len() as u64
    }
}
