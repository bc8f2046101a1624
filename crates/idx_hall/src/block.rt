ghost use Rattle.std.specs.Prelude.{◌≡◌, IfOk};
ghost use Rattle.std.specs.Arc.{arc_value};

use idx_outside::{Bytes, NoMemory};
use std::marker::Model;
use std::sync::Arc;

/// A cached block, seen as its bytes.
#[derive(Drop)]
pub(crate) struct Block {
    bytes: Arc<Bytes>,
}

impl Model for Block {
    ghost use Rattle.std.specs.Prelude.{ℕ, List};
    ghost use Rattle.std.specs.Arc.{arc_value};

    ghost Value = { List ℕ };

    ghost view = { λ b. arc_value b.bytes };
}

impl Block {
    /// The block of these bytes.
    pub(crate) fn new(bytes: Arc<Bytes>) -> Block
        ensures { result ≡ arc_value bytes }
    {
        Block { bytes }
    }

    /// The bytes.
    pub(crate) fn bytes(&self) -> &Arc<Bytes>
        ensures { arc_value result.now ≡ self.now }
    {
        &self.bytes
    }

    /// The bytes alone.
    pub(crate) fn into_bytes(self) -> Arc<Bytes>
        ensures { arc_value result ≡ self }
    {
        self.bytes
    }

    /// The block once more, with the same bytes in the same place.
    pub(crate) fn share(&self) -> Result<Block, NoMemory>
        ensures { IfOk result (λ block. block ≡ self.now) }
    {
        let bytes = Arc::try_clone(&self.bytes)?;
        Ok(Block { bytes })
    }
}
