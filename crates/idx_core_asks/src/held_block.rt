ghost use Rattle.std.specs.Prelude.{◌≡◌, ◌++◌, IfOk, OnOk};
ghost use Rattle.std.specs.Arc.{arc_value};

use idx_outside::{Bytes, NoMemory};
use std::marker::Model;
use std::sync::Arc;

/// A block that a question holds: its number, and its bytes, which are shared.
#[derive(Drop)]
pub struct HeldBlock {
    number: u64,
    bytes: Arc<Bytes>,
}

impl Model for HeldBlock {
    ghost use Rattle.std.specs.Prelude.{ℕ, List};
    ghost use Rattle.std.specs.Arc.{arc_value};

    ghost Value = { ℕ × List ℕ };

    ghost view = { λ b. (b.number, arc_value b.bytes) };
}

impl HeldBlock {
    /// The block of a number.
    pub fn new(number: u64, bytes: Arc<Bytes>) -> HeldBlock
        ensures { result ≡ (number, arc_value bytes) }
    {
        HeldBlock { number, bytes }
    }

    /// Its number.
    pub fn number(&self) -> u64
        ensures { result ≡ self.now.0 }
    {
        self.number
    }

    /// Its bytes.
    pub fn bytes(&self) -> &Arc<Bytes>
        ensures { arc_value result.now ≡ self.now.1 }
    {
        &self.bytes
    }

    /// The block once more, with the same bytes in the same place.
    pub fn share(&self) -> Result<HeldBlock, NoMemory>
        ensures { IfOk result (λ block. block ≡ self.now) }
    {
        let bytes = Arc::try_clone(&self.bytes)?;
        Ok(HeldBlock {
            number: self.number,
            bytes,
        })
    }
}

/// Appends blocks once more.
pub(crate) fn append_shared(blocks: &[HeldBlock], to: &mut Vec<HeldBlock>) -> Result<(), NoMemory>
    ensures { OnOk result (to.new.items ≡ to.old.items ++ blocks.now) }
{
    for block in blocks {
        to.push(block.share()?)?;
    }
    Ok(())
}
