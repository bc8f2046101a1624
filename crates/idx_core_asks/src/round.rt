ghost use Rattle.std.specs.Prelude.{◌≡◌, OnErr, OnOk, Some};
ghost use Rattle.idx_events.specs.Queries.{is_loaded, is_next, with_block};

use crate::HeldBlock;
use idx_outside::NoMemory;
use std::marker::Model;

/// A round of a question that has begun: the blocks that were not found, rising, and those of them that were read.
#[derive(Drop)]
pub struct Round {
    missing: Vec<u64>,
    loaded: Vec<HeldBlock>,
}

impl Model for Round {
    ghost use Rattle.idx_events.specs.World.{Round};

    ghost Value = { Round };

    ghost view = { λ r. record { missing = r.missing.items; loaded = r.loaded.items } };
}

impl Round {
    /// A round in which these blocks are missing, and none was read.
    pub(crate) fn new(missing: Vec<u64>, loaded: Vec<HeldBlock>) -> Round
        ensures { result ≡ record { missing = missing.items; loaded = loaded.items } }
    {
        Round { missing, loaded }
    }

    /// Whether this block is the least missing one that was not read.
    pub(crate) fn is_next(&self, block: u64) -> bool
        ensures { result ≡ is_next block self.now }
    {
        match self.missing.get(self.loaded.len()) {
            Some(next) => block == *next,
            None => false,
        }
    }

    /// Whether all missing blocks were read.
    pub(crate) fn is_loaded(&self) -> bool
        ensures { result ≡ is_loaded self.now }
    {
        self.loaded.len() == self.missing.len()
    }

    /// The blocks that were read.
    pub(crate) fn loaded(&self) -> &[HeldBlock]
        ensures { result.now ≡ self.now.loaded }
    {
        &self.loaded
    }

    /// Keeps a block that was read.
    pub(crate) fn load(&mut self, block: HeldBlock) -> Result<(), NoMemory>
        ensures loaded { OnOk result (Some self.new ≡ with_block block (Some self.old)) }
        ensures refused { OnErr result (self.new ≡ self.old) }
    {
        self.loaded.push(block)?;
        Ok(())
    }
}
