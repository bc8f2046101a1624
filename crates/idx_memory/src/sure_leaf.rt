ghost use Rattle.std.specs.Prelude.{◌≡◌, [], None};
ghost use Rattle.idx_memory.specs.Memory.{kept_whole};

use idx_outside::{Bytes, Leaf};
use std::alloc::Global;
use std::marker::Model;

/// A finished file in memory, of which nothing is told. One that a bay gives, or that is made of bytes, has its bytes;
/// one that was a draft has its length alone, and reads as zeros.
#[derive(Debug, Drop)]
pub struct SureLeaf {
    len: u64,
    bytes: Bytes,
}

impl Model for SureLeaf {
    ghost use Rattle.idx_memory.specs.Memory.{KeptFile};

    ghost Value = { KeptFile };

    ghost view = { λ leaf. record { len = leaf.len; bytes = leaf.bytes } };
}

impl SureLeaf {
    /// Takes no memory.
    pub fn new(bytes: Bytes) -> SureLeaf
        ensures { result ≡ kept_whole bytes }
    {
        SureLeaf {
            len: bytes.len() as u64,
            bytes,
        }
    }

    /// A file of this length, of which no bytes are kept.
    pub(crate) fn forgotten(alloc: Global, len: u64) -> SureLeaf
        ensures { result ≡ record { len = len; bytes = [] } }
    {
        SureLeaf {
            len,
            bytes: Bytes::new(alloc),
        }
    }

    pub(crate) fn bytes(&self) -> &Bytes
        ensures { result.now ≡ self.now.bytes }
    {
        &self.bytes
    }
}

impl Leaf for SureLeaf {
    ghost contents = { λ _. None };

    ghost path = { λ _. None };

    ghost faults = { λ _. 0 };

    fn len(&self) -> u64
        ensures { result ≡ self.now.len }
    {
        self.len
    }
}
