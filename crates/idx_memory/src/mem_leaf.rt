ghost use Rattle.std.specs.Prelude.{◌≡◌, None, Some, length};
ghost use Rattle.idx_memory.specs.Memory.{file_of_bytes};

use idx_outside::{Bytes, Leaf};
use std::marker::Model;

/// A finished file in memory, whose bytes are known.
#[derive(Debug, Drop)]
pub struct MemLeaf {
    bytes: Bytes,
    path: Option<Bytes>,
    faults: u64,
}

impl Model for MemLeaf {
    ghost use Rattle.idx_memory.specs.Memory.{LeafState};

    ghost Value = { LeafState };

    ghost view = { λ leaf. record { bytes = leaf.bytes; path = leaf.path; faults = leaf.faults } };
}

impl MemLeaf {
    /// A file of which its bytes alone are told. Takes no memory.
    pub fn new(bytes: Bytes) -> MemLeaf
        ensures { result ≡ file_of_bytes bytes }
    {
        MemLeaf {
            bytes,
            path: None,
            faults: 0,
        }
    }

    /// The file of a path and its bytes, whose draft had counted so many faults. Takes no memory.
    pub(crate) fn at(path: Bytes, bytes: Bytes, faults: u64) -> MemLeaf
        ensures { result ≡ record { bytes = bytes; path = Some path; faults = faults } }
    {
        MemLeaf {
            bytes,
            path: Some(path),
            faults,
        }
    }

    pub(crate) fn bytes(&self) -> &Bytes
        ensures { result.now ≡ self.now.bytes }
    {
        &self.bytes
    }
}

impl Leaf for MemLeaf {
    ghost contents = { λ leaf. Some leaf.bytes };

    ghost path = { λ leaf. leaf.path };

    ghost faults = { λ leaf. leaf.faults };

    fn len(&self) -> u64
        ensures { result ≡ length self.now.bytes }
    {
        self.bytes.len() as u64
    }
}
