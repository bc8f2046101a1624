ghost use Rattle.std.specs.Prelude.{◌≡◌, None, string_bytes};

use idx_outside::Leaf;
use std::marker::Model;

/// A finished file, of which nothing is told but its length: it stands at its path once its step was committed.
#[derive(Debug, Drop)]
pub struct FileLeaf {
    path: String,
    len: u64,
    faults: u64,
}

impl Model for FileLeaf {
    ghost use Rattle.std.specs.Prelude.{string_bytes};
    ghost use Rattle.idx_real.specs.FolderState.{LeafState};

    ghost Value = { LeafState };

    ghost view = { λ leaf. record { path = string_bytes leaf.path; len = leaf.len; faults = leaf.faults } };
}

impl FileLeaf {
    /// A finished file of so many bytes that stands, or will stand, at this path. That it does is not looked at here.
    pub fn new(path: String, len: u64) -> FileLeaf
        ensures { result ≡ record { path = string_bytes path; len = len; faults = 0 } }
    {
        FileLeaf::sealed(path, len, 0)
    }

    /// The same, with how many faults its draft had counted when it was sealed.
    pub(crate) fn sealed(path: String, len: u64, faults: u64) -> FileLeaf
        ensures { result ≡ record { path = string_bytes path; len = len; faults = faults } }
    {
        FileLeaf { path, len, faults }
    }

    /// Where the file stands once its step was committed.
    pub fn path(&self) -> &str
        ensures { result.now ≡ self.now.path }
    {
        self.path.as_str()
    }
}

impl Leaf for FileLeaf {
    ghost contents = { λ _. None };

    ghost path = { λ _. None };

    ghost faults = { λ leaf. leaf.faults };

    fn len(&self) -> u64
        ensures { result ≡ self.now.len }
    {
        self.len
    }
}
