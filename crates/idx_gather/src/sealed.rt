ghost use Rattle.std.specs.Prelude.{◌≡◌, map};
ghost use Rattle.idx_outside.specs.Files.{AllNamed, shown};
ghost use Rattle.idx_header.specs.Names.{file_name};
ghost use Rattle.idx_layout.specs.Placing.{file_numbers};
ghost use Rattle.idx_layout.specs.OfHeader.{placing_of};
ghost use Rattle.idx_gather.specs.States.{AreAllFiles};

use idx_header::Header;
use idx_outside::{Bytes, Leaf};
use idx_rowmajor::Layout;

/// A step whose files are all sealed: those of some volume, each once. None of them stands yet.
#[derive(Drop)]
pub struct Sealed<L: Leaf> {
    pub(crate) header: Header,
    pub(crate) step: u64,
    pub(crate) layout: Layout,
    pub(crate) leaves: Vec<(Bytes, L)>,
    ghost paths: { map (λ leaf. leaf.0) leaves.items ≡ map (file_name header step) (file_numbers (placing_of header)) },
    ghost whole: { ∥ AreAllFiles layout header step (shown L.contents leaves.items) ∥₁ },
    ghost named: { AllNamed L.path leaves.items },
}
