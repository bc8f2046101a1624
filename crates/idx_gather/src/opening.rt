ghost use Rattle.std.specs.Prelude.{map};
ghost use Rattle.idx_outside.specs.Files.{AllNamed, shown};
ghost use Rattle.idx_gather.specs.States.{AreFilesSoFar, IsOpening};

use idx_header::Header;
use idx_outside::{Bytes, Leaf};
use idx_pieces::Piece;
use idx_rowmajor::Layout;

/// A step that is gathered: the files that are sealed so far, which are the first ones of some volume, each once, and what
/// it takes to make the others.
#[derive(Drop)]
pub struct Opening<L: Leaf> {
    pub(crate) header: Header,
    pub(crate) step: u64,
    pub(crate) ranks: u32,
    pub(crate) room: u64,
    pub(crate) layout: Layout,
    pub(crate) pieces: Vec<Piece>,
    pub(crate) files: Vec<u64>,
    pub(crate) leaves: Vec<(Bytes, L)>,
    ghost valid: { IsOpening header step ranks room pieces.items files.items (map (λ leaf. leaf.0) leaves.items) },
    ghost so_far: { ∥ AreFilesSoFar layout header step files.items (shown L.contents leaves.items) ∥₁ },
    ghost named: { AllNamed L.path leaves.items },
}
