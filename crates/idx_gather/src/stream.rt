ghost use Rattle.std.specs.Prelude.{map};
ghost use Rattle.idx_outside.specs.Files.{AllNamed};

use crate::Opening;
use idx_dock::Dock;
use idx_outside::{Bytes, Leaf};
use idx_pieces::Piece;

/// A window of files that is gathered: the aggregators of those files that are not sealed yet, the pieces that they still
/// want, and the sealed files by their numbers, in the order in which they were sealed.
#[derive(Drop)]
pub(crate) struct Stream<L: Leaf> {
    pub(crate) opening: Opening<L>,
    pub(crate) docks: Vec<Dock>,
    pub(crate) left: Vec<Piece>,
    pub(crate) sealed: Vec<(u64, (Bytes, L))>,
    ghost named: { AllNamed L.path (map (λ entry. entry.1) sealed.items) },
}
