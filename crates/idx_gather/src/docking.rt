ghost use Rattle.std.specs.Prelude.{drop, length};
ghost use Rattle.idx_gather.specs.States.{AreDocks};

use crate::Opening;
use idx_dock::Dock;
use idx_outside::Leaf;
use idx_pieces::Piece;

/// A step that is gathered, with the aggregators of its next files: as many as fit into the room together, or one.
#[derive(Drop)]
pub struct Docking<L: Leaf> {
    pub(crate) opening: Opening<L>,
    pub(crate) docks: Vec<Dock>,
    pub(crate) done: usize,
    pub(crate) left: Vec<Piece>,
    ghost valid: { AreDocks opening.header opening.room opening.pieces.items
        (drop (length opening.leaves.items) opening.files.items) done left.items docks.items },
}
