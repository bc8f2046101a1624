ghost use Rattle.std.specs.Prelude.{◌++◌, drop, length};
ghost use Rattle.idx_aggregate.specs.Docks.{pieces_in};
ghost use Rattle.idx_gather.specs.States.{AreDocks, AreLoads};

use crate::Opening;
use idx_dock::Dock;
use idx_outside::Leaf;
use idx_pieces::Piece;
use idx_ranks::Load;

/// A step that is gathered, with what was read for the aggregators of its next files: as many pieces as fit into the room
/// together, or one.
#[derive(Drop)]
pub struct Parcelled<L: Leaf> {
    pub(crate) opening: Opening<L>,
    pub(crate) docks: Vec<Dock>,
    pub(crate) done: usize,
    pub(crate) loads: Vec<Load>,
    pub(crate) left: Vec<Piece>,
    ghost docks_valid: { AreDocks opening.header opening.room opening.pieces.items
        (drop (length opening.leaves.items) opening.files.items) done (pieces_in loads.items ++ left.items) docks.items },
    ghost loads_valid: { AreLoads opening.header opening.room loads.items left.items },
}
