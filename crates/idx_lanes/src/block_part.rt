use idx_geom::Region;
use idx_hz::Mask;

/// Which samples of a row-major volume go into a block of 2^`bits` addresses whose number has `k` + 1 binary digits:
/// those of the points between the bounds `common`, which are those of the volume's box and of the block.
#[derive(Clone, Copy, Debug)]
pub struct BlockPart {
    /// The dataset's mask.
    pub mask: Mask,
    /// How many bits the place of a sample in its block has.
    pub bits: u32,
    /// How many binary digits the block's number has behind its highest 1.
    pub k: u32,
    /// The box that the volume fills.
    pub region: Region,
    /// What that box and the block's have in common.
    pub common: Region,
    /// How many bytes a sample has.
    pub size: u64,
}
