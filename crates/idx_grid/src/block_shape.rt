ghost use Rattle.std.specs.Prelude.{◌≡◌, ℕ, ◌+◌, ◌-◌, ◌*◌, ◌^◌, ◌<◌, ◌≤◌, ◌↔◌, List, length};
ghost use Rattle.idx_geom.specs.Point.{IsAxes};
ghost use Rattle.idx_geom.specs.Region.{LiesIn};
ghost use Rattle.idx_hz.specs.Mask.{NamesAxes, HasAddress};
ghost use Rattle.idx_hz.specs.Address.{level};
ghost use Rattle.idx_grid.specs.Grid.{LiesOn};
ghost use Rattle.idx_grid.specs.LevelGrid.{IsGridAt, IsGridUpTo};
ghost use Rattle.idx_grid.specs.Block.{IsInBlock};

use crate::{Grid, grid_at, grid_up_to, prefix_box};
use idx_geom::Region;
use idx_hz::Mask;

/// The points of a block: those of its levels' grid that lie in a box.
#[derive(Clone, Copy, Debug)]
pub struct BlockShape {
    /// The coarsest level of the block's points.
    pub lo_level: u32,
    /// The finest level of the block's points.
    pub hi_level: u32,
    /// The box, which lies below the mask's size.
    pub region: Region,
    /// The grid of the points of these levels.
    pub grid: Grid,
}

/// The points of a block of 2^bits hierarchical addresses; block b has the addresses from b * 2^bits on. Block 0 has
/// the levels 0 to `bits`, and every other block one level.
pub fn shape(mask: &Mask, axes: u32, bits: u32, block: u64) -> BlockShape
    requires axes { IsAxes axes }
    requires named { NamesAxes mask.now axes }
    requires bits { bits ≤ length mask.now }
    requires exists { block < 2 ^ (length mask.now - bits) }
    ensures points { (p : List ℕ) →
        IsInBlock mask.now axes bits block p ↔ (LiesIn result.region p × LiesOn result.grid p) }

    // Block 0 has all points of its levels, every other block addresses of one level, which are 2^(level - 1) to
    // 2^level - 1.
    ensures coarse { block ≡ 0 → (result.lo_level ≡ 0) × (result.hi_level ≡ bits) }
    ensures one_level { 1 ≤ block → result.lo_level ≡ result.hi_level }
    ensures level { 1 ≤ block →
        (2 ^ (result.hi_level - 1) ≤ block * 2 ^ bits) × (block * 2 ^ bits < 2 ^ result.hi_level) }
    ensures levels { (p : List ℕ) → IsInBlock mask.now axes bits block p →
        (result.lo_level ≤ level mask.now p) × (level mask.now p ≤ result.hi_level) }

    ensures axes { length result.region ≡ axes }
    ensures below { (p : List ℕ) → LiesIn result.region p → HasAddress mask.now p }
    ensures coarse_grid { block ≡ 0 → IsGridUpTo mask.now axes bits result.grid }
    ensures grid { 1 ≤ block → IsGridAt mask.now axes result.hi_level result.grid }
{
    if block == 0 {
        return BlockShape {
            lo_level: 0,
            hi_level: bits,
            region: prefix_box(mask, axes, 0, 0),
            grid: grid_up_to(mask, axes, bits),
        };
    }
    let digits = highest_one(block, mask.len() - bits);
    let level = bits + digits + 1;
    BlockShape {
        lo_level: level,
        hi_level: level,
        region: prefix_box(mask, axes, digits, block - (1 << digits)),
        grid: grid_at(mask, axes, level),
    }
}

/// The place of the highest 1 of a number of so many binary digits; place 0 is the lowest.
fn highest_one(n: u64, digits: u32) -> u32
    requires some { 1 ≤ n }
    requires few { digits ≤ 64 }
    requires small { n < 2 ^ digits }
    ensures within { result < digits }
    ensures from { 2 ^ result ≤ n }
    ensures to { n < 2 ^ (result + 1) }
{
    let zeros = n.leading_zeros() - (u64::BITS - digits);
    digits - 1 - zeros
}
