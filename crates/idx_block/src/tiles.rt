//! Which lanes lead to tiles: eight samples that go to neighbouring places.
ghost use Rattle.std.specs.Prelude.{◌≡◌, ℕ, ◌+◌, ◌-◌, ◌*◌, ◌<◌, ◌≤◌, All, IfSome, drop, true};
ghost use Rattle.idx_lanes.specs.Copies.{HasCoordinate};
ghost use Rattle.idx_lanes.specs.Spread.{part_after};
ghost use Rattle.idx_block.specs.Tiles.{AreTiled, IsCut, IsSplit, half_of};

use crate::tile::Tile;
use idx_geom::MAX_AXES;
use idx_lanes::{Lane, Lanes, next_part};

/// In blocks of fewer samples tiles are not looked for, which takes as long as copying some hundred samples.
const FEWEST: usize = 1024;

/// Lanes along which tiles lie.
#[derive(Clone, Copy)]
pub(crate) struct Tiles {
    /// The lanes.
    pub(crate) lanes: Lanes,
    /// How the samples of each tile lie in the raw samples.
    pub(crate) tile: Tile,
}

/// Lanes of which one has lost a bit, and how far its coordinates lay apart.
#[derive(Clone, Copy)]
struct CutLanes {
    lanes: Lanes,
    step: usize,
}

/// The lanes of the tiles that the samples along these lanes make, in a block of so many: `None` where some tile lacks
/// a sample, and where there are few.
pub(crate) fn tiles_of(lanes: &Lanes, count: usize) -> Option<Tiles>
    requires axes { lanes.now.axes ≤ 5 }
    requires some { All HasCoordinate (drop (5 - lanes.now.axes) lanes.now.lanes) }
    ensures from { IfSome result (λ tiles. tiles.lanes.from ≡ lanes.now.from) }
    ensures axes { IfSome result (λ tiles. tiles.lanes.axes ≤ 5) }
    ensures some { IfSome result (λ tiles. All HasCoordinate (drop (5 - tiles.lanes.axes) tiles.lanes.lanes)) }
    ensures tiled { IfSome result (λ tiles. AreTiled (drop (5 - lanes.now.axes) lanes.now.lanes)
        (drop (5 - tiles.lanes.axes) tiles.lanes.lanes) tiles.tile.one tiles.tile.two tiles.tile.four) }
{
    if count < FEWEST {
        return None;
    }
    let first = cut(lanes, 1)?;
    let second = cut(&first.lanes, 2)?;
    let third = cut(&second.lanes, 4)?;
    Some(Tiles {
        lanes: third.lanes,
        tile: Tile {
            one: first.step,
            two: second.step,
            four: third.step,
        },
    })
}

/// The lanes without a bit: `None` where none has it alone below its others, or has a coordinate without its
/// neighbour.
fn cut(lanes: &Lanes, bit: usize) -> Option<CutLanes>
    requires axes { lanes.now.axes ≤ 5 }
    requires some { All HasCoordinate (drop (5 - lanes.now.axes) lanes.now.lanes) }
    ensures from { IfSome result (λ cut. cut.lanes.from ≡ lanes.now.from) }
    ensures axes { IfSome result (λ cut. cut.lanes.axes ≤ 5) }
    ensures some { IfSome result (λ cut. All HasCoordinate (drop (5 - cut.lanes.axes) cut.lanes.lanes)) }
    ensures cut { IfSome result (λ cut. IsCut (drop (5 - lanes.now.axes) lanes.now.lanes)
        (drop (5 - cut.lanes.axes) cut.lanes.lanes) bit cut.step) }
{
    let unused = MAX_AXES - lanes.axes as usize;
    let at = unused
        + lanes.lanes[unused..]
            .iter()
            .position(|lane| lane.bits & bit != 0)?;
    let lane = lanes.lanes[at];
    let half = halved(&lane, bit)?;
    let mut lanes = *lanes;
    lanes.lanes[at] = half;
    Some(CutLanes {
        lanes,
        step: lane.step,
    })
}

/// Every second coordinate of a lane, without the bit that tells neighbours apart.
fn halved(lane: &Lane, bit: usize) -> Option<Lane>
    requires { HasCoordinate lane.now }
    ensures half { IfSome result (λ half. half ≡ half_of lane.now bit) }
    ensures some { IfSome result HasCoordinate }
    ensures split { IfSome result (λ _. IsSplit lane.now bit) }
{
    if lane.count % 2 != 0 || lane.step >= 1 << 62 || lane.bits < bit || next_part(bit, 0) != bit {
        return None;
    }
    let half = Lane {
        step: lane.step * 2,
        count: lane.count / 2,
        bits: lane.bits - bit,
        first: lane.first,
    };
    if are_pairs(lane, &half, bit) {
        Some(half)
    } else {
        None
    }
}

/// Whether each two neighbouring coordinates of a lane give what one of the half gives, the second one a bit more.
fn are_pairs(lane: &Lane, half: &Lane, bit: usize) -> bool
    requires { half.now ≡ half_of lane.now bit }
    ensures low { result ≡ true → (k : ℕ) → k < half.now.count → part_after lane.now.bits lane.now.first (k * 2) ≡
        part_after half.now.bits half.now.first k }
    ensures high { result ≡ true → (k : ℕ) → k < half.now.count → part_after lane.now.bits lane.now.first (k * 2 + 1) ≡
        part_after half.now.bits half.now.first k + bit }
{
    let mut part = lane.first;
    let mut of_half = half.first;
    for _k in 0..half.count {
        let next = next_part(lane.bits, part);
        if part != of_half || next < bit || next - bit != of_half {
            return false;
        }
        part = next_part(lane.bits, next);
        of_half = next_part(half.bits, of_half);
    }
    true
}
