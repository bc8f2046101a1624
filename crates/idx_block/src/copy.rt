ghost use Rattle.std.specs.Prelude.{ℕ, suc, ◌+◌, ◌-◌, ◌<◌, ◌≤◌, All, List, ◌++◌, drop, length};
ghost use Rattle.idx_geom.specs.Region.{HoldsAll};
ghost use Rattle.idx_hz.specs.Mask.{IsMask};
ghost use Rattle.idx_grid.specs.LevelGrid.{IsGridAt};
ghost use Rattle.idx_lanes.specs.Copies.{AreMade, EachCopy, HasCoordinate, IsWanted, IsWithin};
ghost use Rattle.idx_block.specs.Tiles.{tile_lanes};
ghost use Rattle.idx_lanes.specs.Lanes.{AreCopied, AreNumbers, byte_at, place_at};

use crate::tile::{Tile, walk_tiles};
use crate::tiles::{Tiles, tiles_of};
use crate::walk::walk;
use idx_grid::Grid;
use idx_lanes::{BlockPart, Lane, Lanes, by_size, find_lanes};

/// Copies the samples that are asked for, which are those on a grid, to their places in a block, and leaves the others
/// as they are.
pub(crate) fn copy_points(part: &BlockPart, grid: &Grid, samples: &[u8], into: &mut [u8])
    requires mask { IsMask part.now.mask }
    requires digits { part.now.bits + part.now.k < length part.now.mask }
    requires few_bits { part.now.bits ≤ 20 }
    requires inside { HoldsAll part.now.region part.now.common }
    requires grid { IsGridAt part.now.mask (length part.now.region) (suc (part.now.bits + part.now.k)) grid.now }
    requires some { 1 ≤ part.now.size }
    requires few { part.now.size ≤ 64 }
    requires within { (ks : ℕ → ℕ) → AreNumbers part.now (length part.now.region) ks →
        IsWithin part.now.size samples.now into.old
        (byte_at part.now (length part.now.region) ks) (place_at part.now (length part.now.region) ks) }
    ensures { (want : ℕ → List ℕ) →
        ((ks : ℕ → ℕ) → AreNumbers part.now (length part.now.region) ks → IsWanted want part.now.size samples.now
        (byte_at part.now (length part.now.region) ks) (place_at part.now (length part.now.region) ks)) →
        AreCopied want part.now (length part.now.region) into.old into.new }
{
    if let Some(lanes) = find_lanes(part, grid) {
        copy_along(part.size as usize, &lanes, samples, into);
    }
}

/// Copies the samples along the lanes that were found, tile by tile where they make tiles.
fn copy_along(size: usize, lanes: &Lanes, samples: &[u8], into: &mut [u8])
    requires axes { lanes.now.axes ≤ 5 }
    requires some { 0 < size }
    requires few { size ≤ 64 }
    requires lanes { All HasCoordinate (drop (5 - lanes.now.axes) lanes.now.lanes) }
    requires within { EachCopy (IsWithin size samples.now into.old)
        (drop (5 - lanes.now.axes) lanes.now.lanes) lanes.now.from 0 }
    ensures { (want : ℕ → List ℕ) →
        EachCopy (IsWanted want size samples.now) (drop (5 - lanes.now.axes) lanes.now.lanes) lanes.now.from 0 →
        AreMade want size (drop (5 - lanes.now.axes) lanes.now.lanes) lanes.now.from 0 into.old into.new }
{
    match tiles_of(lanes, into.len() / size) {
        Some(tiles) => {
            let Tiles { lanes, tile } = tiles;
            copy_tiles(size, tile, lanes.as_slice(), samples, lanes.from, into);
        }
        None => copy_lanes(size, lanes.as_slice(), samples, lanes.from, into),
    }
}

/// Copies the tiles along these lanes, the slowest first, to their places in a block: one loop for each usual size of a
/// sample.
fn copy_tiles(size: usize, tile: Tile, lanes: &[Lane], samples: &[u8], from: usize, into: &mut [u8])
    requires some { 0 < size }
    requires few { size ≤ 64 }
    requires lanes { All HasCoordinate lanes.now }
    requires within { EachCopy (IsWithin size samples.now into.old)
        (lanes.now ++ tile_lanes tile.one tile.two tile.four) from 0 }
    ensures { (want : ℕ → List ℕ) →
        EachCopy (IsWanted want size samples.now) (lanes.now ++ tile_lanes tile.one tile.two tile.four) from 0 →
        AreMade want size (lanes.now ++ tile_lanes tile.one tile.two tile.four) from 0 into.old into.new }
{
    by_size!(size, sample => walk_tiles(sample, tile, lanes, samples, from, into, 0));
}

/// Copies the samples along these lanes, the slowest first, to their places in a block: one loop for each usual size of
/// a sample.
fn copy_lanes(size: usize, lanes: &[Lane], samples: &[u8], from: usize, into: &mut [u8])
    requires some { 0 < size }
    requires few { size ≤ 64 }
    requires lanes { All HasCoordinate lanes.now }
    requires within { EachCopy (IsWithin size samples.now into.old) lanes.now from 0 }
    ensures { (want : ℕ → List ℕ) → EachCopy (IsWanted want size samples.now) lanes.now from 0 →
        AreMade want size lanes.now from 0 into.old into.new }
{
    by_size!(size, sample => walk(sample, lanes, samples, from, into, 0));
}
