ghost use Rattle.std.specs.Prelude.{◌≡◌, ℕ, ◌+◌, ◌-◌, ◌*◌, ◌^◌, ◌<◌, ◌≤◌, [], ◌∷◌, ◌++◌, IfOk, IfSome, OnOk, true, filter, length, List};
ghost use Rattle.std.specs.Option.{SomeIff};
ghost use Rattle.std.specs.List.{range_with_len};
ghost use Rattle.idx_geom.specs.Region.{IsRegion, upper_ends};
ghost use Rattle.idx_hz.specs.Mask.{HasAddress};
ghost use Rattle.idx_pieces.specs.Pieces.{has_piece, piece_region};

use idx_geom::Region;
use idx_grid::prefix_box;
use idx_hz::Mask;
use idx_outside::NoMemory;
use std::alloc::Global;

/// The region of a piece: what a box has of the points whose Z address, without its last `e` digits, is the piece's id.
/// `None` exactly where it has none of them.
pub fn piece_region(mask: &Mask, region: &Region, e: u32, id: u64) -> Option<Region>
    requires address { HasAddress mask.now (upper_ends region.now) }
    requires digits { e ≤ length mask.now }
    requires small { id < 2 ^ (length mask.now - e) }
    ensures { SomeIff result (has_piece mask.now region.now e id ≡ true) (piece_region mask.now region.now e id) }
{
    region.meet(&prefix_box(mask, region.axes(), mask.len() - e, id))
}

/// The ids, rising, of the pieces that have a point of a box. It takes a test for each of the two halves of each piece
/// of a coarser division, for each digit in front.
pub(crate) fn piece_ids(
    alloc: Global,
    mask: &Mask,
    region: &Region,
    e: u32,
) -> Result<Vec<u64>, NoMemory>
    requires valid { IsRegion region.now }
    requires address { HasAddress mask.now (upper_ends region.now) }
    requires digits { e ≤ length mask.now }
    ensures { IfOk result (λ ids. ids.items ≡
        filter (has_piece mask.now region.now e) (range_with_len 0 (2 ^ (length mask.now - e)))) }
{
    let mut ids = vec![in alloc; 0]?;
    for behind in (e..mask.len()).rev() {
        ids = halves(alloc, mask, region, behind, ids.as_slice())?;
    }
    Ok(ids)
}

/// The ids of the halves, of pieces that have one digit more behind, that have a point of a box.
fn halves(
    alloc: Global,
    mask: &Mask,
    region: &Region,
    e: u32,
    wholes: &[u64],
) -> Result<Vec<u64>, NoMemory>
    requires address { HasAddress mask.now (upper_ends region.now) }
    requires digits { e < length mask.now }
    requires few { length mask.now ≤ 40 }
    requires wholes { wholes.now ≡
        filter (has_piece mask.now region.now (e + 1)) (range_with_len 0 (2 ^ (length mask.now - (e + 1)))) }
    ensures { IfOk result (λ ids. ids.items ≡
        filter (has_piece mask.now region.now e) (range_with_len 0 (2 ^ (length mask.now - e)))) }
{
    let mut ids = Vec::new(alloc);
    for whole in wholes {
        push_piece(mask, region, e, 2 * *whole, &mut ids)?;
        push_piece(mask, region, e, 2 * *whole + 1, &mut ids)?;
    }
    Ok(ids)
}

/// Appends an id where its piece has a point of a box.
fn push_piece(
    mask: &Mask,
    region: &Region,
    e: u32,
    id: u64,
    ids: &mut Vec<u64>,
) -> Result<(), NoMemory>
    requires address { HasAddress mask.now (upper_ends region.now) }
    requires digits { e ≤ length mask.now }
    requires small { id < 2 ^ (length mask.now - e) }
    ensures { OnOk result (ids.new.items ≡
        ids.old.items ++ filter (has_piece mask.now region.now e) (id ∷ [])) }
{
    if has_piece(mask, region, e, id) {
        ids.push(id)?;
    }
    Ok(())
}

/// Whether a piece has a point of a box.
fn has_piece(mask: &Mask, region: &Region, e: u32, id: u64) -> bool
    requires address { HasAddress mask.now (upper_ends region.now) }
    requires digits { e ≤ length mask.now }
    requires small { id < 2 ^ (length mask.now - e) }
    ensures { result ≡ has_piece mask.now region.now e id }
{
    piece_region(mask, region, e, id).is_some()
}
