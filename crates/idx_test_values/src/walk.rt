//! The plain search that a walk replaces, with ample memory; and what serves speed alone, of which clauses leave more open.
ghost use Rattle.std.specs.Prelude.{◌≡◌, [], ◌∷◌, true};

use idx_geom::{Point, Region};
use idx_grid::shape;
use idx_hz::Mask;
use idx_outside::Bytes;
use idx_stride::{Axis, Strides};
use idx_walk::answer_by_points;
use std::alloc::Global;
use std::test::Fail;

fn region(lo: &[u64], hi: &[u64]) -> Option<Region> {
    Region::new(Point::new(lo)?, Point::new(hi)?)
}

/// The samples of level 3 in a box of 2 by 3 points of a volume of 4 by 4 bytes.
fn found(alloc: Global, raw: &[u8]) -> Option<Bytes> {
    let mask = Mask::parse(b"V0101").ok()?;
    let (extent, asked) = (region(&[0, 0], &[3, 3])?, region(&[1, 1], &[2, 3])?);
    if !mask.holds(&extent) || !extent.holds(&asked) || raw.len() as u64 != extent.count() {
        return None;
    }
    answer_by_points(alloc, &mask, &extent, &asked, (3, 3), 1, raw).ok()
}

#[test]
fn a_search_finds_the_only_point_of_a_level(rt: HostRuntime) {
    let raw = [0, 1, 2, 3, 4, 5, 6, 7, 8, 9, 10, 11, 12, 13, 14, 15];
    assert!(rt;
        found(rt.alloc(), &raw).is_some_and(|samples| samples.as_slice() == [9].as_slice())
    );
}

/// Whether the last block of four addresses of that volume has this box.
fn last_block_has(lo: &[u64], hi: &[u64]) -> Option<bool> {
    let mask = Mask::parse(b"V0101").ok()?;
    if !mask.names_axes(2) || mask.len() != 4 {
        return None;
    }
    let found = shape(&mask, 2, 2, 3).region;
    Some(found.lo() == Point::new(lo)? && found.hi() == Point::new(hi)?)
}

#[test]
fn the_box_of_a_block_is_no_larger(rt: HostRuntime) {
    assert!(rt; last_block_has(&[2, 0], &[3, 3]) == Some(true));
}

/// The finer points of that volume.
fn finer() -> Strides
    ensures { result ≡ record {
      base = 0;
      size = 1;
      coarse = true;
      axes =
          record { step = 1; count = 4; phase = 0; ratio = 2 } ∷
          record { step = 4; count = 4; phase = 0; ratio = 2 } ∷ [];
    } }
{
    let axis = Axis {
        step: 1,
        count: 4,
        phase: 0,
        ratio: 2,
    };
    Strides::new(0, 1, true, &[axis, Axis { step: 4, ..axis }])
}

#[test]
fn halves_hold_one_half_each(rt: HostRuntime) -> Result<(), Fail> {
    let walk = finer();
    assert!(rt; walk.count() == 12 && !walk.is_dense() && walk.widest_gap() == 0);
    let (front, behind) = walk.halves().expect(&rt, "halves");
    assert!(rt; (front.count(), behind.first(), behind.count()) == (6, 8, 6));
    Ok(())
}
