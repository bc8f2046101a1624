ghost use Rattle.std.specs.Prelude.{◌≡◌, ◌-◌, ◌^◌, ◌<◌, ◌≤◌, IfNone, IfSome, find, length, true};
ghost use Rattle.std.specs.List.{range_with_len};
ghost use Rattle.idx_geom.specs.Region.{upper_ends};
ghost use Rattle.idx_hz.specs.Mask.{HasAddress};
ghost use Rattle.idx_layout.specs.Placing.{has_point_in};
ghost use Rattle.idx_layout.specs.Runs.{HasPoint, NoneBetween, first_of_run};

use crate::has_point_in;
use crate::run::Run;
use idx_geom::Region;
use idx_hz::Mask;

/// The least number, from one on, of a block that has a point of a box: `None` exactly where there is none. It takes a
/// few tests for each digit of the number of blocks.
pub fn next_present(mask: &Mask, region: &Region, bits: u32, from: u64) -> Option<u64>
    requires address { HasAddress mask.now (upper_ends region.now) }
    requires bits { bits ≤ length mask.now }
    ensures value { result ≡ find (has_point_in mask.now region.now bits)
        (range_with_len from (2 ^ (length mask.now - bits) - from)) }
    ensures few { IfSome result (λ block. block < 2 ^ 40) }
{
    match next_run(mask, region, bits, from) {
        Some(run) => Some(first_block(mask, region, bits, &run)),
        None => None,
    }
}

/// A run of blocks that has a point of a box, and no block from one on and before it has.
fn next_run(mask: &Mask, region: &Region, bits: u32, from: u64) -> Option<Run>
    requires address { HasAddress mask.now (upper_ends region.now) }
    requires bits { bits ≤ length mask.now }
    ensures point { IfSome result (HasPoint mask.now region.now bits) }
    ensures from { IfSome result (λ run. from ≤ first_of_run run) }
    ensures before { IfSome result (λ run. NoneBetween mask.now region.now bits from (first_of_run run)) }
    ensures none { IfNone result (NoneBetween mask.now region.now bits from (2 ^ (length mask.now - bits))) }
    ensures few { length mask.now ≤ 40 }
{
    let digits = mask.len() - bits;
    let mut run = Run {
        height: 0,
        number: from,
    };
    while run.number < 1 << (digits - run.height) {
        if has_point_in(mask, region, bits + run.height, run.number) {
            return Some(run);
        }
        run = run.behind(digits);
    }
    None
}

/// The first block of a run that has a point of a box.
fn first_block(mask: &Mask, region: &Region, bits: u32, run: &Run) -> u64
    requires address { HasAddress mask.now (upper_ends region.now) }
    requires few { length mask.now ≤ 40 }
    requires point { HasPoint mask.now region.now bits run.now }
    ensures from { first_of_run run.now ≤ result }
    ensures exists { result < 2 ^ (length mask.now - bits) }
    ensures few { result < 2 ^ 40 }
    ensures point { has_point_in mask.now region.now bits result ≡ true }
    ensures before { NoneBetween mask.now region.now bits (first_of_run run.now) result }
{
    let mut number = run.number;
    for height in (0..run.height).rev() {
        number *= 2;
        if !has_point_in(mask, region, bits + height, number) {
            number += 1;
        }
    }
    number
}
