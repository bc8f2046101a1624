//! A permutation of bits as two that take themselves back.
ghost use Rattle.std.specs.Prelude.{◌≡◌, ◌≢◌, ℕ, ◌<◌, ◌≤◌, slice_index};
ghost use Rattle.idx_rowmajor.specs.Bits.{ArePlaces};
ghost use Rattle.idx_rowmajor.specs.Involutions.{AreInvolutions, ArePaired, AreSplit};
ghost use Rattle.idx_rowmajor.specs.Targets.{AreInverse};

use crate::bit_places::{MAX_BITS, inverse};

/// Two ways to place bits, each of which takes itself back.
#[derive(Drop)]
pub(crate) struct Involutions {
    /// The one that comes first.
    pub(crate) first: [u32; MAX_BITS],
    /// The one that comes second.
    pub(crate) second: [u32; MAX_BITS],
}

/// Not a place: that of a bit which has none yet.
const NO_PLACE: u32 = MAX_BITS as u32;

/// Two permutations that take themselves back and, one after the other, give the targets: each cycle of the targets is
/// turned over twice, round axes that lie half a step apart.
pub(crate) fn split(targets: &[u32; MAX_BITS], bits: u32) -> Involutions
    requires bits { bits ≤ MAX_BITS }
    requires places { ArePlaces bits targets.now }
    ensures { AreInvolutions bits targets.now result.first result.second }
{
    let inverse = inverse(targets, bits);
    let mut halves = Involutions {
        first: [NO_PLACE; MAX_BITS],
        second: [NO_PLACE; MAX_BITS],
    };
    for start in 0..bits {
        if halves.first[start as usize] == NO_PLACE {
            split_cycle(&mut halves, targets, &inverse, bits, start);
        }
    }
    halves
}

/// Splits the cycle of a bit, which has no places yet: on the way from it along the targets and against them, the bits
/// that lie as far ahead as behind change places.
fn split_cycle(
    halves: &mut Involutions,
    targets: &[u32; MAX_BITS],
    inverse: &[u32; MAX_BITS],
    bits: u32,
    start: u32,
)
    requires bits { bits ≤ MAX_BITS }
    requires places { ArePlaces bits targets.now }
    requires back { AreInverse bits targets.now inverse.now }
    requires start { start < bits }
    requires none { slice_index halves.old.first start ≡ 20 }
    requires before { AreSplit bits targets.now inverse.now halves.old.first halves.old.second }
    ensures after { AreSplit bits targets.now inverse.now halves.new.first halves.new.second }
    ensures here { slice_index halves.new.first start ≢ 20 }
    ensures kept { (i : ℕ) → i < bits → slice_index halves.old.first i ≢ 20 → slice_index halves.new.first i ≢ 20 }
{
    let mut ahead = start as usize;
    let mut behind = start as usize;
    for _ in 0..bits {
        pair(&mut halves.first, ahead, behind);
        ahead = targets[ahead] as usize;
        pair(&mut halves.second, ahead, behind);
        behind = inverse[behind] as usize;
    }
}

/// Makes each of two places that of the other one.
fn pair(places: &mut [u32; MAX_BITS], a: usize, b: usize)
    requires a { a < MAX_BITS }
    requires b { b < MAX_BITS }
    ensures { ArePaired a b places.old places.new }
{
    places[a] = b as u32;
    places[b] = a as u32;
}
