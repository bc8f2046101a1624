ghost use Rattle.std.specs.Prelude.{◌≤◌};
ghost use Rattle.idx_rowmajor.specs.Bits.{ArePlaces, Carries};

use crate::bit_places::MAX_BITS;

/// The number that has the bits of another one, each at its place.
pub(crate) fn carried(places: &[u32; MAX_BITS], bits: u32, from: usize) -> usize
    requires bits { bits ≤ MAX_BITS }
    requires places { ArePlaces bits places.now }
    ensures { Carries bits places.now from result }
{
    let mut to = 0;
    for bit in 0..bits {
        to |= (from >> bit & 1) << places[bit as usize];
    }
    to
}
