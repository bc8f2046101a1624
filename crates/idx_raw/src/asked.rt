ghost use Rattle.std.specs.Prelude.{◌≡◌};
ghost use Rattle.idx_raw.specs.Cut.{IsSound, volume_bytes};

use idx_geom::Region;
use idx_hz::Mask;

/// What is cut out of a raw volume of one field.
#[derive(Clone, Copy, Debug)]
pub struct Cut {
    /// How many bytes a sample has, 1 to 64.
    pub size: u64,
    /// The box that the raw volume fills: one sample for each of its points, in row-major order, axis 0 fastest.
    pub extent: Region,
    /// The mask of the Z order.
    pub mask: Mask,
    /// The part of the box that is asked for.
    pub region: Region,
    /// The coarsest level that is asked for.
    pub lo: u32,
    /// The finest level that is asked for, at most the mask's length.
    pub hi: u32,
}

impl Cut {
    /// How many bytes the raw volume has, at most 2^30.
    pub fn volume_bytes(&self) -> u64
        requires { IsSound self.now }
        ensures { result ≡ volume_bytes self.now }
    {
        self.extent.count() * self.size
    }
}
