ghost use Rattle.std.specs.Prelude.{◌≡◌};
ghost use Rattle.idx_words.specs.CutGrammar.{volume_bytes, IsSound};

use idx_geom::Region;
use idx_hz::Mask;

/// The values that the words of `cut` stand for.
#[derive(Clone, Copy, Debug)]
pub struct CutWords {
    /// How many bytes a sample has, 1 to 64.
    pub size: u64,
    /// The box that the raw volume fills.
    pub extent: Region,
    /// The mask of the Z order.
    pub mask: Mask,
    /// The part of the box that is asked for.
    pub region: Region,
    /// The coarsest level that is asked for.
    pub lo: u64,
    /// The finest level that is asked for.
    pub hi: u64,
}

impl CutWords {
    /// How many bytes the raw volume has.
    pub fn volume_bytes(&self) -> u64
        requires { IsSound self.now }
        ensures { result ≡ volume_bytes self.now }
    {
        self.extent.count() * self.size
    }

    /// The coarsest and the finest level that are asked for, which are at most the mask's length.
    pub fn levels(&self) -> (u32, u32)
        requires { IsSound self.now }
        ensures { result ≡ (self.now.lo, self.now.hi) }
    {
        let deepest = u64::from(self.mask.len());
        (self.lo.min(deepest) as u32, self.hi.min(deepest) as u32)
    }
}
