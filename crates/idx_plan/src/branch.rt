ghost use Rattle.std.specs.Prelude.{◌≡◌, ◌+◌, ◌-◌, ◌*◌, ◌^◌, ◌<◌, ◌≤◌};

/// Blocks of one level whose numbers begin alike: 2^`height` of them. A block of the level has as its number a 1 and then
/// the first digits of its points' Z addresses; `number` is a 1 and then `digits` of them.
#[derive(Clone, Copy, Debug)]
pub(crate) struct Branch {
    /// A block has 2^`bits` addresses.
    pub(crate) bits: u32,
    /// How many digits are known.
    pub(crate) digits: u32,
    /// How many are not.
    pub(crate) height: u32,
    /// A 1, and then the known digits.
    pub(crate) number: u64,
}

impl Branch {
    /// All blocks of 2^`bits` addresses of a level, block 0 apart.
    pub(crate) fn of_level(bits: u32, level: u32) -> Branch
        requires { bits < level }
        ensures { result ≡ record {
          bits = bits;
          digits = 0;
          height = level - 1 - bits;
          number = 1;
        } }
    {
        Branch {
            bits,
            digits: 0,
            height: level - 1 - bits,
            number: 1,
        }
    }

    /// The half of a branch whose next digit is `bit`.
    pub(crate) fn half(&self, bit: u64) -> Branch
        requires some { 1 ≤ self.now.height }
        requires digits { self.now.digits ≤ 40 }
        requires number { self.now.number ≤ 2 ^ 41 }
        requires bit { bit < 2 }
        ensures { result ≡ record {
          bits = self.now.bits;
          digits = self.now.digits + 1;
          height = self.now.height - 1;
          number = 2 * self.now.number + bit;
        } }
    {
        Branch {
            bits: self.bits,
            digits: self.digits + 1,
            height: self.height - 1,
            number: 2 * self.number + bit,
        }
    }
}
