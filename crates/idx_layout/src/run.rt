ghost use Rattle.std.specs.Prelude.{◌≡◌, ◌+◌, ◌*◌, ◌^◌, ◌<◌, ◌≤◌};
ghost use Rattle.idx_layout.specs.Runs.{first_of_run};

/// A run of 2^height consecutive blocks, whose first one is number * 2^height.
#[derive(Clone, Copy, Debug)]
pub(crate) struct Run {
    pub(crate) height: u32,
    pub(crate) number: u64,
}

impl Run {
    /// A run that begins where this one ends: twice as long where its first block allows that, but no longer than 2^most
    /// blocks, and else as long.
    pub(crate) fn behind(&self, most: u32) -> Run
        requires height { self.now.height ≤ most }
        requires most { most ≤ 40 }
        requires number { self.now.number < 2 ^ 40 }
        ensures begins { first_of_run result ≡ first_of_run self.now + 2 ^ self.now.height }
        ensures height { result.height ≤ most }
    {
        let number = self.number + 1;
        if self.height < most && number % 2 == 0 {
            Run {
                height: self.height + 1,
                number: number / 2,
            }
        } else {
            Run {
                height: self.height,
                number,
            }
        }
    }
}
