ghost use Rattle.std.specs.Prelude.{◌≡◌, ◌^◌, ◌≤◌};

/// Consecutive hierarchical addresses: 2^bits of them, from number * 2^bits on. Each of them is that of a point.
#[derive(Clone, Copy, Debug)]
pub(crate) struct Span {
    /// How many binary digits the place of an address in the span has.
    pub(crate) bits: u32,
    /// The first address by 2^bits.
    pub(crate) number: u64,
}

impl Span {
    /// How many addresses there are.
    pub(crate) fn len(&self) -> u64
        requires { self.now.bits ≤ 20 }
        ensures value { result ≡ 2 ^ self.now.bits }
        ensures few { result ≤ 2 ^ 20 }
    {
        1 << self.bits
    }
}
