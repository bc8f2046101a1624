ghost use Rattle.std.specs.Prelude.{◌≡◌, ℕ, ◌+◌, ◌≤◌, ◌<◌, length, take, drop};
ghost use Rattle.idx_lanes.specs.Written.{written};

/// How the bytes of one sample are copied: known at compile time, or not.
pub trait Sample: Copy {
    /// How many bytes a sample has.
    ghost bytes: { Self → ℕ };

    /// How many bytes a sample has.
    fn bytes(self) -> usize
        ensures { result ≡ bytes self };

    /// Copies the sample at place `from` of the window to place `at` of `out`.
    fn copy(self, window: &[u8], from: usize, out: &mut [u8], at: usize)
        requires some { 0 < bytes self }
        requires read { from + bytes self ≤ length window.now }
        requires write { at + bytes self ≤ length out.old }
        ensures { out.new ≡ written at (take (bytes self) (drop from window.now)) out.old };
}

/// Samples of `N` bytes.
#[derive(Clone, Copy)]
pub struct Fixed<const N: usize>;

impl<const N: usize> Sample for Fixed<N> {
    ghost bytes = { λ _. N };

    fn bytes(self) -> usize {
        N
    }

    fn copy(self, window: &[u8], from: usize, out: &mut [u8], at: usize) {
        let (chunks, _) = window[from..from + N].as_chunks::<N>();
        let sample = chunks[0];
        out[at..at + N].copy_from_slice(&sample);
    }
}

/// Samples of so many bytes.
#[derive(Clone, Copy)]
pub struct AnySize {
    /// How many bytes a sample has.
    pub bytes: usize,
}

impl Sample for AnySize {
    ghost bytes = { λ s. s.bytes };

    fn bytes(self) -> usize {
        self.bytes
    }

    fn copy(self, window: &[u8], from: usize, out: &mut [u8], at: usize) {
        out[at..at + self.bytes].copy_from_slice(&window[from..from + self.bytes]);
    }
}

/// Evaluates an expression with the way in which samples of so many bytes are copied: once for each usual size, which
/// the compiler then knows, and once for all others. So `by_size!(size, sample => walk(sample, lanes))`.
#[macro_export]
macro_rules! by_size {
    ($size:expr, $sample:ident => $copy:expr) => {
        match $size {
            1 => {
                let $sample = $crate::Fixed::<1>;
                $copy
            }
            2 => {
                let $sample = $crate::Fixed::<2>;
                $copy
            }
            3 => {
                let $sample = $crate::Fixed::<3>;
                $copy
            }
            4 => {
                let $sample = $crate::Fixed::<4>;
                $copy
            }
            8 => {
                let $sample = $crate::Fixed::<8>;
                $copy
            }
            12 => {
                let $sample = $crate::Fixed::<12>;
                $copy
            }
            16 => {
                let $sample = $crate::Fixed::<16>;
                $copy
            }
            24 => {
                let $sample = $crate::Fixed::<24>;
                $copy
            }
            bytes => {
                let $sample = $crate::AnySize { bytes };
                $copy
            }
        }
    };
}
