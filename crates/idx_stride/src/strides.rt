ghost use Rattle.std.specs.Prelude.{◌≡◌, ℕ, ◌+◌, ◌-◌, ◌*◌, ◌^◌, ◌<◌, ◌≤◌, ◌↔◌, All, List, [], ◌∷◌, ◌++◌, IfNone, IfSome, IsNone, IsTrue, drop, false, filter, length, take};
ghost use Rattle.idx_stride.specs.Compact.{IsCompact, IsPacked, is_wide};
ghost use Rattle.idx_stride.specs.Parts.{AreHalves, walk_part};
ghost use Rattle.idx_stride.specs.Places.{progression, samples_at};
ghost use Rattle.idx_stride.specs.Strides.{IsStrides, end_of, grid_points, offsets_of, reach};
ghost use Rattle.idx_stride.specs.Written.{gathered};

use crate::gather::gather;
use crate::{Axis, NO_AXIS, axes};
use idx_geom::MAX_AXES;
use idx_lanes::{Sample, by_size};
use std::marker::Model;

/// A walk over the samples of a grid of at most five axes in a row-major volume of bytes, axis 0 fastest.
#[derive(Clone, Copy, Debug)]
pub struct Strides {
    base: u64,
    size: u64,
    coarse: bool,
    axes: [Axis; MAX_AXES],
    number: usize,
}

impl Model for Strides {
    ghost use Rattle.idx_stride.specs.Strides.{Walk};

    ghost Value = { Walk };

    ghost use Rattle.idx_stride.specs.StridesFields.{IsStored, fields, fields_again, walk_of};

    ghost view = { walk_of };

    ghost invariant = { IsStored };

    ghost inverse = { fields };

    ghost inverse_ok = { fields_again };
}

impl Strides {
    /// The walk from this place on, with samples of so many bytes, along these axes, fastest first. Where `coarse` is
    /// true the points that are coarse on all axes are left out.
    pub fn new(base: u64, size: u64, coarse: bool, axes: &[Axis]) -> Strides
        requires { IsStrides (record { base = base; size = size; coarse = coarse; axes = axes.now }) }
        ensures { result ≡ record { base = base; size = size; coarse = coarse; axes = axes.now } }
    {
        let mut stored = [NO_AXIS; MAX_AXES];
        stored[..axes.len()].copy_from_slice(axes);
        Strides {
            base,
            size,
            coarse,
            axes: stored,
            number: axes.len(),
        }
    }

    /// The place of the first point of the grid, which is left out where it is coarse on all axes. No sample lies
    /// before it.
    pub fn first(&self) -> u64
        ensures base { result ≡ self.now.base }
        ensures lowest { All (λ o. result ≤ o) (offsets_of self.now) }
        ensures valid { IsStrides self.now }
    {
        self.base
    }

    /// The bytes of a sample, 1 to 64.
    pub fn size(&self) -> u64
        ensures bytes { result ≡ self.now.size }
        ensures some { 1 ≤ result }
        ensures few { result ≤ 64 }
    {
        self.size
    }

    /// Whether the points that are coarse on all axes are left out.
    pub fn leaves_out_coarse(&self) -> bool
        ensures { result ≡ self.now.coarse }
    {
        self.coarse
    }

    /// The axes, fastest first.
    pub fn axes(&self) -> &[Axis]
        ensures axes { result.now ≡ self.now.axes }
        ensures valid { IsStrides self.now }
    {
        &self.axes[..self.number]
    }

    /// The place behind the last point of the grid, at most 2^62. No sample reaches behind it.
    pub fn end(&self) -> u64
        ensures end { result ≡ end_of self.now }
        ensures highest { All (λ o. o + self.now.size ≤ result) (offsets_of self.now) }
    {
        self.first() + axes::reach(self.axes()) + self.size()
    }

    /// How many samples there are, at most 2^40.
    pub fn count(&self) -> u64
        ensures count { result ≡ length (offsets_of self.now) }
        ensures few { result ≤ 2 ^ 40 }
    {
        let (all, coarse) = axes::points(self.axes());
        if self.leaves_out_coarse() {
            all - coarse
        } else {
            all
        }
    }

    /// Whether the samples are seen to be one piece of bytes, from the first place on, with no gap: nothing is left
    /// out, and each axis of more than one coordinate steps over what the faster ones fill.
    pub fn is_dense(&self) -> bool
        ensures dense { IsTrue result →
            offsets_of self.now ≡ progression self.now.base self.now.size (length (offsets_of self.now)) }
        ensures packed { self.now.coarse ≡ false →
            IsPacked self.now.size (filter is_wide self.now.axes) → IsTrue result }
    {
        let walk = self.compact();
        !walk.leaves_out_coarse() && axes::is_packed(walk.axes(), walk.size())
    }

    /// The most bytes between a point and the next one: of use for speed alone, and no clause promises it.
    pub fn widest_gap(&self) -> u64 {
        let walk = self.compact();
        axes::widest_gap(walk.axes(), walk.size())
    }

    /// Two walks, the second behind the first, with the samples of this one: `None` exactly where the grid has one
    /// point. Each has fewer points.
    pub fn halves(&self) -> Option<(Strides, Strides)>
        ensures none { IsNone result ↔ (grid_points self.now.axes ≡ 1) }
        ensures one { IfNone result (end_of self.now ≡ self.now.base + self.now.size) }
        ensures halves { IfSome result (λ halves. AreHalves self.now halves.0 halves.1) }
    {
        let walk = self.compact();
        let [faster @ .., slowest] = walk.axes() else {
            return None;
        };
        let half = slowest.count / 2;
        Some((
            walk.part(faster, slowest, 0, half),
            walk.part(faster, slowest, half, slowest.count - half),
        ))
    }

    /// Copies the samples, one behind the other. The window has the bytes from place `at` on, as far as the walk needs
    /// them.
    pub fn gather(&self, window: &[u8], at: u64, out: &mut [u8])
        requires first { at ≤ self.now.base }
        requires end { end_of self.now ≤ at + length window.now }
        requires room { length out.old ≡ length (offsets_of self.now) * self.now.size }
        ensures { (bytes : List ℕ) → window.now ≡ take (length window.now) (drop at bytes) →
            out.new ≡ samples_at self.now.size bytes (offsets_of self.now) }
    {
        let walk = self.compact();
        let base = (self.first() - at) as usize;
        walk.fill(window, base, out);
    }

    /// The same places along axes of more than one coordinate each.
    fn compact(&self) -> Strides
        ensures { IsCompact self.now result }
    {
        let (axes, number) = axes::wide(self.axes());
        let coarse = axes::stay_coarse(self.axes(), self.leaves_out_coarse());
        Strides::new(self.first(), self.size(), coarse, &axes[..number])
    }

    /// The walk along these axes and so many coordinates of the slowest one, from this one on.
    fn part(&self, faster: &[Axis], slowest: &Axis, from: u64, count: u64) -> Strides
        requires valid { IsStrides self.now }
        requires whole { self.now.axes ≡ faster.now ++ slowest.now ∷ [] }
        requires some { 1 ≤ count }
        requires within { from + count ≤ slowest.now.count }
        ensures { result ≡ walk_part self.now faster.now slowest.now from count }
    {
        let (axes, number) = axes::with_slowest(faster, slowest.part(from, count));
        let base = self.first() + from * slowest.step;
        Strides::new(base, self.size(), self.leaves_out_coarse(), &axes[..number])
    }

    /// Copies the samples from place `base` of the window on.
    fn fill(&self, window: &[u8], base: usize, out: &mut [u8])
        requires valid { IsStrides self.now }
        requires wide { All (λ a. 1 < a.count) self.now.axes }
        requires read { base + reach self.now.axes + self.now.size ≤ length window.now }
        requires room { length out.old ≡ length (gathered self.now.size window.now base self.now.coarse self.now.axes) }
        ensures { out.new ≡ gathered self.now.size window.now base self.now.coarse self.now.axes }
    {
        by_size!(self.size() as usize, sample => self.fill_by(sample, window, base, out));
    }

    /// The same by samples that are copied in this way.
    fn fill_by<S: Sample>(&self, sample: S, window: &[u8], base: usize, out: &mut [u8])
        requires valid { IsStrides self.now }
        requires wide { All (λ a. 1 < a.count) self.now.axes }
        requires size { S.bytes sample ≡ self.now.size }
        requires read { base + reach self.now.axes + self.now.size ≤ length window.now }
        requires room { length out.old ≡ length (gathered self.now.size window.now base self.now.coarse self.now.axes) }
        ensures { out.new ≡ gathered self.now.size window.now base self.now.coarse self.now.axes }
    {
        let coarse = self.leaves_out_coarse();
        gather(sample, self.axes(), window, base, coarse, out, 0);
    }
}
