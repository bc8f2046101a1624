ghost use Rattle.std.specs.Prelude.{◌≡◌, ◌≤◌, IfNone, IfSome};
ghost use Rattle.idx_raw.specs.Reads.{span_of};
ghost use Rattle.idx_stride.specs.Parts.{AreHalves};
ghost use Rattle.idx_stride.specs.Strides.{IsStrides};

use idx_stride::Strides;

/// Samples that are not one piece are read by way of a window of at most so many bytes, which fit a processor's cache.
const WIDEST_WINDOW: u64 = 1 << 18;

/// One read passes over at most so many bytes between two samples: about as many as a read of its own would cost.
const WIDEST_GAP: u64 = 1 << 12;

/// The bytes from the first place to the end.
pub(crate) fn span(strides: &Strides) -> u64
    ensures bytes { result ≡ span_of strides.now }
    ensures valid { IsStrides strides.now }
{
    strides.end() - strides.first()
}

/// How large a window the walk needs: as much as one read brings, and a sample at least.
pub(crate) fn window_size(strides: &Strides) -> u64
    ensures some { strides.now.size ≤ result }
    ensures few { result ≤ WIDEST_WINDOW }
{
    let mut needed = strides.size();
    for axis in strides.axes() {
        if axis.count > 1 {
            if axis.step.saturating_sub(needed) > WIDEST_GAP {
                break;
            }
            let reach = (axis.count - 1).saturating_mul(axis.step);
            needed = needed.saturating_add(reach).min(WIDEST_WINDOW);
        }
    }
    needed
}

/// The halves of a walk that does not fit a window of so many bytes, or where reading it whole would pass over many
/// bytes.
pub(crate) fn halves_to_read(strides: &Strides, room: u64) -> Option<(Strides, Strides)>
    requires { strides.now.size ≤ room }
    ensures halves { IfSome result (λ halves. AreHalves strides.now halves.0 halves.1) }
    ensures fits { IfNone result (span_of strides.now ≤ room) }
{
    if span(strides) <= room && strides.widest_gap() <= WIDEST_GAP {
        None
    } else {
        strides.halves()
    }
}
