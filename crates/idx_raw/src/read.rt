ghost use Rattle.std.specs.Prelude.{◌≡◌, ◌*◌, ◌<◌, ◌≤◌, Err, List, OnErr, OnOk, length};
ghost use Rattle.idx_outside.specs.Cause.{MeetsOnce, Rose};
ghost use Rattle.idx_raw.specs.Reads.{AreSamples, FitsIn, span_of};
ghost use Rattle.idx_stride.specs.Places.{progression};
ghost use Rattle.idx_stride.specs.Strides.{offsets_of};

use crate::plan::{halves_to_read, span, window_size};
use crate::read_fault::ReadFault;
use idx_outside::{Outage, Source};
use idx_stride::Strides;
use std::alloc::Global;

/// Reads the samples of a walk, one behind the other, by few reads: samples that are one piece by one read, and others
/// by way of a window, which is taken before the first read. After a fault nothing is known of the bytes of `out`.
pub(crate) fn read_samples<V: Source>(
    alloc: Global,
    strides: &Strides,
    raw: &mut V,
    out: &mut [u8],
) -> Result<(), ReadFault>
    requires room { length out.old ≡ length (offsets_of strides.now) * strides.now.size }
    requires within { FitsIn (V.contents raw.old) strides.now }
    ensures read { OnOk result (AreSamples (V.contents raw.old) strides.now out.new) }
    ensures contents { V.contents raw.new ≡ V.contents raw.old }
    ensures quiet { OnOk result (V.faults raw.new ≡ V.faults raw.old) }
    ensures no_memory { result ≡ Err ReadFault.NoMemory → V.faults raw.new ≡ V.faults raw.old }
    ensures outage { result ≡ Err ReadFault.Outage → Rose (V.faults raw.old) (V.faults raw.new) }
    ensures once { MeetsOnce (V.faults raw.old) (V.faults raw.new) }
{
    if strides.count() == 0 {
        return Ok(());
    }
    if strides.is_dense() {
        return read_dense(strides, raw, out).map_err(|_| ReadFault::Outage);
    }
    let Ok(mut window) = Vec::from_elem(alloc, 0u8, window_size(strides) as usize) else {
        return Err(ReadFault::NoMemory);
    };
    read_part(strides, raw, &mut window, out).map_err(|_| ReadFault::Outage)
}

/// Reads the samples of a part of a walk, by way of this window.
fn read_part<V: Source>(
    strides: &Strides,
    raw: &mut V,
    window: &mut [u8],
    out: &mut [u8],
) -> Result<(), Outage>
    requires room { length out.old ≡ length (offsets_of strides.now) * strides.now.size }
    requires within { FitsIn (V.contents raw.old) strides.now }
    requires window { strides.now.size ≤ length window.old }
    ensures read { OnOk result (AreSamples (V.contents raw.old) strides.now out.new) }
    ensures contents { V.contents raw.new ≡ V.contents raw.old }
    ensures quiet { OnOk result (V.faults raw.new ≡ V.faults raw.old) }
    ensures outage { OnErr result (Rose (V.faults raw.old) (V.faults raw.new)) }
    ensures once { MeetsOnce (V.faults raw.old) (V.faults raw.new) }
{
    if strides.count() == 0 {
        return Ok(());
    }
    if strides.is_dense() {
        return read_dense(strides, raw, out);
    }
    match halves_to_read(strides, window.len() as u64) {
        None => read_by_window(strides, raw, window, out),
        Some(halves) => {
            let (front, behind) = halves;
            let middle = (front.count() * front.size()) as usize;
            read_part(&front, raw, window, &mut out[..middle])?;
            read_part(&behind, raw, window, &mut out[middle..])
        }
    }
}

/// Reads samples that are one piece.
fn read_dense<V: Source>(strides: &Strides, raw: &mut V, out: &mut [u8]) -> Result<(), Outage>
    requires dense { offsets_of strides.now ≡
        progression strides.now.base strides.now.size (length (offsets_of strides.now)) }
    requires some { 0 < length (offsets_of strides.now) }
    requires room { length out.old ≡ length (offsets_of strides.now) * strides.now.size }
    requires within { FitsIn (V.contents raw.old) strides.now }
    ensures read { OnOk result (AreSamples (V.contents raw.old) strides.now out.new) }
    ensures contents { V.contents raw.new ≡ V.contents raw.old }
    ensures quiet { OnOk result (V.faults raw.new ≡ V.faults raw.old) }
    ensures outage { OnErr result (Rose (V.faults raw.old) (V.faults raw.new)) }
    ensures once { MeetsOnce (V.faults raw.old) (V.faults raw.new) }
{
    raw.read_at(strides.first(), out)
}

/// Reads the bytes from the first place of a walk to its end, and copies the samples.
fn read_by_window<V: Source>(
    strides: &Strides,
    raw: &mut V,
    window: &mut [u8],
    out: &mut [u8],
) -> Result<(), Outage>
    requires room { length out.old ≡ length (offsets_of strides.now) * strides.now.size }
    requires within { FitsIn (V.contents raw.old) strides.now }
    requires window { span_of strides.now ≤ length window.old }
    ensures read { OnOk result (AreSamples (V.contents raw.old) strides.now out.new) }
    ensures contents { V.contents raw.new ≡ V.contents raw.old }
    ensures quiet { OnOk result (V.faults raw.new ≡ V.faults raw.old) }
    ensures outage { OnErr result (Rose (V.faults raw.old) (V.faults raw.new)) }
    ensures once { MeetsOnce (V.faults raw.old) (V.faults raw.new) }
{
    let part = &mut window[..span(strides) as usize];
    raw.read_at(strides.first(), part)?;
    strides.gather(part, strides.first(), out);
    Ok(())
}
