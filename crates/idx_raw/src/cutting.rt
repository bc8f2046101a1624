ghost use Rattle.std.specs.Prelude.{◌≡◌, ◌<◌, ◌≤◌, Err, IfErr, IfOk, IfSome, OnOk};
ghost use Rattle.idx_outside.specs.Cause.{MeetsOnce, NeverFalls, Rose};
ghost use Rattle.idx_raw.specs.Cut.{HasOtherSize, HasSize, IsCause, IsSound, IsWrongSize, cut_output};
ghost use Rattle.idx_raw.specs.Reads.{AreSamples, FitsIn};

use crate::read::read_samples;
use crate::read_fault::ReadFault;
use crate::{Cut, CutFault};
use idx_outside::Source;
use idx_stride::Strides;
use idx_walk::walk;
use std::alloc::Global;

/// Reads, in row-major order, the samples of the region's points whose level is one of those that are asked for. The
/// first refusal ends it, in this order: the length of the raw volume, and reading it. Nothing is read of a raw volume of
/// another length. The memory of the samples is taken once.
pub fn cut<V: Source>(alloc: Global, cut: &Cut, raw: &mut V) -> Result<Vec<u8>, CutFault>
    requires sound { IsSound cut.now }

    // The raw volume has the length that is asked for, and these are the samples.
    ensures size { OnOk result (HasSize cut.now (V.contents raw.old)) }
    ensures answer { IfOk result (λ samples.
        IfSome (V.contents raw.old) (λ bytes. samples.items ≡ cut_output cut.now bytes)) }

    // Each refusal has its cause, and a fault that was counted is answered.
    ensures cause { IfErr result (IsCause cut.now (V.contents raw.old) (V.faults raw.old) (V.faults raw.new)) }
    ensures quiet { OnOk result (V.faults raw.new ≡ V.faults raw.old) }
    ensures answered { V.faults raw.old < V.faults raw.new → result ≡ Err CutFault.RawFault }

    // Where the length is refused, or is known to be another one, no byte was asked for.
    ensures refused_unread { IfErr result (λ fault. IsWrongSize fault → V.asked raw.new ≡ V.asked raw.old) }
    ensures other_unread { HasOtherSize cut.now (V.contents raw.old) → V.asked raw.new ≡ V.asked raw.old }

    ensures contents { V.contents raw.new ≡ V.contents raw.old }
    ensures count { NeverFalls (V.faults raw.old) (V.faults raw.new) }
    ensures once { MeetsOnce (V.faults raw.old) (V.faults raw.new) }
{
    let want = cut.volume_bytes();
    let Ok(found) = raw.len() else {
        return Err(CutFault::RawFault);
    };
    if found != want {
        return Err(CutFault::RawWrongSize { want, found });
    }
    match read_answer(alloc, cut, raw) {
        Ok(samples) => Ok(samples),
        Err(ReadFault::Outage) => Err(CutFault::RawFault),
        Err(ReadFault::NoMemory) => Err(CutFault::NoMemory),
    }
}

/// Reads the samples out of a raw volume of the right length.
#[tactic(auto, unfolding(crate::specs::Cut::cut_output))]
fn read_answer<V: Source>(alloc: Global, cut: &Cut, raw: &mut V) -> Result<Vec<u8>, ReadFault>
    requires sound { IsSound cut.now }
    requires size { HasSize cut.now (V.contents raw.old) }
    ensures read { IfOk result (λ samples.
        IfSome (V.contents raw.old) (λ bytes. samples.items ≡ cut_output cut.now bytes)) }
    ensures contents { V.contents raw.new ≡ V.contents raw.old }
    ensures quiet { OnOk result (V.faults raw.new ≡ V.faults raw.old) }
    ensures no_memory { result ≡ Err ReadFault.NoMemory → V.faults raw.new ≡ V.faults raw.old }
    ensures outage { result ≡ Err ReadFault.Outage → Rose (V.faults raw.old) (V.faults raw.new) }
    ensures once { MeetsOnce (V.faults raw.old) (V.faults raw.new) }
{
    match walk(
        &cut.mask,
        &cut.extent,
        &cut.region,
        cut.lo,
        cut.hi,
        cut.size,
    ) {
        None => Ok(Vec::new(alloc)),
        Some(strides) => read_walk(alloc, &strides, raw),
    }
}

/// Reads the samples of a walk.
fn read_walk<V: Source>(alloc: Global, strides: &Strides, raw: &mut V) -> Result<Vec<u8>, ReadFault>
    requires within { FitsIn (V.contents raw.old) strides.now }
    requires few { strides.now.size ≤ 64 }
    ensures read { IfOk result (λ samples. AreSamples (V.contents raw.old) strides.now samples.items) }
    ensures contents { V.contents raw.new ≡ V.contents raw.old }
    ensures quiet { OnOk result (V.faults raw.new ≡ V.faults raw.old) }
    ensures no_memory { result ≡ Err ReadFault.NoMemory → V.faults raw.new ≡ V.faults raw.old }
    ensures outage { result ≡ Err ReadFault.Outage → Rose (V.faults raw.old) (V.faults raw.new) }
    ensures once { MeetsOnce (V.faults raw.old) (V.faults raw.new) }
{
    let bytes = (strides.count() * strides.size()) as usize;
    let Ok(mut samples) = Vec::from_elem(alloc, 0u8, bytes) else {
        return Err(ReadFault::NoMemory);
    };
    read_samples(alloc, strides, raw, &mut samples)?;
    Ok(samples)
}
