//! What the readings of all ranks come to: the least failed rank before want of memory.
ghost use Rattle.std.specs.Prelude.{◌≡◌, ℕ, ◌<◌, ◌≤◌, IfErr, IfNone, IfOk, IfSome, None, Ok, map, slice_index_or, vec_len};
ghost use Rattle.idx_ranks.specs.Settled.{IsLeastFault, IsWhy, NoneFailed};

use crate::RanksFault;
use idx_outside::NoMemory;
use idx_pieces::{Parcel, RawRefusal};
use std::alloc::Global;

/// The parcels of all ranks, where no reading failed. `RawFault` where a call on a raw volume failed, by the least such
/// rank, else `NoMemory` where some reading ended for want of memory.
pub(crate) fn settled(
    alloc: Global,
    reads: Vec<Result<Vec<Parcel>, RawRefusal>>,
) -> Result<Vec<Vec<Parcel>>, RanksFault>
    requires few { vec_len reads ≤ 256 }
    ensures all { IfOk result (λ queues. reads.items ≡ map Ok queues.items) }
    ensures why { IfErr result (IsWhy reads.items) }
{
    if let Some((rank, faults)) = least_fault(&reads) {
        return Err(RanksFault::RawFault { rank, faults });
    }
    match all_read(alloc, reads) {
        Ok(queues) => Ok(queues),
        Err(_) => Err(RanksFault::NoMemory),
    }
}

/// The least rank with a call on its raw volume that failed, and that volume's count of faults.
fn least_fault(reads: &Vec<Result<Vec<Parcel>, RawRefusal>>) -> Option<(u32, u64)>
    requires few { vec_len reads.now ≤ 256 }
    ensures some { IfSome result (λ found. IsLeastFault reads.now.items found.0 found.1) }
    ensures none { IfNone result (NoneFailed reads.now.items (vec_len reads.now)) }
{
    for rank in 0..reads.len() {
        if let Err(RawRefusal::RawFault { faults }) = &reads[rank] {
            return Some((rank as u32, *faults));
        }
    }
    None
}

/// What was read, where no reading failed.
fn all_read(
    alloc: Global,
    reads: Vec<Result<Vec<Parcel>, RawRefusal>>,
) -> Result<Vec<Vec<Parcel>>, NoMemory>
    ensures { IfOk result (λ all. reads.items ≡ map Ok all.items) }
{
    let mut all = Vec::new(alloc);
    for read in reads {
        match read {
            Ok(parcels) => all.push(parcels)?,
            Err(_) => return Err(NoMemory),
        }
    }
    Ok(all)
}
