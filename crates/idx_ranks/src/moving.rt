//! Raw volumes, moved into jobs and back.
ghost use Rattle.std.specs.Prelude.{◌≡◌, ◌+◌, ◌<◌, ◌≤◌, ◌++◌, ◌∷◌, [], All, IfOk, OnErr, OnOk, vec_capacity, vec_len};
ghost use Rattle.std.specs.List.{range_with_len};
ghost use Rattle.idx_ranks.specs.Jobs.{IsBegun, ranks_of, raws_of, reads_of, region_of};

use crate::job::Job;
use idx_geom::Region;
use idx_header::Header;
use idx_outside::{NoMemory, Source};
use idx_pieces::{Parcel, RawRefusal, rank_count, rank_region};
use std::alloc::Global;

/// A job for each raw volume, which is moved into it. After a refusal the raw volumes are as they were.
pub(crate) fn make_jobs<V: Source>(
    alloc: Global,
    header: &Header,
    raws: &mut Vec<V>,
) -> Result<Vec<Job<V>>, NoMemory>
    requires few { vec_len raws.old ≤ 256 }
    requires room { vec_len raws.old ≤ vec_capacity raws.old }
    ensures raws { IfOk result (λ jobs. raws_of jobs.items ≡ raws.old.items) }
    ensures ranks { IfOk result (λ jobs. ranks_of jobs.items ≡ range_with_len 0 (vec_len raws.old)) }
    ensures begun { IfOk result (λ jobs. All (IsBegun header.now.box (vec_len raws.old)) jobs.items) }
    ensures empty { OnOk result (raws.new.items ≡ []) }
    ensures refused { OnErr result (raws.new.items ≡ raws.old.items) }
    ensures room { vec_capacity raws.new ≡ vec_capacity raws.old }
{
    let count = raws.len();
    let mut jobs = Vec::with_capacity(alloc, count)?;
    for taken in 0..count {
        let job = last_job(header, count as u32, raws);
        jobs.insert(0, job).unwrap();
    }
    Ok(jobs)
}

/// A job for the last raw volume, which is moved into it. Its rank is one of `n` that may have a part.
fn last_job<V: Source>(header: &Header, n: u32, raws: &mut Vec<V>) -> Job<V>
    requires some { 0 < vec_len raws.old }
    requires few { vec_len raws.old ≤ 256 }
    ensures raws { raws.old.items ≡ raws.new.items ++ result.raw ∷ [] }
    ensures fewer { vec_len raws.old ≡ vec_len raws.new + 1 }
    ensures rank { result.rank ≡ vec_len raws.new }
    ensures begun { IsBegun header.now.box n result }
    ensures room { vec_capacity raws.new ≡ vec_capacity raws.old }
{
    let raw = raws.pop().unwrap();
    let rank = raws.len() as u32;
    Job {
        raw,
        region: region_of(header, n, rank),
        rank,
        read: Err(RawRefusal::NoMemory),
    }
}

/// The region of a rank, of `n` that may have a part, where it has one.
fn region_of(header: &Header, n: u32, rank: u32) -> Option<Region>
    ensures { result ≡ region_of header.now.box n rank }
{
    let whole = header.region();
    if rank < rank_count(&whole, n) {
        return Some(rank_region(&whole, n, rank));
    }
    None
}

/// The raw volumes of the jobs, back in their places, and what was read.
pub(crate) fn give_back<V: Source>(
    mut jobs: Vec<Job<V>>,
    raws: &mut Vec<V>,
    reads: &mut Vec<Result<Vec<Parcel>, RawRefusal>>,
)
    requires empty { vec_len raws.old ≡ 0 }
    requires room { vec_len jobs ≤ vec_capacity raws.old }
    requires no_reads { vec_len reads.old ≡ 0 }
    requires reads_room { vec_len jobs ≤ vec_capacity reads.old }
    ensures raws { raws.new.items ≡ raws_of jobs.items }
    ensures reads { reads.new.items ≡ reads_of jobs.items }
{
    let count = jobs.len();
    for taken in 0..count {
        let Job {
            raw,
            region: _region,
            rank: _rank,
            read,
        } = jobs.pop().unwrap();
        raws.insert(0, raw).unwrap();
        reads.insert(0, read).unwrap();
    }
    jobs.destroy_empty();
}
