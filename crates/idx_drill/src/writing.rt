//! The step of a drill is written and published as in a real run.
ghost use Rattle.std.specs.Prelude.{◌≡◌, ◌<◌, ◌≤◌, ◌^◌, IfOk, IfSome, List, OnOk, [], length, map, sum, sum_by, vec_len, All, ℕ};
ghost use Rattle.idx_outside.specs.Files.{files_of};
ghost use Rattle.idx_header.specs.Names.{step_folder};
ghost use Rattle.idx_layout.specs.Shape.{shape_of};
ghost use Rattle.idx_hall.specs.Posts.{post_of};
ghost use Rattle.idx_drill_model.specs.Drill.{drill_header, drill_volume};
ghost use Rattle.idx_drill.specs.Drilled.{drill_files, drill_ranks};
ghost use Rattle.idx_drill.specs.Runs.{IsAskedBelow, IsDrillPost};

use idx_edition::{Edition, block_lengths};
use idx_gather::{GatherFault, gather};
use idx_hall::{Hall, PublishRefusal};
use idx_header::Header;
use idx_memory::{MemBay, MemLeaf, SureSource};
use idx_outside::{Bay, Blocks, Bytes, FreeGate, MemFile, NoMemory};
use std::alloc::Global;
use std::sync::Arc;
use std::thread::Threads;

/// So many ranks write the step.
pub(crate) const RANKS: u32 = 4;

/// So many blocks are cached at most.
pub(crate) const CAPACITY: u32 = 64;

/// A step that was written and published: how many ranks gathered it, how many files it has, how many bytes these have
/// together, and the hall in which it stands.
#[derive(Drop)]
pub(crate) struct Published {
    pub(crate) ranks: u64,
    pub(crate) files: u64,
    pub(crate) bytes: u64,
    pub(crate) hall: Hall<Edition<MemLeaf>>,
}

/// A step that was gathered: the number of raw volumes that gave it, one for each rank, and its blocks.
#[derive(Drop)]
struct Written {
    ranks: u64,
    edition: Edition<MemLeaf>,
}

/// Writes the step of a drill out of its volume, by four ranks, and publishes it in a new hall. A store in memory that finds
/// none ends it as want of memory.
pub(crate) fn write_step<T: Threads + Sync>(
    rt: &T,
    alloc: Global,
    number: u32,
    header: &Header,
    volume: &Bytes,
) -> Result<Published, NoMemory>
    requires some { 1 ≤ number }
    requires few { number ≤ 8 }
    requires header { header.now ≡ drill_header number }
    requires volume { volume.now ≡ drill_volume number }
    ensures ranks { IfOk result (λ step. step.ranks ≡ drill_ranks) }
    ensures files { IfOk result (λ step. step.files ≡ length (drill_files number)) }
    ensures bytes { IfOk result (λ step. step.bytes ≡ sum (map (λ file. length file.1) (drill_files number))) }
    ensures hall { IfOk result (λ step. IsAskedBelow number 0 step.hall) }
{
    let mut bay = begun_bay(alloc, number, header)?;
    let written = gathered(rt, alloc, number, header, volume, &mut bay)?;
    Ok(Published {
        ranks: written.ranks,
        files: bay.committed().len() as u64,
        bytes: bytes_of(bay.committed()),
        hall: publish(alloc, number, header, written.edition)?,
    })
}

/// An empty store in memory, in which the step is begun.
fn begun_bay(alloc: Global, number: u32, header: &Header) -> Result<MemBay, NoMemory>
    requires header { header.now ≡ drill_header number }
    ensures begun { IfOk result (λ bay. bay.begun ≡ step_folder header.now 0) }
    ensures files { IfOk result (λ bay. bay.files ≡ []) }
{
    let mut bay = MemBay::new(
        Bytes::new(alloc),
        Vec::new(alloc),
        Vec::new(alloc),
        Vec::new(alloc),
    );
    let Some(folder) = header.step_folder(alloc, 0)? else {
        unreachable!()
    };
    match bay.begin_step(folder.as_slice()) {
        Ok(()) => Ok(bay),
        Err(_) => Err(NoMemory),
    }
}

/// Writes the step into an empty store in which it is begun, and answers it as blocks, with the number of its ranks.
fn gathered<T: Threads + Sync>(
    rt: &T,
    alloc: Global,
    number: u32,
    header: &Header,
    volume: &Bytes,
    bay: &mut MemBay,
) -> Result<Written, NoMemory>
    requires some { 1 ≤ number }
    requires few { number ≤ 8 }
    requires header { header.now ≡ drill_header number }
    requires volume { volume.now ≡ drill_volume number }
    requires begun { bay.old.begun ≡ step_folder header.now 0 }
    requires files { bay.old.files ≡ [] }
    ensures ranks { IfOk result (λ step. step.ranks ≡ drill_ranks) }
    ensures files { OnOk result ((folder : List ℕ) × (bay.new.files ≡ files_of folder (drill_files number))) }
    ensures time { IfOk result (λ step. ⟦<Edition<MemLeaf> as Blocks>⟧.time step.edition ≡ 0) }
    ensures shape { IfOk result (λ step. ⟦<Edition<MemLeaf> as Blocks>⟧.shape step.edition ≡ shape_of header.now) }
    ensures post { IfOk result (λ step. IsDrillPost number (post_of (shape_of header.now) 0
        (⟦<Edition<MemLeaf> as Blocks>⟧.has step.edition) (⟦<Edition<MemLeaf> as Blocks>⟧.stored step.edition))) }
{
    let mut raws = copies(alloc, volume)?;
    match gather(rt, alloc, header, 0, &mut raws, bay, &FreeGate) {
        Ok(edition) => Ok(Written {
            ranks: raws.len() as u64,
            edition,
        }),
        Err(GatherFault::RawWrongSize { .. }) => unreachable!(),
        Err(GatherFault::RawFault { .. }) => unreachable!(),
        Err(GatherFault::NoMemory | GatherFault::StoreFault { .. }) => Err(NoMemory),
    }
}

/// The raw volume, once for each rank.
fn copies(alloc: Global, volume: &Bytes) -> Result<Vec<SureSource>, NoMemory>
    ensures number { IfOk result (λ raws. vec_len raws ≡ drill_ranks) }
    ensures bytes { IfOk result (λ raws. All (λ raw. raw.bytes ≡ volume.now) raws.items) }
{
    let mut raws = Vec::new(alloc);
    for _ in 0..RANKS {
        raws.push(SureSource::new(Bytes::from_slice(alloc, volume.as_slice())?))?;
    }
    Ok(raws)
}

/// How many bytes files have together.
fn bytes_of(files: &Vec<MemFile>) -> u64
    requires { sum_by (λ file. length file.bytes) files.now.items < 2 ^ 64 }
    ensures { result ≡ sum_by (λ file. length file.bytes) files.now.items }
{
    let mut bytes = 0;
    for file in files {
        bytes += file.bytes.len() as u64;
    }
    bytes
}

/// A new hall with the step alone.
fn publish(
    alloc: Global,
    number: u32,
    header: &Header,
    edition: Edition<MemLeaf>,
) -> Result<Hall<Edition<MemLeaf>>, NoMemory>
    requires header { header.now ≡ drill_header number }
    requires time { ⟦<Edition<MemLeaf> as Blocks>⟧.time edition ≡ 0 }
    requires shape { ⟦<Edition<MemLeaf> as Blocks>⟧.shape edition ≡ shape_of header.now }
    requires post { IsDrillPost number (post_of (shape_of header.now) 0
        (⟦<Edition<MemLeaf> as Blocks>⟧.has edition) (⟦<Edition<MemLeaf> as Blocks>⟧.stored edition)) }
    ensures { IfOk result (IsAskedBelow number 0) }
{
    let lengths = block_lengths(alloc, header)?;
    let mut hall = Hall::new(alloc, CAPACITY, header.block_count(), lengths)?;
    let shared = Arc::new(alloc, edition)?;
    match hall.publish(shared, None) {
        Ok(_) => Ok(hall),
        Err((_, PublishRefusal::NoMemory)) => Err(NoMemory),
        Err((_, PublishRefusal::AlreadyPublished { .. })) => unreachable!(),
    }
}
