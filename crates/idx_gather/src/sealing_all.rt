ghost use Rattle.std.specs.Prelude.{◌≡◌, ◌<◌, ◌^◌, ℕ, [], IfErr, IfOk, List, OnOk, drop, length, map, vec_len};
ghost use Rattle.idx_outside.specs.Cause.{NeverFalls};
ghost use Rattle.idx_outside.specs.Counts.{EachMeetsOnce};
ghost use Rattle.idx_outside.specs.Files.{StillAdmits, shown};
ghost use Rattle.idx_outside.specs.Objects.{SameContents, contents_at};
ghost use Rattle.idx_header.specs.Header.{HeaderValue};
ghost use Rattle.idx_header.specs.Names.{file_name};
ghost use Rattle.idx_pieces.specs.Ranks.{rank_count};
ghost use Rattle.idx_seal.specs.Rows.{MeetsOnceOrRow};
ghost use Rattle.idx_gather.specs.Gather.{HasVolume, HaveSame, IsCaused, LeavesFailed, NoneFalls};
ghost use Rattle.idx_gather.specs.States.{AreFirstFiles, HaveSamples};
ghost use Rattle.idx_gather.specs.Streams.{AreOpen};

use crate::closing::close_stream;
use crate::stream::Stream;
use crate::stream_sealing::seal_full;
use crate::streaming::{deliver, open_stream};
use crate::{GatherFault, Opening};
use idx_outside::{Bay, Gate, Source};
use std::alloc::Global;
use std::thread::Threads;

/// Makes and seals all files that are left, window by window.
pub(crate) fn seal_all<V: Source + Send, B: Bay, G: Gate, R: Threads + Sync>(
    rt: &R,
    alloc: Global,
    opening: Opening<B::Leaf>,
    raws: &mut Vec<V>,
    bay: &mut B,
    gate: &G,
) -> Result<Opening<B::Leaf>, GatherFault>
where
    B::Draft: Send,
    B::Leaf: Send,
    requires ranks { vec_len raws.old ≡ opening.ranks }
    requires alike { HaveSame V.contents raws.old.items }
    requires room { opening.room ≡ 2 ^ 28 }
    requires right { HasVolume opening.header (contents_at V.contents raws.old.items 0) }
    requires admits { (file : ℕ) → B.admits bay.old (file_name opening.header opening.step file) }
    requires first { AreFirstFiles opening.layout opening.header opening.step (B.files bay.old)
        (contents_at V.contents raws.old.items 0) opening.files.items (shown B.Leaf.contents opening.leaves.items) }
    ensures same_header { IfOk result (λ done. done.header ≡ opening.header) }
    ensures same_step { IfOk result (λ done. done.step ≡ opening.step) }
    ensures same_ranks { IfOk result (λ done. done.ranks ≡ opening.ranks) }
    ensures same_room { IfOk result (λ done. done.room ≡ opening.room) }
    ensures same_layout { IfOk result (λ done. done.layout ≡ opening.layout) }
    ensures same_pieces { IfOk result (λ done. done.pieces ≡ opening.pieces) }
    ensures same_files { IfOk result (λ done. done.files ≡ opening.files) }
    ensures sealed { IfOk result (λ done. length done.leaves.items ≡ length done.files.items) }
    ensures files_made { IfOk result (λ done. AreFirstFiles opening.layout opening.header opening.step (B.files bay.old)
        (contents_at V.contents raws.old.items 0) opening.files.items (shown B.Leaf.contents done.leaves.items)) }
    ensures cause { IfErr result (IsCaused opening.header (contents_at V.contents raws.old.items 0)
        (map V.faults raws.old.items) (map V.faults raws.new.items) (B.faults bay.old) (B.faults bay.new)) }
    ensures raw_quiet { OnOk result (map V.faults raws.new.items ≡ map V.faults raws.old.items) }
    ensures same { SameContents V.contents raws.old.items raws.new.items }
    ensures idle { drop (rank_count opening.header.box (vec_len raws.old)) raws.new.items
        ≡ drop (rank_count opening.header.box (vec_len raws.old)) raws.old.items }
    ensures raw_count { NoneFalls (map V.faults raws.old.items) (map V.faults raws.new.items) }
    ensures raw_once { EachMeetsOnce (map V.faults raws.old.items) (map V.faults raws.new.items) }
    ensures files { B.files bay.new ≡ B.files bay.old }
    ensures header { B.header bay.new ≡ B.header bay.old }
    ensures begun { B.begun bay.new ≡ B.begun bay.old }
    ensures failed { LeavesFailed (B.files bay.old) (B.files bay.new) (B.failed bay.old) (B.failed bay.new) result }
    ensures count { NeverFalls (B.faults bay.old) (B.faults bay.new) }
    ensures once { MeetsOnceOrRow (B.failed bay.new) opening.ranks (B.faults bay.old) (B.faults bay.new) }
    ensures quiet { OnOk result (B.faults bay.new ≡ B.faults bay.old) }
{
    let mut opening = opening;
    'windows: while !opening.is_sealed() {
        let stream = open_stream(alloc, opening)?;
        opening = drain(rt, alloc, stream, raws, bay, gate)?;
    }
    Ok(opening)
}

/// Reads and delivers all pieces that a window misses, batch by batch, and seals its files as they miss nothing any more.
fn drain<V: Source + Send, B: Bay, G: Gate, R: Threads + Sync>(
    rt: &R,
    alloc: Global,
    stream: Stream<B::Leaf>,
    raws: &mut Vec<V>,
    bay: &mut B,
    gate: &G,
) -> Result<Opening<B::Leaf>, GatherFault>
where
    B::Draft: Send,
    B::Leaf: Send,
    requires ranks { vec_len raws.old ≡ stream.opening.ranks }
    requires alike { HaveSame V.contents raws.old.items }
    requires right { HasVolume stream.opening.header (contents_at V.contents raws.old.items 0) }
    requires admits { (file : ℕ) →
        B.admits bay.old (file_name stream.opening.header stream.opening.step file) }
    requires some { 0 < length stream.docks.items }
    requires none { stream.sealed.items ≡ [] }
    requires state { AreOpen stream.opening.header stream.opening.pieces.items
        (drop (length stream.opening.leaves.items) stream.opening.files.items) [] stream.left.items stream.docks.items }
    requires empty { (h : HeaderValue) (sample : ℕ → List ℕ → List ℕ) → HaveSamples h sample stream.docks.items }
    requires first { AreFirstFiles stream.opening.layout stream.opening.header stream.opening.step (B.files bay.old)
        (contents_at V.contents raws.old.items 0) stream.opening.files.items
        (shown B.Leaf.contents stream.opening.leaves.items) }
    ensures same_header { IfOk result (λ done. done.header ≡ stream.opening.header) }
    ensures same_step { IfOk result (λ done. done.step ≡ stream.opening.step) }
    ensures same_ranks { IfOk result (λ done. done.ranks ≡ stream.opening.ranks) }
    ensures same_room { IfOk result (λ done. done.room ≡ stream.opening.room) }
    ensures same_layout { IfOk result (λ done. done.layout ≡ stream.opening.layout) }
    ensures same_pieces { IfOk result (λ done. done.pieces ≡ stream.opening.pieces) }
    ensures same_files { IfOk result (λ done. done.files ≡ stream.opening.files) }
    ensures more { IfOk result (λ done. length stream.opening.leaves.items < length done.leaves.items) }
    ensures files_made { IfOk result (λ done. AreFirstFiles stream.opening.layout stream.opening.header stream.opening.step (B.files bay.old)
        (contents_at V.contents raws.old.items 0) stream.opening.files.items
        (shown B.Leaf.contents done.leaves.items)) }
    ensures cause { IfErr result (IsCaused stream.opening.header (contents_at V.contents raws.old.items 0)
        (map V.faults raws.old.items) (map V.faults raws.new.items) (B.faults bay.old) (B.faults bay.new)) }
    ensures raw_quiet { OnOk result (map V.faults raws.new.items ≡ map V.faults raws.old.items) }
    ensures number { vec_len raws.new ≡ vec_len raws.old }
    ensures same { SameContents V.contents raws.old.items raws.new.items }
    ensures idle { drop (rank_count stream.opening.header.box (vec_len raws.old)) raws.new.items
        ≡ drop (rank_count stream.opening.header.box (vec_len raws.old)) raws.old.items }
    ensures raw_count { NoneFalls (map V.faults raws.old.items) (map V.faults raws.new.items) }
    ensures raw_once { EachMeetsOnce (map V.faults raws.old.items) (map V.faults raws.new.items) }
    ensures files { B.files bay.new ≡ B.files bay.old }
    ensures header { B.header bay.new ≡ B.header bay.old }
    ensures begun { B.begun bay.new ≡ B.begun bay.old }
    ensures still { StillAdmits B.admits bay.old bay.new }
    ensures failed { LeavesFailed (B.files bay.old) (B.files bay.new) (B.failed bay.old) (B.failed bay.new) result }
    ensures count { NeverFalls (B.faults bay.old) (B.faults bay.new) }
    ensures once { MeetsOnceOrRow (B.failed bay.new) stream.opening.ranks (B.faults bay.old) (B.faults bay.new) }
    ensures quiet { OnOk result (B.faults bay.new ≡ B.faults bay.old) }
{
    let mut stream = stream;
    'batches: while !stream.docks.is_empty() {
        let next = deliver(rt, alloc, stream, raws, gate)?;
        stream = seal_full(rt, alloc, next, bay, gate)?;
    }
    Ok(close_stream(alloc, stream)?)
}
