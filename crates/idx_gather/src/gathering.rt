ghost use Rattle.std.specs.Prelude.{◌≡◌, ◌<◌, ◌≤◌, ◌^◌, ℕ, IfErr, IfOk, IfSome, List, OnOk, drop, map, vec_len};
ghost use Rattle.std.specs.Option.{ForSome};
ghost use Rattle.idx_outside.specs.Cause.{NeverFalls};
ghost use Rattle.idx_outside.specs.Files.{HasStep as HasCommitted, LiesIn, shown};
ghost use Rattle.idx_outside.specs.Counts.{EachMeetsOnce};
ghost use Rattle.idx_outside.specs.Objects.{SameContents, contents_at};
ghost use Rattle.idx_header.specs.Names.{step_folder};
ghost use Rattle.idx_layout.specs.Shape.{shape_of};
ghost use Rattle.idx_pieces.specs.Ranks.{rank_count};
ghost use Rattle.idx_seal.specs.Rows.{MeetsOnceOrRow};
ghost use Rattle.idx_gather.specs.Gather.{HasBlocksOf, HasFolder, HasPresent, HasVolume, HaveSame, HoldsAdded, IsCaused, LacksVolume, Leaves, LeavesAs, LeavesFailed, NoneFalls, SomeStepAdded, SomeStepAddedAs};

use crate::length::check_length;
use crate::sealing_all::seal_all;
use crate::{GatherFault, Opening};
use idx_edition::Edition;
use idx_header::Header;
use idx_outside::{Bay, Blocks, Gate, Source};
use idx_rowmajor::Layout;
use std::alloc::Global;
use std::thread::Threads;

/// So many bytes of samples on their way to files are kept in memory at a time, but for one piece, and, where files are
/// written by windows, so many bytes of files, but for one file: 2^28.
pub fn gather_room() -> u64
    ensures { result ≡ 2 ^ 28 }
{
    1 << 28
}

/// Writes a step from a raw volume and makes it stand in the bay, in the folder that was last begun: exactly its files,
/// byte for byte as the format defines them, with the samples of each block in hierarchical order. There is one rank for
/// each of the raw volumes, which all give the same bytes: each rank reads its part of the box from its own, in a thread of
/// its own. The files do not depend on how many ranks there are. Each piece of the raw volumes is read once, in batches of
/// as many pieces as fit into 2^28 bytes together, or one, and each file is written as soon as it misses nothing; but
/// where more than 2^30 bytes of files would be begun and not complete at a time, or there are more than 65,536 files,
/// each piece is read once for each window of as many files as take 2^28 bytes together, or one. The answer is the step
/// as blocks, out of the files that now stand; making it costs no read.
///
/// After a refusal no file stands that did not before. A store's fault may come of the commit itself: then the step stands
/// whole or not at all.
pub fn gather<V: Source + Send, B: Bay, G: Gate, R: Threads + Sync>(
    rt: &R,
    alloc: Global,
    header: &Header,
    step: u64,
    raws: &mut Vec<V>,
    bay: &mut B,
    gate: &G,
) -> Result<Edition<B::Leaf>, GatherFault>
where
    B::Draft: Send,
    B::Leaf: Send,
    requires some { 0 < vec_len raws.old }
    requires few { vec_len raws.old ≤ 256 }
    requires alike { HaveSame V.contents raws.old.items }
    requires folder { HasFolder header.now step }
    requires begun { ForSome (step_folder header.now step)
        (λ folder. (path : List ℕ) → LiesIn folder path → B.admits bay.old path) }
    requires new { ForSome (step_folder header.now step)
        (λ folder. ForSome (B.files bay.old) (λ files. ¬ HasCommitted folder files)) }

    // The raw volume has the right length, and exactly the files of the step were added.
    ensures right { OnOk result (HasVolume header.now (contents_at V.contents raws.old.items 0)) }
    ensures added { OnOk result (SomeStepAdded header.now step (contents_at V.contents raws.old.items 0)
        (B.files bay.old) (B.files bay.new)) }

    // The edition is the step's, with exactly the present blocks; where their bytes are known they are the raw volume's.
    ensures time { IfOk result (λ edition. ⟦<Edition<B::Leaf> as Blocks>⟧.time edition ≡ step) }
    ensures shape { IfOk result (λ edition. ⟦<Edition<B::Leaf> as Blocks>⟧.shape edition ≡ shape_of header.now) }
    ensures has { IfOk result (λ edition. HasPresent header.now (⟦<Edition<B::Leaf> as Blocks>⟧.has edition)) }
    ensures volume { IfOk result (λ edition. IfSome (contents_at V.contents raws.old.items 0) (λ bytes.
        HasBlocksOf header.now bytes (⟦<Edition<B::Leaf> as Blocks>⟧.stored edition))) }
    ensures holds { IfOk result (λ edition. HoldsAdded header.now step (B.files bay.old) (B.files bay.new)
        (⟦<Edition<B::Leaf> as Blocks>⟧.shape edition) (⟦<Edition<B::Leaf> as Blocks>⟧.has edition)
        (⟦<Edition<B::Leaf> as Blocks>⟧.stored edition) (shown B.Leaf.contents edition.leaves.items)) }

    // Each refusal has its cause, and leaves the committed files as they were, a failed commit apart.
    ensures cause { IfErr result (IsCaused header.now (contents_at V.contents raws.old.items 0)
        (map V.faults raws.old.items) (map V.faults raws.new.items) (B.faults bay.old) (B.faults bay.new)) }
    ensures leaves { IfErr result (Leaves header.now step (contents_at V.contents raws.old.items 0)
        (B.files bay.old) (B.files bay.new)) }

    // Nothing is asked of raw volumes that are known to have another length, and then the bay is not changed either.
    ensures unasked { LacksVolume header.now (contents_at V.contents raws.old.items 0) →
        map V.asked raws.new.items ≡ map V.asked raws.old.items }
    ensures unchanged { LacksVolume header.now (contents_at V.contents raws.old.items 0) →
        B.changes bay.new ≡ B.changes bay.old }

    // No step is begun, and the call that failed is one of those that write, give up or commit.
    ensures begun { B.begun bay.new ≡ B.begun bay.old }
    ensures failed { LeavesFailed (B.files bay.old) (B.files bay.new) (B.failed bay.old) (B.failed bay.new) result }

    // Where all is written, no fault was counted.
    ensures raw_quiet { OnOk result (map V.faults raws.new.items ≡ map V.faults raws.old.items) }
    ensures quiet { OnOk result (B.faults bay.new ≡ B.faults bay.old) }

    // What is known of the raw volumes stays, the ones for which the box has no part are not touched, and no count falls.
    ensures same { SameContents V.contents raws.old.items raws.new.items }
    ensures idle { drop (rank_count header.now.box (vec_len raws.old)) raws.new.items
        ≡ drop (rank_count header.now.box (vec_len raws.old)) raws.old.items }
    ensures raw_count { NoneFalls (map V.faults raws.old.items) (map V.faults raws.new.items) }
    ensures header { B.header bay.new ≡ B.header bay.old }
    ensures count { NeverFalls (B.faults bay.old) (B.faults bay.new) }

    // A fault is met once: no raw volume counts two, and the bay no more than one row of files does, one file for each rank.
    ensures raw_once { EachMeetsOnce (map V.faults raws.old.items) (map V.faults raws.new.items) }
    ensures once { MeetsOnceOrRow (B.failed bay.new) (vec_len raws.old) (B.faults bay.old) (B.faults bay.new) }
{
    gather_as(rt, alloc, header, step, raws, bay, Layout::Hz, gate)
}

/// Writes a step from a raw volume and makes it stand in the bay, in the folder that was last begun: exactly its files,
/// byte for byte as the format defines them, with the samples of each block in the order of the layout. There is one rank for
/// each of the raw volumes, which all give the same bytes: each rank reads its part of the box from its own, in a thread of
/// its own. The files do not depend on how many ranks there are. Each piece of the raw volumes is read once, in batches of
/// as many pieces as fit into 2^28 bytes together, or one, and each file is written as soon as it misses nothing; but
/// where more than 2^30 bytes of files would be begun and not complete at a time, or there are more than 65,536 files,
/// each piece is read once for each window of as many files as take 2^28 bytes together, or one. The answer is the step
/// as blocks, out of the files that now stand; making it costs no read.
///
/// After a refusal no file stands that did not before. A store's fault may come of the commit itself: then the step stands
/// whole or not at all.
pub fn gather_as<V: Source + Send, B: Bay, G: Gate, R: Threads + Sync>(
    rt: &R,
    alloc: Global,
    header: &Header,
    step: u64,
    raws: &mut Vec<V>,
    bay: &mut B,
    layout: Layout,
    gate: &G,
) -> Result<Edition<B::Leaf>, GatherFault>
where
    B::Draft: Send,
    B::Leaf: Send,
    requires some { 0 < vec_len raws.old }
    requires few { vec_len raws.old ≤ 256 }
    requires alike { HaveSame V.contents raws.old.items }
    requires folder { HasFolder header.now step }
    requires begun { ForSome (step_folder header.now step)
        (λ folder. (path : List ℕ) → LiesIn folder path → B.admits bay.old path) }
    requires new { ForSome (step_folder header.now step)
        (λ folder. ForSome (B.files bay.old) (λ files. ¬ HasCommitted folder files)) }

    // The raw volume has the right length, and exactly the files of the step were added.
    ensures right { OnOk result (HasVolume header.now (contents_at V.contents raws.old.items 0)) }
    ensures added { OnOk result (SomeStepAddedAs layout header.now step (contents_at V.contents raws.old.items 0)
        (B.files bay.old) (B.files bay.new)) }

    // The edition is the step's, with exactly the present blocks; where their bytes are known they are the raw volume's.
    ensures time { IfOk result (λ edition. ⟦<Edition<B::Leaf> as Blocks>⟧.time edition ≡ step) }
    ensures shape { IfOk result (λ edition. ⟦<Edition<B::Leaf> as Blocks>⟧.shape edition ≡ shape_of header.now) }
    ensures has { IfOk result (λ edition. HasPresent header.now (⟦<Edition<B::Leaf> as Blocks>⟧.has edition)) }
    ensures volume { IfOk result (λ edition. IfSome (contents_at V.contents raws.old.items 0) (λ bytes.
        HasBlocksOf header.now bytes (⟦<Edition<B::Leaf> as Blocks>⟧.stored edition))) }
    ensures holds { IfOk result (λ edition. HoldsAdded header.now step (B.files bay.old) (B.files bay.new)
        (⟦<Edition<B::Leaf> as Blocks>⟧.shape edition) (⟦<Edition<B::Leaf> as Blocks>⟧.has edition)
        (⟦<Edition<B::Leaf> as Blocks>⟧.stored edition) (shown B.Leaf.contents edition.leaves.items)) }

    // Each refusal has its cause, and leaves the committed files as they were, a failed commit apart.
    ensures cause { IfErr result (IsCaused header.now (contents_at V.contents raws.old.items 0)
        (map V.faults raws.old.items) (map V.faults raws.new.items) (B.faults bay.old) (B.faults bay.new)) }
    ensures leaves { IfErr result (LeavesAs layout header.now step (contents_at V.contents raws.old.items 0)
        (B.files bay.old) (B.files bay.new)) }

    // Nothing is asked of raw volumes that are known to have another length, and then the bay is not changed either.
    ensures unasked { LacksVolume header.now (contents_at V.contents raws.old.items 0) →
        map V.asked raws.new.items ≡ map V.asked raws.old.items }
    ensures unchanged { LacksVolume header.now (contents_at V.contents raws.old.items 0) →
        B.changes bay.new ≡ B.changes bay.old }

    // No step is begun, and the call that failed is one of those that write, give up or commit.
    ensures begun { B.begun bay.new ≡ B.begun bay.old }
    ensures failed { LeavesFailed (B.files bay.old) (B.files bay.new) (B.failed bay.old) (B.failed bay.new) result }

    // Where all is written, no fault was counted.
    ensures raw_quiet { OnOk result (map V.faults raws.new.items ≡ map V.faults raws.old.items) }
    ensures quiet { OnOk result (B.faults bay.new ≡ B.faults bay.old) }

    // What is known of the raw volumes stays, the ones for which the box has no part are not touched, and no count falls.
    ensures same { SameContents V.contents raws.old.items raws.new.items }
    ensures idle { drop (rank_count header.now.box (vec_len raws.old)) raws.new.items
        ≡ drop (rank_count header.now.box (vec_len raws.old)) raws.old.items }
    ensures raw_count { NoneFalls (map V.faults raws.old.items) (map V.faults raws.new.items) }
    ensures header { B.header bay.new ≡ B.header bay.old }
    ensures count { NeverFalls (B.faults bay.old) (B.faults bay.new) }

    // A fault is met once: no raw volume counts two, and the bay no more than one row of files does, one file for each rank.
    ensures raw_once { EachMeetsOnce (map V.faults raws.old.items) (map V.faults raws.new.items) }
    ensures once { MeetsOnceOrRow (B.failed bay.new) (vec_len raws.old) (B.faults bay.old) (B.faults bay.new) }
{
    // The box has axes and points, so that some rank has a part of it.
    let _axes = header.axes();
    check_length(header, raws)?;
    let opening = Opening::new(
        alloc,
        header,
        step,
        raws.len() as u32,
        gather_room(),
        layout,
    )?;
    let opening = seal_all(rt, alloc, opening, raws, bay, gate)?;
    opening.finish().commit(alloc, bay)
}
