ghost use Rattle.std.specs.Prelude.{◌≡◌, ◌<◌, ◌++◌, ℕ, All, IfErr, IfOk, List, OnOk, Some, drop, length, map, vec_len};
ghost use Rattle.idx_outside.specs.Counts.{EachMeetsOnce};
ghost use Rattle.idx_outside.specs.Objects.{SameContents, contents_at};
ghost use Rattle.idx_pieces.specs.Ranks.{rank_count};
ghost use Rattle.idx_pieces.specs.Samples.{raw_sample};
ghost use Rattle.idx_ranks.specs.Loads.{HoldsLoad};
ghost use Rattle.idx_aggregate.specs.Docks.{pieces_in};
ghost use Rattle.idx_gather.specs.Gather.{HasVolume, HaveSame, IsCaused, LacksVolume, NoneFalls};
ghost use Rattle.idx_gather.specs.States.{AreBoxSamples, AreFull, HaveSamples};

use crate::batch::batch_count;
use crate::length::check_length;
use crate::{Docking, GatherFault, Parcelled};
use idx_aggregate::ship_loads;
use idx_outside::{Gate, Leaf, Source};
use idx_ranks::read_loads;
use std::alloc::Global;
use std::thread::Threads;

impl<L: Leaf> Docking<L> {
    /// Reads the next batch of pieces, with one worker for each rank, out of as many raw volumes. The first one's length is
    /// asked first.
    pub fn parcel<V: Source + Send, G: Gate, R: Threads + Sync>(
        self,
        rt: &R,
        alloc: Global,
        raws: &mut Vec<V>,
        gate: &G,
    ) -> Result<Parcelled<L>, GatherFault>
        requires ranks { vec_len raws.old ≡ self.opening.ranks }
        requires alike { HaveSame V.contents raws.old.items }
        requires unfull { ¬ AreFull self.docks.items }
        ensures opening { IfOk result (λ parcelled. parcelled.opening ≡ self.opening) }
        ensures docks { IfOk result (λ parcelled. parcelled.docks.items ≡ self.docks.items) }
        ensures left { IfOk result (λ parcelled.
            pieces_in parcelled.loads.items ++ parcelled.left.items ≡ self.left.items) }
        ensures moves { IfOk result (λ parcelled. length parcelled.left.items < length self.left.items) }
        ensures samples { IfOk result (λ parcelled. (bytes : List ℕ) →
            contents_at V.contents raws.old.items 0 ≡ Some bytes →
            All (HoldsLoad self.opening.header (raw_sample self.opening.header bytes)) parcelled.loads.items) }
        ensures right { OnOk result (HasVolume self.opening.header (contents_at V.contents raws.old.items 0)) }
        ensures cause { (count : ℕ) → IfErr result (IsCaused self.opening.header
            (contents_at V.contents raws.old.items 0) (map V.faults raws.old.items) (map V.faults raws.new.items)
            count count) }
        ensures quiet { OnOk result (map V.faults raws.new.items ≡ map V.faults raws.old.items) }
        ensures unasked { LacksVolume self.opening.header (contents_at V.contents raws.old.items 0) →
            map V.asked raws.new.items ≡ map V.asked raws.old.items }
        ensures same { SameContents V.contents raws.old.items raws.new.items }
        ensures idle { drop (rank_count self.opening.header.box (vec_len raws.old)) raws.new.items
            ≡ drop (rank_count self.opening.header.box (vec_len raws.old)) raws.old.items }
        ensures raw_count { NoneFalls (map V.faults raws.old.items) (map V.faults raws.new.items) }
        ensures raw_once { EachMeetsOnce (map V.faults raws.old.items) (map V.faults raws.new.items) }
    {
        // The box has axes and points, so that some rank has a part of it.
        let _axes = self.opening.header.axes();
        check_length(&self.opening.header, raws)?;
        let Docking {
            opening,
            docks,
            done,
            mut left,
        } = self;
        let count = batch_count(&opening.header, &left, opening.room);
        let rest = match left.split_off(count) {
            Ok(rest) => rest,
            Err(_) => return Err(GatherFault::NoMemory),
        };
        let loads = read_loads(rt, alloc, &opening.header, left, raws, gate)?;
        Ok(Parcelled {
            opening,
            docks,
            done,
            loads,
            left: rest,
        })
    }
}

impl<L: Leaf> Parcelled<L> {
    /// Puts what was read into hierarchical order, with as many workers as there are ranks, and hands it to the
    /// aggregators of the window.
    pub fn ship<G: Gate, R: Threads + Sync>(
        self,
        rt: &R,
        alloc: Global,
        gate: &G,
    ) -> Result<Docking<L>, GatherFault>
        ensures opening { IfOk result (λ docking. docking.opening ≡ self.opening) }
        ensures left { IfOk result (λ docking. docking.left.items ≡ self.left.items) }
        ensures samples { IfOk result (λ docking. (sample : ℕ → List ℕ → List ℕ) →
            AreBoxSamples self.opening.header sample →
            All (HoldsLoad self.opening.header sample) self.loads.items →
            HaveSamples self.opening.header sample self.docks.items →
            HaveSamples self.opening.header sample docking.docks.items) }
        ensures only { IfErr result (λ fault. fault ≡ GatherFault.NoMemory) }
    {
        // The box has axes and points, and the pieces lie in it.
        let _axes = self.opening.header.axes();
        let Parcelled {
            opening,
            docks,
            done,
            loads,
            left,
        } = self;
        let more = loads.len();
        let docks = ship_loads(
            rt,
            alloc,
            &opening.header,
            loads,
            docks,
            opening.ranks,
            gate,
        )?;
        Ok(Docking {
            opening,
            docks,
            done: done + more,
            left,
        })
    }
}
