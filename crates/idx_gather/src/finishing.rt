ghost use Rattle.std.specs.Prelude.{◌≡◌, ◌⊎◌, ℕ, IfErr, IfOk, List, None, OnErr, OnOk, length};
ghost use Rattle.std.specs.Option.{ForSome};
ghost use Rattle.idx_outside.specs.Cause.{MeetsOnce, NeverFalls};
ghost use Rattle.idx_outside.specs.Files.{HasStep as HasCommitted, shown};
ghost use Rattle.idx_header.specs.Names.{step_folder};
ghost use Rattle.idx_layout.specs.Shape.{shape_of};
ghost use Rattle.idx_gather.specs.Gather.{HasBlocksOf, HasFolder, HasPresent, HoldsAdded, IsStoreFault, LeavesFailed, SomeStepAddedAs, StepAddedAs};
ghost use Rattle.idx_gather.specs.States.{IsStepOf, TellAs};

use crate::committing::commit_leaves;
use crate::{GatherFault, Opening, Sealed};
use idx_edition::Edition;
use idx_outside::{Bay, Blocks, Leaf};
use std::alloc::Global;

impl<L: Leaf> Opening<L> {
    /// The step, of which every file is sealed. Takes no memory.
    pub fn finish(self) -> Sealed<L>
        requires sealed { length self.leaves.items ≡ length self.files.items }
        ensures header { result.header ≡ self.header }
        ensures step { result.step ≡ self.step }
        ensures layout { result.layout ≡ self.layout }
        ensures leaves { result.leaves.items ≡ self.leaves.items }
    {
        let Opening {
            header,
            step,
            layout,
            leaves,
            ranks: _ranks,
            room: _room,
            pieces: _pieces,
            files: _files,
        } = self;
        Sealed {
            header,
            step,
            layout,
            leaves,
        }
    }
}

impl<L: Leaf> Sealed<L> {
    /// Makes all files stand at once, and gives the step as blocks. All memory is taken before they stand.
    pub fn commit<B: Bay<Leaf = L>>(
        self,
        alloc: Global,
        bay: &mut B,
    ) -> Result<Edition<L>, GatherFault>
        requires folder { HasFolder self.header self.step }
        requires new { ForSome (step_folder self.header self.step)
            (λ folder. ForSome (B.files bay.old) (λ files. ¬ HasCommitted folder files)) }
        ensures added { OnOk result ((raw : List ℕ) →
            IsStepOf self.layout self.header self.step (B.files bay.old) (shown L.contents self.leaves.items) raw →
            StepAddedAs self.layout self.header self.step (B.files bay.old) (B.files bay.new) raw) }
        ensures some { OnOk result (TellAs (B.files bay.old) (shown L.contents self.leaves.items) →
            ∥ SomeStepAddedAs self.layout self.header self.step None (B.files bay.old) (B.files bay.new) ∥₁) }
        ensures time { IfOk result (λ edition. ⟦<Edition<L> as Blocks>⟧.time edition ≡ self.step) }
        ensures shape { IfOk result (λ edition. ⟦<Edition<L> as Blocks>⟧.shape edition ≡ shape_of self.header) }
        ensures has { IfOk result (λ edition. HasPresent self.header (⟦<Edition<L> as Blocks>⟧.has edition)) }
        ensures blocks { IfOk result (λ edition. (raw : List ℕ) →
            IsStepOf self.layout self.header self.step (B.files bay.old) (shown L.contents self.leaves.items) raw →
            HasBlocksOf self.header raw (⟦<Edition<L> as Blocks>⟧.stored edition)) }
        ensures holds { IfOk result (λ edition. (raw : List ℕ) →
            IsStepOf self.layout self.header self.step (B.files bay.old) (shown L.contents self.leaves.items) raw →
            HoldsAdded self.header self.step (B.files bay.old) (B.files bay.new)
            (⟦<Edition<L> as Blocks>⟧.shape edition) (⟦<Edition<L> as Blocks>⟧.has edition)
            (⟦<Edition<L> as Blocks>⟧.stored edition) (shown L.contents edition.leaves.items)) }
        ensures cause { IfErr result (IsStoreFault (B.faults bay.old) (B.faults bay.new)) }
        ensures whole { OnErr result ((B.files bay.new ≡ B.files bay.old) ⊎ ((raw : List ℕ) →
            IsStepOf self.layout self.header self.step (B.files bay.old) (shown L.contents self.leaves.items) raw →
            StepAddedAs self.layout self.header self.step (B.files bay.old) (B.files bay.new) raw)) }
        ensures none { IfErr result (λ fault. fault ≡ GatherFault.NoMemory → B.files bay.new ≡ B.files bay.old) }
        ensures header { B.header bay.new ≡ B.header bay.old }
        ensures begun { B.begun bay.new ≡ B.begun bay.old }
        ensures failed { LeavesFailed (B.files bay.old) (B.files bay.new) (B.failed bay.old) (B.failed bay.new) result }
        ensures count { NeverFalls (B.faults bay.old) (B.faults bay.new) }
        ensures once { MeetsOnce (B.faults bay.old) (B.faults bay.new) }
        ensures quiet { OnOk result (B.faults bay.new ≡ B.faults bay.old) }
    {
        let Sealed {
            header,
            step,
            layout,
            leaves,
        } = self;
        match commit_leaves(alloc, &header, step, leaves, layout, bay) {
            Ok(edition) => Ok(edition),
            Err(fault) => Err(GatherFault::of_bay(fault, bay)),
        }
    }
}
