ghost use Rattle.std.specs.Prelude.{◌≡◌, ◌≢◌, ◌⊎◌, ℕ, Err, IfOk, List, None, OnErr, OnOk};
ghost use Rattle.std.specs.Option.{ForSome};
ghost use Rattle.idx_outside.specs.Cause.{MeetsOnce, NeverFalls, Rose};
ghost use Rattle.idx_outside.specs.Files.{AllNamed, HasStep as HasCommitted, shown};
ghost use Rattle.idx_header.specs.Names.{step_folder};
ghost use Rattle.idx_layout.specs.Shape.{shape_of};
ghost use Rattle.idx_gather.specs.Gather.{HasBlocksOf, HasFolder, HasPresent, HoldsAdded, IsFailedCall, SomeStepAddedAs, StepAddedAs};
ghost use Rattle.idx_gather.specs.States.{AreAllFiles, IsStepOf, TellAs};

use idx_edition::Edition;
use idx_header::Header;
use idx_outside::{Bay, BayFault, Blocks, Bytes};
use idx_rowmajor::Layout;
use std::alloc::Global;

/// Makes the leaves of a step in a layout stand, and gives them as blocks. All memory is taken before they stand.
pub(crate) fn commit_leaves<B: Bay>(
    alloc: Global,
    header: &Header,
    step: u64,
    leaves: Vec<(Bytes, B::Leaf)>,
    layout: Layout,
    bay: &mut B,
) -> Result<Edition<B::Leaf>, BayFault>
    requires folder { HasFolder header.now step }
    requires whole { ∥ AreAllFiles layout header.now step (shown B.Leaf.contents leaves.items) ∥₁ }
    requires named { AllNamed B.Leaf.path leaves.items }
    requires new { ForSome (step_folder header.now step)
        (λ folder. ForSome (B.files bay.old) (λ files. ¬ HasCommitted folder files)) }
    ensures added { OnOk result ((raw : List ℕ) →
        IsStepOf layout header.now step (B.files bay.old) (shown B.Leaf.contents leaves.items) raw →
        StepAddedAs layout header.now step (B.files bay.old) (B.files bay.new) raw) }
    ensures some { OnOk result (TellAs (B.files bay.old) (shown B.Leaf.contents leaves.items) →
        ∥ SomeStepAddedAs layout header.now step None (B.files bay.old) (B.files bay.new) ∥₁) }
    ensures time { IfOk result (λ edition. ⟦<Edition<B::Leaf> as Blocks>⟧.time edition ≡ step) }
    ensures shape { IfOk result (λ edition. ⟦<Edition<B::Leaf> as Blocks>⟧.shape edition ≡ shape_of header.now) }
    ensures has { IfOk result (λ edition. HasPresent header.now (⟦<Edition<B::Leaf> as Blocks>⟧.has edition)) }
    ensures blocks { IfOk result (λ edition. (raw : List ℕ) →
        IsStepOf layout header.now step (B.files bay.old) (shown B.Leaf.contents leaves.items) raw →
        HasBlocksOf header.now raw (⟦<Edition<B::Leaf> as Blocks>⟧.stored edition)) }
    ensures holds { IfOk result (λ edition. (raw : List ℕ) →
        IsStepOf layout header.now step (B.files bay.old) (shown B.Leaf.contents leaves.items) raw →
        HoldsAdded header.now step (B.files bay.old) (B.files bay.new)
        (⟦<Edition<B::Leaf> as Blocks>⟧.shape edition) (⟦<Edition<B::Leaf> as Blocks>⟧.has edition)
        (⟦<Edition<B::Leaf> as Blocks>⟧.stored edition) (shown B.Leaf.contents edition.leaves.items)) }
    ensures whole { OnErr result ((B.files bay.new ≡ B.files bay.old) ⊎ ((raw : List ℕ) →
        IsStepOf layout header.now step (B.files bay.old) (shown B.Leaf.contents leaves.items) raw →
        StepAddedAs layout header.now step (B.files bay.old) (B.files bay.new) raw)) }
    ensures none { result ≡ Err BayFault.NoMemory → B.files bay.new ≡ B.files bay.old }
    ensures failed { result ≡ Err BayFault.Outage →
        IsFailedCall (B.files bay.old) (B.files bay.new) (B.failed bay.new) }
    ensures unfailed { result ≢ Err BayFault.Outage → B.failed bay.new ≡ B.failed bay.old }
    ensures header { B.header bay.new ≡ B.header bay.old }
    ensures begun { B.begun bay.new ≡ B.begun bay.old }
    ensures count { NeverFalls (B.faults bay.old) (B.faults bay.new) }
    ensures once { MeetsOnce (B.faults bay.old) (B.faults bay.new) }
    ensures quiet { OnOk result (B.faults bay.new ≡ B.faults bay.old) }
    ensures no_memory { result ≡ Err BayFault.NoMemory → B.faults bay.new ≡ B.faults bay.old }
    ensures outage { result ≡ Err BayFault.Outage → Rose (B.faults bay.old) (B.faults bay.new) }
{
    let Some(folder) = header.step_folder(alloc, step)? else {
        unreachable!()
    };
    let edition = Edition::of_leaves_as(alloc, header, step, leaves, layout)?;
    bay.commit(folder.as_slice(), edition.leaves())?;
    Ok(edition)
}
