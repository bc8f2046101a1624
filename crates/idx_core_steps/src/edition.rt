ghost use Rattle.std.specs.Prelude.{◌≡◌, IfOk, true};
ghost use Rattle.idx_layout.specs.Shape.{shape_of};
ghost use Rattle.idx_hall.specs.Posts.{post_of};
ghost use Rattle.idx_events.specs.Setting.{step_files};
ghost use Rattle.idx_events.specs.Volumes.{post_of_sealed, sealed_files};
ghost use Rattle.idx_core_layers.specs.Division.{layers_of};
ghost use Rattle.idx_core_steps.specs.Steps.{volume_of};

use crate::Step;
use idx_core_forms::{HeldLeaf, edition_of};
use idx_core_layers::Division;
use idx_edition::Edition;
use idx_outside::{Blocks, NoMemory};
use std::alloc::Global;

/// The step that the files of a revision make, all of which were written. Its files share their bytes with those of the
/// revision. `NoMemory` where there is no room for the names of the files or the step's tables.
pub fn edition_of_step(
    alloc: Global,
    below: &Division,
    step: &Step,
) -> Result<Edition<HeldLeaf>, NoMemory>
    requires taken { (layers_of below.now).valid_step step.now.time step.now.revision ≡ true }
    requires whole { (layers_of below.now).valid_raw step.now.raw ≡ true }
    requires written { sealed_files (volume_of step.now).slots ≡
        step_files (layers_of below.now) step.now.time step.now.revision step.now.raw }
    ensures time { IfOk result (λ edition. ⟦<Edition<HeldLeaf> as Blocks>⟧.time edition ≡ step.now.time) }
    ensures shape { IfOk result (λ edition.
        ⟦<Edition<HeldLeaf> as Blocks>⟧.shape edition ≡ shape_of below.now.header) }
    ensures post { IfOk result (λ edition. post_of (shape_of below.now.header)
        (⟦<Edition<HeldLeaf> as Blocks>⟧.time edition) (⟦<Edition<HeldLeaf> as Blocks>⟧.has edition)
        (⟦<Edition<HeldLeaf> as Blocks>⟧.stored edition) ≡
        post_of_sealed (layers_of below.now) (volume_of step.now)) }
{
    let header = below.header().at_revision(alloc, step.revision() as u32)?;
    let files = step.written_files(alloc)?;
    let edition = edition_of(alloc, &header, step.time(), files)?;
    Ok(edition)
}
