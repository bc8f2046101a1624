//! A revision is published.
ghost use Rattle.std.specs.Prelude.{◌≡◌, All, OnErr, OnOk, map, true};
ghost use Rattle.std.specs.List.{AllByRecursion};
ghost use Rattle.idx_layout.specs.Shape.{shape_of};
ghost use Rattle.idx_hall.specs.Hall.{after_publish};
ghost use Rattle.idx_events.specs.Setting.{step_files};
ghost use Rattle.idx_events.specs.Volumes.{post_of_sealed, sealed_files};
ghost use Rattle.idx_core_layers.specs.Division.{layers_of};
ghost use Rattle.idx_core_steps.specs.Steps.{AreSlots, volume_of};
ghost use Rattle.idx_core.specs.World.{AreWritten, IsPublishing};

use idx_core_forms::HeldLeaf;
use idx_core_layers::{Division, StepRefusal};
use idx_core_steps::{Step, edition_of_step, has_later, step_at};
use idx_edition::Edition;
use idx_hall::Hall;
use idx_outside::NoMemory;
use std::alloc::Global;
use std::sync::Arc;

/// Publishes a revision: its files become the newest post of the timestep.
pub(crate) fn publish_in(
    alloc: Global,
    below: &Division,
    steps: &mut Vec<Step>,
    hall: &mut Hall<Edition<HeldLeaf>>,
    time: u64,
    revision: u64,
) -> Result<(), StepRefusal>
    requires shape { hall.old.shape ≡ shape_of below.now.header }
    requires written { AllByRecursion (AreWritten (layers_of below.now)) (map volume_of steps.old.items) }
    ensures publishing { IsPublishing (layers_of below.now) time revision steps.old.items hall.old result steps.new.items hall.new }
    ensures slots { All (AreSlots below.now) steps.old.items → All (AreSlots below.now) steps.new.items }
{
    let Some(i) = step_at(steps, time, revision) else {
        return Err(StepRefusal::NotEnabled);
    };
    if !steps[i].can_publish() || has_later(steps, time, revision) {
        return Err(StepRefusal::NotEnabled);
    }
    match show(alloc, below, &steps[i], hall) {
        Ok(()) => {
            steps[i].publish();
            Ok(())
        }
        Err(_) => Err(StepRefusal::NoMemory),
    }
}

/// The files of a revision, all of which are written, become the newest post of its timestep.
fn show(
    alloc: Global,
    below: &Division,
    step: &Step,
    hall: &mut Hall<Edition<HeldLeaf>>,
) -> Result<(), NoMemory>
    requires shape { hall.old.shape ≡ shape_of below.now.header }
    requires taken { (layers_of below.now).valid_step step.now.time step.now.revision ≡ true }
    requires whole { (layers_of below.now).valid_raw step.now.raw ≡ true }
    requires written { sealed_files (volume_of step.now).slots ≡
        step_files (layers_of below.now) step.now.time step.now.revision step.now.raw }
    ensures shown { OnOk result
        (hall.new ≡ after_publish (post_of_sealed (layers_of below.now) (volume_of step.now)) hall.old) }
    ensures kept { OnErr result (hall.new ≡ hall.old) }
{
    let edition = edition_of_step(alloc, below, step)?;
    let shared = Arc::new(alloc, edition)?;
    let newest = hall.newest(step.time());
    match hall.publish(shared, newest) {
        Ok(_) => Ok(()),
        Err(_) => Err(NoMemory),
    }
}
