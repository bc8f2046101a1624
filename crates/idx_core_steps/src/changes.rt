//! What the events of writing do to a list of revisions.
ghost use Rattle.std.specs.Prelude.{◌≡◌, All, map, true};
ghost use Rattle.std.specs.List.{AllByRecursion, list_any, position};
ghost use Rattle.idx_events.specs.Setting.{Setting};
ghost use Rattle.idx_events.specs.Volumes.{abandon, can_abandon, can_give, can_ship, can_write, give, is_later, is_of, seal, ship};
ghost use Rattle.idx_events.specs.WorldOk.{DocksOk};
ghost use Rattle.idx_core_layers.specs.Division.{DivisionValue, layers_of};
ghost use Rattle.idx_core_steps.specs.Steps.{AreSlots, IsChange, volume_of};

use crate::Step;
use idx_core_layers::{Division, StepRefusal};
use std::alloc::Global;

/// The place of the first revision of a timestep with this number.
pub fn step_at(steps: &[Step], time: u64, revision: u64) -> Option<usize>
    ensures { result ≡ position (is_of time revision) (map volume_of steps.now) }
{
    place_of(steps, time, revision)
}

/// The same, by a test of each revision.
fn place_of(steps: &[Step], time: u64, revision: u64) -> Option<usize>
    ensures { result ≡ position (λ step. is_of time revision (volume_of step)) steps.now }
{
    steps.iter().position(|step| step.is_of(time, revision))
}

/// Whether a later revision of the timestep was published.
pub fn has_later(steps: &[Step], time: u64, revision: u64) -> bool
    ensures { result ≡ list_any (is_later time revision) (map volume_of steps.now) }
{
    any_later(steps, time, revision)
}

/// The same, by a test of each revision.
fn any_later(steps: &[Step], time: u64, revision: u64) -> bool
    ensures { result ≡ list_any (λ step. is_later time revision (volume_of step)) steps.now }
{
    steps.iter().any(|step| step.is_later(time, revision))
}

/// A rank gives its part of a piece of a revision.
pub fn give_in(
    below: &Division,
    steps: &mut Vec<Step>,
    time: u64,
    revision: u64,
    rank: u64,
    piece: u64,
) -> Result<(), StepRefusal>
    ensures change { IsChange (can_give (layers_of below.now) rank piece) (give (layers_of below.now) rank piece)
        time revision steps.old.items result steps.new.items }
    ensures slots { All (AreSlots below.now) steps.old.items → All (AreSlots below.now) steps.new.items }
{
    let Some(i) = step_at(steps, time, revision) else {
        return Err(StepRefusal::NotEnabled);
    };
    if !steps[i].can_give(below, rank, piece) {
        return Err(StepRefusal::NotEnabled);
    }
    match steps[i].give(rank, piece) {
        Ok(()) => Ok(()),
        Err(_) => Err(StepRefusal::NoMemory),
    }
}

/// A revision is given up for good.
pub fn abandon_in(steps: &mut Vec<Step>, time: u64, revision: u64) -> Result<(), StepRefusal>
    ensures change { (s : Setting) →
        IsChange (can_abandon s) (abandon s) time revision steps.old.items result steps.new.items }
    ensures slots { (d : DivisionValue) → All (AreSlots d) steps.old.items → All (AreSlots d) steps.new.items }
{
    let Some(i) = step_at(steps, time, revision) else {
        return Err(StepRefusal::NotEnabled);
    };
    if !steps[i].can_abandon() {
        return Err(StepRefusal::NotEnabled);
    }
    steps[i].abandon();
    Ok(())
}

/// A piece of a revision is shipped to a file.
pub fn ship_in(
    alloc: Global,
    below: &Division,
    steps: &mut Vec<Step>,
    time: u64,
    revision: u64,
    piece: u64,
    file: u64,
) -> Result<(), StepRefusal>
    requires slots { All (AreSlots below.now) steps.old.items }
    requires docks { AllByRecursion (DocksOk (layers_of below.now)) (map volume_of steps.old.items) }
    requires whole { AllByRecursion (λ v. (layers_of below.now).valid_raw v.raw ≡ true)
        (map volume_of steps.old.items) }
    ensures change { IsChange (can_ship (layers_of below.now) piece file) (ship (layers_of below.now) piece file)
        time revision steps.old.items result steps.new.items }
    ensures slots { All (AreSlots below.now) steps.new.items }
{
    let Some(i) = step_at(steps, time, revision) else {
        return Err(StepRefusal::NotEnabled);
    };
    if !steps[i].can_ship(below, piece, file) {
        return Err(StepRefusal::NotEnabled);
    }
    match steps[i].ship(alloc, below, piece, file) {
        Ok(()) => Ok(()),
        Err(_) => Err(StepRefusal::NoMemory),
    }
}

/// A file of a revision is written.
pub fn write_in(
    alloc: Global,
    below: &Division,
    steps: &mut Vec<Step>,
    time: u64,
    revision: u64,
    file: u64,
) -> Result<(), StepRefusal>
    requires slots { All (AreSlots below.now) steps.old.items }
    requires docks { AllByRecursion (DocksOk (layers_of below.now)) (map volume_of steps.old.items) }
    requires taken { AllByRecursion (λ v. (layers_of below.now).valid_step v.time v.revision ≡ true)
        (map volume_of steps.old.items) }
    ensures change { IsChange (can_write (layers_of below.now) file) (seal (layers_of below.now) file)
        time revision steps.old.items result steps.new.items }
    ensures slots { All (AreSlots below.now) steps.new.items }
{
    let Some(i) = step_at(steps, time, revision) else {
        return Err(StepRefusal::NotEnabled);
    };
    if !steps[i].can_write(below, file) {
        return Err(StepRefusal::NotEnabled);
    }
    match steps[i].seal(alloc, below, file) {
        Ok(()) => Ok(()),
        Err(_) => Err(StepRefusal::NoMemory),
    }
}
