//! What a world is made of: volumes and questions, each looked at before it is taken.
ghost use Rattle.std.specs.Prelude.{◌≡◌, ◌≤◌, ◌↔◌, [], All, IfErr, IfOk, IsTrue, MatchOption, OnOk, filter, length, map, nat_eq};
ghost use Rattle.idx_cache.specs.Cached.{cached};
ghost use Rattle.idx_hall.specs.Hall.{hall};
ghost use Rattle.idx_layout.specs.Shape.{shape_of};
ghost use Rattle.idx_events.specs.Start.{new_query, new_volumes};
ghost use Rattle.idx_events.specs.Volumes.{count_of};
ghost use Rattle.idx_core_model.specs.Headline.{CanBeAsked};
ghost use Rattle.idx_core_layers.specs.Division.{layers_of};
ghost use Rattle.idx_core_asks.specs.Asked.{IsPlanned};
ghost use Rattle.idx_core_steps.specs.Steps.{AreSlots, volume_of};
ghost use Rattle.idx_core.specs.NewWorld.{AreAsks, AreRight, IsAskRefusal, IsFirstWithout, IsRightAt, IsRightVolume, times_of};

use crate::WorldRefusal;
use idx_core_asks::Asked;
use idx_core_forms::HeldLeaf;
use idx_core_layers::Division;
use idx_core_steps::Step;
use idx_edition::{Edition, block_lengths};
use idx_hall::Hall;
use idx_header::Header;
use idx_outside::{Bytes, NoMemory};
use idx_plan::{Ask, PlanFault};
use std::alloc::Global;

/// A timestep has at most so many volumes, which are its revisions.
const MAX_REVISIONS: u64 = 256;

/// The revision that a volume of a timestep is, behind these volumes: how many of them are of the timestep.
pub(crate) fn revision_of(before: &[(u64, Bytes)], time: u64) -> u64
    ensures { result ≡ count_of time (times_of before.now) }
{
    many_of(before, time)
}

/// The same, by a test of each volume.
fn many_of(volumes: &[(u64, Bytes)], time: u64) -> u64
    ensures { result ≡ length (filter (λ v. nat_eq time v.0) volumes.now) }
{
    volumes.iter().filter(|volume| time == volume.0).count() as u64
}

/// Whether a volume behind these has the dataset's length, a timestep of the dataset, and at most 255 of that timestep
/// before it.
fn is_right(header: &Header, before: &[(u64, Bytes)], volume: &(u64, Bytes)) -> bool
    ensures { IsTrue result ↔ IsRightVolume header.now (times_of before.now) volume.now }
{
    volume.1.len() as u64 == header.volume_bytes()
        && header.has_time(volume.0)
        && revision_of(before, volume.0) < MAX_REVISIONS
}

/// The place of the first volume that is not right. `None` exactly where all are.
pub(crate) fn wrong_volume(header: &Header, volumes: &[(u64, Bytes)]) -> Option<u64>
    ensures { MatchOption result (AreRight header.now volumes.now)
        (IsFirstWithout (IsRightAt header.now volumes.now) (length volumes.now)) }
{
    for i in 0..volumes.len() {
        if !is_right(header, &volumes[..i], &volumes[i]) {
            return Some(i as u64);
        }
    }
    None
}

/// A question with its plan, of which nothing was looked for. `None` exactly where it cannot be asked.
fn asked_of(alloc: Global, below: &Division, ask: &Ask) -> Result<Option<Asked>, NoMemory>
    ensures { IfOk result (λ made. MatchOption made (¬ (CanBeAsked below.now.header ask.now))
        (λ x. (x.query ≡ new_query ask.now) × IsPlanned below.now x)) }
{
    let header = below.header();
    if ask.field >= header.field_count() || ask.region.axes() != header.axes() {
        return Ok(None);
    }
    match Asked::new(alloc, below, ask) {
        Ok(asked) => Ok(Some(asked)),
        Err(PlanFault::NoMemory) => Err(NoMemory),
        Err(_) => Ok(None),
    }
}

/// The questions with their plans, of which nothing was looked for. `WrongAsk` only at the first that cannot be asked.
pub(crate) fn ask_all(
    alloc: Global,
    below: &Division,
    asks: &[Ask],
) -> Result<Vec<Asked>, WorldRefusal>
    ensures can { OnOk result (AreAsks below.now.header asks.now) }
    ensures queries { IfOk result (λ asked. map (λ x. x.query) asked.items ≡ map new_query asks.now) }
    ensures planned { IfOk result (λ asked. All (IsPlanned below.now) asked.items) }
    ensures refused { IfErr result (IsAskRefusal below.now.header asks.now) }
{
    let mut asked = Vec::new(alloc);
    for i in 0..asks.len() {
        match asked_of(alloc, below, &asks[i])? {
            Some(question) => asked.push(question)?,
            None => return Err(WorldRefusal::WrongAsk { at: i as u64 }),
        }
    }
    Ok(asked)
}

/// The revisions of which nothing was given, one for each volume: those of a timestep are numbered in order.
pub(crate) fn steps_of(
    alloc: Global,
    below: &Division,
    volumes: &[(u64, Bytes)],
) -> Result<Vec<Step>, NoMemory>
    ensures volumes { IfOk result (λ steps.
        map volume_of steps.items ≡ new_volumes (layers_of below.now) [] volumes.now) }
    ensures slots { IfOk result (λ steps. All (AreSlots below.now) steps.items) }
{
    let mut steps = Vec::new(alloc);
    for i in 0..volumes.len() {
        let time = volumes[i].0;
        let revision = revision_of(&volumes[..i], time);
        let raw = Bytes::from_slice(alloc, volumes[i].1.as_slice())?;
        let step = Step::new(alloc, below, time, revision, raw)?;
        steps.push(step)?;
    }
    Ok(steps)
}

/// A hall of a dataset without a step and without a block, for at most so many cached blocks (1 to 65,536).
pub(crate) fn empty_hall(
    alloc: Global,
    header: &Header,
    capacity: u32,
) -> Result<Hall<Edition<HeldLeaf>>, NoMemory>
    requires some { 1 ≤ capacity }
    requires few { capacity ≤ 65536 }
    ensures { IfOk result (λ made. made ≡ hall (shape_of header.now) [] (cached [] capacity)) }
{
    let lengths = block_lengths(alloc, header)?;
    Hall::new(alloc, capacity, header.block_count(), lengths)
}
