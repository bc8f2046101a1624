//! The events of a drill are done one after another in a world.
ghost use Rattle.std.specs.Prelude.{◌≡◌, ◌↔◌, ◌≤◌, IfOk, IsTrue, None, Some, slice_get};
ghost use Rattle.std.specs.Option.{option_map_or};
ghost use Rattle.idx_drill_model.specs.Drill.{drill_asks, drill_header, drill_volume};
ghost use Rattle.idx_drill.specs.Drilled.{drill_events, drilled_world};
ghost use Rattle.idx_drill.specs.Runs.{AreAnswered, HasAnswers};

use crate::writing::{CAPACITY, RANKS};
use idx_core::{StepRefusal, World, WorldRefusal, replay};
use idx_events::Event;
use idx_header::Header;
use idx_outside::{Bytes, NoMemory};
use idx_plan::Ask;
use std::alloc::Global;

/// The world of the volume and the questions after all events.
pub(crate) fn replayed(
    alloc: Global,
    number: u32,
    header: &Header,
    volume: Bytes,
    asks: &Vec<Ask>,
    events: &Vec<Event>,
) -> Result<World, NoMemory>
    requires some { 1 ≤ number }
    requires few { number ≤ 8 }
    requires header { header.now ≡ drill_header number }
    requires volume { volume ≡ drill_volume number }
    requires asks { asks.now.items ≡ drill_asks number }
    requires events { events.now.items ≡ drill_events number }
    ensures world { IfOk result (λ world. world ≡ drilled_world number) }
    ensures answers { IfOk result (λ world. AreAnswered number world.world.queries) }
{
    let mut volumes = Vec::new(alloc);
    volumes.push((0, volume))?;
    let world = match World::new(alloc, header, RANKS, &volumes, asks, CAPACITY) {
        Ok(world) => world,
        Err(WorldRefusal::NoMemory) => return Err(NoMemory),
        Err(WorldRefusal::WrongVolume { .. }) => unreachable!(),
        Err(WorldRefusal::WrongAsk { .. }) => unreachable!(),
    };
    match replay(alloc, world, events) {
        Ok(world) => Ok(world),
        Err((_, _, StepRefusal::NoMemory)) => Err(NoMemory),
        Err((_, _, StepRefusal::NotEnabled)) => unreachable!(),
    }
}

/// Whether the questions of a world have these answers, one by one.
pub(crate) fn has_answers(world: &World, answers: &Vec<Bytes>) -> bool
    ensures { IsTrue result ↔ HasAnswers world.now.world.queries answers.now.items }
{
    for number in 0..answers.len() {
        if !has_answer(world, number as u64, &answers[number]) {
            return false;
        }
    }
    true
}

/// Whether the question of a number has this answer.
fn has_answer(world: &World, number: u64, answer: &Bytes) -> bool
    ensures { IsTrue result ↔
        (option_map_or (λ x. x.answer) (slice_get world.now.world.queries number) None ≡ Some answer.now) }
{
    match world.answer_of(number) {
        Some(given) => given.as_slice() == answer.as_slice(),
        None => false,
    }
}
