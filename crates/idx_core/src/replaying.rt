//! Events in a world, one and many.
ghost use Rattle.std.specs.Prelude.{◌≡◌, MatchResult};
ghost use Rattle.idx_core_layers.specs.Division.{layers_of};
ghost use Rattle.idx_core.specs.World.{IsReplayed, IsStep};

use crate::World;
use idx_core_layers::StepRefusal;
use idx_events::Event;
use std::alloc::Global;

/// Does exactly what the event does where it may happen. After `NotEnabled`, which comes exactly where it may not, and
/// after `NoMemory` the world is as it was.
pub fn step(alloc: Global, world: &mut World, event: &Event) -> Result<(), StepRefusal>
    ensures layers { world.new.layers ≡ world.old.layers }
    ensures step { IsStep (layers_of world.old.layers) world.old.world event.now result world.new.world }
{
    world.step(alloc, event)
}

/// Does the events one after another, and gives the world after them. Where one is refused, it gives the world before that
/// one, its place from 0, and why.
pub fn replay(
    alloc: Global,
    mut world: World,
    events: &[Event],
) -> Result<World, (World, u64, StepRefusal)>
    ensures layers { MatchResult result (λ new. new.layers ≡ world.layers) (λ refused. refused.0.layers ≡ world.layers) }
    ensures replay { IsReplayed (layers_of world.layers) world.world events.now result }
{
    match world.replay(alloc, events) {
        Ok(()) => Ok(world),
        Err((place, refusal)) => Err((world, place, refusal)),
    }
}
