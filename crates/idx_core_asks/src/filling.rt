//! A question puts the blocks that it read into the cache, and ends its round.
ghost use Rattle.std.specs.Prelude.{◌≡◌, Some, slice_get, true};
ghost use Rattle.idx_events.specs.Events.{after_fill_of};
ghost use Rattle.idx_events.specs.Queries.{can_fill, fill};
ghost use Rattle.idx_core_asks.specs.Asked.{AskedValue};
ghost use Rattle.idx_core_asks.specs.Asking.{IsAsking, MayFill};

use crate::Asked;
use idx_core_layers::StepRefusal;
use idx_hall::Hall;
use idx_outside::Blocks;
use std::alloc::Global;

/// The question of a number ends its round: what it read is held, and goes into the cache where its post is the newest of
/// the timestep. The lists are made first; what comes then takes no memory.
pub fn fill_in<E: Blocks + Drop>(
    alloc: Global,
    hall: &mut Hall<E>,
    asked: &mut Vec<Asked>,
    query: u64,
) -> Result<(), StepRefusal>
    requires { (x : AskedValue) → slice_get asked.old.items query ≡ Some x → can_fill x.query ≡ true →
        MayFill hall.old x.query }
    ensures { IsAsking can_fill (λ x. after_fill_of x hall.old) fill query
        asked.old.items hall.old result asked.new.items hall.new }
{
    let place = query as usize;
    if place >= asked.len() {
        return Err(StepRefusal::NotEnabled);
    }
    if !asked[place].can_fill() {
        return Err(StepRefusal::NotEnabled);
    }
    let Ok(pairs) = asked[place].pairs(alloc) else {
        return Err(StepRefusal::NoMemory);
    };
    let Ok(progress) = asked[place].filled(alloc) else {
        return Err(StepRefusal::NoMemory);
    };
    let Some(post) = asked[place].post() else {
        unreachable!()
    };
    let _stale = hall.fill(post, pairs);
    asked[place].go_on(progress);
    Ok(())
}
