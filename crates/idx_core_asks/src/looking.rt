//! A question looks for the blocks of its next round.
ghost use Rattle.std.specs.Prelude.{◌≡◌, All, IfOk, Some, slice_get, true};
ghost use Rattle.idx_events.specs.Events.{after_look_in};
ghost use Rattle.idx_events.specs.Queries.{can_look, look, post_for, round_keys};
ghost use Rattle.idx_core_layers.specs.Division.{layers_of};
ghost use Rattle.idx_core_asks.specs.Asked.{AskedValue, IsPlanned, query_of};
ghost use Rattle.idx_core_asks.specs.Asking.{IsAsking, MayLook};

use crate::{Asked, Progress};
use idx_core_layers::{Division, StepRefusal};
use idx_hall::{Hall, Looked};
use idx_outside::{Blocks, NoMemory};
use std::alloc::Global;

/// The question of a number looks for the blocks of its next round in the cache. In its first round it notes the newest
/// post of its timestep, and all rounds are of that post. What was found is held. The hall is copied, and the copy is looked
/// into, so that nothing has changed where there is not enough memory.
pub fn look_in<E: Blocks + Drop>(
    alloc: Global,
    below: &Division,
    hall: &mut Hall<E>,
    asked: &mut Vec<Asked>,
    query: u64,
) -> Result<(), StepRefusal>
    requires planned { All (IsPlanned below.now) asked.old.items }
    requires looks { (x : AskedValue) → slice_get asked.old.items query ≡ Some x →
        can_look (layers_of below.now) hall.old.board x.query ≡ true → MayLook hall.old x.query }
    ensures { IsAsking (can_look (layers_of below.now) hall.old.board)
        (λ x. after_look_in (post_for hall.old.board x) (round_keys (layers_of below.now) x) hall.old)
        (look (layers_of below.now) hall.old) query
        asked.old.items hall.old result asked.new.items hall.new }
{
    let place = query as usize;
    if place >= asked.len() {
        return Err(StepRefusal::NotEnabled);
    }
    if !asked[place].can_look(below, hall) {
        return Err(StepRefusal::NotEnabled);
    }
    match looked_by(alloc, below, hall, &asked[place]) {
        Ok((copy, progress)) => {
            *hall = copy;
            asked[place].go_on(progress);
            Ok(())
        }
        Err(_) => Err(StepRefusal::NoMemory),
    }
}

/// What a look makes of a copy of the hall, and how far the question is then.
fn looked_by<E: Blocks + Drop>(
    alloc: Global,
    below: &Division,
    hall: &Hall<E>,
    asked: &Asked,
) -> Result<(Hall<E>, Progress), NoMemory>
    requires planned { IsPlanned below.now asked.now }
    requires can { can_look (layers_of below.now) hall.now.board asked.now.query ≡ true }
    requires may { MayLook hall.now asked.now.query }
    ensures hall { IfOk result (λ made. made.0 ≡ after_look_in (post_for hall.now.board asked.now.query)
        (round_keys (layers_of below.now) asked.now.query) hall.now) }
    ensures query { IfOk result (λ made. query_of asked.now.query.ask made.1 asked.now.query.answer ≡
        look (layers_of below.now) hall.now asked.now.query) }
{
    let keys = asked.round_keys(alloc, below)?;
    let mut looked = Looked::new(alloc, keys.len() as u64)?;
    let mut copy = hall.copy(alloc)?;
    let Some(post) = post_for(hall, asked) else {
        unreachable!()
    };
    copy.look_at(post, &keys, &mut looked)?;
    let progress = asked.looked(alloc, post, &keys, &looked)?;
    Ok((copy, progress))
}

/// The post of a question: that which it noted, or else the newest of its timestep.
fn post_for<E: Blocks + Drop>(hall: &Hall<E>, asked: &Asked) -> Option<u64>
    ensures { result ≡ post_for hall.now.board asked.now.query }
{
    match asked.post() {
        Some(post) => Some(post),
        None => hall.newest(asked.ask().time),
    }
}
