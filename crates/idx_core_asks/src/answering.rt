//! A question is answered.
ghost use Rattle.std.specs.Prelude.{◌≡◌, All, IfOk, OnOk, Some, find, length, slice_get, true};
ghost use Rattle.idx_events.specs.Queries.{answered, can_answer};
ghost use Rattle.idx_core_layers.specs.Division.{layers_of};
ghost use Rattle.idx_core_asks.specs.Asked.{AskedValue, IsPlanned};
ghost use Rattle.idx_core_asks.specs.Asking.{IsAsking, MayAnswer};
ghost use Rattle.idx_hall.specs.Hall.{HallValue};

use crate::Asked;
use idx_core_layers::{Division, StepRefusal};
use std::alloc::Global;

/// The question of a number is answered by the samples of the blocks that it holds.
pub fn answer_in(
    alloc: Global,
    below: &Division,
    asked: &mut Vec<Asked>,
    query: u64,
) -> Result<(), StepRefusal>
    requires planned { All (IsPlanned below.now) asked.old.items }
    requires held { (x : AskedValue) → slice_get asked.old.items query ≡ Some x →
        can_answer (layers_of below.now) x.query ≡ true → MayAnswer x }
    ensures { (h : HallValue) → IsAsking (can_answer (layers_of below.now)) (λ x. h) (answered (layers_of below.now)) query
        asked.old.items h result asked.new.items h }
{
    let place = query as usize;
    if place >= asked.len() {
        return Err(StepRefusal::NotEnabled);
    }
    if !asked[place].can_answer(below) {
        return Err(StepRefusal::NotEnabled);
    }
    let Ok(bytes) = asked[place].put_together(alloc, below) else {
        return Err(StepRefusal::NoMemory);
    };
    asked[place].set_answer(bytes);
    Ok(())
}
