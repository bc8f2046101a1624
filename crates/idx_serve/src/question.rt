//! What a head asks.
ghost use Rattle.std.specs.Prelude.{◌≡◌, ◌<◌, IfErr, IfOk, OnOk, length};
ghost use Rattle.idx_serve.specs.Questions.{IsQuestion, asks_close};
ghost use Rattle.idx_serve.specs.States.{IsAskRefused};

use crate::{Refusal, Site};
use idx_plan::Ask;
use idx_request::{TargetFault, read_target};
use idx_session::Asked;
use std::alloc::Global;

/// The question that is asked, or why there is none.
pub(crate) fn question_of(alloc: Global, site: &Site, asked: &Asked) -> Result<Ask, Refusal>
    ensures question { IfOk result (IsQuestion site.now asked.now) }
    ensures field { IfOk result (λ ask. ask.field < length site.now.header.fields) }
    ensures axes { IfOk result (λ ask. length ask.region ≡ length site.now.header.box) }
    ensures refused { IfErr result (IsAskRefused site.now asked.now) }
{
    let head = match asked {
        Asked::Head(head) => head,
        Asked::Bad => return Err(Refusal::BadHead),
        Asked::TooBig => return Err(Refusal::HeadTooLarge),
    };
    if head.body {
        return Err(Refusal::HasBody);
    }
    if !head.get {
        return Err(Refusal::NotGet);
    }
    match read_target(
        alloc,
        head.target.as_slice(),
        &site.header,
        site.name.as_slice(),
    ) {
        Ok(ask) => {
            prove!(ask.field < site.header.field_count());
            Ok(ask)
        }
        Err(TargetFault::NoMemory) => Err(Refusal::NoMemory),
        Err(fault) => Err(Refusal::Target(fault)),
    }
}

/// Whether the head asks that its reply be the last one.
pub(crate) fn asks_close(asked: &Asked) -> bool
    ensures { result ≡ asks_close asked.now }
{
    match asked {
        Asked::Head(head) => head.close,
        Asked::Bad => false,
        Asked::TooBig => false,
    }
}
