//! One head is answered.
ghost use Rattle.std.specs.Prelude.{◌≡◌};
ghost use Rattle.idx_outside.specs.Cause.{MeetsOnce, NeverFalls};
ghost use Rattle.idx_session.specs.Entry.{target_of};
ghost use Rattle.idx_session.specs.Session.{IsStep, StepCounts};

use crate::{Asked, Responder};
use idx_outside::{Bytes, Link, Served};
use std::alloc::Global;

/// How the answer to one head went.
#[derive(Clone, Copy, Debug)]
pub(crate) enum Step {
    /// It was written, and more may follow.
    Open,
    /// It was written, and is the last one.
    Closing,
    /// It is noted, and the link failed.
    Fault { faults: u64 },
    /// It is neither noted nor written.
    NoMemory,
}

/// Makes the reply, notes it and writes it. The room for the note is there before the reply is made.
pub(crate) fn answer_one<S, T, R, P: Responder<S, T, R>, L: Link>(
    alloc: Global,
    responder: &mut P,
    site: &S,
    turn: &mut T,
    reader: &mut R,
    link: &mut L,
    served: &mut Vec<Served>,
    asked: Asked,
    last: bool,
) -> Step
    requires ready { P.ready site.now turn.old }
    ensures ready { P.ready site.now turn.new }
    ensures step { IsStep (P.answers site.now) (P.lost site.now) (P.mark responder.old turn.old reader.old)
        (P.mark responder.new turn.new reader.new) asked last served.old.items served.new.items
        (L.written link.old) (L.written link.new) result }
    ensures incoming { L.incoming link.new ≡ L.incoming link.old }
    ensures readings { L.readings link.new ≡ L.readings link.old }
    ensures grew { P.grew turn.old reader.old turn.new reader.new }
    ensures count { NeverFalls (L.faults link.old) (L.faults link.new) }
    ensures once { MeetsOnce (L.faults link.old) (L.faults link.new) }
    ensures counts { StepCounts (L.faults link.old) (L.faults link.new) result }
{
    let Ok(()) = served.reserve(1) else {
        return Step::NoMemory;
    };
    let Ok(answered) = responder.answer(alloc, site, turn, reader, &asked, last) else {
        return Step::NoMemory;
    };
    let target = target_of(alloc, asked);
    let entry = Served {
        target,
        status: answered.status,
        seen: answered.seen,
        faults: answered.faults,
    };
    let Ok(()) = served.push(entry) else {
        unreachable!();
    };
    match link.write(answered.text.as_slice()) {
        Ok(()) if answered.closes => Step::Closing,
        Ok(()) => Step::Open,
        Err(_) => Step::Fault {
            faults: link.faults(),
        },
    }
}

/// The target that was asked for; empty where there was none.
fn target_of(alloc: Global, asked: Asked) -> Bytes
    ensures { result ≡ target_of asked }
{
    match asked {
        Asked::Head(head) => head.target,
        Asked::Bad | Asked::TooBig => Bytes::new(alloc),
    }
}
