//! An answer out of the hall.
ghost use Rattle.std.specs.Prelude.{◌≡◌, ◌+◌, ◌<◌, IfErr, IfOk, None, drop, length, replicate, true};
ghost use Rattle.idx_outside.specs.Cause.{MeetsOnce, NeverFalls};
ghost use Rattle.idx_layout.specs.Shape.{shape_of};
ghost use Rattle.idx_plan.specs.Needed.{answer_bytes};
ghost use Rattle.idx_session.specs.Entry.{state_of};
ghost use Rattle.idx_turn.specs.Stands.{Begins};
ghost use Rattle.idx_serve.specs.States.{IsAnswerRefused, IsFound};

use crate::Refusal;
use crate::texts::HEAD_ROOM;
use idx_hall::{Hall, LEAST_BYTES};
use idx_header::Header;
use idx_outside::{Blocks, Bytes, NoMemory, Reader};
use idx_plan::Ask;
use idx_query::{Report, answer};
use idx_turn::Turn;
use std::alloc::Global;

/// An answer, whose samples stand behind the room for the head of their reply.
#[derive(Drop)]
pub(crate) struct Found {
    pub(crate) report: Report,
    pub(crate) samples: Bytes,
}

/// The answer to a question, or why there is none.
pub(crate) fn find<E: Blocks + Drop, T: Turn<Hall<E>>, R: Reader<E::Leaf>>(
    alloc: Global,
    header: &Header,
    ask: &Ask,
    turn: &mut T,
    reader: &mut R,
) -> Result<Found, Refusal>
    requires field { ask.now.field < length header.now.fields }
    requires axes { length ask.now.region ≡ length header.now.box }
    requires shape { T.shape turn.old ≡ shape_of header.now }
    requires given { T.given turn.old ≡ None }
    ensures found { IfOk result (λ found. IsFound T.tells header.now ask.now
        (state_of (T.seen turn.old) (T.may_add turn.old) (R.faults reader.old) (R.reads reader.old)
        (T.kept turn.old) (T.holds turn.old))
        (state_of (T.seen turn.new) (T.may_add turn.new) (R.faults reader.new) (R.reads reader.new)
        (T.kept turn.new) (T.holds turn.new))
        (drop HEAD_ROOM found.samples) found.report) }
    ensures many { IfOk result (λ found. length found.samples ≡ HEAD_ROOM + answer_bytes header.now ask.now) }
    ensures refused { IfErr result (λ refusal. IsAnswerRefused T.tells header.now
        (state_of (T.seen turn.old) (T.may_add turn.old) (R.faults reader.old) (R.reads reader.old)
        (T.kept turn.old) (T.holds turn.old))
        (state_of (T.seen turn.new) (T.may_add turn.new) (R.faults reader.new) (R.reads reader.new)
        (T.kept turn.new) (T.holds turn.new))
        refusal ask.now) }
    ensures begins { Begins (T.seen turn.old) (T.seen turn.new) }
    ensures same { T.may_add turn.old ≡ true → T.seen turn.new ≡ T.seen turn.old }
    ensures may_add { T.may_add turn.new ≡ T.may_add turn.old }
    ensures shape { T.shape turn.new ≡ T.shape turn.old }
    ensures lock { T.lock turn.new ≡ T.lock turn.old }
    ensures given { T.given turn.new ≡ None }
    ensures count { NeverFalls (R.faults reader.old) (R.faults reader.new) }
    ensures once { MeetsOnce (R.faults reader.old) (R.faults reader.new) }
{
    let Ok(mut samples) = head_room(alloc) else {
        return Err(Refusal::NoMemory);
    };
    match answer(alloc, header, ask, turn, reader, &mut samples) {
        Ok(report) => Ok(Found { report, samples }),
        Err(fault) => Err(Refusal::from(fault)),
    }
}

/// Room for the head of a reply, in memory that a small answer behind it fits into.
fn head_room(alloc: Global) -> Result<Bytes, NoMemory>
    ensures { IfOk result (λ room. room ≡ replicate HEAD_ROOM 0) }
{
    let mut room = Bytes::with_capacity(alloc, LEAST_BYTES)?;
    room.append(&[0u8; HEAD_ROOM])?;
    Ok(room)
}
