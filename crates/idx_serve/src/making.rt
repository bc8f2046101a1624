//! A reply with samples.
ghost use Rattle.std.specs.Prelude.{◌≡◌, None, IfErr, IfOk};
ghost use Rattle.idx_layout.specs.Shape.{shape_of};
ghost use Rattle.idx_session.specs.Entry.{state_of};
ghost use Rattle.idx_serve.specs.Later.{IsLater};
ghost use Rattle.idx_serve.specs.Replies.{IsMade};
ghost use Rattle.idx_serve.specs.States.{IsRefused};

use crate::found::find;
use crate::question::question_of;
use crate::texts::answer_text;
use crate::{Refusal, Site};
use idx_hall::Hall;
use idx_outside::{Blocks, NoMemory, Reader};
use idx_session::{Asked, ReplyText};
use idx_turn::Turn;
use std::alloc::Global;

/// A reply with samples, and the number of the post that it is out of.
#[derive(Drop)]
pub(crate) struct Made {
    pub(crate) text: ReplyText,
    pub(crate) post: u64,
}

/// The reply with the samples that are asked for, or why there is none.
pub(crate) fn make<E: Blocks + Drop, T: Turn<Hall<E>>, R: Reader<E::Leaf>>(
    alloc: Global,
    site: &Site,
    turn: &mut T,
    reader: &mut R,
    asked: &Asked,
    closes: bool,
) -> Result<Made, Refusal>
    requires shape { T.shape turn.old ≡ shape_of site.now.header }
    requires given { T.given turn.old ≡ None }
    ensures made { IfOk result (λ made. IsMade T.tells site.now
        (state_of (T.seen turn.old) (T.may_add turn.old) (R.faults reader.old) (R.reads reader.old)
        (T.kept turn.old) (T.holds turn.old))
        (state_of (T.seen turn.new) (T.may_add turn.new) (R.faults reader.new) (R.reads reader.new)
        (T.kept turn.new) (T.holds turn.new))
        asked.now closes made.text made.post) }
    ensures refused { IfErr result (IsRefused T.tells site.now asked.now
        (state_of (T.seen turn.old) (T.may_add turn.old) (R.faults reader.old) (R.reads reader.old)
        (T.kept turn.old) (T.holds turn.old))
        (state_of (T.seen turn.new) (T.may_add turn.new) (R.faults reader.new) (R.reads reader.new)
        (T.kept turn.new) (T.holds turn.new))) }
    ensures later { IsLater
        (state_of (T.seen turn.old) (T.may_add turn.old) (R.faults reader.old) (R.reads reader.old)
        (T.kept turn.old) (T.holds turn.old))
        (state_of (T.seen turn.new) (T.may_add turn.new) (R.faults reader.new) (R.reads reader.new)
        (T.kept turn.new) (T.holds turn.new))
        (T.shape turn.old) (T.shape turn.new) (T.lock turn.old) (T.lock turn.new) }
    ensures given { T.given turn.new ≡ None }
{
    let ask = match question_of(alloc, site, asked) {
        Ok(ask) => ask,
        Err(refusal) => return Err(refusal),
    };
    let found = match find(alloc, &site.header, &ask, turn, reader) {
        Ok(found) => found,
        Err(refusal) => return Err(refusal),
    };
    let post = found.report.post;
    match answer_text(alloc, &site.header, &ask, post, closes, found.samples) {
        Ok(text) => Ok(Made { text, post }),
        Err(NoMemory) => Err(Refusal::NoMemory),
    }
}
