//! The replies to the heads of one link.
ghost use Rattle.std.specs.Prelude.{◌≡◌, ◌||◌, ℕ, None, IfOk, OnErr};
ghost use Rattle.idx_layout.specs.Shape.{shape_of};
ghost use Rattle.idx_session.specs.Entry.{mark_of, state_of};
ghost use Rattle.idx_serve.specs.Later.{IsLater};
ghost use Rattle.idx_serve.specs.Replies.{IsLost, IsReply, IsWrittenAs, seen_after};
ghost use Rattle.idx_serve.specs.States.{IsEased, IsHalved};
ghost use Rattle.idx_serve.specs.Texts.{refusal_reply};
ghost use Rattle.idx_serve.specs.declared.refusal.Refusal.{Refusal};

use crate::making::make;
use crate::question::asks_close;
use crate::texts::refusal_text;
use crate::{Refusal, Site};
use idx_hall::Hall;
use idx_outside::{Blocks, NoMemory, Reader};
use idx_session::{Answered, Asked, ReplyText, Responder};
use idx_turn::Turn;
use std::alloc::Global;
use std::marker::PhantomData;

/// Answers the heads of one link out of a hall of such steps. It keeps the length of the board that the last reply which
/// names one was made from.
#[derive(Drop)]
pub(crate) struct Answering<E: Blocks> {
    seen: u64,
    steps: PhantomData<E>,
}

impl<E: Blocks + Drop> Answering<E> {
    /// No board was named yet.
    pub(crate) fn new() -> Answering<E>
        ensures { result.seen ≡ 0 }
    {
        Answering {
            seen: 0,
            steps: PhantomData,
        }
    }
}

impl<E: Blocks + Drop, T: Turn<Hall<E>>, R: Reader<E::Leaf>> Responder<Site, T, R>
    for Answering<E> {
    ghost use Rattle.idx_serve.specs.Later.{later_same, later_on};

    ghost ready = { λ site turn. (T.shape turn ≡ shape_of site.header) × (T.given turn ≡ None) };

    ghost answers = { λ site. IsReply T.tells site };

    ghost lost = { λ site. IsLost T.tells site };

    ghost mark = { λ s turn reader. mark_of
        (state_of (T.seen turn) (T.may_add turn) (R.faults reader) (R.reads reader)
        (T.kept turn) (T.holds turn)) s.seen };

    ghost grew = { λ turn reader turn_2 reader_2. IsLater
        (state_of (T.seen turn) (T.may_add turn) (R.faults reader) (R.reads reader)
        (T.kept turn) (T.holds turn))
        (state_of (T.seen turn_2) (T.may_add turn_2) (R.faults reader_2) (R.reads reader_2)
        (T.kept turn_2) (T.holds turn_2))
        (T.shape turn) (T.shape turn_2) (T.lock turn) (T.lock turn_2) };

    ghost grew_same = { λ turn reader. later_same _ _ _ };

    ghost grew_on = { λ turn reader turn_2 reader_2 turn_3 reader_3 one two. later_on one two };

    fn answer(
        &mut self,
        alloc: Global,
        site: &Site,
        turn: &mut T,
        reader: &mut R,
        asked: &Asked,
        last: bool,
    ) -> Result<Answered, NoMemory> {
        let closes = last || asks_close(asked);
        match make(alloc, site, turn, reader, asked, closes) {
            Ok(made) => {
                self.seen = self.seen.max(made.post.saturating_add(1));
                Ok(Answered {
                    status: 200,
                    text: made.text,
                    closes,
                    seen: self.seen,
                    faults: reader.faults(),
                })
            }
            Err(reason) => {
                let closes = closes || reason.ends();
                let written = refuse(alloc, turn, reason, closes)?;
                self.seen = seen_after(written.refusal, self.seen);
                Ok(Answered {
                    status: written.refusal.status(),
                    text: written.text,
                    closes,
                    seen: self.seen,
                    faults: reader.faults(),
                })
            }
        }
    }
}

/// A refusal that was written down.
#[derive(Drop)]
struct Written {
    refusal: Refusal,
    text: ReplyText,
}

/// The length of the board that the last reply which names one was made from, after a refusal.
fn seen_after(refusal: Refusal, seen: u64) -> u64
    ensures { result ≡ seen_after refusal seen }
{
    match refusal {
        Refusal::NotPublished { board } => board,
        _ => seen,
    }
}

/// Writes a refusal down, or, where there is no memory for its text, want of memory. For that half of the cached blocks
/// are dropped first. Answers `NoMemory` only where not even that could be written down.
fn refuse<E: Blocks + Drop, T: Turn<Hall<E>>>(
    alloc: Global,
    turn: &mut T,
    reason: Refusal,
    closes: bool,
) -> Result<Written, NoMemory>
    requires given { T.given turn.old ≡ None }
    ensures written { IfOk result (λ written. IsWrittenAs reason written.refusal) }
    ensures text { IfOk result (λ written. written.text ≡ refusal_reply written.refusal closes) }
    ensures eased { (faults reads : ℕ) → IfOk result (λ written. IsEased T.tells written.refusal
        (state_of (T.seen turn.old) (T.may_add turn.old) faults reads
        (T.kept turn.old) (T.holds turn.old))
        (state_of (T.seen turn.new) (T.may_add turn.new) faults reads
        (T.kept turn.new) (T.holds turn.new))) }
    ensures halved { (faults reads : ℕ) → OnErr result (IsHalved T.tells
        (state_of (T.seen turn.old) (T.may_add turn.old) faults reads
        (T.kept turn.old) (T.holds turn.old))
        (state_of (T.seen turn.new) (T.may_add turn.new) faults reads
        (T.kept turn.new) (T.holds turn.new))) }
    ensures later { (faults reads : ℕ) → IsLater
        (state_of (T.seen turn.old) (T.may_add turn.old) faults reads
        (T.kept turn.old) (T.holds turn.old))
        (state_of (T.seen turn.new) (T.may_add turn.new) faults reads
        (T.kept turn.new) (T.holds turn.new))
        (T.shape turn.old) (T.shape turn.new) (T.lock turn.old) (T.lock turn.new) }
    ensures given { T.given turn.new ≡ None }
{
    match reason {
        Refusal::NoMemory => refuse_memory(alloc, turn, closes),
        refusal => match refusal_text(alloc, refusal, closes) {
            Ok(text) => Ok(Written { refusal, text }),
            Err(NoMemory) => refuse_memory(alloc, turn, closes),
        },
    }
}

/// Drops half of the cached blocks, and writes want of memory down.
fn refuse_memory<E: Blocks + Drop, T: Turn<Hall<E>>>(
    alloc: Global,
    turn: &mut T,
    closes: bool,
) -> Result<Written, NoMemory>
    requires given { T.given turn.old ≡ None }
    ensures written { (reason : Refusal) → IfOk result (λ written. IsWrittenAs reason written.refusal) }
    ensures text { IfOk result (λ written. written.text ≡ refusal_reply written.refusal closes) }
    ensures eased { (faults reads : ℕ) → IfOk result (λ written. IsEased T.tells written.refusal
        (state_of (T.seen turn.old) (T.may_add turn.old) faults reads
        (T.kept turn.old) (T.holds turn.old))
        (state_of (T.seen turn.new) (T.may_add turn.new) faults reads
        (T.kept turn.new) (T.holds turn.new))) }
    ensures halved { (faults reads : ℕ) → IsHalved T.tells
        (state_of (T.seen turn.old) (T.may_add turn.old) faults reads
        (T.kept turn.old) (T.holds turn.old))
        (state_of (T.seen turn.new) (T.may_add turn.new) faults reads
        (T.kept turn.new) (T.holds turn.new)) }
    ensures later { (faults reads : ℕ) → IsLater
        (state_of (T.seen turn.old) (T.may_add turn.old) faults reads
        (T.kept turn.old) (T.holds turn.old))
        (state_of (T.seen turn.new) (T.may_add turn.new) faults reads
        (T.kept turn.new) (T.holds turn.new))
        (T.shape turn.old) (T.shape turn.new) (T.lock turn.old) (T.lock turn.new) }
    ensures given { T.given turn.new ≡ None }
{
    evict_half(turn);
    let refusal = Refusal::NoMemory;
    let text = refusal_text(alloc, refusal, closes)?;
    Ok(Written { refusal, text })
}

/// Drops the half of the cached blocks, rounded up, that was used least recently.
fn evict_half<E: Blocks + Drop, T: Turn<Hall<E>>>(turn: &mut T)
    requires given { T.given turn.old ≡ None }
    ensures halved { (faults reads : ℕ) → IsHalved T.tells
        (state_of (T.seen turn.old) (T.may_add turn.old) faults reads
        (T.kept turn.old) (T.holds turn.old))
        (state_of (T.seen turn.new) (T.may_add turn.new) faults reads
        (T.kept turn.new) (T.holds turn.new)) }
    ensures shape { T.shape turn.new ≡ T.shape turn.old }
    ensures lock { T.lock turn.new ≡ T.lock turn.old }
    ensures given { T.given turn.new ≡ None }
{
    let mut held = turn.take();
    let count = held.get().cache_len();
    held.get_mut().evict(count - count / 2);
    turn.give(held);
}
