ghost use Rattle.std.specs.Prelude.{◌≡◌, Bool, true, IfOk, OnErr};
ghost use Rattle.idx_session.specs.declared.asked.Asked.{Asked};
ghost use Rattle.idx_session.specs.Entry.{Mark, Reply};

use crate::{Answered, Asked};
use idx_outside::NoMemory;
use std::alloc::Global;

/// Makes replies about a site, out of what it takes by turns, with a reader.
pub trait Responder<S, T, R> {
    /// What holds of the site and the turn before each reply and behind it.
    ghost ready: { S → T → Type 0 };

    /// Which replies may follow a mark.
    ghost answers: { S → Mark → Asked → Bool → Reply → Type 0 };

    /// What a head may leave behind a mark that gets no reply for want of memory.
    ghost lost: { S → Mark → Mark → Type 0 };

    /// What is known now.
    ghost mark: { Self → T → R → Mark };

    /// The turn and the reader that come second may be those of a later time.
    ghost grew: { T → R → T → R → Type 0 };

    /// Makes the reply to what was asked. The reply to the last head closes.
    fn answer(
        &mut self,
        alloc: Global,
        site: &S,
        turn: &mut T,
        reader: &mut R,
        asked: &Asked,
        last: bool,
    ) -> Result<Answered, NoMemory>
        requires ready { ready site.now turn.old }
        ensures ready { ready site.now turn.new }
        ensures answers { IfOk result (λ reply. answers site.now (mark self.old turn.old reader.old) asked.now last
            (record {
              status = reply.status;
              bytes = reply.text;
              closes = reply.closes;
              mark = mark self.new turn.new reader.new;
            })) }
        ensures seen { IfOk result (λ reply. (mark self.new turn.new reader.new).seen ≡ reply.seen) }
        ensures faults { IfOk result (λ reply. (mark self.new turn.new reader.new).state.faults ≡ reply.faults) }
        ensures closes { IfOk result (λ reply. last ≡ true → reply.closes ≡ true) }
        ensures lost { OnErr result
            (lost site.now (mark self.old turn.old reader.old) (mark self.new turn.new reader.new)) }
        ensures grew { grew turn.old reader.old turn.new reader.new };

    /// Nothing has to happen.
    ghost grew_same: { (turn : T) (reader : R) → grew turn reader turn reader };

    /// What is later than a later one is later.
    ghost grew_on: { (turn : T) (reader : R) (turn_2 : T) (reader_2 : R) (turn_3 : T) (reader_3 : R)
        → grew turn reader turn_2 reader_2 → grew turn_2 reader_2 turn_3 reader_3 → grew turn reader turn_3 reader_3 };
}
