//! What is done with a hall while it is taken.
ghost use Rattle.std.specs.Prelude.{◌≡◌, ◌<◌, ◌≤◌, ◌⊎◌, All, Err, IfErr, IfOk, IfSome, None, OnErr, OnOk, Some, length, slice_get, true};
ghost use Rattle.idx_hall.specs.Posts.{IsNewestOf, IsPostOf, Lacks, Post};
ghost use Rattle.idx_hall.specs.Hall.{IsBlockOf, after_fill};
ghost use Rattle.idx_hall.specs.Looked.{not_looked};
ghost use Rattle.idx_hall.specs.Calls.{pairs_of};
ghost use Rattle.idx_turn.specs.Stands.{Begins, MadeHolds};
ghost use Rattle.idx_query.specs.Steps.{HasLooked, IsSeen, held_for};

use crate::QueryFault;
use crate::loading::Loading;
use idx_hall::{Hall, Key, Looked};
use idx_outside::{Blocks, Bytes, NoMemory};
use idx_turn::Turn;
use std::sync::Arc;

/// What was seen of a hall: the number of the step, and for how many blocks the cache has room.
#[derive(Clone, Copy)]
pub(crate) struct Seen {
    pub(crate) post: u64,
    pub(crate) room: u64,
}

/// Takes the hall, looks for the blocks of some keys of one time in the newest step of the time, and gives it back. The
/// spare blocks that the look brings are for loading what is missing.
pub(crate) fn look_up<E: Blocks + Drop, T: Turn<Hall<E>>>(
    turn: &mut T,
    time: u64,
    keys: &[Key],
    looked: &mut Looked<E>,
    loading: &mut Loading,
) -> Result<Seen, QueryFault>
    requires given { T.given turn.old ≡ None }
    requires keys { All (λ key. key.time ≡ time) keys.now }
    requires empty { looked.old ≡ not_looked looked.old.room }
    requires room { length keys.now ≤ looked.old.room }
    ensures newest { IfOk result (λ seen. (post : Post) × IsNewestOf (T.seen turn.new) time seen.post post) }
    ensures looked { IfOk result (λ seen. HasLooked E.time E.shape E.has E.stored (T.shape turn.old) (T.seen turn.new)
        time seen.post keys.now looked.new) }
    ensures room { IfOk result (λ seen. 0 < seen.room) }
    ensures told { IfOk result (λ seen. T.tells ≡ true → IfSome (T.kept turn.old) (λ hall.
        IsSeen hall seen.post (T.shape turn.old) keys.now (T.kept turn.new) (T.seen turn.new) looked.new.found seen.room)) }
    ensures refused { IfErr result (λ fault. fault ≡ QueryFault.NoMemory ⊎
        ((fault ≡ QueryFault.NotPublished (length (T.seen turn.new))) × Lacks time (T.seen turn.new))) }
    ensures kept { OnErr result (T.tells ≡ true → T.kept turn.new ≡ T.kept turn.old) }
    ensures lacks { Lacks time (T.seen turn.new) →
        result ≡ Err (QueryFault.NotPublished (length (T.seen turn.new))) }
    ensures held { MadeHolds (T.holds turn.old) (T.holds turn.new) 1 }
    ensures begins { Begins (T.seen turn.old) (T.seen turn.new) }
    ensures same { T.may_add turn.old ≡ true → T.seen turn.new ≡ T.seen turn.old }
    ensures shape { T.shape turn.new ≡ T.shape turn.old }
    ensures may_add { T.may_add turn.new ≡ T.may_add turn.old }
    ensures lock { T.lock turn.new ≡ T.lock turn.old }
    ensures given { T.given turn.new ≡ None }
    ensures loading { loading.new ≡ loading.old }
{
    let mut held = turn.take();
    let found = held.get_mut().look(time, keys, looked);
    let board = held.get().board_len();
    let room = held.get().capacity();
    turn.give(held);
    loading.reuse(looked.take_spare());
    match found? {
        Some(post) => Ok(Seen { post, room }),
        None => Err(QueryFault::NotPublished { board }),
    }
}

/// Takes the hall, looks for the blocks of some keys in the step of this number, and gives it back, as `look_up` does.
pub(crate) fn look_again<E: Blocks + Drop, T: Turn<Hall<E>>>(
    turn: &mut T,
    time: u64,
    post: u64,
    keys: &[Key],
    looked: &mut Looked<E>,
    loading: &mut Loading,
) -> Result<Seen, NoMemory>
    requires given { T.given turn.old ≡ None }
    requires post { (p : Post) × IsPostOf (T.seen turn.old) time post p }
    requires keys { All (λ key. key.time ≡ time) keys.now }
    requires empty { looked.old ≡ not_looked looked.old.room }
    requires room { length keys.now ≤ looked.old.room }
    ensures looked { OnOk result (HasLooked E.time E.shape E.has E.stored (T.shape turn.old) (T.seen turn.new)
        time post keys.now looked.new) }
    ensures post { IfOk result (λ seen. seen.post ≡ post) }
    ensures room { IfOk result (λ seen. 0 < seen.room) }
    ensures told { IfOk result (λ seen. T.tells ≡ true → IfSome (T.kept turn.old) (λ hall.
        IsSeen hall post (T.shape turn.old) keys.now (T.kept turn.new) (T.seen turn.new) looked.new.found seen.room)) }
    ensures kept { OnErr result (T.tells ≡ true → T.kept turn.new ≡ T.kept turn.old) }
    ensures held { MadeHolds (T.holds turn.old) (T.holds turn.new) 1 }
    ensures begins { Begins (T.seen turn.old) (T.seen turn.new) }
    ensures same { T.may_add turn.old ≡ true → T.seen turn.new ≡ T.seen turn.old }
    ensures shape { T.shape turn.new ≡ T.shape turn.old }
    ensures may_add { T.may_add turn.new ≡ T.may_add turn.old }
    ensures lock { T.lock turn.new ≡ T.lock turn.old }
    ensures given { T.given turn.new ≡ None }
    ensures loading { loading.new ≡ loading.old }
{
    let mut held = turn.take();
    let found = held.get_mut().look_at(post, keys, looked);
    let room = held.get().capacity();
    turn.give(held);
    loading.reuse(looked.take_spare());
    found?;
    Ok(Seen { post, room })
}

/// Takes the hall, puts loaded blocks of a step into its cache, and gives it back. Without a block it is not taken.
pub(crate) fn fill_cache<E: Blocks + Drop, T: Turn<Hall<E>>>(
    turn: &mut T,
    post: u64,
    loaded: Vec<(Key, Arc<Bytes>)>,
)
    requires given { T.given turn.old ≡ None }
    requires blocks { (p : Post) × (slice_get (T.seen turn.old) post ≡ Some p) ×
        All (IsBlockOf (T.shape turn.old) p) (pairs_of loaded.items) }
    ensures told { T.tells ≡ true → IfSome (T.kept turn.old) (λ hall.
        T.kept turn.new ≡ Some (after_fill post (pairs_of loaded.items) hall)) }
    ensures held { MadeHolds (T.holds turn.old) (T.holds turn.new) (held_for (pairs_of loaded.items)) }
    ensures begins { Begins (T.seen turn.old) (T.seen turn.new) }
    ensures same { T.may_add turn.old ≡ true → T.seen turn.new ≡ T.seen turn.old }
    ensures shape { T.shape turn.new ≡ T.shape turn.old }
    ensures may_add { T.may_add turn.new ≡ T.may_add turn.old }
    ensures lock { T.lock turn.new ≡ T.lock turn.old }
    ensures given { T.given turn.new ≡ None }
{
    if loaded.is_empty() {
        return;
    }
    let mut held = turn.take();
    let _stale = held.get_mut().fill(post, loaded);
    turn.give(held);
}
