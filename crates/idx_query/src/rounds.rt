//! The rounds of an answer: in each a look, the blocks, and a fill.
ghost use Rattle.std.specs.Prelude.{◌≡◌, ◌+◌, ◌<◌, ◌≤◌, ◌⊎◌, [], Err, IfErr, IfOk, IfSome, None, OnErr, OnOk, Some, List, length, take, drop, slice_get, true};
ghost use Rattle.idx_outside.specs.Cause.{MeetsOnce, NeverFalls};
ghost use Rattle.idx_header.specs.Header.{block_bytes};
ghost use Rattle.idx_layout.specs.Shape.{shape_of};
ghost use Rattle.idx_hall.specs.declared.key.Key.{Key};
ghost use Rattle.idx_hall.specs.Looked.{not_looked};
ghost use Rattle.idx_hall.specs.Posts.{IsNewestOf, IsPostOf, Lacks, Post};
ghost use Rattle.idx_turn.specs.Stands.{Begins};
ghost use Rattle.idx_plan.specs.Needed.{plan_fault};
ghost use Rattle.idx_plan.specs.Plan.{IsPlan};
ghost use Rattle.idx_query.specs.Blocks.{IsPlanOf};
ghost use Rattle.idx_query.specs.Fault.{IsCaused, IsUnread};
ghost use Rattle.idx_query.specs.Reads.{ReadsAtMost};
ghost use Rattle.idx_query.specs.Rounds.{missed};
ghost use Rattle.idx_query.specs.Steps.{AreDone, CanCopy, DidRound, FirstLeft, HasLooked, IsPartOf, IsStoreFault, MadeRound, RoundLeft, kept_last, load_state};

use crate::copying::copy_blocks;
use crate::loading::Loading;
use crate::part::Part;
use crate::taking::{Seen, fill_cache, look_again, look_up};
use crate::{QueryFault, Report};
use idx_hall::{Hall, Looked};
use idx_header::Header;
use idx_outside::{Blocks, NoMemory, Reader};
use idx_plan::{Ask, Plan};
use idx_turn::Turn;
use std::alloc::Global;

/// The first round of an answer, with so many keys, out of the newest published step of the time.
#[tactic(auto, using(crate::proofs::ReadsLemmas::no_reads))]
pub(crate) fn first_round<E: Blocks + Drop, T: Turn<Hall<E>>, R: Reader<E::Leaf>>(
    alloc: Global,
    header: &Header,
    ask: &Ask,
    plan: &Plan,
    many: usize,
    turn: &mut T,
    reader: &mut R,
    out: &mut [u8],
) -> Result<Report, QueryFault>
    requires field { ask.now.field < length header.now.fields }
    requires shape { T.shape turn.old ≡ shape_of header.now }
    requires given { T.given turn.old ≡ None }
    requires plan { IsPlanOf header.now ask.now plan.now }
    requires valid { IsPlan plan.now }
    requires sound { plan_fault header.now ask.now ≡ None }
    requires within { many ≤ length plan.now.keys }
    requires room { length out.old ≡ plan.now.bytes }
    ensures did { IfOk result (λ report. (board : List Post) × Begins (T.seen turn.old) board ×
        Begins board (T.seen turn.new) × (T.tells ≡ true → IfSome (T.kept turn.old) (λ hall. hall.board ≡ board)) ×
        (post : Post) × IsNewestOf board ask.now.time report.post post ×
        DidRound ask.now plan.now (take many plan.now.keys) post report.post T.tells (T.kept turn.old) (T.kept turn.new)
        (T.holds turn.old) (T.holds turn.new) (R.reads reader.old) (R.reads reader.new) report out.old out.new) }
    ensures room { OnOk result (length out.new ≡ plan.now.bytes) }
    ensures left { IfErr result (FirstLeft ask.now.time (take many plan.now.keys) (T.seen turn.new) T.tells
        (T.kept turn.old) (T.kept turn.new) (T.holds turn.old) (T.holds turn.new)) }
    ensures cause { IfErr result (IsCaused header.now ask.now (T.seen turn.new)
        (R.faults reader.old) (R.faults reader.new)) }
    ensures few_reads { OnErr result (ReadsAtMost (R.reads reader.old) (R.reads reader.new) many) }
    ensures unread { IfErr result (λ fault. IsUnread fault → reader.new ≡ reader.old) }
    ensures unpublished { T.may_add turn.old ≡ true → Lacks ask.now.time (T.seen turn.old) →
        (result ≡ Err (QueryFault.NotPublished (length (T.seen turn.old)))) ⊎ (result ≡ Err QueryFault.NoMemory) }
    ensures count { NeverFalls (R.faults reader.old) (R.faults reader.new) }
    ensures once { MeetsOnce (R.faults reader.old) (R.faults reader.new) }
    ensures quiet { OnOk result (R.faults reader.new ≡ R.faults reader.old) }
    ensures begins { Begins (T.seen turn.old) (T.seen turn.new) }
    ensures same { T.may_add turn.old ≡ true → T.seen turn.new ≡ T.seen turn.old }
    ensures shape { T.shape turn.new ≡ T.shape turn.old }
    ensures may_add { T.may_add turn.new ≡ T.may_add turn.old }
    ensures lock { T.lock turn.new ≡ T.lock turn.old }
    ensures given { T.given turn.new ≡ None }
{
    let part = Part::new(plan, 0, many);
    let (mut looked, mut loading) = room_for(alloc, many, header.block_bytes(ask.field) as usize)?;
    let seen = look_up(turn, ask.time, part.keys(), &mut looked, &mut loading)?;
    match make_round(
        header, ask, plan, &part, seen, turn, reader, &looked, loading, out,
    ) {
        Ok(report) => Ok(report),
        Err(fault) => Err(fault),
    }
}

/// A later round of an answer, with so many keys from one on, out of the published step of this number.
#[tactic(auto, using(crate::proofs::ReadsLemmas::no_reads))]
pub(crate) fn next_round<E: Blocks + Drop, T: Turn<Hall<E>>, R: Reader<E::Leaf>>(
    alloc: Global,
    header: &Header,
    ask: &Ask,
    plan: &Plan,
    first: usize,
    many: usize,
    post: u64,
    turn: &mut T,
    reader: &mut R,
    out: &mut [u8],
) -> Result<Report, QueryFault>
    requires field { ask.now.field < length header.now.fields }
    requires shape { T.shape turn.old ≡ shape_of header.now }
    requires given { T.given turn.old ≡ None }
    requires plan { IsPlanOf header.now ask.now plan.now }
    requires valid { IsPlan plan.now }
    requires within { first + many ≤ length plan.now.keys }
    requires post { (p : Post) × IsPostOf (T.seen turn.old) ask.now.time post p }
    requires room { length out.old ≡ plan.now.bytes }
    ensures did { IfOk result (λ report. (p : Post) → slice_get (T.seen turn.old) post ≡ Some p →
        DidRound ask.now plan.now (take many (drop first plan.now.keys)) p post T.tells (T.kept turn.old)
        (T.kept turn.new) (T.holds turn.old) (T.holds turn.new) (R.reads reader.old) (R.reads reader.new) report
        out.old out.new) }
    ensures post { IfOk result (λ report. report.post ≡ post) }
    ensures room { OnOk result (length out.new ≡ plan.now.bytes) }
    ensures left { IfErr result (RoundLeft post (take many (drop first plan.now.keys)) (T.seen turn.new) T.tells
        (T.kept turn.old) (T.kept turn.new) (T.holds turn.old) (T.holds turn.new)) }
    ensures cause { IfErr result (IsStoreFault (R.faults reader.old) (R.faults reader.new)) }
    ensures few_reads { OnErr result (ReadsAtMost (R.reads reader.old) (R.reads reader.new) many) }
    ensures count { NeverFalls (R.faults reader.old) (R.faults reader.new) }
    ensures once { MeetsOnce (R.faults reader.old) (R.faults reader.new) }
    ensures quiet { OnOk result (R.faults reader.new ≡ R.faults reader.old) }
    ensures begins { Begins (T.seen turn.old) (T.seen turn.new) }
    ensures same { T.may_add turn.old ≡ true → T.seen turn.new ≡ T.seen turn.old }
    ensures shape { T.shape turn.new ≡ T.shape turn.old }
    ensures may_add { T.may_add turn.new ≡ T.may_add turn.old }
    ensures lock { T.lock turn.new ≡ T.lock turn.old }
    ensures given { T.given turn.new ≡ None }
{
    let part = Part::new(plan, first, many);
    let (mut looked, mut loading) = room_for(alloc, many, header.block_bytes(ask.field) as usize)?;
    let seen = look_again(turn, ask.time, post, part.keys(), &mut looked, &mut loading)?;
    match make_round(
        header, ask, plan, &part, seen, turn, reader, &looked, loading, out,
    ) {
        Ok(report) => Ok(report),
        Err(fault) => Err(fault),
    }
}

/// Room for what a look finds of so many keys, and for as many blocks of so many bytes that are fetched.
fn room_for<E: Blocks + Drop>(
    alloc: Global,
    many: usize,
    bytes: usize,
) -> Result<(Looked<E>, Loading), NoMemory>
    ensures looked { IfOk result (λ room. room.0 ≡ not_looked many) }
    ensures loading { IfOk result (λ room. room.1 ≡ load_state 0 [] bytes) }
{
    let looked = Looked::new(alloc, many as u64)?;
    let loading = Loading::new(alloc, many as u64, bytes)?;
    Ok((looked, loading))
}

/// What a round does behind its look: copies the samples, with what is missing fetched, and puts that into the cache. Where it is
/// refused, the hall is not taken again.
fn make_round<E: Blocks + Drop, T: Turn<Hall<E>>, R: Reader<E::Leaf>>(
    header: &Header,
    ask: &Ask,
    plan: &Plan,
    part: &Part<'_>,
    seen: Seen,
    turn: &mut T,
    reader: &mut R,
    looked: &Looked<E>,
    mut loading: Loading,
    out: &mut [u8],
) -> Result<Report, QueryFault>
    requires field { ask.now.field < length header.now.fields }
    requires shape { T.shape turn.old ≡ shape_of header.now }
    requires given { T.given turn.old ≡ None }
    requires plan { IsPlanOf header.now ask.now plan.now }
    requires valid { IsPlan plan.now }
    requires part { IsPartOf plan.now part.now }
    requires looked { HasLooked E.time E.shape E.has E.stored (T.shape turn.old) (T.seen turn.old) ask.now.time
        seen.post part.now.keys looked.now }
    requires loading { loading ≡ load_state 0 [] (block_bytes header.now ask.now.field) }
    requires room { length out.old ≡ plan.now.bytes }
    ensures made { IfOk result (λ report. (post : Post) → slice_get (T.seen turn.old) seen.post ≡ Some post →
        MadeRound ask.now plan.now part.now.keys looked.now.found (T.shape turn.old) post seen.post seen.room T.tells
        (T.kept turn.old) (T.kept turn.new) (T.holds turn.old) (T.holds turn.new) (R.reads reader.old)
        (R.reads reader.new) report out.old out.new) }
    ensures post { IfOk result (λ report. report.post ≡ seen.post) }
    ensures room { OnOk result (length out.new ≡ plan.now.bytes) }
    ensures kept { OnErr result (turn.new ≡ turn.old) }
    ensures cause { IfErr result (IsStoreFault (R.faults reader.old) (R.faults reader.new)) }
    ensures few_reads { OnErr result
        (ReadsAtMost (R.reads reader.old) (R.reads reader.new) (length part.now.keys)) }
    ensures count { NeverFalls (R.faults reader.old) (R.faults reader.new) }
    ensures once { MeetsOnce (R.faults reader.old) (R.faults reader.new) }
    ensures quiet { OnOk result (R.faults reader.new ≡ R.faults reader.old) }
    ensures begins { Begins (T.seen turn.old) (T.seen turn.new) }
    ensures same { T.may_add turn.old ≡ true → T.seen turn.new ≡ T.seen turn.old }
    ensures shape { T.shape turn.new ≡ T.shape turn.old }
    ensures may_add { T.may_add turn.new ≡ T.may_add turn.old }
    ensures lock { T.lock turn.new ≡ T.lock turn.old }
    ensures given { T.given turn.new ≡ None }
{
    match copy_round(part, ask.field, seen, looked, &mut loading, reader, out) {
        Ok(report) => {
            fill_cache(turn, seen.post, loading.into_loaded());
            Ok(report)
        }
        Err(fault) => Err(fault),
    }
}

/// Copies the samples of the blocks of a round to their places. Of what is fetched as many blocks are kept as the cache
/// still has behind the last of them.
fn copy_round<E: Blocks + Drop, R: Reader<E::Leaf>>(
    part: &Part<'_>,
    field: u32,
    seen: Seen,
    looked: &Looked<E>,
    loading: &mut Loading,
    reader: &mut R,
    out: &mut [u8],
) -> Result<Report, QueryFault>
    requires step { (edition : E) × (looked.now.edition ≡ Some edition) ×
        CanCopy E.shape E.stored edition field part.now loading.old.bytes looked.now.found }
    requires room { length out.old ≡ part.now.bytes }
    ensures done { IfOk result (λ report. (edition : E) → looked.now.edition ≡ Some edition →
        AreDone part.now field (E.has edition field) (E.stored edition) looked.now.found (length part.now.keys)
        (R.reads reader.old) (R.reads reader.new) (kept_last part.now.keys looked.now.found seen.room loading.old)
        loading.new report out.old out.new) }
    ensures post { IfOk result (λ report. report.post ≡ seen.post) }
    ensures room { OnOk result (length out.new ≡ part.now.bytes) }
    ensures count { NeverFalls (R.faults reader.old) (R.faults reader.new) }
    ensures once { MeetsOnce (R.faults reader.old) (R.faults reader.new) }
    ensures quiet { OnOk result (R.faults reader.new ≡ R.faults reader.old) }
    ensures cause { IfErr result (IsStoreFault (R.faults reader.old) (R.faults reader.new)) }
    ensures few_reads { OnErr result
        (ReadsAtMost (R.reads reader.old) (R.reads reader.new) (length part.now.keys)) }
{
    let Some(edition) = looked.edition() else {
        unreachable!()
    };
    loading.keep_last(count_missed(looked), seen.room);
    copy_blocks(
        part, field, &**edition, seen.post, looked, loading, reader, out,
    )
}

/// Of how many keys nothing was found.
fn count_missed<E: Blocks + Drop>(looked: &Looked<E>) -> u64
    ensures { (keys : List Key) → length keys ≡ length looked.now.found →
        result ≡ length (missed keys looked.now.found) }
{
    let mut count = 0;
    for i in 0..looked.len() {
        if looked.found(i).is_none() {
            count += 1;
        }
    }
    count
}
