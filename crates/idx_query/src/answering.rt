ghost use Rattle.std.specs.Prelude.{◌≡◌, ℕ, ◌+◌, ◌*◌, ◌^◌, ◌<◌, ◌⊎◌, ◌≤◌, [], Err, IfErr, IfOk, IfSome, None, OnErr, OnOk, Some, length, true};
ghost use Rattle.idx_outside.specs.Cause.{MadeReads, MeetsOnce, NeverFalls};
ghost use Rattle.idx_layout.specs.Shape.{shape_of};
ghost use Rattle.idx_hall.specs.Posts.{Lacks};
ghost use Rattle.idx_turn.specs.Stands.{Begins};
ghost use Rattle.idx_plan.specs.Needed.{needed, plan_fault};
ghost use Rattle.idx_plan.specs.Plan.{IsPlan};
ghost use Rattle.idx_plan.specs.Rounds.{cut_count};
ghost use Rattle.idx_plan.specs.declared.plan_fault.PlanFault.{PlanFault};
ghost use Rattle.idx_query.specs.Blocks.{IsPlanOf};
ghost use Rattle.idx_query.specs.Reads.{ReadsAtMost};
ghost use Rattle.idx_query.specs.Answered.{IsAnswered, IsDone, IsHeld, IsHeldAtFault, IsLeft};
ghost use Rattle.idx_query.specs.Fault.{IsCaused, IsUnread};

use crate::rounds::{first_round, next_round};
use crate::{QueryFault, Report};
use idx_hall::Hall;
use idx_header::Header;
use idx_outside::{Blocks, Bytes, Reader};
use idx_plan::{Ask, Plan, plan, width};
use idx_turn::Turn;
use std::alloc::Global;
use std::mem::replace;

/// Appends the answer to a question out of the newest published step of its time, the samples in row-major order. It works in
/// rounds, each of as many of the needed blocks as have 2^26 bytes (`width`), rising: the hall is taken for a look; the blocks
/// that are not cached are fetched, each once; and where some were, the hall is taken once more, and they are put into the cache,
/// unless a newer step of the time was published meanwhile. All rounds are of the one step that the first one found. So no more
/// is in memory than the answer, the keys, and the blocks of one round. What a round needs in memory is made before its look,
/// but for the blocks themselves.
///
/// After a refusal the bytes are as they were, and no more reads were made than blocks are needed.
#[tactic(auto, using(crate::proofs::ReadsLemmas::no_reads, crate::proofs::ReadsLemmas::reads_needed))]
pub fn answer<E: Blocks + Drop, T: Turn<Hall<E>>, R: Reader<E::Leaf>>(
    alloc: Global,
    header: &Header,
    ask: &Ask,
    turn: &mut T,
    reader: &mut R,
    out: &mut Bytes,
) -> Result<Report, QueryFault>
    requires field { ask.now.field < length header.now.fields }
    requires axes { length ask.now.region ≡ length header.now.box }
    requires shape { T.shape turn.old ≡ shape_of header.now }
    requires given { T.given turn.old ≡ None }

    // The answer stands behind what was there, so many reads were made, and the hall was held so often.
    ensures answered { IfOk result (λ report.
        IsAnswered header.now ask.now (T.seen turn.old) (T.seen turn.new) out.old out.new report) }
    ensures reads { IfOk result (λ report. MadeReads (R.reads reader.old) (R.reads reader.new) report.reads) }
    ensures held { IfOk result (IsHeld header.now ask.now (T.holds turn.old) (T.holds turn.new)) }
    ensures sound { OnOk result (plan_fault header.now ask.now ≡ None) }

    // Each refusal has its cause, and leaves the bytes as they were.
    ensures cause { IfErr result (IsCaused header.now ask.now (T.seen turn.new)
        (R.faults reader.old) (R.faults reader.new)) }
    ensures few_reads { OnErr result
        (ReadsAtMost (R.reads reader.old) (R.reads reader.new) (length (needed header.now ask.now))) }
    ensures few_holds { IfErr result (IsHeldAtFault header.now ask.now (T.holds turn.old) (T.holds turn.new)) }
    ensures refused { (fault : PlanFault) → plan_fault header.now ask.now ≡ Some fault →
        (result ≡ Err (QueryFault.Plan fault)) × (turn.new ≡ turn.old) }
    ensures unpublished { T.may_add turn.old ≡ true → plan_fault header.now ask.now ≡ None →
        Lacks ask.now.time (T.seen turn.old) →
        (result ≡ Err (QueryFault.NotPublished (length (T.seen turn.old)))) ⊎ (result ≡ Err QueryFault.NoMemory) }
    ensures unread { IfErr result (λ fault. IsUnread fault → reader.new ≡ reader.old) }
    ensures kept { OnErr result (out.new ≡ out.old) }
    ensures count { NeverFalls (R.faults reader.old) (R.faults reader.new) }
    ensures once { MeetsOnce (R.faults reader.old) (R.faults reader.new) }
    ensures quiet { OnOk result (R.faults reader.new ≡ R.faults reader.old) }

    // The hall afterwards, where the turn tells it.
    ensures done { IfOk result (λ report. T.tells ≡ true → IfSome (T.kept turn.old) (λ hall.
        IsDone header.now ask.now hall (T.kept turn.new) (T.holds turn.old) (T.holds turn.new) report)) }
    ensures left { IfErr result (λ fault. T.tells ≡ true → IfSome (T.kept turn.old) (λ hall.
        IsLeft header.now ask.now hall (T.kept turn.new) (T.holds turn.old) (T.holds turn.new) fault)) }

    // Everything that was taken is given back, and nothing is published.
    ensures begins { Begins (T.seen turn.old) (T.seen turn.new) }
    ensures same { T.may_add turn.old ≡ true → T.seen turn.new ≡ T.seen turn.old }
    ensures shape { T.shape turn.new ≡ T.shape turn.old }
    ensures may_add { T.may_add turn.new ≡ T.may_add turn.old }
    ensures lock { T.lock turn.new ≡ T.lock turn.old }
    ensures given { T.given turn.new ≡ None }
{
    let plan = plan(alloc, header, ask)?;
    let mut appended = replace(out, Bytes::new(alloc)).into_vec();
    let answered = append_answer(alloc, header, ask, &plan, turn, reader, &mut appended);
    *out = Bytes::from_vec(appended);
    answered
}

/// Appends the answer of a plan.
#[tactic(auto, using(crate::proofs::ReadsLemmas::no_reads))]
fn append_answer<E: Blocks + Drop, T: Turn<Hall<E>>, R: Reader<E::Leaf>>(
    alloc: Global,
    header: &Header,
    ask: &Ask,
    plan: &Plan,
    turn: &mut T,
    reader: &mut R,
    out: &mut Vec<u8>,
) -> Result<Report, QueryFault>
    requires field { ask.now.field < length header.now.fields }
    requires axes { length ask.now.region ≡ length header.now.box }
    requires shape { T.shape turn.old ≡ shape_of header.now }
    requires given { T.given turn.old ≡ None }
    requires plan { IsPlanOf header.now ask.now plan.now }
    requires sound { plan_fault header.now ask.now ≡ None }
    ensures answered { IfOk result (λ report.
        IsAnswered header.now ask.now (T.seen turn.old) (T.seen turn.new) out.old.items out.new.items report) }
    ensures reads { IfOk result (λ report. MadeReads (R.reads reader.old) (R.reads reader.new) report.reads) }
    ensures held { IfOk result (IsHeld header.now ask.now (T.holds turn.old) (T.holds turn.new)) }
    ensures cause { IfErr result (IsCaused header.now ask.now (T.seen turn.new)
        (R.faults reader.old) (R.faults reader.new)) }
    ensures few_reads { OnErr result
        (ReadsAtMost (R.reads reader.old) (R.reads reader.new) (length plan.now.keys)) }
    ensures few_holds { IfErr result (IsHeldAtFault header.now ask.now (T.holds turn.old) (T.holds turn.new)) }
    ensures unpublished { T.may_add turn.old ≡ true → Lacks ask.now.time (T.seen turn.old) →
        (result ≡ Err (QueryFault.NotPublished (length (T.seen turn.old)))) ⊎ (result ≡ Err QueryFault.NoMemory) }
    ensures unread { IfErr result (λ fault. IsUnread fault → reader.new ≡ reader.old) }
    ensures kept { OnErr result (out.new.items ≡ out.old.items) }
    ensures count { NeverFalls (R.faults reader.old) (R.faults reader.new) }
    ensures once { MeetsOnce (R.faults reader.old) (R.faults reader.new) }
    ensures quiet { OnOk result (R.faults reader.new ≡ R.faults reader.old) }
    ensures done { IfOk result (λ report. T.tells ≡ true → IfSome (T.kept turn.old) (λ hall.
        IsDone header.now ask.now hall (T.kept turn.new) (T.holds turn.old) (T.holds turn.new) report)) }
    ensures left { IfErr result (λ fault. T.tells ≡ true → IfSome (T.kept turn.old) (λ hall.
        IsLeft header.now ask.now hall (T.kept turn.new) (T.holds turn.old) (T.holds turn.new) fault)) }
    ensures begins { Begins (T.seen turn.old) (T.seen turn.new) }
    ensures same { T.may_add turn.old ≡ true → T.seen turn.new ≡ T.seen turn.old }
    ensures shape { T.shape turn.new ≡ T.shape turn.old }
    ensures may_add { T.may_add turn.new ≡ T.may_add turn.old }
    ensures lock { T.lock turn.new ≡ T.lock turn.old }
    ensures given { T.given turn.new ≡ None }
{
    let used = out.len();
    out.resize(used + plan.bytes() as usize, 0)?;
    match answer_rounds(alloc, header, ask, plan, turn, reader, &mut out[used..]) {
        Ok(report) => Ok(report),
        Err(fault) => {
            out.truncate(used);
            Err(fault)
        }
    }
}

/// Fills the place of an answer, round after round, all out of the step that the first one finds.
#[tactic(auto, using(crate::proofs::ReadsLemmas::no_reads))]
fn answer_rounds<E: Blocks + Drop, T: Turn<Hall<E>>, R: Reader<E::Leaf>>(
    alloc: Global,
    header: &Header,
    ask: &Ask,
    plan: &Plan,
    turn: &mut T,
    reader: &mut R,
    out: &mut [u8],
) -> Result<Report, QueryFault>
    requires field { ask.now.field < length header.now.fields }
    requires axes { length ask.now.region ≡ length header.now.box }
    requires shape { T.shape turn.old ≡ shape_of header.now }
    requires given { T.given turn.old ≡ None }
    requires plan { IsPlanOf header.now ask.now plan.now }
    requires valid { IsPlan plan.now }
    requires sound { plan_fault header.now ask.now ≡ None }
    requires room { length out.old ≡ plan.now.bytes }
    ensures answered { IfOk result (λ report.
        IsAnswered header.now ask.now (T.seen turn.old) (T.seen turn.new) [] out.new report) }
    ensures reads { IfOk result (λ report. MadeReads (R.reads reader.old) (R.reads reader.new) report.reads) }
    ensures held { IfOk result (IsHeld header.now ask.now (T.holds turn.old) (T.holds turn.new)) }
    ensures cause { IfErr result (IsCaused header.now ask.now (T.seen turn.new)
        (R.faults reader.old) (R.faults reader.new)) }
    ensures few_reads { OnErr result
        (ReadsAtMost (R.reads reader.old) (R.reads reader.new) (length plan.now.keys)) }
    ensures few_holds { IfErr result (IsHeldAtFault header.now ask.now (T.holds turn.old) (T.holds turn.new)) }
    ensures unpublished { T.may_add turn.old ≡ true → Lacks ask.now.time (T.seen turn.old) →
        (result ≡ Err (QueryFault.NotPublished (length (T.seen turn.old)))) ⊎ (result ≡ Err QueryFault.NoMemory) }
    ensures unread { IfErr result (λ fault. IsUnread fault → reader.new ≡ reader.old) }
    ensures count { NeverFalls (R.faults reader.old) (R.faults reader.new) }
    ensures once { MeetsOnce (R.faults reader.old) (R.faults reader.new) }
    ensures quiet { OnOk result (R.faults reader.new ≡ R.faults reader.old) }
    ensures done { IfOk result (λ report. T.tells ≡ true → IfSome (T.kept turn.old) (λ hall.
        IsDone header.now ask.now hall (T.kept turn.new) (T.holds turn.old) (T.holds turn.new) report)) }
    ensures left { IfErr result (λ fault. T.tells ≡ true → IfSome (T.kept turn.old) (λ hall.
        IsLeft header.now ask.now hall (T.kept turn.new) (T.holds turn.old) (T.holds turn.new) fault)) }
    ensures begins { Begins (T.seen turn.old) (T.seen turn.new) }
    ensures same { T.may_add turn.old ≡ true → T.seen turn.new ≡ T.seen turn.old }
    ensures shape { T.shape turn.new ≡ T.shape turn.old }
    ensures may_add { T.may_add turn.new ≡ T.may_add turn.old }
    ensures lock { T.lock turn.new ≡ T.lock turn.old }
    ensures given { T.given turn.new ≡ None }
{
    let keys = plan.keys().len();
    let width = width(header, ask.field) as usize;
    let mut report = first_round(alloc, header, ask, plan, keys.min(width), turn, reader, out)?;
    for number in 1..round_count(keys, width) {
        let first = number * width;
        let many = (keys - first).min(width);
        let round = next_round(
            alloc,
            header,
            ask,
            plan,
            first,
            many,
            report.post,
            turn,
            reader,
            out,
        )?;
        report = report.with_round(&round);
    }
    Ok(report)
}

/// In how many rounds so many blocks are looked for, so many at a time.
fn round_count(blocks: usize, width: usize) -> usize
    requires some { 1 ≤ width }
    requires few { width ≤ 2 ^ 26 }
    requires few_blocks { blocks ≤ 2 ^ 60 }
    ensures count { result ≡ cut_count width blocks }
    ensures within { (number : ℕ) → 1 ≤ number → number < result → number * width < blocks }
{
    blocks.div_ceil(width).max(1)
}
