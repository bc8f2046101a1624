ghost use Rattle.std.specs.Prelude.{◌≡◌, ◌+◌, ◌<◌, ◌≤◌, ◌++◌, None, IfErr, IfOk, IfSome, OnErr, OnOk, length};
ghost use Rattle.idx_outside.specs.Cause.{MadeReads, MeetsOnce, NeverFalls};
ghost use Rattle.idx_layout.specs.Shape.{shape_of};
ghost use Rattle.idx_plan.specs.Answer.{answer_of};
ghost use Rattle.idx_plan.specs.Needed.{answer_bytes, needed, plan_fault};
ghost use Rattle.idx_query.specs.Blocks.{lacking};
ghost use Rattle.idx_query.specs.Reads.{ReadsAtMost};
ghost use Rattle.idx_query.specs.Steps.{IsStoreFault};

use idx_edition::block_lengths;
use idx_hall::{Hall, PublishRefusal};
use idx_header::Header;
use idx_outside::{Blocks, Bytes, Reader};
use idx_plan::Ask;
use idx_query::{QueryFault, Report, answer};
use idx_turn::Solo;
use std::alloc::Global;
use std::sync::Arc;

/// How many blocks the hall of one question keeps.
const KEPT_BLOCKS: u32 = 1;

/// Appends the answer to a question that has a plan out of its step, which is published in a hall of its own. No block is
/// asked for twice by one question, so the hall keeps a single one.
#[tactic(auto, using(idx_query::proofs::ReadsLemmas::no_reads))]
pub(crate) fn answer_alone<E: Blocks + Drop, R: Reader<E::Leaf>>(
    alloc: Global,
    header: &Header,
    ask: &Ask,
    edition: E,
    reader: &mut R,
    out: &mut Bytes,
) -> Result<Report, QueryFault>
    requires field { ask.now.field < length header.now.fields }
    requires axes { length ask.now.region ≡ length header.now.box }
    requires shape { E.shape edition ≡ shape_of header.now }
    requires time { E.time edition ≡ ask.now.time }
    requires sound { plan_fault header.now ask.now ≡ None }
    ensures answer { OnOk result (IfSome (E.stored edition)
        (λ stored. out.new ≡ out.old ++ answer_of header.now ask.now stored)) }
    ensures length { OnOk result (length out.new ≡ length out.old + answer_bytes header.now ask.now) }
    ensures once { IfOk result (λ report. report.reads + report.absent ≡ length (needed header.now ask.now)) }
    ensures absent { IfOk result (λ report.
        report.absent ≡ lacking (E.has edition ask.now.field) (needed header.now ask.now)) }
    ensures reads { IfOk result (λ report. MadeReads (R.reads reader.old) (R.reads reader.new) report.reads) }
    ensures cause { IfErr result (IsStoreFault (R.faults reader.old) (R.faults reader.new)) }
    ensures few_reads { OnErr result
        (ReadsAtMost (R.reads reader.old) (R.reads reader.new) (length (needed header.now ask.now))) }
    ensures count { NeverFalls (R.faults reader.old) (R.faults reader.new) }
    ensures reader_once { MeetsOnce (R.faults reader.old) (R.faults reader.new) }
    ensures quiet { OnOk result (R.faults reader.new ≡ R.faults reader.old) }
{
    let lengths = block_lengths(alloc, header)?;
    let mut hall = Hall::new(alloc, KEPT_BLOCKS, header.block_count(), lengths)?;
    let Ok(edition) = Arc::new(alloc, edition) else {
        return Err(QueryFault::NoMemory);
    };
    match hall.publish(edition, None) {
        Ok(_) => {}
        Err((_, PublishRefusal::NoMemory)) => return Err(QueryFault::NoMemory),
        Err((_, PublishRefusal::AlreadyPublished { .. })) => unreachable!(),
    }
    let mut turn = Solo::new(hall);
    answer(alloc, header, ask, &mut turn, reader, out)
}
