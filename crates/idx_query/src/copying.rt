ghost use Rattle.std.specs.Prelude.{◌≡◌, ◌↔◌, ◌+◌, ◌*◌, ◌^◌, ◌<◌, All, IfErr, IfOk, OnErr, OnOk, Some, false, length, slice_get, slice_index};
ghost use Rattle.idx_outside.specs.Cause.{MadeReads, MeetsOnce, NeverFalls};
ghost use Rattle.idx_scatter.specs.Scatter.{IsScattered};
ghost use Rattle.idx_query.specs.Reads.{ReadsAtMost, ReadsOnce};
ghost use Rattle.idx_query.specs.Steps.{AreDone, AreFound, IsBlock, IsCameBy, IsStoreFault, with_block};

use crate::loading::Loading;
use crate::part::Part;
use crate::{QueryFault, Report};
use idx_hall::{Key, Looked};
use idx_outside::{Blocks, Fetched, Outage, Reader};

/// Copies the samples of the blocks of a round to their places in the answer, in rising order. What was not found is
/// fetched, each block once.
pub(crate) fn copy_blocks<E: Blocks + Drop, R: Reader<E::Leaf>>(
    part: &Part<'_>,
    field: u32,
    edition: &E,
    post: u64,
    looked: &Looked<E>,
    loading: &mut Loading,
    reader: &mut R,
    out: &mut [u8],
) -> Result<Report, QueryFault>
    requires field { field < length (E.shape edition.now).lengths }
    requires exist { All (λ key. key.block < (E.shape edition.now).blocks) part.now.keys }
    requires bytes { loading.old.bytes ≡ slice_index (E.shape edition.now).lengths field }
    requires block { loading.old.bytes ≡ part.now.size * 2 ^ part.now.bits }
    requires count { length looked.now.found ≡ length part.now.keys }
    requires found { AreFound loading.old.bytes field (E.stored edition.now) part.now.keys looked.now.found }
    requires room { length out.old ≡ part.now.bytes }
    ensures done { IfOk result (λ report. AreDone part.now field (E.has edition.now field) (E.stored edition.now)
        looked.now.found (length part.now.keys) (R.reads reader.old) (R.reads reader.new)
        loading.old loading.new report out.old out.new) }
    ensures post { IfOk result (λ report. report.post ≡ post) }
    ensures room { OnOk result (length out.new ≡ part.now.bytes) }
    ensures count { NeverFalls (R.faults reader.old) (R.faults reader.new) }
    ensures once { MeetsOnce (R.faults reader.old) (R.faults reader.new) }
    ensures quiet { OnOk result (R.faults reader.new ≡ R.faults reader.old) }
    ensures cause { IfErr result (IsStoreFault (R.faults reader.old) (R.faults reader.new)) }
    ensures few_reads { OnErr result
        (ReadsAtMost (R.reads reader.old) (R.reads reader.new) (length part.now.keys)) }
{
    let mut report = Report::new(post);
    for i in 0..part.keys().len() {
        report = copy_key(
            part, i as u64, field, edition, report, looked, loading, reader, out,
        )?;
    }
    Ok(report)
}

/// Copies the samples of the block of a key to their places in the answer.
fn copy_key<E: Blocks + Drop, R: Reader<E::Leaf>>(
    part: &Part<'_>,
    i: u64,
    field: u32,
    edition: &E,
    report: Report,
    looked: &Looked<E>,
    loading: &mut Loading,
    reader: &mut R,
    out: &mut [u8],
) -> Result<Report, QueryFault>
    requires key { i < length part.now.keys }
    requires field { field < length (E.shape edition.now).lengths }
    requires exist { All (λ key. key.block < (E.shape edition.now).blocks) part.now.keys }
    requires bytes { loading.old.bytes ≡ slice_index (E.shape edition.now).lengths field }
    requires block { loading.old.bytes ≡ part.now.size * 2 ^ part.now.bits }
    requires count { length looked.now.found ≡ length part.now.keys }
    requires found { AreFound loading.old.bytes field (E.stored edition.now) part.now.keys looked.now.found }
    requires room { length out.old ≡ part.now.bytes }
    requires hits { report.hits < 2 ^ 63 }
    requires reads { report.reads < 2 ^ 63 }
    requires absent { report.absent < 2 ^ 63 }
    ensures came { IfOk result (λ new. IsCameBy part.now field (E.has edition.now field) (E.stored edition.now)
        looked.now.found i (R.reads reader.old) (R.reads reader.new) loading.old loading.new
        report new out.old out.new) }
    ensures count { NeverFalls (R.faults reader.old) (R.faults reader.new) }
    ensures once { MeetsOnce (R.faults reader.old) (R.faults reader.new) }
    ensures quiet { OnOk result (R.faults reader.new ≡ R.faults reader.old) }
    ensures cause { IfErr result (IsStoreFault (R.faults reader.old) (R.faults reader.new)) }
    ensures few_reads { OnErr result (ReadsOnce (R.reads reader.old) (R.reads reader.new)) }
{
    if let Some(block) = looked.found(i) {
        part.copy(i, block.as_slice(), out);
        return Ok(report.with_hit());
    }
    let fetched = load_block(part, i, field, edition, loading, reader, out)?;
    Ok(report.with(fetched))
}

/// Fetches the block of a key, copies its samples to their places, and keeps it for the cache.
fn load_block<E: Blocks, R: Reader<E::Leaf>>(
    part: &Part<'_>,
    i: u64,
    field: u32,
    edition: &E,
    loading: &mut Loading,
    reader: &mut R,
    out: &mut [u8],
) -> Result<Fetched, QueryFault>
    requires key { i < length part.now.keys }
    requires field { field < length (E.shape edition.now).lengths }
    requires exist { All (λ key. key.block < (E.shape edition.now).blocks) part.now.keys }
    requires bytes { loading.old.bytes ≡ slice_index (E.shape edition.now).lengths field }
    requires block { loading.old.bytes ≡ part.now.size * 2 ^ part.now.bits }
    requires room { length out.old ≡ part.now.bytes }
    ensures loaded { OnOk result ((key : Key) → slice_get part.now.keys i ≡ Some key → (bytes : _) ×
        IsBlock loading.old.bytes field (E.stored edition.now) (key, bytes) ×
        (loading.new ≡ with_block (key, bytes) loading.old) ×
        IsScattered part.now.asked part.now.bits key.block part.now.size bytes out.old out.new) }
    ensures absent { IfOk result (λ fetched. (key : Key) → slice_get part.now.keys i ≡ Some key →
        (fetched ≡ Fetched.Absent) ↔ (E.has edition.now field key.block ≡ false)) }
    ensures no_read { IfOk result (λ fetched. fetched ≡ Fetched.Absent → reader.new ≡ reader.old) }
    ensures one_read { IfOk result (λ fetched. fetched ≡ Fetched.Read →
        MadeReads (R.reads reader.old) (R.reads reader.new) 1) }
    ensures count { NeverFalls (R.faults reader.old) (R.faults reader.new) }
    ensures once { MeetsOnce (R.faults reader.old) (R.faults reader.new) }
    ensures quiet { OnOk result (R.faults reader.new ≡ R.faults reader.old) }
    ensures cause { IfErr result (IsStoreFault (R.faults reader.old) (R.faults reader.new)) }
    ensures few_reads { OnErr result (ReadsOnce (R.reads reader.old) (R.reads reader.new)) }
{
    let key = part.keys()[i as usize];
    let mut block = loading.buffer()?;
    match edition.fetch(reader, field, key.block, &mut block) {
        Ok(fetched) => {
            part.copy(i, &block, out);
            loading.keep(key, block)?;
            Ok(fetched)
        }
        Err(Outage) => Err(QueryFault::StoreFault {
            faults: reader.faults(),
        }),
    }
}
