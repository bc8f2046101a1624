ghost use Rattle.std.specs.Prelude.{◌≡◌, ◌≢◌, ◌<◌, ◌≤◌, Err, IfErr, IfOk, OnErr};
ghost use Rattle.idx_outside.specs.Cause.{MeetsOnce, NeverFalls};
ghost use Rattle.idx_outside.specs.Files.{StillAdmits};
ghost use Rattle.idx_extract.specs.Extract.{IsCauseUnder, IsExtracted, IsUnread, ReadsFewUnder, known};

use crate::ExtractFault;
use crate::alone::answer_alone;
use crate::asked::asked;
use crate::opening::open_step;
use idx_edition::Edition;
use idx_header::Header;
use idx_outside::{Bay, Bytes, Reader};
use idx_plan::Question;
use std::alloc::Global;

/// The answer to a question of a dataset.
pub(crate) fn answer<B: Bay, R: Reader<B::Leaf>>(
    alloc: Global,
    header: &Header,
    question: &Question<'_>,
    bay: &mut B,
    reader: &mut R,
) -> Result<Bytes, ExtractFault>
    ensures extracted { IfOk result (λ bytes. IsExtracted header.now question.now (B.files bay.old)
        (R.reads reader.old) (R.reads reader.new) bytes) }
    ensures cause { IfErr result (IsCauseUnder header.now question.now
        (known B.header B.files B.faults B.failed R.faults R.reads bay.old bay.new reader.old reader.new)) }
    ensures few_reads { OnErr result (ReadsFewUnder header.now question.now
        (known B.header B.files B.faults B.failed R.faults R.reads bay.old bay.new reader.old reader.new)) }
    ensures failed { result ≢ Err ExtractFault.StoreFault → B.failed bay.new ≡ B.failed bay.old }
    ensures unread { IfErr result (λ fault. IsUnread fault → reader.new ≡ reader.old) }
    ensures bay_answered { B.faults bay.old < B.faults bay.new → result ≡ Err ExtractFault.StoreFault }
    ensures reader_answered { R.faults reader.old < R.faults reader.new → result ≡ Err ExtractFault.StoreFault }
    ensures bay_count { NeverFalls (B.faults bay.old) (B.faults bay.new) }
    ensures bay_once { MeetsOnce (B.faults bay.old) (B.faults bay.new) }
    ensures reader_count { NeverFalls (R.faults reader.old) (R.faults reader.new) }
    ensures reader_once { MeetsOnce (R.faults reader.old) (R.faults reader.new) }
    ensures header { B.header bay.new ≡ B.header bay.old }
    ensures files { B.files bay.new ≡ B.files bay.old }
    ensures admits { StillAdmits B.admits bay.old bay.new }
    ensures begun { B.begun bay.new ≡ B.begun bay.old }
    ensures changes { B.changes bay.new ≡ B.changes bay.old }
{
    let ask = asked(header, question)?;
    let edition = open_step(alloc, header, question.time, bay, reader)?;
    let mut bytes = Bytes::new(alloc);
    answer_alone(alloc, header, &ask, edition, reader, &mut bytes)?;
    Ok(bytes)
}
