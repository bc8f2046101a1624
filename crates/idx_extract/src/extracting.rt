ghost use Rattle.std.specs.Prelude.{◌≡◌, ◌≢◌, ◌<◌, ◌≤◌, Err, IfErr, IfOk, OnErr};
ghost use Rattle.idx_outside.specs.Cause.{MeetsOnce, NeverFalls};
ghost use Rattle.idx_outside.specs.Files.{StillAdmits};
ghost use Rattle.idx_extract.specs.Extract.{Extracted, IsCause, IsUnread, ReadsFew, known};

use crate::ExtractFault;
use crate::answering::answer;
use idx_header::Header;
use idx_outside::{Bay, Bytes, Reader};
use idx_plan::Question;
use std::alloc::Global;

/// The samples that a question asks of a dataset, in row-major order, axis 0 fastest: those of a field of a step at the
/// region's points whose level is one of those that are asked for, out of the newest revision of the step. It reads the
/// table of each file of that revision that is there, and then exactly the blocks that hold a sample of the answer, each
/// once, by one read each. It changes nothing. A refusal comes after no more reads than the answer would take at most.
///
/// The first refusal ends it, in this order: the header; the number of axes, the name of the field, the region, the levels,
/// the bytes of the answer; whether the step stands; the tables of its files. Nothing is read before the step is known to
/// stand.
pub fn extract<B: Bay, R: Reader<B::Leaf>>(
    alloc: Global,
    question: &Question<'_>,
    bay: &mut B,
    reader: &mut R,
) -> Result<Bytes, ExtractFault>
    // The bytes are the answer, and so many reads were made.
    ensures extracted { IfOk result (Extracted question.now (B.header bay.old) (B.files bay.old)
        (R.reads reader.old) (R.reads reader.new)) }

    // Each refusal has its cause. What can be known before the first read is known before it.
    ensures cause { IfErr result (IsCause question.now
        (known B.header B.files B.faults B.failed R.faults R.reads bay.old bay.new reader.old reader.new)) }
    ensures unread { IfErr result (λ fault. IsUnread fault → reader.new ≡ reader.old) }
    ensures few_reads { OnErr result (ReadsFew question.now
        (known B.header B.files B.faults B.failed R.faults R.reads bay.old bay.new reader.old reader.new)) }

    // A fault that was counted is answered.
    ensures bay_answered { B.faults bay.old < B.faults bay.new → result ≡ Err ExtractFault.StoreFault }
    ensures reader_answered { R.faults reader.old < R.faults reader.new → result ≡ Err ExtractFault.StoreFault }
    ensures bay_count { NeverFalls (B.faults bay.old) (B.faults bay.new) }
    ensures bay_once { MeetsOnce (B.faults bay.old) (B.faults bay.new) }
    ensures reader_count { NeverFalls (R.faults reader.old) (R.faults reader.new) }
    ensures reader_once { MeetsOnce (R.faults reader.old) (R.faults reader.new) }

    // Nothing of the dataset is changed. A fault of the store alone may be the bay's, which names the call that counted it.
    ensures failed { result ≢ Err ExtractFault.StoreFault → B.failed bay.new ≡ B.failed bay.old }
    ensures header { B.header bay.new ≡ B.header bay.old }
    ensures files { B.files bay.new ≡ B.files bay.old }
    ensures admits { StillAdmits B.admits bay.old bay.new }
    ensures begun { B.begun bay.new ≡ B.begun bay.old }
    ensures changes { B.changes bay.new ≡ B.changes bay.old }
{
    let header = Header::of_bay(alloc, bay)?;
    answer(alloc, &header, question, bay, reader)
}
