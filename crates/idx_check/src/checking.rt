ghost use Rattle.std.specs.Prelude.{◌≡◌, ◌≢◌, ℕ, ◌<◌, Err, IfErr, IfOk, Ok};
ghost use Rattle.idx_outside.specs.Cause.{AskedFor, MeetsOnce, NeverFalls};
ghost use Rattle.idx_outside.specs.Files.{StillAdmits};
ghost use Rattle.idx_layout.specs.OfHeader.{placing_of};
ghost use Rattle.idx_check.specs.Checked.{Checked, IsCause, IsCauseUnder, IsChecked, IsUnread, Under, known};
ghost use Rattle.idx_check.specs.Pieces.{ReadsOn, most_asked};

use crate::step::check_step;
use crate::{RefusedCheck, Verdict};
use idx_header::Header;
use idx_outside::{Bay, BayFault, Reader};
use std::alloc::Global;

/// Says whether the files of a step of a dataset, those of its newest revision, are exactly those that the writer writes in
/// hierarchical order for some volume, or which is the first that is not, and where. Where nothing is wrong each byte was
/// asked for once. It changes nothing.
///
/// The first refusal ends it, in this order: the header; whether it has a time with the step, and the step stands; reading its
/// files. Nothing is read before the step is known to stand.
pub fn check<B: Bay, R: Reader<B::Leaf>>(
    alloc: Global,
    time: u64,
    bay: &mut B,
    reader: &mut R,
) -> Result<Verdict, RefusedCheck>
    ensures checked { IfOk result (Checked time (B.header bay.old) (B.files bay.old)) }
    ensures whole { (files bytes : ℕ) → result ≡ Ok (Verdict.Same files bytes) →
        AskedFor (R.asked reader.old) (R.asked reader.new) bytes }
    ensures pieces { IfOk result (λ verdict. Under (B.header bay.old) (λ h.
        ReadsOn R.reads R.asked reader.old reader.new 0 (most_asked (placing_of h) verdict))) }

    // Each refusal has its cause. What can be known before the first read is known before it.
    ensures cause { IfErr result (IsCause time
        (known B.header B.files B.faults B.failed R.faults bay.old bay.new reader.old reader.new)) }
    ensures unread { IfErr result (λ refusal. IsUnread refusal → reader.new ≡ reader.old) }

    // A fault that was counted is answered.
    ensures bay_answered { B.faults bay.old < B.faults bay.new → result ≡ Err RefusedCheck.StoreFault }
    ensures reader_answered { R.faults reader.old < R.faults reader.new → result ≡ Err RefusedCheck.StoreFault }
    ensures bay_count { NeverFalls (B.faults bay.old) (B.faults bay.new) }
    ensures bay_once { MeetsOnce (B.faults bay.old) (B.faults bay.new) }
    ensures reader_count { NeverFalls (R.faults reader.old) (R.faults reader.new) }
    ensures reader_once { MeetsOnce (R.faults reader.old) (R.faults reader.new) }

    // Nothing of the dataset is changed. A fault of the store alone may be the bay's, which names the call that counted it.
    ensures failed { result ≢ Err RefusedCheck.StoreFault → B.failed bay.new ≡ B.failed bay.old }
    ensures header { B.header bay.new ≡ B.header bay.old }
    ensures files { B.files bay.new ≡ B.files bay.old }
    ensures admits { StillAdmits B.admits bay.old bay.new }
    ensures begun { B.begun bay.new ≡ B.begun bay.old }
    ensures changes { B.changes bay.new ≡ B.changes bay.old }
{
    let header = Header::of_bay(alloc, bay)?;
    check_newest(alloc, &header, time, bay, reader)
}

/// The same under the header that was read.
fn check_newest<B: Bay, R: Reader<B::Leaf>>(
    alloc: Global,
    header: &Header,
    time: u64,
    bay: &mut B,
    reader: &mut R,
) -> Result<Verdict, RefusedCheck>
    ensures checked { IfOk result (IsChecked header.now time (B.files bay.old)) }
    ensures whole { (files bytes : ℕ) → result ≡ Ok (Verdict.Same files bytes) →
        AskedFor (R.asked reader.old) (R.asked reader.new) bytes }
    ensures pieces { IfOk result (λ verdict. ReadsOn R.reads R.asked reader.old reader.new 0
        (most_asked (placing_of header.now) verdict)) }
    ensures cause { IfErr result (IsCauseUnder header.now time
        (known B.header B.files B.faults B.failed R.faults bay.old bay.new reader.old reader.new)) }
    ensures unread { IfErr result (λ refusal. IsUnread refusal → reader.new ≡ reader.old) }
    ensures bay_answered { B.faults bay.old < B.faults bay.new → result ≡ Err RefusedCheck.StoreFault }
    ensures reader_answered { R.faults reader.old < R.faults reader.new → result ≡ Err RefusedCheck.StoreFault }
    ensures bay_count { NeverFalls (B.faults bay.old) (B.faults bay.new) }
    ensures bay_once { MeetsOnce (B.faults bay.old) (B.faults bay.new) }
    ensures reader_count { NeverFalls (R.faults reader.old) (R.faults reader.new) }
    ensures reader_once { MeetsOnce (R.faults reader.old) (R.faults reader.new) }
    ensures failed { result ≢ Err RefusedCheck.StoreFault → B.failed bay.new ≡ B.failed bay.old }
    ensures header { B.header bay.new ≡ B.header bay.old }
    ensures files { B.files bay.new ≡ B.files bay.old }
    ensures admits { StillAdmits B.admits bay.old bay.new }
    ensures begun { B.begun bay.new ≡ B.begun bay.old }
    ensures changes { B.changes bay.new ≡ B.changes bay.old }
{
    if header.steps().is_none() || !header.has_time(time) {
        return Err(RefusedCheck::NotPublished);
    }
    let revised = match header.that_stands(alloc, time, bay) {
        Ok(Some(revised)) => revised,
        Ok(None) => return Err(RefusedCheck::NotPublished),
        Err(BayFault::Outage) => return Err(RefusedCheck::StoreFault),
        Err(BayFault::NoMemory) => return Err(RefusedCheck::NoMemory),
    };
    Ok(check_step(alloc, &revised, time, bay, reader)?)
}
