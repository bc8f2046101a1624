ghost use Rattle.std.specs.Prelude.{◌≡◌, ◌≤◌, ℕ, IfErr, IfOk, IsSome, IsSomeAnd, List, OnErr, OnOk, Some};
ghost use Rattle.std.specs.Option.{ForSome};
ghost use Rattle.idx_outside.specs.Cause.{NeverFalls};
ghost use Rattle.idx_outside.specs.Files.{LiesIn, known_with};
ghost use Rattle.idx_header.specs.Header.{HeaderValue, at_revision};
ghost use Rattle.idx_header.specs.Names.{step_folder};
ghost use Rattle.idx_header.specs.OfBay.{Gives};
ghost use Rattle.idx_convert.specs.Known.{Known};
ghost use Rattle.idx_live.specs.Live.{IsCause, IsReady, IsSound, OnlyLooks};
ghost use Rattle.idx_live.specs.Stages.{seen_by};

use crate::LiveFault;
use idx_header::Header;
use idx_outside::{Bay, Bytes, NoMemory};
use std::alloc::Global;

/// Begins a step at a revision of the header. Where the step may be written and no table is faulty, nothing else has a
/// part in the cause of a refusal.
pub(crate) fn begin_at<B: Bay>(
    alloc: Global,
    header: &Header,
    time: u64,
    revision: u32,
    bay: &mut B,
) -> Result<(), LiveFault>
    requires timed { IsSome header.now.steps }
    requires few { revision ≤ 255 }
    ensures begun { OnOk result (IsSomeAnd (step_folder (at_revision revision header.now) time)
        (λ folder. B.begun bay.new ≡ known_with (B.files bay.old) folder)) }
    ensures admits { OnOk result (ForSome (step_folder (at_revision revision header.now) time)
        (λ folder. (path : List ℕ) → LiesIn folder path → B.admits bay.new path)) }
    ensures cause { (k : Known) (n : ℕ) → Gives (B.header bay.old) header.now →
        IsReady header.now time (seen_by B.header B.files B.failed B.faults bay.old bay.new k) →
        IsSound header.now (B.files bay.old) →
        IfErr result (IsCause time (seen_by B.header B.files B.failed B.faults bay.old bay.new k) n n) }
    ensures looks { OnErr result
        (OnlyLooks B.header B.files B.begun B.changes B.failed B.admits B.faults bay.old bay.new result) }
    ensures header { B.header bay.new ≡ B.header bay.old }
    ensures files { B.files bay.new ≡ B.files bay.old }
    ensures failed { OnOk result (B.failed bay.new ≡ B.failed bay.old) }
    ensures quiet { OnOk result (B.faults bay.new ≡ B.faults bay.old) }
{
    let folder = folder_at(alloc, header, time, revision)?;
    match bay.begin_step(folder.as_slice()) {
        Ok(()) => Ok(()),
        Err(_) => Err(LiveFault::StoreFault),
    }
}

/// The folder of a step at a revision of a header with a time.
fn folder_at(alloc: Global, header: &Header, time: u64, revision: u32) -> Result<Bytes, NoMemory>
    requires timed { IsSome header.now.steps }
    requires few { revision ≤ 255 }
    ensures { IfOk result (λ folder. step_folder (at_revision revision header.now) time ≡ Some folder) }
{
    let written = header.at_revision(alloc, revision)?;
    let Some(folder) = written.step_folder(alloc, time)? else {
        unreachable!()
    };
    Ok(folder)
}
