ghost use Rattle.std.specs.Prelude.{◌≡◌, ◌<◌, ◌≤◌, ℕ, IfErr, IfOk, map, vec_len};
ghost use Rattle.idx_header.specs.Header.{at_revision};
ghost use Rattle.idx_header.specs.OfBay.{Gives};
ghost use Rattle.idx_convert.specs.Convert.{IsNext};
ghost use Rattle.idx_convert.specs.Known.{Known, known_of};
ghost use Rattle.idx_live.specs.Live.{IsCause, IsReady, MayWrite, OnlyLooks, OnlyMeasures};
ghost use Rattle.idx_live.specs.Stages.{seen_by};

use crate::LiveFault;
use crate::checking::{check_size, check_step};
use idx_header::Header;
use idx_outside::{Bay, Bytes, Source};
use idx_serve::Site;
use std::alloc::Global;

/// The revisions of a step are numbered from 0 to this.
const LAST_REVISION: u32 = 255;

/// A dataset by this name that a step may be written to out of the raw volumes, and the revision of the step that is
/// written next. Nothing is changed for it.
pub(crate) fn find_step<V: Source, B: Bay>(
    alloc: Global,
    name: &[u8],
    time: u64,
    raws: &mut Vec<V>,
    bay: &mut B,
) -> Result<(Site, u32), LiveFault>
    requires { 0 < vec_len raws.old }
    ensures named { IfOk result (λ found. found.0.name ≡ name.now) }
    ensures gives { IfOk result (λ found. Gives (B.header bay.old) found.0.header) }
    ensures ready { IfOk result (λ found. IsReady found.0.header time
        (known_of V.contents V.asked V.faults raws.old.items raws.new.items
        B.header B.files B.begun B.changes B.failed B.faults bay.old bay.new)) }
    ensures few { IfOk result (λ found. found.1 ≤ 255) }
    ensures next { IfOk result (λ found. IsNext found.0.header time (B.files bay.old)
        (at_revision found.1 found.0.header)) }
    ensures cause { (n : ℕ) → IfErr result (IsCause time
        (known_of V.contents V.asked V.faults raws.old.items raws.new.items
        B.header B.files B.begun B.changes B.failed B.faults bay.old bay.new) n n) }
    ensures looks { OnlyLooks B.header B.files B.begun B.changes B.failed B.admits B.faults bay.old bay.new result }
    ensures measures { OnlyMeasures V.contents V.asked V.faults raws.old.items raws.new.items result }
{
    let header = read_header(alloc, time, bay)?;
    let revision = next_revision(alloc, &header, time, bay)?;
    check_size(&header, raws)?;
    let name = Bytes::from_slice(alloc, name)?;
    let site = Site { header, name };
    Ok((site, revision))
}

/// The header of a dataset, if it has the step and no step of it is too large to write. Nothing else has a part in the
/// cause of a refusal.
fn read_header<B: Bay>(alloc: Global, time: u64, bay: &mut B) -> Result<Header, LiveFault>
    ensures gives { IfOk result (Gives (B.header bay.old)) }
    ensures may_write { IfOk result (λ header. MayWrite header time) }
    ensures cause { (k : Known) (n : ℕ) → IfErr result (IsCause time
        (seen_by B.header B.files B.failed B.faults bay.old bay.new k) n n) }
    ensures looks { OnlyLooks B.header B.files B.begun B.changes B.failed B.admits B.faults bay.old bay.new result }
{
    let header = Header::of_bay(alloc, bay)?;
    check_step(&header, time)?;
    Ok(header)
}

/// The revision of a step that is written next, where one is left. Nothing else has a part in the cause of a refusal.
fn next_revision<B: Bay>(
    alloc: Global,
    header: &Header,
    time: u64,
    bay: &mut B,
) -> Result<u32, LiveFault>
    requires may_write { MayWrite header.now time }
    requires gives { Gives (B.header bay.old) header.now }
    ensures few { IfOk result (λ revision. revision ≤ 255) }
    ensures next { IfOk result (λ revision. IsNext header.now time (B.files bay.old) (at_revision revision header.now)) }
    ensures cause { (k : Known) (n : ℕ) → IfErr result (IsCause time
        (seen_by B.header B.files B.failed B.faults bay.old bay.new k) n n) }
    ensures looks { OnlyLooks B.header B.files B.begun B.changes B.failed B.admits B.faults bay.old bay.new result }
{
    let next = header.next_revision(alloc, time, bay)?;
    if next > LAST_REVISION {
        return Err(LiveFault::AlreadyPublished);
    }
    Ok(next)
}
