ghost use Rattle.std.specs.Prelude.{◌≡◌, ◌≢◌, ◌<◌, ℕ, Err, IfErr, OnOk, vec_len};
ghost use Rattle.idx_outside.specs.Objects.{contents_at};
ghost use Rattle.idx_header.specs.OfBay.{Gives};
ghost use Rattle.idx_gather.specs.Gather.{HasVolume};
ghost use Rattle.idx_convert.specs.Known.{Known};
ghost use Rattle.idx_live.specs.Live.{HasLeft, IsCause, MayWrite, OnlyMeasures};
ghost use Rattle.idx_live.specs.Stages.{measured};

use crate::LiveFault;
use idx_convert::{has_folder, too_large};
use idx_header::Header;
use idx_outside::Source;

/// Accepts a step that the header has, if no step of it is too large to write. Nothing else has a part in the cause of
/// a refusal.
pub(crate) fn check_step(header: &Header, time: u64) -> Result<(), LiveFault>
    ensures may_write { OnOk result (MayWrite header.now time) }
    ensures cause { (k : Known) (n : ℕ) → Gives k.header header.now → IfErr result (IsCause time k n n) }
    ensures only { result ≢ Err LiveFault.StoreFault }
{
    if !has_folder(header, time) {
        return Err(LiveFault::NoStep);
    }
    match too_large(header) {
        Some(bytes) => Err(LiveFault::TooLarge { bytes }),
        None => Ok(()),
    }
}

/// Accepts the first raw volume if it has the length of the header's samples. Whatever the dataset is that the step
/// may be written to, a refusal has its cause in the raw volume.
pub(crate) fn check_size<V: Source>(header: &Header, raws: &mut Vec<V>) -> Result<(), LiveFault>
    requires { 0 < vec_len raws.old }
    ensures size { OnOk result (HasVolume header.now (contents_at V.contents raws.old.items 0)) }
    ensures cause { (time : ℕ) (k : Known) (n : ℕ) → Gives k.header header.now → MayWrite header.now time →
        HasLeft header.now time k.files →
        IfErr result (IsCause time (measured V.contents V.faults raws.old.items raws.new.items k) n n) }
    ensures only { result ≢ Err LiveFault.StoreFault }
    ensures measures { OnlyMeasures V.contents V.asked V.faults raws.old.items raws.new.items result }
{
    let want = header.volume_bytes();
    match raws[0].len() {
        Ok(found) => size_is(want, found),
        Err(_) => Err(LiveFault::RawFault),
    }
}

/// Refuses another length than the one that is wanted.
fn size_is(want: u64, found: u64) -> Result<(), LiveFault>
    ensures same { OnOk result (found ≡ want) }
    ensures other { IfErr result (λ fault. (fault ≡ LiveFault.RawWrongSize want found) × (found ≢ want)) }
{
    if found == want {
        Ok(())
    } else {
        Err(LiveFault::RawWrongSize { want, found })
    }
}
