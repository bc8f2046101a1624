ghost use Rattle.std.specs.Prelude.{◌≡◌, ◌≢◌, ◌<◌, ◌≤◌, ℕ, IfErr, OnOk, drop, map, vec_len};
ghost use Rattle.idx_outside.specs.Counts.{EachMeetsOnce};
ghost use Rattle.idx_outside.specs.Objects.{SameContents, contents_at};
ghost use Rattle.idx_gather.specs.Gather.{HasVolume, IsCaused, NoneFalls};

use crate::GatherFault;
use idx_header::Header;
use idx_outside::Source;

/// Asks the first raw volume for its length, which is to be that of the samples of the box. None of its bytes is asked for.
pub(crate) fn check_length<V: Source>(header: &Header, raws: &mut Vec<V>) -> Result<(), GatherFault>
    requires some { 0 < vec_len raws.old }
    ensures right { OnOk result (HasVolume header.now (contents_at V.contents raws.old.items 0)) }
    ensures cause { (count : ℕ) → IfErr result (IsCaused header.now (contents_at V.contents raws.old.items 0)
        (map V.faults raws.old.items) (map V.faults raws.new.items) count count) }
    ensures quiet { OnOk result (map V.faults raws.new.items ≡ map V.faults raws.old.items) }
    ensures asked { map V.asked raws.new.items ≡ map V.asked raws.old.items }
    ensures same { SameContents V.contents raws.old.items raws.new.items }
    ensures idle { (n : ℕ) → 1 ≤ n → drop n raws.new.items ≡ drop n raws.old.items }
    ensures raw_count { NoneFalls (map V.faults raws.old.items) (map V.faults raws.new.items) }
    ensures raw_once { EachMeetsOnce (map V.faults raws.old.items) (map V.faults raws.new.items) }
    ensures number { vec_len raws.new ≡ vec_len raws.old }
{
    let want = header.volume_bytes();
    match raws[0].len() {
        Ok(found) => length_is(want, found),
        Err(_) => Err(GatherFault::RawFault {
            rank: 0,
            faults: raws[0].faults(),
        }),
    }
}

/// Refuses another length than the one that is wanted.
fn length_is(want: u64, found: u64) -> Result<(), GatherFault>
    ensures same { OnOk result (found ≡ want) }
    ensures other { IfErr result (λ fault. (fault ≡ GatherFault.RawWrongSize want found) × (found ≢ want)) }
{
    if found == want {
        Ok(())
    } else {
        Err(GatherFault::RawWrongSize { want, found })
    }
}
