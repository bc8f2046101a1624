ghost use Rattle.std.specs.Prelude.{◌≡◌, ◌≢◌, ◌↔◌, ◌<◌, ◌≤◌, [], IfErr, IfOk, IfSome, IsSome, IsTrue, OnOk, Some, Err, ℕ, drop, map, vec_len};
ghost use Rattle.std.specs.Option.{ForSome};
ghost use Rattle.idx_outside.specs.Counts.{EachMeetsOnce};
ghost use Rattle.idx_outside.specs.Objects.{SameContents, contents_at};
ghost use Rattle.idx_header.specs.Names.{step_folder};
ghost use Rattle.idx_header.specs.Revisions.{IsRevisionOf};
ghost use Rattle.idx_gather.specs.Gather.{HasFolder, HasVolume, NoneFalls};
ghost use Rattle.idx_convert.specs.Convert.{IsNext, Suits, Takes};
ghost use Rattle.idx_convert.specs.Counts.{SomeHigher};
ghost use Rattle.idx_convert.specs.Known.{Known, known_of};
ghost use Rattle.idx_convert.specs.Stages.{IsStop, OnlyLooks, with_bay, with_raw};

use crate::ConvertFault;
use crate::standing::check_standing;
use idx_header::Header;
use idx_outside::{Bay, Bytes, NoMemory, Source};
use std::alloc::Global;

/// Where a step goes: the header at the revision that is written, the folder of the step under it, and whether the
/// header's text is to be put first.
#[derive(Drop)]
pub(crate) struct Place {
    pub(crate) header: Header,
    pub(crate) folder: Bytes,
    pub(crate) no_header: bool,
}

/// The place of a step that the dataset takes, of a raw volume that has the right length. Nothing is changed for it.
pub(crate) fn find_place<V: Source, B: Bay>(
    alloc: Global,
    header: &Header,
    step: u64,
    raws: &mut Vec<V>,
    bay: &mut B,
) -> Result<Place, ConvertFault>
    requires some { 0 < vec_len raws.old }
    requires folder { HasFolder header.now step }
    ensures taken { OnOk result (Takes header.now step (B.header bay.old) (B.files bay.old)) }
    ensures size { OnOk result (HasVolume header.now (contents_at V.contents raws.old.items 0)) }
    ensures revised { IfOk result (λ place. IsRevisionOf header.now place.header) }
    ensures next { IfOk result (λ place. IsNext header.now step (B.files bay.old) place.header) }
    ensures folder { IfOk result (λ place. step_folder place.header step ≡ Some place.folder) }
    ensures none { IfOk result (λ place. IfSome (B.header bay.old) (λ text. IsTrue place.no_header ↔ (text ≡ []))) }
    ensures cause { IfErr result (IsStop header.now step
        (known_of V.contents V.asked V.faults raws.old.items raws.new.items
        B.header B.files B.begun B.changes B.failed B.faults bay.old bay.new)) }
    ensures looks { OnlyLooks B.header B.files B.begun B.changes B.failed B.admits B.faults bay.old bay.new result }
    ensures raw_answered { SomeHigher (map V.faults raws.old.items) (map V.faults raws.new.items) →
        result ≡ Err ConvertFault.RawFault }
    ensures raw_quiet { OnOk result (map V.faults raws.new.items ≡ map V.faults raws.old.items) }
    ensures asked { map V.asked raws.new.items ≡ map V.asked raws.old.items }
    ensures same { SameContents V.contents raws.old.items raws.new.items }
    ensures idle { (n : ℕ) → 1 ≤ n → drop n raws.new.items ≡ drop n raws.old.items }
    ensures raw_count { NoneFalls (map V.faults raws.old.items) (map V.faults raws.new.items) }
    ensures raw_once { EachMeetsOnce (map V.faults raws.old.items) (map V.faults raws.new.items) }
    ensures number { vec_len raws.new ≡ vec_len raws.old }
{
    let place = place_in(alloc, header, step, bay)?;
    check_size(header, raws)?;
    Ok(place)
}

/// The place of a step that the dataset takes. Whatever the raw volume is, a refusal has its cause in the dataset.
fn place_in<B: Bay>(
    alloc: Global,
    header: &Header,
    step: u64,
    bay: &mut B,
) -> Result<Place, ConvertFault>
    requires folder { HasFolder header.now step }
    ensures taken { OnOk result (Takes header.now step (B.header bay.old) (B.files bay.old)) }
    ensures revised { IfOk result (λ place. IsRevisionOf header.now place.header) }
    ensures next { IfOk result (λ place. IsNext header.now step (B.files bay.old) place.header) }
    ensures folder { IfOk result (λ place. step_folder place.header step ≡ Some place.folder) }
    ensures none { IfOk result (λ place. IfSome (B.header bay.old) (λ text. IsTrue place.no_header ↔ (text ≡ []))) }
    ensures cause { (k : Known) → IfErr result (IsStop header.now step
        (with_bay (B.header bay.old) (B.files bay.old) (B.failed bay.new) (B.faults bay.old) (B.faults bay.new) k)) }
    ensures looks { OnlyLooks B.header B.files B.begun B.changes B.failed B.admits B.faults bay.old bay.new result }
{
    let no_header = check_standing(alloc, header, bay)?;
    let written = next_header(alloc, header, step, bay)?;
    let folder = folder_of(alloc, &written, step)?;
    Ok(Place {
        header: written,
        folder,
        no_header,
    })
}

/// The header at the revision of a step that is written next. Nothing else has a part in the cause of a refusal.
fn next_header<B: Bay>(
    alloc: Global,
    header: &Header,
    step: u64,
    bay: &mut B,
) -> Result<Header, ConvertFault>
    requires timed { IsSome header.now.steps }
    requires suits { ForSome (B.header bay.old) (Suits header.now) }
    ensures revised { IfOk result (IsRevisionOf header.now) }
    ensures next { IfOk result (IsNext header.now step (B.files bay.old)) }
    ensures cause { (k : Known) → IfErr result (IsStop header.now step
        (with_bay (B.header bay.old) (B.files bay.old) (B.failed bay.new) (B.faults bay.old) (B.faults bay.new) k)) }
    ensures looks { OnlyLooks B.header B.files B.begun B.changes B.failed B.admits B.faults bay.old bay.new result }
{
    match header.to_write(alloc, step, bay) {
        Ok(Some(written)) => Ok(written),
        Ok(None) => Err(ConvertFault::AlreadyPublished),
        Err(fault) => Err(ConvertFault::from(fault)),
    }
}

/// The folder of a step, under a header with a time.
fn folder_of(alloc: Global, header: &Header, step: u64) -> Result<Bytes, NoMemory>
    requires timed { IsSome header.now.steps }
    ensures { IfOk result (λ folder. step_folder header.now step ≡ Some folder) }
{
    let Some(folder) = header.step_folder(alloc, step)? else {
        unreachable!()
    };
    Ok(folder)
}

/// Accepts the first raw volume if it has the length of the header's samples. Whatever the dataset is that takes the
/// step, a refusal has its cause in the raw volume.
fn check_size<V: Source>(header: &Header, raws: &mut Vec<V>) -> Result<(), ConvertFault>
    requires { 0 < vec_len raws.old }
    ensures size { OnOk result (HasVolume header.now (contents_at V.contents raws.old.items 0)) }
    ensures cause { (step : ℕ) (k : Known) → Takes header.now step k.header k.files →
        IfErr result (IsStop header.now step (with_raw (contents_at V.contents raws.old.items 0)
        (map V.faults raws.old.items) (map V.faults raws.new.items) k)) }
    ensures only { result ≢ Err ConvertFault.StoreFault }
    ensures answered { SomeHigher (map V.faults raws.old.items) (map V.faults raws.new.items) →
        result ≡ Err ConvertFault.RawFault }
    ensures quiet { OnOk result (map V.faults raws.new.items ≡ map V.faults raws.old.items) }
    ensures asked { map V.asked raws.new.items ≡ map V.asked raws.old.items }
    ensures same { SameContents V.contents raws.old.items raws.new.items }
    ensures idle { (n : ℕ) → 1 ≤ n → drop n raws.new.items ≡ drop n raws.old.items }
    ensures raw_count { NoneFalls (map V.faults raws.old.items) (map V.faults raws.new.items) }
    ensures raw_once { EachMeetsOnce (map V.faults raws.old.items) (map V.faults raws.new.items) }
    ensures number { vec_len raws.new ≡ vec_len raws.old }
{
    let want = header.volume_bytes();
    match raws[0].len() {
        Ok(found) => size_is(want, found),
        Err(_) => Err(ConvertFault::RawFault),
    }
}

/// Refuses another length than the one that is wanted.
fn size_is(want: u64, found: u64) -> Result<(), ConvertFault>
    ensures same { OnOk result (found ≡ want) }
    ensures other { IfErr result (λ fault. (fault ≡ ConvertFault.RawWrongSize want found) × (found ≢ want)) }
{
    if found == want {
        Ok(())
    } else {
        Err(ConvertFault::RawWrongSize { want, found })
    }
}
