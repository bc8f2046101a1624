ghost use Rattle.std.specs.Prelude.{◌≡◌, ◌≢◌, ◌≤◌, ◌<◌, Err, IfErr, IfOk, IfSome, None, Ok, [], vec_len};
ghost use Rattle.idx_outside.specs.Calls.{last_failed};
ghost use Rattle.idx_outside.specs.Cause.{MadeReads, MeetsOnce, NeverFalls};
ghost use Rattle.idx_outside.specs.Files.{StillAdmits};
ghost use Rattle.idx_outside.specs.Objects.{OthersUntouched, faults_at};
ghost use Rattle.idx_outside.specs.declared.bay_call.BayCall.{BayCall};
ghost use Rattle.idx_header.specs.HeaderOf.{header_of};
ghost use Rattle.idx_header.specs.OfBay.{Gives, IsFaultOf, IsRefusal, OnlyAsks, asked_quietly};
ghost use Rattle.idx_layout.specs.Shape.{shape_of};
ghost use Rattle.idx_cache.specs.Cached.{cached};
ghost use Rattle.idx_query.specs.Capacity.{capacity_for};
ghost use Rattle.idx_extract.specs.Extract.{known};
ghost use Rattle.idx_board.specs.Standing.{first_bad_row, reads_of, standing_posts, step_numbers};
ghost use Rattle.idx_host.specs.Host.{IsCause, IsLoaded, known_first};

use crate::HostFault;
use idx_board::hall_of;
use idx_edition::Edition;
use idx_hall::Hall;
use idx_header::{Header, HeaderRefusal};
use idx_outside::{Bay, Bytes, NoMemory, Reader};
use idx_query::capacity_of;
use idx_serve::Site;
use std::alloc::Global;

/// The site of a dataset, with this name, and a hall with the steps that stand, which the first reader loads and which
/// keeps as many blocks as are wished for and fit.
pub(crate) fn open_site<B: Bay, R: Reader<B::Leaf>>(
    alloc: Global,
    name: &[u8],
    cache: u32,
    bay: &mut B,
    readers: &mut Vec<R>,
) -> Result<(Site, Hall<Edition<B::Leaf>>), HostFault>
    requires some { 1 ≤ cache }
    requires few { cache ≤ 65536 }
    requires reader { 0 < vec_len readers.old }
    ensures name { IfOk result (λ opened. opened.0.name ≡ name.now) }
    ensures text { IfOk result (λ opened. IfSome (B.header bay.old) (λ text. header_of text ≡ Ok opened.0.header)) }
    ensures board { IfOk result (λ opened. IfSome (B.files bay.old)
        (λ files. opened.1.board ≡ standing_posts opened.0.header files)) }
    ensures shape { IfOk result (λ opened. opened.1.shape ≡ shape_of opened.0.header) }
    ensures capacity { IfOk result (λ opened. opened.1.cache.cap ≡ capacity_for opened.0.header cache) }
    ensures sound { IfOk result (λ opened. IfSome (B.files bay.old)
        (λ files. first_bad_row opened.0.header files ≡ None)) }
    ensures loaded { IfOk result (λ opened. IsLoaded R.faults R.reads opened.0.header (B.files bay.old)
        readers.old.items readers.new.items) }
    ensures cause { IfErr result (IsCause
        (known_first B.header B.files B.faults B.failed R.faults R.reads bay.old bay.new readers.old.items readers.new.items)) }
    ensures failed { result ≢ Err HostFault.StoreFault → B.failed bay.new ≡ B.failed bay.old }
    ensures quiet { result ≢ Err HostFault.StoreFault → B.faults bay.new ≡ B.faults bay.old }
    ensures reader_quiet { result ≢ Err HostFault.StoreFault →
        faults_at R.faults readers.new.items 0 ≡ faults_at R.faults readers.old.items 0 }
    ensures bay_count { NeverFalls (B.faults bay.old) (B.faults bay.new) }
    ensures bay_once { MeetsOnce (B.faults bay.old) (B.faults bay.new) }
    ensures reader_count { NeverFalls (faults_at R.faults readers.old.items 0) (faults_at R.faults readers.new.items 0) }
    ensures reader_once { MeetsOnce (faults_at R.faults readers.old.items 0) (faults_at R.faults readers.new.items 0) }
    ensures others { OthersUntouched readers.old.items readers.new.items 0 }
    ensures number { vec_len readers.new ≡ vec_len readers.old }
    ensures header { B.header bay.new ≡ B.header bay.old }
    ensures files { B.files bay.new ≡ B.files bay.old }
    ensures admits { StillAdmits B.admits bay.old bay.new }
    ensures begun { B.begun bay.new ≡ B.begun bay.old }
    ensures changes { B.changes bay.new ≡ B.changes bay.old }
{
    open_with(alloc, name, cache, bay, &mut readers[0])
}

/// The same, with this reader.
fn open_with<B: Bay, R: Reader<B::Leaf>>(
    alloc: Global,
    name: &[u8],
    cache: u32,
    bay: &mut B,
    reader: &mut R,
) -> Result<(Site, Hall<Edition<B::Leaf>>), HostFault>
    requires some { 1 ≤ cache }
    requires few { cache ≤ 65536 }
    ensures name { IfOk result (λ opened. opened.0.name ≡ name.now) }
    ensures text { IfOk result (λ opened. IfSome (B.header bay.old) (λ text. header_of text ≡ Ok opened.0.header)) }
    ensures board { IfOk result (λ opened. IfSome (B.files bay.old)
        (λ files. opened.1.board ≡ standing_posts opened.0.header files)) }
    ensures shape { IfOk result (λ opened. opened.1.shape ≡ shape_of opened.0.header) }
    ensures cache { IfOk result (λ opened. opened.1.cache ≡ cached [] (capacity_for opened.0.header cache)) }
    ensures sound { IfOk result (λ opened. IfSome (B.files bay.old)
        (λ files. first_bad_row opened.0.header files ≡ None)) }
    ensures reads { IfOk result (λ opened. IfSome (B.files bay.old)
        (λ files. MadeReads (R.reads reader.old) (R.reads reader.new)
        (reads_of opened.0.header files (step_numbers opened.0.header)))) }
    ensures cause { IfErr result (IsCause
        (known B.header B.files B.faults B.failed R.faults R.reads bay.old bay.new reader.old reader.new)) }
    ensures failed { result ≢ Err HostFault.StoreFault → B.failed bay.new ≡ B.failed bay.old }
    ensures quiet { result ≢ Err HostFault.StoreFault → B.faults bay.new ≡ B.faults bay.old }
    ensures reader_quiet { result ≢ Err HostFault.StoreFault → R.faults reader.new ≡ R.faults reader.old }
    ensures bay_count { NeverFalls (B.faults bay.old) (B.faults bay.new) }
    ensures bay_once { MeetsOnce (B.faults bay.old) (B.faults bay.new) }
    ensures reader_count { NeverFalls (R.faults reader.old) (R.faults reader.new) }
    ensures reader_once { MeetsOnce (R.faults reader.old) (R.faults reader.new) }
    ensures header { B.header bay.new ≡ B.header bay.old }
    ensures files { B.files bay.new ≡ B.files bay.old }
    ensures admits { StillAdmits B.admits bay.old bay.new }
    ensures begun { B.begun bay.new ≡ B.begun bay.old }
    ensures changes { B.changes bay.new ≡ B.changes bay.old }
{
    let site = match site_in(alloc, name, bay) {
        Ok(site) => site,
        Err(refusal) => return Err(HostFault::from(refusal)),
    };
    let capacity = capacity_of(&site.header, cache);
    match hall_of(alloc, &site.header, capacity, bay, reader) {
        Ok(hall) => Ok((site, hall)),
        Err(fault) => Err(HostFault::from(fault)),
    }
}

/// The site of the header of a bay, with this name.
fn site_in<B: Bay>(alloc: Global, name: &[u8], bay: &mut B) -> Result<Site, HeaderRefusal>
    ensures name { IfOk result (λ site. site.name ≡ name.now) }
    ensures gives { IfOk result (λ site. Gives (B.header bay.old) site.header) }
    ensures refused { IfErr result (IsRefusal IsFaultOf (B.header bay.old) (B.faults bay.old) (B.faults bay.new)) }
    ensures asks { OnlyAsks B.header B.files B.admits B.faults bay.old bay.new result }
    ensures begun { B.begun bay.new ≡ B.begun bay.old }
    ensures changes { B.changes bay.new ≡ B.changes bay.old }
    ensures failed { B.failed bay.new ≡ last_failed BayCall.Header (asked_quietly result) (B.failed bay.old) }
{
    let header = Header::of_bay(alloc, bay)?;
    match Bytes::from_slice(alloc, name) {
        Ok(name) => Ok(Site { header, name }),
        Err(NoMemory) => Err(HeaderRefusal::NoMemory),
    }
}
