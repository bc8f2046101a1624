ghost use Rattle.std.specs.Prelude.{◌≡◌, ◌⊎◌, ◌↔◌, ◌<◌, ◌≤◌, [], IsTrue, IfErr, OnErr, OnOk, Some, drop, is_ok, map, min, vec_len};
ghost use Rattle.std.specs.Option.{ForSome};
ghost use Rattle.idx_outside.specs.Calls.{last_failed};
ghost use Rattle.idx_outside.specs.Cause.{MeetsOnce, NeverFalls, Rose};
ghost use Rattle.idx_outside.specs.Counts.{EachMeetsOnce};
ghost use Rattle.idx_outside.specs.Objects.{SameContents, contents_at};
ghost use Rattle.idx_outside.specs.declared.bay_call.BayCall.{BayCall};
ghost use Rattle.idx_seal.specs.Rows.{MeetsOnceOrRow};
ghost use Rattle.idx_header.specs.Names.{step_folder};
ghost use Rattle.idx_header.specs.Revisions.{IsRevisionOf};
ghost use Rattle.idx_gather.specs.Gather.{HasVolume, HaveSame, NoneFalls};
ghost use Rattle.idx_convert.specs.Convert.{AsksFor, Ends, IsEarly, IsNext, Takes, put_where_none};
ghost use Rattle.idx_convert.specs.Known.{known_of};

use crate::ConvertFault;
use crate::first_raws::gather_first;
use crate::place::Place;
use idx_header::Header;
use idx_outside::{Bay, Outage, Source};
use idx_rowmajor::Layout;
use std::alloc::Global;
use std::thread::Threads;

/// Puts the header's text where none stands, and adds the step in a layout at the revision of its place, all of which was
/// checked.
pub(crate) fn add_step<V: Source + Send, B: Bay, R: Threads + Sync>(
    rt: &R,
    alloc: Global,
    text: &[u8],
    step: u64,
    ranks: u32,
    layout: Layout,
    header: &Header,
    place: &Place,
    raws: &mut Vec<V>,
    bay: &mut B,
) -> Result<(), ConvertFault>
where
    B::Draft: Send,
    B::Leaf: Send,
    requires some { 0 < vec_len raws.old }
    requires one { 1 ≤ ranks }
    requires few { ranks ≤ 256 }
    requires alike { HaveSame V.contents raws.old.items }
    requires asked { AsksFor text.now step header.now }
    requires taken { Takes header.now step (B.header bay.old) (B.files bay.old) }
    requires size { HasVolume header.now (contents_at V.contents raws.old.items 0) }
    requires revised { IsRevisionOf header.now place.now.header }
    requires next { IsNext header.now step (B.files bay.old) place.now.header }
    requires folder { step_folder place.now.header step ≡ Some place.now.folder }
    requires none { ForSome (B.header bay.old) (λ text. IsTrue place.now.no_header ↔ (text ≡ [])) }
    ensures ends { Ends layout text.now step (known_of V.contents V.asked V.faults raws.old.items raws.new.items
        B.header B.files B.begun B.changes B.failed B.faults bay.old bay.new) result }
    ensures late { IfErr result (λ fault. ¬ IsEarly (contents_at V.contents raws.old.items 0) fault) }
    ensures same { SameContents V.contents raws.old.items raws.new.items }
    ensures idle { drop (min ranks (vec_len raws.old)) raws.new.items
        ≡ drop (min ranks (vec_len raws.old)) raws.old.items }
    ensures raw_count { NoneFalls (map V.faults raws.old.items) (map V.faults raws.new.items) }
    ensures raw_once { EachMeetsOnce (map V.faults raws.old.items) (map V.faults raws.new.items) }
    ensures bay_once { MeetsOnceOrRow (B.failed bay.new) ranks (B.faults bay.old) (B.faults bay.new) }
{
    let Ok(()) = put_header(text, place.no_header, bay) else {
        return Err(ConvertFault::StoreFault);
    };
    let Ok(()) = bay.begin_step(place.folder.as_slice()) else {
        return Err(ConvertFault::StoreFault);
    };
    gather_first(rt, alloc, &place.header, step, ranks, layout, raws, bay)?;
    Ok(())
}

/// Puts the header's text if none stands.
fn put_header<B: Bay>(text: &[u8], no_header: bool, bay: &mut B) -> Result<(), Outage>
    requires { ForSome (B.header bay.old) (λ text. IsTrue no_header ↔ (text ≡ [])) }
    ensures put { OnOk result (B.header bay.new ≡ put_where_none text.now (B.header bay.old)) }
    ensures refused { OnErr result ((B.header bay.new ≡ B.header bay.old)
        ⊎ (B.header bay.new ≡ put_where_none text.now (B.header bay.old))) }
    ensures files { B.files bay.new ≡ B.files bay.old }
    ensures begun { B.begun bay.new ≡ B.begun bay.old }
    ensures failed { B.failed bay.new ≡ last_failed BayCall.SetHeader (is_ok result) (B.failed bay.old) }
    ensures count { NeverFalls (B.faults bay.old) (B.faults bay.new) }
    ensures once { MeetsOnce (B.faults bay.old) (B.faults bay.new) }
    ensures quiet { OnOk result (B.faults bay.new ≡ B.faults bay.old) }
    ensures cause { OnErr result (Rose (B.faults bay.old) (B.faults bay.new)) }
{
    if no_header {
        bay.set_header(text)
    } else {
        Ok(())
    }
}
