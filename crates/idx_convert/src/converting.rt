ghost use Rattle.std.specs.Prelude.{◌≡◌, ◌<◌, ◌≤◌, IfErr, drop, map, min, vec_len};
ghost use Rattle.idx_outside.specs.Files.{StillAdmits};
ghost use Rattle.idx_outside.specs.Counts.{EachMeetsOnce};
ghost use Rattle.idx_outside.specs.Objects.{SameContents, contents_at};
ghost use Rattle.idx_seal.specs.Rows.{MeetsOnceOrRow};
ghost use Rattle.idx_gather.specs.Gather.{HaveSame, NoneFalls};
ghost use Rattle.idx_convert.specs.Convert.{Ends, IsEarly};
ghost use Rattle.idx_convert.specs.Known.{known_of};

use crate::ConvertFault;
use crate::adding::add_step;
use crate::asked::asked_header;
use crate::place::find_place;
use idx_outside::{Bay, Source};
use idx_rowmajor::Layout;
use std::alloc::Global;
use std::thread::Threads;

/// Writes a step of a raw volume under the header of this text, at the least revision of the step that does not stand,
/// counted from 0: puts the text where no header stands, and adds exactly the files of the step at that revision, byte for
/// byte as the format defines them, with the samples of each block in the order of the layout. The files of earlier
/// revisions stay. `raws` hold the same volume; the first are used, one for each of the ranks, 1 to 256, each of which is a
/// worker thread.
///
/// The first refusal ends it, in this order: the text, its step, its volume's bytes, its files' bytes; the header that
/// stands, whether it agrees; whether a revision is left, for a step has at most 256; the raw volume's length. Nothing is
/// changed before all of these. After a refusal no file stands that did not before, unless a call on the bay failed: then
/// the step stands at that revision whole or not at all.
pub fn convert<V: Source + Send, B: Bay, R: Threads + Sync>(
    rt: &R,
    alloc: Global,
    text: &[u8],
    step: u64,
    ranks: u32,
    layout: Layout,
    raws: &mut Vec<V>,
    bay: &mut B,
) -> Result<(), ConvertFault>
where
    B::Draft: Send,
    B::Leaf: Send,
    requires some { 0 < vec_len raws.old }
    requires one { 1 ≤ ranks }
    requires few { ranks ≤ 256 }
    requires alike { HaveSame V.contents raws.old.items }

    // How it ends, by what is known of the raw volumes and of the bay: each promise is a field of the record.
    ensures ends { Ends layout text.now step (known_of V.contents V.asked V.faults raws.old.items raws.new.items
        B.header B.files B.begun B.changes B.failed B.faults bay.old bay.new) result }

    // Where the fault can be known before the first change, the bay still admits the drafts that it did.
    ensures admits { IfErr result (λ fault. IsEarly (contents_at V.contents raws.old.items 0) fault →
        StillAdmits B.admits bay.old bay.new) }

    // What is known of the raw volumes' bytes stays, those behind the first, one for each rank, were not touched, and no
    // count falls, or rises by more than one: a call that failed is not tried again.
    ensures same { SameContents V.contents raws.old.items raws.new.items }
    ensures idle { drop (min ranks (vec_len raws.old)) raws.new.items
        ≡ drop (min ranks (vec_len raws.old)) raws.old.items }
    ensures raw_count { NoneFalls (map V.faults raws.old.items) (map V.faults raws.new.items) }
    ensures raw_once { EachMeetsOnce (map V.faults raws.old.items) (map V.faults raws.new.items) }
    ensures bay_once { MeetsOnceOrRow (B.failed bay.new) ranks (B.faults bay.old) (B.faults bay.new) }
{
    let header = asked_header(alloc, text, step)?;
    let place = find_place(alloc, &header, step, raws, bay)?;
    add_step(
        rt, alloc, text, step, ranks, layout, &header, &place, raws, bay,
    )
}
