ghost use Rattle.std.specs.Prelude.{◌≡◌, ℕ, ◌-◌, ◌*◌, ◌^◌, ◌≤◌, All, IfOk, List, OnErr, OnOk, length, map, sum};
ghost use Rattle.idx_geom.specs.Region.{HoldsAll, points};
ghost use Rattle.idx_fields.specs.Field.{sample_bytes};
ghost use Rattle.idx_header.specs.Header.{volume_bytes};
ghost use Rattle.idx_pieces.specs.Parcels.{AreParcelsOf, AsksBetween, IsFull, MeetsSome};
ghost use Rattle.idx_pieces.specs.RawReads.{AsksAtMost, HasVolume, KeepsRaw};
ghost use Rattle.idx_pieces.specs.Reading.{BeginsFrom, EndsBelow, HoldsUpTo, IsReady, heading};

use crate::begun::{begin_all, end_place, finished};
use crate::filling::{Filling, rewind_all};
use crate::reading::read_field;
use crate::{Parcel, Piece, RawRefusal};
use idx_geom::Region;
use idx_header::Header;
use idx_outside::Source;
use std::alloc::Global;

/// A window has so many bytes.
const WINDOW_BYTES: usize = 1 << 18;

/// Reads what a rank has of pieces: one parcel for each piece that its region meets, in their order. The raw volume is
/// read through a window of 256 KiB, in rising order. `RawFault` where a call on it failed, with its count of faults.
/// Where the region meets no piece, nothing is read, no memory is taken, and the answer is Ok.
pub fn read_rank<V: Source>(
    alloc: Global,
    raw: &mut V,
    header: &Header,
    region: &Region,
    rank: u32,
    pieces: &Vec<Piece>,
) -> Result<Vec<Parcel>, RawRefusal>
    requires inside { HoldsAll header.now.box region.now }
    requires axes { All (λ p. length p.region ≡ length region.now) pieces.now.items }
    requires volume { HasVolume header.now (V.contents raw.old) }
    ensures parcels { IfOk result (λ parcels. AreParcelsOf rank region.now pieces.now.items parcels.items) }
    ensures full { IfOk result (λ parcels. All (IsFull header.now (V.contents raw.old)) parcels.items) }
    ensures raw { KeepsRaw (V.contents raw.old) (V.contents raw.new) (V.faults raw.old) (V.faults raw.new) result }
    ensures asked { AsksBetween header.now region.now pieces.now.items (V.asked raw.old) (V.asked raw.new) }
    ensures some { OnErr result (MeetsSome region.now pieces.now.items) }
{
    read_by_window(alloc, raw, header, region, rank, pieces, WINDOW_BYTES)
}

/// The same by a window of so many bytes.
pub(crate) fn read_by_window<V: Source>(
    alloc: Global,
    raw: &mut V,
    header: &Header,
    region: &Region,
    rank: u32,
    pieces: &Vec<Piece>,
    room: usize,
) -> Result<Vec<Parcel>, RawRefusal>
    requires inside { HoldsAll header.now.box region.now }
    requires axes { All (λ p. length p.region ≡ length region.now) pieces.now.items }
    requires volume { HasVolume header.now (V.contents raw.old) }
    requires room { 64 ≤ room }
    ensures parcels { IfOk result (λ parcels. AreParcelsOf rank region.now pieces.now.items parcels.items) }
    ensures full { IfOk result (λ parcels. All (IsFull header.now (V.contents raw.old)) parcels.items) }
    ensures raw { KeepsRaw (V.contents raw.old) (V.contents raw.new) (V.faults raw.old) (V.faults raw.new) result }
    ensures asked { AsksBetween header.now region.now pieces.now.items (V.asked raw.old) (V.asked raw.new) }
    ensures some { OnErr result (MeetsSome region.now pieces.now.items) }
{
    let Ok(mut parts) = begin_all(alloc, header, region, rank, pieces) else {
        return Err(RawRefusal::NoMemory);
    };
    if parts.is_empty() {
        return Ok(Vec::new(alloc));
    }
    let Ok(mut window) = Vec::from_elem(alloc, 0u8, room) else {
        return Err(RawRefusal::NoMemory);
    };
    let end = end_place(&parts, &header.region());
    prove!(header.volume_bytes() <= 1 << 52);
    read_fields(raw, &mut parts, header, end, &mut window)?;
    match finished(alloc, parts) {
        Ok(parcels) => Ok(parcels),
        Err(_) => Err(RawRefusal::NoMemory),
    }
}

/// Reads the samples of all fields into parcels that have none.
fn read_fields<V: Source>(
    raw: &mut V,
    parts: &mut Vec<Filling>,
    header: &Header,
    end: u64,
    window: &mut [u8],
) -> Result<(), RawRefusal>
    requires ready { All (IsReady header.now.box 0) parts.old.items }
    requires first { All (λ f. f.cursor.done ≡ 0) parts.old.items }
    requires held { All (HoldsUpTo header.now (V.contents raw.old) 0) parts.old.items }
    requires ends { All (EndsBelow header.now.box end) parts.old.items }
    requires end { end ≤ length (points header.now.box) }
    requires window { 64 ≤ length window.old }
    requires small { volume_bytes header.now ≤ 2 ^ 52 }
    requires volume { HasVolume header.now (V.contents raw.old) }
    ensures first { OnOk result (All (λ f. f.cursor.done ≡ 0) parts.new.items) }
    ensures headings { OnOk result (map heading parts.new.items ≡ map heading parts.old.items) }
    ensures held { OnOk result
        (All (HoldsUpTo header.now (V.contents raw.old) (length header.now.fields)) parts.new.items) }
    ensures raw { KeepsRaw (V.contents raw.old) (V.contents raw.new) (V.faults raw.old) (V.faults raw.new) result }
    ensures asked { (low : ℕ) → All (BeginsFrom header.now.box low) parts.old.items → low ≤ end →
        AsksAtMost (V.asked raw.old) (V.asked raw.new) ((end - low) * sum (map sample_bytes header.now.fields)) }
{
    let extent = header.region();
    let points = extent.count();
    let mut start = 0;
    'fields: for field in 0..header.field_count() {
        read_field(raw, parts, header, field, start, end, window)?;
        rewind_all(parts, &extent);
        start += points * header.sample_bytes(field);
    }
    Ok(())
}
