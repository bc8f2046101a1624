ghost use Rattle.std.specs.Prelude.{◌≡◌, ℕ, ◌^◌, ◌<◌, ◌≤◌, All, IfOk, List, OnErr, Option, length, map};
ghost use Rattle.idx_geom.specs.Region.{HoldsAll, common_bounds, place_of, points, upper_ends};
ghost use Rattle.idx_pieces.specs.Parcels.{MeetsSome, heading_of, meeting};
ghost use Rattle.idx_pieces.specs.Reading.{EndsBelow, HoldsUpTo, IsReady, bytes_before, heading};
ghost use Rattle.idx_pieces.specs.Samples.{region_bytes};

use crate::cursor::Cursor;
use crate::digits::point_bytes;
use crate::filling::Filling;
use crate::{Parcel, Piece};
use idx_geom::Region;
use idx_header::Header;
use idx_outside::{Bytes, NoMemory};
use std::alloc::Global;

/// A parcel with no samples yet, and with room for all of them.
fn begin(
    alloc: Global,
    header: &Header,
    rank: u32,
    piece: u64,
    region: Region,
) -> Result<Filling, NoMemory>
    requires { HoldsAll header.now.box region }
    ensures ready { IfOk result (IsReady header.now.box 0) }
    ensures first { IfOk result (λ f. f.cursor.done ≡ 0) }
    ensures held { IfOk result (λ f. (told : Option (List ℕ)) → HoldsUpTo header.now told 0 f) }
    ensures heading { IfOk result (λ f. heading f ≡ (rank, (piece, region))) }
{
    let extent = header.region();
    prove!(extent.axes() >= 2);
    prove!(region.axes() >= 2);
    prove!(region.count() >= 1);
    let bytes = Bytes::with_capacity(alloc, room_of(header, &region) as usize)?;
    let cursor = Cursor::at(&extent, &region, 0);
    Ok(Filling {
        parcel: Parcel {
            rank,
            piece,
            region,
            bytes,
        },
        cursor,
    })
}

/// How many bytes the samples of a region have, those of all fields together: the room that they are to be taken in.
pub(crate) fn room_of(header: &Header, region: &Region) -> u64
    ensures bytes { result ≡ region_bytes header.now region.now }
    ensures few { result ≤ 2 ^ 52 }
{
    region.count() * point_bytes(header)
}

/// The parcels of a rank with no samples yet: one for each piece that its region meets. Memory is taken only where there
/// is such a piece.
pub(crate) fn begin_all(
    alloc: Global,
    header: &Header,
    region: &Region,
    rank: u32,
    pieces: &Vec<Piece>,
) -> Result<Vec<Filling>, NoMemory>
    requires inside { HoldsAll header.now.box region.now }
    requires axes { All (λ p. length p.region ≡ length region.now) pieces.now.items }
    ensures ready { IfOk result (λ parts. All (IsReady header.now.box 0) parts.items) }
    ensures first { IfOk result (λ parts. All (λ f. f.cursor.done ≡ 0) parts.items) }
    ensures held { IfOk result (λ parts. (told : Option (List ℕ)) → All (HoldsUpTo header.now told 0) parts.items) }
    ensures headings { IfOk result (λ parts.
        map heading parts.items ≡ map (heading_of rank region.now) (meeting region.now pieces.now.items)) }
    ensures some { OnErr result (MeetsSome region.now pieces.now.items) }
{
    let mut parts = Vec::new(alloc);
    'pieces: for i in 0..pieces.len() {
        let piece = &pieces[i];
        match region.meet(&piece.region) {
            None => {}
            Some(common) => {
                let part = begin(alloc, header, rank, piece.id, common)?;
                parts.push(part)?;
            }
        }
    }
    Ok(parts)
}

/// The place behind the last one of all parcels, or 0 where there is none.
pub(crate) fn end_place(parts: &Vec<Filling>, extent: &Region) -> u64
    requires { All (IsReady extent.now 0) parts.now.items }
    ensures ends { All (EndsBelow extent.now result) parts.now.items }
    ensures least { (end : ℕ) → All (EndsBelow extent.now end) parts.now.items → result ≤ end }
    ensures within { result ≤ length (points extent.now) }
{
    let mut end = 0;
    'parts: for i in 0..parts.len() {
        end = parts[i].later(extent, end);
    }
    end
}

impl Filling {
    /// The later of a place and the one behind the parcel's last place.
    fn later(&self, extent: &Region, place: u64) -> u64
        requires ready { IsReady extent.now 0 self.now }
        ensures later { place ≤ result }
        ensures ends { EndsBelow extent.now result self.now }
        ensures least { (end : ℕ) → place ≤ end → EndsBelow extent.now end self.now → result ≤ end }
        ensures within { place ≤ length (points extent.now) → result ≤ length (points extent.now) }
    {
        place.max(extent.rank_of(&self.parcel.region.hi()) + 1)
    }
}

/// The parcels, when they are full.
pub(crate) fn finished(alloc: Global, parts: Vec<Filling>) -> Result<Vec<Parcel>, NoMemory>
    ensures { IfOk result (λ parcels. parcels.items ≡ map (λ f. f.parcel) parts.items) }
{
    Ok(parts.into_iter().map(|part| part.parcel).collect(alloc)?)
}
