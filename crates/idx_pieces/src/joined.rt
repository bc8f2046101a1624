ghost use Rattle.std.specs.Prelude.{◌≡◌, ℕ, ◌+◌, ◌*◌, ◌^◌, ◌<◌, ◌≤◌, ◌++◌, ◌==◌, All, IfOk, OnOk, find, length};
ghost use Rattle.std.specs.Option.{option_copied};
ghost use Rattle.idx_geom.specs.Region.{points};
ghost use Rattle.idx_header.specs.Header.{IsHeader};
ghost use Rattle.idx_pieces.specs.Joined.{field_bytes, joined_parcels, place_bytes, place_count, rank_bytes, row_bytes};
ghost use Rattle.idx_pieces.specs.Samples.{region_bytes};

use crate::begun::room_of;
use crate::regions::cut_of;
use crate::{Parcel, Piece};
use idx_header::Header;
use idx_outside::{Bytes, NoMemory};
use std::alloc::Global;

/// Where the bytes of a part stand at one of the places behind the axis of the cut.
#[derive(Clone, Copy)]
struct Row {
    /// How many such places there are.
    places: u64,
    /// How many bytes a point has in the fields before.
    before: u64,
    /// How many bytes a sample has.
    size: u64,
    /// The place.
    place: u64,
}

/// The bytes of a piece, joined from those of its ranks' parts.
pub(crate) fn joined(
    alloc: Global,
    header: &Header,
    piece: &Piece,
    parcels: &[Parcel],
) -> Result<Bytes, NoMemory>
    requires axes { length piece.now.region ≡ length header.now.box }
    requires whole { All (λ parcel. length parcel.bytes ≡ region_bytes header.now parcel.region) parcels.now }
    ensures bytes { IfOk result (λ bytes. bytes ≡ joined_parcels header.now piece.now parcels.now) }
    ensures valid { IsHeader header.now }
{
    let places = place_count(header, piece);
    let room = room_of(header, &piece.region);
    let mut bytes = Bytes::with_capacity(alloc, room as usize)?;
    let mut before = 0;
    for field in 0..header.field_count() {
        let size = header.sample_bytes(field);
        join_field(piece, parcels, places, before, size, &mut bytes)?;
        before += size;
    }
    Ok(bytes)
}

/// Appends the bytes of a field.
fn join_field(
    piece: &Piece,
    parcels: &[Parcel],
    places: u64,
    before: u64,
    size: u64,
    bytes: &mut Bytes,
) -> Result<(), NoMemory>
    requires room { All (λ parcel. length (points parcel.region) * (before + size) ≤ length parcel.bytes) parcels.now }
    requires small { before + size ≤ 2 ^ 12 }
    ensures { OnOk result (bytes.new ≡ bytes.old ++ field_bytes piece.now parcels.now places before size) }
{
    for place in 0..places {
        let row = Row {
            places,
            before,
            size,
            place,
        };
        join_place(piece, parcels, &row, bytes)?;
    }
    Ok(())
}

/// Appends the bytes of a field at a place: rank after rank.
fn join_place(
    piece: &Piece,
    parcels: &[Parcel],
    row: &Row,
    bytes: &mut Bytes,
) -> Result<(), NoMemory>
    requires room { All (λ parcel. length (points parcel.region) * (row.now.before + row.now.size) ≤
        length parcel.bytes) parcels.now }
    requires small { row.now.before + row.now.size ≤ 2 ^ 12 }
    requires within { row.now.place < row.now.places }
    ensures { OnOk result (bytes.new ≡ bytes.old ++
        place_bytes piece.now parcels.now row.now.places row.now.before row.now.size row.now.place) }
{
    for rank in piece.ranks.as_slice() {
        join_row(parcels, *rank, row, bytes)?;
    }
    Ok(())
}

/// Appends the bytes of a rank.
fn join_row(parcels: &[Parcel], rank: u32, row: &Row, bytes: &mut Bytes) -> Result<(), NoMemory>
    requires room { All (λ parcel. length (points parcel.region) * (row.now.before + row.now.size) ≤
        length parcel.bytes) parcels.now }
    requires small { row.now.before + row.now.size ≤ 2 ^ 12 }
    requires within { row.now.place < row.now.places }
    ensures { OnOk result (bytes.new ≡ bytes.old ++
        rank_bytes parcels.now row.now.places row.now.before row.now.size row.now.place rank) }
{
    match parcel_of(parcels, rank) {
        Some(parcel) => bytes.append(row_of(parcel, row)),
        None => Ok(()),
    }
}

/// The bytes of a parcel at a place.
fn row_of<'a>(parcel: &'a Parcel, row: &Row) -> &'a [u8]
    requires room { length (points parcel.now.region) * (row.now.before + row.now.size) ≤ length parcel.now.bytes }
    requires small { row.now.before + row.now.size ≤ 2 ^ 12 }
    requires within { row.now.place < row.now.places }
    ensures { result.now ≡ row_bytes row.now.places (length (points parcel.now.region)) row.now.before row.now.size
        parcel.now.bytes row.now.place }
{
    let count = parcel.region.count();
    let len = count / row.places * row.size;
    let at = count * row.before + row.place * len;
    &parcel.bytes.as_slice()[at as usize..(at + len) as usize]
}

/// The first parcel of a rank.
fn parcel_of(parcels: &[Parcel], rank: u32) -> Option<&Parcel>
    ensures { option_copied result ≡ find (λ parcel. parcel.rank == rank) parcels.now }
{
    parcels.iter().find(|parcel| parcel.rank == rank)
}

/// How many places a piece has on the axes behind the axis of the cut.
fn place_count(header: &Header, piece: &Piece) -> u64
    requires { length piece.now.region ≡ length header.now.box }
    ensures count { result ≡ place_count header.now piece.now }
    ensures valid { IsHeader header.now }
{
    let cut = cut_of(&header.region());
    if cut.axis + 1 == header.axes() {
        return 1;
    }
    let (lo, hi) = (piece.region.lo(), piece.region.hi());
    let mut count = 1;
    for axis in (cut.axis + 1..piece.region.axes()).rev() {
        count *= hi.get(axis) + 1 - lo.get(axis);
    }
    count
}
