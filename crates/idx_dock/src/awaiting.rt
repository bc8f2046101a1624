//! The pieces that a dock awaits.
ghost use Rattle.std.specs.Prelude.{◌≡◌, ◌==◌, ◌+◌, nat_le, nat_lt, option_copied, ◌<◌, All, IfErr, IfOk, MatchResult, None, OnErr, OnOk, Some, find, length, map, not, position, slice_index_or, slice_set, vec_len};
ghost use Rattle.idx_dock.specs.declared.awaited.Awaited.{Awaited};
ghost use Rattle.std.specs.List.{list_any};
ghost use Rattle.std.specs.Option.{is_some, option_map};
ghost use Rattle.idx_geom.specs.Region.{upper_ends};
ghost use Rattle.idx_hz.specs.Mask.{HasAddress};
ghost use Rattle.idx_dock.specs.Dock.{awaited_of, delivered, reaches, reaching, unwanted_of, with_runs};

use crate::{Awaited, Unwanted};
use idx_geom::Region;
use idx_header::Header;
use idx_layout::blocks_in;
use idx_outside::NoMemory;
use idx_pieces::{Piece, Runs, Shipment};
use std::alloc::Global;

/// Those of some pieces that have a point in a file, whose last block is that before `end`, with nothing delivered.
pub(crate) fn await_pieces(
    alloc: Global,
    header: &Header,
    pieces: &[Piece],
    file: u64,
    end: u64,
) -> Result<Vec<Awaited>, NoMemory>
    requires end { end ≡ file + header.now.blocks_per_file }
    requires address { All (λ piece. HasAddress header.now.mask (upper_ends piece.region)) pieces.now }
    ensures { IfOk result (λ awaited. awaited.items ≡ map awaited_of (reaching header.now file pieces.now)) }
{
    let mut awaited = Vec::new(alloc);
    for piece in pieces {
        if reaches(header, &piece.region, file, end) {
            awaited.push(await_piece(piece))?;
        }
    }
    Ok(awaited)
}

/// A piece with nothing delivered.
fn await_piece(piece: &Piece) -> Awaited
    ensures { result ≡ awaited_of piece.now }
{
    Awaited {
        piece: piece.id,
        region: piece.region,
        runs: None,
    }
}

/// Whether some point of a region has its address in a block of a file, whose last block is that before `end`.
pub fn reaches(header: &Header, region: &Region, file: u64, end: u64) -> bool
    requires end { end ≡ file + header.now.blocks_per_file }
    requires address { HasAddress header.now.mask (upper_ends region.now) }
    ensures { result ≡ reaches header.now region.now file }
{
    let mut blocks = blocks_in(&header.mask(), region, header.bits_per_block(), file, end);
    blocks.next().is_some()
}

/// The place of the awaited piece of an id.
fn place_of(awaited: &[Awaited], piece: u64) -> Option<usize>
    ensures { result ≡ position (λ a. a.piece == piece) awaited.now }
{
    awaited.iter().position(|a| a.piece == piece)
}

/// The awaited piece of an id.
pub(crate) fn find_piece(awaited: &[Awaited], piece: u64) -> Option<&Awaited>
    ensures { option_copied result ≡ find (λ a. a.piece == piece) awaited.now }
{
    awaited.iter().find(|a| a.piece == piece)
}

/// The least piece of which nothing was delivered.
pub(crate) fn first_missing(awaited: &[Awaited]) -> Option<u64>
    ensures { result ≡ option_map (λ a. a.piece) (find (λ a. not (is_some a.runs)) awaited.now) }
{
    for a in awaited {
        if a.runs.is_none() {
            return Some(a.piece);
        }
    }
    None
}

/// Whether a piece with an id up to this one is awaited.
pub(crate) fn awaits_up_to(awaited: &[Awaited], id: u64) -> bool
    ensures { result ≡ list_any (λ a. nat_le a.piece id) awaited.now }
{
    awaited.iter().any(|a| a.piece <= id)
}

/// Whether a piece behind this one is awaited.
pub(crate) fn awaits_behind(awaited: &[Awaited], id: u64) -> bool
    ensures { result ≡ list_any (λ a. nat_lt id a.piece) awaited.now }
{
    awaited.iter().any(|a| a.piece > id)
}

/// Keeps the runs of an awaited piece, unless it has some.
pub(crate) fn deliver_to(
    awaited: &mut Vec<Awaited>,
    shipment: Shipment,
) -> Result<(), (Shipment, Unwanted)>
    ensures cases { MatchResult result (λ _. unwanted_of (find (λ a. a.piece == shipment.piece) awaited.old.items) ≡ None)
        (λ back. unwanted_of (find (λ a. a.piece == shipment.piece) awaited.old.items) ≡ Some back.1) }
    ensures kept { OnOk result (awaited.new.items ≡ with_runs shipment.piece shipment.runs awaited.old.items) }
    ensures back { IfErr result (λ back. back.0 ≡ shipment) }
    ensures len { vec_len awaited.new ≡ vec_len awaited.old }
    ensures same { OnErr result (awaited.new.items ≡ awaited.old.items) }
{
    let Some(place) = place_of(awaited, shipment.piece) else {
        return Err((shipment, Unwanted::Stranger));
    };
    if awaited[place].runs.is_some() {
        return Err((shipment, Unwanted::Double));
    }
    put(awaited, place, shipment.runs);
    Ok(())
}

/// Keeps the runs of the awaited piece at a place.
fn put(awaited: &mut Vec<Awaited>, place: usize, runs: Runs)
    requires { place < vec_len awaited.old }
    ensures len { vec_len awaited.new ≡ vec_len awaited.old }
    ensures items { (d : Awaited) → awaited.new.items ≡ slice_set awaited.old.items place (delivered runs (slice_index_or awaited.old.items place d)) }
{
    awaited[place].runs = Some(runs);
}
