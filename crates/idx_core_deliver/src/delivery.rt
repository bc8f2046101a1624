//! A piece on its way into a dock.
ghost use Rattle.std.specs.Prelude.{◌≡◌, ◌==◌, true, All, Contains, None, OnErr, OnOk, length};
ghost use Rattle.std.specs.List.{list_any};
ghost use Rattle.idx_header.specs.Header.{volume_bytes};
ghost use Rattle.idx_layout.specs.OfHeader.{placing_of};
ghost use Rattle.idx_layout.specs.Placing.{file_numbers};
ghost use Rattle.idx_pieces.specs.Pieces.{IsPiece};
ghost use Rattle.idx_core_deliver.specs.Deliver.{HasTaken};

use crate::reading::read_piece;
use crate::shipping::shipment_of;
use idx_dock::Dock;
use idx_header::Header;
use idx_memory::SureSource;
use idx_outside::NoMemory;
use idx_pieces::Piece;
use std::alloc::Global;

/// Reads all samples of a piece from a raw volume, puts them into hierarchical order and delivers those of one file to
/// its dock, which awaits the piece and has nothing of it. After `NoMemory` the dock is as it was. The bytes of the raw
/// volume are the same in either case.
pub fn deliver_piece(
    alloc: Global,
    raw: &mut SureSource,
    header: &Header,
    piece: &Piece,
    dock: &mut Dock,
) -> Result<(), NoMemory>
    requires header { dock.old.header ≡ header.now }
    requires piece { IsPiece header.now piece.now }
    requires file { Contains (file_numbers (placing_of header.now)) dock.old.file }
    requires awaited { list_any (λ a. a.piece == piece.now.id) dock.old.awaited ≡ true }
    requires region { All (λ a. a.piece ≡ piece.now.id → (a.region ≡ piece.now.region) × (a.runs ≡ None))
        dock.old.awaited }
    requires whole { length raw.old.bytes ≡ volume_bytes header.now }
    ensures done { OnOk result (HasTaken header.now raw.old.bytes piece.now.id dock.old dock.new) }
    ensures kept { OnErr result (dock.new ≡ dock.old) }
    ensures raw { raw.new.bytes ≡ raw.old.bytes }
{
    let _valid = header.axes();
    let filled = read_piece(alloc, raw, header, piece)?;
    let shipment = shipment_of(alloc, filled, header, dock.file())?;
    match dock.deliver(shipment) {
        Ok(()) => Ok(()),
        Err(_) => unreachable!(),
    }
}
