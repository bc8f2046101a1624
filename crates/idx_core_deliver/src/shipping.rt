//! A piece in hierarchical order, for one file.
ghost use Rattle.std.specs.Prelude.{◌≡◌, ◌==◌, true, Contains, IfOk, length, position};
ghost use Rattle.std.specs.List.{list_any};
ghost use Rattle.idx_geom.specs.Region.{HoldsAll};
ghost use Rattle.idx_layout.specs.OfHeader.{placing_of};
ghost use Rattle.idx_layout.specs.Placing.{file_numbers};
ghost use Rattle.idx_pieces.specs.Samples.{region_bytes};
ghost use Rattle.idx_dock.specs.Dock.{reaches};
ghost use Rattle.idx_ship.specs.Shipments.{IsShipment};

use idx_header::Header;
use idx_outside::NoMemory;
use idx_pieces::{Filled, Shipment};
use idx_ship::encode;
use std::alloc::Global;

/// The shipment of a piece for a file in which it has a point.
pub(crate) fn shipment_of(
    alloc: Global,
    filled: Filled,
    header: &Header,
    file: u64,
) -> Result<Shipment, NoMemory>
    requires inside { HoldsAll header.now.box filled.piece.region }
    requires bytes { length filled.bytes ≡ region_bytes header.now filled.piece.region }
    requires file { Contains (file_numbers (placing_of header.now)) file }
    requires reaches { reaches header.now filled.piece.region file ≡ true }
    ensures file { IfOk result (λ shipment. shipment.file ≡ file) }
    ensures shipment { IfOk result (IsShipment header.now filled) }
{
    let _valid = header.axes();
    match encode(alloc, filled, header) {
        Ok(shipments) => Ok(for_file(shipments, file)),
        Err(_) => Err(NoMemory),
    }
}

/// That of some shipments which is for a file.
fn for_file(shipments: Vec<Shipment>, file: u64) -> Shipment
    requires { list_any (λ shipment. shipment.file == file) shipments.items ≡ true }
    ensures among { Contains shipments.items result }
    ensures file { result.file ≡ file }
{
    let mut shipments = shipments;
    let place = place_of(&shipments, file).unwrap();
    shipments.swap_remove(place)
}

/// The place of the first of some shipments that is for a file.
fn place_of(shipments: &[Shipment], file: u64) -> Option<usize>
    ensures { result ≡ position (λ shipment. shipment.file == file) shipments.now }
{
    shipments.iter().position(|shipment| shipment.file == file)
}
