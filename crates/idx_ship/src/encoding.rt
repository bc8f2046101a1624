ghost use Rattle.std.specs.Prelude.{◌≡◌, ◌+◌, ◌*◌, ◌/◌, ◌^◌, ◌<◌, ◌≤◌, IfErr, IfOk, length};
ghost use Rattle.idx_geom.specs.Region.{HoldsAll, IsRegion, upper_ends};
ghost use Rattle.idx_hz.specs.Mask.{HasAddress};
ghost use Rattle.idx_header.specs.Header.{IsHeader, block_count};
ghost use Rattle.idx_pieces.specs.Samples.{region_bytes};
ghost use Rattle.idx_ship.specs.Shipments.{AreShipments, IsShipment};

use crate::in_file::spans_in_file;
use crate::run::runs_over;
use idx_geom::Region;
use idx_header::Header;
use idx_layout::next_present;
use idx_outside::NoMemory;
use idx_pieces::{Filled, Runs, Shipment};
use std::alloc::Global;

/// Puts a piece into hierarchical order (Pascucci and Frank 2001): one shipment for each file in which some of its points
/// have their addresses, by rising file. Together their runs have each sample of the piece once, at its address. The
/// piece lies in the dataset's box, and its bytes are the samples of its region, field after field, each in row-major
/// order, axis 0 fastest. Where no memory is left the piece is handed back as it was.
pub fn encode(
    alloc: Global,
    filled: Filled,
    header: &Header,
) -> Result<Vec<Shipment>, (Filled, NoMemory)>
    requires inside { HoldsAll header.now.box filled.piece.region }
    requires bytes { length filled.bytes ≡ region_bytes header.now filled.piece.region }
    ensures ok { IfOk result (λ shipments. AreShipments header.now filled shipments.items) }
    ensures err { IfErr result (λ refused. refused.0 ≡ filled) }
{
    match ship_all(alloc, &filled, header) {
        Ok(shipments) => Ok(shipments),
        Err(refused) => Err((filled, refused)),
    }
}

/// The shipments of a piece.
fn ship_all(alloc: Global, filled: &Filled, header: &Header) -> Result<Vec<Shipment>, NoMemory>
    requires inside { HoldsAll header.now.box filled.now.piece.region }
    requires bytes { length filled.now.bytes ≡ region_bytes header.now filled.now.piece.region }
    ensures { IfOk result (λ shipments. AreShipments header.now filled.now shipments.items) }
{
    let region = header_part(header, &filled.piece.region);
    let (mask, bits) = (header.mask(), header.bits_per_block());
    let per_file = header.blocks_per_file();
    let mut shipments = Vec::new(alloc);
    let mut next = 0;
    while let Some(block) = next_present(&mask, &region, bits, next) {
        let file = file_of(block, per_file);
        shipments.push(ship(alloc, filled, header, file)?)?;
        next = file + per_file;
    }
    Ok(shipments)
}

/// A part of the dataset's box, each point of which has an address.
fn header_part(header: &Header, region: &Region) -> Region
    requires { HoldsAll header.now.box region.now }
    ensures same { result ≡ region.now }
    ensures address { HasAddress header.now.mask (upper_ends result) }
    ensures header { IsHeader header.now }
    ensures region { IsRegion result }
{
    let _valid = (header.axes(), region.axes());
    *region
}

/// The number of the file of a block, where files hold so many blocks.
fn file_of(block: u64, per_file: u64) -> u64
    requires { 1 ≤ per_file }
    ensures value { result ≡ per_file * (block / per_file) }
    ensures from { result ≤ block }
    ensures to { block < result + per_file }
{
    per_file * (block / per_file)
}

/// The shipment of a file.
fn ship(alloc: Global, filled: &Filled, header: &Header, file: u64) -> Result<Shipment, NoMemory>
    requires address { HasAddress header.now.mask (upper_ends filled.now.piece.region) }
    requires inside { HoldsAll header.now.box filled.now.piece.region }
    requires bytes { length filled.now.bytes ≡ region_bytes header.now filled.now.piece.region }
    requires small { file < 2 ^ 40 }
    ensures shipment { IfOk result (IsShipment header.now filled.now) }
    ensures file { IfOk result (λ shipment. shipment.file ≡ file) }
{
    let region = &filled.piece.region;
    let spans = spans_in_file(
        alloc,
        &header.mask(),
        region,
        header.bits_per_block(),
        file,
        header.blocks_per_file(),
    )?;
    let runs = runs_over(alloc, header, region, filled.bytes.as_slice(), &spans)?;
    Ok(Shipment {
        piece: filled.piece.id,
        file,
        runs: Runs::from_vec(runs),
    })
}
