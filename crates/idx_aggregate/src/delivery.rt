//! Shipments and the docks that they are for.
ghost use Rattle.std.specs.Prelude.{◌≡◌, ◌≢◌, ◌==◌, ◌<◌, All, AllPairs, map, position};
ghost use Rattle.std.specs.Prelude.{slice_index_or, slice_set, vec_len};
ghost use Rattle.idx_dock.specs.Dock.{DockValue, with_shipment};
ghost use Rattle.idx_aggregate.specs.Shipping.{CanTake, Takes, with_one, with_shipments};

use idx_dock::Dock;
use idx_pieces::Shipment;

/// Hands shipments to the docks of their files, in order. Those for other files are dropped.
pub(crate) fn deliver_all(docks: &mut Vec<Dock>, shipments: Vec<Shipment>)
    requires take { All (CanTake shipments.items) docks.old.items }
    requires apart { AllPairs (λ one other. one.file ≢ other.file) docks.old.items }
    ensures { docks.new.items ≡ map (with_shipments shipments.items) docks.old.items }
{
    for shipment in shipments {
        deliver_one(docks, shipment);
    }
}

/// Hands a shipment to the dock of its file, if there is one.
fn deliver_one(docks: &mut Vec<Dock>, shipment: Shipment)
    requires takes { All (λ d. shipment.file ≡ d.file → Takes shipment d) docks.old.items }
    requires apart { AllPairs (λ one other. one.file ≢ other.file) docks.old.items }
    ensures { docks.new.items ≡ map (with_one shipment) docks.old.items }
{
    if let Some(place) = place_of(docks, shipment.file) {
        put(docks, place, shipment);
    }
}

/// The place of the dock of a file.
fn place_of(docks: &[Dock], file: u64) -> Option<usize>
    ensures { result ≡ position (λ d. d.file == file) docks.now }
{
    docks.iter().position(|dock| dock.file() == file)
}

/// Hands a shipment to the dock at a place.
fn put(docks: &mut Vec<Dock>, place: usize, shipment: Shipment)
    requires within { place < vec_len docks.old }
    requires takes { (d : DockValue) → Takes shipment (slice_index_or docks.old.items place d) }
    ensures { (d : DockValue) → docks.new.items ≡
        slice_set docks.old.items place (with_shipment shipment (slice_index_or docks.old.items place d)) }
{
    match docks[place].deliver(shipment) {
        Ok(()) => {}
        Err(_) => unreachable!(),
    }
}
