ghost use Rattle.std.specs.Prelude.{◌≡◌, All, IfOk};
ghost use Rattle.idx_ranks.specs.Loads.{IsLoad};
ghost use Rattle.idx_aggregate.specs.Shipping.{AreAllMade, AreMade};
ghost use Rattle.idx_aggregate.specs.Jobs.{Does, MayRun};

use idx_header::Header;
use idx_outside::NoMemory;
use idx_pieces::{Shipment, assemble};
use idx_ranks::Load;
use idx_ship::encode;
use std::alloc::Global;
use std::collections::VecDeque;

/// What a worker does: it puts the pieces of its loads into hierarchical order, one after another. Before that, what it
/// made is `NoMemory`.
#[derive(Drop)]
pub(crate) struct Job {
    /// The loads, until the worker takes them.
    pub loads: VecDeque<Load>,
    /// Their shipments.
    pub made: Result<Vec<Shipment>, NoMemory>,
}

impl Job {
    /// Makes the shipments of the loads, which are freed.
    pub(crate) fn run(&mut self, alloc: Global, header: &Header)
        requires { MayRun header.now self.old }
        ensures { Does header.now self.old self.new }
    {
        self.made = make_all(alloc, header, &mut self.loads);
    }
}

/// The shipments of loads, which are freed one after another.
fn make_all(
    alloc: Global,
    header: &Header,
    loads: &mut VecDeque<Load>,
) -> Result<Vec<Shipment>, NoMemory>
    requires { All (IsLoad header.now) loads.old.items }
    ensures { IfOk result (λ made. AreAllMade header.now loads.old.items made.items) }
{
    let mut made = Vec::new(alloc);
    'loads: while let Some(load) = loads.pop_front() {
        let mut more = make(alloc, header, load)?;
        made.append(&mut more)?;
    }
    Ok(made)
}

/// The shipments of a load, which is freed: first its parcels, and then the bytes of the piece.
fn make(alloc: Global, header: &Header, load: Load) -> Result<Vec<Shipment>, NoMemory>
    requires { IsLoad header.now load }
    ensures { IfOk result (λ made. AreMade header.now load made.items) }
{
    let _valid = header.axes();
    let Load { piece, parcels } = load;
    let Ok(filled) = assemble(alloc, header, piece, parcels.into_vec()) else {
        return Err(NoMemory);
    };
    match encode(alloc, filled, header) {
        Ok(shipments) => Ok(shipments),
        Err(_) => Err(NoMemory),
    }
}
