ghost use Rattle.std.specs.Prelude.{◌≡◌};

use crate::buffer::long_buffer;
use idx_header::Header;
use idx_outside::Bay;
use idx_progress::Shown;
use idx_real::{SharedListener, Sockets};
use std::alloc::Global;
use std::io::{self, Write};
use std::net::SocketAddr;
use std::sync::Arc;

/// What is said of a dataset that is about to be served: where, and how many of its steps stand.
#[derive(Drop)]
pub struct Notice<R: Sockets, B: Bay + Drop, W: Write + Drop> {
    /// What opens the address.
    pub rt: R,
    pub alloc: Global,
    /// The address.
    pub shared: Arc<SharedListener, Global>,
    /// The path of the header, as it was given.
    pub dataset: String,
    /// Where the steps stand.
    pub bay: B,
    /// What the line is written to.
    pub err: W,
}

impl<R: Sockets, B: Bay + Drop, W: Write + Drop> Notice<R, B, W> {
    /// Opens the address, and writes the line. Nothing is written where that cannot be listened at, and a line that
    /// cannot be written changes nothing.
    pub fn give(&mut self) {
        if let Ok(address) = self.shared.bind(&self.rt) {
            let steps = standing_steps(self.alloc, &mut self.bay);
            let mut line = long_buffer(self.alloc);
            let _ = write_notice(&mut line, address, steps, self.dataset.as_str());
            let _ = self.err.write_all(line.as_slice());
        }
    }
}

/// Writes where a dataset is served, and how many of its steps stand, if that is known.
pub fn write_notice<W: Write>(
    err: &mut W,
    address: SocketAddr,
    steps: Option<u64>,
    dataset: &str,
) -> io::Result<()> {
    let dataset = Shown(dataset);
    match steps {
        Some(steps) => writeln!(err, "  listening on {address}, {steps} steps of {dataset}"),
        None => writeln!(err, "  listening on {address}"),
    }
}

/// How many steps of a dataset stand. `None` where that cannot be found out. A dataset without a time has the one step.
pub fn standing_steps<B: Bay>(alloc: Global, bay: &mut B) -> Option<u64>
    ensures header { B.header bay.new ≡ B.header bay.old }
    ensures files { B.files bay.new ≡ B.files bay.old }
    ensures begun { B.begun bay.new ≡ B.begun bay.old }
    ensures changes { B.changes bay.new ≡ B.changes bay.old }
{
    let header = Header::of_bay(alloc, bay).ok()?;
    let Some((first, last)) = header.steps() else {
        return Some(1);
    };
    let mut standing = 0u64;
    for step in first..=last {
        if has_step(alloc, &header, step, bay)? {
            standing = standing.saturating_add(1);
        }
    }
    Some(standing)
}

/// Whether a step stands. `None` where that cannot be found out.
fn has_step<B: Bay>(alloc: Global, header: &Header, step: u64, bay: &mut B) -> Option<bool>
    ensures header { B.header bay.new ≡ B.header bay.old }
    ensures files { B.files bay.new ≡ B.files bay.old }
    ensures begun { B.begun bay.new ≡ B.begun bay.old }
    ensures changes { B.changes bay.new ≡ B.changes bay.old }
{
    match header.step_folder(alloc, step).ok()? {
        Some(folder) => bay.has_step(folder.as_slice()).ok(),
        None => Some(true),
    }
}
