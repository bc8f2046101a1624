//! Traits of what lies outside the program, each with a count of its faults: an input file (`Source`), an output (`Sink`),
//! the folder of a dataset (`Bay`) with the files that are written there and read again, and a listening socket (`Door`)
//! with the connections that it hands out (`Link`).
#![tactic(auto)]

mod bay;
mod bay_call;
mod bay_fault;
mod blocks;
mod bytes;
mod door;
mod draft;
mod gate;
mod leaf;
mod link;
mod mem_file;
mod no_memory;
mod outage;
mod reader;
mod served;
mod sink;
mod source;

pub use bay::Bay;
pub use bay_call::BayCall;
pub use bay_fault::BayFault;
pub use blocks::{Blocks, Fetched};
pub use bytes::Bytes;
pub use door::Door;
pub use draft::Draft;
pub use gate::{FreeGate, Gate, GatePlace};
pub use leaf::Leaf;
pub use link::Link;
pub use mem_file::MemFile;
pub use no_memory::NoMemory;
pub use outage::Outage;
pub use reader::Reader;
pub use served::Served;
pub use sink::Sink;
pub use source::Source;
