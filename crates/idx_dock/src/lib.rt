//! The aggregator of one file: it takes the samples of each piece that has a point in the file, in any order, and then
//! writes the file (PIDX, Kumar et al.).
#![tactic(auto)]

mod awaited;
mod awaiting;
mod content;
mod dock;
mod examples;
mod filled;
mod gathered;
mod laws;
mod next;
mod rows;
mod unwanted;

pub use awaited::Awaited;
pub use awaiting::reaches;
pub use dock::Dock;
pub use examples::{worked_docks, worked_layouts};
pub use laws::{
    complete_docks_are_files, delivered_samples_stand, deliveries_commute,
    pieces_reach_their_addresses,
};
pub use unwanted::Unwanted;
