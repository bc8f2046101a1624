//! The headline for every list of events of a dataset, with all that stands below proved.
#![tactic(auto)]

mod laws;

pub use laws::{every_interleaving, layers_keep_their_laws};
