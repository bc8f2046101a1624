//! The samples of one piece of a raw volume, on their way to the aggregator of one file.
#![tactic(auto)]

mod delivery;
mod reading;
mod shipping;

pub use delivery::deliver_piece;
