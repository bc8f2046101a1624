//! The bytes of a block, made out of the raw samples of a field.
#![tactic(auto)]

mod by_addresses;
mod by_lanes;
mod copy;
mod fill;
mod first_block;
mod rows;
mod tile;
mod tiles;
mod walk;

pub use by_addresses::fill_by_addresses;
pub use by_lanes::fill_by_lanes;
pub use fill::fill_block;
