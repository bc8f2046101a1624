//! The samples of a block, put to the places of their points in an answer: the other way round than blocks are made.
#![tactic(auto)]

mod by_lanes;
mod first_block;
mod leg;
mod order;
mod scatter;
mod side;
mod tally;
mod walk;

pub use order::Order;
pub use scatter::scatter_block;
