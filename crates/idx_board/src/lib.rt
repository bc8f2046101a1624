//! All timesteps of a dataset that are there, opened and published in a hall.
#![tactic(auto)]

mod board;
mod step;
mod steps;

pub use board::hall_of;
