//! Steps that are gathered by ranks out of raw volumes in memory, call by call, and published beside those who serve; and
//! worked rows of pieces.
#![tactic(auto)]

#[cfg(test)]
mod beside;
#[cfg(test)]
mod dataset;
mod laws;
#[cfg(test)]
mod raw;
#[cfg(test)]
mod ready;
#[cfg(test)]
mod stage;
#[cfg(test)]
mod states;
#[cfg(test)]
mod waiting;

pub use laws::{divisions, parts_of_ranks, refused_parcels};
