//! Where the samples of a region between two levels lie in a row-major raw volume: a walk over their places, and the
//! plain search that it replaces.
#![tactic(auto)]

mod axis_of;
mod by_points;
mod examples;
mod region_walk;

pub use by_points::answer_by_points;
pub use examples::{worked_multiples, worked_places};
pub use region_walk::walk;
