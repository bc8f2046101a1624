//! Grids of points: those of the levels of a hierarchical Z order, and those of its blocks.
#![tactic(auto)]

mod block_shape;
mod examples;
mod grid;
mod laws;
mod level_grid;
mod prefix;

pub use block_shape::{BlockShape, shape};
pub use examples::worked_grids;
pub use grid::{Grid, count_in};
pub use laws::{grids_are_tested, level_zero_is_the_origin};
pub use level_grid::{grid_at, grid_up_to};
pub use prefix::prefix_box;
