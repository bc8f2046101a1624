//! Walks over the samples of grids in row-major volumes: their places, and their samples.
#![tactic(auto)]

mod axes;
mod axis;
mod examples;
mod gather;
mod row;
mod run;
mod strides;

pub use axis::{Axis, NO_AXIS};
pub use examples::{worked_offsets, worked_samples};
pub use strides::Strides;
