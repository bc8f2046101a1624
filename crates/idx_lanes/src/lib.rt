//! What both directions of copying the samples of a block share: how one sample is copied, the lanes along which a
//! block's points lie in a row-major volume, and what their coordinates give to a place in the block.
#![tactic(auto)]

mod axis;
mod axis_places;
mod block_part;
mod examples;
mod lane;
mod lanes;
mod sample;

pub use axis::{bounds, first_from, step_of};
pub use axis_places::next_part;
pub use block_part::BlockPart;
pub use examples::worked_parts;
pub use lane::Lane;
pub use lanes::{Lanes, find_lanes};
pub use sample::{AnySize, Fixed, Sample};
