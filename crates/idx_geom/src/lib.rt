//! Points, regions and row-major places of a regular grid of two to five axes.
#![tactic(auto)]

mod examples;
mod laws;
mod point;
mod region;

pub use examples::worked_regions;
pub use laws::{equal_points_are_one, places_are_points, raw_gives_volume};
pub use point::{MAX_AXES, Point};
pub use region::Region;
