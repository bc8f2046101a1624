//! Blocks whose samples lie in the row-major order of their points: the row places of a block, and the way from this
//! order to that of hierarchical addresses and back, in place and without memory.
#![tactic(auto)]

mod bit_places;
mod bit_tables;
mod carried;
mod examples;
mod gather;
mod involutions;
mod laws;
mod layout;
mod passes;
mod picks;
mod places;
mod row_targets;
mod rows;
mod turned;

pub use examples::{worked_plane, worked_space};
pub use laws::{orders_undo_each_other, row_places_are_one_to_one, row_places_count_points};
pub use layout::Layout;
pub use rows::{offset_at, row_place, to_hz, to_rows};
