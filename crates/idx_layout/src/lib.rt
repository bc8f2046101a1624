//! Where the blocks of a dataset stand: which are present, in which file, and at which place of it.
#![tactic(auto)]

mod block_place;
mod blocks_in_file;
mod examples;
mod laws;
mod next_block;
mod places;
mod points;
mod present_files;
mod rows_in_file;
mod run;

pub use block_place::Place;
pub use blocks_in_file::FileBlocks;
pub use examples::{worked_files, worked_placings};
pub use laws::{
    files_hold_their_blocks, headers_fit_rows, layouts_are_read_back, offsets_are_sums,
    written_files_are_right,
};
pub use next_block::next_present;
pub use places::{
    file_blocks, file_len, file_rows, files, offset_at, place, present, present_in_file, table_len,
};
pub use points::{blocks_in, blocks_with_points, has_point_in};
pub use present_files::Files;
pub use rows_in_file::FileRows;
