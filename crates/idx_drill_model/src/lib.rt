//! A drill: a small dataset, its volume and its questions, with which blocks each question needs.
#![tactic(auto)]

mod laws;

pub use laws::{caches_keep_up, drills_are_datasets, levels_need_their_blocks};
