//! The samples of a piece in hierarchical order: for each file the runs of consecutive addresses that its points have
//! (Pascucci and Frank 2001; PIDX, Kumar et al.).
#![tactic(auto)]

mod cut;
mod encoding;
mod examples;
mod in_file;
mod piece_length;
mod prefix;
mod run;
mod span;

pub use encoding::encode;
pub use examples::worked_runs;
pub use piece_length::piece_bytes;
