//! Finished files of a timestep that are kept in memory, a reader of them that never fails, and the timestep that they
//! make.
#![tactic(auto)]

mod edition;
mod held_draft;
mod held_leaf;
mod held_reader;
mod sealing;

pub use edition::{edition_of, read_block};
pub use held_draft::HeldDraft;
pub use held_leaf::HeldLeaf;
pub use held_reader::HeldReader;
pub use sealing::seal_dock;
