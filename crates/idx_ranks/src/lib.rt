//! Each rank reads its parts of some pieces out of its own raw volume, side by side (PIDX, Kumar et al.).
#![tactic(auto)]

mod job;
mod load;
mod moving;
mod phase;
mod ranks_fault;
mod settling;
mod sorting;

pub use load::Load;
pub use phase::read_loads;
pub use ranks_fault::RanksFault;
