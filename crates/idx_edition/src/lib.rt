//! The files of one published timestep: which blocks they have, and where in them each block stands.
#![tactic(auto)]

mod edition;
mod examples;
mod laws;
mod lengths;
mod load;
mod load_fault;
mod newest;
mod rows;
mod tables;

pub use edition::Edition;
pub use examples::worked_blocks;
pub use laws::written_steps_read_back;
pub use lengths::block_lengths;
pub use load_fault::LoadFault;
