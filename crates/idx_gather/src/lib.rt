//! From raw volumes to the files of a step, byte for byte those that the format defines, by many workers and in bounded
//! memory (PIDX, Kumar et al.).
#![tactic(auto)]

mod batch;
mod batches;
mod begun;
mod closing;
mod committing;
mod docking;
mod docks;
mod finishing;
mod gather_fault;
mod gathering;
mod laws;
mod length;
mod opening;
mod parcelled;
mod sealed;
mod sealing;
mod sealing_all;
mod starting;
mod stream;
mod stream_sealing;
mod streaming;
mod wanted;
mod window;

pub use docking::Docking;
pub use gather_fault::GatherFault;
pub use gathering::{gather, gather_as, gather_room};
pub use laws::{batches_fit_the_room, sealed_files_are_a_step, windows_fit_the_room};
pub use opening::Opening;
pub use parcelled::Parcelled;
pub use sealed::Sealed;
