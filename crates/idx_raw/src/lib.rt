//! Cutting the samples of a region between two levels out of a raw volume, through a source of bytes.
#![tactic(auto)]

mod asked;
mod cut_fault;
mod cutting;
mod plan;
mod read;
mod read_fault;

pub use asked::Cut;
pub use cut_fault::CutFault;
pub use cutting::cut;
