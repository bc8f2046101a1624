//! What a request's target asks of a dataset.
#![tactic(auto)]

mod asked;
mod noted;
mod parameters;
mod target;
mod target_fault;
mod wish;

pub use target::read_target;
pub use target_fault::TargetFault;
