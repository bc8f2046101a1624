//! Answers a question out of a dataset, or says why not: from the header and the files of a step to the samples.
#![tactic(auto)]

mod alone;
mod answering;
mod asked;
mod extract_fault;
mod extracting;
mod opening;

pub use extract_fault::ExtractFault;
pub use extracting::extract;
