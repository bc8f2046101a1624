//! Answers to questions, out of the published steps and the cache of their blocks.
#![tactic(auto)]

mod answering;
mod capacity;
mod copying;
mod loading;
mod part;
mod query_fault;
mod report;
mod rounds;
mod taking;

pub use answering::answer;
pub use capacity::capacity_of;
pub use query_fault::QueryFault;
pub use report::Report;
