//! A dataset with the pieces and ranks that its box is divided into, for the events that are replayed of it, and why an
//! event does not happen.
#![tactic(auto)]

mod division;
mod step_refusal;

pub use division::Division;
pub use step_refusal::StepRefusal;
