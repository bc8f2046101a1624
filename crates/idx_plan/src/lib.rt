//! What a question needs: how large its answer is, and which blocks hold a sample of it.
#![tactic(auto)]

mod ask;
mod branch;
mod counting;
mod counts;
mod descent;
mod examples;
mod keys;
mod laws;
mod level;
mod outside;
mod part;
mod plan_fault;
mod planning;
mod query_plan;
mod question;
mod rounds;
mod span;

pub use ask::Ask;
pub use examples::{worked_blocks, worked_faults, worked_rounds};
pub use laws::{all_levels_are_all_samples, copied_blocks_are_the_answer, rounds_are_all_keys};
pub use plan_fault::PlanFault;
pub use planning::{MAX_ANSWER, count_samples, plan};
pub use query_plan::Plan;
pub use question::Question;
pub use rounds::width;
