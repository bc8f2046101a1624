//! Several worker threads serve one dataset side by side, each with connections of its own, out of one hall.
#![tactic(auto)]

mod job;
mod laws;
mod moving;
mod total;
mod workers;

pub use laws::how_all_ended;
pub use workers::serve;
