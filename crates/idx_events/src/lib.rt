//! What may happen to the timesteps and questions of a dataset, as plain definitions over abstract layers, and the theorem
//! that every list of events keeps what holds of a world.
#![tactic(auto)]

mod event;
mod examples;
mod laws;
mod phase;

pub use event::Event;
pub use examples::worked_run;
pub use laws::{events_keep, looks_are_of_the_newest};
pub use phase::Phase;
