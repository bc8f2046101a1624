//! The world of a dataset, in which events are replayed one after another: what they leave is exactly what the definitions
//! say, so that the headline holds after every list of them.
#![tactic(auto)]

mod publishing;
mod replaying;
mod taking;
mod world;
mod world_refusal;

pub use idx_core_layers::StepRefusal;
pub use idx_events::Event;
pub use replaying::{replay, step};
pub use world::{World, holds_headline};
pub use world_refusal::WorldRefusal;
