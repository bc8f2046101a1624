//! A drill: a made volume is written, published and asked as in a real run, and the same is done again event by event.
#![tactic(auto)]

mod dataset;
mod drilling;
mod events;
mod level;
mod questions;
mod replaying;
mod writing;

pub use drilling::{Drilled, drill};
pub use level::Level;
