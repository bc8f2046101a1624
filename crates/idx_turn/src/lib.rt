//! A value that is taken and given back: the same calls whether one owner has it or many have it in turn.
#![tactic(auto)]

mod examples;
mod held;
mod laws;
mod solo;
mod steps;
mod turn;

pub use examples::{alone, count, one_and_other, publish, publish_again, take_and_give};
pub use held::Held;
pub use laws::{beginnings, holds_made};
pub use solo::Solo;
pub use steps::{Step, Steps};
pub use turn::Turn;
