//! The one lock: a value that many seats take in turn, of which one, the writer's, may publish.
#![tactic(auto)]

mod chair;
mod examples;
mod laws;
mod rule;
mod seat;
mod seat_view;
mod turn_lock;

pub use chair::Chair;
pub use examples::{count_at, publish_at, publish_beside_count, take_at, take_at_two};
pub use laws::rule_of_seats;
pub use seat::Seat;
pub use turn_lock::TurnLock;

#[cfg(test)]
mod tests;
